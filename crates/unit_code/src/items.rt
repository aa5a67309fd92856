//! Words read one after the other: what stands where.

ghost use Rattle.std.specs.Prelude.{◌≡◌, ◌+◌, ◌≤◌, drop, length, map, IfOk, IfErr};
ghost use Rattle.avr_isa.specs.Decoded.{decoded};
ghost use Rattle.unit_code.specs.Items.{found, is_word, items_of, next_word, read};
ghost use Rattle.unit_code.specs.Sound.{AreSound, IsSound};

use crate::error::CodeError;
use crate::kinds::{Piece, Standing, standing_of};
use crate::unit::Unit;
use avr_isa::decode;
use mote_base::Words;
use std::alloc::Global;

/// What was read at a word. The word is its place, counted from 0.
#[derive(Clone, Copy)]
pub struct Item {
    pub place: u16,
    pub standing: Standing,
}

/// OUT of R29 to SP's high byte, of R0 to SREG and of R28 to SP's low byte.
const OUT_SPH: u16 = 0xBFDE;

const OUT_SREG: u16 = 0xBE0F;

const OUT_SPL: u16 = 0xBFCD;

/// What stands at each place where something begins, in order.
pub fn items_of(alloc: Global, code: &Words<'_>) -> Result<Vec<Item>, CodeError>
    requires { length code.now ≤ 65535 }
    ensures items { IfOk result (λ items. items.items ≡ items_of code.now) }
    ensures sound { IfOk result (λ items. AreSound items.items) }
    ensures memory { IfErr result (λ e. e ≡ CodeError.NoMemory) }
{
    let mut items = Vec::new(alloc);
    // words that still belong to the item before
    let mut over = 0u8;
    for place in 0..code.len() {
        if over > 0 {
            over -= 1;
            continue;
        }
        let second = word_at(code, place + 1);
        let third = word_at(code, place + 2);
        let (standing, further) = found(code.at(place), second, third);
        let place = place as u16;
        items.push(Item { place, standing })?;
        over = further;
    }
    Ok(items)
}

/// The word with that index, or None past the end.
fn word_at(code: &Words<'_>, index: usize) -> Option<u16>
    ensures { result ≡ next_word (drop index code.now) }
{
    if index < code.len() {
        Some(code.at(index))
    } else {
        None
    }
}

/// What stands at a word with those behind it, and how many of these belong to it.
#[tactic(auto, unfolding(crate::specs::Items::found))]
fn found(first: u16, second: Option<u16>, third: Option<u16>) -> (Standing, u8)
    ensures value { result ≡ found first second third }
    ensures sound { IsSound result.0 }
{
    if first == OUT_SPH && is_word(OUT_SREG, second) && is_word(OUT_SPL, third) {
        (group(true), 2)
    } else if first == OUT_SPH && is_word(OUT_SPL, second) {
        (group(false), 1)
    } else {
        read(first, second)
    }
}

fn is_word(expected: u16, word: Option<u16>) -> bool
    ensures { result ≡ is_word expected word }
{
    match word {
        Some(word) => word == expected,
        None => false,
    }
}

fn group(with_sreg: bool) -> Standing
    ensures { result ≡ Standing.Part (Piece.Whole (Unit.SpGroup with_sreg)) }
{
    Standing::Part(Piece::Whole(Unit::SpGroup { with_sreg }))
}

#[tactic(auto, using(crate::proofs::SoundKinds::standing_is_sound))]
fn read(first: u16, second: Option<u16>) -> (Standing, u8)
    ensures value { result ≡ read (decoded first second) }
    ensures sound { IsSound result.0 }
{
    match decode(first, second) {
        Ok((instruction, count)) => (standing_of(instruction), count - 1),
        Err(_) => (Standing::NoInstruction, 0),
    }
}

/// The places of items, in order.
pub fn places(alloc: Global, items: &[Item]) -> Result<Vec<u16>, CodeError>
    ensures places { IfOk result (λ places. places.items ≡ map (λ item. item.place) items.now) }
    ensures memory { IfErr result (λ e. e ≡ CodeError.NoMemory) }
{
    let mut places = Vec::new(alloc);
    for item in items {
        places.push(item.place)?;
    }
    Ok(places)
}
