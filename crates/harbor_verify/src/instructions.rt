//! Which instruction stands at a place, and whether it may.

ghost use Rattle.std.specs.Prelude.{◌≡◌, ◌+◌, ◌≤◌, ◌∷◌, [], IfNone, IfSome, drop, length, option_map};
ghost use Rattle.unit_code.specs.Items.{next_word};
ghost use Rattle.unit_code.specs.Lengths.{instruction_length};
ghost use Rattle.harbor_verify.specs.Decoding.{entry_called, instruction_first, may_appear, may_call, may_stand_as};
ghost use Rattle.harbor_verify.specs.Walks.{instructions};

use avr_isa::{Instr, decode};
use mote_base::Words;
use mote_layout::{Entry, RETURN_ENTRY, entry_of};
use unit_code::{Standing, standing_of};

/// An instruction in words, and where the next one begins.
#[derive(Clone, Copy)]
pub struct Placed {
    pub instruction: Instr,
    pub next: usize,
}

/// The instruction at a place; none where it is undefined or cut short, or where the words end.
#[tactic(auto, using(crate::proofs::ReadAt::read_at))]
pub fn instruction_at(code: &Words<'_>, place: usize) -> Option<Placed>
    requires { place ≤ length code.now }
    ensures first { option_map (λ found. found.instruction) result ≡ instruction_first (drop place code.now) }
    ensures next { IfSome result (λ found. found.next ≡ place + instruction_length found.instruction) }
    ensures within { IfSome result (λ found. found.next ≤ length code.now) }

    // the same, by all instructions of the words from the place on
    ensures none { IfNone result (instructions (drop place code.now) ≡ []) }
    ensures rest { IfSome result (λ found. instructions (drop place code.now)
        ≡ found.instruction ∷ instructions (drop found.next code.now)) }
{
    let end = code.len();
    if place == end {
        return None;
    }
    match decode(code.at(place), word_at(code, place + 1)) {
        Ok((instruction, count)) => Some(Placed {
            instruction,
            next: place + usize::from(count),
        }),
        Err(_) => None,
    }
}

/// The word at a place, if there is one.
fn word_at(code: &Words<'_>, place: usize) -> Option<u16>
    ensures { result ≡ next_word (drop place code.now) }
{
    if place < code.len() {
        Some(code.at(place))
    } else {
        None
    }
}

/// Whether the instruction stands in some template of an image that is sealed or not.
pub fn may_appear(sealed: bool, instruction: Instr) -> bool
    ensures { result ≡ may_appear sealed instruction }
{
    match instruction {
        Instr::Jmp(address) => address == u32::from(RETURN_ENTRY),
        Instr::Call(address) => may_call(sealed, entry_called(address)),
        _ => may_stand_as(standing_of(instruction)),
    }
}

fn may_stand_as(standing: Standing) -> bool
    ensures { result ≡ may_stand_as standing }
{
    match standing {
        Standing::Barred(kind) => kind == 5,
        _ => true,
    }
}

/// Whether an image that is sealed or not may call an entry. It jumps to that of returns.
fn may_call(sealed: bool, entry: Option<Entry>) -> bool
    ensures { result ≡ may_call sealed entry }
{
    match entry {
        Some(Entry::LoadLds) => sealed,
        Some(Entry::LoadX) | Some(Entry::LoadXInc) | Some(Entry::LoadXDec) => sealed,
        Some(Entry::LoadY(_)) | Some(Entry::LoadYInc) | Some(Entry::LoadYDec) => sealed,
        Some(Entry::LoadZ(_)) | Some(Entry::LoadZInc) | Some(Entry::LoadZDec) => sealed,
        Some(Entry::Return) | None => false,
        Some(_) => true,
    }
}

/// The entry of the page that a call enters; addresses of the page have 16 bits.
pub fn entry_called(address: u32) -> Option<Entry>
    ensures { result ≡ entry_called address }
{
    match u16::try_from(address) {
        Ok(address) => entry_of(address),
        Err(_) => None,
    }
}
