//! The conditions under which words are refused.

ghost use Rattle.std.specs.Prelude.{◌≡◌, ◌≤◌, ◌==◌, drop, length};
ghost use Rattle.unit_code.specs.Ends.{goes_on, leaves, long_length};
ghost use Rattle.unit_code.specs.Refusals.{first_refused, is_empty, is_group, lesser, may_skip, misaimed, refusal_of_items, refusal_of_units, refused_by, stray_mark};
ghost use Rattle.unit_code.specs.Targets.{AreFirstWords, number_of};

use crate::error::CodeError;
use crate::items::Item;
use crate::kinds::{Piece, Standing};
use crate::targets::{number_of, number_reached};
use crate::unit::{Shape, Unit, spelled_len};
use mote_base::Words;
use mote_layout::BANK_WORDS;

/// The conditions that name a word of the code.
#[derive(Clone, Copy)]
enum Condition {
    NoInstruction,
    Barred,
    Misaimed,
}

/// The first of the conditions on single words that holds, at its least word.
#[tactic(auto, unfolding(crate::specs::Refusals::refusal_of_items))]
pub fn refusal_of_items(items: &[Item], places: &[u16]) -> Option<CodeError>
    requires { AreFirstWords places.now }
    ensures { result ≡ refusal_of_items places.now items.now }
{
    if let Some(refusal) = first_refused(Condition::NoInstruction, items, places) {
        return Some(refusal);
    }
    if let Some(refusal) = first_refused(Condition::Barred, items, places) {
        return Some(refusal);
    }
    first_refused(Condition::Misaimed, items, places)
}

/// Where the condition first holds.
fn first_refused(condition: Condition, items: &[Item], places: &[u16]) -> Option<CodeError>
    requires { AreFirstWords places.now }
    ensures { result ≡ first_refused (refused_by condition places.now) items.now }
{
    for i in 0..items.len() {
        let refusal = refused_by(condition, places, &items[i..]);
        if refusal.is_some() {
            return refusal;
        }
    }
    None
}

/// Whether the condition holds of the first of these items, with those behind it.
fn refused_by(condition: Condition, places: &[u16], items: &[Item]) -> Option<CodeError>
    requires { AreFirstWords places.now }
    ensures { result ≡ refused_by condition places.now items.now }
{
    let [item, behind @ ..] = items else {
        return None;
    };
    let place = item.place;
    match (condition, item.standing) {
        (Condition::NoInstruction, Standing::NoInstruction) => Some(CodeError::Undefined(place)),
        (Condition::Barred, Standing::Barred(kind)) => Some(CodeError::Refused(place, kind)),
        (Condition::Misaimed, Standing::Part(piece)) => misaimed(piece, place, places, behind),
        _ => None,
    }
}

fn misaimed(piece: Piece, place: u16, places: &[u16], behind: &[Item]) -> Option<CodeError>
    requires { AreFirstWords places.now }
    ensures { result ≡ misaimed piece place places.now behind.now }
{
    let sound = match piece {
        Piece::Aimed(_, offset) => number_reached(places, place, offset).is_some(),
        Piece::Whole(Unit::Skip(_)) => may_skip(behind),
        Piece::Whole(_) => true,
    };
    if sound {
        None
    } else {
        Some(CodeError::Target(place))
    }
}

/// A skip needs two further units, of which the first is no group.
fn may_skip(behind: &[Item]) -> bool
    ensures { result ≡ may_skip behind.now }
{
    match behind {
        [next, _, ..] => !is_group(next.standing),
        _ => false,
    }
}

fn is_group(standing: Standing) -> bool
    ensures { result ≡ is_group standing }
{
    matches!(
        standing,
        Standing::Part(Piece::Whole(Unit::SpGroup { with_sreg: _ }))
    )
}

/// The first of the conditions on the list of units that holds.
#[tactic(auto, unfolding(crate::specs::Refusals::refusal_of_units))]
pub fn refusal_of_units(code: &Words<'_>, units: &[Unit]) -> Option<CodeError>
    requires { length units.now ≤ 65535 }
    ensures { result ≡ refusal_of_units code.now units.now }
{
    if goes_on(units) {
        return Some(CodeError::FallsOff);
    }
    if is_empty(code) {
        return Some(CodeError::Empty);
    }
    let words = long_length(units);
    if words > u32::from(BANK_WORDS) {
        return Some(CodeError::TooLong(words.min(65535) as u16));
    }
    None
}

fn is_empty(code: &Words<'_>) -> bool
    ensures { result ≡ is_empty code.now }
{
    code.len() == 0
}

/// Whether the last unit runs on past the end.
fn goes_on(units: &[Unit]) -> bool
    ensures { result ≡ goes_on units.now }
{
    match units.last() {
        Some(unit) => !leaves(unit),
        None => false,
    }
}

fn leaves(unit: &Unit) -> bool
    ensures { result ≡ leaves unit.now }
{
    matches!(unit, Unit::Jump(_) | Unit::Return)
}

fn long_length(units: &[Unit]) -> u32
    requires { length units.now ≤ 65535 }
    ensures { result ≡ long_length units.now }
{
    let mut words = 0;
    for unit in units {
        words += u32::from(spelled_len(unit, Shape::Long));
    }
    words
}

/// The least mark at which no unit begins.
#[tactic(auto, unfolding(crate::specs::Refusals::stray_mark))]
pub fn stray_mark(places: &[u16], marks: &[u16]) -> Option<CodeError>
    requires { AreFirstWords places.now }
    ensures { result ≡ stray_mark places.now marks.now }
{
    let mut least = None;
    for mark in marks {
        if number_of(places, usize::from(*mark)).is_none() {
            least = lesser(least, *mark);
        }
    }
    least.map(CodeError::Entry)
}

fn lesser(least: Option<u16>, mark: u16) -> Option<u16>
    ensures { result ≡ lesser least mark }
{
    match least {
        Some(other) => Some(other.min(mark)),
        None => Some(mark),
    }
}
