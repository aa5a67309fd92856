//! What stands against the units themselves, and against the marks at which they are entered.

ghost use Rattle.std.specs.Prelude.{◌≡◌, ◌+◌, ◌<◌, ◌≤◌, length, min, nat_lt};
ghost use Rattle.mote_layout.specs.Memory.{bank_words};
ghost use Rattle.unit_code.specs.Ends.{goes_on, leaves, long_length};
ghost use Rattle.unit_code.specs.Refusals.{is_empty, lesser};
ghost use Rattle.unit_code.specs.Targets.{AreFirstWords};
ghost use Rattle.harbor_verify.specs.Parts.{ArePartsOf, HaveUnits};
ghost use Rattle.harbor_verify.specs.Verdict.{refusal_of_units, stray_mark, told_where, units_in};

use crate::error::VerifyError;
use crate::targets::unit_at;
use mote_base::Words;
use mote_layout::BANK_WORDS;
use unit_code::{Shape, Unit, number_of, spelled_len};

/// The first of FallsOff, Empty and TooLong that holds.
#[tactic(auto, unfolding(crate::specs::Verdict::refusal_of_units))]
pub fn refusal_of_units(code: &Words<'_>, starts: &[u16]) -> Option<VerifyError>
    requires parts { ArePartsOf code.now starts.now }
    requires units { HaveUnits code.now }
    ensures { result ≡ refusal_of_units code.now (units_in code.now) }
{
    if goes_on(code, starts) {
        Some(VerifyError::FallsOff)
    } else if has_no_words(code) {
        Some(VerifyError::Empty)
    } else {
        too_long(long_length(code, starts))
    }
}

fn has_no_words(code: &Words<'_>) -> bool
    ensures { result ≡ is_empty code.now }
{
    code.len() == 0
}

/// More words than a bank of flash has.
fn too_long(length: u32) -> Option<VerifyError>
    ensures { result ≡ told_where (nat_lt bank_words length) (VerifyError.TooLong (min length 65535)) }
{
    if length > u32::from(BANK_WORDS) {
        Some(VerifyError::TooLong(length.min(65535) as u16))
    } else {
        None
    }
}

/// Whether there is a last unit, and control runs past it.
fn goes_on(code: &Words<'_>, starts: &[u16]) -> bool
    requires parts { ArePartsOf code.now starts.now }
    requires units { HaveUnits code.now }
    ensures { result ≡ goes_on (units_in code.now) }
{
    let count = starts.len();
    if count == 0 {
        return false;
    }
    !leaves(unit_at(code, starts, count - 1))
}

fn leaves(unit: Unit) -> bool
    ensures { result ≡ leaves unit }
{
    match unit {
        Unit::Jump(_) | Unit::Return => true,
        _ => false,
    }
}

/// How many words the units have where each is spelled long.
fn long_length(code: &Words<'_>, starts: &[u16]) -> u32
    requires parts { ArePartsOf code.now starts.now }
    requires units { HaveUnits code.now }
    ensures { result ≡ long_length (units_in code.now) }
{
    let mut length = 0;
    for n in 0..starts.len() {
        length += u32::from(spelled_len(&unit_at(code, starts, n), Shape::Long));
    }
    length
}

/// The least mark that is no start.
#[tactic(auto, unfolding(crate::specs::Verdict::stray_mark))]
pub fn stray_entry(starts: &[u16], marks: &[u16]) -> Option<VerifyError>
    requires { AreFirstWords starts.now }
    ensures { result ≡ stray_mark starts.now marks.now }
{
    let mut least = None;
    for mark in marks {
        let word = usize::from(*mark);
        if number_of(starts, word).is_none() {
            least = lesser(least, *mark);
        }
    }
    least.map(VerifyError::Entry)
}

/// The lesser of a mark and another, if there is another.
fn lesser(other: Option<u16>, mark: u16) -> Option<u16>
    ensures { result ≡ lesser other mark }
{
    let least = match other {
        None => mark,
        Some(other) => other.min(mark),
    };
    Some(least)
}
