//! The verdict on words.

ghost use Rattle.std.specs.Prelude.{◌≡◌, ◌^◌, ◌<◌, ◌≤◌, ℕ, List, IfOk, IfErr, IfNone, IsOkAnd, MatchResult, None, Some, length};
ghost use Rattle.std.specs.List.{AllByRecursion};
ghost use Rattle.unit_code.specs.Spelling.{Spells};
ghost use Rattle.unit_code.specs.declared.unit.Unit.{Unit};
ghost use Rattle.harbor_verify.specs.Law.{IsFirst};
ghost use Rattle.harbor_verify.specs.Parts.{ArePartsOf, IsAccepted};
ghost use Rattle.harbor_verify.specs.Verdict.{refusal, refusal_of_parts, units_in};
ghost use Rattle.harbor_verify.specs.Walks.{starts_in};

use crate::ends::{refusal_of_units, stray_entry};
use crate::error::VerifyError;
use crate::starts::Starts;
use crate::targets::first_astray;
use crate::walks::{first_unfit, note_starts};
use mote_base::Words;

/// Says how many units the words spell, for an image that is sealed or not and is entered at the marks, and leaves the
/// starts of their templates in `starts`; or says why they spell none, and then nothing is said of `starts`.
///
/// A place is a u16: there are at most 65,535 words.
pub fn verify(
    code: &Words<'_>,
    marks: &[u16],
    sealed: bool,
    starts: &mut Starts,
) -> Result<u16, VerifyError>
    requires { length code.now ≤ 65535 }
    ensures ok { IfOk result (λ count. (units : List Unit) × Spells code.now marks.now sealed units starts.new
        × (count ≡ length units)) }
    ensures accepted { IfOk result (λ _. IsAccepted code.now starts.new) }

    // Wherever there are such units, they are the ones.
    ensures only { (units : List Unit) (places : List ℕ) → Spells code.now marks.now sealed units places
        → IsOkAnd result (λ count. (count ≡ length units) × (starts.new ≡ places)) }

    // A refusal is the first condition that holds, at its least word.
    ensures first { IfErr result (λ e. IsFirst code.now marks.now sealed e) }

    // All of this as functions of the words.
    ensures value { MatchResult result
        (λ count. (refusal code.now marks.now sealed ≡ None) × (starts.new ≡ starts_in code.now)
        × (count ≡ length (units_in code.now)))
        (λ e. refusal code.now marks.now sealed ≡ Some e) }
{
    // that words have 16 bits is said where they are counted
    let _count = code.len();
    match refused(code, marks, sealed, starts) {
        None => Ok(starts.as_slice().len() as u16),
        Some(e) => Err(e),
    }
}

/// Why the words spell no units, if they don't.
fn refused(
    code: &Words<'_>,
    marks: &[u16],
    sealed: bool,
    starts: &mut Starts,
) -> Option<VerifyError>
    requires few { length code.now ≤ 65535 }
    requires small { AllByRecursion (λ word. word < 2 ^ 16) code.now }
    ensures value { result ≡ refusal code.now marks.now sealed }
    ensures starts { IfNone result (starts.new ≡ starts_in code.now) }
{
    if let Some(place) = first_unfit(code, sealed) {
        return Some(VerifyError::Word(place));
    }
    if let Some(place) = note_starts(code, sealed, starts) {
        return Some(VerifyError::Guard(place));
    }
    refused_parts(code, marks, starts.as_slice())
}

/// Why words that are templates side by side spell no units, if they don't.
fn refused_parts(code: &Words<'_>, marks: &[u16], starts: &[u16]) -> Option<VerifyError>
    requires { ArePartsOf code.now starts.now }
    ensures { result ≡ refusal_of_parts code.now marks.now }
{
    if let Some(place) = first_astray(code, starts) {
        return Some(VerifyError::Target(place));
    }
    match refusal_of_units(code, starts) {
        None => stray_entry(starts, marks),
        Some(e) => Some(e),
    }
}
