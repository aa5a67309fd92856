//! From words to the instruction.
#![tactic(auto, using(crate::proofs::Outcome::outcomes, crate::proofs::Length::outcome_length, crate::proofs::Encodable::encodable))]

ghost use Rattle.std.specs.Prelude.{◌≡◌, ◌↔◌, ◌≤◌, ℕ, IfOk};
ghost use Rattle.avr_isa.specs.declared.instruction.Instr.{Instr};
ghost use Rattle.avr_isa.specs.Decoded.{decoded};
ghost use Rattle.avr_isa.specs.Operands.{IsEncodable};
ghost use Rattle.avr_isa.specs.Place.{second_word};
ghost use Rattle.avr_isa.specs.Table.{HasNoRow, HasSecondWord, IsDecoded, Row, word_count};

use crate::first_word::{FirstWord, first_word};
use crate::instruction::{DecodeError, Instr};

/// The instruction that the words begin with, and its number of words.
///
/// `w1` is the word that follows `w0`. An instruction of one word does not look at it.
pub fn decode(w0: u16, w1: Option<u16>) -> Result<(Instr, u8), DecodeError>
    ensures ok { (i : Instr) (n : ℕ) → (result ≡ Ok (i, n)) ↔ Row w0 w1 i n }
    ensures undefined { (result ≡ Err (DecodeError.Undefined w0)) ↔ HasNoRow w0 }
    ensures needs_second { (result ≡ Err DecodeError.NeedsSecond) ↔ ((w1 ≡ None) × HasSecondWord w0) }

    // The same as one equation; and that `encode` takes what is decoded, that the words are there, and how many the
    // instruction has.
    ensures value { result ≡ decoded w0 w1 }
    ensures encodable { IfOk result (λ found. IsEncodable found.0) }
    ensures count { IfOk result (λ found. (1 ≤ found.1) × (found.1 ≤ word_count w1)) }
    ensures length { IfOk result (λ found. found.1 ≡ word_count (second_word found.0)) }
{
    outcome(w0, w1)
}

/// What the table says of the words.
fn outcome(w0: u16, w1: Option<u16>) -> Result<(Instr, u8), DecodeError>
    ensures row { IsDecoded w0 w1 result }
    ensures encodable { IfOk result (λ found. IsEncodable found.0) }
    ensures count { IfOk result (λ found. (1 ≤ found.1) × (found.1 ≤ word_count w1)) }
{
    let begun = match first_word(w0) {
        FirstWord::Whole(instruction) => return Ok((instruction, 1)),
        FirstWord::Begun(long) => long,
        FirstWord::Undefined => return Err(DecodeError::Undefined(w0)),
    };
    match w1 {
        Some(second) => Ok((begun.completed(second), 2)),
        None => Err(DecodeError::NeedsSecond),
    }
}
