//! Why words are refused.
ghost use Rattle.std.specs.Prelude.{◌≡◌};
ghost use Rattle.unit_code.specs.Errors.{error_kind, error_number, error_word};

use std::alloc::{AllocError, AllocFailed};
use thiserror::Error;

/// Why a list of words has no units. The conditions are tried in this order.
#[derive(Clone, Copy, Debug, PartialEq, Eq, Error)]
pub enum CodeError {
    /// The word begins no instruction, or one whose second word is missing.
    #[error("the word at {0:#06x} is no instruction")]
    Undefined(u16),
    /// The instruction at the word is refused, with the kind of refused instructions that it belongs to.
    #[error("the instruction at {0:#06x} is refused by kind {1}")]
    Refused(u16, u8),
    /// The branch, jump or call at the word leads to no unit's first word, or the skip there can't skip.
    #[error("the instruction at {0:#06x} leads to no unit")]
    Target(u16),
    /// The last unit is neither a jump nor a return.
    #[error("the code runs past its end")]
    FallsOff,
    /// There is no word.
    #[error("there is no code")]
    Empty,
    /// The long spelling is longer than a bank of flash. It has this number of words, or more where it is 65,535.
    #[error("the code takes {0} words of flash")]
    TooLong(u16),
    /// The mark is no unit's first word.
    #[error("no unit begins at the entry {0:#06x}")]
    Entry(u16),
    /// Memory ran out.
    #[error("out of memory")]
    NoMemory,
}

impl CodeError {
    /// The number of the condition, from 1. Want of memory is none.
    pub fn number(&self) -> Option<u8>
        ensures { result ≡ error_number self.now }
    {
        match self {
            CodeError::Undefined(_) => Some(1),
            CodeError::Refused(_, _) => Some(2),
            CodeError::Target(_) => Some(3),
            CodeError::FallsOff => Some(4),
            CodeError::Empty => Some(5),
            CodeError::TooLong(_) => Some(6),
            CodeError::Entry(_) => Some(7),
            CodeError::NoMemory => None,
        }
    }

    /// The word or the count that the condition names, or 0.
    pub fn word(&self) -> u16
        ensures { result ≡ error_word self.now }
    {
        match self {
            CodeError::Undefined(word) | CodeError::Refused(word, _) => *word,
            CodeError::Target(word) | CodeError::Entry(word) => *word,
            CodeError::TooLong(words) => *words,
            CodeError::FallsOff | CodeError::Empty | CodeError::NoMemory => 0,
        }
    }

    /// The kind of the refused instruction, or 0.
    pub fn kind(&self) -> u8
        ensures { result ≡ error_kind self.now }
    {
        match self {
            CodeError::Refused(_, kind) => *kind,
            _ => 0,
        }
    }
}

impl From<AllocError> for CodeError {
    ghost use Rattle.std.specs.Prelude.{◌≡◌};
    ghost use Rattle.unit_code.specs.declared.error.CodeError.TheVariants.{NoMemory};

    ghost from_gives = { λ _ e. e ≡ NoMemory };

    fn from(_e: AllocError) -> CodeError {
        CodeError::NoMemory
    }
}

impl<T: Drop> From<AllocFailed<T>> for CodeError {
    ghost use Rattle.std.specs.Prelude.{◌≡◌};
    ghost use Rattle.unit_code.specs.declared.error.CodeError.TheVariants.{NoMemory};

    ghost from_gives = { λ _ e. e ≡ NoMemory };

    fn from(_e: AllocFailed<T>) -> CodeError {
        CodeError::NoMemory
    }
}
