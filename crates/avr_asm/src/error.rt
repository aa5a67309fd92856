//! Why a text is not assembled, and why an image has no source.
ghost use Rattle.std.specs.Prelude.{◌≡◌};
ghost use Rattle.avr_asm.specs.Errors.{kind_number, line_number};

use mote_base::NoMemory;
use std::alloc::{AllocError, AllocFailed};
use thiserror::Error;
use unit_code::CodeError;

/// Why a text is not assembled: the first condition that holds in this order, with its least line. Lines are counted from 1.
#[derive(Clone, Copy, Debug, PartialEq, Eq, Error)]
pub enum AsmError {
    /// The line is none of the language or out of its place, or it is the line behind the last where the text ends too early.
    #[error("line {0} is no line of a module here")]
    Line(u64),
    /// The label of the line was given before or has no unit behind it, or the line uses a name without a label.
    #[error("the name of line {0} labels no one unit")]
    Label(u64),
    /// The target of the line is no unit, lies out of a branch's reach, or is the next unit of a call.
    #[error("the target of line {0} is out of reach")]
    Target(u64),
    /// The skip of the line can't skip, or it has the last unit of code that runs past its end or is too long.
    #[error("the code doesn't go on behind line {0}")]
    Code(u64),
    /// Memory ran out.
    #[error("out of memory")]
    NoMemory,
}

impl AsmError {
    /// The number of its kind, from 1, or 0 for want of memory.
    pub fn number(&self) -> u8
        ensures { result ≡ kind_number self.now }
    {
        match self {
            AsmError::Line(_) => 1,
            AsmError::Label(_) => 2,
            AsmError::Target(_) => 3,
            AsmError::Code(_) => 4,
            AsmError::NoMemory => 0,
        }
    }

    /// The number of the line that it names, or 0 for want of memory.
    pub fn line(&self) -> u64
        ensures { result ≡ line_number self.now }
    {
        match self {
            AsmError::Line(line) | AsmError::Label(line) => *line,
            AsmError::Target(line) | AsmError::Code(line) => *line,
            AsmError::NoMemory => 0,
        }
    }
}

/// Why an image has no source.
#[derive(Clone, Copy, Debug, PartialEq, Eq, Error)]
pub enum SourceError {
    /// A rewriter made the image.
    #[error("the image is rewritten")]
    Rewritten,
    /// The code has no units.
    #[error("the code has no units: {0}")]
    Code(CodeError),
    /// Memory ran out.
    #[error("out of memory")]
    NoMemory,
}

impl From<AllocError> for AsmError {
    ghost use Rattle.std.specs.Prelude.{◌≡◌};
    ghost use Rattle.avr_asm.specs.declared.error.AsmError.TheVariants.{NoMemory};

    ghost from_gives = { λ _ e. e ≡ NoMemory };

    fn from(_e: AllocError) -> AsmError {
        AsmError::NoMemory
    }
}

impl<T: Drop> From<AllocFailed<T>> for AsmError {
    ghost use Rattle.std.specs.Prelude.{◌≡◌};
    ghost use Rattle.avr_asm.specs.declared.error.AsmError.TheVariants.{NoMemory};

    ghost from_gives = { λ _ e. e ≡ NoMemory };

    fn from(_e: AllocFailed<T>) -> AsmError {
        AsmError::NoMemory
    }
}

impl From<NoMemory> for AsmError {
    ghost use Rattle.std.specs.Prelude.{◌≡◌};
    ghost use Rattle.avr_asm.specs.declared.error.AsmError.TheVariants as error;

    ghost from_gives = { λ _ e. e ≡ error.NoMemory };

    fn from(_e: NoMemory) -> AsmError {
        AsmError::NoMemory
    }
}

impl From<AllocError> for SourceError {
    ghost use Rattle.std.specs.Prelude.{◌≡◌};
    ghost use Rattle.avr_asm.specs.declared.error.SourceError.TheVariants.{NoMemory};

    ghost from_gives = { λ _ e. e ≡ NoMemory };

    fn from(_e: AllocError) -> SourceError {
        SourceError::NoMemory
    }
}

impl<T: Drop> From<AllocFailed<T>> for SourceError {
    ghost use Rattle.std.specs.Prelude.{◌≡◌};
    ghost use Rattle.avr_asm.specs.declared.error.SourceError.TheVariants.{NoMemory};

    ghost from_gives = { λ _ e. e ≡ NoMemory };

    fn from(_e: AllocFailed<T>) -> SourceError {
        SourceError::NoMemory
    }
}
