//! Why a text is no script.
ghost use Rattle.std.specs.Prelude.{◌≡◌, Option};
ghost use Rattle.event_script.specs.Law.{kind_number, line_number};

use std::alloc::{AllocError, AllocFailed};
use thiserror::Error;

/// Why a text is no script: the first condition that holds at the least line where one does. Lines are counted from 1.
#[derive(Clone, Copy, Debug, PartialEq, Eq, Error)]
pub enum ScriptError {
    /// The line is none of a script, or the last one has no end.
    #[error("line {0} is no line of a script")]
    Line(u64),
    /// The event of the line has a time before that of an earlier one.
    #[error("the event of line {0} comes before an earlier one")]
    Order(u64),
    /// The event of the line loads an image that isn't given.
    #[error("the event of line {0} loads an image that isn't given")]
    ImageIndex(u64),
    /// More events than there may be stand up to the line.
    #[error("the event of line {0} is one too many")]
    TooMany(u64),
    /// Memory ran out.
    #[error("out of memory")]
    NoMemory,
}

impl ScriptError {
    /// The number of its kind, from 1, or 0 for want of memory.
    pub fn number(&self) -> u8
        ensures { result ≡ kind_number self.now }
    {
        match self {
            ScriptError::Line(_) => 1,
            ScriptError::Order(_) => 2,
            ScriptError::ImageIndex(_) => 3,
            ScriptError::TooMany(_) => 4,
            ScriptError::NoMemory => 0,
        }
    }

    /// The number of the line that it names, or 0 for want of memory.
    pub fn line(&self) -> u64
        ensures { result ≡ line_number self.now }
    {
        match self {
            ScriptError::Line(line) | ScriptError::Order(line) => *line,
            ScriptError::ImageIndex(line) | ScriptError::TooMany(line) => *line,
            ScriptError::NoMemory => 0,
        }
    }
}

impl From<AllocError> for ScriptError {
    ghost use Rattle.std.specs.Prelude.{◌≡◌};
    ghost use Rattle.event_script.specs.declared.error.ScriptError.TheVariants.{NoMemory};

    ghost from_gives = { λ _ e. e ≡ NoMemory };

    fn from(_e: AllocError) -> ScriptError {
        ScriptError::NoMemory
    }
}

impl<T: Drop> From<AllocFailed<T>> for ScriptError {
    ghost use Rattle.std.specs.Prelude.{◌≡◌};
    ghost use Rattle.event_script.specs.declared.error.ScriptError.TheVariants.{NoMemory};

    ghost from_gives = { λ _ e. e ≡ NoMemory };

    fn from(_e: AllocFailed<T>) -> ScriptError {
        ScriptError::NoMemory
    }
}
