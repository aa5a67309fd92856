//! How calls and the program end where they don't succeed.
ghost use Rattle.std.specs.Prelude.{◌≡◌};
ghost use Rattle.mote_base.specs.Statuses.{code_of};

use std::alloc::{AllocError, AllocFailed};
use thiserror::Error;

/// What the program answers. The numbers are its exit statuses.
#[derive(Clone, Copy, Debug, PartialEq, Eq)]
pub enum Status {
    /// The whole output was written.
    Done = 0,
    /// The words are no command.
    Usage = 2,
    /// The command refuses its files.
    Refused = 3,
    /// A call of the shelf failed.
    ReadFault = 4,
    /// A call of the sink failed.
    WriteFault = 5,
    /// Memory ran out before anything was written.
    NoMemory = 6,
}

impl Status {
    /// The exit status.
    pub fn code(self) -> u8
        ensures { result ≡ code_of self }
    {
        self as u8
    }
}

/// A call of the outside failed. The cause is known to the object that was called, which counts it.
#[derive(Clone, Copy, Debug, PartialEq, Eq, Error)]
#[error("the outside failed")]
pub struct Failed;

/// Memory ran out.
#[derive(Clone, Copy, Debug, PartialEq, Eq, Error)]
#[error("out of memory")]
pub struct NoMemory;

impl From<AllocError> for NoMemory {
    fn from(_e: AllocError) -> NoMemory {
        NoMemory
    }
}

impl<T: Drop> From<AllocFailed<T>> for NoMemory {
    fn from(_e: AllocFailed<T>) -> NoMemory {
        NoMemory
    }
}
