//! Why an image is not rewritten.

use mote_base::NoMemory;
use thiserror::Error;
use unit_code::CodeError;

/// Why an image is not rewritten.
#[derive(Clone, Copy, Debug, PartialEq, Eq, Error)]
pub enum RewriteError {
    /// The code is a rewriter's: bit 0 of the flags is set.
    #[error("the image is rewritten")]
    Already,
    /// The code has no units. It is never want of memory.
    #[error("{0}")]
    Code(CodeError),
    /// Memory ran out.
    #[error("out of memory")]
    NoMemory,
}

impl From<NoMemory> for RewriteError {
    ghost use Rattle.std.specs.Prelude.{◌≡◌};
    ghost use Rattle.harbor_rewrite.specs.declared.error.RewriteError.TheVariants.{NoMemory};

    ghost from_gives = { λ _ e. e ≡ NoMemory };

    fn from(_e: NoMemory) -> RewriteError {
        RewriteError::NoMemory
    }
}
