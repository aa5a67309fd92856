//! Why no module comes in, or none goes.
ghost use Rattle.std.specs.Prelude.{◌≡◌};
ghost use Rattle.mod_loader.specs.Loads.{load_detail, load_kind, load_number, load_value, of_file};

use domain_model::Refusal;
use harbor_verify::VerifyError;
use module_image::ImageError;
use thiserror::Error;
use unit_code::CodeError;

/// Why a module is not loaded: the first of these that holds.
#[derive(Clone, Copy, Debug, PartialEq, Eq, Error)]
pub enum LoadRefusal {
    /// The file is no image.
    #[error("{0}")]
    Image(ImageError),
    /// Its code has no units. It is never for want of memory.
    #[error("{0}")]
    Code(CodeError),
    /// It is a rewriter's, and its words spell no units.
    #[error("{0}")]
    Verify(VerifyError),
    /// A module with its id is loaded.
    #[error("a module with this id is loaded")]
    Duplicate,
    /// No domain is free.
    #[error("no domain is free")]
    Domain,
    /// No run of free blocks is long enough for its state, or none beside it for its constants.
    #[error("no run of free blocks is long enough")]
    Room,
}

/// No module has the id.
#[derive(Clone, Copy, Debug, PartialEq, Eq, Error)]
pub enum NotLoaded {
    #[error("no module has this id")]
    NotLoaded,
}

/// The refusal that stands in a file.
pub fn of_file(refusal: &Refusal) -> LoadRefusal
    ensures { result ≡ of_file refusal.now }
{
    match refusal {
        Refusal::Image(error) => LoadRefusal::Image(*error),
        Refusal::Code(error) => LoadRefusal::Code(*error),
        Refusal::Verify(error) => LoadRefusal::Verify(*error),
    }
}

impl LoadRefusal {
    /// Its number in the line of a load, 1 to 6.
    pub fn number(&self) -> u8
        ensures { result ≡ load_number self.now }
    {
        match self {
            LoadRefusal::Image(_) => 1,
            LoadRefusal::Code(_) => 2,
            LoadRefusal::Verify(_) => 3,
            LoadRefusal::Duplicate => 4,
            LoadRefusal::Domain => 5,
            LoadRefusal::Room => 6,
        }
    }

    /// The number of its kind, or 0 where it has none.
    pub fn kind(&self) -> u8
        ensures { result ≡ load_kind self.now }
    {
        match self {
            LoadRefusal::Image(error) => error.number(),
            LoadRefusal::Code(error) => error.number().unwrap_or(0),
            LoadRefusal::Verify(error) => error.number(),
            LoadRefusal::Duplicate | LoadRefusal::Domain | LoadRefusal::Room => 0,
        }
    }

    /// Its byte, version, word or count, or 0 where it has none.
    pub fn value(&self) -> u32
        ensures { result ≡ load_value self.now }
    {
        match self {
            LoadRefusal::Image(error) => error.value(),
            LoadRefusal::Code(error) => u32::from(error.word()),
            LoadRefusal::Verify(error) => u32::from(error.word()),
            LoadRefusal::Duplicate | LoadRefusal::Domain | LoadRefusal::Room => 0,
        }
    }

    /// The kind of a refused instruction, or 0 where it has none.
    pub fn detail(&self) -> u8
        ensures { result ≡ load_detail self.now }
    {
        match self {
            LoadRefusal::Code(error) => error.kind(),
            _ => 0,
        }
    }
}
