//! Why the file of an image holds no module.
ghost use Rattle.std.specs.Prelude.{◌≡◌};
ghost use Rattle.domain_model.specs.Prepared.{refusal_detail, refusal_kind, refusal_number, refusal_value};

use harbor_verify::VerifyError;
use module_image::ImageError;
use unit_code::CodeError;

/// The refusal that stands in the file, whenever it is to be loaded.
#[derive(Clone, Copy, Debug, PartialEq, Eq)]
pub enum Refusal {
    /// It is no image.
    Image(ImageError),
    /// Its code has no units. It is never for want of memory.
    Code(CodeError),
    /// It is a rewriter's, and its words spell no units.
    Verify(VerifyError),
}

impl Refusal {
    /// The number of the refusal in the line of a load.
    pub fn number(&self) -> u8
        ensures { result ≡ refusal_number self.now }
    {
        match self {
            Refusal::Image(_) => 1,
            Refusal::Code(_) => 2,
            Refusal::Verify(_) => 3,
        }
    }

    /// The number of its kind.
    pub fn kind(&self) -> u8
        ensures { result ≡ refusal_kind self.now }
    {
        match self {
            Refusal::Image(error) => error.number(),
            Refusal::Code(error) => error.number().unwrap_or(0),
            Refusal::Verify(error) => error.number(),
        }
    }

    /// Its byte, version, word or count, or 0 where it has none.
    pub fn value(&self) -> u32
        ensures { result ≡ refusal_value self.now }
    {
        match self {
            Refusal::Image(error) => error.value(),
            Refusal::Code(error) => u32::from(error.word()),
            Refusal::Verify(error) => u32::from(error.word()),
        }
    }

    /// The kind of a refused instruction, or 0 where it has none.
    pub fn detail(&self) -> u8
        ensures { result ≡ refusal_detail self.now }
    {
        match self {
            Refusal::Image(_) | Refusal::Verify(_) => 0,
            Refusal::Code(error) => error.kind(),
        }
    }
}
