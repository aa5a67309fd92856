//! Why a file is no image.
ghost use Rattle.std.specs.Prelude.{◌≡◌};
ghost use Rattle.module_image.specs.Refusal.{number_of, value_of};

use thiserror::Error;

/// The refusal of the first field that fails. Places count bytes from the file's front.
#[derive(Clone, Copy, Debug, PartialEq, Eq, Error)]
pub enum ImageError {
    /// The file ends before the last byte of a field. The value is the file's length.
    #[error("the file ends after {0} bytes, inside a field")]
    Short(u32),
    /// The file doesn't begin with `SOSM`.
    #[error("the file is no image")]
    Magic,
    /// The format's version is neither 1 nor 2. The value is the version.
    #[error("version {0} of the format is unknown")]
    Version(u8),
    /// A field breaks its rule. The value is the place of its first byte.
    #[error("the field at byte {0} breaks its rule")]
    Field(u32),
    /// Bytes follow the last field. The value is the place of the first of them.
    #[error("the image ends before byte {0}")]
    Long(u32),
}

impl ImageError {
    /// The number of its kind, from 1 to 5.
    pub fn number(&self) -> u8
        ensures { result ≡ number_of self.now }
    {
        match self {
            ImageError::Short(_) => 1,
            ImageError::Magic => 2,
            ImageError::Version(_) => 3,
            ImageError::Field(_) => 4,
            ImageError::Long(_) => 5,
        }
    }

    /// Its place or its version, and 0 where it has none.
    pub fn value(&self) -> u32
        ensures { result ≡ value_of self.now }
    {
        match *self {
            ImageError::Short(at) | ImageError::Field(at) | ImageError::Long(at) => at,
            ImageError::Version(version) => version.into(),
            ImageError::Magic => 0,
        }
    }
}
