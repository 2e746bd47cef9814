//! Why no picture is drawn.

ghost use Rattle.picture_layout.specs.Errors.{picture_error_number};
ghost use Rattle.std.specs.Prelude.{◌≡◌};

use std::alloc::{AllocError, AllocFailed};
use thiserror::Error;

/// Why no picture is drawn.
#[derive(Clone, Copy, Debug, PartialEq, Eq, Error)]
pub enum PictureError {
    /// A growth was refused.
    #[error("no memory")]
    Memory,
    /// There are 2^32 rows or processes.
    #[error("too long for a picture")]
    TooLong,
}

impl PictureError {
    /// The number of the error: 1 for want of memory, 2 for too many rows or processes.
    pub fn number(self) -> u8
        ensures { result ≡ picture_error_number self }
    {
        match self {
            PictureError::Memory => 1,
            PictureError::TooLong => 2,
        }
    }
}

impl From<AllocError> for PictureError {
    ghost use Rattle.picture_layout.specs.declared.error.PictureError.TheVariants.{Memory};
    ghost use Rattle.std.specs.Prelude.{◌≡◌};

    ghost from_gives = { λ _ e. e ≡ Memory };

    fn from(_e: AllocError) -> PictureError {
        PictureError::Memory
    }
}

impl<T: Drop> From<AllocFailed<T>> for PictureError {
    ghost use Rattle.picture_layout.specs.declared.error.PictureError.TheVariants.{Memory};
    ghost use Rattle.std.specs.Prelude.{◌≡◌};

    ghost from_gives = { λ _ e. e ≡ Memory };

    fn from(_e: AllocFailed<T>) -> PictureError {
        PictureError::Memory
    }
}
