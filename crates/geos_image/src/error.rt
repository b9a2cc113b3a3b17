//! Why bytes are no image.

ghost use Rattle.std.specs.Prelude.{◌≡◌};
ghost use Rattle.geos_image.specs.declared.error.ReadError.TheVariants.{Memory};

use std::alloc::{AllocError, AllocFailed};
use thiserror::Error;

/// Why bytes could not be read as an image.
#[derive(Debug, Drop, Error)]
pub enum ReadError {
    /// The offset of the first byte of the first field, in file order, that is cut or breaks
    /// its rule.
    #[error("bad image at {0}")]
    BadImage(usize),
    /// An allocation was refused.
    #[error("memory")]
    Memory,
}

impl From<AllocError> for ReadError {
    ghost from_gives = { λ _ e. e ≡ Memory };

    fn from(_: AllocError) -> ReadError {
        ReadError::Memory
    }
}

impl<T: Drop> From<AllocFailed<T>> for ReadError {
    ghost from_gives = { λ _ e. e ≡ Memory };

    fn from(_: AllocFailed<T>) -> ReadError {
        ReadError::Memory
    }
}

impl From<usize> for ReadError {
    ghost use Rattle.geos_image.specs.declared.error.ReadError.TheVariants.{BadImage};

    ghost from_gives = { λ at e. e ≡ BadImage at };

    fn from(at: usize) -> ReadError {
        ReadError::BadImage(at)
    }
}
