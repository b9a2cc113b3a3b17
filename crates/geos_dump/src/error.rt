//! Why a file was not printed.
ghost use Rattle.std.specs.Prelude.{◌≡◌};
ghost use Rattle.geos_dump.specs.declared.error.DumpError.TheVariants as error;

use std::alloc::{AllocError, AllocFailed};
use thiserror::Error;
use vm_file::Disk;

/// Why a file was not printed.
#[derive(Clone, Copy, Debug, Drop, Error)]
pub enum DumpError {
    /// The device failed, or gave bytes that are no heap under the block's handle.
    #[error("disk")]
    Disk,
    /// An allocation was refused.
    #[error("memory")]
    Memory,
}

impl From<Disk> for DumpError {
    ghost from_gives = { λ _ e. e ≡ error.Disk };

    fn from(_: Disk) -> DumpError {
        DumpError::Disk
    }
}

impl From<AllocError> for DumpError {
    ghost from_gives = { λ _ e. e ≡ error.Memory };

    fn from(_: AllocError) -> DumpError {
        DumpError::Memory
    }
}

impl<T: Drop> From<AllocFailed<T>> for DumpError {
    ghost from_gives = { λ _ e. e ≡ error.Memory };

    fn from(_: AllocFailed<T>) -> DumpError {
        DumpError::Memory
    }
}
