//! Why calls on VM blocks refuse.
ghost use Rattle.std.specs.Prelude.{◌≡◌};
ghost use Rattle.vm_blocks.specs.Refused.{lock_error_of, why_not_brought, why_not_freed, why_not_locked, why_not_made};

use geos_terms::Refusal;
use thiserror::Error;

/// No stretch of the region has room, although every other idle block of the file was evicted.
#[derive(Clone, Copy, Debug, Drop, PartialEq, Eq, Error)]
#[error("no room in the region")]
pub struct NoRoom;

/// Why a block was not brought into memory.
#[derive(Clone, Copy, Debug, Drop, PartialEq, Eq, Error)]
pub enum BringError {
    /// No block has this handle.
    #[error("no block has this handle")]
    BadHandle,
    /// No stretch of the region has room.
    #[error("no room in the region")]
    NoRoom,
    /// The device failed, or returned bytes that are no heap under this handle.
    #[error("disk")]
    Disk,
}

impl BringError {
    /// The kernel's refusal for this error.
    pub fn refusal(self) -> Refusal
        ensures { result ≡ why_not_brought self }
    {
        match self {
            BringError::BadHandle => Refusal::BadHandle,
            BringError::NoRoom => Refusal::NoRoom,
            BringError::Disk => Refusal::Disk,
        }
    }
}

/// Why a block was not locked.
#[derive(Clone, Copy, Debug, Drop, PartialEq, Eq, Error)]
pub enum LockError {
    /// No block has this handle.
    #[error("no block has this handle")]
    BadHandle,
    /// Its lock count can't rise.
    #[error("the block is locked")]
    Locked,
    /// No stretch of the region has room.
    #[error("no room in the region")]
    NoRoom,
    /// The device failed, or returned bytes that are no heap under this handle.
    #[error("disk")]
    Disk,
}

impl LockError {
    /// The kernel's refusal for this error.
    pub fn refusal(self) -> Refusal
        ensures { result ≡ why_not_locked self }
    {
        match self {
            LockError::BadHandle => Refusal::BadHandle,
            LockError::Locked => Refusal::Locked,
            LockError::NoRoom => Refusal::NoRoom,
            LockError::Disk => Refusal::Disk,
        }
    }
}

/// A block that was not brought is not locked, for the same reason.
impl From<BringError> for LockError {
    ghost from_gives = { λ why e. e ≡ lock_error_of why };

    fn from(why: BringError) -> LockError {
        match why {
            BringError::BadHandle => LockError::BadHandle,
            BringError::NoRoom => LockError::NoRoom,
            BringError::Disk => LockError::Disk,
        }
    }
}

/// Why no block was made.
#[derive(Clone, Copy, Debug, Drop, PartialEq, Eq, Error)]
pub enum NewError {
    /// All 1,024 handles are listed.
    #[error("no handle is free")]
    NoHandle,
    /// No stretch of the region has room.
    #[error("no room in the region")]
    NoRoom,
}

impl NewError {
    /// The kernel's refusal for this error.
    pub fn refusal(self) -> Refusal
        ensures { result ≡ why_not_made self }
    {
        match self {
            NewError::NoHandle => Refusal::NoHandle,
            NewError::NoRoom => Refusal::NoRoom,
        }
    }
}

/// Why a block was not freed. Nothing has changed.
#[derive(Clone, Copy, Debug, Drop, PartialEq, Eq, Error)]
pub enum FreeError {
    /// No block has this handle.
    #[error("no block has this handle")]
    BadHandle,
    /// The block is locked.
    #[error("the block is locked")]
    Locked,
}

impl FreeError {
    /// The kernel's refusal for this error.
    pub fn refusal(self) -> Refusal
        ensures { result ≡ why_not_freed self }
    {
        match self {
            FreeError::BadHandle => Refusal::BadHandle,
            FreeError::Locked => Refusal::Locked,
        }
    }
}
