//! Refusals of the crates below, as the kernel says them.

ghost use Rattle.std.specs.Prelude.{◌≡◌};
ghost use Rattle.vm_blocks.specs.Refused.{of_commit, of_free, of_lock, of_new, of_uid};
ghost use Rattle.geos_kernel.specs.Refused.{of_handle};

use block_handles::HandleError;
use geos_terms::Refusal;
use vm_blocks::{FreeError, LockError, NewError};
use vm_file::CommitError;

/// Why a block of global memory was not locked or freed.
pub(crate) fn of_handle(done: Result<(), HandleError>) -> Result<(), Refusal>
    ensures { result ≡ of_handle done }
{
    match done {
        Ok(()) => Ok(()),
        Err(HandleError::BadHandle) => Err(Refusal::BadHandle),
        Err(HandleError::Locked) => Err(Refusal::Locked),
    }
}

/// Why no block of the file was made.
pub(crate) fn of_new(made: Result<u16, NewError>) -> Result<u16, Refusal>
    ensures { result ≡ of_new made }
{
    match made {
        Ok(h) => Ok(h),
        Err(why) => Err(why.refusal()),
    }
}

/// Why a block of the file was not locked.
pub(crate) fn of_lock(locked: Result<(), LockError>) -> Result<(), Refusal>
    ensures { result ≡ of_lock locked }
{
    match locked {
        Ok(()) => Ok(()),
        Err(why) => Err(why.refusal()),
    }
}

/// Why a block of the file was not freed.
pub(crate) fn of_free(freed: Result<(), FreeError>) -> Result<(), Refusal>
    ensures { result ≡ of_free freed }
{
    match freed {
        Ok(()) => Ok(()),
        Err(why) => Err(why.refusal()),
    }
}

/// The user ID of a block of the file, or that there is none.
pub(crate) fn of_uid(uid: Option<u16>) -> Result<u16, Refusal>
    ensures { result ≡ of_uid uid }
{
    match uid {
        Some(uid) => Ok(uid),
        None => Err(Refusal::BadHandle),
    }
}

/// Why nothing was committed.
pub(crate) fn of_commit(done: Result<(), CommitError>) -> Result<(), Refusal>
    ensures { result ≡ of_commit done }
{
    match done {
        Ok(()) => Ok(()),
        Err(CommitError::Unsure) => Err(Refusal::Unsure),
        Err(CommitError::TooBig) => Err(Refusal::TooBig),
        Err(CommitError::Memory) => Err(Refusal::Memory),
        Err(CommitError::Disk) => Err(Refusal::Disk),
    }
}
