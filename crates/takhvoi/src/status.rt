//! The numbers that calls return.

ghost use Rattle.std.specs.Prelude.{◌≡◌, ◌≤◌, Err, IfOk};
ghost use Rattle.geos_terms.specs.Refusals.{refusal_number};
ghost use Rattle.takhvoi.specs.Answers.{IsStatus};
ghost use Rattle.takhvoi.specs.Names.{name_of};

use geos_kernel::{Name, Refusal};

/// The call is done.
pub(crate) const DONE: u32 = 0;
/// The handle has no kernel.
pub(crate) const NO_KERNEL: u32 = 100;
/// The block is not locked.
pub(crate) const NOT_LOCKED: u32 = 101;
/// The block is one of the VM file, and not marked.
pub(crate) const NOT_MARKED: u32 = 102;
/// A block of the VM file is locked.
pub(crate) const FILE_LOCKED: u32 = 103;
/// The handle has a kernel already.
pub(crate) const HAS_KERNEL: u32 = 104;
/// A size, or a range of bytes, is not within its limits.
pub(crate) const BAD_SIZE: u32 = 105;
/// The host has not performed every noted step.
pub(crate) const PENDING: u32 = 106;
/// The bytes encode no VM file.
pub(crate) const BAD_FILE: u32 = 110;
/// The allocator refuses memory.
pub(crate) const NO_MEMORY: u32 = 111;

/// The bytes encode no image, or the text has a fault.
pub(crate) const BAD_IMAGE: u32 = 112;
/// The verifier refuses the image, or no rows are found for the text.
pub(crate) const REFUSED: u32 = 113;
/// There is no such image or public routine, a word is past its bound, or the blocks are not those that the routine borrows.
pub(crate) const NOT_ADMITTED: u32 = 114;
/// The buffer is too short.
pub(crate) const SHORT_BUFFER: u32 = 115;
/// A public routine has an effect that is not granted.
pub(crate) const NOT_GRANTED: u32 = 116;

/// The block with a number: a handle, or a handle and 65,536 for a block of the VM file.
pub(crate) fn name_of(block: u32) -> Name
    ensures { result ≡ name_of block }
{
    if block < 65_536 {
        Name::mem(block as u16)
    } else {
        Name::vm((block % 65_536) as u16)
    }
}

/// The number of a refusal, or 0 with the answer in `told`.
pub(crate) fn tell(reply: Result<u16, Refusal>, told: &mut u16) -> u32
    ensures status { IsStatus reply result }
    ensures told { IfOk reply (λ n. told.new ≡ n) }
    ensures no_room { result ≡ 4 → reply ≡ Err Refusal.NoRoom }
    ensures small { result ≤ 15 }
{
    match reply {
        Ok(n) => {
            *told = n;
            DONE
        }
        Err(refusal) => number(refusal),
    }
}

/// The number of a refusal, or 0.
pub(crate) fn end(reply: Result<(), Refusal>) -> u32
    ensures status { IsStatus reply result }
    ensures no_room { result ≡ 4 → reply ≡ Err Refusal.NoRoom }
    ensures small { result ≤ 15 }
{
    match reply {
        Ok(()) => DONE,
        Err(refusal) => number(refusal),
    }
}

/// The number of a refusal.
#[tactic(auto, using(crate::proofs::Refusing::only_no_room))]
pub(crate) fn number(refusal: Refusal) -> u32
    ensures number { result ≡ refusal_number refusal }
    ensures no_room { result ≡ 4 → refusal ≡ Refusal.NoRoom }
    ensures small { result ≤ 15 }
{
    u32::from(refusal.number())
}
