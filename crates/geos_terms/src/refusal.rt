//! Why calls of the kernel, and instructions, are refused.

ghost use Rattle.std.specs.Prelude.{◌≡◌};

use thiserror::Error;

/// Why a call of the kernel, or an instruction, is refused. Every block keeps its chunks, its
/// size, its count of locks and its mark; references may have become stale. After a `Disk` from
/// a commit it may not be sure any more what the device holds. Each refusal has a number, which
/// a routine sees in w7.
#[derive(Clone, Copy, Debug, Drop, PartialEq, Eq, Error)]
pub enum Refusal {
    /// No block has this handle; or, for a call on a group or its items, no group has.
    #[error("no block of this kind has this handle")]
    BadHandle,
    /// No chunk of the block has this handle.
    #[error("no chunk has this handle")]
    BadChunk,
    /// The chunk, or the element of an array, has fewer bytes than are required.
    #[error("the chunk or element is too short")]
    Short,
    /// The region has no room for a block that is made or grows, or for a block of the VM file that
    /// is brought into memory.
    #[error("no room in the region")]
    NoRoom,
    /// All 1,024 handles are in use, or for a block of global memory all up to the limit.
    #[error("no handle is free")]
    NoHandle,
    /// The block would need more than 65,520 bytes; or the directories that a commit is to keep need
    /// more than an area of the VM file has.
    #[error("too big")]
    TooBig,
    /// The count of locks can't rise, or the block is locked and can't be freed.
    #[error("the block is locked")]
    Locked,
    /// The chunk's bytes are no array, or its elements have one size and can't get another.
    #[error("the chunk is no such array")]
    BadArray,
    /// The array has no element of this index.
    #[error("no element has this index")]
    BadElement,
    /// 1,024 words were output already.
    #[error("no more words can be put out")]
    Full,
    /// The device failed.
    #[error("the device failed")]
    Disk,
    /// It is not sure what the device holds, so that nothing more is written to it: the file is
    /// to be opened again.
    #[error("it is not sure what the device holds")]
    Unsure,
    /// An allocation was refused.
    #[error("out of memory")]
    Memory,
    /// The offset, or where the bytes end, is past the end of the chunk or of the pointer's bytes; or
    /// an item other than 0 is to be the map item where the group is 0.
    #[error("out of range")]
    Range,
    /// The user ID of groups is given, or a group is named, where a block is required.
    #[error("the user ID is reserved for groups")]
    Reserved,
}

impl Refusal {
    ghost use Rattle.geos_terms.specs.Refusals.{refusal_number};

    /// The refusal's number.
    pub fn number(self) -> u16
        ensures { result ≡ refusal_number self }
    {
        match self {
            Refusal::BadHandle => 1,
            Refusal::BadChunk => 2,
            Refusal::Short => 3,
            Refusal::NoRoom => 4,
            Refusal::NoHandle => 5,
            Refusal::TooBig => 6,
            Refusal::Locked => 7,
            Refusal::BadArray => 8,
            Refusal::BadElement => 9,
            Refusal::Full => 10,
            Refusal::Disk => 11,
            Refusal::Unsure => 12,
            Refusal::Memory => 13,
            Refusal::Range => 14,
            Refusal::Reserved => 15,
        }
    }
}
