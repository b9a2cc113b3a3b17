//! Why calls refuse. After a refusal the block is unchanged.
ghost use Rattle.std.specs.Prelude.{◌≡◌};

use lmem_block::BadChunk;
use thiserror::Error;

/// Why a block has no room for a chunk, or for more bytes of one.
#[derive(Clone, Copy, Debug, Drop, PartialEq, Eq, Error)]
pub enum RoomError {
    /// No block is large enough: it would need more than 65,520 bytes.
    #[error("the block would be too big")]
    TooBig,
    /// The block needs this size in bytes, a multiple of 16.
    #[error("the block needs {0} bytes")]
    NeedMore(u16),
}

/// Why a chunk did not get another length.
#[derive(Clone, Copy, Debug, Drop, PartialEq, Eq, Error)]
pub enum ReallocError {
    /// No chunk has this handle.
    #[error("no chunk has this handle")]
    BadChunk,
    /// The block has no room for it.
    #[error("{0}")]
    Room(RoomError),
}

impl From<BadChunk> for ReallocError {
    ghost use Rattle.lmem_heap.specs.declared.error.ReallocError.TheVariants.{BadChunk};

    ghost from_gives = { λ _ e. e ≡ BadChunk };

    fn from(_: BadChunk) -> ReallocError {
        ReallocError::BadChunk
    }
}

impl From<RoomError> for ReallocError {
    ghost use Rattle.lmem_heap.specs.declared.error.ReallocError.TheVariants.{Room};

    ghost from_gives = { λ room e. e ≡ Room room };

    fn from(room: RoomError) -> ReallocError {
        ReallocError::Room(room)
    }
}

/// Why no bytes were inserted.
#[derive(Clone, Copy, Debug, Drop, PartialEq, Eq, Error)]
pub enum InsertError {
    /// No chunk has this handle.
    #[error("no chunk has this handle")]
    BadChunk,
    /// The offset is past the chunk's length.
    #[error("the offset is past the chunk's end")]
    Range,
    /// The block has no room for the bytes.
    #[error("{0}")]
    Room(RoomError),
}

impl From<BadChunk> for InsertError {
    ghost use Rattle.lmem_heap.specs.declared.error.InsertError.TheVariants.{BadChunk};

    ghost from_gives = { λ _ e. e ≡ BadChunk };

    fn from(_: BadChunk) -> InsertError {
        InsertError::BadChunk
    }
}

impl From<RoomError> for InsertError {
    ghost use Rattle.lmem_heap.specs.declared.error.InsertError.TheVariants.{Room};

    ghost from_gives = { λ room e. e ≡ Room room };

    fn from(room: RoomError) -> InsertError {
        InsertError::Room(room)
    }
}

/// Why no bytes were deleted.
#[derive(Clone, Copy, Debug, Drop, PartialEq, Eq, Error)]
pub enum DeleteError {
    /// No chunk has this handle.
    #[error("no chunk has this handle")]
    BadChunk,
    /// The bytes reach past the chunk's length.
    #[error("the bytes reach past the chunk's end")]
    Range,
}

impl From<BadChunk> for DeleteError {
    ghost use Rattle.lmem_heap.specs.declared.error.DeleteError.TheVariants.{BadChunk};

    ghost from_gives = { λ _ e. e ≡ BadChunk };

    fn from(_: BadChunk) -> DeleteError {
        DeleteError::BadChunk
    }
}
