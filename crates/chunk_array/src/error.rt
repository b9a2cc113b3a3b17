//! Why calls refuse. After a refusal the block is unchanged.

use lmem_heap::RoomError;
use thiserror::Error;

/// Why a call found no array.
#[derive(Clone, Copy, Debug, Drop, PartialEq, Eq, Error)]
pub enum ArrayError {
    /// No chunk has this handle.
    #[error("no chunk has this handle")]
    BadChunk,
    /// The chunk's bytes are no array.
    #[error("the chunk is no array")]
    BadArray,
}

/// Why a call found no element.
#[derive(Clone, Copy, Debug, Drop, PartialEq, Eq, Error)]
pub enum ElementError {
    /// No chunk has this handle.
    #[error("no chunk has this handle")]
    BadChunk,
    /// The chunk's bytes are no array.
    #[error("the chunk is no array")]
    BadArray,
    /// The array has no element of this index.
    #[error("no element has this index")]
    BadElement,
}

/// Why no element was appended.
#[derive(Clone, Copy, Debug, Drop, PartialEq, Eq, Error)]
pub enum AppendError {
    /// No chunk has this handle.
    #[error("no chunk has this handle")]
    BadChunk,
    /// The chunk's bytes are no array.
    #[error("the chunk is no array")]
    BadArray,
    /// The block has no room for the element.
    #[error("{0}")]
    Room(RoomError),
}

/// Why no element was inserted, or why none got another size.
#[derive(Clone, Copy, Debug, Drop, PartialEq, Eq, Error)]
pub enum GrowthError {
    /// No chunk has this handle.
    #[error("no chunk has this handle")]
    BadChunk,
    /// The chunk's bytes are no array, or its elements have one size and none can get another.
    #[error("the chunk is no such array")]
    BadArray,
    /// The array has no such index.
    #[error("no element has this index")]
    BadElement,
    /// The block has no room for the array.
    #[error("{0}")]
    Room(RoomError),
}
