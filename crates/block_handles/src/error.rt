//! Why calls refuse.
use thiserror::Error;

/// Why no block was made or grown. All blocks and their places are unchanged.
#[derive(Clone, Copy, Debug, Drop, PartialEq, Eq, Error)]
pub enum RoomError {
    /// No stretch between locked blocks has room for the request.
    #[error("no room in the region")]
    NoRoom,
    /// The size is above 65,520 bytes.
    #[error("the block would be too big")]
    TooBig,
}

/// Why a block was not locked or freed. All blocks are unchanged.
#[derive(Clone, Copy, Debug, Drop, PartialEq, Eq, Error)]
pub enum HandleError {
    /// No block has this name.
    #[error("no block has this handle")]
    BadHandle,
    /// The lock count can't rise, or the block is locked and can't be freed.
    #[error("the block is locked")]
    Locked,
}
