//! Why calls on files refuse.
use thiserror::Error;

/// Why a file was not made.
#[derive(Clone, Copy, Debug, Drop, PartialEq, Eq, Error)]
pub enum CreateError {
    /// The device failed.
    #[error("disk")]
    Disk,
    /// An allocation was refused.
    #[error("memory")]
    Memory,
}

/// Why a file was not opened.
#[derive(Clone, Copy, Debug, Drop, PartialEq, Eq, Error)]
pub enum OpenError {
    /// The offset of the first byte of the first field, in file order, that is cut or breaks
    /// its rule.
    #[error("bad file at {0}")]
    BadFile(u64),
    /// The device failed.
    #[error("disk")]
    Disk,
    /// An allocation was refused.
    #[error("memory")]
    Memory,
}

/// Why a commit was not made. After the first three the file is unchanged; after `Disk` it is
/// sure of its previous pair, or unsure.
#[derive(Clone, Copy, Debug, Drop, PartialEq, Eq, Error)]
pub enum CommitError {
    /// The file is unsure: an earlier commit failed when it wrote the selector.
    #[error("unsure")]
    Unsure,
    /// The pair is longer than the area.
    #[error("too big")]
    TooBig,
    /// An allocation was refused.
    #[error("memory")]
    Memory,
    /// The device failed.
    #[error("disk")]
    Disk,
}
