//! Why a file was not copied.

/// Why a file was not copied.
#[derive(Clone, Copy, Drop)]
pub enum CopyError {
    /// The directories with their blocks take so many bytes, and an area of the copy has fewer.
    TooBig(u32),
    /// An allocation was refused.
    Memory,
    /// A device failed, or did not return what was written.
    Disk,
}

/// Why a file was not read, or its copy not written.
#[derive(Clone, Copy, Drop)]
pub(crate) enum Fault {
    /// An allocation was refused.
    Memory,
    /// A device failed, or did not return what was written.
    Disk,
}
