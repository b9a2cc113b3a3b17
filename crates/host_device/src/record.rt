//! The place of a call's bytes in the log.

/// A call in the log.
#[derive(Drop)]
pub(crate) enum Record {
    /// A write: its offset, where its bytes begin in the log, and how many it wrote. The old bytes come first, then the new ones.
    Write(u64, usize, usize),
    Sync,
}
