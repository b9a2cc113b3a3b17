//! What becomes of a line.

use std::alloc::Global;

/// Why the session ends before its last line.
#[derive(Clone, Copy)]
pub(crate) enum Stop {
    /// An allocation was refused.
    Memory,
    /// All lines together have too many bytes.
    TooLong,
    /// The journal was not written.
    Journal,
    /// The VM file did not do what its copy in memory did.
    NotTaken,
}

/// What becomes of a line.
#[derive(Drop)]
pub(crate) enum Reply {
    /// This is printed.
    Text(Vec<u8>),
    /// The line is wrong, as this sentence says.
    Wrong(Vec<u8>),
    /// It ends the session.
    Quit,
    /// The session ends early.
    Stop(Stop),
}

/// The reply to a line that is wrong. `None` if there is no memory.
pub(crate) fn wrong(alloc: Global, sentence: &str) -> Option<Reply> {
    match Vec::from_slice(alloc, sentence.as_bytes()) {
        Ok(sentence) => Some(Reply::Wrong(sentence)),
        Err(_) => None,
    }
}

/// Bytes, and other ones after them. `None` if there is no memory.
pub(crate) fn joined(alloc: Global, bytes: &[u8], others: &[u8]) -> Option<Vec<u8>> {
    let mut all = Vec::new(alloc);
    if all.extend_from_slice(bytes).is_ok() && all.extend_from_slice(others).is_ok() {
        Some(all)
    } else {
        None
    }
}
