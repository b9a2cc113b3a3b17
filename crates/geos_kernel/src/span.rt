//! Spans of the region.

/// Bytes of the region that a call gave leave to read and write: from the offset `at`, `len`
/// bytes. A span does not say whether it is valid: it is valid until a call makes its reference
/// stale.
#[derive(Clone, Copy)]
pub struct Span {
    pub at: u32,
    pub len: u16,
}
