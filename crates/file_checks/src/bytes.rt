//! Numbers in bytes.

ghost use Rattle.std.specs.Prelude.{◌+◌, ◌≤◌, ◌<◌, length, IsTrue};

/// The byte at an offset, or 0 past the end.
fn byte(bytes: &[u8], at: usize) -> usize
    ensures { result < 256 }
{
    match bytes.get(at) {
        Some(byte) => usize::from(*byte),
        None => 0,
    }
}

/// The word at an offset. Bytes past the end count as 0.
pub(crate) fn word(bytes: &[u8], at: usize) -> usize
    ensures { result < 65536 }
{
    byte(bytes, at) + 256 * byte(bytes, at.saturating_add(1))
}

/// Whether there are so many bytes from an offset on.
pub(crate) fn has(bytes: &[u8], at: usize, n: usize) -> bool
    ensures { IsTrue result → at + n ≤ length bytes.now }
{
    let len = bytes.len();
    n <= len && at <= len - n
}
