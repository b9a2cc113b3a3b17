//! The calls that a host performs.

/// A call of the device, which the host performs.
#[derive(Drop)]
pub enum Step<'a> {
    /// Write these bytes from an offset on.
    Write(u64, &'a [u8]),
    /// Sync: make every earlier write last.
    Sync,
}
