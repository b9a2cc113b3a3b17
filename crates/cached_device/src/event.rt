//! What happened to a device.

/// A call that changes what a stop may leave.
#[derive(Drop)]
pub(crate) enum Event {
    /// So many bytes were written, from this offset on: the offset, and how many.
    Written(u64, u64),
    /// These bytes, all of the device's, were made to last.
    Synced(Vec<u8>),
}
