//! An edge that closes a cycle.

/// An edge to a target that closes a cycle: a back edge, or that of a LOOP.
#[derive(Clone, Copy)]
pub struct BackWay {
    /// The pc of the instruction that it comes from.
    pub from: u16,
    /// The pc that it leads to.
    pub to: u16,
}
