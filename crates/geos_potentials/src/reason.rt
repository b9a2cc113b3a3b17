//! Why no potentials are found for a routine.

use crate::search::{Halt, Search};
use geos_flow::BackWay;

/// A search that has come to what is in its way.
#[derive(Drop)]
pub struct Halted {
    pub search: Search,
    pub halt: Halt,
}

/// Why none are found.
#[derive(Drop)]
pub enum Reason {
    /// There are no loops, and the steps are past what a potential can say.
    TooMany,
    /// This back edge is on a cycle that takes no LOOP's edge to its target.
    NoLoop(BackWay),
    /// Something was in the way of the search.
    InTheWay(Halted),
}

/// A routine for which none are found.
#[derive(Drop)]
pub struct Unfound {
    pub routine: u16,
    pub reason: Reason,
}
