//! Where ways of control meet with slots that differ.

ghost use Rattle.std.specs.Prelude.{◌≡◌};
ghost use Rattle.geos_flow.specs.Slots.{slots_agree};

use crate::edge::Edge;
use geos_image::{Row, SlotState};
use geos_verify::slot_fits;

/// A CALL after which a slot is empty that was locked before it: the `in` and `out` lines of the called routine do not name the slot.
#[derive(Clone, Copy)]
pub struct Emptied {
    /// The pc of the CALL.
    pub at: u16,
    /// What the slot holds before it.
    pub state: SlotState,
    /// The name of the routine that it calls, with zeros after it.
    pub callee: [u8; 16],
    /// Whether that routine is before the one of the CALL, as required.
    pub stands_before: bool,
}

/// How control comes to a place.
#[derive(Clone, Copy)]
pub struct Coming {
    /// The edge that it comes along; `None` if the routine begins at the place.
    pub from: Option<Edge>,
    /// What is known then, of slots above all.
    pub row: Row,
    /// By which CALL on a way there each slot was left empty, if by one.
    pub emptied: [Option<Emptied>; 4],
}

/// A place to which control comes on two ways, with slots that differ in more than marks.
#[derive(Clone, Copy)]
pub struct Apart {
    /// The place.
    pub to: u16,
    pub first: Coming,
    pub second: Coming,
}

/// Whether two states of a slot differ in the mark at most.
pub fn slots_agree(state: SlotState, other: SlotState) -> bool
    ensures { result ≡ slots_agree state other }
{
    slot_fits(state, other) || slot_fits(other, state)
}
