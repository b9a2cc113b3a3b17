//! A call of a routine, as a run takes it.

use geos_verify::Checked;

/// A call of a routine of an accepted image.
#[derive(Clone, Copy)]
pub struct RoutineCall<'c> {
    /// The image.
    pub checked: &'c Checked,
    /// The index of the routine.
    pub routine: u16,
    /// Its words.
    pub words: &'c [u16; 8],
    /// The handles of the blocks that are lent to its slots; 0 for each other slot.
    pub handles: &'c [u16; 4],
}
