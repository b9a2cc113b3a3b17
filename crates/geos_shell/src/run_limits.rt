//! What is tested of routines before they run, and what they may take.

use crate::given::Given;
use crate::numbers::{MOST_BLOCKS, MOST_BYTES, MOST_STEPS};

/// What blocks in memory may take.
#[derive(Clone, Copy)]
pub struct Room {
    /// How many bytes more than before they may have together.
    pub bytes: u32,
    /// The highest handle that a new block of global memory may get.
    pub handles: u16,
}

/// What public routines may do, and what they may take.
#[derive(Clone, Copy)]
pub struct RunLimits<'a> {
    /// What they may do, if that is limited: words with commas.
    pub grants: Option<&'a str>,
    /// The highest budget that each may have.
    pub most_steps: u32,
    /// What blocks in memory may take.
    pub room: Room,
}

impl<'a> RunLimits<'a> {
    /// The requested ones. Only `call`, `run` and `trace` have some.
    pub(crate) fn of(given: &Given<'_, 'a>) -> RunLimits<'a> {
        RunLimits {
            grants: given.setting("grant"),
            most_steps: given.number(&MOST_STEPS),
            room: Room {
                bytes: given.number(&MOST_BYTES),
                handles: given.number(&MOST_BLOCKS).min(1_024) as u16,
            },
        }
    }
}
