//! What stops the search for rows and potentials of some code.

ghost use Rattle.std.specs.Prelude.{◌≡◌};
ghost use Rattle.geos_infer.specs.declared.finding.FindError.TheVariants.{Memory};

use geos_code::Known;
use geos_flow::Apart;
use geos_potentials::Reason;
use std::alloc::AllocError;

/// Why no numbers of steps are found for a routine.
#[derive(Drop)]
pub struct Unpaid {
    /// What is known at each instruction.
    pub known: Known,
    pub reason: Reason,
}

/// What is in the way in a routine.
#[derive(Drop)]
pub enum Obstacle {
    /// Ways of control meet, and slots differ in more than marks.
    SlotsDiffer(Apart),
    /// No numbers of steps are found with the rows that are.
    NoSteps(Unpaid),
}

/// A routine for which no rows or no numbers of steps are found, and what is in the way there. `find_cause` says it in an author's terms.
#[derive(Drop)]
pub struct Finding {
    pub routine: u16,
    pub obstacle: Obstacle,
}

impl Finding {
    /// Only the routine.
    pub(crate) fn into_routine(self) -> u16
        ensures { result ≡ self.routine }
    {
        let Finding { routine, obstacle } = self;
        // By a call, so that the check does not go over each table here.
        drop(obstacle);
        routine
    }
}

/// Why no rows and potentials are found for the code of an image.
#[derive(Drop)]
pub enum FindError {
    /// This stops the search.
    Stopped(Finding),
    /// An allocation was refused.
    Memory,
}

impl From<AllocError> for FindError {
    ghost from_gives = { λ _ e. e ≡ Memory };

    fn from(_: AllocError) -> FindError {
        FindError::Memory
    }
}
