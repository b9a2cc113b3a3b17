//! Runs of routines that do only what was granted.
//!
//! `specs/Keeps.antt` says what a run leaves as it was.
#![tactic(auto)]

mod run;

pub use geos_machine::RoutineCall;
pub use run::{run_granted, watch_granted};
