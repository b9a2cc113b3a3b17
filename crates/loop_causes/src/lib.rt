//! What is wrong with the loops and the steps of a routine: causes for which no potentials are found.
//!
//! docs/VERIFIER.md says what potentials are, and specs/Causes what each cause says.
#![tactic(auto)]

mod ahead;
mod back;
mod counters;
mod idle;
mod laws;
mod pieces;
mod reach;
mod setting;
mod steps;
mod trails;
mod turns;
mod waits;
mod within;

pub use back::{cause_of_looks, find_back};
pub use idle::first_idle;
pub use laws::no_other_cause_holds;
pub use pieces::{cause_of_set, cause_of_set_again, first_cause};
pub use setting::cause_of_setting;
pub use steps::{cause_ahead, least_steps_pass};
pub use trails::Trails;
pub use waits::set_for;
pub use within::{find_set_within, loop_at, note_set};
