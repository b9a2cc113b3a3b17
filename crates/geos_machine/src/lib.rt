//! The machine: runs routines of images that the verifier accepted.
//!
//! docs/MODEL.md says what a run is; docs/INSTRUCTIONS.md, what each instruction does.
#![tactic(auto)]

mod access;
mod blocks;
mod call;
mod chunks;
mod files;
mod head;
mod lent;
mod machine;
mod outcome;
mod step;
mod trace;
mod traced;
mod watch;

pub use call::RoutineCall;
pub use machine::{Machine, admits};
pub use outcome::Outcome;
pub use trace::{Left, Noted, Trace};
pub use watch::{Follow, Unwatched, Watch};
