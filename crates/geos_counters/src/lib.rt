//! The counters of code: which ones routines touch, on which paths one keeps its value, and how many steps instructions take.
//!
//! docs/VERIFIER.md says what counters pay for.
#![tactic(auto)]

mod spent;
mod taken;

pub use spent::{Touching, find_touched, find_touching, touched_by, touches};
pub use taken::{called_at, taken_at};
