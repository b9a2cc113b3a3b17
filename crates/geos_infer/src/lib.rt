//! Inference: the entry states and potentials that a routine's author leaves to be found.
//!
//! docs/VERIFIER.md says what rows and potentials are.
#![tactic(auto)]

mod error;
mod finding;
mod inference;
mod refusals;

pub use error::InferError;
pub use finding::{FindError, Finding, Obstacle, Unpaid};
pub use inference::{find_image, infer, kept_rows_hold, rows_that_hold_pass};
pub use refusals::{none_is_accepted_for, none_is_accepted_past};
