//! Why no potentials are found for a routine, in an author's terms.
//!
//! docs/VERIFIER.md says what potentials are.
#![tactic(auto)]

mod diagnosis;
mod in_turn;
mod ring;

pub use diagnosis::find_cause;
