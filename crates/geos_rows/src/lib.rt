//! Rows: what is known at each instruction of a routine, and where ways of control meet with slots that differ.
//!
//! docs/VERIFIER.md says what rows are.
#![tactic(auto)]

mod apart;
mod common;
mod descent;
mod emptied;
mod fitted;
mod flow;
mod order;
mod rounds;
mod rows;
mod seeds;
mod strongest;
mod unreached;
mod waiting;
mod weakened;
mod weakest;
mod widening;

pub use common::join;
pub use rows::{KnownRows, find_rows};
pub use strongest::Strongest;
