//! What is wrong with a VM file: whether it is legal, and a line for each fault that it has.
//!
//! Whether it is legal is proved. The lines are not: they are written only of a file, and of a block, that the proved tests refuse.
#![tactic(auto)]

mod areas;
mod bytes;
mod header;
mod heaps;
mod objects;
mod pieces;
mod report;
mod whole;

pub use objects::put_objects;
pub use whole::{Unsound, check};
