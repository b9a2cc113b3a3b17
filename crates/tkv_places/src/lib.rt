//! The placed program: named programs with names as registers, one instruction for each operation.
//!
//! docs/LANGUAGE.md says what programs mean.
#![tactic(auto)]

mod access;
mod arrays;
mod brackets;
mod calls;
mod declarations;
mod inlined;
mod leaves;
mod locks;
mod loops;
mod moves;
mod names;
mod near;
mod operands;
mod operations;
mod placed;
mod placer;
mod results;
mod routine;
mod state;
mod statements;
mod tested;
mod tests_of;
mod uncalled;

pub use declarations::{Declared, declare};
pub use placed::{Placed, PlacedKind};
pub use routine::{PlacedRoutine, place_routine};
pub use tested::SourceTest;
