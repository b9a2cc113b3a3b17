//! Potentials: how many steps are left at most at each instruction of a routine, and what units of counters pay for.
//!
//! docs/VERIFIER.md says what potentials are.
#![tactic(auto)]

mod asked;
mod choice;
mod classes;
mod constants;
mod count;
mod counting;
mod cycles;
mod dearest;
mod idle;
mod inside;
mod jumps;
mod lengths;
mod looks;
mod nests;
mod paid;
mod paying;
mod ranks;
mod reason;
mod ring;
mod search;
mod spread;
mod stuck;
mod units;
mod unpaid;
mod ways;

pub use asked::Potentials;
pub use count::find_potentials;
pub use dearest::find_dearest;
pub use nests::{Nest, Nests, Splitting, Wait};
pub use ranks::some_always_may_pay;
pub use reason::{Halted, Reason, Unfound};
pub use search::{Halt, Search};
pub use spread::Spread;
pub use units::{Lack, Units};
