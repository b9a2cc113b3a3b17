//! Whether placed routines do what the source says, with its names.
#![tactic(auto)]

mod check;
mod covered;
mod held;
mod joined;
mod name;
mod routine;
mod seen;
mod tested;
mod waiting;
mod ways;

pub use covered::{NamedSource, named_routines, named_source};
pub use routine::means_named;
