//! JSON texts: an object on each line.
#![tactic(auto)]

mod lines;

pub use lines::JsonLines;
