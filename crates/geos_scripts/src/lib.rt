//! Reports on the bad lines of a script: each line, with its first wrong word, and why it is wrong.
//!
//! docs/FORMATS.md has the sentences.
#![tactic(auto)]

mod calls;
mod fault;
mod keeping;
mod names;
mod numbers;
mod sentences;
mod told;

pub use names::NameUse;
pub use told::{BadLines, diagnose_bad_lines, tell_bad_lines};
