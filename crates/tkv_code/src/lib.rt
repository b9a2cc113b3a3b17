//! The compiler of the structured language: sources to images that the verifier accepts.
//!
//! docs/LANGUAGE.md says what sources mean.
#![tactic(auto)]

mod compiler;
mod emitter;
mod lines;
mod naming;
mod sentence;
mod skeleton;
mod tidy;

pub use compiler::{Compiled, compile, tests_of};
pub use lines::lines_of;
pub use naming::put_uncalled;
pub use sentence::put_sentence;
pub use tkv_places::SourceTest;
pub use tkv_syntax::{Fault, Place, Why, place_of};
