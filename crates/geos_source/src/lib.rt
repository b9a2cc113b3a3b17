//! Assembly texts: the routines and instructions that a text writes, or its first fault.
#![tactic(auto)]

mod declarations;
mod draft;
mod fault;
mod headers;
mod items;
mod lines;
mod names;
mod operands;
mod parser;
mod progress;
mod skeletons;
mod tally;

pub use fault::{BadLine, Why};
pub use geos_text::MOST_BYTES;
pub use names::{Name, label_of, name_of};
pub use parser::{ParseError, Parsed, parse};
pub use progress::TextRoutine;
pub use skeletons::skeleton;
pub use tally::{Faults, faults_of};
