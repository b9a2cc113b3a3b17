//! Reports on the faulty lines of a text: each line, with its first wrong word and the form that is required.
//!
//! docs/FORMATS.md has the sentences.
#![tactic(auto)]

mod diagnostics;
mod faulty;
mod forms;
mod instr_lines;
mod many_steps;
mod names;
mod other_lines;
mod other_machines;
mod sentences;
mod told;
mod words;

pub use diagnostics::diagnose_faults;
pub use faulty::{FaultyLine, FaultyLines, MOST_TOLD, faulty_lines};
pub use many_steps::tell_many_steps;
pub use sentences::put_word;
pub use told::{put_line_number, put_more, put_saying, tell_faults};
pub use words::{Word, word_from};
