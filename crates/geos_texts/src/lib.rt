//! What the program `geos` does with texts and images: it assembles, lists, checks and explains them.
//!
//! It runs nothing, so that it is proved beside the crates that do.
#![tactic(auto)]

mod budgets;
mod commands;
mod diagnostics;
mod fault;
mod files;
mod grants;
mod limited;
mod no_rows;
mod objects;
mod requests;
mod runnable;
mod source_lines;
mod sources;

pub use fault::{FaultyText, Refused, TextFault};
pub use limited::{Limited, Limits};
pub use objects::{Wanted, findings_in_text, put_advice, put_read};
pub use requests::{
    KnownLines, MOST_READ, assemble, assemble_all, budget, check, explain, explain_script, format,
    known_at_lines, known_lines, list, read_and_warn, tell_warning,
};
pub use runnable::Runnable;
pub use sources::{FaultySource, LineWarning, ScriptOfTest, formatted_text};
