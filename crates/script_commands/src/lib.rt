//! The commands of scripts: what lines say, by their words and names, and how an output is written.
//!
//! | Module | Has |
//! |---|---|
//! | `command` | `Command`: a commit or a call; `Numbered`: with the number of its line |
//! | `lines` | `commands_of`: what the lines of a script say; `routine_named` |
//! | `words` | words that are read one after another, of a line or of a command line |
//! | `asked` | which calls the machine admits |
//! | `call_words` | `call_on`: one call that words name; `why_no_call` |
//! | `call_fault` | `CallFault`: why one call ends early |
//! | `kept` | `Kept`: a name under which a word is stored |
//! | `names` | names for words that calls output, and `command_in`: the command of a line that writes them |
//! | `named_lines` | `lines_said`: the lines of a script that writes names; `first_bad`: the first bad one |
//! | `bad` | `bad_lines`, `bad_lines_with_names`: all bad lines of a script |
//! | `lent` | `lent_handles`: which blocks a call lends |
//! | `commits` | `may_commit`: which commands may commit |
//! | `form` | `Form`: how an output is written, and its text |
//! | `output` | prints what commands output, and flushes the writer |
#![tactic(auto)]

mod asked;
mod bad;
mod call_fault;
mod call_words;
mod command;
mod commits;
mod form;
mod kept;
mod lent;
mod lines;
mod named_lines;
mod names;
mod output;
mod words;

pub use crate::bad::{bad_lines, bad_lines_with_names};
pub use crate::call_fault::CallFault;
pub use crate::call_words::{call_on, why_no_call};
pub use crate::command::{Call, Command, Numbered};
pub use crate::commits::{first_commit, may_commit};
pub use crate::form::{Form, Writing, first_put_out, shown_in};
pub use crate::kept::Kept;
pub use crate::lent::lent_handles;
pub use crate::lines::{commands_of, routine_named};
pub use crate::named_lines::{Line, MOST_KEPT, first_bad, lines_said};
pub use crate::names::{command_in, is_name, keep, kept_name};
pub use crate::output::{flush, give_before, print, print_refusal, write};
