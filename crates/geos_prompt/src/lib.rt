//! The lines of `geos shell`: each is answered at once.
//!
//! | Module | Has |
//! |---|---|
//! | `ask` | the prompt, and the next line of the standard input |
//! | `explained` | the text of `explain` |
//! | `fault` | `PromptFault`: why a session ended early |
//! | `journal` | the file that gets the lines since the last commit |
//! | `past` | the lines that were carried out |
//! | `record` | `Record`: what a session is on, and what it has carried out |
//! | `reply` | `Reply`: what becomes of a line |
//! | `running` | carries out lines on a kernel |
//! | `session` | the state of a session, and what becomes of a command |
//! | `shown` | the texts of `dump`, `map` and `trace` |
//! | `start` | `shell`: begins a session on a VM file, or on one in memory |
//! | `talk` | answers lines one after another |
//! | `verbs` | the first words of lines that are no commands of a script |
//! | `voice` | `Voice`: what a session prints and reports |
#![tactic(auto)]

mod ask;
mod explained;
mod fault;
mod journal;
mod past;
mod record;
mod reply;
mod running;
mod session;
mod shown;
mod start;
mod talk;
mod verbs;
mod voice;

pub use fault::PromptFault;
pub use start::{Place, shell};
