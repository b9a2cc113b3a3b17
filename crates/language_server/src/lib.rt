//! The Language Server Protocol: an editor shows what `geos explain` finds in a text or a source, as its author types.
//!
//! docs/EDITORS.md has the requests. The protocol is that of version 3.17. What is found in a text is the same as what `--json` prints, by the
//! same function, `geos_texts::put_read`.
#![tactic(auto)]

mod actions;
mod answers;
mod asked;
mod documents;
mod edits;
mod findings;
mod frames;
mod heads;
mod hover;
mod insertions;
mod mender;
mod methods;
mod names;
mod outline;
mod positions;
mod reply;
mod rows;
mod server;
mod values;

pub use server::{ServeFault, serve};
