//! What sessions and scripts are read from, and why they end early.
//!
//! | Module | Has |
//! |---|---|
//! | counted | `Counted`: a reader or a writer that counts its calls and those that failed |
//! | read | `read_all`: all that a stream gives, up to the most bytes of a session |
//! | hex | `image_and_script`: the image in hexadecimal digits, up to the line `end` |
//! | fault | `ScriptFault`: why a session or a script ended early |
#![tactic(auto)]

mod counted;
mod fault;
mod hex;
mod read;

pub use crate::counted::Counted;
pub use crate::fault::ScriptFault;
pub use crate::hex::image_and_script;
pub use crate::read::read_all;
pub use geos_text::MOST_BYTES;
