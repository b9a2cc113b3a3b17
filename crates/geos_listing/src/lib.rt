//! Listings: the text of an image, which assembled gives its routines and instructions again.
//!
//! docs/FORMATS.md has the form. A text that says more of an image is made with the same lines.
#![tactic(auto)]

mod instrs;
mod listing;
mod rows;
mod targets;

pub use instrs::put_code;
pub use listing::{list, put_label_line, put_routine_line};
pub use rows::{put_items, put_row, state_word};
pub use targets::{Targets, targets_of};
