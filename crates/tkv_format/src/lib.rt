//! Sources of the structured language in one layout.
//!
//! | Module | Has |
//! |---|---|
//! | formatting | `formatted`: a source in this layout, which is compared with the source |
//! | layout | the blanks before each word |
//! | pieces | the words and comments of a source |
#![tactic(auto)]

mod formatting;
mod layout;
mod pieces;

pub use formatting::{Unformatted, formatted};
