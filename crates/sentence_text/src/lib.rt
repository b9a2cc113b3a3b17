//! A text that is written part by part. It remembers that an allocation was refused, and only its end returns the error.
#![tactic(auto)]

mod text;

pub use text::Text;
