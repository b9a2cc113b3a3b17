//! The lines of a text, the words of a line, the number of a word; and texts that are written by their parts.
//!
//! A line ends with LF, CR LF or the end of the text. Its words are parted by spaces and tabs,
//! and a comment begins at a `;`.
#![tactic(auto)]

mod lines;
mod numbers;
mod parts;
mod registers;
mod words;

pub use lines::{MOST_BYTES, first_line};
pub use numbers::{NumberError, number, number_up_to};
pub use parts::{Part, put_numbered, put_parts};
pub use registers::register;
pub use words::{first_word, is_blank, without_comment};
