//! Sources of the structured language: words, and the named program that a source writes.
//!
//! docs/LANGUAGE.md has the grammar and the meaning.
#![tactic(auto)]

mod expressions;
mod fault;
mod item;
mod library;
mod parser;
mod place;
mod statements;
mod tests;
mod token;
mod words;

pub use fault::{Fault, Why};
pub use item::{Item, ItemKind, NONE, NUMBERS};
pub use library::LIBRARY;
pub use parser::{MOST_BYTES, Source, parse_source};
pub use place::{Place, place_of};
pub use tests::{TestKind, TestPart};
pub use token::{Token, next_token};
pub use words::{Name, Word, name_at};
