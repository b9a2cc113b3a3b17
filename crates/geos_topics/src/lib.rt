//! What `geos help TOPIC` prints of an instruction, a rule of the verifier, a refusal and a fault of a text.
#![tactic(auto)]

mod asked;
mod tables;

pub use asked::topic_of;
use tables::{INSTRUCTIONS, OTHERS};

/// Whether an entry begins with the words, up to a space or the end of a line.
fn begins(entry: &str, words: &str) -> bool {
    match entry.strip_prefix(words) {
        Some(rest) => rest.starts_with(' ') || rest.starts_with('\n'),
        None => false,
    }
}

/// The entry of a table that begins with the words.
fn entry_of<'a>(table: &'a str, words: &str) -> Option<&'a str> {
    table.split("\n\n").find(|entry| begins(entry, words))
}

/// What there is to say of a topic, in lines: `DEREF` is an instruction, `V4` a rule, `refused 4` a refusal and `why 2` a fault of a text.
/// `None` if the words are no topic.
pub fn topic(words: &str) -> Option<&'static str> {
    entry_of(INSTRUCTIONS, words).or(entry_of(OTHERS, words))
}
