//! The topic that words on the command line name.

use crate::topic;
use std::alloc::{AllocError, Global};

/// The words after `help`, each after a space but the first.
fn joined(alloc: Global, words: &[String]) -> Result<String, AllocError> {
    let mut all = String::new(alloc);
    for word in words {
        if !all.is_empty() {
            all.push(' ')?;
        }
        all.push_str(word.as_str())?;
    }
    Ok(all)
}

/// The text on the topic that the words after `help` name, also in small letters. `None` if they name no topic.
/// `AllocError` if the allocator refuses memory.
pub fn topic_of(alloc: Global, words: &[String]) -> Result<Option<String>, AllocError> {
    let Some((help, rest)) = words.split_first() else {
        return Ok(None);
    };
    if help.as_str() != "help" {
        return Ok(None);
    }
    let asked = joined(alloc, rest)?;
    let found = match topic(asked.as_str()) {
        Some(text) => Some(text),
        None => topic(asked.to_ascii_uppercase(alloc)?.as_str()),
    };
    match found {
        Some(text) => Ok(Some(format!(in alloc; "{text}\n")?)),
        None => Ok(None),
    }
}
