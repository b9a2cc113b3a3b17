//! The first words of lines that are no commands of a script.

use std::alloc::Global;

/// What a line requests by its first word.
#[derive(Clone, Copy)]
pub(crate) enum Verb {
    /// To end the session.
    Quit,
    /// To take back the last command.
    Undo,
    /// To print the blocks, or a block, or a chunk of it.
    Dump,
    /// To draw the blocks.
    Map,
    /// To print what is known at instructions of a routine, or of all.
    Explain,
    /// To print the steps of a call.
    Trace,
    /// To say something on a topic.
    Help,
}

/// What a line requests by its first word; none if it is no such word.
pub(crate) fn asked_by(word: &[u8]) -> Option<Verb> {
    if word == b"quit".as_slice() {
        return Some(Verb::Quit);
    }
    if word == b"undo".as_slice() {
        return Some(Verb::Undo);
    }
    if word == b"dump".as_slice() {
        return Some(Verb::Dump);
    }
    if word == b"map".as_slice() {
        return Some(Verb::Map);
    }
    if word == b"explain".as_slice() {
        return Some(Verb::Explain);
    }
    if word == b"trace".as_slice() {
        return Some(Verb::Trace);
    }
    if word == b"help".as_slice() {
        return Some(Verb::Help);
    }
    None
}

/// The most words of a line that requests this, and what is wrong with a line that has more, or other ones.
pub(crate) fn limit_of(verb: Verb) -> (usize, &'static str) {
    match verb {
        Verb::Quit | Verb::Undo | Verb::Map => (1, "undo, map and quit are alone in a line"),
        Verb::Dump => (3, "dump takes H and C, numbers from 0 to 65535"),
        Verb::Explain => (2, "explain takes the name of one routine"),
        Verb::Trace | Verb::Help => (usize::MAX, ""),
    }
}

/// The words of a text. `None` if there is no memory.
pub(crate) fn words_of(alloc: Global, text: &str) -> Option<Vec<String>> {
    let mut words = Vec::new(alloc);
    for word in text.split_ascii_whitespace() {
        let Ok(word) = String::from_str(alloc, word) else {
            return None;
        };
        if words.push(word).is_err() {
            return None;
        }
    }
    Some(words)
}

/// The handle of a block or a chunk, if there is the word. `None` if the word is no handle.
pub(crate) fn handle_of(word: Option<&String>) -> Option<Option<u16>> {
    match word {
        None => Some(None),
        Some(word) => match word.parse::<u16>() {
            Ok(handle) => Some(Some(handle)),
            Err(_) => None,
        },
    }
}
