//! What a message asks.

use crate::values::{number_at, text_at};
use serde_json::Value;

/// What the methods read of a message. A text that it lacks is empty, and a number is 0.
#[derive(Clone, Copy)]
pub(crate) struct Asked<'m> {
    /// The name of the method.
    pub(crate) method: &'m str,
    /// The name of the document that it is about.
    pub(crate) uri: &'m str,
    /// The text of a document that is opened.
    pub(crate) opened: &'m str,
    /// The text that a document has after a change, if the message has changes.
    pub(crate) changed: Option<&'m str>,
    /// The new name for what is renamed.
    pub(crate) new_name: &'m str,
    /// A position: its line, counted from 0, and its column in units of UTF-16.
    pub(crate) line: usize,
    pub(crate) column: u64,
    /// The first and the last line of a range.
    pub(crate) first: usize,
    pub(crate) last: usize,
}

/// The text that a document has after a change: that of the last change, since each has all of it.
fn changed_text(message: &Value) -> Option<&str> {
    let changes = message.pointer("/params/contentChanges")?.as_array()?;
    changes.last()?.pointer("/text")?.as_str()
}

/// The number of the line at a path in a value.
fn line_at(value: &Value, path: &str) -> usize {
    number_at(value, path).unwrap_or(0) as usize
}

/// What a message asks.
pub(crate) fn asked_in(message: &Value) -> Asked<'_> {
    let params = message.pointer("/params").unwrap_or(message);
    let position = params.pointer("/position").unwrap_or(params);
    Asked {
        method: text_at(message, "/method"),
        uri: text_at(message, "/params/textDocument/uri"),
        opened: text_at(message, "/params/textDocument/text"),
        changed: changed_text(message),
        new_name: text_at(params, "/newName"),
        line: line_at(position, "/line"),
        column: number_at(position, "/character").unwrap_or(0),
        first: line_at(params, "/range/start/line"),
        last: line_at(params, "/range/end/line"),
    }
}
