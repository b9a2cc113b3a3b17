//! What is found in a document, as the protocol's diagnostics.

use crate::documents::{MOST_BYTES, Page};
use crate::names::{code_of, word_at};
use crate::positions::{Span, put_range};
use crate::reply::Reply;
use crate::values::{number_at, text_at};
use geos_texts::findings_in_text;
use serde_json::Value;
use std::alloc::{AllocError, Global};

/// What is found in the bytes of a document with this name: the objects that `geos explain --json` prints, an object a line. Nothing of a
/// document that is too long, or of a source that uses files, since the server reads none.
pub(crate) fn findings_in(alloc: Global, uri: &str, text: Vec<u8>) -> Result<Vec<u8>, AllocError> {
    if text.len() <= MOST_BYTES {
        findings_in_text(alloc, uri, text)
    } else {
        Ok(Vec::new(alloc))
    }
}

/// What is found in a document.
pub(crate) fn findings_of(alloc: Global, document: Page<'_>) -> Result<Vec<u8>, AllocError> {
    let text = Vec::from_slice(alloc, document.text.as_bytes())?;
    findings_in(alloc, document.uri, text)
}

/// The lines that objects are.
pub(crate) fn lines_in(objects: &[u8]) -> &str {
    std::str::from_utf8(objects).unwrap_or("")
}

/// What an object says. Texts that it lacks are empty.
#[derive(Clone, Copy)]
pub(crate) struct Found<'v> {
    pub(crate) kind: &'v str,
    file: &'v str,
    pub(crate) rule: &'v str,
    message: &'v str,
    pub(crate) cure: &'v str,
    /// The line, the column and the line of the cause, each counted from 1.
    pub(crate) line: Option<usize>,
    column: Option<usize>,
    cause: Option<usize>,
}

/// The object of a line. None if there is no memory for it.
pub(crate) fn object_in(alloc: Global, line: &str) -> Option<Value> {
    match Value::from_str(alloc, line) {
        Ok(object) => Some(object),
        Err(_) => None,
    }
}

/// The number of a line or a column at a path in an object.
fn place_at(object: &Value, path: &str) -> Option<usize> {
    match number_at(object, path) {
        Some(number) => Some(number as usize),
        None => None,
    }
}

/// What an object says.
pub(crate) fn found_in(object: &Value) -> Found<'_> {
    Found {
        kind: text_at(object, "/kind"),
        file: text_at(object, "/file"),
        rule: text_at(object, "/rule"),
        message: text_at(object, "/message"),
        cure: text_at(object, "/cure"),
        line: place_at(object, "/line"),
        column: place_at(object, "/column"),
        cause: place_at(object, "/cause_line"),
    }
}

/// A finding about a line of a document.
#[derive(Clone, Copy)]
pub(crate) struct Finding<'d, 'v> {
    /// Whether it is an error, and not a warning.
    is_error: bool,
    /// The rule that refuses something, the sentence, and what helps; each may be empty.
    pub(crate) rule: &'v str,
    pub(crate) message: &'v str,
    pub(crate) cure: &'v str,
    /// The line of the cause, counted from 0, if that is known.
    cause: Option<usize>,
    /// The part of the line that it is about.
    pub(crate) span: Span<'d>,
}

/// The line with this number without its indentation and its comment.
pub(crate) fn code_span(document: Page<'_>, line: usize) -> Span<'_> {
    let text = document.line(line);
    let code = code_of(document.is_source(), text).trim_end();
    Span {
        line,
        text,
        start: code.len().saturating_sub(code.trim_start().len()),
        end: code.len(),
    }
}

/// The part of a line that begins at a column, counted from 1.
fn span_at(whole: Span<'_>, column: usize) -> Span<'_> {
    let at = column.saturating_sub(1);
    match word_at(whole.line, whole.text, at) {
        Some(word) if word.start <= at && at < word.end => word,
        _ if at < whole.text.len() => Span {
            start: at,
            end: at.saturating_add(1),
            ..whole
        },
        _ => Span {
            start: whole.text.len(),
            end: whole.text.len(),
            ..whole
        },
    }
}

/// The part of a document that an object is about. That is the first line if a line mark names another file.
fn span_of<'d>(document: Page<'d>, found: &Found<'_>) -> Span<'d> {
    let is_here = found.file == document.uri;
    let line = match found.line {
        Some(line) if is_here => line.saturating_sub(1),
        _ => 0,
    };
    let whole = code_span(document, line);
    match found.column {
        Some(column) if is_here => span_at(whole, column),
        _ => whole,
    }
}

/// The sentence of a message. Of a fault of a source it follows the line and the column.
fn sentence_in(message: &str, is_fault_of_source: bool) -> &str {
    match message.split_once(": ") {
        Some((_place, sentence)) if is_fault_of_source => sentence,
        _ => message,
    }
}

impl<'d, 'v> Finding<'d, 'v> {
    /// The finding that an object is, if it is one.
    pub(crate) fn of(document: Page<'d>, found: &Found<'v>) -> Option<Finding<'d, 'v>> {
        let is_error = found.kind == "error";
        if !is_error && found.kind != "warning" {
            return None;
        }
        Some(Finding {
            is_error,
            rule: found.rule,
            message: found.message,
            cure: found.cure,
            cause: match found.cause {
                Some(line) => Some(line.saturating_sub(1)),
                None => None,
            },
            span: span_of(document, found),
        })
    }

    /// Writes it as a diagnostic.
    pub(crate) fn put(&self, out: &mut Reply, document: Page<'_>) {
        put_range(out, "{\"range\":", &self.span);
        out.number(",\"severity\":", if self.is_error { 1 } else { 2 });
        out.raw(",\"source\":\"geos\"");
        if !self.rule.is_empty() {
            out.quoted(",\"code\":", self.rule);
        }
        let is_fault_of_source = self.is_error && document.is_source();
        out.quoted(
            ",\"message\":",
            sentence_in(self.message, is_fault_of_source),
        );
        if let Some(line) = self.cause {
            put_cause(out, document, line);
        }
        out.raw("}")
    }
}

/// Writes the line of the cause of a finding.
fn put_cause(out: &mut Reply, document: Page<'_>, line: usize) {
    out.quoted(
        ",\"relatedInformation\":[{\"location\":{\"uri\":",
        document.uri,
    );
    put_range(out, ",\"range\":", &code_span(document, line));
    out.raw("},\"message\":\"the cause\"}]");
}

/// Writes the findings of a document as diagnostics.
pub(crate) fn put_diagnostics(out: &mut Reply, document: Page<'_>) {
    out.begin_items("");
    match findings_of(out.alloc, document) {
        Ok(objects) => {
            for line in lines_in(&objects).split("\n") {
                put_finding(out, document, line)
            }
        }
        Err(AllocError) => out.fail(),
    }
    out.raw("]")
}

/// Writes the finding that a line has, if it has one.
fn put_finding(out: &mut Reply, document: Page<'_>, line: &str) {
    if let Some(object) = object_in(out.alloc, line)
        && let Some(finding) = Finding::of(document, &found_in(&object))
    {
        out.item();
        finding.put(out, document)
    }
}
