//! Definitions and uses of names, and the parts of a document.

use crate::asked::Asked;
use crate::documents::Page;
use crate::names::{NameKind, NameUse, code_of, name_at, names_in, word_at};
use crate::positions::{Span, offset_of, put_all, put_range};
use crate::reply::Reply;
use geos_opcodes::Opcode;

/// Writes a place in the document with the name.
fn put_location(out: &mut Reply, uri: &str, span: &Span<'_>) {
    out.item();
    out.quoted("{\"uri\":", uri);
    put_range(out, ",\"range\":", span);
    out.raw("}")
}

/// Whether two names are the same.
fn are_same(a: &NameUse<'_>, b: &NameUse<'_>) -> bool {
    a.kind == b.kind && a.span.words() == b.span.words()
}

/// The name at the position of a request.
fn asked_name<'t>(document: Page<'t>, asked: &Asked<'_>) -> Option<NameUse<'t>> {
    let at = offset_of(document.line(asked.line), asked.column);
    name_at(document.text, asked.line, at)
}

/// Writes each place in a text where the name at the position is, or only where it is defined.
fn put_places(out: &mut Reply, document: Page<'_>, asked: &Asked<'_>, only_defined: bool) {
    if let Some(name) = asked_name(document, asked) {
        for found in &names_in(out, document.text) {
            if are_same(&name, found) && (found.defines || !only_defined) {
                put_location(out, document.uri, &found.span)
            }
        }
    }
}

/// Writes where the function is defined that a source names at the position.
fn put_function(out: &mut Reply, document: Page<'_>, asked: &Asked<'_>) {
    let line = document.line(asked.line);
    if let Some(name) = word_at(asked.line, line, offset_of(line, asked.column)) {
        for (number, line) in document.text.split("\n").enumerate() {
            if let Some(found) = function_of(number, code_of(true, line))
                && found.words() == name.words()
            {
                put_location(out, document.uri, &found)
            }
        }
    }
}

/// The name of the function that a line of a source defines, if it defines one.
fn function_of(line: usize, code: &str) -> Option<Span<'_>> {
    let (before, _) = code.split_once("fn ")?;
    let is_word = code.trim_start().starts_with("fn ")
        || code.trim_start().starts_with("pub fn ")
        || code.trim_start().starts_with("inline fn ");
    if is_word {
        word_at(line, code, before.len().saturating_add(3))
    } else {
        None
    }
}

/// `textDocument/definition`
pub(crate) fn put_definition(out: &mut Reply, document: Page<'_>, asked: &Asked<'_>) {
    out.begin_items("");
    if document.is_source() {
        put_function(out, document, asked)
    } else {
        put_places(out, document, asked, true)
    }
    out.raw("]")
}

/// `textDocument/references`. None in a source.
pub(crate) fn put_references(out: &mut Reply, document: Page<'_>, asked: &Asked<'_>) {
    out.begin_items("");
    if !document.is_source() {
        put_places(out, document, asked, false)
    }
    out.raw("]")
}

/// Whether a label or a routine may have the name.
fn is_name(name: &str) -> bool {
    let starts_with_letter = match name.as_bytes() {
        [first, ..] => first.is_ascii_alphabetic(),
        [] => false,
    };
    for byte in name.bytes() {
        if !byte.is_ascii_alphanumeric() && byte != b'_' {
            return false;
        }
    }
    starts_with_letter && name.len() <= 16
}

/// Writes an edit for each use of a name.
fn put_renamed(out: &mut Reply, document: Page<'_>, name: &NameUse<'_>, new: &str) {
    out.quoted("{\"changes\":{", document.uri);
    out.begin_items(":");
    for found in &names_in(out, document.text) {
        if are_same(name, found) {
            out.item();
            put_range(out, "{\"range\":", &found.span);
            out.quoted(",\"newText\":", new);
            out.raw("}")
        }
    }
    out.raw("]}}")
}

/// `textDocument/rename`: an edit for each use of the name; `null` in a source, or if nothing may have the new name.
pub(crate) fn put_rename(out: &mut Reply, document: Page<'_>, asked: &Asked<'_>) {
    match asked_name(document, asked) {
        Some(name) if is_name(asked.new_name) && !document.is_source() => {
            put_renamed(out, document, &name, asked.new_name)
        }
        _ => out.raw("null"),
    }
}

/// Writes an entry of the outline. The kinds are the protocol's: a function is 12, a key 20.
fn put_symbol(out: &mut Reply, kind: u64, span: &Span<'_>) {
    out.item();
    out.quoted("{\"name\":", span.words());
    out.number(",\"kind\":", kind);
    put_range(out, ",\"range\":", span);
    put_range(out, ",\"selectionRange\":", span);
    out.raw("}")
}

/// `textDocument/documentSymbol`: the routines and labels of a text, the functions of a source.
pub(crate) fn put_symbols(out: &mut Reply, document: Page<'_>) {
    out.begin_items("");
    if document.is_source() {
        put_functions(out, document.text)
    } else {
        put_defined(out, document.text)
    }
    out.raw("]")
}

/// Writes the functions of a source.
fn put_functions(out: &mut Reply, text: &str) {
    for (number, line) in text.split("\n").enumerate() {
        if let Some(span) = function_of(number, code_of(true, line)) {
            put_symbol(out, 12, &span)
        }
    }
}

/// Writes the routines and labels of a text.
fn put_defined(out: &mut Reply, text: &str) {
    for name in &names_in(out, text) {
        if name.defines {
            let kind = match name.kind {
                NameKind::Routine => 12,
                NameKind::Label => 20,
            };
            put_symbol(out, kind, &name.span)
        }
    }
}

/// Writes a word that may be typed. The kinds are the protocol's.
fn put_word(out: &mut Reply, word: &str, kind: u64) {
    out.item();
    out.quoted("{\"label\":", word);
    out.number(",\"kind\":", kind);
    out.raw("}")
}

/// Writes the words of a text beside its instructions.
fn put_own_words(out: &mut Reply, text: &str) {
    for word in ["routine", "public", "budget", "in", "out"] {
        put_word(out, word, 14)
    }
    for name in &names_in(out, text) {
        if name.defines {
            put_word(out, name.span.words(), 6)
        }
    }
}

/// `textDocument/completion`: the instructions, or in a source the calls; the labels and routines of a text.
pub(crate) fn put_completion(out: &mut Reply, document: Page<'_>) {
    out.begin_items("");
    for code in 1..=u8::MAX {
        match Opcode::from_code(code) {
            Some(opcode) => put_word(out, opcode.word(), 14),
            None => break,
        }
    }
    if !document.is_source() {
        put_own_words(out, document.text)
    }
    out.raw("]")
}

/// `textDocument/formatting`: an edit of the whole text, whose words come in columns; `null` of a source.
pub(crate) fn put_formatting(out: &mut Reply, text: &str, formatted: Option<String>) {
    match formatted {
        Some(new) => {
            put_all(out, "[{\"range\":", text);
            out.quoted(",\"newText\":", &new);
            out.raw("}]")
        }
        None => out.raw("null"),
    }
}
