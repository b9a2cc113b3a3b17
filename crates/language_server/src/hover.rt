//! The hover text of a word and of its line.

use crate::asked::Asked;
use crate::documents::{MOST_BYTES, Page};
use crate::names::word_at;
use crate::positions::{Span, offset_of, put_range};
use crate::reply::Reply;
use geos_text::first_line;
use geos_texts::known_at_lines;
use geos_topics::topic;
use std::alloc::{AllocError, Global};

/// The part after this front in the first line that has it. Empty if no line has.
fn note_in<'k>(known: &'k [u8], front: &[u8]) -> &'k [u8] {
    let mut rest = known;
    for _ in 0..known.len() {
        let (told, behind) = first_line(rest);
        if let Some(note) = told.strip_prefix(front) {
            return note;
        }
        rest = behind;
    }
    &[]
}

/// What is known at a line of an assembly text, counted from 0: the part that `geos explain` prints after the line itself.
fn known_at(
    alloc: Global,
    document: Page<'_>,
    line: usize,
    text: &str,
) -> Result<String, AllocError> {
    if document.is_source() || document.text.len() > MOST_BYTES {
        return Ok(String::new(alloc));
    }
    let known = known_at_lines(alloc, document.text.as_bytes())?;
    // The number of the line, a tab and the line.
    let mut front = Reply::new(alloc);
    front.number("", (line as u64).saturating_add(1));
    front.raw("\t");
    front.raw(text);
    let front = front.finish()?;
    String::from_utf8_lossy(alloc, note_in(&known, &front).trim_ascii())
}

/// The hover text of an instruction, in capital or small letters. Empty for any other word.
fn topic_on(alloc: Global, word: &str) -> Result<&'static str, AllocError> {
    let upper = word.to_ascii_uppercase(alloc)?;
    Ok(topic(&upper).unwrap_or(""))
}

/// Writes what an instruction does, and what is known before it; `null` if there is nothing to say.
fn put_said(out: &mut Reply, word: &Span<'_>, topic: &str, known: &str) {
    if topic.is_empty() && known.is_empty() {
        return out.raw("null");
    }
    out.raw("{\"contents\":{\"kind\":\"plaintext\",\"value\":\"");
    out.escaped(topic.as_bytes());
    if !topic.is_empty() && !known.is_empty() {
        out.escaped(b"\n\n")
    }
    out.escaped(known.as_bytes());
    put_range(out, "\"},\"range\":", word);
    out.raw("}")
}

/// `textDocument/hover`: what an instruction does, and what is known before it; `null` if there is nothing to say.
pub(crate) fn put_hover(
    out: &mut Reply,
    document: Page<'_>,
    asked: &Asked<'_>,
) -> Result<(), AllocError> {
    let line = document.line(asked.line);
    match word_at(asked.line, line, offset_of(line, asked.column)) {
        Some(word) => {
            let topic = topic_on(out.alloc, word.words())?;
            let known = known_at(out.alloc, document, asked.line, line)?;
            put_said(out, &word, topic, &known)
        }
        None => out.raw("null"),
    }
    Ok(())
}
