//! The text of `explain`.

use geos_text::{first_line, first_word};
use geos_texts::{Runnable, known_at_lines, known_lines};

/// The first word of a line, and what follows it. A line of a text begins with its number, which is no word of it.
fn first_in(line: &[u8]) -> Option<(&[u8], &[u8])> {
    let (word, behind) = first_word(line)?;
    match line.first() {
        Some(byte) if byte.is_ascii_digit() => first_word(behind),
        _ => Some((word, behind)),
    }
}

/// Whether the first word is this one.
fn begins_with(text: &[u8], word: &[u8]) -> bool {
    match first_word(text) {
        Some((first, _)) => first == word,
        None => false,
    }
}

/// The lines of the routine of that name, up to the last one that has an instruction or a note, and not only a comment. Empty if there is no
/// such routine.
pub(crate) fn lines_of<'t>(text: &'t [u8], name: &[u8]) -> &'t [u8] {
    let mut rest = text;
    let mut is_in = false;
    let mut found: &'t [u8] = &[];
    let mut length = 0;
    // A line has at least one byte, so this is enough for all lines.
    for _ in 0..text.len() {
        if rest.is_empty() {
            break;
        }
        let (line, behind) = first_line(rest);
        if let Some((word, words)) = first_in(line) {
            if word == b"routine".as_slice() {
                is_in = begins_with(words, name);
                if is_in {
                    found = rest;
                }
            }
            if is_in && (!word.starts_with(b";") || line.starts_with(b";")) {
                length = found.len().saturating_sub(behind.len());
            }
        }
        rest = behind;
    }
    found.get(..length).unwrap_or(&[])
}

/// What is known at each instruction of routines. `None` if there is no memory.
pub(crate) fn known(rt: &HostRuntime, routines: &Runnable<'_>) -> Option<Vec<u8>> {
    if !routines.text.is_empty() {
        return known_at_lines(rt.alloc(), &routines.text).ok();
    }
    match known_lines(rt, routines) {
        Ok(known) => Some(known.lines),
        Err(_) => None,
    }
}
