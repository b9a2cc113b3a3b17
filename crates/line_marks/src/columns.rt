//! The columns of a line.

use crate::mark::is_mark;
use crate::output::Output;
use geos_text::{first_line, is_blank, without_comment};
use std::alloc::{AllocError, Global};

/// The column at which instructions begin, in bytes from the start of a line, and the width of a tab.
const COLUMN: usize = 8;

/// The column after bytes of a line, with tabs counted to the next multiple of 8.
fn column_after(line: &[u8]) -> usize {
    line.iter().fold(0usize, |column, byte| match byte {
        b'\t' => (column / COLUMN).saturating_add(1).saturating_mul(COLUMN),
        _ => column.saturating_add(1),
    })
}

/// Writes the words of a line: labels and a line `routine` from its start, an instruction from column 8.
fn put_words(out: &mut Output, code: &[u8]) {
    let mut after_labels = false;
    for word in code.split(|byte| is_blank(*byte)) {
        if word.is_empty() {
            continue;
        }
        let is_label = !after_labels && word.ends_with(b":");
        let is_indented = !after_labels && !is_label && word != b"routine".as_slice();
        out.go_to(if is_indented { COLUMN } else { 0 });
        out.put(word);
        after_labels = !is_label;
    }
}

/// Writes the comment of a line, which is not empty.
fn put_comment(out: &mut Output, code: &[u8], comment: &[u8]) {
    let column = column_after(code);
    let is_alone = code.iter().all(|byte| is_blank(*byte));
    out.go_to(if is_alone { column.min(COLUMN) } else { column });
    out.put(comment.trim_ascii_end());
}

fn put_line(out: &mut Output, line: &[u8]) {
    if is_mark(line) {
        out.put(line);
        return out.end_line();
    }
    let code = without_comment(line);
    put_words(out, code);
    let comment = &line[code.len()..];
    if !comment.is_empty() {
        put_comment(out, code, comment);
    }
    out.end_line();
}

/// The text with labels and lines `routine` at the start of their lines, instructions from column 8, and one space between words. A comment
/// keeps its column if the words before it leave a space, and otherwise follows after one. A comment on a line of its own begins at the
/// start of the line, or if it was indented, at column 8 at most. A line mark of a preprocessor stays as it is.
///
/// Each line keeps its words and its comment, so the text assembles to the same image; formatting it again changes nothing. Lines end
/// with LF; a line whose last word ends with a CR has CR LF. An error says that an allocation was refused.
pub fn formatted(alloc: Global, text: &[u8]) -> Result<Vec<u8>, AllocError> {
    let mut out = Output::new(alloc);
    let mut rest = text;
    // A line has at least one byte, so this is enough for all lines.
    for _ in 0..text.len() {
        if rest.is_empty() {
            break;
        }
        let (line, behind) = first_line(rest);
        put_line(&mut out, line);
        rest = behind;
    }
    out.finish()
}
