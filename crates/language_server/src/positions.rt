//! Positions in texts. The protocol counts lines from 0, and columns in units of UTF-16.

use crate::reply::Reply;

/// A part of a line.
#[derive(Clone, Copy)]
pub(crate) struct Span<'t> {
    /// The number of the line, counted from 0.
    pub(crate) line: usize,
    /// The line.
    pub(crate) text: &'t str,
    /// The offset of its first byte, and that of the byte after its last one.
    pub(crate) start: usize,
    pub(crate) end: usize,
}

/// The line with this number, without its end. Empty after the last line.
pub(crate) fn line_of(text: &str, line: usize) -> &str {
    for (number, found) in text.split("\n").enumerate() {
        if number == line {
            return found.strip_suffix("\r").unwrap_or(found);
        }
    }
    ""
}

/// How many units of UTF-16 the character has that a byte of UTF-8 begins; 0 if it begins none.
fn units_of(byte: u8) -> u64 {
    if byte < 0x80 {
        1
    } else if byte < 0xc0 {
        0
    } else if byte < 0xf0 {
        1
    } else {
        2
    }
}

/// The offset in bytes of a column of a line, at most the line's length.
pub(crate) fn offset_of(line: &str, column: u64) -> usize {
    let mut left = column;
    let mut at: usize = 0;
    for byte in line.bytes() {
        let units = units_of(byte);
        if left < units {
            break;
        }
        left -= units;
        at = at.saturating_add(1);
    }
    at
}

/// The column of an offset in bytes.
fn column_of(line: &str, at: usize) -> u64 {
    let mut column: u64 = 0;
    for byte in line.get(..at).unwrap_or(line).bytes() {
        column = column.saturating_add(units_of(byte));
    }
    column
}

/// Writes a position.
fn put_position(out: &mut Reply, part: &str, line: usize, column: u64) {
    out.raw(part);
    out.number("{\"line\":", line as u64);
    out.number(",\"character\":", column);
    out.raw("}")
}

/// Writes the range of a part of a line.
pub(crate) fn put_range(out: &mut Reply, part: &str, span: &Span<'_>) {
    out.raw(part);
    put_position(
        out,
        "{\"start\":",
        span.line,
        column_of(span.text, span.start),
    );
    put_position(out, ",\"end\":", span.line, column_of(span.text, span.end));
    out.raw("}")
}

/// Writes the range of a whole text.
pub(crate) fn put_all(out: &mut Reply, part: &str, text: &str) {
    let mut lines: usize = 1;
    for byte in text.bytes() {
        if byte == b'\n' {
            lines = lines.saturating_add(1);
        }
    }
    out.raw(part);
    put_position(out, "{\"start\":", 0, 0);
    put_position(out, ",\"end\":", lines, 0);
    out.raw("}")
}
