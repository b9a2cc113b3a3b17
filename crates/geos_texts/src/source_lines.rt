//! Listings with the lines of sources.

use crate::runnable::Runnable;
use geos_text::{first_line, put_numbered};
use line_marks::Place;
use std::alloc::{AllocError, Global};

/// The most bytes of a line that a comment repeats. Many instructions of long lines would make a text too long to be assembled.
const MOST_REPEATED: usize = 96;

/// Where each line of a text begins.
fn line_starts(alloc: Global, text: &[u8]) -> Result<Vec<usize>, AllocError> {
    let mut starts = Vec::new(alloc);
    starts.push(0)?;
    for (k, byte) in text.iter().enumerate() {
        if *byte == b'\n' {
            starts.push(k.saturating_add(1))?;
        }
    }
    Ok(starts)
}

/// The line with a number, from 1, without blanks around it; empty if the text has none.
fn line_of<'t>(text: &'t [u8], starts: &[usize], number: u32) -> &'t [u8] {
    let index = number as usize;
    let start = match starts.get(index.saturating_sub(1)) {
        Some(start) => *start,
        None => text.len(),
    };
    let end = match starts.get(index) {
        Some(end) => *end,
        None => text.len(),
    };
    text.get(start..end).unwrap_or(&[]).trim_ascii()
}

/// The bytes of a line that a comment repeats: whole characters.
fn repeated(line: &[u8]) -> &[u8] {
    let mut count = line.len().min(MOST_REPEATED);
    // A character has at most four bytes, and those after its first one begin with the bits 10.
    for _ in 0..3 {
        match line.get(count) {
            Some(byte) if *byte & 0xc0 == 0x80 => count = count.saturating_sub(1),
            _ => break,
        }
    }
    line.get(..count).unwrap_or(&[])
}

/// Appends the comment that repeats a line.
fn put_repeated(out: &mut Vec<u8>, place: Place, line: &[u8]) -> Result<(), AllocError> {
    put_numbered(out, "; ", place.line)?;
    if let Some(file) = place.file {
        out.extend_from_slice(b" of ")?;
        out.extend_from_slice(file.as_bytes())?;
    }
    out.extend_from_slice(b": ")?;
    let shown = repeated(line);
    out.extend_from_slice(shown)?;
    if shown.len() < line.len() {
        out.extend_from_slice(b" ..")?;
    }
    out.extend_from_slice(b"\n")
}

/// The listing of an image that was made of a source, with comments that repeat lines of the source before their instructions. Instructions of
/// one line that follow each other have one comment, which is before their first label. `AllocError` if the allocator refuses memory.
pub(crate) fn with_source_lines(
    alloc: Global,
    listing: &[u8],
    made: &Runnable<'_>,
) -> Result<Vec<u8>, AllocError> {
    let starts = line_starts(alloc, &made.source)?;
    let mut out = Vec::new(alloc);
    let mut rest = listing;
    let mut lines = made.lines().unwrap_or(&[]);
    let mut last: u32 = 0;
    // A line has at least one byte, so this is enough for all lines.
    for _ in 0..listing.len() {
        let (line, behind) = first_line(rest);
        let first = match line.first() {
            Some(first) => *first,
            None => break,
        };
        // Labels are an L and a pc, and instructions are indented.
        if (first == b' ' || first == b'L')
            && let Some(number) = lines.first()
            && *number != last
        {
            last = *number;
            let place = made.marks.place(u64::from(last));
            put_repeated(&mut out, place, line_of(&made.source, &starts, last))?;
        }
        if first == b' ' {
            lines = lines.get(1..).unwrap_or(&[]);
        } else if first == b'r' {
            // Another routine begins.
            last = 0;
        }
        out.extend_from_slice(line)?;
        out.extend_from_slice(b"\n")?;
        rest = behind;
    }
    Ok(out)
}
