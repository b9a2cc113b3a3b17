//! Faulty lines as diagnostics, so that editors go there.

use crate::faulty::{FaultyLine, FaultyLines, faulty_lines};
use crate::told::put_saying;
use sentence_text::Text;
use std::alloc::{AllocError, Global};

/// How many faulty lines have a diagnostic.
const MOST: usize = 20;

/// What is before the column of a word in a sentence.
const COLUMN: &[u8] = b" at column ";

/// The column that a sentence names, as digits. No word of a text has a blank, so only the program writes this.
fn column_of(saying: &[u8]) -> Option<&[u8]> {
    let at = saying
        .windows(COLUMN.len())
        .position(|window| window == COLUMN)?;
    let rest = saying.get(at + COLUMN.len()..)?;
    let end = rest
        .iter()
        .position(|byte| !byte.is_ascii_digit())
        .unwrap_or(rest.len());
    rest.get(..end)
}

/// Appends a faulty line: `FILE:LINE:COLUMN: error: SENTENCE`, without the column if the sentence names none.
fn put_diagnostic(alloc: Global, out: &mut Text, file: &str, line: &FaultyLine) {
    let mut saying = Text::new(alloc);
    put_saying(&mut saying, line);
    out.put(file);
    out.put_number(":", line.fault.line as u64);
    if let Some(column) = column_of(&saying.bytes) {
        out.put(":");
        out.put_bytes(column);
    }
    out.put(": error: ");
    out.put_bytes(&saying.bytes);
    out.put("\n")
}

/// The faulty lines of the text FILE as diagnostics: `FILE:LINE:COLUMN: error: SENTENCE` for each of the first 20, and how many more there are.
/// Columns count bytes from 1. `AllocError` if the allocator refuses memory.
pub fn diagnose_faults(alloc: Global, file: &str, text: &[u8]) -> Result<Vec<u8>, AllocError> {
    let FaultyLines { lines, more } = faulty_lines(alloc, text)?;
    let mut out = Text::new(alloc);
    for line in lines.iter().take(MOST) {
        put_diagnostic(alloc, &mut out, file, line);
    }
    let more = lines.len().saturating_sub(MOST).saturating_add(more);
    if more > 0 {
        out.put(file);
        out.put_number(": note: and ", more as u64);
        out.put(" more faulty lines\n");
    }
    out.finish()
}
