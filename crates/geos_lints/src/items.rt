//! Registers that come twice in one line `in` or `out` of a text.

use geos_text::{first_line, first_word, without_comment};
use std::alloc::{AllocError, Global};

/// A register that comes again in its line. Only the last of its items counts.
#[derive(Clone, Copy)]
pub struct Doubled<'a> {
    /// The number of the line, from 1.
    pub line: u32,
    /// The column of the first item, in bytes from 1.
    pub column: u32,
    /// The register, as `w0`.
    pub register: &'a [u8],
    /// The first item.
    pub first: &'a [u8],
    /// The last item.
    pub last: &'a [u8],
}

/// The register that an item is about; none of an item on a pair of slots.
fn register_of(item: &[u8]) -> Option<&[u8]> {
    let end = item.iter().position(|byte| *byte == b'<' || *byte == b'=')?;
    item.get(..end)
}

/// The last item of a line on a register.
fn last_on<'a>(items: &'a [u8], register: &[u8]) -> Option<&'a [u8]> {
    let mut found = None;
    let mut rest = items;
    // Each item takes at least a byte.
    for _ in 0..items.len() {
        let Some((item, behind)) = first_word(rest) else {
            break;
        };
        if register_of(item) == Some(register) {
            found = Some(item);
        }
        rest = behind;
    }
    found
}

/// The first item of a line that begins with `in` or `out` whose register comes again, without the number of the line.
fn doubled_in(line: &[u8]) -> Option<Doubled> {
    let said = without_comment(line);
    let (word, items) = first_word(said)?;
    if word != b"in".as_slice() && word != b"out".as_slice() {
        return None;
    }
    let mut rest = items;
    for _ in 0..items.len() {
        let (first, behind) = first_word(rest)?;
        if let Some(register) = register_of(first)
            && let Some(last) = last_on(behind, register)
        {
            let before = said
                .len()
                .saturating_sub(behind.len())
                .saturating_sub(first.len());
            return Some(Doubled {
                line: 0,
                column: u32::try_from(before.saturating_add(1)).unwrap_or(u32::MAX),
                register,
                first,
                last,
            });
        }
        rest = behind;
    }
    None
}

/// The registers that come twice in a line `in` or `out` of a text, in order; at most one of a line.
pub fn doubled_items(alloc: Global, text: &[u8]) -> Result<Vec<Doubled>, AllocError> {
    let mut found = Vec::new(alloc);
    let mut rest = text;
    let mut number: u32 = 0;
    // A line has at least a byte.
    for _ in 0..text.len() {
        if rest.is_empty() {
            break;
        }
        let (line, behind) = first_line(rest);
        rest = behind;
        number = number.saturating_add(1);
        if let Some(doubled) = doubled_in(line) {
            found.push(Doubled {
                line: number,
                ..doubled
            })?;
        }
    }
    Ok(found)
}
