//! Names in sentences.

use geos_text::put_numbered;
use std::alloc::AllocError;
use tkv_syntax::{LIBRARY, Name, name_at};

/// The name at an offset of a source, which the library follows.
fn name_in(text: &[u8], at: u32) -> Name {
    match (at as usize).checked_sub(text.len()) {
        Some(after) => name_at(LIBRARY.as_bytes(), after.min(65_535) as u32),
        None => name_at(text, at),
    }
}

/// Appends the name at an offset.
pub(crate) fn put_name(out: &mut Vec<u8>, text: &[u8], at: u32) -> Result<(), AllocError> {
    for byte in name_in(text, at) {
        if byte != 0 {
            out.push(byte)?;
        }
    }
    Ok(())
}

/// Appends what is between the first so many items of a list and the rest.
fn put_joint(out: &mut Vec<u8>, first: usize, rest: usize) -> Result<(), AllocError> {
    if first == 0 {
        return Ok(());
    }
    let joint = if rest > 1 { ", " } else { " and " };
    out.extend_from_slice(joint.as_bytes())
}

/// Appends how many values have no name.
fn put_unnamed(out: &mut Vec<u8>, count: usize) -> Result<(), AllocError> {
    let values = if count == 1 { " value" } else { " values" };
    put_numbered(out, "", count as u64)?;
    out.extend_from_slice(values.as_bytes())?;
    out.extend_from_slice(b" without a name")
}

/// Whether the source has a name at an offset that may be `NONE`, or an offset in the library.
fn is_own(text: &[u8], at: u32) -> bool {
    (at as usize) < text.len()
}

/// Appends the names that hold words, and how many words no name of the source holds.
pub(crate) fn put_holders(
    out: &mut Vec<u8>,
    text: &[u8],
    holders: &[u32; 7],
) -> Result<(), AllocError> {
    let mut named: usize = 0;
    for at in holders {
        if is_own(text, *at) {
            named = named.saturating_add(1);
        }
    }
    let unnamed = holders.len().saturating_sub(named);
    let items = named.saturating_add(unnamed.min(1));
    let mut first: usize = 0;
    for at in holders {
        if is_own(text, *at) {
            put_joint(out, first, items.saturating_sub(first))?;
            put_name(out, text, *at)?;
            first = first.saturating_add(1);
        }
    }
    if unnamed == 0 {
        return Ok(());
    }
    put_joint(out, first, 1)?;
    put_unnamed(out, unnamed)
}

/// Appends a warning about the routine that the source declares at an offset, which no public routine calls. `AllocError` if the allocator
/// refuses memory.
pub fn put_uncalled(out: &mut Vec<u8>, text: &[u8], at: u32) -> Result<(), AllocError> {
    put_name(out, text, at)?;
    out.extend_from_slice(b" is never called from a public routine: call it, or remove it")
}
