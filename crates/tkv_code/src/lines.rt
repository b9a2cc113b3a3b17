//! The lines of instructions.

use std::alloc::{AllocError, Global};

/// Where each line begins.
fn line_starts(alloc: Global, text: &[u8]) -> Result<Vec<u32>, AllocError> {
    let mut starts = Vec::new(alloc);
    starts.push(0)?;
    let mut next: u32 = 0;
    for byte in text {
        next = next.saturating_add(1);
        if *byte == b'\n' {
            starts.push(next)?;
        }
    }
    Ok(starts)
}

/// The number of the last of these lines, from 1, that begins at a place or before it.
fn line_at(starts: &[u32], place: u32) -> u32 {
    let line = starts.partition_point(|start| *start <= place);
    line.min(4_294_967_295) as u32
}

/// The line of each place of a source, from 1. `AllocError` if the allocator refuses memory.
pub fn lines_of(alloc: Global, text: &[u8], places: &[u32]) -> Result<Vec<u32>, AllocError> {
    let starts = line_starts(alloc, text)?;
    let mut lines = Vec::new(alloc);
    for place in places {
        lines.push(line_at(&starts, *place))?;
    }
    Ok(lines)
}
