//! The words of effects.

use geos_grants::Effects;
use geos_text::{Part, put_parts};
use std::alloc::AllocError;

/// Appends words, a comma before each but the first of a list.
fn put_word(out: &mut Vec<u8>, first: &mut bool, word: &[Part]) -> Result<(), AllocError> {
    let sign = if *first { "" } else { ", " };
    *first = false;
    put_parts(out, &[Part::Text(sign)])?;
    put_parts(out, word)
}

fn put_if(out: &mut Vec<u8>, first: &mut bool, has: bool, word: &str) -> Result<(), AllocError> {
    if has {
        put_word(out, first, &[Part::Text(word)])
    } else {
        Ok(())
    }
}

/// Appends the word with each slot that has a flag.
fn put_slots(
    out: &mut Vec<u8>,
    first: &mut bool,
    flags: &[bool; 4],
    word: &str,
) -> Result<(), AllocError> {
    for k in 0..4 {
        if flags[k] {
            put_word(out, first, &[Part::Numbered(word, k as u64)])?;
        }
    }
    Ok(())
}

/// Appends a set of effects, as `output, changes s0`; `none` for the empty set. An error says that an allocation was refused.
pub fn put_effects(out: &mut Vec<u8>, effects: &Effects) -> Result<(), AllocError> {
    let mut first = true;
    put_if(out, &mut first, effects.output, "output")?;
    put_slots(out, &mut first, &effects.reads_lent, "reads s")?;
    put_slots(out, &mut first, &effects.changes_lent, "changes s")?;
    put_if(out, &mut first, effects.memory, "memory")?;
    put_if(out, &mut first, effects.locks_by_handle, "locks by handle")?;
    put_if(out, &mut first, effects.reads_file, "reads file")?;
    put_if(out, &mut first, effects.changes_file, "changes file")?;
    put_if(out, &mut first, effects.map, "map")?;
    put_if(out, &mut first, effects.commits, "commits")?;
    if first {
        put_parts(out, &[Part::Text("none")])
    } else {
        Ok(())
    }
}
