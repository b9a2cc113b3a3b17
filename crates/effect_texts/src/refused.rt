//! Sentences on the effects of an image.

use crate::listed::put_effects;
use geos_grants::{Effect, Effects, Excess, effects_of};
use geos_image::Image;
use geos_text::{Part, put_parts};
use geos_verify::Checked;
use std::alloc::AllocError;

/// Appends a comment with the effects of each routine, as `; effects of a: output`. An error says that an allocation was refused.
pub fn put_effect_lines(out: &mut Vec<u8>, checked: &Checked) -> Result<(), AllocError> {
    let image = checked.image();
    let table = effects_of(checked);
    for r in 0..image.count() {
        put_parts(
            out,
            &[
                Part::Text("; effects of "),
                Part::Bytes(image.routine(r).name_text()),
                Part::Text(": "),
            ],
        )?;
        put_effects(out, &table[usize::from(r)])?;
        put_parts(out, &[Part::Text("\n")])?;
    }
    Ok(())
}

/// What a routine does that has the effect, and the slot after it, if one is.
fn verb_of(effect: Effect) -> Part<'static> {
    match effect {
        Effect::Output => Part::Text(" outputs"),
        Effect::ReadsLent(slot) => Part::Numbered(" reads s", slot as u64),
        Effect::ChangesLent(slot) => Part::Numbered(" changes s", slot as u64),
        Effect::Memory => Part::Text(" uses memory"),
        Effect::LocksByHandle => Part::Text(" locks by handle"),
        Effect::ReadsFile => Part::Text(" reads the file"),
        Effect::ChangesFile => Part::Text(" changes the file"),
        Effect::Map => Part::Text(" changes the map"),
        Effect::Commits => Part::Text(" commits"),
    }
}

/// The place of an instruction: its line in a text, if lines are given, and otherwise its pc.
fn place_of(lines: Option<&[u32]>, pc: u16) -> Part<'static> {
    match lines {
        Some(lines) => Part::Numbered(
            " at line ",
            u64::from(lines.get(usize::from(pc)).copied().unwrap_or(0)),
        ),
        None => Part::Numbered(" at ", u64::from(pc)),
    }
}

/// Appends an effect that is not granted, as `filter commits (VSAVE at line 12)`. An error says that an allocation was refused.
pub fn put_excess(
    out: &mut Vec<u8>,
    image: &Image,
    lines: Option<&[u32]>,
    excess: &Excess,
) -> Result<(), AllocError> {
    if excess.routine >= image.count() || excess.pc >= image.len() {
        return Ok(());
    }
    put_parts(
        out,
        &[
            Part::Bytes(image.routine(excess.routine).name_text()),
            verb_of(excess.effect),
            Part::Text(" ("),
            Part::Text(image.instr(excess.pc).opcode.word()),
            place_of(lines, excess.pc),
            Part::Text(")"),
        ],
    )
}
