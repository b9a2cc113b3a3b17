//! The text of an image, or an author's text, with what is known at each instruction.

ghost use Rattle.std.specs.Prelude.{◌≡◌, ◌<◌, true, length};
ghost use Rattle.geos_image.specs.Legal.{is_image};
ghost use Rattle.geos_listing.specs.Instrs.{MarksTargets};
ghost use Rattle.geos_explain.specs.Texts.{last_begun, is_line_of, next_pc};

use crate::explained::Explained;
use crate::filled::Filled;
use crate::led::reached;
use crate::notes::put_note;
use crate::place::Place;
use crate::refusals::{put_over_budget, put_refusal};
use crate::repeated::told_once;
use crate::routines::{ExplainedRoutine, place_at};
use crate::saying::Saying;
use geos_image::Image;
use geos_listing::{Targets, put_code, put_label_line, put_routine_line, put_row, targets_of};
use geos_text::first_line;
use geos_verify::Rule;
use std::alloc::{AllocError, Global};

/// What is known at the instruction, up to the end of the line, and what is wrong with it, and with the budget of its routine.
fn put_noted(out: &mut Saying, within: &ExplainedRoutine, place: &Place) {
    put_note(out, place);
    out.text("\n");
    put_refusal(out, within.explained, place);
    put_over_budget(out, within, place.pc)
}

/// The instruction at a pc, after its label if another leads to it, with what is known there, and what is wrong with it.
fn put_place(out: &mut Saying, targets: &Targets, within: &ExplainedRoutine, pc: u16)
    requires within { pc < length within.now.explained.now.image.now.points }
    requires targets { MarksTargets within.now.explained.now.image.now.points targets.now }
{
    let done = put_label_line(&mut out.out, within.explained.image.image(), targets, pc);
    out.note(done);
    let place = place_at(within, pc);
    let done = put_code(&mut out.out, place.image.image(), place.i);
    out.note(done);
    put_noted(out, within, &place)
}

/// The routine's line, its entry row and its exit row, and its instructions.
fn put_routine(out: &mut Saying, targets: &Targets, explained: &Explained, r: u16)
    requires within { r < length explained.now.image.now.routines }
    requires legal { is_image explained.now.image.now ≡ true }
    requires targets { MarksTargets explained.now.image.now.points targets.now }
{
    let routine = explained.image.routine(r);
    let done = put_routine_line(&mut out.out, routine);
    out.note(done);
    let done = put_row(&mut out.out, "in", &routine.entry);
    out.note(done);
    let done = put_row(&mut out.out, "out", &routine.exit);
    out.note(done);
    let start = explained.image.start(r);
    let within = ExplainedRoutine {
        explained,
        r,
        routine,
    };
    for k in 0..routine.count {
        put_place(out, targets, &within, start + k);
    }
}

/// The same of all routines.
fn put_routines(out: &mut Saying, explained: &Explained) {
    let targets = targets_of(explained.image.image());
    for r in 0..explained.image.count() {
        put_routine(out, &targets, explained, r);
    }
}

/// The listing of the image, after each instruction what is known there, and a line for its refusal before the next instruction; after the
/// last of a routine one for that by the rule on the budget. `refused` has for each pc the lowest rule that refuses there, or nothing if
/// none does. At most it takes time in proportion to the square of the number of
/// instructions, some 30,000 times divided by that number.
pub fn explain(
    alloc: Global,
    image: &Image,
    refused: &[Option<Rule>],
) -> Result<Vec<u8>, AllocError> {
    let filled = Filled::of(alloc, image)?;
    let told = told_once(alloc, &filled, refused)?;
    let marks = reached(&filled);
    let explained = Explained::of(&filled, &marks, &told);
    let mut out = Saying::new(alloc, &[]);
    put_routines(&mut out, &explained);
    out.finish()
}

/// The last routine that begins at the pc or before.
#[tactic(auto, unfolding(crate::specs::Texts::last_begun))]
fn last_begun(image: &Filled, pc: u16) -> Option<u16>
    ensures { result ≡ last_begun image.now pc (length image.now.routines) }
{
    let mut last = None;
    for r in 0..image.count() {
        if image.start(r) <= pc {
            last = Some(r);
        }
    }
    last
}

/// The notes on the instruction at a pc.
fn put_noted_at(out: &mut Saying, explained: &Explained, pc: u16)
    requires { pc < length explained.now.image.now.points }
{
    let Some(r) = last_begun(explained.image, pc) else {
        return;
    };
    if r >= explained.image.count() {
        return;
    }
    let routine = explained.image.routine(r);
    let _start = explained.image.start(r);
    let within = ExplainedRoutine {
        explained,
        r,
        routine,
    };
    let place = place_at(&within, pc);
    put_noted(out, &within, &place)
}

/// Whether the table has the line as that of the instruction at the pc.
#[tactic(auto, unfolding(crate::specs::Texts::is_line_of))]
fn is_line_of(lines: &[u32], pc: u16, number: usize) -> bool
    ensures { result ≡ is_line_of lines.now pc number }
{
    match lines.get(usize::from(pc)) {
        Some(line) => *line as usize == number,
        None => false,
    }
}

/// A line with its number. If `pc`, the next instruction, is on it, the notes on the instruction follow.
fn put_line(out: &mut Saying, explained: &Explained, pc: u16, number: usize, text: &[u8]) {
    out.number("", number as u64).name("\t", text);
    if is_line_of(out.lines.as_slice(), pc, number) && pc < explained.image.len() {
        put_noted_at(out, explained, pc)
    } else {
        out.text("\n");
    }
}

/// The next instruction after a line.
#[tactic(auto, unfolding(crate::specs::Texts::next_pc))]
fn next_pc(lines: &[u32], pc: u16, number: usize) -> u16
    ensures { result ≡ next_pc lines.now pc number }
{
    if is_line_of(lines, pc, number) && pc < 4096 {
        pc + 1
    } else {
        pc
    }
}

/// All lines of a text.
fn all_lines(out: &mut Saying, text: &[u8], explained: &Explained) {
    let mut rest = text;
    let mut number: usize = 0;
    let mut pc: u16 = 0;
    while !rest.is_empty() {
        let (text, behind) = first_line(rest);
        rest = behind;
        number += 1;
        put_line(out, explained, pc, number, text);
        pc = next_pc(out.lines.as_slice(), pc, number);
    }
}

/// The author's text, each line after its number, and after each instruction what is known there and a line for its refusal, as `explain`
/// has them. `lines` has the number of each instruction's line, as `geos_source::parse` gives
/// them, and the image is one of the text. At most it takes time in proportion to the text, and to the square of the
/// number of instructions.
pub fn explain_text(
    alloc: Global,
    text: &[u8],
    lines: &[u32],
    image: &Image,
    refused: &[Option<Rule>],
) -> Result<Vec<u8>, AllocError> {
    let filled = Filled::of(alloc, image)?;
    let told = told_once(alloc, &filled, refused)?;
    let marks = reached(&filled);
    let explained = Explained::of(&filled, &marks, &told);
    let mut out = Saying::new(alloc, lines);
    all_lines(&mut out, text, &explained);
    out.finish()
}
