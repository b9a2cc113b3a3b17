//! The places of an image, and what is known at each.

ghost use Rattle.std.specs.Prelude.{◌≡◌, ◌<◌, ◌+◌, length, true, false, None, IfOk};
ghost use Rattle.geos_verify.specs.Places.{places, or_row, RowAt};
ghost use Rattle.geos_verify.specs.Rows.{after, HasEdge};
ghost use Rattle.geos_verify.specs.Rules.{NamesNoneAfter};

use crate::edges::go_along;
use crate::touched::calls;
use crate::uses::uses_at;
use geos_image::{Image, Instr, Potential, Row, SlotState};
use std::alloc::{AllocError, Global};

/// An instruction, with what is known of the registers before it, and a bound on the steps that are left there.
#[derive(Clone, Copy)]
pub struct Place {
    pub instr: Instr,
    pub row: Row,
    pub potential: Potential,
}

/// Lemma: a row has four slots.
fn has_four(slots: &[SlotState; 4])
    ensures { length slots.now ≡ 4 }
{}

/// Changes the row at `pc` into the row after the instruction there. If it returns true, the row names no empty slot, provided that it
/// named none before and the instruction uses slots as it may. After a CALL it returns false: an exit row may name any slot.
fn go_behind(image: &Image, pc: u16, row: &mut Row) -> bool
    requires there { pc < length image.now.points }
    requires edge { HasEdge image.now pc false }
    ensures row { row.new ≡ after image.now pc row.old false }
    ensures names { result ≡ true → NamesNoneAfter image.now pc row.old row.new }
{
    has_four(&row.slots);
    let i = image.instr(pc);
    go_along(image, i, uses_at(i), row);
    !calls(i.opcode)
}

/// Changes the row at `pc` into the one that the image gives after it, or otherwise into what is known there. If it returns true, the row
/// names no empty slot, as above. It returns false for a row that the image gives.
fn take_given(image: &Image, pc: u16, given: &Option<Row>, row: &mut Row) -> bool
    requires there { pc < length image.now.points }
    requires edge { given.now ≡ None → HasEdge image.now pc false }
    ensures row { row.new ≡ or_row given.now (after image.now pc row.old false) }
    ensures names { result ≡ true → NamesNoneAfter image.now pc row.old row.new }
{
    match given {
        Some(known) => {
            *row = *known;
            false
        }
        None => go_behind(image, pc, row),
    }
}

/// Changes the row at `pc` into the row of the next instruction: the row that the image gives there, or otherwise what is known after the
/// instruction. After the last instruction it may be any row. If it returns true, the row names no empty slot, provided that it named none
/// before and the instruction uses slots as it may.
pub(crate) fn go_on(image: &Image, pc: u16, row: &mut Row) -> bool
    requires there { pc < length image.now.points }
    requires here { RowAt image.now pc row.old }
    ensures row { RowAt image.now (pc + 1) row.new }
    ensures names { result ≡ true → NamesNoneAfter image.now pc row.old row.new }
{
    let len = image.len();
    let next = pc + 1;
    if next == len {
        return false;
    }
    // The row that is given here is given there too.
    if image.repeats(pc) {
        return true;
    }
    take_given(image, pc, image.given(next), row)
}

/// What is known at the place after `pc`, where `row` is known at `pc`.
pub fn row_next(image: &Image, pc: u16, row: &Row) -> Row
    requires there { pc < length image.now.points }
    requires here { RowAt image.now pc row.now }
    ensures { RowAt image.now (pc + 1) result }
{
    let mut next = *row;
    go_on(image, pc, &mut next);
    next
}

/// The places of an image, by pc.
pub fn places_of(alloc: Global, image: &Image) -> Result<Vec<Place>, AllocError>
    ensures { IfOk result (λ v. v.items ≡ places image.now) }
{
    let mut places = Vec::with_capacity(alloc, usize::from(image.len()))?;
    let mut row = *image.row(image.start(0));
    for pc in 0..image.len() {
        places.push(Place {
            instr: *image.instr(pc),
            row,
            potential: *image.potential(pc),
        })?;
        row = row_next(image, pc, &row);
    }
    Ok(places)
}
