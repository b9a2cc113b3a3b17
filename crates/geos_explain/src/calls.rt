//! What a routine that a CALL names does with slots, and with the VM file.

use crate::filled::Filled;
use crate::phrases::Phrase;
use crate::place::Place;
use crate::saying::{Fact, Saying};
use crate::uses::unlocking;
use geos_image::{Routine, SlotState};
use geos_opcodes::SlotUse;
use geos_verify::{calls, is_empty, is_of_file, slot_state};

/// What a routine itself does with a slot.
#[derive(Clone, Copy)]
pub(crate) enum Change {
    /// Nothing that leaves another block in it, or none.
    Leaves,
    /// It unlocks the slot, and locks no block into it.
    Unlocks,
    /// It locks a block into the slot.
    Locks,
}

/// What routine r itself does with the slot.
pub(crate) fn change_of(image: &Filled, r: u16, a: u8) -> Change {
    let mut change = Change::Leaves;
    for point in image.points_of(r) {
        match point.instr.opcode.uses().slot {
            SlotUse::LocksNew(_) | SlotUse::Locks(_) if point.instr.a == a => {
                return Change::Locks;
            }
            SlotUse::Unlocks(_) if point.instr.a == a => change = Change::Unlocks,
            _ => {}
        }
    }
    change
}

/// Whether routine r writes the VM file, or calls one that does by the table.
fn commits_by(image: &Filled, r: u16, table: &[bool; 32]) -> bool {
    for point in image.points_of(r) {
        let callee = usize::from(point.instr.imm);
        if let SlotUse::Commits = point.instr.opcode.uses().slot {
            return true;
        }
        if calls(point.instr.opcode) && callee < 32 && table[callee] {
            return true;
        }
    }
    false
}

/// Whether routine r writes the VM file, itself or by the routines that it calls.
fn commits(image: &Filled, r: u16) -> bool {
    let mut table = [false; 32];
    let mut last = false;
    for q in 0..image.count() {
        if q <= r && q < 32 {
            last = commits_by(image, q, &table);
            table[usize::from(q)] = last;
        }
    }
    last
}

/// Whether routine q has a CALL of routine r.
pub(crate) fn calls_to(image: &Filled, q: u16, r: u16) -> bool {
    for point in image.points_of(q) {
        if calls(point.instr.opcode) && point.instr.imm == r {
            return true;
        }
    }
    false
}

/// Why routine r can't be called while a slot has such a block, if it can't: it takes only borrowed ones, or writes the VM file.
pub(crate) fn forbids(image: &Filled, r: u16, state: SlotState) -> Option<Phrase> {
    if r >= image.count() || !state.is_own() {
        return None;
    }
    if image.routine(r).public {
        return Some(Phrase::IsPublic);
    }
    if is_of_file(state) && commits(image, r) {
        return Some(Phrase::WritesTheFile);
    }
    None
}

/// A slot that has a block is to be emptied before a CALL of a routine that forbids it.
fn put_emptied(out: &mut Saying, a: u8, state: SlotState, name: &[u8], why: Phrase) {
    let unlocks = Fact::Phrase(unlocking(state));
    out.put_of2(Phrase::UnlockBeforeCall, name, unlocks, Fact::Index(a));
    out.put(why)
}

/// What to do with a slot that has a block at a CALL of a routine that requires it empty.
fn put_lent(out: &mut Saying, place: &Place, callee: &Routine, a: u8) {
    let state = slot_state(place.row, a);
    let name = callee.name_text();
    out.put(Phrase::Then);
    if let Some(why) = forbids(place.image, place.i.imm, state) {
        return put_emptied(out, a, state, name, why);
    }
    match change_of(place.image, place.i.imm, a) {
        Change::Locks => out.put_of(Phrase::LocksItself, name, Fact::Index(a)),
        Change::Unlocks => out.put_of(Phrase::SayInLine, name, Fact::Slot(a, state)),
        Change::Leaves => out.put_of(Phrase::SayInBothLines, name, Fact::Slot(a, state)),
    }
}

/// The same of each such slot.
pub(crate) fn put_lent_items(out: &mut Saying, place: &Place, callee: &Routine) {
    for a in 0..4 {
        if is_empty(slot_state(&callee.entry, a)) && !is_empty(slot_state(place.row, a)) {
            put_lent(out, place, callee, a);
        }
    }
}
