//! Which slots are locked that must not be, and since where.

ghost use Rattle.std.specs.Prelude.{◌≡◌};
ghost use Rattle.geos_explain.specs.Places.{place_of};
ghost use Rattle.geos_explain.specs.Held.{is_held_at};
ghost use Rattle.geos_explain.specs.Since.{IsSaidOf};

use crate::lacks::{lacking, put_lacking};
use crate::phrases::Phrase;
use crate::place::Place;
use crate::public::put_missing;
use crate::saying::{Fact, Saying, choose};
use crate::since::{Since, held_since};
use crate::uses::unlocking;
use geos_image::Row;
use geos_verify::{is_empty, is_of_file, slot_state};

/// Where slots hold blocks that must not.
#[derive(Clone, Copy)]
pub(crate) enum HeldAt {
    /// At a return, and the exit row has them empty.
    Return,
    /// At an instruction that writes the VM file: slots that have blocks of the file.
    Write,
}

/// Whether the slot is one of these.
fn is_held_at(which: HeldAt, place: &Place, a: u8) -> bool
    ensures { result ≡ is_held_at which (place_of place.now) a }
{
    let state = slot_state(place.row, a);
    match which {
        HeldAt::Return => !is_empty(state) && is_empty(slot_state(&place.routine.exit, a)),
        HeldAt::Write => is_of_file(state),
    }
}

/// Each of these slots, and what it has.
fn put_slots_at(out: &mut Saying, which: HeldAt, place: &Place) {
    for a in 0..4 {
        if is_held_at(which, place, a) {
            out.slot(a, slot_state(place.row, a))
        }
    }
}

/// Since where the slot is locked, if that is known; of several places, one.
fn put_since(out: &mut Saying, place: &Place, a: u8, since: Since)
    requires { IsSaidOf (place_of place.now) a since }
{
    if since.entry {
        out.put1(Phrase::LockedSinceEntry, Fact::Index(a));
        put_again(out, since.from.is_some())
    } else if let Some(from) = since.from {
        out.put2(Phrase::LockedSince, Fact::Index(a), Fact::Line(from));
        put_again(out, since.again)
    }
}

/// Or since another place.
fn put_again(out: &mut Saying, again: bool) {
    if again {
        out.put(Phrase::OrAnotherPlace)
    }
}

/// What to do with a slot that is locked there, and not borrowed.
fn put_held_wish(out: &mut Saying, which: HeldAt, place: &Place, a: u8, entry: bool) {
    let state = slot_state(place.row, a);
    if !state.is_own() {
        return;
    }
    match which {
        HeldAt::Return => {
            let public = place.routine.public;
            let words = choose(public, Phrase::UnlockBeforeReturn, Phrase::SayOrUnlock);
            out.put2(words, Fact::Phrase(unlocking(state)), Fact::Index(a))
        }
        HeldAt::Write => out.put(choose(entry, Phrase::UnlockInCaller, Phrase::Nothing)),
    }
}

/// Since where a slot is locked that must not be, and what to do.
fn put_since_at(out: &mut Saying, which: HeldAt, place: &Place, a: u8) {
    if !is_held_at(which, place, a) {
        return;
    }
    let since = held_since(place, a);
    put_since(out, place, a, since);
    put_held_wish(out, which, place, a, since.entry)
}

/// The row does not fit the exit row: slots are still locked, or the exit row requires more.
pub(crate) fn put_exit(out: &mut Saying, place: &Place) {
    let exit = &place.routine.exit;
    let before = out.len();
    put_slots_at(out, HeldAt::Return, place);
    if out.len() == before {
        put_lacking(out, place.row, exit);
        return out.put_are(before, Phrase::RequiredByOut);
    }
    out.put_are(before, Phrase::StillLocked);
    for a in 0..4 {
        put_since_at(out, HeldAt::Return, place, a);
    }
    put_missing(out, place.row, exit);
    out.put_also(
        &lacking(place.row, exit),
        Phrase::Nothing,
        Phrase::RequiredByOut,
    )
}

/// Whether the row has a borrowed slot.
fn borrows(row: &Row) -> bool {
    let mut any = false;
    for a in 0..4 {
        any = any || !slot_state(row, a).is_own();
    }
    any
}

/// What to do with slots that are locked where the file is written.
fn writing_wish(row: &Row, one: bool) -> Phrase {
    if borrows(row) {
        Phrase::WriteElsewhere
    } else {
        choose(one, Phrase::UnlockItBefore, Phrase::UnlockThemBefore)
    }
}

/// The VM file is written while slots have blocks of it. What is borrowed stays locked.
pub(crate) fn put_written(out: &mut Saying, place: &Place) {
    let before = out.len();
    put_slots_at(out, HeldAt::Write, place);
    let one = out.is_one(before);
    out.put_are(before, Phrase::LockedAtWrite);
    out.put(writing_wish(place.row, one));
    for a in 0..4 {
        put_since_at(out, HeldAt::Write, place, a);
    }
}
