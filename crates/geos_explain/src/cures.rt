//! Why what a row requires is not known at a place, item by item, and what makes it known.

ghost use Rattle.std.specs.Prelude.{◌<◌};
ghost use Rattle.geos_explain.specs.Forgotten.{IsForgottenBy};
ghost use Rattle.geos_explain.specs.Places.{place_of};

use crate::calls::{Change, change_of, forbids};
use crate::forgotten::{Item, forgetting_call, knows, last_moving};
use crate::lacks::as_marked;
use crate::led::is_reached;
use crate::phrases::Phrase;
use crate::place::Place;
use crate::saying::{Fact, Saying};
use crate::stale::{name_at, put_traced};
use crate::uses::{mark_word, put_ask_wish, put_bounding, unlocking};
use geos_image::{Opcode, Pointer, Row, SlotState};
use geos_verify::{Place as KnownPlace, are_alike, is_empty, pointer_at, slot_fits, slot_state};

/// The slots of each pair of a row.
const PAIRS: [(u8, u8); 6] = [(0, 1), (0, 2), (0, 3), (1, 2), (1, 3), (2, 3)];

/// The bound of a word that is to be said, if the row before a CALL knows it: if the word is changed after the CALL, what the row knows.
fn bound_before(place: &Place, item: Item, row: &Row, w: u8, most: u16) -> u16 {
    match row.bounds.get(usize::from(w)) {
        Some(bound) if last_moving(place, item, w).is_some() => *bound,
        _ => most,
    }
}

/// Two slots with different blocks, as in a line `in` or `out`.
fn put_apart(out: &mut Saying, pair: u8) {
    if let Some((a, b)) = PAIRS.get(usize::from(pair)) {
        out.number(" s", *a as u64).number("#s", *b as u64);
    }
}

/// A pointer as in a line `in` or `out`.
fn put_leads(out: &mut Saying, p: u8, pointer: Pointer) {
    let (slot, least) = (Fact::Index(pointer.slot), Fact::Count(pointer.least));
    out.put3(Phrase::Leads, Fact::Index(p), slot, least)
}

/// The item as it is in a line `in` or `out`. Of a slot that is to have a block, what the row has there.
fn put_item(out: &mut Saying, place: &Place, item: Item, row: &Row) {
    match item {
        Item::Bound(w, most) => {
            let bound = bound_before(place, item, row, w, most);
            out.put2(Phrase::Bound, Fact::Index(w), Fact::Count(bound))
        }
        Item::Slot(a, state) => out.slot(a, state),
        Item::Held(a) => out.slot(a, slot_state(row, a)),
        Item::Leads(p, pointer) => put_leads(out, p, pointer),
        Item::Apart(pair) => put_apart(out, pair),
    }
}

/// The item is to be said in the lines of a routine.
fn put_say(out: &mut Saying, place: &Place, item: Item, row: &Row, name: &[u8]) {
    out.put(Phrase::ColonSay);
    put_item(out, place, item, row);
    out.put_of(Phrase::InBothLines, name, Fact::Nothing)
}

/// A pointer is to be fetched again, or said in the lines of a routine that leaves its slot.
fn put_again(out: &mut Saying, p: u8, pointer: Pointer, change: Change, name: &[u8]) {
    out.put1(Phrase::FetchAfterIt, Fact::Index(p));
    if let Change::Leaves = change {
        out.put_of(Phrase::OrIfMovesNothing, name, Fact::Index(pointer.slot));
        put_leads(out, p, pointer);
        out.put_of(Phrase::InBothLines, name, Fact::Nothing)
    }
}

/// A routine changes the slot itself.
fn put_changed(out: &mut Saying, a: u8, change: Change, name: &[u8]) {
    let words = match change {
        Change::Locks => Phrase::AndLocks,
        _ => Phrase::AndUnlocks,
    };
    out.put_of(words, name, Fact::Index(a))
}

/// A slot is to be unlocked before a CALL, for this reason.
fn put_before(out: &mut Saying, a: u8, state: SlotState, name: &[u8], why: Phrase) {
    let unlocks = Fact::Phrase(unlocking(state));
    out.put_of2(Phrase::UnlockBeforeIt, name, unlocks, Fact::Index(a));
    out.put(why)
}

/// What helps if a CALL of routine r forgets what a slot had.
fn put_slot_wish(out: &mut Saying, place: &Place, item: Item, a: u8, r: u16, row: &Row) {
    let name = name_at(place.image, r);
    let known = slot_state(row, a);
    match (forbids(place.image, r, known), change_of(place.image, r, a)) {
        (Some(why), _) => put_before(out, a, known, name, why),
        (None, Change::Leaves) => put_say(out, place, item, row, name),
        (None, change) => put_changed(out, a, change, name),
    }
}

/// What helps if a CALL of routine r forgets the item, which the row knows: to say it in the lines of that routine, unless the routine
/// changes its slot; a pointer may be fetched again.
pub(crate) fn put_kept_wish(out: &mut Saying, place: &Place, item: Item, r: u16, row: &Row) {
    match item {
        Item::Slot(a, _) | Item::Held(a) => put_slot_wish(out, place, item, a, r, row),
        Item::Leads(p, pointer) => {
            let change = change_of(place.image, r, pointer.slot);
            put_again(out, p, pointer, change, name_at(place.image, r))
        }
        _ => put_say(out, place, item, row, name_at(place.image, r)),
    }
}

/// A CALL forgets the item, and what helps.
fn put_forgotten_at(out: &mut Saying, place: &Place, item: Item, from: u16, point: &KnownPlace)
    requires { IsForgottenBy (place_of place.now) item from }
{
    let r = point.instr.imm;
    out.put_of(
        Phrase::CallLeavesOnlyOut,
        name_at(place.image, r),
        Fact::Line(from),
    );
    put_kept_wish(out, place, item, r, &point.row)
}

/// The CALL that forgets the item on a way to the place, if there is one. Whether there is.
pub(crate) fn put_forgotten(out: &mut Saying, place: &Place, item: Item) -> bool {
    match forgetting_call(place, item) {
        Some(from) => match place.image.place(from) {
            Some(point) => {
                put_forgotten_at(out, place, item, from, point);
                true
            }
            None => false,
        },
        None => false,
    }
}

/// Why a bound is not known that the row requires, and what makes it known.
fn put_bound_cure(out: &mut Saying, place: &Place, wanted: &Row, w: u8)
    requires { w < 8 }
{
    let most = wanted.bounds[usize::from(w)];
    if most < place.row.bounds[usize::from(w)] {
        put_forgotten(out, place, Item::Bound(w, most));
        put_bounding(out, w, most)
    }
}

/// The block of a slot is to be marked.
fn put_marking(out: &mut Saying, a: u8, state: SlotState) {
    let marks = Fact::Phrase(mark_word(state));
    out.put2(Phrase::MarksBefore, marks, Fact::Index(a))
}

/// What a slot is to have that it does not have, and that no CALL took: at a return, or elsewhere.
fn put_locking(out: &mut Saying, place: &Place, wanted: SlotState, a: u8) {
    let returns = matches!(place.i.opcode, Opcode::Ret);
    let words = if !wanted.is_own() {
        Phrase::BorrowedStays
    } else if returns {
        Phrase::LockOnEachPath
    } else if is_empty(slot_state(place.row, a)) {
        Phrase::FirstLock
    } else {
        Phrase::LockOfKind
    };
    out.put1(words, Fact::Index(a))
}

/// The same of what a slot has.
fn put_slot_cure(out: &mut Saying, place: &Place, wanted: &Row, a: u8) {
    let state = slot_state(wanted, a);
    let known = slot_state(place.row, a);
    if is_empty(state) || slot_fits(known, state) {
        return;
    }
    let forgotten = put_forgotten(out, place, Item::Slot(a, state));
    if slot_fits(as_marked(known), state) {
        put_marking(out, a, known)
    } else if !forgotten {
        put_locking(out, place, state, a)
    }
}

/// The same of where a pointer leads. Whether it was followed back, which `follows` allows.
fn put_pointer_cure(out: &mut Saying, place: &Place, wanted: &Row, p: u8, follows: bool) -> bool {
    let Some(pointer) = pointer_at(wanted, p) else {
        return false;
    };
    let item = Item::Leads(p, pointer);
    if knows(place.row, item) || put_forgotten(out, place, item) {
        return false;
    }
    match pointer_at(place.row, p) {
        Some(known) if known.slot == pointer.slot => {
            put_ask_wish(out, place, p, u32::from(pointer.least));
            false
        }
        Some(known) => {
            let (leads, from) = (Fact::Index(known.slot), Fact::Index(pointer.slot));
            out.put3(Phrase::LeadsIntoOther, Fact::Index(p), leads, from);
            false
        }
        None if follows => {
            put_traced(out, place, Some(p));
            true
        }
        None => false,
    }
}

/// The same of two slots that are to have different blocks.
fn put_pair_cure(out: &mut Saying, place: &Place, wanted: &Row, pair: u8)
    requires { pair < 6 }
{
    let n = usize::from(pair);
    if wanted.pairs[n] && !place.row.pairs[n] {
        put_forgotten(out, place, Item::Apart(pair));
        let (a, b) = PAIRS[n];
        let state = slot_state(place.row, a);
        if !is_empty(state) && are_alike(state, slot_state(place.row, b)) {
            out.put2(Phrase::TellsApart, Fact::Index(a), Fact::Index(b))
        }
    }
}

/// Why what a row requires is not known at the place, and what makes it known. The first pointer of which nothing is known is followed back.
pub(crate) fn put_cures(out: &mut Saying, place: &Place, wanted: &Row) {
    for w in 0..8 {
        put_bound_cure(out, place, wanted, w);
    }
    let mut follows = is_reached(place.image, place.marks, place.pc);
    for k in 0..4 {
        put_slot_cure(out, place, wanted, k);
        if put_pointer_cure(out, place, wanted, k, follows) {
            follows = false;
        }
    }
    for pair in 0..6 {
        put_pair_cure(out, place, wanted, pair);
    }
}
