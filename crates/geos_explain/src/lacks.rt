//! What a row lacks to fit another.

ghost use Rattle.std.specs.Prelude.{◌≡◌};
ghost use Rattle.geos_verify.specs.Lists.{zip2};
ghost use Rattle.geos_verify.specs.Rows.{marked_state};
ghost use Rattle.geos_explain.specs.Lacks.{lacking_bound, lacking_slot, lacking_pointer, lacking_pair, lacking, is_held_unwanted};
ghost use Rattle.geos_explain.specs.Lacks.{LacksNothingWhereItFits};

use crate::saying::Saying;
use geos_image::{Pointer, Row, SlotState};
use geos_verify::{is_empty, pointer_fits, slot_fits, slot_state};

/// The required bound if it does not hold, and otherwise that of any word.
fn lacking_bound(known: u16, wanted: u16) -> u16
    ensures { result ≡ lacking_bound known wanted }
{
    if known <= wanted { u16::MAX } else { wanted }
}

fn lacking_bounds(known: &[u16; 8], wanted: &[u16; 8]) -> [u16; 8]
    ensures { result ≡ zip2 lacking_bound known.now wanted.now }
{
    zipped!(lacking_bound; *known, *wanted; r0 s0, r1 s1, r2 s2, r3 s3, r4 s4, r5 s5, r6 s6, r7 s7)
}

/// The state that is required if it is not met, and otherwise that of the open row.
fn lacking_slot(known: SlotState, wanted: SlotState) -> SlotState
    ensures { result ≡ lacking_slot known wanted }
{
    if slot_fits(known, wanted) {
        SlotState::Empty
    } else {
        wanted
    }
}

fn lacking_slots(known: &[SlotState; 4], wanted: &[SlotState; 4]) -> [SlotState; 4]
    ensures { result ≡ zip2 lacking_slot known.now wanted.now }
{
    zipped!(lacking_slot; *known, *wanted; r0 s0, r1 s1, r2 s2, r3 s3)
}

/// The pointer that is required if it is not known, and otherwise none.
fn lacking_pointer(known: Option<Pointer>, wanted: Option<Pointer>) -> Option<Pointer>
    ensures { result ≡ lacking_pointer known wanted }
{
    if pointer_fits(known, wanted) {
        None
    } else {
        wanted
    }
}

fn lacking_pointers(
    known: &[Option<Pointer>; 4],
    wanted: &[Option<Pointer>; 4],
) -> [Option<Pointer>; 4]
    ensures { result ≡ zip2 lacking_pointer known.now wanted.now }
{
    zipped!(lacking_pointer; *known, *wanted; r0 s0, r1 s1, r2 s2, r3 s3)
}

/// Whether the pair is required and not known.
fn lacking_pair(known: bool, wanted: bool) -> bool
    ensures { result ≡ lacking_pair known wanted }
{
    !(known || !wanted)
}

fn lacking_pairs(known: &[bool; 6], wanted: &[bool; 6]) -> [bool; 6]
    ensures { result ≡ zip2 lacking_pair known.now wanted.now }
{
    zipped!(lacking_pair; *known, *wanted; r0 s0, r1 s1, r2 s2, r3 s3, r4 s4, r5 s5)
}

/// Of the row that is required, what the row that is known does not meet; if it meets all, the open row.
pub(crate) fn lacking(known: &Row, wanted: &Row) -> Row
    ensures { result ≡ lacking known.now wanted.now }
{
    Row {
        bounds: lacking_bounds(&known.bounds, &wanted.bounds),
        slots: lacking_slots(&known.slots, &wanted.slots),
        pointers: lacking_pointers(&known.pointers, &wanted.pointers),
        pairs: lacking_pairs(&known.pairs, &wanted.pairs),
    }
}

/// Whether the slot is required empty and is not.
fn is_held_unwanted(known: SlotState, wanted: SlotState) -> bool
    ensures { result ≡ is_held_unwanted known wanted }
{
    is_empty(wanted) && !is_empty(known)
}

/// The items of the row that is required which the row that is known does not meet; none if it fits.
pub(crate) fn put_lacking(out: &mut Saying, known: &Row, wanted: &Row) {
    out.put_items(&lacking(known, wanted));
    for a in 0..4 {
        if is_held_unwanted(slot_state(known, a), slot_state(wanted, a)) {
            out.slot(a, SlotState::Empty)
        }
    }
}

/// Lemma: a row lacks nothing that another requires exactly if it implies that: no item is missing, and each slot that is required empty is.
pub fn rows_that_fit_lack_nothing()
    ensures { LacksNothingWhereItFits }
{}

/// The state of a slot whose block is marked, if it has a mark.
pub(crate) fn as_marked(state: SlotState) -> SlotState
    ensures { result ≡ marked_state state }
{
    match state {
        SlotState::Vm {
            marked: _,
            borrowed,
        } => SlotState::Vm {
            marked: true,
            borrowed,
        },
        SlotState::Db { marked: _ } => SlotState::Db { marked: true },
        other => other,
    }
}
