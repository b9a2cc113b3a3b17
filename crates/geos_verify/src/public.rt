//! Entry and exit rows of routines that may be called from outside.

ghost use Rattle.std.specs.Prelude.{◌≡◌, ◌||◌, not};
ghost use Rattle.std.specs.List.{list_all};
ghost use Rattle.geos_verify.specs.Lists.{all2};
ghost use Rattle.geos_verify.specs.Pairs.{slot_pairs};
ghost use Rattle.geos_verify.specs.Rows.{is_empty, may_be_given, may_be_one, may_enter, is_left, may_leave};

use crate::enough::{are_stale, is_empty};
use geos_image::{Row, SlotState};

/// Whether the slot is empty, or borrowed from the caller and not known to be marked.
fn may_be_given(state: SlotState) -> bool
    ensures { result ≡ may_be_given state }
{
    match state {
        SlotState::Empty => true,
        SlotState::Vm { marked, borrowed } => !marked && borrowed,
        _ => false,
    }
}

fn may_all_be_given(slots: &[SlotState; 4]) -> bool
    ensures { result ≡ list_all may_be_given slots.now }
{
    slots.iter().all(|state| may_be_given(*state))
}

/// Whether slots a and b are not known to hold different blocks, or one of them is empty.
fn may_hold_one(known: bool, a: SlotState, b: SlotState) -> bool
    ensures { result ≡ not known || is_empty a || is_empty b }
{
    !known || is_empty(a) || is_empty(b)
}

fn may_all_be_one(slots: &[SlotState; 4], pairs: &[bool; 6]) -> bool
    ensures { result ≡ all2 (may_be_one slots.now) pairs.now slot_pairs }
{
    let [s0, s1, s2, s3] = *slots;
    let [p01, p02, p03, p12, p13, p23] = *pairs;
    let first = may_hold_one(p01, s0, s1) & may_hold_one(p02, s0, s2) & may_hold_one(p03, s0, s3);
    let last = may_hold_one(p12, s1, s2) & may_hold_one(p13, s1, s3) & may_hold_one(p23, s2, s3);
    first & last
}

/// Whether each caller from outside can establish the row: only borrowed blocks are in slots, which may all be one block, and each pointer
/// is stale.
pub(crate) fn may_enter(row: &Row) -> bool
    ensures { result ≡ may_enter row.now }
{
    may_all_be_given(&row.slots)
        && are_stale(&row.pointers)
        && may_all_be_one(&row.slots, &row.pairs)
}

/// Whether the slot is left as the caller gave it, marked or not.
fn is_left(entry: SlotState, exit: SlotState) -> bool
    ensures { result ≡ is_left entry exit }
{
    match (entry, exit) {
        (SlotState::Empty, SlotState::Empty) => true,
        (
            SlotState::Vm {
                marked: _,
                borrowed,
            },
            SlotState::Vm {
                marked: _,
                borrowed: lent,
            },
        ) => borrowed && lent,
        _ => false,
    }
}

fn are_left(entry: &[SlotState; 4], exit: &[SlotState; 4]) -> bool
    ensures { result ≡ all2 is_left entry.now exit.now }
{
    let [e0, e1, e2, e3] = *entry;
    let [x0, x1, x2, x3] = *exit;
    is_left(e0, x0) && is_left(e1, x1) && is_left(e2, x2) && is_left(e3, x3)
}

/// Whether a routine that was entered with a row may return with another to a caller from outside: it holds what was
/// borrowed and nothing else, and each pointer is stale.
pub(crate) fn may_leave(entry: &Row, exit: &Row) -> bool
    ensures { result ≡ may_leave entry.now exit.now }
{
    are_left(&entry.slots, &exit.slots) && are_stale(&exit.pointers)
}
