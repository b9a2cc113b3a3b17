//! Whether an entry state is enough for another.

ghost use Rattle.std.specs.Prelude.{◌≡◌, nat_le};
ghost use Rattle.std.specs.List.{list_all};
ghost use Rattle.geos_verify.specs.Lists.{all2};
ghost use Rattle.geos_verify.specs.Rows.{slot_fits, pointer_fits, pair_fits, fits, is_empty, is_stale, leads_nowhere};
ghost use Rattle.geos_verify.specs.Rules.{names_empty_slot};

use geos_image::{Pointer, Row, SlotState};

/// Whether each word is within its bound; and of two rows' bounds, whether those of the first
/// are enough for the second.
pub fn within_bounds(words: &[u16; 8], bounds: &[u16; 8]) -> bool
    ensures { result ≡ all2 nat_le words.now bounds.now }
{
    let low = (words[0] <= bounds[0])
        & (words[1] <= bounds[1])
        & (words[2] <= bounds[2])
        & (words[3] <= bounds[3]);
    let high = (words[4] <= bounds[4])
        & (words[5] <= bounds[5])
        & (words[6] <= bounds[6])
        & (words[7] <= bounds[7]);
    low & high
}

/// Whether a slot in this state is as wanted: in the wanted state, or marked where that is not
/// wanted.
pub fn slot_fits(state: SlotState, wanted_state: SlotState) -> bool
    ensures { result ≡ slot_fits state wanted_state }
{
    match (state, wanted_state) {
        (SlotState::Empty, SlotState::Empty) | (SlotState::Mem, SlotState::Mem) => true,
        (
            SlotState::Vm { marked, borrowed },
            SlotState::Vm {
                marked: wanted,
                borrowed: lent,
            },
        ) => (marked || !wanted) && borrowed == lent,
        (SlotState::Db { marked }, SlotState::Db { marked: wanted }) => marked || !wanted,
        _ => false,
    }
}

/// The same, where slots are mostly in the wanted state itself.
#[inline(always)]
fn suits(state: &SlotState, wanted_state: &SlotState) -> bool
    ensures { result ≡ slot_fits state.now wanted_state.now }
{
    *state == *wanted_state || slot_fits(*state, *wanted_state)
}

fn slots_fit(r: &[SlotState; 4], s: &[SlotState; 4]) -> bool
    ensures { result ≡ all2 slot_fits r.now s.now }
{
    suits(&r[0], &s[0]) && suits(&r[1], &s[1]) && suits(&r[2], &s[2]) && suits(&r[3], &s[3])
}

/// Whether a pointer of which this is known is as wanted: nothing is, or it leads into the same
/// slot, with as many bytes.
pub fn pointer_fits(pointer: Option<Pointer>, wanted: Option<Pointer>) -> bool
    ensures { result ≡ pointer_fits pointer wanted }
{
    match (pointer, wanted) {
        (_, None) => true,
        (None, Some(_)) => false,
        (Some(pointer), Some(wanted)) => pointer.slot == wanted.slot
            && wanted.least <= pointer.least,
    }
}

/// The same, where mostly nothing is required.
#[inline(always)]
fn leads_on(pointer: &Option<Pointer>, wanted: &Option<Pointer>) -> bool
    ensures { result ≡ pointer_fits pointer.now wanted.now }
{
    match wanted {
        None => true,
        Some(_) => pointer_fits(*pointer, *wanted),
    }
}

fn pointers_fit(r: &[Option<Pointer>; 4], s: &[Option<Pointer>; 4]) -> bool
    ensures { result ≡ all2 pointer_fits r.now s.now }
{
    leads_on(&r[0], &s[0])
        && leads_on(&r[1], &s[1])
        && leads_on(&r[2], &s[2])
        && leads_on(&r[3], &s[3])
}

/// Whether each pair that is required is known.
fn pairs_fit(r: &[bool; 6], s: &[bool; 6]) -> bool
    ensures { result ≡ all2 pair_fits r.now s.now }
{
    let first = (r[0] | !s[0]) & (r[1] | !s[1]) & (r[2] | !s[2]);
    let last = (r[3] | !s[3]) & (r[4] | !s[4]) & (r[5] | !s[5]);
    first & last
}

/// Whether what the row says of the registers is enough for the wanted one.
pub fn fits(row: &Row, wanted: &Row) -> bool
    ensures { result ≡ fits row.now wanted.now }
{
    within_bounds(&row.bounds, &wanted.bounds)
        && slots_fit(&row.slots, &wanted.slots)
        && pointers_fit(&row.pointers, &wanted.pointers)
        && pairs_fit(&row.pairs, &wanted.pairs)
}

/// Whether the slot is empty.
pub fn is_empty(slot: SlotState) -> bool
    ensures { result ≡ is_empty slot }
{
    match slot {
        SlotState::Empty => true,
        _ => false,
    }
}

/// Whether nothing is known of the pointer.
pub(crate) fn is_stale(pointer: &Option<Pointer>) -> bool
    ensures { result ≡ is_stale pointer.now }
{
    pointer.is_none()
}

pub(crate) fn are_stale(pointers: &[Option<Pointer>]) -> bool
    ensures { result ≡ list_all is_stale pointers.now }
{
    pointers.iter().all(is_stale)
}

/// Whether the pointer leads into a slot that is empty.
pub fn leads_nowhere(slots: &[SlotState; 4], pointer: Option<Pointer>) -> bool
    ensures { result ≡ leads_nowhere slots.now pointer }
{
    match pointer {
        None => false,
        Some(p) => match slots.get(p.slot as usize) {
            Some(slot) => is_empty(*slot),
            None => true,
        },
    }
}

/// Whether a pointer of the row leads into a slot that is empty.
#[tactic(auto, unfolding(crate::specs::Rules::names_empty_slot))]
pub(crate) fn names_empty_slot(row: &Row) -> bool
    ensures { result ≡ names_empty_slot row.now }
{
    row.pointers
        .iter()
        .any(|pointer| leads_nowhere(&row.slots, *pointer))
}
