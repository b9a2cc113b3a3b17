//! The lines of rows.

ghost use Rattle.std.specs.Prelude.{◌≡◌, ◌++◌, OnOk, None, slice_index, slice_index_or};
ghost use Rattle.std.specs.List.{All};
ghost use Rattle.geos_image.specs.declared.row.SlotState.TheVariants.{Empty};
ghost use Rattle.geos_image.specs.Ranges.{IsWord, PointerFits, RowFits};
ghost use Rattle.geos_listing.specs.Rows.{texts_below, bound_item, held_item, state_word, slot_item};
ghost use Rattle.geos_listing.specs.Rows.{pointer_item, pair_item, pair_items, row_items, row_line};

use geos_image::{Pointer, Row, SlotState};
use geos_text::put_numbered;
use std::alloc::AllocError;

/// The slots of each pair of a row.
const PAIRS: [(u64, u64); 6] = [(0, 1), (0, 2), (0, 3), (1, 2), (1, 3), (2, 3)];

/// A word's bound, unless it is the greatest word.
fn put_bound(out: &mut Vec<u8>, i: usize, bound: u16) -> Result<(), AllocError>
    ensures { OnOk result (out.new.items ≡ out.old.items ++ bound_item i bound) }
{
    if bound == u16::MAX {
        return Ok(());
    }
    put_numbered(out, " w", i as u64)?;
    put_numbered(out, "<=", u64::from(bound))
}

#[tactic(auto, unfolding(crate::specs::Rows::texts_below))]
fn put_bounds(out: &mut Vec<u8>, bounds: &[u16; 8]) -> Result<(), AllocError>
    ensures value { OnOk result (out.new.items ≡ out.old.items ++ texts_below 8 (λ i. bound_item i (slice_index bounds.now i))) }
    ensures fits { OnOk result (All IsWord bounds.now) }
{
    for i in 0..bounds.len() {
        put_bound(out, i, bounds[i])?;
    }
    Ok(())
}

/// Appends a slot that is not empty, and what it contains.
fn put_held(out: &mut Vec<u8>, i: usize, word: &str) -> Result<(), AllocError>
    ensures { OnOk result (out.new.items ≡ out.old.items ++ held_item i word.now) }
{
    put_numbered(out, " s", i as u64)?;
    out.extend_from_slice(b"=")?;
    out.extend_from_slice(word.as_bytes())
}

/// What a slot holds, in a word; `@` says that it is borrowed from the routine's caller, and `!` that it is marked.
pub fn state_word(state: SlotState) -> &'static str
    ensures { result.now ≡ state_word state }
{
    match state {
        SlotState::Empty => "empty",
        SlotState::Mem => "mem",
        SlotState::Vm {
            marked,
            borrowed: false,
        } => if marked { "vm!" } else { "vm" },
        SlotState::Vm {
            marked,
            borrowed: true,
        } => if marked { "vm@!" } else { "vm@" },
        SlotState::Db { marked } => if marked { "db!" } else { "db" },
    }
}

fn put_slot(out: &mut Vec<u8>, i: usize, slot: SlotState) -> Result<(), AllocError>
    ensures { OnOk result (out.new.items ≡ out.old.items ++ slot_item i slot) }
{
    match slot {
        SlotState::Empty => Ok(()),
        held => put_held(out, i, state_word(held)),
    }
}

#[tactic(auto, unfolding(crate::specs::Rows::texts_below))]
fn put_slots(out: &mut Vec<u8>, slots: &[SlotState; 4]) -> Result<(), AllocError>
    ensures { OnOk result (out.new.items ≡ out.old.items ++ texts_below 4 (λ i. slot_item i (slice_index_or slots.now i Empty))) }
{
    for i in 0..slots.len() {
        put_slot(out, i, slots[i])?;
    }
    Ok(())
}

/// Appends where a pointer leads, unless it is stale.
fn put_pointer(out: &mut Vec<u8>, i: usize, pointer: Option<Pointer>) -> Result<(), AllocError>
    ensures value { OnOk result (out.new.items ≡ out.old.items ++ pointer_item i pointer) }
    ensures fits { OnOk result (PointerFits pointer) }
{
    let Some(pointer) = pointer else {
        return Ok(());
    };
    put_numbered(out, " p", i as u64)?;
    put_numbered(out, "=s", u64::from(pointer.slot))?;
    put_numbered(out, ":", u64::from(pointer.least))
}

#[tactic(auto, unfolding(crate::specs::Rows::texts_below))]
fn put_pointers(out: &mut Vec<u8>, pointers: &[Option<Pointer>; 4]) -> Result<(), AllocError>
    ensures value { OnOk result (out.new.items ≡ out.old.items ++ texts_below 4 (λ i. pointer_item i (slice_index_or pointers.now i None))) }
    ensures fits { OnOk result (All PointerFits pointers.now) }
{
    for i in 0..pointers.len() {
        put_pointer(out, i, pointers[i])?;
    }
    Ok(())
}

/// Two slots, if they are known to hold different blocks.
fn put_pair(out: &mut Vec<u8>, pair: (u64, u64), differ: bool) -> Result<(), AllocError>
    ensures { OnOk result (out.new.items ≡ out.old.items ++ pair_item pair differ) }
{
    if !differ {
        return Ok(());
    }
    put_numbered(out, " s", pair.0)?;
    put_numbered(out, "#s", pair.1)
}

#[tactic(auto, unfolding(crate::specs::Rows::texts_below))]
fn put_pairs(out: &mut Vec<u8>, pairs: &[bool; 6]) -> Result<(), AllocError>
    ensures { OnOk result (out.new.items ≡ out.old.items ++ pair_items 6 pairs.now) }
{
    for k in 0..pairs.len() {
        put_pair(out, PAIRS[k], pairs[k])?;
    }
    Ok(())
}

/// Appends the items in which the row differs from the open row, a blank before each.
#[tactic(auto, unfolding(crate::specs::Rows::row_items))]
pub fn put_items(out: &mut Vec<u8>, row: &Row) -> Result<(), AllocError>
    ensures value { OnOk result (out.new.items ≡ out.old.items ++ row_items row.now) }
    ensures fits { OnOk result (RowFits row.now) }
{
    put_bounds(out, &row.bounds)?;
    put_slots(out, &row.slots)?;
    put_pointers(out, &row.pointers)?;
    put_pairs(out, &row.pairs)
}

/// Appends the line of the row, which begins with the word; none for the open row.
pub fn put_row(out: &mut Vec<u8>, word: &str, row: &Row) -> Result<(), AllocError>
    ensures value { OnOk result (out.new.items ≡ out.old.items ++ row_line word.now row.now) }
    ensures fits { OnOk result (RowFits row.now) }
{
    let before = out.len();
    out.extend_from_slice(word.as_bytes())?;
    let empty = out.len();
    put_items(out, row)?;
    if out.len() == empty {
        out.truncate(before);
        return Ok(());
    }
    out.extend_from_slice(b"\n")
}
