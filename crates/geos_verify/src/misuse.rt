//! The rules on what an instruction does with slots and pointers.

ghost use Rattle.std.specs.Prelude.{◌≡◌};
ghost use Rattle.std.specs.List.{list_any};
ghost use Rattle.geos_image.specs.Fields.{FieldsFit};
ghost use Rattle.geos_opcodes.specs.Facts.{uses_of};
ghost use Rattle.geos_verify.specs.Uses.{bytes_in, OffsetFits, PointerFits};
ghost use Rattle.geos_verify.specs.Rules.{reach, least_at, pointed_state, is_unmarked, writes_unmarked, moves_unmarked, stale_pointer};
ghost use Rattle.geos_verify.specs.Rules.{passes_end, changes_unmarked, locks_into_held, wrong_slot, is_of_file, commits_with_held, misuses};

use crate::enough::{is_empty, is_stale};
use crate::pointers::pointer_at;
use crate::slots::{are_alike, holds_kind, slot_state};
use crate::uses::uses_at;
use geos_image::{Instr, Row, SlotState};
use geos_opcodes::{Offset, PointerUse, SlotUse, Uses, Width};

/// Whether the row knows nothing of a pointer that the instruction uses.
#[tactic(auto, unfolding(crate::specs::Rules::stale_pointer))]
pub(crate) fn stale_pointer(i: &Instr, pointer: PointerUse, row: &Row) -> bool
    requires uses { pointer ≡ (uses_of i.now.opcode).pointer }
    requires fit { PointerFits pointer i.now }
    ensures { result ≡ stale_pointer i.now row.now }
{
    match pointer {
        PointerUse::Loads(_, _)
        | PointerUse::Stores(_, _)
        | PointerUse::Duplicates
        | PointerUse::Measures => is_stale(&pointer_at(row, i.b)),
        PointerUse::Copies => is_stale(&pointer_at(row, i.a)) || is_stale(&pointer_at(row, i.b)),
        _ => false,
    }
}

/// How many bytes a read or a write is wide.
pub fn bytes_in(width: Width) -> u16
    ensures { result ≡ bytes_in width }
{
    match width {
        Width::Byte => 1,
        Width::Both => 2,
    }
}

/// How many bytes the pointer of a read or a write must have: up to the end of what the instruction reads or writes at the offset, or at
/// the greatest index that the row allows; 0 if the index is tested.
pub fn reach(instr: &Instr, width: Width, offset: Offset, row: &Row) -> u32
    requires { OffsetFits offset instr.now }
    ensures { result ≡ reach instr.now width offset row.now }
{
    match offset {
        Offset::Fixed => u32::from(instr.imm) + u32::from(bytes_in(width)),
        Offset::Indexed => u32::from(row.bounds[instr.c as usize]) + u32::from(bytes_in(width)),
        Offset::Tested => 0,
    }
}

/// How many bytes the row says that there are after a pointer, at least.
pub fn least_at(row: &Row, index: u8) -> u16
    ensures { result ≡ least_at row.now index }
{
    match pointer_at(row, index) {
        Some(pointer) => pointer.least,
        None => 0,
    }
}

/// Whether a read or a write may reach past the bytes that the row says are there.
#[tactic(auto, unfolding(crate::specs::Rules::passes_end))]
pub(crate) fn passes_end(i: &Instr, pointer: PointerUse, row: &Row) -> bool
    requires uses { pointer ≡ (uses_of i.now.opcode).pointer }
    requires fit { PointerFits pointer i.now }
    ensures { result ≡ passes_end i.now row.now }
{
    match pointer {
        PointerUse::Loads(width, offset) | PointerUse::Stores(width, offset) => {
            u32::from(least_at(row, i.b)) < reach(i, width, offset, row)
        }
        PointerUse::Copies => least_at(row, i.a) < i.imm || least_at(row, i.b) < i.imm,
        _ => false,
    }
}

/// Whether the slot holds a block of the VM file that is not known to be marked.
fn is_unmarked(state: SlotState) -> bool
    ensures { result ≡ is_unmarked state }
{
    match state {
        SlotState::Vm {
            marked,
            borrowed: _,
        }
        | SlotState::Db { marked } => !marked,
        _ => false,
    }
}

/// What the row says of the slot that a pointer leads into.
fn pointed_state(row: &Row, p: u8) -> SlotState
    ensures { result ≡ pointed_state row.now p }
{
    match pointer_at(row, p) {
        Some(pointer) => slot_state(row, pointer.slot),
        None => SlotState::Empty,
    }
}

fn writes_unmarked(i: &Instr, pointer: PointerUse, row: &Row) -> bool
    requires { PointerFits pointer i.now }
    ensures { result ≡ writes_unmarked i.now pointer row.now }
{
    match pointer {
        PointerUse::Stores(_, _) => is_unmarked(pointed_state(row, i.b)),
        PointerUse::Copies => is_unmarked(pointed_state(row, i.a)),
        _ => false,
    }
}

fn moves_unmarked(i: &Instr, slot: SlotUse, row: &Row) -> bool
    ensures { result ≡ moves_unmarked i.now slot row.now }
{
    match slot {
        SlotUse::Moves => is_unmarked(slot_state(row, i.a)),
        _ => false,
    }
}

/// Whether a block of the VM file is changed that is not known to be marked.
#[tactic(auto, unfolding(crate::specs::Rules::changes_unmarked))]
pub(crate) fn changes_unmarked(i: &Instr, uses: Uses, row: &Row) -> bool
    requires uses { uses ≡ uses_of i.now.opcode }
    requires fit { PointerFits uses.pointer i.now }
    ensures { result ≡ changes_unmarked i.now row.now }
{
    writes_unmarked(i, uses.pointer, row) || moves_unmarked(i, uses.slot, row)
}

/// Whether the instruction locks a block into a slot that is not empty.
#[tactic(auto, unfolding(crate::specs::Rules::locks_into_held))]
pub(crate) fn locks_into_held(i: &Instr, slot: SlotUse, row: &Row) -> bool
    requires { slot ≡ (uses_of i.now.opcode).slot }
    ensures { result ≡ locks_into_held i.now row.now }
{
    match slot {
        SlotUse::LocksNew(_) | SlotUse::Locks(_) => !is_empty(slot_state(row, i.a)),
        _ => false,
    }
}

/// Whether a slot that must hold a block is empty or of another kind, or the instruction unlocks a borrowed one.
#[tactic(auto, unfolding(crate::specs::Rules::wrong_slot))]
pub(crate) fn wrong_slot(i: &Instr, slot: SlotUse, row: &Row) -> bool
    requires { slot ≡ (uses_of i.now.opcode).slot }
    ensures { result ≡ wrong_slot i.now row.now }
{
    // The arms read the slot: most instructions name none.
    match slot {
        SlotUse::Unlocks(kind) => {
            let state = slot_state(row, i.a);
            !holds_kind(kind, state) || !state.is_own()
        }
        SlotUse::Marks(kind) => !holds_kind(kind, slot_state(row, i.a)),
        SlotUse::Compares => {
            let state = slot_state(row, i.a);
            is_empty(state) || !are_alike(state, slot_state(row, i.b))
        }
        SlotUse::Moves | SlotUse::LooksAt => is_empty(slot_state(row, i.a)),
        _ => false,
    }
}

/// Whether the slot holds a block of the VM file.
pub fn is_of_file(state: SlotState) -> bool
    ensures { result ≡ is_of_file state }
{
    match state {
        SlotState::Vm { .. } | SlotState::Db { .. } => true,
        _ => false,
    }
}

fn any_of_file(slots: &[SlotState; 4]) -> bool
    ensures { result ≡ list_any is_of_file slots.now }
{
    let [s0, s1, s2, s3] = *slots;
    is_of_file(s0) || is_of_file(s1) || is_of_file(s2) || is_of_file(s3)
}

/// Whether the VM file is written while a slot holds a block of it.
#[tactic(auto, unfolding(crate::specs::Rules::commits_with_held))]
pub(crate) fn commits_with_held(i: &Instr, slot: SlotUse, row: &Row) -> bool
    requires { slot ≡ (uses_of i.now.opcode).slot }
    ensures { result ≡ commits_with_held i.now row.now }
{
    match slot {
        SlotUse::Commits => any_of_file(&row.slots),
        _ => false,
    }
}

/// Whether one of the rules on what the instruction does with slots and pointers refuses it, where
/// the row is known before it.
#[tactic(auto, unfolding(crate::specs::Rules::misuses))]
pub fn misuses(instr: &Instr, row: &Row) -> bool
    requires { FieldsFit instr.now.opcode instr.now }
    ensures { result ≡ misuses instr.now row.now }
{
    let uses = uses_at(instr);
    stale_pointer(instr, uses.pointer, row)
        | passes_end(instr, uses.pointer, row)
        | changes_unmarked(instr, uses, row)
        | locks_into_held(instr, uses.slot, row)
        | wrong_slot(instr, uses.slot, row)
        | commits_with_held(instr, uses.slot, row)
}
