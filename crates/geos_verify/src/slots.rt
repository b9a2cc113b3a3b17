//! What a row says of slots, and what an instruction changes of it.

ghost use Rattle.std.specs.Prelude.{◌≡◌};
ghost use Rattle.geos_verify.specs.Uses.{same_kind, SlotFits};
ghost use Rattle.geos_verify.specs.Rows.{slot_state, kind_in, alike, are_alike, holds_kind, held_state, marked_state, slots_after};

use geos_image::{Instr, Row, SlotState};
use geos_opcodes::{Kind, SlotUse};

/// What the row says of a slot; one that there is not is empty.
pub fn slot_state(row: &Row, index: u8) -> SlotState
    ensures { result ≡ slot_state row.now index }
{
    match row.slots.get(usize::from(index)) {
        Some(state) => *state,
        None => SlotState::Empty,
    }
}

fn same_kind(kind: Kind, other: Kind) -> bool
    ensures { result ≡ same_kind kind other }
{
    match (kind, other) {
        (Kind::MemBlock, Kind::MemBlock) => true,
        (Kind::VmBlock, Kind::VmBlock) => true,
        (Kind::DbGroup, Kind::DbGroup) => true,
        _ => false,
    }
}

/// The kind of block that a slot holds, if it holds one.
fn kind_in(state: SlotState) -> Option<Kind>
    ensures { result ≡ kind_in state }
{
    match state {
        SlotState::Empty => None,
        SlotState::Mem => Some(Kind::MemBlock),
        SlotState::Vm { .. } => Some(Kind::VmBlock),
        SlotState::Db { .. } => Some(Kind::DbGroup),
    }
}

fn alike(kind: Option<Kind>, other: Option<Kind>) -> bool
    ensures { result ≡ alike kind other }
{
    match (kind, other) {
        (None, None) => true,
        (Some(kind), Some(other)) => same_kind(kind, other),
        _ => false,
    }
}

/// Whether two slots hold blocks of one kind, or both nothing.
pub fn are_alike(state: SlotState, other: SlotState) -> bool
    ensures { result ≡ are_alike state other }
{
    alike(kind_in(state), kind_in(other))
}

/// Whether the slot holds a block of the kind.
pub(crate) fn holds_kind(kind: Kind, state: SlotState) -> bool
    ensures { result ≡ holds_kind kind state }
{
    alike(kind_in(state), Some(kind))
}

/// A slot into which a block of the kind was locked, which is known to be marked or is not.
fn held_state(kind: Kind, marked: bool) -> SlotState
    ensures { result ≡ held_state kind marked }
{
    match kind {
        Kind::MemBlock => SlotState::Mem,
        Kind::VmBlock => SlotState::Vm {
            marked,
            borrowed: false,
        },
        Kind::DbGroup => SlotState::Db { marked },
    }
}

/// The same of a slot whose block was marked: that it has its mark is known, where it is one of the
/// VM file.
fn marked_state(state: SlotState) -> SlotState
    ensures { result ≡ marked_state state }
{
    match state {
        SlotState::Vm {
            marked: _,
            borrowed,
        } => SlotState::Vm {
            marked: true,
            borrowed,
        },
        SlotState::Db { .. } => SlotState::Db { marked: true },
        _ => state,
    }
}

/// Sets the slots to what they are after an instruction.
pub(crate) fn set_slots(i: &Instr, slot: SlotUse, row: &mut Row)
    requires { SlotFits slot i.now }
    ensures { row.new ≡ record row.old { slots = slots_after i.now slot row.old.slots } }
{
    match slot {
        SlotUse::LocksNew(kind) => row.slots[i.a as usize] = held_state(kind, true),
        SlotUse::Locks(kind) => row.slots[i.a as usize] = held_state(kind, false),
        SlotUse::Unlocks(_) => row.slots[i.a as usize] = SlotState::Empty,
        SlotUse::Marks(_) => row.slots[i.a as usize] = marked_state(row.slots[i.a as usize]),
        _ => (),
    }
}
