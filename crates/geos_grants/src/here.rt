//! The effects of one instruction.

ghost use Rattle.std.specs.Prelude.{◌≡◌, ℕ, false, slice_index_or, length};
ghost use Rattle.geos_image.specs.Fields.{FieldsFit};
ghost use Rattle.geos_grants.specs.Sets.{has};
ghost use Rattle.geos_grants.specs.Effects.{outputs, uses_memory, locks_by_handle, reads_file, changes_file, maps, commits};
ghost use Rattle.geos_grants.specs.Effects.{pointed_slot, changed_through, changed_slot, read_through, read_slot, state_at, is_mem, is_own_in_file, lends, does};

use crate::effect::Effect;
use crate::effects::Effects;
use geos_image::{Instr, Opcode, Row, SlotState};
use geos_opcodes::{PointerUse, SlotUse, Uses};
use geos_verify::{is_of_file, pointer_at, slot_state, uses_at};

/// Whether the instruction outputs a word.
fn outputs(opcode: Opcode) -> bool
    ensures { result ≡ outputs opcode }
{
    match opcode {
        Opcode::Out => true,
        _ => false,
    }
}

/// Whether the instruction makes, locks, unlocks or frees a block of global memory.
fn uses_memory(opcode: Opcode) -> bool
    ensures { result ≡ uses_memory opcode }
{
    match opcode {
        Opcode::Mnew | Opcode::Mlock | Opcode::Munlock | Opcode::Mfree => true,
        _ => false,
    }
}

/// Whether the instruction locks a block of global memory by its handle.
fn locks_by_handle(opcode: Opcode) -> bool
    ensures { result ≡ locks_by_handle opcode }
{
    match opcode {
        Opcode::Mlock => true,
        _ => false,
    }
}

/// Whether the instruction finds something in the VM file, or locks a block or a group of it.
fn reads_file(opcode: Opcode) -> bool
    ensures { result ≡ reads_file opcode }
{
    match opcode {
        Opcode::Vlock
        | Opcode::Vfind
        | Opcode::Vuid
        | Opcode::Vgetmap
        | Opcode::Ilock
        | Opcode::Igetmap => true,
        _ => false,
    }
}

/// Whether the instruction makes or frees blocks or groups of the VM file, changes items by the handle of their group, or goes back to
/// the saved directory.
fn changes_file(opcode: Opcode) -> bool
    ensures { result ≡ changes_file opcode }
{
    match opcode {
        Opcode::Vnew
        | Opcode::Vfree
        | Opcode::Vrevert
        | Opcode::Gnew
        | Opcode::Gfree
        | Opcode::Inew
        | Opcode::Ifree
        | Opcode::Irealloc
        | Opcode::Iins
        | Opcode::Idel => true,
        _ => false,
    }
}

/// Whether the instruction may change what is mapped: it names it, may free it, or goes back to the saved directory.
fn maps(opcode: Opcode) -> bool
    ensures { result ≡ maps opcode }
{
    match opcode {
        Opcode::Vfree | Opcode::Gfree | Opcode::Vsetmap | Opcode::Isetmap | Opcode::Vrevert => true,
        _ => false,
    }
}

/// Whether the instruction writes the VM file to its device.
fn commits(opcode: Opcode) -> bool
    ensures { result ≡ commits opcode }
{
    match opcode {
        Opcode::Vupdate | Opcode::Vsave | Opcode::Vrevert => true,
        _ => false,
    }
}

/// The slot into whose block a pointer leads, as far as is known.
fn pointed_slot(row: &Row, pointer: u8) -> Option<u8>
    ensures { result ≡ pointed_slot row.now pointer }
{
    match pointer_at(row, pointer) {
        Some(known) => Some(known.slot),
        None => None,
    }
}

/// The slot whose block the instruction writes through a pointer.
fn changed_through(i: &Instr, pointer: PointerUse, row: &Row) -> Option<u8>
    ensures { result ≡ changed_through i.now pointer row.now }
{
    match pointer {
        PointerUse::Stores(_, _) => pointed_slot(row, i.b),
        PointerUse::Copies => pointed_slot(row, i.a),
        _ => None,
    }
}

/// The slot whose block the instruction marks or changes.
fn changed_slot(i: &Instr, uses: Uses, row: &Row) -> Option<u8>
    ensures { result ≡ changed_slot i.now uses.slot uses.pointer row.now }
{
    match uses.slot {
        SlotUse::Moves | SlotUse::Marks(_) => Some(i.a),
        _ => changed_through(i, uses.pointer, row),
    }
}

/// The slot whose block the instruction reads through a pointer.
fn read_through(i: &Instr, pointer: PointerUse, row: &Row) -> Option<u8>
    ensures { result ≡ read_through i.now pointer row.now }
{
    match pointer {
        PointerUse::Loads(_, _) | PointerUse::Copies => pointed_slot(row, i.b),
        _ => None,
    }
}

/// The slot whose block the instruction reads.
fn read_slot(i: &Instr, uses: Uses, row: &Row) -> Option<u8>
    ensures { result ≡ read_slot i.now uses.slot uses.pointer row.now }
{
    match uses.slot {
        SlotUse::LooksAt => Some(i.a),
        _ => read_through(i, uses.pointer, row),
    }
}

/// What the row says of the slot; of none, that it is empty.
fn state_at(row: &Row, slot: Option<u8>) -> SlotState
    ensures { result ≡ state_at row.now slot }
{
    match slot {
        Some(a) => slot_state(row, a),
        None => SlotState::Empty,
    }
}

/// Whether the slot holds a block of global memory.
fn is_mem(state: SlotState) -> bool
    ensures { result ≡ is_mem state }
{
    match state {
        SlotState::Mem => true,
        _ => false,
    }
}

/// Whether the slot holds a block of the VM file that is not lent.
fn is_own_in_file(state: SlotState) -> bool
    ensures { result ≡ is_own_in_file state }
{
    is_of_file(state) && state.is_own()
}

/// Whether this is slot k, and holds a block that is lent.
fn lends(row: &Row, slot: Option<u8>, k: u8) -> bool
    ensures { result ≡ lends row.now slot k }
{
    match slot {
        Some(a) => a == k && !slot_state(row, k).is_own(),
        None => false,
    }
}

/// The slots whose lent block is meant.
fn lent_slots(row: &Row, slot: Option<u8>) -> [bool; 4]
    ensures { (k : ℕ) → slice_index_or result k false ≡ lends row.now slot k }
{
    have_four(&row.slots);
    let first = lends(row, slot, 0);
    let second = lends(row, slot, 1);
    let third = lends(row, slot, 2);
    let fourth = lends(row, slot, 3);
    [first, second, third, fourth]
}

/// Lemma: a row has four slots.
fn have_four(slots: &[SlotState; 4])
    ensures { length slots.now ≡ 4 }
{}

/// What the instruction does to what is not the routine's own, where this is known before it.
pub fn effects_at(i: &Instr, row: &Row) -> Effects
    requires { FieldsFit i.now.opcode i.now }
    ensures { (effect : Effect) → has result effect ≡ does effect i.now row.now }
{
    let uses = uses_at(i);
    let changed = changed_slot(i, uses, row);
    let read = read_slot(i, uses, row);
    let changed_state = state_at(row, changed);
    let opcode = i.opcode;
    Effects {
        output: outputs(opcode),
        reads_lent: lent_slots(row, read),
        changes_lent: lent_slots(row, changed),
        memory: uses_memory(opcode) || is_mem(changed_state),
        locks_by_handle: locks_by_handle(opcode),
        reads_file: reads_file(opcode) || is_own_in_file(state_at(row, read)),
        changes_file: changes_file(opcode) || is_own_in_file(changed_state),
        map: maps(opcode),
        commits: commits(opcode),
    }
}
