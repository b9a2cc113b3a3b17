//! The edges of an instruction, and what is known at their ends.

ghost use Rattle.std.specs.Prelude.{◌≡◌, ◌<◌, List, Option, length, true, false};
ghost use Rattle.geos_image.specs.Fields.{FieldsFit, CalleeFits};
ghost use Rattle.geos_image.specs.Parts.{Parts};
ghost use Rattle.geos_image.specs.declared.instr.Instr.{Instr};
ghost use Rattle.geos_image.specs.declared.row.Pointer.{Pointer};
ghost use Rattle.geos_image.specs.declared.row.Row.{Row};
ghost use Rattle.geos_opcodes.specs.Facts.{uses_of};
ghost use Rattle.geos_verify.specs.Uses.{UsesFit};
ghost use Rattle.geos_verify.specs.Rows.{has_edge, bounded, pairs_after, with_pointer, sets_pointer, used, row_along, changes_bounds_alone};
ghost use Rattle.geos_verify.specs.Rows.{row_branching, after, HasEdge};

use crate::bounds::{bound_result, set_bound};
use crate::pairs::{with_new, with_pair, without_slot};
use crate::pointers::{drop_pointers, set_pointer};
use crate::slots::set_slots;
use crate::touched::calls;
use crate::uses::uses_at;
use geos_image::{Image, Instr, Opcode, Row, branches, falls_through};
use geos_opcodes::{PointerUse, SlotUse, Uses};

/// Whether the instruction has the edge: to its target if `branch`, otherwise to the next instruction.
pub fn has_edge(instr: &Instr, branch: bool) -> bool
    ensures { result ≡ has_edge instr.now branch }
{
    if branch {
        branches(instr.opcode)
    } else {
        falls_through(instr.opcode)
    }
}

/// Sets the pairs to what they are after an instruction.
fn set_pairs(i: &Instr, slot: SlotUse, row: &mut Row)
    ensures { row.new ≡ record row.old { pairs = pairs_after i.now slot row.old } }
{
    match slot {
        SlotUse::LocksNew(kind) => row.pairs = with_new(i.a, kind, &row.slots, &row.pairs),
        SlotUse::Locks(_) | SlotUse::Unlocks(_) => row.pairs = without_slot(i.a, &row.pairs),
        SlotUse::Compares => row.pairs = with_pair(i.a, i.b, &row.pairs),
        _ => (),
    }
}

/// Does to slots, pairs and pointers of a row what an instruction does to them.
#[inline(always)]
fn apply_uses(i: &Instr, uses: Uses, row: &mut Row)
    requires { UsesFit uses i.now }
    ensures { row.new ≡ used i.now uses row.old }
{
    match uses.slot {
        SlotUse::NoSlot => set_pointer(i, uses.pointer, row),
        slot => {
            drop_pointers(i, slot, row);
            set_pointer(i, uses.pointer, row);
            set_pairs(i, slot, row);
            set_slots(i, slot, row);
        }
    }
}

/// Makes the row what is known where control continues to the next instruction; after a call it
/// is the exit row of the routine that was called.
// In place, with what it calls, so that the uses stay in registers.
#[inline(always)]
pub(crate) fn go_along(image: &Image, i: &Instr, uses: Uses, row: &mut Row)
    requires fields { FieldsFit i.now.opcode i.now }
    requires callee { CalleeFits (length image.now.routines) i.now }
    requires uses { uses ≡ uses_of i.now.opcode }
    requires fit { UsesFit uses i.now }
    ensures { row.new ≡ row_along image.now i.now i.now.opcode row.old }
{
    match i.opcode {
        Opcode::Call => *row = image.routine(i.imm).exit,
        _ => {
            bound_result(i, row);
            apply_uses(i, uses, row);
        }
    }
}

/// Whether a pointer is set by such a use of pointers.
fn sets_pointer(pointer: PointerUse) -> bool
    ensures value { result ≡ sets_pointer pointer }
    ensures keeps { result ≡ false → (i : Instr) (pointers : List (Option Pointer)) → with_pointer i pointer pointers ≡ pointers }
{
    match pointer {
        PointerUse::Sets | PointerUse::Duplicates => true,
        _ => false,
    }
}

/// Whether the instruction changes only bounds, if it continues to the next one.
pub(crate) fn changes_bounds_alone(i: &Instr, uses: Uses) -> bool
    requires { uses ≡ uses_of i.now.opcode }
    ensures value { result ≡ changes_bounds_alone i.now.opcode }
    ensures alone { result ≡ true → (image : Parts) (row : Row) → row_along image i.now i.now.opcode row ≡ bounded i.now i.now.opcode row }
{
    match uses.slot {
        SlotUse::NoSlot => !sets_pointer(uses.pointer) && !calls(i.opcode),
        _ => false,
    }
}

/// Makes the row what is known where control goes to the target; a refusal leaves its number
/// in w7.
pub(crate) fn go_to_target(i: &Instr, uses: Uses, row: &mut Row)
    requires { uses ≡ uses_of i.now.opcode }
    ensures { row.new ≡ row_branching i.now i.now.opcode row.old }
{
    if i.opcode.facts().operands.refusable {
        drop_pointers(i, uses.slot, row);
        set_bound(row, 7, 15);
    }
}

/// What is known at the end of an edge of the instruction at `pc`, if `row` is known before it: of the edge to its target if `branch`,
/// otherwise of the edge to the next instruction.
pub fn after(image: &Image, pc: u16, row: &Row, branch: bool) -> Row
    requires there { pc < length image.now.points }
    requires edge { HasEdge image.now pc branch }
    ensures { result ≡ after image.now pc row.now branch }
{
    let i = image.instr(pc);
    let uses = uses_at(i);
    let mut next = *row;
    if branch {
        go_to_target(i, uses, &mut next);
    } else {
        go_along(image, i, uses, &mut next);
    }
    next
}
