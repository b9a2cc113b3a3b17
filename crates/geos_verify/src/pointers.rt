//! What a row says of pointers, and what an instruction changes of it.

ghost use Rattle.std.specs.Prelude.{◌≡◌, ◌==◌, map};
ghost use Rattle.geos_opcodes.specs.declared.uses.Kind.TheVariants as kind;
ghost use Rattle.geos_verify.specs.Uses.{PointerFits};
ghost use Rattle.geos_verify.specs.Rows.{pointer_at, slot_state, holds_kind, may_be_same, stale_where, pointers_kept, with_pointer};

use crate::pairs::are_apart;
use crate::slots::{are_alike, holds_kind, slot_state};
use geos_image::{Instr, Pointer, Row};
use geos_opcodes::{Kind, PointerUse, SlotUse};

/// What the row says of a pointer; of one that there is not, nothing is known.
pub fn pointer_at(row: &Row, index: u8) -> Option<Pointer>
    ensures { result ≡ pointer_at row.now index }
{
    match row.pointers.get(usize::from(index)) {
        Some(pointer) => *pointer,
        None => None,
    }
}

/// Whether slot b may hold the block that slot a holds.
fn may_be_same(row: &Row, a: u8, b: u8) -> bool
    ensures { result ≡ may_be_same row.now a b }
{
    are_alike(slot_state(row, b), slot_state(row, a)) && !are_apart(a, b, &row.pairs)
}

/// The pointer, if it leads into a slot that cannot hold the block of slot a.
// In place: a call would return it through memory.
#[inline(always)]
fn kept_beside(row: &Row, a: u8, pointer: Option<Pointer>) -> Option<Pointer>
    ensures { result ≡ stale_where (may_be_same row.now a) pointer }
{
    match pointer {
        Some(p) if !may_be_same(row, a, p.slot) => Some(p),
        _ => None,
    }
}

/// The pointer, if it leads into another slot than a.
fn kept_outside(a: u8, pointer: Option<Pointer>) -> Option<Pointer>
    ensures { result ≡ stale_where (λ b. b == a) pointer }
{
    match pointer {
        Some(p) if p.slot != a => Some(p),
        _ => None,
    }
}

/// The pointer, if it leads into a slot that holds no group.
fn kept_outside_groups(row: &Row, pointer: Option<Pointer>) -> Option<Pointer>
    ensures { result ≡ stale_where (λ b. holds_kind kind.DbGroup (slot_state row.now b)) pointer }
{
    match pointer {
        Some(p) if !holds_kind(Kind::DbGroup, slot_state(row, p.slot)) => Some(p),
        _ => None,
    }
}

/// Drops the pointers into slots that may hold the block of slot a.
fn drop_beside(row: &mut Row, a: u8)
    ensures { row.new ≡ record row.old { pointers = map (stale_where (may_be_same row.old a)) row.old.pointers } }
{
    let [p0, p1, p2, p3] = row.pointers;
    row.pointers = [
        kept_beside(row, a, p0),
        kept_beside(row, a, p1),
        kept_beside(row, a, p2),
        kept_beside(row, a, p3),
    ];
}

/// Drops the pointers into slot a.
fn drop_into(row: &mut Row, a: u8)
    ensures { row.new ≡ record row.old { pointers = map (stale_where (λ b. b == a)) row.old.pointers } }
{
    let [p0, p1, p2, p3] = row.pointers;
    row.pointers = [
        kept_outside(a, p0),
        kept_outside(a, p1),
        kept_outside(a, p2),
        kept_outside(a, p3),
    ];
}

/// Drops the pointers into groups.
fn drop_into_groups(row: &mut Row)
    ensures { row.new ≡ record row.old { pointers = map (stale_where (λ b. holds_kind kind.DbGroup (slot_state row.old b))) row.old.pointers } }
{
    let [p0, p1, p2, p3] = row.pointers;
    row.pointers = [
        kept_outside_groups(row, p0),
        kept_outside_groups(row, p1),
        kept_outside_groups(row, p2),
        kept_outside_groups(row, p3),
    ];
}

/// Drops the pointers that an instruction makes stale.
// In place, since most instructions make none stale.
#[inline(always)]
pub(crate) fn drop_pointers(i: &Instr, slot: SlotUse, row: &mut Row)
    ensures { row.new ≡ record row.old { pointers = pointers_kept i.now slot row.old } }
{
    match slot {
        SlotUse::Moves => drop_beside(row, i.a),
        SlotUse::Unlocks(_) => drop_into(row, i.a),
        SlotUse::MovesGroup => drop_into_groups(row),
        _ => (),
    }
}

/// Sets the pointer that an instruction sets.
pub(crate) fn set_pointer(i: &Instr, pointer: PointerUse, row: &mut Row)
    requires { PointerFits pointer i.now }
    ensures { row.new ≡ record row.old { pointers = with_pointer i.now pointer row.old.pointers } }
{
    match pointer {
        PointerUse::Sets => {
            row.pointers[i.b as usize] = Some(Pointer {
                slot: i.a,
                least: i.imm,
            });
        }
        PointerUse::Duplicates => row.pointers[i.a as usize] = row.pointers[i.b as usize],
        _ => (),
    }
}
