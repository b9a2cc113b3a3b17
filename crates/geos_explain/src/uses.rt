//! What is wrong with the slots and pointers that an instruction uses, and what helps.

ghost use Rattle.std.specs.Prelude.{◌≡◌};
ghost use Rattle.geos_image.specs.Fields.{FieldsFit};
ghost use Rattle.geos_verify.specs.Uses.{OffsetFits};
ghost use Rattle.geos_explain.specs.Uses.{nowhere_only, leading_nowhere};

use crate::forgotten::Item;
use crate::phrases::Phrase;
use crate::place::Place;
use crate::saying::{Fact, Saying, choose};
use crate::ways::sets;
use geos_image::{Instr, Opcode, Pointer, Row, SlotState};
use geos_opcodes::{Kind, Offset, PointerUse, SlotUse, Width};
use geos_verify::{
    bytes_in, is_empty, leads_nowhere, least_at, pointer_at, reach, slot_state, uses_at,
};

/// The pointer, if it leads into an empty slot.
fn nowhere_only(slots: &[SlotState; 4], pointer: Option<Pointer>) -> Option<Pointer>
    ensures { result ≡ nowhere_only slots.now pointer }
{
    if leads_nowhere(slots, pointer) {
        pointer
    } else {
        None
    }
}

/// The pointers of a row that lead into empty slots, and nothing else.
pub(crate) fn leading_nowhere(row: &Row) -> Row
    ensures { result ≡ leading_nowhere row.now }
{
    let [p0, p1, p2, p3] = row.pointers;
    let mut nowhere = Row::open();
    nowhere.pointers = [
        nowhere_only(&row.slots, p0),
        nowhere_only(&row.slots, p1),
        nowhere_only(&row.slots, p2),
        nowhere_only(&row.slots, p3),
    ];
    nowhere
}

/// The pointers of the row that lead into empty slots.
pub(crate) fn put_nowhere(out: &mut Saying, row: &Row) {
    let before = out.len();
    out.put_items(&leading_nowhere(row));
    let one = out.is_one(before);
    out.put(choose(one, Phrase::LeadsNowhere, Phrase::LeadNowhere));
    out.put(Phrase::LockOrSayFirst)
}

/// The slot that a pointer leads into.
pub(crate) fn slot_behind(row: &Row, p: u8) -> u8 {
    match pointer_at(row, p) {
        Some(pointer) => pointer.slot,
        None => 0,
    }
}

/// The slot whose block the instruction changes.
pub(crate) fn changed_slot(i: &Instr, row: &Row) -> u8 {
    match i.opcode.uses().pointer {
        PointerUse::Stores(_, _) => slot_behind(row, i.b),
        PointerUse::Copies => slot_behind(row, i.a),
        _ => i.a,
    }
}

/// The instruction that marks the block of a slot.
pub(crate) fn mark_word(state: SlotState) -> Phrase {
    match state {
        SlotState::Db { .. } => Phrase::Idirty,
        _ => Phrase::Vdirty,
    }
}

/// A block is changed that may not be marked, and what marks it.
pub(crate) fn put_unmarked(out: &mut Saying, i: &Instr, row: &Row) {
    let a = changed_slot(i, row);
    let state = slot_state(row, a);
    let marks = Fact::Phrase(mark_word(state));
    out.put3(
        Phrase::ChangedUnmarked,
        Fact::Slot(a, state),
        marks,
        Fact::Index(a),
    )
}

/// What empties a slot.
pub(crate) fn unlocking(state: SlotState) -> Phrase {
    match state {
        SlotState::Empty => Phrase::Nothing,
        SlotState::Mem => Phrase::Munlock,
        SlotState::Vm { .. } => Phrase::Vunlock,
        SlotState::Db { .. } => Phrase::Iunlock,
    }
}

/// A block is locked into a slot that has one.
pub(crate) fn put_held(out: &mut Saying, i: &Instr, row: &Row) {
    let state = slot_state(row, i.a);
    let held = Fact::Slot(i.a, state);
    if state.is_own() {
        let unlocks = Fact::Phrase(unlocking(state));
        out.put3(Phrase::LockedIntoHeld, held, unlocks, Fact::Index(i.a))
    } else {
        out.put1(Phrase::LockedIntoBorrowed, held)
    }
}

/// A block of this kind is required.
fn kind_wish(kind: Kind, marks: bool) -> Phrase {
    match kind {
        Kind::MemBlock => Phrase::MemRequired,
        Kind::VmBlock => choose(marks, Phrase::VmRequired, Phrase::OwnVmRequired),
        Kind::DbGroup => Phrase::DbRequired,
    }
}

/// What marks what a slot has, if it has a mark.
fn marking(state: SlotState) -> Phrase {
    match state {
        SlotState::Db { .. } => Phrase::IdirtyMarks,
        SlotState::Vm { .. } => Phrase::VdirtyMarks,
        _ => Phrase::NeedsNoMark,
    }
}

/// Two slots do not have blocks of one kind, and what helps.
fn put_compared(out: &mut Saying, i: &Instr, row: &Row) {
    let (state, other) = (slot_state(row, i.a), slot_state(row, i.b));
    let empty = is_empty(state) || is_empty(other);
    let cure = Fact::Phrase(choose(empty, Phrase::LockThemFirst, Phrase::LeaveSneOut));
    out.put3(
        Phrase::AreCompared,
        Fact::Slot(i.a, state),
        Fact::Slot(i.b, other),
        cure,
    )
}

/// A slot has a block of another kind than the instruction requires, and what helps.
fn put_other_kind(out: &mut Saying, slot: SlotUse, a: u8, state: SlotState) {
    let held = Fact::Slot(a, state);
    match slot {
        SlotUse::Unlocks(_) if !state.is_own() => out.put1(Phrase::CallerUnlocks, held),
        SlotUse::Unlocks(kind) => {
            let wanted = Fact::Phrase(kind_wish(kind, false));
            out.put3(
                Phrase::UnlocksOther,
                held,
                wanted,
                Fact::Phrase(unlocking(state)),
            )
        }
        SlotUse::Marks(kind) => {
            let wanted = Fact::Phrase(kind_wish(kind, true));
            out.put3(
                Phrase::MarksOther,
                held,
                wanted,
                Fact::Phrase(marking(state)),
            )
        }
        _ => out.slot(a, state),
    }
}

/// A slot does not have what the instruction requires, and what helps. Whether that was said: not if it is empty.
pub(crate) fn put_slot(out: &mut Saying, i: &Instr, row: &Row) -> bool {
    let slot = i.opcode.uses().slot;
    let state = slot_state(row, i.a);
    if let SlotUse::Compares = slot {
        put_compared(out, i, row);
        return true;
    }
    if is_empty(state) {
        out.put1(Phrase::IsEmptyHere, Fact::Index(i.a));
        return false;
    }
    put_other_kind(out, slot, i.a, state);
    true
}

/// What a read or a write requires that may reach past the bytes of its pointer.
#[derive(Clone, Copy)]
pub(crate) enum Past {
    /// So many bytes of the pointer.
    Bytes(u8, u32),
    /// An index low enough for so many bytes, which is at most so high; this instruction does the same and tests it.
    Index(Opcode, u16, u16),
}

/// The read or the write of this width that tests its index.
fn tested(writes: bool, width: Width) -> Opcode {
    match width {
        Width::Byte => if writes { Opcode::Stcb } else { Opcode::Ldcb },
        Width::Both => if writes { Opcode::Stcw } else { Opcode::Ldcw },
    }
}

/// What a read or a write at the offset requires.
fn past_along(writes: bool, i: &Instr, width: Width, offset: Offset, row: &Row) -> Past
    requires { OffsetFits offset i.now }
{
    match offset {
        Offset::Indexed => {
            let most = row.bounds[usize::from(i.c)];
            Past::Index(tested(writes, width), bytes_in(width), most)
        }
        _ => Past::Bytes(i.b, reach(i, width, offset, row)),
    }
}

/// What an instruction requires that may reach past the bytes of its pointer.
pub(crate) fn past_at(i: &Instr, row: &Row) -> Past
    requires { FieldsFit i.now.opcode i.now }
{
    match uses_at(i).pointer {
        PointerUse::Loads(width, offset) => past_along(false, i, width, offset, row),
        PointerUse::Stores(width, offset) => past_along(true, i, width, offset, row),
        _ => {
            let p = if least_at(row, i.a) < i.imm { i.a } else { i.b };
            Past::Bytes(p, u32::from(i.imm))
        }
    }
}

/// So many bytes are required at a pointer, and so many are known.
fn put_short(out: &mut Saying, p: u8, wanted: u32, least: u16) {
    let verb = choose(wanted == 1, Phrase::ByteIs, Phrase::BytesAre);
    out.put2(
        Phrase::Facts,
        Fact::Number(wanted as u64),
        Fact::Phrase(verb),
    );
    let known = choose(least == 1, Phrase::IsKnown, Phrase::AreKnown);
    out.put3(
        Phrase::RequiredAtPointer,
        Fact::Index(p),
        Fact::Count(least),
        Fact::Phrase(known),
    )
}

/// What index is low enough for so many bytes, if one is.
fn put_low_index(out: &mut Saying, i: &Instr, wide: u16, least: u16) {
    if wide <= least {
        out.put2(
            Phrase::BoundRequired,
            Fact::Index(i.c),
            Fact::Count(least - wide),
        )
    } else {
        out.put(Phrase::NoIndexIsLow)
    }
}

/// What is known of an index.
fn put_index(out: &mut Saying, w: u8, most: u16) {
    if most == u16::MAX {
        out.put1(Phrase::NothingKnownOf, Fact::Index(w))
    } else {
        out.put2(Phrase::BoundKnown, Fact::Index(w), Fact::Count(most))
    }
}

/// An index may be too high for the bytes at its pointer.
fn put_high(out: &mut Saying, i: &Instr, most: u16, wide: u16, least: u16) {
    put_low_index(out, i, wide, least);
    let verb = Fact::Phrase(choose(least == 1, Phrase::ByteIs, Phrase::BytesAre));
    out.put3(
        Phrase::KnownAtPointer,
        Fact::Count(least),
        verb,
        Fact::Index(i.b),
    );
    put_index(out, i.c, most)
}

/// It may reach past them.
pub(crate) fn put_past(out: &mut Saying, i: &Instr, row: &Row, past: Past) {
    match past {
        Past::Bytes(p, wanted) => put_short(out, p, wanted, least_at(row, p)),
        Past::Index(_, wide, most) => put_high(out, i, most, wide, least_at(row, i.b)),
    }
}

/// What is to be known of the bytes of a pointer.
fn leads_item(row: &Row, p: u8, wanted: u32) -> Item {
    let least = if wanted < 65_536 {
        wanted as u16
    } else {
        u16::MAX
    };
    let slot = slot_behind(row, p);
    Item::Leads(p, Pointer { slot, least })
}

/// The required item: a bound of the index, if some bound is enough, and otherwise the bytes of the pointer.
pub(crate) fn past_item(i: &Instr, row: &Row, past: Past) -> Item {
    let least = least_at(row, i.b);
    match past {
        Past::Bytes(p, wanted) => leads_item(row, p, wanted),
        Past::Index(_, wide, _) if wide <= least => Item::Bound(i.c, least - wide),
        Past::Index(_, wide, _) => leads_item(row, i.b, u32::from(wide)),
    }
}

/// Whether an instruction of the routine sets the pointer.
fn is_set_within(place: &Place, p: u8) -> bool {
    for point in place.image.points_of(place.r) {
        if sets(&point.instr, point.instr.opcode.uses().pointer, p) {
            return true;
        }
    }
    false
}

/// More bytes are to be required where the pointer is set, or in the `in` line that brings it.
pub(crate) fn put_ask_wish(out: &mut Saying, place: &Place, p: u8, wanted: u32) {
    if wanted >= 65_536 {
        return out.put(Phrase::NoChunkIsSoLong);
    }
    let bytes = Fact::Number(wanted as u64);
    if let Some(pointer) = pointer_at(&place.routine.entry, p)
        && !is_set_within(place, p)
    {
        return out.put3(
            Phrase::SayPointerInLine,
            Fact::Index(p),
            Fact::Index(pointer.slot),
            bytes,
        );
    }
    let unit = Fact::Phrase(choose(wanted == 1, Phrase::Byte, Phrase::Bytes));
    out.put3(Phrase::AskWhereSet, bytes, unit, Fact::Index(p))
}

/// A word is to be bounded before the instruction.
pub(crate) fn put_bounding(out: &mut Saying, w: u8, most: u16) {
    out.put2(Phrase::ChkBounds, Fact::Index(w), Fact::Count(most))
}

/// What helps there, if a CALL `forgets` what is required, too.
pub(crate) fn put_past_wish(out: &mut Saying, place: &Place, past: Past, forgets: bool) {
    let i = place.i;
    let least = least_at(place.row, i.b);
    match past {
        Past::Index(_, wide, _) if wide <= least => put_bounding(out, i.c, least - wide),
        _ if forgets => {}
        Past::Index(_, wide, _) => put_ask_wish(out, place, i.b, u32::from(wide)),
        Past::Bytes(p, wanted) => put_ask_wish(out, place, p, wanted),
    }
    if let Past::Index(tested, _, _) = past {
        out.put1(Phrase::OrTestsIt, Fact::Word(tested))
    }
}
