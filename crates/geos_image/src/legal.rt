//! The rules that routines and points keep within an image.

ghost use Rattle.std.specs.Prelude.{◌≡◌, ◌<◌, ◌≤◌, ◌||◌, length, ◌==◌, IfSome};
ghost use Rattle.std.specs.List.{list_all};
ghost use Rattle.geos_image.specs.Legal.{is_name_byte, text_end, is_name, is_own, is_pointer};
ghost use Rattle.geos_image.specs.Legal.{is_row, is_given, is_instr, is_point, is_named, is_routine};
ghost use Rattle.geos_image.specs.Parts.{total_count};

use crate::instr::Instr;
use crate::point::Point;
use crate::routine::Routine;
use crate::row::{Pointer, Row, SlotState};

/// The most routines that an image has.
pub const MOST_ROUTINES: u16 = 32;

/// The most instructions that an image has.
pub const MOST_INSTRS: u16 = 4096;

#[tactic(auto, unfolding(crate::specs::Legal::is_name_byte))]
fn is_name_byte(byte: u8) -> bool
    ensures { result ≡ is_name_byte byte }
{
    byte.is_ascii_alphanumeric() || byte == b'_'
}

/// The end of the text of a padded name, if only zeros follow it.
pub(crate) fn text_end(name: &[u8]) -> Option<usize>
    ensures place { result ≡ text_end name.now }
    ensures within { IfSome result (λ end. end < length name.now) }
{
    name.iter().position(|byte| *byte == 0)
}

/// Whether the bytes are letters, digits and underscores.
pub fn are_name_bytes(text: &[u8]) -> bool
    ensures { result ≡ list_all is_name_byte text.now }
{
    text.iter().all(|byte| is_name_byte(*byte))
}

fn are_zeros(padding: &[u8]) -> bool
    ensures { result ≡ list_all (λ b. b == 0) padding.now }
{
    padding.iter().all(|byte| *byte == 0)
}

/// Whether the bytes are a letter, then letters, digits and underscores, then zeros.
pub(crate) fn is_name(name: &[u8; 16]) -> bool
    ensures { result ≡ is_name name.now }
{
    let end = text_end(name).unwrap_or(16);
    let (text, padding) = name.split_at(end);
    name[0].is_ascii_alphabetic() && are_name_bytes(text) && are_zeros(padding)
}

/// Whether some routine has the name.
pub(crate) fn is_named(name: &[u8; 16], routines: &[Routine]) -> bool
    ensures { result ≡ is_named name.now routines.now }
{
    routines.iter().any(|routine| routine.name == *name)
}

/// How many instructions the routines have.
pub(crate) fn total_count(routines: &[Routine]) -> u32
    requires { length routines.now ≤ MOST_ROUTINES }
    ensures { result ≡ total_count routines.now }
{
    routines
        .iter()
        .map(|routine| u32::from(routine.count))
        .sum()
}

fn is_pointer(pointer: &Option<Pointer>) -> bool
    ensures { result ≡ is_pointer pointer.now }
{
    match pointer {
        Some(pointer) => pointer.slot < 4,
        None => true,
    }
}

/// Whether no slot is borrowed from a routine's caller.
fn are_own(slots: &[SlotState]) -> bool
    ensures { result ≡ list_all is_own slots.now }
{
    slots.iter().all(|state| state.is_own())
}

/// Whether slots may be borrowed, or none is.
fn may_borrow(borrows: bool, slots: &[SlotState]) -> bool
    ensures { result ≡ borrows || list_all is_own slots.now }
{
    borrows || are_own(slots)
}

fn is_row(borrows: bool, row: &Row) -> bool
    ensures { result ≡ is_row borrows row.now }
{
    let Row {
        bounds: _,
        slots,
        pointers,
        pairs: _,
    } = *row;
    may_borrow(borrows, &slots) && pointers.iter().all(is_pointer)
}

fn is_instr(routines: u32, instrs: u32, instr: &Instr) -> bool
    ensures { result ≡ is_instr routines instrs instr.now }
{
    let fields = instr.opcode.operands();
    u32::from(instr.a) < fields.a.limit(routines, instrs)
        && u32::from(instr.b) < fields.b.limit(routines, instrs)
        && u32::from(instr.c) < fields.c.limit(routines, instrs)
        && u32::from(instr.d) < fields.d.limit(routines, instrs)
        && u32::from(instr.imm) < fields.imm.limit(routines, instrs)
        && u32::from(instr.target) < fields.target.limit(routines, instrs)
}

fn is_given(borrows: bool, row: &Option<Row>) -> bool
    ensures { result ≡ is_given borrows row.now }
{
    match row {
        Some(row) => is_row(borrows, row),
        None => true,
    }
}

/// Whether a point is legal in an image with so many routines and instructions. `borrows` says whether slots may be
/// borrowed.
pub(crate) fn is_point(borrows: bool, routines: u32, instrs: u32, point: &Point) -> bool
    ensures { result ≡ is_point borrows routines instrs point.now }
{
    is_instr(routines, instrs, &point.instr) && is_given(borrows, &point.row)
}

/// Whether a routine may follow the earlier ones. `borrows` says whether slots may be borrowed.
pub(crate) fn is_routine(borrows: bool, earlier: &[Routine], routine: &Routine) -> bool
    ensures { result ≡ is_routine borrows earlier.now routine.now }
{
    is_name(&routine.name)
        && !is_named(&routine.name, earlier)
        && routine.count > 0
        && is_row(borrows, &routine.entry)
        && is_row(borrows, &routine.exit)
}
