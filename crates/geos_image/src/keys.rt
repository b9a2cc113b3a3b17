//! The key places of code.

ghost use Rattle.std.specs.Prelude.{◌≡◌, ◌<◌, ◌≤◌, length, slice_set, take, replicate, true, false, IfOk};
ghost use Rattle.geos_image.specs.Parts.{instrs_of};
ghost use Rattle.geos_image.specs.Keys.{falls_through, branches, starts_from, keys_from, target_key, cut_key, flagged};
ghost use Rattle.geos_image.specs.Keys.{key_flags, flag_count, with_rows, row_for, flag_bit, row_where, kept_rows};
ghost use Rattle.geos_image.specs.Repeats.{RepeatsBy};

use crate::instr::Instr;
use crate::legal::{MOST_INSTRS, MOST_ROUTINES};
use crate::point::Point;
use crate::routine::Routine;
use crate::row::Row;
use geos_opcodes::{Flow, Opcode, Operand};
use std::alloc::{AllocError, Global};

/// A flag for each pc that there may be.
pub type Flags = [bool; 4096];

/// No flag is set.
pub(crate) fn no_flags() -> Flags
    ensures { result ≡ replicate 4096 false }
{
    [false; 4096]
}

/// Whether control may continue to the next instruction.
#[inline(always)]
pub fn falls_through(opcode: Opcode) -> bool
    ensures { result ≡ falls_through opcode }
{
    match opcode.facts().flow {
        Flow::Jumps | Flow::Returns => false,
        _ => true,
    }
}

/// Whether control may go to the target.
#[inline(always)]
pub fn branches(opcode: Opcode) -> bool
    ensures { result ≡ branches opcode }
{
    match opcode.facts().operands.target {
        Operand::Label => true,
        _ => false,
    }
}

/// Sets the flag of a place, if there is one.
#[tactic(auto, using(std::proofs::lemmas::List::set_past))]
fn set_flag(flags: &mut Flags, place: usize)
    ensures { flags.new ≡ slice_set flags.old place true }
{
    if place < 4096 {
        flags[place] = true;
    }
}

/// Flags the places where routines begin.
fn flag_starts(routines: &[Routine], flags: &mut Flags)
    requires { length routines.now ≤ MOST_ROUTINES }
    ensures { flags.new ≡ flagged (starts_from 0 routines.now) flags.old }
{
    let mut start = 0;
    for routine in routines {
        set_flag(flags, start);
        start += usize::from(routine.count);
    }
}

/// Flags the place to which the instruction may lead by its label, and the one after it where control does not go
/// on.
fn flag_at(pc: usize, i: &Instr, flags: &mut Flags)
    requires { pc < MOST_INSTRS }
    ensures { flags.new ≡ flagged (cut_key pc i.now) (flagged (target_key i.now) flags.old) }
{
    if branches(i.opcode) {
        set_flag(flags, usize::from(i.target));
    }
    if !falls_through(i.opcode) {
        set_flag(flags, pc + 1);
    }
}

/// Flags the key places that come of the instructions.
fn flag_all(points: &[Point], flags: &mut Flags)
    requires { length points.now ≤ MOST_INSTRS }
    ensures { flags.new ≡ flagged (keys_from 0 (instrs_of points.now)) flags.old }
{
    for (pc, point) in points.iter().enumerate() {
        flag_at(pc, &point.instr, flags);
    }
}

/// A flag as a number.
fn flag_bit(flag: bool) -> usize
    ensures { result ≡ flag_bit flag }
{
    match flag {
        true => 1,
        false => 0,
    }
}

/// How many of so many places are flagged.
pub(crate) fn flag_count(flags: &Flags, points: &[Point]) -> usize
    requires { length points.now ≤ MOST_INSTRS }
    ensures value { result ≡ flag_count flags.now (instrs_of points.now) }
    ensures small { result ≤ MOST_INSTRS }
{
    let mut count = 0;
    for pc in 0..points.len() {
        count += flag_bit(flags[pc]);
    }
    count
}

/// Gives a point the next row if it is flagged and there is one, and otherwise none.
fn set_row(point: &mut Point, flag: bool, rows: &[Row], next: usize)
    ensures { point.new ≡ record point.old { row = row_for flag rows.now next } }
{
    if flag && next < rows.len() {
        point.row = Some(rows[next]);
    } else {
        point.row = None;
    }
}

/// Puts rows at the places that are flagged, in their order, and none elsewhere.
pub(crate) fn place_rows(flags: &Flags, points: &mut Vec<Point>, rows: &[Row])
    requires { length points.old.items ≤ MOST_INSTRS }
    ensures { points.new.items ≡ with_rows flags.now points.old.items rows.now }
{
    let mut next = 0;
    for pc in 0..points.len() {
        set_row(&mut points[pc], flags[pc], rows, next);
        next += flag_bit(flags[pc]);
    }
}

/// Flags for so many places: those are set whose row is that of the place before. `flags` says which places have rows, and `alike`
/// which of these rows are the row before.
pub(crate) fn repeats_of(flags: &Flags, alike: &Flags, count: usize) -> Flags
    requires { count ≤ MOST_INSTRS }
    ensures { RepeatsBy flags.now alike.now count result }
{
    let mut repeats = no_flags();
    let mut before = false;
    let mut next = 0;
    for pc in 0..count {
        repeats[pc] = before && flags[pc] && alike[next];
        before = flags[pc];
        next += flag_bit(flags[pc]);
    }
    repeats
}

/// The flags of so many places, as many as an image keeps.
pub(crate) fn first_flags(
    alloc: Global,
    flags: &Flags,
    count: usize,
) -> Result<Vec<bool>, AllocError>
    requires { count ≤ MOST_INSTRS }
    ensures { IfOk result (λ v. v.items ≡ take count flags.now) }
{
    let mut first = Vec::with_capacity(alloc, count)?;
    first.extend_from_slice(&flags[..count])?;
    Ok(first)
}

/// A row, if its place is flagged.
fn row_where(flag: bool, row: Option<Row>) -> Option<Row>
    ensures { result ≡ row_where flag row }
{
    if flag { row } else { None }
}

/// Takes away the rows at places that are not flagged.
pub(crate) fn keep_rows(flags: &Flags, points: &mut Vec<Point>)
    requires { length points.old.items ≤ MOST_INSTRS }
    ensures { points.new.items ≡ kept_rows flags.now points.old.items }
{
    for pc in 0..points.len() {
        points[pc].row = row_where(flags[pc], points[pc].row);
    }
}

/// The key places of code: they are flagged.
pub fn keys_of(routines: &[Routine], points: &[Point]) -> Flags
    requires few { length routines.now ≤ MOST_ROUTINES }
    requires short { length points.now ≤ MOST_INSTRS }
    ensures { result ≡ key_flags routines.now (instrs_of points.now) }
{
    let mut flags = no_flags();
    flag_starts(routines, &mut flags);
    flag_all(points, &mut flags);
    flags
}
