//! The instructions, with their rows and potentials.

ghost use Rattle.std.specs.Prelude.{◌≡◌, ◌<◌, ◌≤◌, ◌^◌, length, true, false, Some, None, IfOk};
ghost use Rattle.std.specs.List.{list_all};
ghost use Rattle.geos_image.specs.Legal.{is_instr, is_row, LegalWhere};
ghost use Rattle.geos_image.specs.Parts.{instrs_of};
ghost use Rattle.geos_image.specs.Repeats.{AreAlike, AreRepeats};
ghost use Rattle.geos_opcodes.specs.Facts.{limit};
ghost use Rattle.geos_image.specs.Reading.{byte_below, word_below, fields_at, instr_at, items_at, points_at, row_at, bare_points_at, Gives};

use crate::error::ReadError;
use crate::instr::Instr;
use crate::keys::Flags;
use crate::legal::MOST_INSTRS;
use crate::point::Point;
use crate::potential::Potential;
use crate::reader::numbers::{Fault, byte_at, byte_below, word_below};
use crate::reader::rows::{ROW_LEN, potential_at, row_like};
use crate::row::Row;
use geos_opcodes::{Opcode, Operand};
use std::alloc::Global;

/// The bytes of an instruction.
const INSTR_LEN: usize = 10;

/// The limit of the operand in an image with one routine and one instruction: LLVM makes a table of it.
fn least_limit(operand: Operand) -> u32
    ensures { result ≡ limit 1 1 operand }
{
    match operand {
        Operand::Unused | Operand::Routine | Operand::Label => 1,
        Operand::Word => 8,
        Operand::Counter | Operand::Slot | Operand::Pointer => 4,
        Operand::Number => 65_536,
        Operand::Shift => 16,
    }
}

/// The operand is a number below this limit, in an image with so many routines and instructions.
fn limit_of(operand: Operand, routines: u32, instrs: u32) -> u32
    ensures { result ≡ limit routines instrs operand }
{
    match operand {
        Operand::Routine => routines,
        Operand::Label => instrs,
        _ => least_limit(operand),
    }
}

/// A byte that the operand may have.
#[inline(always)]
fn byte_of(
    operand: Operand,
    routines: u32,
    instrs: u32,
    bytes: &[u8],
    at: usize,
) -> Result<u8, Fault>
    ensures exact { result ≡ byte_below (limit routines instrs operand) bytes.now at }
    ensures legal { IfOk result (λ n. n < limit routines instrs operand) }
{
    byte_below(limit_of(operand, routines, instrs), bytes, at)
}

/// A word that the operand may have.
#[inline(always)]
fn word_of(
    operand: Operand,
    routines: u32,
    instrs: u32,
    bytes: &[u8],
    at: usize,
) -> Result<u16, Fault>
    requires { at < 2 ^ 32 }
    ensures exact { result ≡ word_below (limit routines instrs operand) bytes.now at }
    ensures legal { IfOk result (λ n. n < limit routines instrs operand) }
{
    word_below(limit_of(operand, routines, instrs), bytes, at)
}

/// The instruction with the opcode, whose fields follow.
#[tactic(auto, unfolding(crate::specs::Reading::fields_at))]
#[inline(always)]
fn fields_at(
    opcode: Opcode,
    routines: u32,
    instrs: u32,
    bytes: &[u8],
    at: usize,
) -> Result<Instr, Fault>
    requires { at < 2 ^ 31 }
    ensures exact { result ≡ fields_at routines instrs opcode bytes.now at }
    ensures legal { IfOk result (λ i. is_instr routines instrs i ≡ true) }
{
    let fields = opcode.facts().operands;
    let a = byte_of(fields.a, routines, instrs, bytes, at + 1)?;
    let b = byte_of(fields.b, routines, instrs, bytes, at + 2)?;
    let c = byte_of(fields.c, routines, instrs, bytes, at + 3)?;
    let d = byte_of(fields.d, routines, instrs, bytes, at + 4)?;
    byte_below(1, bytes, at + 5)?;
    let imm = word_of(fields.imm, routines, instrs, bytes, at + 6)?;
    let target = word_of(fields.target, routines, instrs, bytes, at + 8)?;
    Ok(Instr {
        opcode,
        a,
        b,
        c,
        d,
        imm,
        target,
    })
}

#[tactic(auto, unfolding(crate::specs::Reading::instr_at))]
#[inline(always)]
fn coded_at(routines: u32, instrs: u32, bytes: &[u8], at: usize) -> Result<Instr, Fault>
    requires { at < 2 ^ 31 }
    ensures exact { result ≡ instr_at routines instrs bytes.now at }
    ensures legal { IfOk result (λ i. is_instr routines instrs i ≡ true) }
{
    let opcode = Opcode::from_code(byte_at(bytes, at)?).ok_or(at)?;
    fields_at(opcode, routines, instrs, bytes, at)
}

/// The instruction at an offset, which may be cut.
#[cold]
#[inline(never)]
fn instr_at_end(routines: u32, instrs: u32, bytes: &[u8], at: usize) -> Result<Instr, Fault>
    requires { at < 2 ^ 31 }
    ensures exact { result ≡ instr_at routines instrs bytes.now at }
    ensures legal { IfOk result (λ i. is_instr routines instrs i ≡ true) }
{
    coded_at(routines, instrs, bytes, at)
}

/// The instruction at an offset, read as a row is.
fn instr_at(routines: u32, instrs: u32, bytes: &[u8], at: usize) -> Result<Instr, Fault>
    requires { at < 2 ^ 31 }
    ensures exact { result ≡ instr_at routines instrs bytes.now at }
    ensures legal { IfOk result (λ i. is_instr routines instrs i ≡ true) }
{
    let at = at as u32 as usize;
    if bytes.len() < at + INSTR_LEN {
        let instr = instr_at_end(routines, instrs, bytes, at)?;
        return Ok(instr);
    }
    coded_at(routines, instrs, bytes, at)
}

#[inline(never)]
pub(crate) fn instrs_at(
    alloc: Global,
    bytes: &[u8],
    routines: u32,
    instrs: u32,
    start: usize,
) -> Result<Vec<Instr>, ReadError>
    requires count { instrs ≤ MOST_INSTRS }
    requires place { start < 2 ^ 16 }
    ensures exact { Gives (λ v. v.items) result (items_at (instr_at routines instrs bytes.now) 10 instrs start) }
    ensures legal { IfOk result (λ v. (list_all (is_instr routines instrs) v.items ≡ true) × (length v.items ≡ instrs)) }
{
    let mut code = Vec::with_capacity(alloc, instrs as usize)?;
    let mut at = start;
    for _ in 0..instrs {
        let instr = instr_at(routines, instrs, bytes, at)?;
        code.push_reserved(instr);
        at += 10;
    }
    Ok(code)
}

/// A point with a row.
// Apart, as is one without: LLVM copies the row once less than in the loop itself.
#[inline(always)]
fn told(instr: &Instr, row: &Row, potential: Potential) -> Point
    ensures { result ≡ record { instr = instr.now; row = Some row.now; potential = potential } }
{
    Point {
        instr: *instr,
        row: Some(*row),
        potential,
    }
}

/// A point without a row.
#[inline(always)]
fn bare(instr: &Instr, potential: Potential) -> Point
    ensures { result ≡ record { instr = instr.now; row = None; potential = potential } }
{
    Point {
        instr: *instr,
        row: None,
        potential,
    }
}

/// Each instruction with the row and the potential that the bytes give it. Flags places after others whose row is that of the place
/// before.
#[inline(never)]
pub(crate) fn points_at(
    alloc: Global,
    bytes: &[u8],
    code: &[Instr],
    start: usize,
    repeats: &mut Flags,
) -> Result<Vec<Point>, ReadError>
    requires place { start < 2 ^ 20 }
    requires short { length code.now ≤ MOST_INSTRS }
    ensures exact { Gives (λ v. v.items) result (points_at bytes.now code.now start) }
    ensures legal { IfOk result (λ v. LegalWhere false code.now v.items) }
    ensures len { IfOk result (λ v. length v.items ≡ length code.now) }
    ensures repeats { IfOk result (λ v. AreRepeats repeats.new v.items) }
{
    let mut points = Vec::with_capacity(alloc, code.len())?;
    let mut row = Row::open();
    let mut before = start;
    let mut at = start;
    for (pc, instr) in code.iter().enumerate() {
        repeats[pc] = row_like(false, bytes, before, at, &mut row)?;
        let potential = potential_at(bytes, at + ROW_LEN)?;
        points.push_reserved(told(instr, &row, potential));
        before = at;
        at += 58;
    }
    Ok(points)
}

/// Each instruction with the potential that the bytes give it, and no row.
#[inline(never)]
pub(crate) fn bare_at(
    alloc: Global,
    bytes: &[u8],
    code: &[Instr],
    start: usize,
) -> Result<Vec<Point>, ReadError>
    requires place { start < 2 ^ 20 }
    requires short { length code.now ≤ MOST_INSTRS }
    ensures exact { Gives (λ v. v.items) result (bare_points_at bytes.now code.now start) }
    ensures legal { IfOk result (λ v. LegalWhere true code.now v.items) }
    ensures instrs { IfOk result (λ v. instrs_of v.items ≡ code.now) }
{
    let mut points = Vec::with_capacity(alloc, code.len())?;
    let mut at = start;
    for instr in code {
        let potential = potential_at(bytes, at)?;
        points.push_reserved(bare(instr, potential));
        at += 20;
    }
    Ok(points)
}

/// So many rows. Flags rows after others that are the row before.
#[inline(never)]
pub(crate) fn rows_at(
    alloc: Global,
    bytes: &[u8],
    count: usize,
    start: usize,
    alike: &mut Flags,
) -> Result<Vec<Row>, ReadError>
    requires place { start < 2 ^ 21 }
    requires short { count ≤ MOST_INSTRS }
    ensures exact { Gives (λ v. v.items) result (items_at (row_at true bytes.now) 38 count start) }
    ensures legal { IfOk result (λ v. list_all (is_row true) v.items ≡ true) }
    ensures len { IfOk result (λ v. length v.items ≡ count) }
    ensures alike { IfOk result (λ v. AreAlike alike.new v.items) }
{
    let mut rows = Vec::with_capacity(alloc, count)?;
    let mut row = Row::open();
    let mut before = start;
    let mut at = start;
    for k in 0..count {
        alike[k] = row_like(true, bytes, before, at, &mut row)?;
        rows.push_reserved(row);
        before = at;
        at += 38;
    }
    Ok(rows)
}
