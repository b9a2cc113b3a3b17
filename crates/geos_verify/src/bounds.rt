//! Bounds of words, and what an instruction changes of them.

ghost use Rattle.std.specs.Prelude.{◌≡◌, ◌<◌};
ghost use Rattle.geos_image.specs.Fields.{FieldsFit};
ghost use Rattle.geos_verify.specs.Rows.{with_bound, with_some_bound, computed, bounded, fits, YieldsFit};
ghost use Rattle.geos_opcodes.specs.Facts.{facts};

use crate::enough::fits;
use geos_image::{Instr, Opcode, Row};
use geos_opcodes::Yields;

/// Bounds a word by n.
pub(crate) fn set_bound(row: &mut Row, a: u8, n: u16)
    requires { a < 8 }
    ensures { row.new ≡ with_bound a n row.old }
{
    row.bounds[a as usize] = n;
}

/// What an instruction leaves in a word: one that there is.
// In place: it is one look-up in a table, which a call costs more than.
#[inline(always)]
fn result_at(i: &Instr) -> Yields
    requires { FieldsFit i.now.opcode i.now }
    ensures value { result ≡ (facts i.now.opcode).yields }
    ensures fit { YieldsFit result i.now }
{
    i.opcode.facts().yields
}

/// The bound of the word that an instruction computes, if it computes one.
fn computed_bound(i: &Instr, row: &Row) -> Option<u16>
    requires { FieldsFit i.now.opcode i.now }
    ensures { computed i.now i.now.opcode row.now ≡ with_some_bound i.now.a result row.now }
{
    match i.opcode {
        Opcode::Ldi => Some(i.imm),
        Opcode::Add => Some(row.bounds[i.b as usize].saturating_add(row.bounds[i.c as usize])),
        Opcode::Mov => Some(row.bounds[i.b as usize]),
        Opcode::Sub => Some(u16::MAX),
        Opcode::And => Some(row.bounds[i.b as usize].min(i.imm)),
        Opcode::Shr => Some(row.bounds[i.b as usize] >> i.imm),
        Opcode::Muli => Some(row.bounds[i.b as usize].saturating_mul(i.imm)),
        Opcode::Chk => Some(row.bounds[i.a as usize].min(i.imm)),
        _ => None,
    }
}

/// Bounds the word that is the instruction's result, where it continues to the next instruction.
#[inline(always)]
pub(crate) fn bound_result(i: &Instr, row: &mut Row)
    requires { FieldsFit i.now.opcode i.now }
    ensures { row.new ≡ bounded i.now i.now.opcode row.old }
{
    match result_at(i) {
        Yields::Nothing => (),
        Yields::Computed => {
            if let Some(n) = computed_bound(i, row) {
                set_bound(row, i.a, n);
            }
        }
        Yields::ByteInA => set_bound(row, i.a, 255),
        Yields::WordInA => set_bound(row, i.a, u16::MAX),
        Yields::WordInB => set_bound(row, i.b, u16::MAX),
        Yields::WordInAAndB => {
            set_bound(row, i.a, u16::MAX);
            set_bound(row, i.b, u16::MAX);
        }
    }
}

/// Whether n is within the bound of word a: then the row with n as that bound is enough for the row.
#[tactic(auto, using(crate::proofs::GivenAgain::fits_bound))]
fn is_within_bound(row: &Row, a: u8, n: u16) -> bool
    requires { a < 8 }
    ensures { result ≡ fits (with_bound a n row.now) row.now }
{
    n <= row.bounds[a as usize]
}

/// Whether the row with the bound of the instruction's result is enough for the row as it was.
#[inline(always)]
#[tactic(auto, using(crate::proofs::GivenAgain::fits_itself))]
pub(crate) fn keeps_bounds(i: &Instr, row: &Row) -> bool
    requires { FieldsFit i.now.opcode i.now }
    ensures { result ≡ fits (bounded i.now i.now.opcode row.now) row.now }
{
    match result_at(i) {
        Yields::Nothing => true,
        Yields::Computed => match computed_bound(i, row) {
            Some(n) => is_within_bound(row, i.a, n),
            None => true,
        },
        Yields::ByteInA => is_within_bound(row, i.a, 255),
        Yields::WordInA => is_within_bound(row, i.a, u16::MAX),
        Yields::WordInB => is_within_bound(row, i.b, u16::MAX),
        Yields::WordInAAndB => {
            let mut next = *row;
            set_bound(&mut next, i.a, u16::MAX);
            set_bound(&mut next, i.b, u16::MAX);
            fits(&next, row)
        }
    }
}
