//! Places where control comes, and what is open around an item.

ghost use Rattle.std.specs.Prelude.{◌≡◌, IsTrue, IfSome};
ghost use Rattle.tkv_meaning.specs.Code.{At, jump, ret, turn};
ghost use Rattle.tkv_checks.specs.Places.{IsAt, IsWithin};

use geos_image::{Image, Instr};
use geos_opcodes::Opcode;

/// Where control comes.
#[derive(Clone, Copy)]
pub(crate) enum Place {
    /// Control does not come there.
    Nowhere,
    /// To an instruction, at a pc.
    At(u16),
    /// To a return.
    Returned,
}

/// What is open around an item.
#[derive(Clone, Copy)]
pub(crate) enum Open {
    /// A block, and where its end is, as far as is known.
    Block(Place),
    /// A loop.
    Turns,
    /// Statements with an instruction on each way out.
    Closing(Instr),
}

/// The most jumps that are followed from a pc.
const MOST_JUMPS: usize = 64;

/// An instruction with a target, whose other fields are 0.
fn aimed(opcode: Opcode, target: u16) -> Instr
    ensures { result ≡ record { opcode = opcode; a = 0; b = 0; c = 0; d = 0; imm = 0; target = target } }
{
    Instr {
        a: 0,
        b: 0,
        c: 0,
        opcode,
        d: 0,
        imm: 0,
        target,
    }
}

/// A jump to a pc.
fn jump(to: u16) -> Instr
    ensures { result ≡ jump to }
{
    aimed(Opcode::Jmp, to)
}

/// The test of a loop.
pub(crate) fn turn(k: u8, to: u16) -> Instr
    ensures { result ≡ turn k to }
{
    Instr {
        a: k,
        ..aimed(Opcode::Loop, to)
    }
}

/// A return.
pub(crate) fn ret() -> Instr
    ensures { result ≡ ret }
{
    aimed(Opcode::Ret, 0)
}

/// Whether two instructions are one.
pub(crate) fn are_same(one: &Instr, other: &Instr) -> bool
    ensures { IsTrue result → one.now ≡ other.now }
{
    if one.opcode != other.opcode || one.imm != other.imm || one.target != other.target {
        return false;
    }
    let (registers, others) = (
        [one.a, one.b, one.c, one.d],
        [other.a, other.b, other.c, other.d],
    );
    registers == others
}

/// Whether the instruction is at a pc.
pub(crate) fn is_at(image: &Image, pc: u16, instr: &Instr) -> bool
    ensures { IsTrue result → At image.now pc instr.now }
{
    match image.points().get(usize::from(pc)) {
        Some(point) => are_same(&point.instr, instr),
        None => false,
    }
}

/// The target of the jump at a pc, if there is a jump.
fn jumped(image: &Image, pc: u16) -> Option<u16>
    ensures { IfSome result (λ to. At image.now pc (jump to)) }
{
    match image.points().get(usize::from(pc)) {
        Some(point) => {
            let to = point.instr.target;
            if are_same(&point.instr, &jump(to)) {
                Some(to)
            } else {
                None
            }
        }
        None => None,
    }
}

/// The place that control reaches from a pc through jumps.
pub(crate) fn settled(image: &Image, pc: u16) -> Place
    ensures { IsAt image.now result pc }
{
    let mut here = pc;
    for _ in 0..MOST_JUMPS {
        match jumped(image, here) {
            Some(to) => here = to,
            None => break,
        }
    }
    if is_at(image, here, &ret()) {
        Place::Returned
    } else {
        Place::At(here)
    }
}

/// Whether two places are one.
pub(crate) fn are_one(one: Place, other: Place) -> bool
    ensures { IsTrue result → one ≡ other }
{
    match one {
        Place::Nowhere => matches!(other, Place::Nowhere),
        Place::At(pc) => match other {
            Place::At(there) => pc == there,
            Place::Nowhere | Place::Returned => false,
        },
        Place::Returned => matches!(other, Place::Returned),
    }
}

/// The place that two are, if neither is known to be another.
pub(crate) fn joined(one: Place, other: Place) -> Option<Place>
    ensures one { IfSome result (λ place. IsWithin one place) }
    ensures other { IfSome result (λ place. IsWithin other place) }
{
    if matches!(one, Place::Nowhere) {
        Some(other)
    } else if matches!(other, Place::Nowhere) || are_one(one, other) {
        Some(one)
    } else {
        None
    }
}
