//! Steps from a place, by the instruction at it.

ghost use Rattle.std.specs.Prelude.{◌≡◌, ◌+◌, IsTrue, IfSome};
ghost use Rattle.tkv_checks.specs.Places.{IsAt};
ghost use Rattle.tkv_meaning.specs.Code.{At, aimed};
ghost use Rattle.tkv_meaning.specs.Statements.{is_plain, has_target, Continues};
ghost use Rattle.tkv_checks.specs.Walks.{IsPast, IsTried};

use crate::places::{Place, are_same, is_at, settled};
use geos_image::{Image, Instr};
use geos_opcodes::{Opcode, Operand};
use tkv_places::Placed;

/// A bracket of items: its first item, where control comes to it, and where its body begins.
#[derive(Clone, Copy)]
pub(crate) struct Bracket {
    pub item: Placed,
    pub here: Place,
    pub inner: Place,
}

/// The places that control reaches after an instruction, and from its target.
#[derive(Clone, Copy)]
pub(crate) struct Outcomes {
    pub next: Place,
    pub target: Place,
}

/// Whether the instruction is no jump, loop, call or return.
pub(crate) fn is_plain(opcode: Opcode) -> bool
    ensures { result ≡ is_plain opcode }
{
    !matches!(
        opcode,
        Opcode::Jmp | Opcode::Loop | Opcode::Call | Opcode::Ret
    )
}

/// Whether the instruction may go to a target.
fn has_target(opcode: Opcode) -> bool
    ensures { result ≡ has_target opcode }
{
    matches!(opcode.operands().target, Operand::Label)
}

/// Whether control always continues after the instruction.
pub(crate) fn continues(opcode: Opcode) -> bool
    ensures { IsTrue result → Continues opcode }
{
    is_plain(opcode) && !has_target(opcode)
}

/// The place after a pc.
fn after(image: &Image, pc: u16) -> Option<Place>
    ensures { IfSome result (λ next. IsAt image.now next (pc + 1)) }
{
    match pc.checked_add(1) {
        Some(next) => Some(settled(image, next)),
        None => None,
    }
}

/// The place after an instruction, if it is at a place.
pub(crate) fn past(image: &Image, instr: &Instr, from: Place) -> Option<Place>
    ensures { IfSome result (λ next. IsPast image.now instr.now from next) }
{
    match from {
        Place::Nowhere => Some(Place::Nowhere),
        Place::At(pc) => {
            if is_at(image, pc, instr) {
                after(image, pc)
            } else {
                None
            }
        }
        Place::Returned => None,
    }
}

/// The target of the instruction at a pc, if it is this one except for its target.
pub(crate) fn target_at(image: &Image, pc: u16, instr: &Instr) -> Option<u16>
    ensures { IfSome result (λ to. At image.now pc (aimed instr.now to)) }
{
    match image.points().get(usize::from(pc)) {
        Some(point) => {
            let to = point.instr.target;
            let aimed = Instr {
                target: to,
                ..*instr
            };
            if are_same(&point.instr, &aimed) {
                Some(to)
            } else {
                None
            }
        }
        None => None,
    }
}

/// The places after an instruction and at its target, if it is at a place.
pub(crate) fn tried(image: &Image, instr: &Instr, from: Place) -> Option<Outcomes>
    ensures { IfSome result (λ tried. IsTried image.now instr.now from tried) }
{
    match from {
        Place::Nowhere => Some(Outcomes {
            next: Place::Nowhere,
            target: Place::Nowhere,
        }),
        Place::At(pc) => match target_at(image, pc, instr) {
            Some(to) => match after(image, pc) {
                Some(next) => Some(Outcomes {
                    next,
                    target: settled(image, to),
                }),
                None => None,
            },
            None => None,
        },
        Place::Returned => None,
    }
}
