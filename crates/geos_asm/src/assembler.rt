//! The image of a text.

ghost use Rattle.std.specs.Prelude.{◌≡◌, true, false, IfOk, IfErr};
ghost use Rattle.geos_source.specs.InstrLines.{instr_lines};
ghost use Rattle.geos_asm.specs.Assembling.{IsAssembled, RunsIfAnyDoes, IsWhyNoImage};

use crate::error::AssembleError;
use geos_image::{Image, Whole};
use geos_infer::{InferError, infer};
use geos_source::{parse, skeleton};
use std::alloc::Global;

/// The image of a text, and where the text has its instructions.
#[derive(Drop)]
pub struct Assembled {
    /// The image, of version 2.
    pub image: Image,
    /// The number of each instruction's line, from 1.
    pub lines: Vec<u32>,
}

/// The code of a text with a row at each instruction, and where the text has its instructions.
#[derive(Drop)]
struct Inferred {
    whole: Whole,
    lines: Vec<u32>,
}

/// The code of a text with all rows, and the lines of its instructions.
fn infer_with_lines(alloc: Global, text: &[u8]) -> Result<Inferred, AssembleError>
    ensures whole { IfOk result (λ made. IsAssembled text.now made.whole) }
    ensures all { IfOk result (λ made. made.whole.keyed ≡ false) }
    ensures lines { IfOk result (λ made. made.lines.items ≡ instr_lines text.now) }
    ensures fault { IfErr result (IsWhyNoImage text.now) }
{
    let parsed = parse(alloc, text)?;
    let blank = skeleton(alloc, &parsed)?;
    match infer(alloc, &blank) {
        Ok(whole) => Ok(Inferred {
            whole,
            lines: parsed.lines,
        }),
        Err(InferError::NoRows(r)) => {
            let routine = &parsed.routines[usize::from(r)];
            Err(AssembleError::NoRows(routine.line))
        }
        Err(InferError::Memory) => Err(AssembleError::Memory),
    }
}

/// The code of an assembly text with all rows: its routines and instructions, with potentials that are found for them, and
/// with a row at each. Those that `assemble` leaves out are ones that the verifier computes. `Whole::into_image` makes an
/// image of version 1 of it, where no slot is borrowed. The errors are those of `assemble`.
pub fn assemble_all_rows(alloc: Global, text: &[u8]) -> Result<Whole, AssembleError>
    ensures whole { IfOk result (IsAssembled text.now) }
    ensures all { IfOk result (λ whole. whole.keyed ≡ false) }
    ensures fault { IfErr result (IsWhyNoImage text.now) }
{
    match infer_with_lines(alloc, text) {
        Ok(made) => Ok(made.whole),
        Err(fault) => Err(fault),
    }
}

/// The image of an assembly text, with the line of each instruction. The errors are those of `assemble`.
pub fn assemble_with_lines(alloc: Global, text: &[u8]) -> Result<Assembled, AssembleError>
    ensures image { IfOk result (λ made. IsAssembled text.now made.image) }
    ensures version { IfOk result (λ made. made.image.keyed ≡ true) }
    ensures accepted { IfOk result (λ made. RunsIfAnyDoes text.now made.image) }
    ensures lines { IfOk result (λ made. made.lines.items ≡ instr_lines text.now) }
    ensures fault { IfErr result (IsWhyNoImage text.now) }
{
    match infer_with_lines(alloc, text) {
        Ok(made) => Ok(Assembled {
            image: made.whole.into_keyed(),
            lines: made.lines,
        }),
        Err(fault) => Err(fault),
    }
}

/// The image of an assembly text, of version 2: its routines and instructions, with potentials that are found for them, and with
/// rows at its key places.
///
/// `BadLine` exactly if the text has a fault, and names the first one. `NoRows` only for a
/// text without fault; it names a routine in which no rows and numbers of steps hold, if that has
/// no LOOP, no edge that leads back, and an edge of its own into each instruction but the first.
/// If there is no LOOP and no back edge, and each instruction except a routine's first has an
/// edge into it, the verifier accepts the image if it accepts any with the text's code. Otherwise
/// it may refuse the returned image, and `geos_verify::check` says where. `Memory` is possible for
/// any text.
pub fn assemble(alloc: Global, text: &[u8]) -> Result<Image, AssembleError>
    ensures image { IfOk result (IsAssembled text.now) }
    ensures version { IfOk result (λ image. image.keyed ≡ true) }
    ensures accepted { IfOk result (RunsIfAnyDoes text.now) }
    ensures fault { IfErr result (IsWhyNoImage text.now) }
{
    match assemble_with_lines(alloc, text) {
        Ok(made) => Ok(made.image),
        Err(fault) => Err(fault),
    }
}
