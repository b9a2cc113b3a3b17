//! The lines of steps.

use crate::lines::put_placed;
use crate::writes::put_writes;
use geos_image::{Image, Instr};
use geos_machine::{Left, Noted};
use geos_opcodes::Operand;
use geos_text::put_numbered;
use line_marks::Origin;
use std::alloc::AllocError;

/// Appends what a step did: what it wrote, or that it was refused; and whether control went to the instruction's label.
pub fn put_done(out: &mut Vec<u8>, instr: &Instr, noted: &Noted) -> Result<(), AllocError> {
    let facts = instr.opcode.facts();
    let to_target = noted.left == Left::ToTarget;
    if facts.operands.refusable && to_target {
        return put_numbered(out, " refused ", u64::from(noted.words[7]));
    }
    put_writes(out, instr, noted)?;
    if to_target && facts.operands.target == Operand::Label {
        out.extend_from_slice(b" jumps")?;
    }
    Ok(())
}

/// Appends the line of a step: the place of the instruction, the instruction, and after a `;` what it changed, if it changed something.
pub fn put_step(
    out: &mut Vec<u8>,
    image: &Image,
    origins: Option<&[Origin<'_>]>,
    noted: &Noted,
) -> Result<(), AllocError> {
    if noted.pc >= image.len() {
        return Ok(());
    }
    put_placed(out, image, origins, noted.pc)?;
    let before = out.len();
    out.extend_from_slice(b"  ;")?;
    let empty = out.len();
    put_done(out, image.instr(noted.pc), noted)?;
    if out.len() == empty {
        out.truncate(before);
    }
    out.extend_from_slice(b"\n")
}
