//! The lines of instructions.

ghost use Rattle.std.specs.Prelude.{◌≡◌, ◌<◌, ◌++◌, OnOk, length};
ghost use Rattle.geos_opcodes.specs.Facts.{limit};
ghost use Rattle.geos_listing.specs.Instrs.{KeepsLimits, operand_text, operands_text, instr_code, instr_line};

use geos_image::{Image, Instr, value_at};
use geos_opcodes::{FIELDS, Operand, operand_at};
use geos_text::put_numbered;
use std::alloc::AllocError;

/// An operand, and a blank before it; nothing for a field that is unused.
fn put_operand(
    out: &mut Vec<u8>,
    image: &Image,
    operand: Operand,
    number: u16,
) -> Result<(), AllocError>
    requires { number < limit (length image.now.routines) (length image.now.points) operand }
    ensures { OnOk result (out.new.items ≡ out.old.items ++ operand_text image.now.routines operand number) }
{
    let n = u64::from(number);
    match operand {
        Operand::Unused => Ok(()),
        Operand::Word => put_numbered(out, " w", n),
        Operand::Counter => put_numbered(out, " k", n),
        Operand::Slot => put_numbered(out, " s", n),
        Operand::Pointer => put_numbered(out, " p", n),
        Operand::Number | Operand::Shift => put_numbered(out, " ", n),
        Operand::Routine => {
            out.extend_from_slice(b" ")?;
            out.extend_from_slice(image.routine(number).name_text())
        }
        Operand::Label => put_numbered(out, " L", n),
    }
}

/// The operands of the instruction.
fn put_operands(out: &mut Vec<u8>, image: &Image, instr: &Instr) -> Result<(), AllocError>
    requires { KeepsLimits image.now instr.now }
    ensures { OnOk result (out.new.items ≡ out.old.items ++ operands_text image.now.routines instr.now) }
{
    for field in &FIELDS {
        let operand = operand_at(instr.opcode, *field);
        put_operand(out, image, operand, value_at(instr, *field))?;
    }
    Ok(())
}

/// Appends the instruction, indented, without the end of its line.
pub fn put_code(out: &mut Vec<u8>, image: &Image, instr: &Instr) -> Result<(), AllocError>
    requires { KeepsLimits image.now instr.now }
    ensures { OnOk result (out.new.items ≡ out.old.items ++ instr_code image.now.routines instr.now) }
{
    out.extend_from_slice(b"    ")?;
    out.extend_from_slice(instr.opcode.word().as_bytes())?;
    put_operands(out, image, instr)
}

/// The line of the instruction.
pub(crate) fn put_instr(out: &mut Vec<u8>, image: &Image, instr: &Instr) -> Result<(), AllocError>
    requires { KeepsLimits image.now instr.now }
    ensures { OnOk result (out.new.items ≡ out.old.items ++ instr_line image.now.routines instr.now) }
{
    put_code(out, image, instr)?;
    out.extend_from_slice(b"\n")
}
