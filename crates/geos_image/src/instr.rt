//! Instructions.

ghost use Rattle.std.specs.Prelude.{◌≡◌};
ghost use Rattle.geos_image.specs.Fields.{value_at};

use geos_opcodes::{Field, Opcode};

/// An instruction. `Opcode::operands` says what each field holds; unused fields are 0.
#[derive(Clone, Copy)]
pub struct Instr {
    // The opcode comes after these three: one number of the four has the opcode at its top, so that the machine takes it by a shift.
    pub a: u8,
    pub b: u8,
    pub c: u8,
    pub opcode: Opcode,
    pub d: u8,
    pub imm: u16,
    pub target: u16,
}

/// The number in a field.
pub fn value_at(instr: &Instr, field: Field) -> u16
    ensures { result ≡ value_at instr.now field }
{
    match field {
        Field::A => u16::from(instr.a),
        Field::B => u16::from(instr.b),
        Field::C => u16::from(instr.c),
        Field::D => u16::from(instr.d),
        Field::Imm => instr.imm,
        Field::Target => instr.target,
    }
}
