//! The operands of an instruction in a text. After the word of its opcode come the operands of
//! the fields a, b, c, d, imm and target, in this order, without those of unused fields.

ghost use Rattle.std.specs.Prelude.{◌≡◌};
ghost use Rattle.geos_opcodes.specs.Fields.{operand_at};

use crate::opcode::{Opcode, Operand};

/// A field of an instruction.
#[derive(Clone, Copy)]
pub enum Field {
    A,
    B,
    C,
    D,
    Imm,
    Target,
}

/// The fields in the order of their operands in a text.
pub const FIELDS: [Field; 6] = [
    Field::A,
    Field::B,
    Field::C,
    Field::D,
    Field::Imm,
    Field::Target,
];

/// What a field of the opcode's instructions holds. A text writes nothing for `Operand::Unused`,
/// the letter and the digit of a register, a number in decimal, a routine's name, or a label.
pub fn operand_at(opcode: Opcode, field: Field) -> Operand
    ensures { result ≡ operand_at opcode field }
{
    let operands = opcode.operands();
    match field {
        Field::A => operands.a,
        Field::B => operands.b,
        Field::C => operands.c,
        Field::D => operands.d,
        Field::Imm => operands.imm,
        Field::Target => operands.target,
    }
}
