//! The items of a placed program.

use geos_image::Instr;
use geos_opcodes::Opcode;

/// What an item of a placed program is.
#[derive(Clone, Copy)]
pub enum PlacedKind {
    /// An instruction. If it is refused, or its test fails, control goes to the end of the block that it names.
    Do,
    /// Control goes to the end of the block that it names.
    Leave,
    /// A block begins.
    Block,
    /// Turns begin: control comes to the first one.
    Loop,
    /// Turns begin: control comes to their end first, which counts.
    Count,
    /// Begins statements. The instruction runs on every path out of them.
    Closing,
    /// The end of what began last and has not ended.
    End,
}

/// An item: blocks, loops and closings are numbered by how many are open around them.
#[derive(Clone, Copy)]
pub struct Placed {
    pub kind: PlacedKind,
    /// Of `Do` the instruction, of `Loop` and `Count` the one at the end, of `Closing` the one that gives the lock back.
    pub instr: Instr,
    /// The number of the block that is left to. Of `End` it is 1 if control comes there from the statements before it.
    pub to: u16,
    /// Where the source says it.
    pub at: u32,
}

/// Nothing is left to.
pub(crate) const NOWHERE: u16 = u16::MAX;

/// An instruction whose fields are 0.
pub(crate) fn bare(opcode: Opcode) -> Instr {
    Instr {
        opcode,
        a: 0,
        b: 0,
        c: 0,
        d: 0,
        imm: 0,
        target: 0,
    }
}

/// An instruction with up to three registers.
pub(crate) fn with_registers(opcode: Opcode, a: u8, b: u8, c: u8) -> Instr {
    Instr {
        a,
        b,
        c,
        ..bare(opcode)
    }
}

/// An instruction with up to two registers and a number.
pub(crate) fn with_number(opcode: Opcode, a: u8, b: u8, imm: u16) -> Instr {
    Instr {
        a,
        b,
        imm,
        ..bare(opcode)
    }
}
