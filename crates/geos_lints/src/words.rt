//! Words that an instruction reads and writes, as sets of the eight words.

use geos_image::{Instr, branches};
use geos_opcodes::{Flow, Opcode, Operand, Yields};

/// A set of words: bit n stands for word n.
pub(crate) type Words = u8;

/// All words.
pub(crate) const ALL: Words = 0xff;

/// The word that a refusal puts its number into.
pub(crate) const REFUSAL: Words = 0x80;

/// The set of one register, if the operand is a word.
fn word_of(operand: Operand, register: u8) -> Words {
    if operand == Operand::Word && register < 8 {
        1 << register
    } else {
        0
    }
}

/// The words that an instruction writes if it is not refused. A CALL may write all.
pub(crate) fn written(i: &Instr) -> Words {
    if i.opcode == Opcode::Chk {
        return 0;
    }
    let facts = i.opcode.facts();
    let (a, b) = (
        word_of(facts.operands.a, i.a),
        word_of(facts.operands.b, i.b),
    );
    match facts.yields {
        Yields::Nothing if facts.flow == Flow::Calls => ALL,
        Yields::Nothing => 0,
        Yields::Computed | Yields::ByteInA | Yields::WordInA => a,
        Yields::WordInB => b,
        Yields::WordInAAndB => a | b,
    }
}

/// The words that an instruction reads. A CALL reads those that are passed.
pub(crate) fn read(i: &Instr, passed: Words) -> Words {
    let facts = i.opcode.facts();
    let operands = facts.operands;
    let a = word_of(operands.a, i.a);
    let b = word_of(operands.b, i.b);
    let others = word_of(operands.c, i.c) | word_of(operands.d, i.d);
    if i.opcode == Opcode::Chk {
        return a;
    }
    match facts.yields {
        Yields::Nothing if facts.flow == Flow::Calls => passed,
        Yields::Nothing => a | b | others,
        Yields::Computed | Yields::ByteInA | Yields::WordInA => b | others,
        Yields::WordInB => a | others,
        Yields::WordInAAndB => others,
    }
}

/// Whether an instruction can be refused: control goes to its target then.
pub(crate) fn can_be_refused(i: &Instr) -> bool {
    i.opcode.operands().refusable
}

/// Whether an instruction only computes a word, or loads it, and continues.
pub(crate) fn only_computes(i: &Instr) -> bool {
    let facts = i.opcode.facts();
    !branches(i.opcode)
        && matches!(
            facts.yields,
            Yields::Computed | Yields::ByteInA | Yields::WordInA
        )
}
