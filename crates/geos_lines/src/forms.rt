//! The forms of instructions, by the table of opcodes.

use geos_opcodes::{FIELDS, Opcode, Operand, operand_at};
use sentence_text::Text;

/// An operand in words.
pub(crate) fn noun(kind: Operand) -> &'static str {
    match kind {
        Operand::Unused => "nothing",
        Operand::Word => "a word",
        Operand::Counter => "a counter",
        Operand::Slot => "a slot",
        Operand::Pointer => "a pointer",
        Operand::Number | Operand::Shift => "a number",
        Operand::Routine => "a routine",
        Operand::Label => "a label",
    }
}

/// How an operand begins in an example, and whether its number follows.
fn example(kind: Operand) -> (&'static str, bool) {
    match kind {
        Operand::Unused => ("", false),
        Operand::Word => (" w", true),
        Operand::Counter => (" k", true),
        Operand::Slot => (" s", true),
        Operand::Pointer => (" p", true),
        Operand::Number | Operand::Shift => (" 5", false),
        Operand::Routine => (" add", false),
        Operand::Label => (" end", false),
    }
}

/// How many operands an instruction has.
fn count(opcode: Opcode) -> usize {
    let mut count: usize = 0;
    for field in FIELDS.iter() {
        if operand_at(opcode, *field) != Operand::Unused {
            count = count.saturating_add(1);
        }
    }
    count
}

/// What is before the noun of an operand, where so many came before it.
fn joint(before: usize, all: usize) -> &'static str {
    if before == 0 {
        ""
    } else if before.saturating_add(1) < all {
        ", "
    } else {
        " and "
    }
}

/// Appends the nouns of an instruction's operands.
fn put_nouns(out: &mut Text, opcode: Opcode) {
    let all = count(opcode);
    let mut before: usize = 0;
    for field in FIELDS.iter() {
        let kind = operand_at(opcode, *field);
        if kind != Operand::Unused {
            out.put(joint(before, all));
            out.put(noun(kind));
            before = before.saturating_add(1);
        }
    }
}

/// Appends an instruction with operands of its form.
fn put_example(out: &mut Text, opcode: Opcode) {
    out.put(opcode.word());
    let mut before: u64 = 0;
    for field in FIELDS.iter() {
        let kind = operand_at(opcode, *field);
        if kind != Operand::Unused {
            let (text, numbered) = example(kind);
            if numbered {
                out.put_number(text, before);
            } else {
                out.put(text);
            }
            before = before.saturating_add(1);
        }
    }
}

/// Appends the form of an opcode's instructions: the nouns of their operands, and an example.
pub(crate) fn put_form(out: &mut Text, opcode: Opcode) {
    out.put(opcode.word());
    if count(opcode) == 0 {
        return out.put(" has no operands");
    }
    out.put(" requires ");
    put_nouns(out, opcode);
    out.put(", as ");
    put_example(out, opcode)
}
