//! Calls of the kernel: the instructions under their names in small letters.

use crate::declarations::{is_call, is_lock, opcode_named};
use crate::names::value;
use crate::placed::{NOWHERE, bare};
use crate::placer::{Held, Operand, Placer, Sort};
use crate::state::fetched;
use geos_image::Instr;
use geos_opcodes::{
    FIELDS, Field, Opcode, Operand as Holds, PointerUse, SlotUse, Yields, operand_at,
};
use tkv_syntax::{Item, Why};

/// Sets a field of an instruction.
fn set_field(instr: &mut Instr, field: Field, number: u16) {
    let register = if number < 256 { number as u8 } else { 0 };
    match field {
        Field::A => instr.a = register,
        Field::B => instr.b = register,
        Field::C => instr.c = register,
        Field::D => instr.d = register,
        Field::Imm => instr.imm = number,
        Field::Target => {}
    }
}

/// Whether an instruction leaves a word in its field `a`, and in `b`.
pub(crate) fn result_fields(opcode: Opcode) -> (bool, bool) {
    match opcode.facts().yields {
        Yields::Computed | Yields::ByteInA | Yields::WordInA => (true, false),
        Yields::WordInB => (false, true),
        Yields::WordInAAndB => (true, true),
        Yields::Nothing => (false, false),
    }
}

/// Whether a call or a lock has an argument for the field: none if the instruction leaves something there, but the word for the handle of a
/// block that is made is one.
fn is_argument(opcode: Opcode, field: Field) -> bool {
    let (in_a, in_b) = result_fields(opcode);
    let fetches = matches!(opcode.uses().pointer, PointerUse::Sets);
    match field {
        Field::Target => false,
        Field::A if in_a || is_lock(opcode) => false,
        Field::B if makes(opcode) => true,
        Field::B if in_b || fetches => false,
        _ => operand_at(opcode, field) != Holds::Unused,
    }
}

/// Whether the instruction makes the block that it locks.
pub(crate) fn makes(opcode: Opcode) -> bool {
    matches!(opcode, Opcode::Mnew | Opcode::Vnew)
}

/// How many arguments a call or a lock has.
pub(crate) fn argument_count(opcode: Opcode) -> usize {
    let mut count = 0;
    for field in FIELDS {
        if is_argument(opcode, field) && count < 6 {
            count += 1;
        }
    }
    count
}

impl Placer {
    /// What a field holds for an argument.
    fn argument(&mut self, holds: Holds, operand: Operand) -> u16 {
        match holds {
            Holds::Slot => u16::from(self.slot_of(operand)),
            Holds::Pointer => u16::from(self.pointer_of(operand)),
            Holds::Word => u16::from(self.word_of(operand)),
            _ => self.number_of(operand),
        }
    }

    /// The instruction of a call or a lock, whose arguments are the last values, without its results and the slot of a lock.
    pub(crate) fn filled(&mut self, opcode: Opcode, count: usize, at: u32) -> Instr {
        let mut instr = bare(opcode);
        let mut left = count;
        for field in FIELDS {
            if is_argument(opcode, field) {
                // CAADD and CAINS need no size: arrays of a fixed one take no notice of it, and others have room for none.
                let operand = if left == 0 {
                    value(Sort::Constant, at, 0, 0)
                } else {
                    self.operand(left - 1, at)
                };
                left = left.saturating_sub(1);
                let handle = matches!(operand.sort, Sort::Handle);
                if handle != (makes(opcode) && matches!(field, Field::B)) {
                    self.refuse(Why::NotSettable, operand.at);
                }
                let number = self.argument(operand_at(opcode, field), operand);
                set_field(&mut instr, field, number);
            }
        }
        instr
    }

    /// Reports what a call does not allow at this place, and marks the block that the call changes.
    fn prepare(&mut self, opcode: Opcode, count: usize, at: u32) {
        let uses = opcode.uses();
        for k in 0..4 {
            let of_file = !matches!(self.slots[k], Held::Free | Held::Mem);
            if of_file && matches!(uses.slot, SlotUse::Commits) {
                self.refuse(Why::Commits, at);
            }
        }
        if count == 0 {
            return;
        }
        let first = self.operand(count - 1, at);
        if matches!(uses.slot, SlotUse::Moves) {
            let slot = self.slot_of(first);
            self.mark(slot, at);
        }
        if matches!(uses.pointer, PointerUse::Copies) {
            let pointer = self.pointer_of(first);
            self.mark(self.leads[usize::from(pointer)], at);
        }
    }

    /// Places a call, with a way for its refusal, and makes the pointers stale that it moves.
    fn called(&mut self, instr: Instr, asks: bool, at: u32) {
        let refusable = instr.opcode.operands().refusable;
        if asks && !refusable {
            return self.refuse(Why::NotRefusable, at);
        }
        let way = if refusable {
            self.refusal_way(asks, at)
        } else {
            NOWHERE
        };
        self.lose_by(instr.opcode.uses().slot, instr.a, at);
        self.act_to(instr, way, at);
    }

    /// A call of the kernel, whose arguments are the last values. What it gives takes their place.
    pub(crate) fn kernel_call(&mut self, item: &Item, opcode: Opcode) {
        let at = item.at;
        let takes = argument_count(opcode);
        let count = item.a as usize;
        let sizeless = matches!(opcode, Opcode::Caadd | Opcode::Cains) && count + 1 == takes;
        if !is_call(opcode) {
            return self.refuse(Why::LockOnly, at);
        }
        if count != takes && !sizeless {
            return self.refuse_for(Why::Arguments, at, at, takes.min(255) as u16);
        }
        let words = self.words;
        self.prepare(opcode, count, at);
        let instr = self.filled(opcode, count, at);
        self.words = words;
        if matches!(opcode.uses().pointer, PointerUse::Sets) {
            self.fetched(instr, count, item.b != 0, at);
        } else {
            self.with_results(instr, count, item.b != 0, at);
        }
    }

    /// DEREF or CAELT: a pointer into a block.
    fn fetched(&mut self, instr: Instr, count: usize, asks: bool, at: u32) {
        let bytes = self.operand(0, at);
        self.take_values(count);
        let mut made = instr;
        made.b = self.take_pointer(instr.a, at);
        self.called(made, asks, at);
        self.state.facts |= fetched(made.b);
        self.push(Operand {
            structure: bytes.structure_of(),
            ..value(Sort::Pointer, at, made.b, made.imm)
        });
    }

    /// A call that gives words, or nothing.
    fn with_results(&mut self, instr: Instr, count: usize, asks: bool, at: u32) {
        self.take_values(count);
        let (in_a, in_b) = result_fields(instr.opcode);
        let mut made = instr;
        if in_a {
            made.a = self.push_result(at);
        }
        if in_b {
            made.b = self.push_result(at);
        }
        self.check_several(u8::from(in_a) + u8::from(in_b), at);
        self.called(made, asks, at);
    }

    /// A call: of the kernel, or of a routine.
    pub(crate) fn call(&mut self, item: &Item) {
        let name = self.declared.name(item.at);
        match opcode_named(&name) {
            Some(opcode) => self.kernel_call(item, opcode),
            None => self.routine_call(item, &name),
        }
    }
}
