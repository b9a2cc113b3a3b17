//! Statements that name, set and output values.

use crate::names::value;
use crate::placed::{NOWHERE, with_registers};
use crate::placer::{MOST_WORDS, Meaning, Operand, Placer, Sort, Symbol};
use crate::state::{bit, fetched};
use geos_opcodes::Opcode;
use tkv_syntax::{Item, Why};

impl Placer {
    /// Names a word that is not set. Returns which one.
    pub(crate) fn declare_unset(&mut self, at: u32) -> u8 {
        let register = self.take_named(at);
        self.keep_word(register);
        self.state.facts &= !bit(register);
        self.declare(Meaning::Word, at, register, 0, NOWHERE);
        register
    }

    /// Names a pointer, which only the value has, or another name too.
    fn declare_pointer(&mut self, operand: Operand, at: u32) {
        let from = self.pointer_of(operand);
        let register = if from >= self.named_pointers {
            from
        } else {
            let slot = self.leads[usize::from(from)];
            let to = self.take_pointer(slot, at);
            self.act(with_registers(Opcode::Movp, to, from, 0), at);
            self.state.facts |= fetched(to);
            to
        };
        self.named_pointers = register + 1;
        self.pointers = self.pointers.max(register + 1);
        self.declare(
            Meaning::Pointer,
            at,
            register,
            operand.value,
            operand.structure,
        );
    }

    /// Names a value: a word is moved to one that only the name has, or what computes the value leaves it in a lower word.
    fn declare_value(&mut self, operand: Operand, at: u32) {
        if operand.is_pointer() {
            return self.declare_pointer(operand, at);
        }
        let from = operand.register;
        let register = if operand.is_temporary() && from < MOST_WORDS {
            match self.freed_word() {
                Some(register) => {
                    let leaves = register < from && self.retarget(from, register);
                    if leaves { register } else { from }
                }
                None => from,
            }
        } else {
            let register = self.take_named(at);
            self.move_to(operand, register, at);
            register
        };
        self.keep_word(register);
        self.state.facts |= bit(register);
        self.declare(Meaning::Word, at, register, 0, NOWHERE);
    }

    /// `let`: names value `a` of `b`.
    pub(crate) fn bind(&mut self, item: &Item) {
        if item.b == 0 {
            self.declare_unset(item.at);
            return;
        }
        let operand = self.bound_value(item);
        self.declare_value(operand, item.at);
    }

    /// Value `a` of `b`, if the statement has so many.
    fn bound_value(&mut self, item: &Item) -> Operand {
        let (index, count) = (item.a as usize, item.b as usize);
        let given = self.operand_count();
        if given != count || index >= count {
            self.refuse_for(Why::Values, item.at, item.at, given.min(255) as u16);
            return value(Sort::Constant, item.at, 0, 0);
        }
        self.operand(count - 1 - index, item.at)
    }

    /// Sets a pointer to what another one is, which leads into the same block and has the same bytes.
    fn assign_pointer(&mut self, symbol: &Symbol, operand: Operand, at: u32) {
        let from = self.pointer_of(operand);
        if symbol.register >= 4 {
            return self.refuse(Why::NoPointer, at);
        }
        let to = symbol.register;
        let same = self.leads[usize::from(from)] == self.leads[usize::from(to)]
            && operand.value >= symbol.value;
        if !same {
            return self.refuse_for(Why::Kinds, at, symbol.at, 0);
        }
        // The last placed item sets the other pointer, if it fetches this one.
        let fetches = matches!(self.last_opcode(), Opcode::Deref | Opcode::Caelt);
        if from < self.named_pointers || !self.redirect((false, fetches), from, to) {
            self.act(with_registers(Opcode::Movp, to, from, 0), at);
        }
        self.state.facts |= fetched(to);
        self.lost[usize::from(to)].lost = false;
    }

    /// Sets the name to value `a` of `b`.
    pub(crate) fn assign(&mut self, item: &Item) {
        let at = item.at;
        let operand = self.bound_value(item);
        let symbol = self.symbol(&self.declared.name(at));
        match symbol.meaning {
            Meaning::Word => {
                self.move_to(operand, symbol.register, at);
                self.state.facts |= bit(symbol.register);
            }
            Meaning::Pointer => self.assign_pointer(&symbol, operand, at),
            Meaning::Nothing => self.refuse(Why::Unknown, at),
            _ => self.refuse(Why::NotSettable, at),
        }
    }

    /// Outputs the value.
    pub(crate) fn put_out(&mut self, item: &Item) {
        let at = item.at;
        let operand = self.operand(0, at);
        let to = self.refusal_way(self.asks, item.a);
        let register = self.word_of(operand);
        self.act_to(with_registers(Opcode::Out, register, 0, 0), to, at);
        self.clear();
    }

    /// Nothing is done with what a call gives: so it gives nothing.
    pub(crate) fn done(&mut self, at: u32) {
        if self.operand_count() != 0 {
            self.refuse(Why::Dropped, at);
        }
    }

    /// Marks the block.
    pub(crate) fn make_dirty(&mut self, item: &Item) {
        let symbol = self.symbol(&self.declared.name(item.at));
        match symbol.meaning {
            Meaning::Block => self.mark(symbol.register, item.at),
            Meaning::Nothing => self.refuse(Why::Unknown, item.at),
            _ => self.refuse(Why::NoBlock, item.at),
        }
    }
}
