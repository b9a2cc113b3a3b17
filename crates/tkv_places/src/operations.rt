//! Operations on words.

use crate::declarations::folded;
use crate::names::value;
use crate::placed::{with_number, with_registers};
use crate::placer::{Operand, Placer, Sort};
use geos_opcodes::Opcode;
use tkv_syntax::{Item, ItemKind, Why};

/// The power of two that a number is: its exponent.
fn exponent(number: u16) -> Option<u16> {
    for k in 0..16 {
        if number == 1 << k {
            return Some(k);
        }
    }
    None
}

/// The instruction that joins a word and a constant, with its number; otherwise why there is none.
fn immediate(kind: ItemKind, number: u16) -> Result<(Opcode, u16), Why> {
    match kind {
        ItemKind::Mul => Ok((Opcode::Muli, number)),
        ItemKind::Mask => Ok((Opcode::And, number)),
        ItemKind::Left | ItemKind::Right => {
            if number > 15 {
                Err(Why::ConstantRange)
            } else if matches!(kind, ItemKind::Left) {
                Ok((Opcode::Muli, 1 << number))
            } else {
                Ok((Opcode::Shr, number))
            }
        }
        _ => match exponent(number) {
            Some(shift) => {
                if matches!(kind, ItemKind::Div) {
                    Ok((Opcode::Shr, shift))
                } else {
                    Ok((Opcode::And, number.saturating_sub(1)))
                }
            }
            None => Err(Why::NoInstruction),
        },
    }
}

impl Placer {
    /// Two values are joined to a constant.
    fn fold(&mut self, item: &Item, left: u16, right: u16) {
        match folded(item.kind, left, right) {
            Some(number) => {
                self.take_values(2);
                self.push(value(Sort::Constant, item.at, 0, number));
            }
            None => self.refuse(Why::ConstantRange, item.at),
        }
    }

    /// A product, quotient, remainder, shift or mask of a word by a constant.
    fn by_constant(&mut self, item: &Item, operand: Operand, constant: u16) {
        match immediate(item.kind, constant) {
            Ok((opcode, number)) => {
                let words = self.words;
                let register = self.word_of(operand);
                self.words = words;
                self.take_values(2);
                let to = self.push_result(item.at);
                self.act(with_number(opcode, to, register, number), item.at);
            }
            Err(why) => self.refuse(why, item.at),
        }
    }

    /// A sum or difference of words.
    fn on_words(&mut self, opcode: Opcode, left: Operand, right: Operand, at: u32) {
        let words = self.words;
        let one = self.word_of(left);
        let other = self.word_of(right);
        self.words = words;
        self.take_values(2);
        let to = self.push_result(at);
        self.act(with_registers(opcode, to, one, other), at);
    }

    /// An operation on the last two values.
    pub(crate) fn operation(&mut self, item: &Item) {
        let right = self.operand(0, item.at);
        let left = self.operand(1, item.at);
        if left.is_constant() && right.is_constant() {
            return self.fold(item, left.value, right.value);
        }
        match item.kind {
            ItemKind::Add => self.on_words(Opcode::Add, left, right, item.at),
            ItemKind::Sub => self.on_words(Opcode::Sub, left, right, item.at),
            _ => {
                let turns = matches!(item.kind, ItemKind::Mul | ItemKind::Mask);
                if right.is_constant() {
                    self.by_constant(item, left, right.value);
                } else if left.is_constant() && turns {
                    self.by_constant(item, right, left.value);
                } else if self.may_be_constant(&right) || self.may_be_constant(&left) && turns {
                    self.by_constant(item, left, 1);
                } else {
                    self.refuse(Why::NoInstruction, item.at);
                }
            }
        }
    }
}
