//! Conditions: tests that leave if the condition does not hold.

use crate::placed::{with_number, with_registers};
use crate::placer::{Construct, Operand, Placer};
use crate::state::pair;
use geos_image::Instr;
use geos_opcodes::Opcode;
use tkv_syntax::{Item, Why};

/// A test: its instruction, and whether it leaves if the condition holds.
#[derive(Clone, Copy)]
struct Branch {
    instr: Instr,
    where_true: bool,
}

/// A comparison with its sides turned round.
fn turned(test: u32) -> u32 {
    match test {
        2 => 4,
        4 => 2,
        3 => 5,
        5 => 3,
        _ => test,
    }
}

/// A comparison with a constant as a bound: the number that the word is at most, and whether the condition says that it is.
fn bounded(test: u32, number: u16) -> Option<(u16, bool)> {
    match test {
        4 | 5 => Some((number, test == 5)),
        2 | 3 => Some((number.saturating_sub(1), test == 2)),
        _ => {
            if number == 0 {
                Some((0, test == 0))
            } else {
                None
            }
        }
    }
}

impl Placer {
    /// The test of two words.
    fn compared(&mut self, test: u32, left: Operand, right: Operand) -> Branch {
        let one = self.word_of(left);
        let other = self.word_of(right);
        let instr = match test {
            0 | 1 => with_registers(Opcode::Beq, one, other, 0),
            2 | 3 => with_registers(Opcode::Blt, one, other, 0),
            _ => with_registers(Opcode::Blt, other, one, 0),
        };
        Branch {
            instr,
            where_true: matches!(test, 0 | 2 | 4),
        }
    }

    /// The test of a word and a constant, if it is one of a bound.
    fn limited(&mut self, test: u32, operand: Operand, number: u16, at: u32) -> Option<Branch> {
        if number == 0 && matches!(test, 2 | 3) {
            self.refuse(Why::AlwaysOrNever, at);
        }
        match bounded(test, number) {
            Some((most, within)) => {
                let register = self.word_of(operand);
                Some(Branch {
                    instr: with_number(Opcode::Chk, register, 0, most),
                    where_true: !within,
                })
            }
            None => None,
        }
    }

    fn branch(&mut self, test: u32, left: Operand, right: Operand, at: u32) -> Branch {
        let limited = if right.is_constant() {
            self.limited(test, left, right.value, at)
        } else if left.is_constant() {
            self.limited(turned(test), right, left.value, at)
        } else {
            None
        };
        match limited {
            Some(branch) => branch,
            None => self.compared(test, left, right),
        }
    }

    /// Places a test. If the condition does not hold, control leaves to the end of a block.
    fn place_test(&mut self, branch: &Branch, no: u16, at: u32) {
        let yes = if branch.where_true {
            self.block(at)
        } else {
            no
        };
        self.test_to(branch.instr, yes, at);
        if branch.instr.opcode == Opcode::Sne {
            // Two blocks differ after a comparison that did not leave.
            self.state.facts |= pair(branch.instr.a, branch.instr.b);
        }
        if branch.where_true {
            self.leave(no, at);
            self.end(at);
        }
    }

    /// A test of a condition: it leaves its alternative, whose block began last, if it does not hold.
    pub(crate) fn test(&mut self, item: &Item) {
        let at = item.at;
        let right = self.operand(0, at);
        let left = self.operand(1, at);
        let branch = if item.a >= 6 {
            // Whether two blocks differ, for 6, or are one, for 7.
            let one = self.slot_of(left);
            let other = self.slot_of(right);
            Branch {
                instr: with_registers(Opcode::Sne, one, other, 0),
                where_true: item.a == 7,
            }
        } else {
            self.branch(item.a, left, right, at)
        };
        let no = self.innermost_level();
        self.place_test(&branch, no, at);
        self.clear();
    }

    /// A condition begins, with the blocks that its answers lead to: the end of all, of what follows if it holds, and of itself.
    pub(crate) fn conditional(&mut self, item: &Item) {
        let mut frame = self.frame(Construct::If, item.at);
        frame.level = self.block(item.at);
        self.block(item.at);
        self.block(item.at);
        self.begin(frame);
    }

    /// An alternative ends: its tests hold.
    pub(crate) fn alternative_end(&mut self, at: u32) {
        let around = self.innermost_level().saturating_sub(1);
        self.leave_and_end(around, at);
    }

    /// The brackets around a condition begin: a block to whose end an alternative leaves that holds. If `!` is before them, it is within a
    /// block to whose end control leaves if none holds.
    pub(crate) fn group(&mut self, item: &Item) {
        if item.a != 0 {
            self.block(item.at);
        }
        self.block(item.at);
    }

    /// The brackets around a condition end. If their test fails, control leaves the alternative that contains them.
    pub(crate) fn group_end(&mut self, item: &Item) {
        self.alternative_end(item.at);
        if item.a != 0 {
            self.alternative_end(item.at);
        }
    }

    /// All alternatives are over: none holds. Then the statements follow for which one does.
    pub(crate) fn condition_end(&mut self, at: u32) {
        let frame = self.innermost(at);
        let no = if matches!(frame.construct, Construct::If) {
            frame.level.saturating_add(1)
        } else {
            frame.level
        };
        self.leave_and_end(no, at);
    }

    /// The statements for which the condition holds are over.
    pub(crate) fn otherwise(&mut self, at: u32) {
        let frame = self.innermost(at);
        self.leave_and_end(frame.level, at);
        self.restore(&frame);
    }
}
