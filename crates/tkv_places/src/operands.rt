//! Values as operands of instructions.

ghost use Rattle.std.specs.Prelude.{◌<◌};

use crate::names::value;
use crate::placed::{NOWHERE, with_number, with_registers};
use crate::placer::{Held, MOST_WORDS, Operand, Placer, Sort};
use crate::state::{WHY, bit, fetched, marked};
use geos_opcodes::Opcode;
use tkv_syntax::{Fault, Why, Word};

impl Placer {
    /// The value that so many values follow.
    pub(crate) fn operand(&mut self, after: usize, at: u32) -> Operand {
        let count = self.operands.len();
        if count.saturating_sub(self.floor) > after
            && let Some(operand) = self.operands.get(count - 1 - after)
        {
            return *operand;
        }
        self.refuse(Why::ExpectedValue, at);
        value(Sort::Constant, at, 0, 0)
    }

    /// How many values the statement has, of which the last one is no structure within another one.
    pub(crate) fn operand_count(&mut self) -> usize {
        if let Some(last) = self.operands.last().copied()
            && matches!(last.sort, Sort::Part)
        {
            self.refuse_part(last.at);
        }
        self.operands.len().saturating_sub(self.floor)
    }

    /// Refuses a structure within another one as a value.
    pub(crate) fn refuse_part(&mut self, at: u32) {
        self.refuse_with(Fault {
            word: Word::Dot,
            ..Fault::new(Why::NoWordHere, at)
        });
    }

    /// Takes so many values away, with the words that only they take.
    pub(crate) fn take_values(&mut self, count: usize) {
        for _ in 0..count {
            if let Some(operand) = self.operands.pop()
                && operand.is_temporary()
                && operand.register < self.words
            {
                self.words = operand.register;
            }
        }
        if self.words < self.named {
            self.words = self.named;
        }
    }

    /// Whether w7 keeps neither the number of a refusal nor a value.
    pub(crate) fn is_spare(&self) -> bool {
        for operand in &self.operands {
            if operand.is_temporary() && operand.register == WHY {
                return false;
            }
        }
        !self.state.has(bit(WHY))
    }

    /// Loads a constant as an operand: into w7 if that has nothing to keep, otherwise into a free word.
    fn load(&mut self, constant: u16, at: u32) -> u8 {
        let spare = !self.spare_taken && self.is_spare();
        let register = if spare { WHY } else { self.take_word(at) };
        let taken = self.spare_taken;
        self.act(with_number(Opcode::Ldi, register, 0, constant), at);
        self.spare_taken = taken || spare;
        register
    }

    /// The word that has a value. A constant is loaded.
    pub(crate) fn word_of(&mut self, operand: Operand) -> u8 {
        match operand.sort {
            Sort::Constant => self.load(operand.value, operand.at),
            Sort::Temporary | Sort::Handle => operand.register,
            Sort::Word => {
                if !self.state.has(bit(operand.register)) {
                    self.refuse_unknown(Why::Unset, operand.at);
                }
                operand.register
            }
            Sort::Why => {
                if !self.state.has(bit(WHY)) {
                    self.refuse_unknown(Why::WhyUnknown, operand.at);
                }
                WHY
            }
            Sort::Part => {
                self.refuse_part(operand.at);
                0
            }
            Sort::Block | Sort::Pointer | Sort::Structure => {
                self.refuse(Why::NoWordHere, operand.at);
                0
            }
        }
    }

    /// The slot of a block.
    pub(crate) fn slot_of(&mut self, operand: Operand) -> u8
        ensures { result < 4 }
    {
        if !matches!(operand.sort, Sort::Block) || operand.register >= 4 {
            self.refuse(Why::NoBlock, operand.at);
            return 0;
        }
        operand.register
    }

    /// A pointer that is not stale.
    pub(crate) fn pointer_of(&mut self, operand: Operand) -> u8
        ensures { result < 4 }
    {
        if !operand.is_pointer() || operand.register >= 4 {
            self.refuse(Why::NoPointer, operand.at);
            return 0;
        }
        if !self.state.has(fetched(operand.register)) {
            let loss = self.lost[usize::from(operand.register)];
            if loss.lost && self.state.alive {
                self.refuse_for(Why::Stale, operand.at, loss.by, 0);
            } else {
                self.refuse_unknown(Why::NotFetched, operand.at);
            }
        }
        operand.register
    }

    /// The number of a constant or of a structure's bytes.
    pub(crate) fn number_of(&mut self, operand: Operand) -> u16 {
        if self.may_be_constant(&operand) {
            return 65_535;
        }
        if !matches!(operand.sort, Sort::Constant | Sort::Structure) {
            self.refuse(Why::NoConstant, operand.at);
        }
        operand.value
    }

    /// The word for the result of an operation on so many values: the lowest that they take, or the lowest free one.
    pub(crate) fn lowest(&mut self, count: usize, at: u32) -> u8 {
        let mut register = self.words;
        for k in 0..count {
            let operand = self.operand(k, at);
            if operand.is_temporary() && operand.register < register {
                register = operand.register;
            }
        }
        if register < MOST_WORDS {
            return register;
        }
        if !self.is_spare() {
            self.refuse_words(at);
        }
        WHY
    }

    /// A word for the result of an operation: the lowest that is free, or at last w7, which the next instruction is to take.
    pub(crate) fn push_result(&mut self, at: u32) -> u8 {
        let register = if self.words >= MOST_WORDS && self.is_spare() {
            WHY
        } else {
            self.take_word(at)
        };
        self.push(value(Sort::Temporary, at, register, 0));
        register
    }

    /// Puts a value into a word.
    pub(crate) fn move_to(&mut self, operand: Operand, to: u8, at: u32) {
        if operand.is_constant() {
            return self.act(with_number(Opcode::Ldi, to, 0, operand.value), at);
        }
        let from = self.word_of(operand);
        if from == to || (operand.is_temporary() && self.retarget(from, to)) {
            return;
        }
        self.act(with_registers(Opcode::Mov, to, from, 0), at);
    }

    /// Marks the block of a slot, if it has a mark and it is not known to be set.
    pub(crate) fn mark(&mut self, slot: u8, at: u32) {
        let opcode = match self.held(slot) {
            Held::Free | Held::Mem => return,
            Held::Vm | Held::Lent => Opcode::Vdirty,
            Held::Group => Opcode::Idirty,
        };
        if self.state.has(marked(slot)) {
            return;
        }
        let taken = self.spare_taken;
        self.act(with_registers(opcode, slot, 0, 0), at);
        self.spare_taken = taken;
        self.state.facts |= marked(slot);
    }

    /// The target of a refusal: out of the routine if `?` follows, otherwise the handler of the statement.
    pub(crate) fn refusal_way(&mut self, asks: bool, at: u32) -> u16 {
        if asks {
            return self.way_out(at);
        }
        if self.handler == NOWHERE {
            self.refuse_unknown(Why::Unsaid, at);
        }
        self.handler
    }
}
