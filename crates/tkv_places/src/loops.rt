//! Loops. A loop is within a block, to whose end `break` leaves, and contains a block, to whose end `continue` leaves.

use crate::names::value;
use crate::placed::{NOWHERE, PlacedKind, with_number, with_registers};
use crate::placer::{Construct, Frame, MOST_WORDS, Meaning, Operand, Placer, Sort, Turns, added};
use crate::state::{BLOCKS, WHY, below, bit};
use geos_opcodes::Opcode;
use tkv_syntax::{Item, Why};

/// No word counts.
const UNCOUNTED: u8 = 255;

/// What a loop counts: from a value to another one, by a step.
#[derive(Clone, Copy)]
struct Counting {
    low: Operand,
    high: Operand,
    step: u16,
    counter: u8,
}

impl Counting {
    /// Whether the number of turns is known.
    fn is_known(&self) -> bool {
        self.low.is_constant() && self.high.is_constant()
    }

    /// How many turns follow the first one if the number of turns is known, and there is one.
    fn more(&self) -> Option<u16> {
        let span = self.high.value.saturating_sub(self.low.value);
        if !self.is_known() || span == 0 || self.step == 0 {
            return None;
        }
        Some((span - 1) / self.step)
    }

    /// The last number that is counted; 0 if it is not known.
    fn last(&self) -> u16 {
        match self.more() {
            Some(more) => self
                .low
                .value
                .saturating_add(more.saturating_mul(self.step)),
            None => 0,
        }
    }
}

impl Placer {
    /// The turns begin, with what holds in each of them.
    fn begin_turns(&mut self, frame: Frame, counted: u8, step: u16, counts_first: bool) {
        let at = frame.at;
        let words = (self.needed_words() | below(self.callers)) & !bit(WHY);
        self.state.facts &= words | (below(self.named_pointers) << 8) | BLOCKS;
        self.state.bound_only(words);
        let kind = if counts_first {
            PlacedKind::Count
        } else {
            PlacedKind::Loop
        };
        self.enter(
            kind,
            with_registers(Opcode::Loop, frame.register, 0, 0),
            255,
            at,
        );
        self.block(at);
        self.begin(frame);
        let turns = Turns {
            counted,
            step,
            head: self.state,
            counts_first,
        };
        let kept = added(&mut self.turns, turns);
        self.keep(kept, at);
    }

    /// A loop with its counter, in two blocks: `break` leaves to the end of the outer one, and a loop without iterations to the end of the inner
    /// one, where `else` follows.
    fn loop_frame(&mut self, construct: Construct, at: u32) -> Frame {
        let mut frame = self.frame(construct, at);
        if self.counters >= 4 {
            self.refuse(Why::NoCounterLeft, at);
            return frame;
        }
        frame.register = self.counters;
        self.counters = frame.register + 1;
        frame.level = self.block(at);
        self.block(at);
        frame
    }

    /// `while` and `loop`: at most so many turns.
    pub(crate) fn bounded_turns(&mut self, item: &Item) {
        let at = item.at;
        let most = self.constant(item.a);
        if most == 0 {
            return self.refuse(Why::NoTurn, at);
        }
        let frame = self.loop_frame(Construct::Turns, at);
        self.act(with_number(Opcode::Setk, frame.register, 0, most - 1), at);
        self.foresee(at);
        self.begin_turns(frame, UNCOUNTED, 1, false);
        if item.b != 0 {
            self.block(at);
        }
    }

    /// The word that counts, set to the value at which counting begins. The value at which it ends is read later if it is no constant.
    fn counting_word(&mut self, low: Operand, high: Operand, at: u32) -> u8 {
        let register = if low.is_temporary() && low.register < MOST_WORDS {
            low.register
        } else {
            let register = match self.freed_word() {
                Some(register) if high.is_constant() || register != high.register => register,
                _ => self.take_word(at),
            };
            self.move_to(low, register, at);
            register
        };
        self.keep_word(register);
        self.state.facts |= bit(register);
        register
    }

    /// Turns from one word to another. If the first is above the second, control leaves to the end of the block `level`.
    fn turns_between(&mut self, counting: &Counting, from: u8, level: u16, at: u32) {
        let register = self.word_of(counting.high);
        self.test_to(with_registers(Opcode::Blt, register, from, 0), level, at);
        let count = self.take_word(at);
        self.act(with_registers(Opcode::Sub, count, register, from), at);
        self.act(
            with_registers(Opcode::Setkw, counting.counter, count, 0),
            at,
        );
    }

    /// Sets the counter and the word that counts, if one is to; which one.
    fn count_from(&mut self, counting: &Counting, level: u16, speaks: bool, at: u32) -> u8 {
        let low = counting.low;
        if let Some(more) = counting.more() {
            self.act(with_number(Opcode::Setk, counting.counter, 0, more), at);
        } else if counting.is_known() {
            self.refuse(Why::NoTurn, at);
        } else if counting.step != 1 && self.given == 0 {
            self.refuse(Why::NoConstant, at);
        } else if low.is_constant() && low.value == 0 {
            let high = self.word_of(counting.high);
            self.act(with_registers(Opcode::Setkw, counting.counter, high, 0), at);
        } else {
            let from = self.counting_word(low, counting.high, at);
            self.turns_between(counting, from, level, at);
            return from;
        }
        self.clear();
        if speaks {
            self.counting_word(low, low, at)
        } else {
            UNCOUNTED
        }
    }

    /// `for`: the two values before it are where counting begins, and where it ends.
    pub(crate) fn count(&mut self, item: &Item) {
        let at = item.at;
        let step = self.constant(item.a);
        let high = self.operand(0, at);
        let low = self.operand(1, at);
        if step == 0 || self.operand_count() != 2 {
            return self.refuse(Why::NoTurn, at);
        }
        let frame = self.loop_frame(Construct::For, at);
        let counting = Counting {
            low,
            high,
            step,
            counter: frame.register,
        };
        let speaks = self.foresee(at);
        let none = frame.level.saturating_add(1);
        // With a step the end is a constant.
        let most = if counting.is_known() {
            counting.last()
        } else {
            self.most_of(&high).saturating_sub(1)
        };
        let counted = self.count_from(&counting, none, speaks, at);
        self.clear();
        if counted != UNCOUNTED {
            self.declare(Meaning::Fixed, at, counted, counting.last(), NOWHERE);
            self.keep_word(counted);
            self.state.bound(counted, most);
        }
        self.begin_turns(frame, counted, step, !counting.is_known());
    }

    /// A turn is over: the next one follows, if one is left.
    pub(crate) fn turn_end(&mut self, at: u32) {
        let frame = self.innermost(at);
        let Some(turns) = self.turns.pop() else {
            return self.refuse(Why::Unreached, at);
        };
        self.restore(&frame);
        if turns.counted != UNCOUNTED {
            self.keep_word(turns.counted);
        }
        self.end(at);
        if self.state.alive && turns.counted != UNCOUNTED {
            let step = self.word_of(value(Sort::Constant, at, 0, turns.step));
            let by = with_registers(Opcode::Add, turns.counted, turns.counted, step);
            self.act(by, at);
            self.clear();
        }
        if self.state.alive && turns.head.has(!self.state.facts) {
            self.refuse_for(Why::NotFetched, at, frame.at, 0);
        }
        if turns.counts_first {
            self.state = self.state.meet(turns.head);
        }
        self.end(at);
        self.end(at);
        self.counters = self.counters.saturating_sub(1);
        // `break` and `continue` in the `else` belong to the loop around this one.
        self.turn_into(Construct::Scope);
    }
}
