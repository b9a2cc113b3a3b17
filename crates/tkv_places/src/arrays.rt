//! Indexes of arrays: each is within its array, or a test before the access leaves.

use crate::access::Target;
use crate::placed::{NOWHERE, with_number};
use crate::placer::{Construct, Operand, Placer};
use crate::state::{WHY, bit};
use geos_opcodes::Opcode;
use tkv_syntax::{Item, Why};

/// What `why` is after an index past its array, as after an offset past the bytes of a pointer.
const PAST: u16 = 14;

impl Placer {
    /// The greatest number that a value may be.
    pub(crate) fn most_of(&self, operand: &Operand) -> u16 {
        if operand.is_constant() {
            operand.value
        } else {
            self.state.most_of(operand.register)
        }
    }

    /// Whether the routine that is placed is one that is not called, so that nothing is known of its parameters.
    fn is_uncalled(&self) -> bool {
        self.running
            .first()
            .is_some_and(|outermost| outermost.fails != NOWHERE)
    }

    /// The block to whose end the test of an index leaves: `why` is set after it, if a statement takes the refusal. Otherwise nothing reads `why`.
    fn index_way(&mut self, asks: bool, at: u32) -> u16 {
        let way = self.refusal_way(asks, at);
        for frame in &self.frames {
            let takes = matches!(frame.construct, Construct::Try | Construct::Handler);
            if takes && frame.level.saturating_add(1) == way {
                return way.saturating_add(1);
            }
        }
        way
    }

    /// Sets `why` after the block that tests of indexes leave to, if one does.
    pub(crate) fn indexes_end(&mut self, at: u32) {
        self.end(at);
        if self.state.alive {
            self.act(with_number(Opcode::Ldi, WHY, 0, PAST), at);
            self.state.facts |= bit(WHY);
        }
    }

    /// Refuses or tests an index that may be past the array of its field.
    pub(crate) fn test_index(&mut self, item: &Item, target: &mut Target, index: &Operand) {
        let at = item.at;
        let constant = index.is_constant();
        let word = if constant { 0 } else { self.word_of(*index) };
        let Some(last) = target.last_index(self.most_of(index)) else {
            return;
        };
        let asks = item.b != 0;
        if constant || index.value > 0 || target.count == 0 {
            // What a loop counts between constants comes to its last number.
            self.refuse_for(Why::PastArray, at, at, target.count);
        } else if asks || self.handler != NOWHERE {
            let way = self.index_way(asks, at);
            self.test_to(with_number(Opcode::Chk, word, 0, last), way, at);
            target.tested = true;
        } else if !self.is_uncalled() {
            self.refuse_for(Why::PastPerhaps, at, at, target.count);
        }
    }
}
