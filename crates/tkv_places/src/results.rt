//! Several results of a call.

use crate::placer::{MOST_WORDS, Placer, Running, Sort};
use crate::state::{WHY, below, bit};
use tkv_syntax::{Item, ItemKind, Why};

/// How many results a routine has, by the item that declares it.
pub(crate) fn results_of(head: &Item) -> u8 {
    (head.a / 8).min(7) as u8
}

/// Values that are moved to the words of results, one word after another.
#[derive(Clone, Copy)]
struct Giving {
    /// The first of the values, and the word of the first result.
    base: usize,
    first: u8,
    count: u8,
    /// The numbers of the values that are not moved yet.
    left: u32,
}

impl Giving {
    /// The word of a result.
    fn word(&self, k: u8) -> u8 {
        self.first.saturating_add(k)
    }

    /// Whether a value is still to be moved that is not the value `beside`.
    fn waits(&self, k: u8, beside: u8) -> bool {
        k != beside && self.left & bit(k) != 0
    }
}

impl Placer {
    /// Refuses a call that gives several words as a part of a value. `let`, or what sets several names, says itself how many it takes.
    pub(crate) fn check_several(&mut self, gives: u8, at: u32) {
        let taken = match self.declared.item(self.next) {
            Some(item) => matches!(item.kind, ItemKind::Let | ItemKind::Assign | ItemKind::Done),
            None => false,
        };
        if gives > 1 && !taken {
            self.refuse_for(Why::Several, at, at, u16::from(gives));
        }
    }

    /// Refuses a path of a routine that does not return all of its results, or more.
    pub(crate) fn refuse_returns(&mut self, gives: u8, at: u32) {
        self.refuse_for(Why::Returns, at, at, u16::from(gives));
    }

    /// The words for the results of a routine: the first one.
    pub(crate) fn result_words(&mut self, gives: u8, count: usize, at: u32) -> u8 {
        let register = if gives == 0 {
            0
        } else {
            self.lowest(count, at)
        };
        if register.saturating_add(gives) > MOST_WORDS {
            self.refuse_words(at);
        }
        register
    }

    /// The place of another value that is still to be moved and is in the word of result `k`.
    fn waiting_in(&self, giving: &Giving, k: u8) -> Option<usize> {
        for other in 0..giving.count {
            let index = giving.base.saturating_add(usize::from(other));
            if giving.waits(other, k)
                && let Some(operand) = self.operands.get(index)
                && !operand.is_constant()
                && operand.register == giving.word(k)
            {
                return Some(index);
            }
        }
        None
    }

    /// The value that is moved next: the last one whose word no other one is in, otherwise the last one.
    fn moved_next(&self, giving: &Giving) -> u8 {
        let mut free = 255;
        let mut last = 0;
        for k in 0..giving.count {
            if giving.waits(k, 255) {
                last = k;
                if self.waiting_in(giving, k).is_none() {
                    free = k;
                }
            }
        }
        if free == 255 { last } else { free }
    }

    /// Moves the values away that are in the word of result `k`, to w7 if that is free.
    fn move_away(&mut self, giving: &Giving, k: u8, at: u32) {
        for _ in 0..giving.count {
            let Some(index) = self.waiting_in(giving, k) else {
                return;
            };
            let to = if self.is_spare() {
                WHY
            } else {
                self.take_word(at)
            };
            if let Some(operand) = self.operands.get(index).copied() {
                self.move_to(operand, to, at);
            }
            if let Some(moved) = self.operands.get_mut(index) {
                moved.sort = Sort::Temporary;
                moved.register = to;
            }
        }
    }

    /// Moves the last values to the words of the results.
    pub(crate) fn move_results(&mut self, running: &Running, at: u32) {
        let count = running.gives;
        let mut giving = Giving {
            base: self.operands.len().saturating_sub(usize::from(count)),
            first: running.register,
            count,
            left: below(count),
        };
        for _ in 0..count {
            let k = self.moved_next(&giving);
            self.move_away(&giving, k, at);
            let index = giving.base.saturating_add(usize::from(k));
            if let Some(operand) = self.operands.get(index).copied() {
                self.move_to(operand, giving.word(k), at);
            }
            giving.left &= !bit(k);
        }
    }
}
