//! Which slots are in use: a bit for each, so the lowest free one is found in a few words.
ghost use Rattle.std.specs.Prelude.{◌≡◌, ℕ, ◌+◌, ◌*◌, ◌<◌, ◌≤◌, length, IfOk, IfSome, IfNone};

use std::alloc::{AllocError, Global};

const WORDS: usize = 32;

const WORD_BITS: usize = u64::BITS as usize;

/// A set of slots.
#[derive(Drop)]
pub(crate) struct SlotSet {
    pub(crate) words: Vec<u64>,
}

impl SlotSet {
    ghost use Rattle.block_handles.specs.Bits.{bit_of, SetsBit, IsLowestFree};

    /// No slot.
    pub(crate) fn new(alloc: Global) -> Result<SlotSet, AllocError>
        ensures { IfOk result (λ set. (length set.words.items ≡ 32) × ((slot : ℕ) → bit_of set.words.items slot ≡ 0)) }
    {
        let mut words = Vec::new(alloc);
        for _ in 0..WORDS {
            words.push(0)?;
        }
        Ok(SlotSet { words })
    }

    pub(crate) fn insert(&mut self, slot: usize)
        requires { (slot < 2048) × (length self.old.words.items ≡ 32) }
        ensures { SetsBit self.old.words.items self.new.words.items slot 1 }
    {
        self.words[slot / WORD_BITS] |= 1 << (slot % WORD_BITS);
    }

    pub(crate) fn remove(&mut self, slot: usize)
        requires { (slot < 2048) × (length self.old.words.items ≡ 32) }
        ensures { SetsBit self.old.words.items self.new.words.items slot 0 }
    {
        self.words[slot / WORD_BITS] &= !(1 << (slot % WORD_BITS));
    }

    /// The lowest slot that is not in the set, of the 1,024 from the word `first` on.
    pub(crate) fn lowest_free(&self, first: usize) -> Option<usize>
        requires { (first + 16 ≤ 32) × (length self.now.words.items ≡ 32) }
        ensures found { IfSome result (IsLowestFree self.now.words.items (64 * first)) }
        ensures none { IfNone result ((slot : ℕ) → 64 * first ≤ slot → slot < 64 * first + 1024 → bit_of self.now.words.items slot ≡ 1) }
    {
        for i in first..first + 16 {
            let word = self.words[i];
            if word != u64::MAX {
                return Some(WORD_BITS * i + word.trailing_ones() as usize);
            }
        }
        None
    }
}
