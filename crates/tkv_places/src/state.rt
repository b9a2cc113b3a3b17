//! What is known of the registers at a place: a set of facts as bits, and bounds of words.

use geos_image::Instr;
use geos_opcodes::{Opcode, Yields};

/// What is known where control comes to a place, if it does.
#[derive(Clone, Copy)]
pub(crate) struct State {
    /// Whether control comes there.
    pub alive: bool,
    /// The facts that hold: `bit(w)` if the word is set, `fetched(p)` if the pointer is not stale, `marked(s)` if the block of the slot is
    /// marked, and `pair(s, t)` if two slots hold different blocks.
    pub facts: u32,
    /// The greatest number that each word may be.
    pub most: [u16; 8],
}

/// Control does not come there.
pub(crate) const DEAD: State = State {
    alive: false,
    facts: 0,
    most: [u16::MAX; 8],
};

/// The register for the number of a refusal, and for constants.
pub(crate) const WHY: u8 = 7;

/// The set of one register; of a word, the fact that it is set.
pub(crate) fn bit(register: u8) -> u32 {
    if register < 8 {
        1 << u32::from(register)
    } else {
        0
    }
}

/// The set of the registers below one.
pub(crate) fn below(register: u8) -> u32 {
    bit(register).wrapping_sub(1) & 255
}

/// The fact that a pointer is not stale.
pub(crate) fn fetched(pointer: u8) -> u32 {
    bit(pointer) << 8
}

/// The fact that the block of a slot is marked.
pub(crate) fn marked(slot: u8) -> u32 {
    bit(slot) << 16
}

/// The facts on the pairs of which a slot is one: s0s1, s0s2, s0s3, s1s2, s1s3, s2s3.
pub(crate) fn pairs_of(slot: u8) -> u32 {
    match slot {
        0 => 7 << 24,
        1 => 25 << 24,
        2 => 42 << 24,
        3 => 52 << 24,
        _ => 0,
    }
}

/// The fact that two slots hold different blocks.
pub(crate) fn pair(one: u8, other: u8) -> u32 {
    pairs_of(one) & pairs_of(other)
}

/// The facts on blocks: on marks and pairs.
pub(crate) const BLOCKS: u32 = 0xffff_0000;

impl State {
    /// The join of two states.
    pub(crate) fn meet(self, other: State) -> State {
        if !self.alive {
            return other;
        }
        if !other.alive {
            return self;
        }
        let mut met = self;
        met.facts &= other.facts;
        for word in 0..8 {
            met.most[word] = met.most[word].max(other.most[word]);
        }
        met
    }

    /// The greatest number that a word may be.
    pub(crate) fn most_of(&self, word: u8) -> u16 {
        if word < 8 {
            self.most[usize::from(word)]
        } else {
            u16::MAX
        }
    }

    /// A word is at most a number.
    pub(crate) fn bound(&mut self, word: u8, most: u16) {
        if word < 8 {
            self.most[usize::from(word)] = most;
        }
    }

    /// Nothing is known of words that are not in a set.
    pub(crate) fn bound_only(&mut self, words: u32) {
        for word in 0..8 {
            if words & bit(word) == 0 {
                self.bound(word, u16::MAX);
            }
        }
    }

    /// The bound of what an instruction computes, as the verifier has it.
    fn computed(&self, instr: &Instr) -> u16 {
        let one = self.most_of(instr.b);
        match instr.opcode {
            Opcode::Ldi => instr.imm,
            Opcode::Mov => one,
            Opcode::Add => one.saturating_add(self.most_of(instr.c)),
            Opcode::And => one.min(instr.imm),
            Opcode::Shr => if instr.imm < 16 { one >> instr.imm } else { 0 },
            Opcode::Muli => one.saturating_mul(instr.imm),
            Opcode::Chk => self.most_of(instr.a).min(instr.imm),
            _ => u16::MAX,
        }
    }

    /// Bounds the words that an instruction sets, if control continues after it.
    pub(crate) fn bound_results(&mut self, instr: &Instr) {
        match instr.opcode.facts().yields {
            Yields::Nothing => {}
            Yields::Computed => self.bound(instr.a, self.computed(instr)),
            Yields::ByteInA => self.bound(instr.a, 255),
            Yields::WordInA => self.bound(instr.a, u16::MAX),
            Yields::WordInB => self.bound(instr.b, u16::MAX),
            Yields::WordInAAndB => {
                self.bound(instr.a, u16::MAX);
                self.bound(instr.b, u16::MAX);
            }
        }
    }

    /// Whether one of these facts is known.
    pub(crate) fn has(self, facts: u32) -> bool {
        self.facts & facts != 0
    }
}
