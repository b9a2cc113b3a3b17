//! Sentences, which are written part by part.

use crate::phrases::Phrase;
use geos_image::{Opcode, Row, SlotState};
use geos_listing::{put_items, state_word};
use geos_text::put_numbered;
use std::alloc::{AllocError, Global};

/// One text if there is one thing, and otherwise the other.
pub(crate) fn either(one: bool, single: &'static str, several: &'static str) -> &'static str {
    if one { single } else { several }
}

/// One phrase if there is one thing, and otherwise the other.
pub(crate) fn choose(one: bool, single: Phrase, several: Phrase) -> Phrase {
    if one { single } else { several }
}

/// What is written for a mark of a phrase.
#[derive(Clone, Copy)]
pub(crate) enum Fact {
    /// Nothing.
    Nothing,
    /// The number of a register or a counter.
    Index(u8),
    /// A number of 16 bits.
    Count(u16),
    /// A number.
    Number(u64),
    /// An instruction, by its line, or without a text by its pc.
    Line(u16),
    /// A slot and what it holds.
    Slot(u8, SlotState),
    /// The word of an opcode.
    Word(Opcode),
    /// A phrase without marks.
    Phrase(Phrase),
}

/// What was written so far. After an allocation was refused, only that counts.
#[derive(Drop)]
pub(crate) struct Saying {
    pub out: Vec<u8>,
    /// The line of each instruction in the text; without a text nothing.
    pub lines: Vec<u32>,
    /// Whether an allocation was refused.
    refused: bool,
}

impl Saying {
    /// Nothing was written.
    pub fn new(alloc: Global, lines: &[u32]) -> Saying {
        let mut kept = Vec::new(alloc);
        let refused = kept.extend_from_slice(lines).is_err();
        Saying {
            out: Vec::new(alloc),
            lines: kept,
            refused,
        }
    }

    /// All that was written.
    pub fn finish(self) -> Result<Vec<u8>, AllocError> {
        if self.refused {
            Err(AllocError)
        } else {
            Ok(self.out)
        }
    }

    /// How many bytes were written.
    pub fn len(&self) -> usize {
        self.out.len()
    }

    /// Something was written, or an allocation was refused.
    pub fn note(&mut self, done: Result<(), AllocError>) {
        self.refused = self.refused || done.is_err();
    }

    /// Writes bytes.
    fn bytes(&mut self, bytes: &[u8]) {
        let done = self.out.extend_from_slice(bytes);
        self.note(done);
    }

    /// Writes words.
    pub fn text(&mut self, words: &str) -> &mut Saying {
        self.bytes(words.as_bytes());
        self
    }

    /// Writes words, and a number after them.
    pub fn number(&mut self, words: &str, number: u64) -> &mut Saying {
        let done = put_numbered(&mut self.out, words, number);
        self.note(done);
        self
    }

    /// Writes words, and a name after them.
    pub fn name(&mut self, words: &str, name: &[u8]) -> &mut Saying {
        self.bytes(words.as_bytes());
        self.bytes(name);
        self
    }

    /// Writes the line of an instruction, or without a text its pc after the words.
    pub fn put_pc(&mut self, pc: u16, words: &str) {
        let line = self.lines.get(usize::from(pc)).copied();
        let done = match line {
            Some(line) => put_numbered(&mut self.out, " line ", line as u64),
            None => put_numbered(&mut self.out, words, pc as u64),
        };
        self.note(done)
    }

    /// Writes a number in decimal digits.
    fn put_number(&mut self, number: u64) {
        let done = put_numbered(&mut self.out, "", number);
        self.note(done)
    }

    /// Writes a slot and what it holds.
    pub fn slot(&mut self, a: u8, state: SlotState) {
        self.number(" s", a as u64)
            .name("=", state_word(state).as_bytes());
    }

    /// Writes what stands for a mark.
    fn put_fact(&mut self, fact: Fact) {
        match fact {
            Fact::Nothing => {}
            Fact::Index(number) => self.put_number(number as u64),
            Fact::Count(number) => self.put_number(number as u64),
            Fact::Number(number) => self.put_number(number),
            Fact::Line(pc) => self.put_pc(pc, " "),
            Fact::Slot(a, state) => self.slot(a, state),
            Fact::Word(opcode) => self.bytes(opcode.word().as_bytes()),
            Fact::Phrase(phrase) => self.put(phrase),
        }
    }

    /// Writes words: for each `#` the next fact, and for each `%` the name.
    fn fill(&mut self, words: &str, name: &[u8], facts: [Fact; 3]) {
        let mut next: usize = 0;
        for mark in words.as_bytes() {
            match *mark {
                b'#' => {
                    if let Some(fact) = facts.get(next) {
                        self.put_fact(*fact);
                    }
                    next = next.saturating_add(1);
                }
                b'%' => self.bytes(name),
                byte => self.bytes(&[byte]),
            }
        }
    }

    /// Writes a phrase without marks.
    pub fn put(&mut self, phrase: Phrase) {
        self.bytes(phrase.words().as_bytes())
    }

    /// Writes a phrase with a fact: see `fill`.
    pub fn put1(&mut self, phrase: Phrase, first: Fact) {
        self.fill(phrase.words(), b"", [first, Fact::Nothing, Fact::Nothing])
    }

    /// The same with two facts.
    pub fn put2(&mut self, phrase: Phrase, first: Fact, second: Fact) {
        self.fill(phrase.words(), b"", [first, second, Fact::Nothing])
    }

    /// The same with three facts.
    pub fn put3(&mut self, phrase: Phrase, first: Fact, second: Fact, third: Fact) {
        self.fill(phrase.words(), b"", [first, second, third])
    }

    /// The same with a name, and a fact.
    pub fn put_of(&mut self, phrase: Phrase, name: &[u8], fact: Fact) {
        self.fill(phrase.words(), name, [fact, Fact::Nothing, Fact::Nothing])
    }

    /// The same with a name, and two facts.
    pub fn put_of2(&mut self, phrase: Phrase, name: &[u8], first: Fact, second: Fact) {
        self.fill(phrase.words(), name, [first, second, Fact::Nothing])
    }

    /// Writes words with two numbers.
    pub fn say2(&mut self, words: &str, first: u64, second: u64) -> &mut Saying {
        let facts = [Fact::Number(first), Fact::Number(second), Fact::Nothing];
        self.fill(words, b"", facts);
        self
    }

    /// Writes words with a name, and a number.
    pub fn say_of(&mut self, words: &str, name: &[u8], number: u64) -> &mut Saying {
        let facts = [Fact::Number(number), Fact::Nothing, Fact::Nothing];
        self.fill(words, name, facts);
        self
    }

    /// Writes the items of a row.
    pub fn put_items(&mut self, row: &Row) {
        let done = put_items(&mut self.out, row);
        self.note(done);
    }

    /// Whether one item was written from a place on: each begins with a blank, and has no other.
    pub fn is_one(&self, before: usize) -> bool {
        let mut blanks: u32 = 0;
        if let Some(items) = self.out.get(before..) {
            for c in items {
                if *c == b' ' {
                    blanks = blanks.saturating_add(1);
                }
            }
        }
        blanks == 1
    }

    /// Writes that the items from a place on are something, or the one is.
    pub fn put_are(&mut self, before: usize, what: Phrase) {
        let one = self.is_one(before);
        self.put(choose(one, Phrase::Is, Phrase::Are));
        self.put(what)
    }

    /// Writes the items of a row after a semicolon, where they are, and that they are something; nothing for the open row.
    pub fn put_also(&mut self, row: &Row, place: Phrase, what: Phrase) {
        let start = self.len();
        self.put(Phrase::Semicolon);
        let before = self.len();
        self.put_items(row);
        if self.len() == before {
            self.out.truncate(start);
            return;
        }
        let one = self.is_one(before);
        self.put(place);
        self.put(choose(one, Phrase::Is, Phrase::Are));
        self.put(what)
    }
}
