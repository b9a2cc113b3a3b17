//! Tests: calls of public routines, with what each is to print.

use crate::fault::Why;
use crate::parser::Parser;
use crate::token::character;
use crate::words::{Word, byte_at};

/// The most characters of a test's name.
const MOST_NAME: u32 = 64;

/// What a part of a test is. `TestPart` has the fields that are named here.
#[derive(Clone, Copy)]
pub enum TestKind {
    /// A test begins, whose name is from its offset to `a`.
    Begin,
    /// A call of the routine with the name.
    Call,
    /// An argument of the call: the constant `a`.
    Argument,
    /// What the call is to print follows.
    Prints,
    /// A word that it is to print: the constant `a`.
    Printed,
    /// The call is to be refused with the constant `a`.
    Refused,
}

/// A part of a test, with its offset in the source.
#[derive(Clone, Copy)]
pub struct TestPart {
    pub kind: TestKind,
    pub at: u32,
    pub a: u32,
}

impl Parser {
    fn add_part(&mut self, kind: TestKind, at: u32, a: u32) {
        if self.tests.push(TestPart { kind, at, a }).is_err() {
            self.refuse(Why::Memory, at);
        }
    }

    /// Whether a test begins here. Elsewhere `test` is a name.
    pub(crate) fn is_test(&self) -> bool {
        self.is(Word::Named) && self.is_named(self.token.at, "test")
    }

    /// The name of a test, in quotes.
    fn title(&mut self) {
        if !self.is(Word::Quote) {
            return self.refuse_word(Word::Quote);
        }
        let at = self.token.end;
        let mut end = at;
        for _ in 0..MOST_NAME {
            match character(&self.text, end) {
                Some(found) if byte_at(&self.text, end as usize) != b'"' => end = found.end,
                _ => break,
            }
        }
        if end == at || byte_at(&self.text, end as usize) != b'"' {
            return self.refuse(Why::BadText, self.token.at);
        }
        self.add_part(TestKind::Begin, at, end);
        self.token.end = end.saturating_add(1);
        self.advance();
    }

    /// Constants up to a word, with commas between them.
    fn constants(&mut self, kind: TestKind, end: Word) {
        if self.takes(end) {
            return;
        }
        for _ in 0..self.text.len() {
            let at = self.token.at;
            let a = self.constant();
            self.add_part(kind, at, a);
            if !self.takes(Word::Comma) {
                break;
            }
        }
        self.expect(end);
    }

    /// What a call is to print, after `=>`.
    fn result(&mut self) {
        let at = self.token.at;
        self.add_part(TestKind::Prints, at, 0);
        if self.is(Word::Named) && self.is_named(at, "refused") {
            self.advance();
            let a = self.constant();
            self.add_part(TestKind::Refused, at, a);
            self.expect(Word::Stop);
        } else {
            self.constants(TestKind::Printed, Word::Stop);
        }
    }

    fn test_call(&mut self) {
        let at = self.expect(Word::Named);
        self.add_part(TestKind::Call, at, 0);
        self.expect(Word::Paren);
        self.constants(TestKind::Argument, Word::ParenEnd);
        if self.takes(Word::Gives) {
            self.result();
        } else {
            self.expect(Word::Stop);
        }
    }

    /// A test.
    pub(crate) fn test_block(&mut self) {
        self.advance();
        self.title();
        self.expect(Word::Brace);
        for _ in 0..self.text.len() {
            if self.is(Word::BraceEnd) || self.is(Word::End) {
                break;
            }
            self.test_call();
        }
        self.expect(Word::BraceEnd);
    }
}
