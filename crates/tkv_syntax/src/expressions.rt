//! Values and conditions. Operations that wait for their second value are in the list of open constructs.

use crate::fault::Why;
use crate::item::{Item, ItemKind, NONE};
use crate::parser::{Parser, Part};
use crate::token::{Token, next_token};
use crate::words::Word;

/// The operation of a sign, and how strongly it binds.
fn operation(word: Word) -> Option<(ItemKind, u8)> {
    match word {
        Word::Mask => Some((ItemKind::Mask, 1)),
        Word::Left => Some((ItemKind::Left, 2)),
        Word::Right => Some((ItemKind::Right, 2)),
        Word::Plus => Some((ItemKind::Add, 3)),
        Word::Minus => Some((ItemKind::Sub, 3)),
        Word::Times => Some((ItemKind::Mul, 4)),
        Word::Over => Some((ItemKind::Div, 4)),
        Word::Rest => Some((ItemKind::Rem, 4)),
        _ => None,
    }
}

/// The comparison of a sign; the opposite of an even one is the next one.
fn comparison(word: Word) -> Option<u32> {
    match word {
        Word::Same => Some(0),
        Word::Unlike => Some(1),
        Word::Less => Some(2),
        Word::AtLeast => Some(3),
        Word::More => Some(4),
        Word::AtMost => Some(5),
        _ => None,
    }
}

/// Whether the word is one between values or tests of a condition.
fn is_truth(word: Word) -> bool {
    comparison(word).is_some() || matches!(word, Word::Both | Word::Either)
}

/// The most brackets around conditions that are open at once.
const MOST_BRACKETS: usize = 16;

/// What comes next within a value.
#[derive(Clone, Copy)]
enum Next {
    /// A value, or what begins one.
    Operand,
    /// What follows a value.
    Operator,
    Nothing,
}

impl Parser {
    /// The innermost construct that is not closed, of those that began after so many others.
    pub(crate) fn innermost(&self, base: usize) -> Part {
        match self.pending.last() {
            Some(pending) if self.pending.len() > base => pending.part,
            _ => Part::Nothing,
        }
    }

    /// The innermost construct is closed: adds what it adds then.
    fn close_innermost(&mut self) {
        if let Some(pending) = self.pending.pop() {
            self.put(pending.item);
        }
    }

    /// Adds the operations that bind at least so strongly and have their second value now.
    fn settle(&mut self, base: usize, level: u8) {
        for _ in 0..self.pending.len() {
            match self.innermost(base) {
                Part::Operation(binds) if binds >= level => self.close_innermost(),
                _ => break,
            }
        }
    }

    /// A name, or a call of it up to its first argument.
    fn named(&mut self, at: u32) -> Next {
        if !self.takes(Word::Paren) {
            self.put_plain(ItemKind::Named, at);
            return Next::Operator;
        }
        if self.takes(Word::ParenEnd) {
            self.put_plain(ItemKind::Call, at);
            return Next::Operator;
        }
        self.begin_part(Part::Call, ItemKind::Call, at, 1);
        let makes = self.is_named(at, "mnew") || self.is_named(at, "vnew");
        if makes && self.is(Word::Named) {
            let handle = self.expect(Word::Named);
            self.put_plain(ItemKind::Handle, handle);
            return Next::Operator;
        }
        Next::Operand
    }

    /// A value, or what begins one.
    fn operand(&mut self) -> Next {
        let Token {
            word,
            at,
            value,
            ..
        } = self.token;
        match word {
            Word::Number => {
                self.advance();
                self.add(ItemKind::Number, at, u32::from(value), 0);
            }
            Word::WhyWord => {
                self.advance();
                self.put_plain(ItemKind::WhyValue, at);
            }
            Word::Named => {
                self.advance();
                return self.named(at);
            }
            Word::Paren => {
                self.advance();
                self.begin_part(Part::Group, ItemKind::End, at, 0);
                return Next::Operand;
            }
            Word::Plus | Word::Minus | Word::Set => self.refuse(Why::NoSign, at),
            Word::Not => self.refuse(Why::NoTruth, at),
            Word::Quote => self.refuse(Why::Text, at),
            _ => {
                let why = if self.is_reserved() {
                    Why::Reserved
                } else {
                    Why::ExpectedValue
                };
                self.refuse(why, at);
            }
        }
        Next::Operator
    }

    /// A field after its dot, or what comes before its index.
    fn field(&mut self) -> Next {
        let around = match self.items.last() {
            Some(item) if matches!(item.kind, ItemKind::Field) => self.items.len(),
            _ => 0,
        };
        self.advance();
        let item = Item {
            c: around.min(NONE as usize) as u32,
            ..Item::new(ItemKind::Field, self.expect(Word::Named))
        };
        if self.takes(Word::Bracket) {
            self.wait(Part::Index, Item { a: 1, ..item });
            return Next::Operand;
        }
        self.put(item);
        Next::Operator
    }

    /// A `?`, which belongs to what precedes it, and to the fields around that.
    fn question(&mut self) -> Next {
        let at = self.expect(Word::Asks);
        let item = self.retract(Why::NotRefusable);
        match item.kind {
            ItemKind::Call => self.put(Item { b: 1, ..item }),
            ItemKind::Field => {
                self.ask_around(&item);
                self.put(Item {
                    b: item.b | 1,
                    ..item
                });
            }
            _ => self.refuse(Why::NotRefusable, at),
        }
        Next::Operator
    }

    /// Says of the fields around one that `?` follows a field of them. What is around one that knows it knows it too.
    fn ask_around(&mut self, item: &Item) {
        let mut inner = *item;
        for _ in 0..self.items.len() {
            let around = inner.c as usize;
            if around == 0 || inner.b & 2 != 0 {
                break;
            }
            let Some(found) = self.items.get(around - 1).copied() else {
                break;
            };
            self.amend(around - 1, 0, 2);
            inner = found;
        }
    }

    /// A bracket closes what began with its partner, if that is within this value.
    fn close_part(&mut self, base: usize) -> Next {
        self.settle(base, 1);
        let square = self.is(Word::BracketEnd);
        match self.innermost(base) {
            Part::Index if square => self.close_innermost(),
            Part::Call if !square => {
                self.end_argument(0);
                self.close_innermost();
            }
            Part::Group if !square => {
                self.pending.pop();
            }
            _ => return Next::Nothing,
        }
        self.advance();
        Next::Operator
    }

    /// An argument of a call ends, and so many follow at least.
    fn end_argument(&mut self, more: u32) {
        let name = match self.items.last() {
            Some(item) if matches!(item.kind, ItemKind::Named) => item.at,
            _ => NONE,
        };
        if let Some(call) = self.pending.last_mut() {
            if call.item.a == 1 {
                call.item.c = name;
            }
            call.item.a = call.item.a.saturating_add(more);
        }
    }

    /// A comma within the arguments of a call, if it is one.
    fn next_argument(&mut self, base: usize) -> Next {
        self.settle(base, 1);
        if !matches!(self.innermost(base), Part::Call) {
            return Next::Nothing;
        }
        self.end_argument(1);
        self.advance();
        Next::Operand
    }

    /// An operation, whose second value comes next.
    fn operator(&mut self, base: usize) -> Next {
        let Token { word, at, .. } = self.token;
        match operation(word) {
            Some((kind, level)) => {
                self.advance();
                self.settle(base, level);
                self.begin_part(Part::Operation(level), kind, at, 0);
                Next::Operand
            }
            None => Next::Nothing,
        }
    }

    /// What follows a value.
    fn continuation(&mut self, base: usize) -> Next {
        match self.token.word {
            Word::Dot => self.field(),
            Word::Asks => self.question(),
            Word::Comma => self.next_argument(base),
            Word::ParenEnd | Word::BracketEnd => self.close_part(base),
            Word::Bracket => {
                self.refuse(Why::FieldIndex, self.token.at);
                Next::Nothing
            }
            Word::Arrow => {
                self.refuse_word(Word::Dot);
                Next::Nothing
            }
            _ => self.operator(base),
        }
    }

    /// A value, which no comparison follows.
    pub(crate) fn value(&mut self) {
        self.side();
        if is_truth(self.token.word) {
            self.refuse(Why::NoTruth, self.token.at);
        }
    }

    /// A value. Its items are added, each after its operands.
    fn side(&mut self) {
        let base = self.pending.len();
        let mut next = Next::Operand;
        // Each turn takes a word, or is the last one; the source has a word before the value.
        for _ in 0..self.text.len() {
            next = match next {
                Next::Operand => self.operand(),
                Next::Operator => self.continuation(base),
                Next::Nothing => break,
            };
        }
        self.settle(base, 1);
        match self.innermost(base) {
            Part::Nothing => {}
            _ if is_truth(self.token.word) => self.refuse(Why::NoTruth, self.token.at),
            Part::Index => self.refuse_word(Word::BracketEnd),
            _ => self.refuse_word(Word::ParenEnd),
        }
    }

    /// The test that a call writes, with its place: `same` or `differ`.
    fn block_test(&mut self) -> (u32, u32) {
        if self.is(Word::Set) {
            self.refuse_word(Word::Same);
        } else if self.is(Word::Gives) {
            self.refuse_word(Word::AtLeast);
        }
        let item = self.retract(Why::ExpectedCondition);
        let call = matches!(item.kind, ItemKind::Call) && item.a == 2 && item.b == 0;
        let same = self.is_named(item.at, "same");
        if !call || !(same || self.is_named(item.at, "differ")) {
            self.refuse(Why::ExpectedCondition, item.at);
        }
        (item.at, 6 + u32::from(same))
    }

    /// A comparison of two values, or of two blocks. Its opposite is the next one if it is even.
    fn comparison(&mut self, negated: bool) {
        self.side();
        let Token { word, at, .. } = self.token;
        let (at, test) = match comparison(word) {
            Some(test) => {
                self.advance();
                self.side();
                (at, test)
            }
            None => self.block_test(),
        };
        self.add(ItemKind::Test, at, test ^ u32::from(negated), 0);
    }

    /// Refuses what other languages write between tests.
    fn refuse_joined(&mut self) {
        let at = self.token.at;
        if comparison(self.token.word).is_some() {
            self.refuse(Why::NoTruth, at);
        } else if self.is_named(at, "and") {
            self.refuse_word(Word::Both);
        } else if self.is_named(at, "or") {
            self.refuse_word(Word::Either);
        }
    }

    /// Whether the bracket that is next is around a condition and not around a value: the word after its partner decides. A bracket
    /// without a partner is around a condition too.
    fn brackets_condition(&self) -> bool {
        let mut depth: u32 = 0;
        let mut place = self.token.at;
        for _ in 0..self.text.len() {
            let Ok(token) = next_token(&self.text, place) else {
                return true;
            };
            if depth == 0 && place > self.token.at {
                return matches!(
                    token.word,
                    Word::Both
                        | Word::Either
                        | Word::ParenEnd
                        | Word::Brace
                        | Word::Max
                        | Word::Stop
                );
            }
            match token.word {
                Word::Paren => depth = depth.saturating_add(1),
                Word::ParenEnd => depth = depth.saturating_sub(1),
                Word::Stop | Word::Brace | Word::BraceEnd | Word::End => return true,
                _ => {}
            }
            place = token.end;
        }
        true
    }

    /// A bracket around a condition opens, within a condition that began when so much was not closed.
    fn open_bracket(&mut self, base: usize, negated: bool) {
        let at = self.expect(Word::Paren);
        if self.pending.len().saturating_sub(base) >= MOST_BRACKETS {
            return self.refuse(Why::TooMany, at);
        }
        let a = u32::from(negated);
        self.add(ItemKind::Group, at, a, 0);
        self.begin_part(Part::Tests, ItemKind::GroupEnd, at, a);
        self.put_plain(ItemKind::Alt, at);
    }

    /// Brackets around conditions close that are next.
    fn close_brackets(&mut self, base: usize) {
        for _ in 0..self.pending.len() {
            let at = self.token.at;
            if self.pending.len() <= base || !self.takes(Word::ParenEnd) {
                break;
            }
            self.put_plain(ItemKind::AltEnd, at);
            self.close_innermost();
        }
    }

    /// A comparison with what is before it, `!` and brackets, and the brackets that close after it.
    fn test(&mut self, base: usize) {
        let mut negated = false;
        for _ in 0..self.text.len() {
            let not = self.takes(Word::Not);
            negated = negated != not;
            if self.is(Word::Paren) && (not || self.brackets_condition()) {
                self.open_bracket(base, negated);
                negated = false;
            } else if !not {
                break;
            }
        }
        self.comparison(negated);
        self.close_brackets(base);
        self.refuse_joined();
    }

    /// A condition: alternatives, each of tests that are all to hold.
    pub(crate) fn condition(&mut self) {
        let base = self.pending.len();
        let at = self.token.at;
        self.put_plain(ItemKind::Alt, at);
        for _ in 0..self.text.len() {
            self.test(base);
            if self.takes(Word::Both) {
                continue;
            }
            if !self.takes(Word::Either) {
                break;
            }
            self.put_plain(ItemKind::AltEnd, at);
            self.put_plain(ItemKind::Alt, at);
        }
        if self.pending.len() > base {
            self.refuse_word(Word::ParenEnd);
        }
        self.put_plain(ItemKind::AltEnd, at);
        self.put_plain(ItemKind::CondEnd, at);
    }
}
