//! The parser: a list of the constructs that are not closed takes the place of recursion, so that it is as deep as a source likes.

use crate::fault::{Fault, Why};
use crate::item::{Item, ItemKind, NONE, NUMBERS};
use crate::library::LIBRARY;
use crate::tests::TestPart;
use crate::token::{Token, next_token};
use crate::words::{Word, byte_at, is_named};
use std::alloc::Global;

/// The most bytes of a source.
pub const MOST_BYTES: usize = 1_048_576;

/// A construct that is not closed.
#[derive(Clone, Copy)]
pub(crate) enum Part {
    /// Nothing is open.
    Nothing,
    /// The statements of a routine.
    Body,
    Then,
    /// The statements after the `else` of an `if`.
    Other,
    /// An `else if`, which has no brace of its own.
    Chained,
    Turns,
    /// The statements of a lock that `else` follows, and those of one that `?` follows.
    Locked,
    Asking,
    Tried,
    /// The block after the `else` of a statement.
    Handler,
    /// Statements that nothing follows but an item.
    Last,
    /// Within a condition: brackets around conditions.
    Tests,
    /// Within a value: a bracket, the arguments of a call, an index, an operation.
    Group,
    Call,
    Index,
    /// An operation, and how strongly it binds, from 1.
    Operation(u8),
}

/// A construct that is not closed, and what is to follow.
#[derive(Clone, Copy)]
pub(crate) struct Pending {
    pub part: Part,
    /// What is added when it is closed.
    pub item: Item,
}

/// A source that is being read. After the first fault the next word is the end of the source, so that reading soon ends too.
#[derive(Drop)]
pub(crate) struct Parser {
    pub text: Vec<u8>,
    /// The word that is next.
    pub token: Token,
    pub items: Vec<Item>,
    pub tests: Vec<TestPart>,
    pub pending: Vec<Pending>,
    /// The items of the routine's declaration, and of its body.
    pub routine: usize,
    pub body: usize,
    /// Whether the source uses the library.
    uses_library: bool,
    /// The first fault, if there is one.
    fault: Option<Fault>,
}

impl Parser {
    /// Keeps a fault, if it is the first one.
    pub(crate) fn refuse_with(&mut self, fault: Fault) {
        if self.fault.is_none() {
            self.fault = Some(fault);
            self.token.word = Word::End;
        }
    }

    /// Refuses the source for what is at a place.
    pub(crate) fn refuse(&mut self, why: Why, at: u32) {
        self.refuse_with(Fault::new(why, at));
    }

    /// Whether the next word is one of the language in letters.
    pub(crate) fn is_reserved(&self) -> bool {
        let lettered = byte_at(&self.text, self.token.at as usize).is_ascii_alphabetic();
        lettered && !matches!(self.token.word, Word::Named | Word::End)
    }

    /// Refuses another word than this one.
    pub(crate) fn refuse_word(&mut self, word: Word) {
        if word == Word::Named && self.is_reserved() {
            return self.refuse(Why::Reserved, self.token.at);
        }
        self.refuse_with(Fault {
            word,
            ..Fault::new(Why::Expected, self.token.at)
        });
    }

    /// Goes on to the next word.
    pub(crate) fn advance(&mut self) {
        if self.fault.is_none() {
            match next_token(&self.text, self.token.end) {
                Ok(token) => self.token = token,
                Err(fault) => self.refuse_with(fault),
            }
        }
    }

    /// Whether the next word is this one.
    pub(crate) fn is(&self, word: Word) -> bool {
        self.token.word == word
    }

    /// Takes the word if it is next, and returns whether it was.
    pub(crate) fn takes(&mut self, word: Word) -> bool {
        let there = self.is(word);
        if there {
            self.advance();
        }
        there
    }

    /// Takes the word, and returns where it was.
    pub(crate) fn expect(&mut self, word: Word) -> u32 {
        let at = self.token.at;
        if !self.takes(word) {
            self.refuse_word(word);
        }
        at
    }

    /// Takes the word, or refuses another one for a reason. Returns where it was.
    pub(crate) fn require(&mut self, word: Word, why: Why) -> u32 {
        let at = self.token.at;
        if !self.takes(word) {
            self.refuse(why, at);
        }
        at
    }

    pub(crate) fn put(&mut self, item: Item) {
        if self.items.push(item).is_err() {
            self.refuse(Why::Memory, item.at);
        }
    }

    /// Adds an item with two fields.
    pub(crate) fn add(&mut self, kind: ItemKind, at: u32, a: u32, b: u32) {
        self.put(Item {
            kind,
            at,
            a,
            b,
            c: 0,
        });
    }

    /// Adds an item that has no further fields.
    pub(crate) fn put_plain(&mut self, kind: ItemKind, at: u32) {
        self.add(kind, at, 0, 0);
    }

    /// A construct begins, at whose end an item is added.
    pub(crate) fn begin_part(&mut self, part: Part, kind: ItemKind, at: u32, a: u32) {
        self.wait(
            part,
            Item {
                a,
                ..Item::new(kind, at)
            },
        );
    }

    /// A construct begins, at whose end the item is added.
    pub(crate) fn wait(&mut self, part: Part, item: Item) {
        if self.pending.push(Pending { part, item }).is_err() {
            self.refuse(Why::Memory, self.token.at);
        }
    }

    /// A construct with statements begins after `{`. At their end an item of this kind is added.
    pub(crate) fn enter(&mut self, part: Part, kind: ItemKind) {
        let at = self.expect(Word::Brace);
        self.begin_part(part, kind, at, 0);
    }

    /// Takes the last item away.
    pub(crate) fn retract(&mut self, why: Why) -> Item {
        match self.items.pop() {
            Some(item) => item,
            None => {
                self.refuse(why, self.token.at);
                Item::new(ItemKind::End, self.token.at)
            }
        }
    }

    /// Sets bits of two fields of an item that has been added.
    pub(crate) fn amend(&mut self, index: usize, a: u32, b: u32) {
        if let Some(item) = self.items.get_mut(index) {
            item.a |= a;
            item.b |= b;
        }
    }

    /// A constant that is written as a number or a name.
    pub(crate) fn constant(&mut self) -> u32 {
        let number = u32::from(self.token.value);
        if self.takes(Word::Number) {
            return number;
        }
        self.require(Word::Named, Why::NoConstant)
            .saturating_add(NUMBERS)
    }

    /// Whether the name at a place is this one.
    pub(crate) fn is_named(&self, at: u32, name: &str) -> bool {
        is_named(&self.text, at, name.as_bytes())
    }

    /// The bound of a parameter, if one is written.
    fn bound(&mut self) -> u32 {
        if self.takes(Word::AtMost) {
            self.constant()
        } else {
            NONE
        }
    }

    /// A block parameter, from the offset of its kind.
    fn block_parameter(&mut self, at: u32, kind: u32) {
        let number = if self.is_named(kind, "mem") {
            0
        } else if self.is_named(kind, "vm") {
            1
        } else if self.is_named(kind, "group") {
            2
        } else {
            return self.refuse(Why::ExpectedParam, kind);
        };
        self.add(ItemKind::BlockParam, at, number, 0);
    }

    /// A parameter.
    fn parameter(&mut self) {
        let at = self.expect(Word::Named);
        if !self.takes(Word::Colon) {
            let bound = self.bound();
            return self.add(ItemKind::WordParam, at, 0, bound);
        }
        let kind = self.token.at;
        let bytes = self.constant();
        if self.takes(Word::In) {
            let block = self.expect(Word::Named);
            self.add(ItemKind::PointerParam, at, bytes, block);
        } else {
            self.block_parameter(at, kind);
        }
    }

    /// The parameters of a routine; how many there are.
    fn parameters(&mut self) -> u32 {
        self.expect(Word::Paren);
        for count in 0..9 {
            if self.takes(Word::ParenEnd) {
                return count;
            }
            if count > 0 {
                self.require(Word::Comma, Why::ExpectedParam);
            }
            self.parameter();
        }
        self.refuse(Why::ManyParameters, self.token.at);
        0
    }

    /// The results of a routine; how many there are.
    fn results(&mut self) -> u32 {
        for count in 1..8 {
            self.expect(Word::Named);
            if !self.takes(Word::Comma) {
                return count;
            }
        }
        self.refuse(Why::ManyParameters, self.token.at);
        0
    }

    /// A routine up to its first statement.
    fn header(&mut self) {
        let public = self.takes(Word::Pub);
        self.takes(Word::Inline);
        self.require(Word::Fn, Why::ExpectedFn);
        let start = self.items.len();
        let at = self.expect(Word::Named);
        self.put_plain(ItemKind::Fn, at);
        let parameters = self.parameters();
        let results = if self.takes(Word::Arrow) {
            self.results()
        } else {
            0
        };
        let refusable = self.takes(Word::Asks);
        self.routine = start;
        let flags = u32::from(public) + 4 * u32::from(refusable) + 8 * results.min(7);
        self.amend(start, flags, parameters);
        self.body = self.items.len();
        self.put_plain(ItemKind::Body, at);
        self.enter(Part::Body, ItemKind::BodyEnd);
    }

    /// A field of a structure, up to the comma or semicolon after it.
    fn field_line(&mut self) {
        let at = self.expect(Word::Named);
        self.require(Word::Colon, Why::ExpectedField);
        let size = self.expect(Word::Named);
        let bytes = if self.is_named(size, "byte") {
            1
        } else if self.is_named(size, "word") {
            2
        } else {
            size.saturating_add(NUMBERS)
        };
        let many = self.takes(Word::Bracket);
        let count = if many { self.constant() } else { 1 };
        if many {
            self.expect(Word::BracketEnd);
        }
        self.put(Item {
            kind: ItemKind::FieldDef,
            at,
            a: bytes,
            b: u32::from(many),
            c: count,
        });
        if !self.takes(Word::Comma) {
            self.takes(Word::Stop);
        }
    }

    /// A structure after `struct`.
    fn structure(&mut self) {
        let at = self.expect(Word::Named);
        self.put_plain(ItemKind::StructDef, at);
        self.expect(Word::Brace);
        for _ in 0..self.text.len() {
            if self.is(Word::BraceEnd) || self.fault.is_some() {
                break;
            }
            self.field_line();
        }
        self.expect(Word::BraceEnd);
        self.put_plain(ItemKind::StructEnd, at);
    }

    /// A use of the library, after `use`.
    fn library(&mut self) {
        let at = self.require(Word::Named, Why::ExpectedUse);
        if !self.is_named(at, "std") {
            self.refuse(Why::ExpectedUse, at);
        }
        self.expect(Word::Stop);
        self.uses_library = true;
    }

    /// A declaration, a routine up to its first statement.
    fn declaration(&mut self) {
        if self.takes(Word::Const) {
            let at = self.expect(Word::Named);
            self.expect(Word::Set);
            self.value();
            self.expect(Word::Stop);
            self.put_plain(ItemKind::ConstDef, at);
        } else if self.takes(Word::Struct) {
            self.structure();
        } else if self.takes(Word::Use) {
            self.library();
        } else if self.is_test() {
            self.test_block();
        } else {
            self.header();
        }
    }

    /// Whether nothing is left to read.
    fn is_over(&self) -> bool {
        self.fault.is_some() || (self.is(Word::End) && self.pending.is_empty())
    }

    /// Reads to the end of the text, which has at most so many bytes more.
    fn read(&mut self, most: usize) {
        // Each iteration takes a word at least.
        for _ in 0..most.saturating_add(1) {
            if self.is_over() {
                break;
            }
            if self.pending.is_empty() {
                self.declaration();
            } else {
                self.statement();
            }
        }
        if !self.is_over() {
            self.refuse(Why::TooMany, self.token.at);
        }
    }

    /// Reads the library after the source, if the source uses the library.
    fn read_library(&mut self) {
        if self.uses_library && self.fault.is_none() {
            let kept = self.text.extend_from_slice(LIBRARY.as_bytes()).is_ok();
            if !kept {
                self.refuse(Why::Memory, 0);
            }
            self.advance();
            self.read(LIBRARY.len());
        }
    }
}

/// A source, and the named program that it writes.
#[derive(Drop)]
pub struct Source {
    /// The source, and then the library if the source uses it.
    pub text: Vec<u8>,
    /// How many bytes the source has without the library.
    pub own: u32,
    pub items: Vec<Item>,
    /// Its tests, part after part.
    pub tests: Vec<TestPart>,
}

/// The named program of a source. The fault is the first one that reading finds, and its place is one of the source, or its end.
pub fn parse_source(alloc: Global, text: &[u8]) -> Result<Source, Fault> {
    if text.len() > MOST_BYTES {
        return Err(Fault::new(Why::TooLong, 0));
    }
    let mut owned = Vec::new(alloc);
    owned.extend_from_slice(text)?;
    let mut parser = Parser {
        text: owned,
        token: Token::new(Word::End, 0, 0),
        items: Vec::new(alloc),
        tests: Vec::new(alloc),
        pending: Vec::new(alloc),
        routine: 0,
        body: 0,
        uses_library: false,
        fault: None,
    };
    parser.advance();
    parser.read(text.len());
    parser.read_library();
    match parser.fault {
        Some(fault) => Err(fault),
        None => Ok(Source {
            text: parser.text,
            own: text.len() as u32,
            items: parser.items,
            tests: parser.tests,
        }),
    }
}
