//! Statements.

use crate::fault::{Fault, Why};
use crate::item::{Item, ItemKind, NONE};
use crate::parser::{Parser, Part};
use crate::token::character;
use crate::words::{Word, byte_at, name_at};

/// The most bytes of a string.
const MOST_TEXT: u32 = 64;

/// What `why` is after a false assertion.
const ASSERTED: u32 = 16;

/// The most names that a value has.
const MOST_NAMES: u32 = 7;

/// Names of words that one value sets: their offsets.
#[derive(Clone, Copy)]
struct Names {
    at: [u32; 7],
    count: u32,
}

impl Parser {
    /// Says of the parameter of this name, if the routine has one, that it is set.
    fn note_set(&mut self, at: u32) {
        let name = name_at(&self.text, at);
        for index in self.routine..self.body {
            let Some(item) = self.items.get(index) else {
                return;
            };
            let word = matches!(item.kind, ItemKind::WordParam);
            if word && name_at(&self.text, item.at) == name {
                self.amend(index, 1, 0);
            }
        }
    }

    /// The end of a statement: a handler, if `else` follows, and a semicolon.
    fn finish(&mut self, start: usize) {
        let at = self.token.at;
        if self.takes(Word::Else) {
            self.amend(start, 1, 0);
            self.put_plain(ItemKind::Handler, at);
            if self.is(Word::Brace) {
                return self.enter(Part::Handler, ItemKind::HandlerEnd);
            }
            self.leave();
            self.put_plain(ItemKind::HandlerEnd, at);
        }
        self.put_plain(ItemKind::End, at);
        if self.is(Word::Brace) {
            return self.refuse(Why::NoBody, self.token.at);
        }
        self.expect(Word::Stop);
    }

    /// A statement that begins with a value: a lock, a call, or what sets something.
    fn plain_statement(&mut self, start: usize) {
        self.value();
        match self.token.word {
            Word::As => self.lock(),
            Word::Set => {
                self.assignment();
                self.finish(start);
            }
            Word::Comma => {
                self.several();
                self.finish(start);
            }
            Word::Named | Word::Number | Word::Brace => {
                let item = self.retract(Why::NoStatement);
                if matches!(item.kind, ItemKind::Named) {
                    self.refuse(Why::NoStatement, item.at);
                }
                self.finish(start);
            }
            _ => {
                self.put_plain(ItemKind::Done, self.token.at);
                self.finish(start);
            }
        }
    }

    /// A string after its first quote, as numbers of two bytes each. Returns how many bytes there are.
    fn string(&mut self) -> u32 {
        let at = self.token.at;
        for count in 0..MOST_TEXT + 1 {
            let here = self.token.end;
            let last = self.items.len().saturating_sub(1);
            let closed = byte_at(&self.text, here as usize) == b'"';
            if closed && count > 0 {
                self.token.end = here.saturating_add(1);
                self.advance();
                return count;
            }
            let Some(found) = character(&self.text, here) else {
                break;
            };
            if closed {
                break;
            }
            self.token.end = found.end;
            if count % 2 == 0 {
                self.add(ItemKind::Number, at, u32::from(found.value), 0);
            } else {
                self.amend(last, u32::from(found.value) * 256, 0);
            }
        }
        self.refuse(Why::BadText, at);
        0
    }

    /// What sets the name or field that the last item is.
    fn assignment(&mut self) {
        let target = self.retract(Why::NotSettable);
        self.advance();
        if self.is(Word::Quote) && matches!(target.kind, ItemKind::Field) {
            let c = self.string();
            return self.put(Item {
                kind: ItemKind::Store,
                c,
                ..target
            });
        }
        self.value();
        match target.kind {
            ItemKind::Named => {
                self.note_set(target.at);
                self.add(ItemKind::Assign, target.at, 0, 1);
            }
            ItemKind::Field => self.add(ItemKind::Store, target.at, target.a, target.b),
            _ => self.refuse(Why::NotSettable, target.at),
        }
    }

    /// A lock, up to its statements.
    fn lock(&mut self) {
        let call = self.retract(Why::ExpectedLock);
        if !matches!(call.kind, ItemKind::Call) {
            return self.refuse(Why::ExpectedLock, call.at);
        }
        self.expect(Word::As);
        let block = self.expect(Word::Named);
        let pointer = if self.takes(Word::Comma) {
            self.expect(Word::Named)
        } else {
            NONE
        };
        self.put(Item {
            kind: ItemKind::Lock,
            at: call.at,
            a: block,
            b: pointer,
            c: call.a.min(255) + 256 * call.b.min(1),
        });
        let part = if call.b == 0 {
            Part::Locked
        } else {
            Part::Asking
        };
        self.enter(part, ItemKind::LockEnd);
    }

    /// Adds a name to a list, if it is not there already.
    fn add_name(&mut self, names: &mut Names, at: u32) {
        let name = name_at(&self.text, at);
        for k in 0..names.count.min(MOST_NAMES) {
            if name_at(&self.text, names.at[k as usize]) == name {
                self.refuse(Why::TwiceSet, at);
            }
        }
        if names.count < MOST_NAMES {
            names.at[names.count as usize] = at;
            names.count += 1;
        }
    }

    /// The names of a list, from the first one on, which has been taken.
    fn names(&mut self, first: u32) -> Names {
        let mut names = Names {
            at: [first; 7],
            count: 1,
        };
        for _ in 1..MOST_NAMES {
            if !self.takes(Word::Comma) {
                break;
            }
            let at = self.expect(Word::Named);
            self.add_name(&mut names, at);
        }
        names
    }

    /// Adds an item for each name of a list, for a value that gives so many words.
    fn put_names(&mut self, kind: ItemKind, names: &Names, values: u32) {
        for k in 0..names.count.min(MOST_NAMES) {
            self.add(kind, names.at[k as usize], k, values);
        }
    }

    /// Names of words, and what they are.
    fn binding(&mut self, start: usize) {
        self.expect(Word::Let);
        let first = self.expect(Word::Named);
        let names = self.names(first);
        if self.is(Word::Colon) {
            self.refuse_word(Word::Set);
        }
        let valued = self.takes(Word::Set);
        if valued {
            self.value();
        }
        let values = if valued { names.count } else { 0 };
        self.put_names(ItemKind::Let, &names, values);
        self.finish(start);
    }

    /// What sets several names, of which the last item is the first.
    fn several(&mut self) {
        let first = self.retract(Why::NotSettable);
        if !matches!(first.kind, ItemKind::Named) {
            return self.refuse_with(Fault {
                word: Word::Named,
                ..Fault::new(Why::Expected, first.at)
            });
        }
        let names = self.names(first.at);
        self.expect(Word::Set);
        self.value();
        for k in 0..names.count.min(MOST_NAMES) {
            self.note_set(names.at[k as usize]);
        }
        self.put_names(ItemKind::Assign, &names, names.count);
    }

    /// Outputs words.
    fn output(&mut self, start: usize) {
        let out = self.expect(Word::Out);
        self.expect(Word::Paren);
        for _ in 0..self.text.len() {
            let at = self.token.at;
            self.value();
            self.add(ItemKind::Put, at, out, 0);
            if !self.takes(Word::Comma) {
                break;
            }
        }
        self.expect(Word::ParenEnd);
        if self.takes(Word::Asks) {
            self.amend(start, 0, 1);
        }
        self.finish(start);
    }

    /// A statement between `Begin` and `End`.
    fn simple(&mut self) {
        let start = self.items.len();
        self.put_plain(ItemKind::Begin, self.token.at);
        match self.token.word {
            Word::Let => self.binding(start),
            Word::Out => self.output(start),
            _ => self.plain_statement(start),
        }
    }

    /// `break`, `continue`, `fail` or `return`.
    fn leave(&mut self) {
        let at = self.token.at;
        if self.takes(Word::Break) {
            self.put_plain(ItemKind::Break, at);
        } else if self.takes(Word::Continue) {
            self.put_plain(ItemKind::Continue, at);
        } else if self.takes(Word::Fail) {
            self.valued(ItemKind::Fail, at);
        } else {
            self.expect(Word::Return);
            self.valued(ItemKind::Return, at);
        }
    }

    /// `fail`, with a value if one follows, or `return` with those that follow.
    fn valued(&mut self, kind: ItemKind, at: u32) {
        let mut count: u32 = 0;
        if !self.is(Word::Stop) {
            for k in 1..9 {
                self.value();
                count = k;
                if matches!(kind, ItemKind::Fail) || !self.takes(Word::Comma) {
                    break;
                }
            }
        }
        self.add(kind, at, count, 0);
    }

    fn conditional(&mut self) {
        let at = self.expect(Word::If);
        self.put_plain(ItemKind::If, at);
        self.condition();
        self.enter(Part::Then, ItemKind::Else);
    }

    /// `while` with a condition, or `loop` without one.
    fn turns(&mut self, tests: bool) {
        let at = self.token.at;
        self.advance();
        let start = self.items.len();
        self.put_plain(ItemKind::Turns, at);
        if tests {
            self.condition();
        }
        self.require(Word::Max, Why::ExpectedMax);
        let most = self.constant();
        self.amend(start, most, u32::from(tests));
        self.enter(Part::Turns, ItemKind::TurnEnd);
    }

    fn counted(&mut self) {
        self.expect(Word::For);
        let at = self.require(Word::Named, Why::ExpectedFor);
        self.require(Word::In, Why::ExpectedFor);
        self.value();
        self.require(Word::To, Why::ExpectedFor);
        if self.is(Word::Set) {
            self.refuse(Why::ExpectedFor, self.token.at);
        }
        self.value();
        let step = if self.takes(Word::Step) {
            self.constant()
        } else {
            1
        };
        self.add(ItemKind::For, at, step, 0);
        self.enter(Part::Turns, ItemKind::TurnEnd);
    }

    /// A block of statements, with `try` before it or without.
    fn block(&mut self, begin: ItemKind, part: Part, end: ItemKind) {
        let at = self.token.at;
        self.takes(Word::Try);
        self.put_plain(begin, at);
        self.enter(part, end);
    }

    fn mark(&mut self) {
        self.expect(Word::Dirty);
        let at = self.expect(Word::Named);
        self.put_plain(ItemKind::Dirty, at);
        self.expect(Word::Stop);
    }

    /// `assert`: an `if` without statements, whose `else` fails.
    fn assertion(&mut self) {
        let at = self.expect(Word::Assert);
        self.put_plain(ItemKind::If, at);
        self.condition();
        self.put_plain(ItemKind::Else, at);
        self.add(ItemKind::Number, at, ASSERTED, 0);
        self.add(ItemKind::Fail, at, 1, 0);
        self.put_plain(ItemKind::IfEnd, at);
        self.expect(Word::Stop);
    }

    /// A statement, up to the statements within it; or the end of a construct.
    pub(crate) fn statement(&mut self) {
        match self.token.word {
            Word::BraceEnd => self.close(),
            Word::If => self.conditional(),
            Word::While => self.turns(true),
            Word::Loop => self.turns(false),
            Word::For => self.counted(),
            Word::Try => self.block(ItemKind::Try, Part::Tried, ItemKind::TryElse),
            Word::Dirty => self.mark(),
            Word::Assert => self.assertion(),
            Word::Brace => self.block(ItemKind::Scope, Part::Last, ItemKind::ScopeEnd),
            Word::Break | Word::Continue | Word::Fail | Word::Return => {
                self.leave();
                self.expect(Word::Stop);
            }
            Word::Pub | Word::Inline | Word::Fn | Word::Const | Word::Struct | Word::Use => {
                self.refuse(Why::Inner, self.token.at)
            }
            Word::Stop => self.refuse(Why::Empty, self.token.at),
            Word::End => self.refuse_word(Word::BraceEnd),
            _ => self.simple(),
        }
    }

    /// The end of a construct's statements.
    fn close(&mut self) {
        let at = self.expect(Word::BraceEnd);
        let Some(pending) = self.pending.pop() else {
            return self.refuse(Why::Unreached, at);
        };
        if matches!(pending.part, Part::Body) {
            if self.is(Word::Else) {
                self.amend(self.body, 1, 0);
                self.put_plain(ItemKind::BodyElse, at);
            }
            return self.followed(at, ItemKind::BodyEnd);
        }
        self.put_plain(pending.item.kind, at);
        match pending.part {
            Part::Then => self.close_then(at),
            Part::Other => self.close_chain(at),
            Part::Turns => self.followed(at, ItemKind::LoopDone),
            Part::Locked => {
                self.put_plain(ItemKind::LockElse, at);
                self.handled(ItemKind::LockDone);
            }
            Part::Asking => self.put_plain(ItemKind::LockDone, at),
            Part::Tried => self.handled(ItemKind::TryEnd),
            Part::Handler => {
                self.put_plain(ItemKind::End, at);
                self.takes(Word::Stop);
            }
            _ => {}
        }
    }

    /// The `else` that a construct requires, up to its statements.
    fn handled(&mut self, last: ItemKind) {
        self.expect(Word::Else);
        self.enter(Part::Last, last);
    }

    /// What follows a construct: `else` and its statements, or its last item.
    fn followed(&mut self, at: u32, last: ItemKind) {
        if self.takes(Word::Else) {
            self.enter(Part::Last, last);
        } else {
            self.put_plain(last, at);
        }
    }

    /// What follows the first statements of an `if`.
    fn close_then(&mut self, at: u32) {
        if !self.takes(Word::Else) {
            self.put_plain(ItemKind::IfEnd, at);
            self.close_chain(at);
        } else if self.is(Word::If) {
            self.begin_part(Part::Chained, ItemKind::IfEnd, at, 0);
            self.conditional();
        } else {
            self.enter(Part::Other, ItemKind::IfEnd);
        }
    }

    /// The end of each `if` whose `else if` has ended.
    fn close_chain(&mut self, at: u32) {
        for _ in 0..self.pending.len() {
            if !matches!(self.innermost(0), Part::Chained) {
                break;
            }
            self.pending.pop();
            self.put_plain(ItemKind::IfEnd, at);
        }
    }
}
