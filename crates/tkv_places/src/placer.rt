//! What is known while a routine is placed.

use crate::declarations::Declared;
use crate::placed::{NOWHERE, Placed};
use crate::state::State;
use std::alloc::Global;
use tkv_syntax::{Fault, Name, Why};

/// The words that names and values take: w0 to w6.
pub(crate) const MOST_WORDS: u8 = 7;

/// The most items that are gone over for a routine, with those of the routines that it calls.
pub(crate) const MOST_EFFORT: u32 = 8_388_608;

/// What a slot holds.
#[derive(Clone, Copy)]
pub(crate) enum Held {
    Free,
    Mem,
    Vm,
    /// A block that the caller lent.
    Lent,
    Group,
}

impl Held {
    /// The kind of its block, as a parameter says it: 0 for `mem`, 1 for `vm`, 2 for `group`; 3 if it holds none.
    pub(crate) fn kind(self) -> u32 {
        match self {
            Held::Mem => 0,
            Held::Vm | Held::Lent => 1,
            Held::Group => 2,
            Held::Free => 3,
        }
    }
}

/// What a name stands for in a routine.
#[derive(Clone, Copy)]
pub(crate) enum Meaning {
    /// The routine has no such name.
    Nothing,
    /// A word that may be set.
    Word,
    /// A word that may not be set.
    Fixed,
    Constant,
    Block,
    Pointer,
}

/// A name of a routine.
#[derive(Clone, Copy)]
pub(crate) struct Symbol {
    pub name: Name,
    pub at: u32,
    pub meaning: Meaning,
    /// The word, slot or pointer.
    pub register: u8,
    /// The constant, how many bytes a pointer has at least, or the last number that a word between constants counts; 0 if none is known.
    pub value: u16,
    /// The structure of a pointer's bytes, or `NOWHERE`.
    pub structure: u16,
    /// The last item that needs it.
    pub last: usize,
}

/// What a value is.
#[derive(Clone, Copy)]
pub(crate) enum Sort {
    Constant,
    /// A word with a name.
    Word,
    /// A word that only this value takes.
    Temporary,
    /// The number of the last refusal.
    Why,
    /// A word that is to be set to a handle.
    Handle,
    Block,
    Pointer,
    Structure,
    /// A structure within what a pointer leads to: the pointer and an index, which is a word or 0, are the values before. The value is the
    /// offset at the index 0.
    Part,
}

/// A value that no item has taken yet.
#[derive(Clone, Copy)]
pub(crate) struct Operand {
    pub sort: Sort,
    pub at: u32,
    pub register: u8,
    /// As of a symbol.
    pub value: u16,
    pub structure: u16,
}

impl Operand {
    pub(crate) fn is_constant(&self) -> bool {
        matches!(self.sort, Sort::Constant)
    }

    pub(crate) fn is_temporary(&self) -> bool {
        matches!(self.sort, Sort::Temporary)
    }

    pub(crate) fn is_pointer(&self) -> bool {
        matches!(self.sort, Sort::Pointer)
    }

    /// The structure that it is, or `NOWHERE`.
    pub(crate) fn structure_of(&self) -> u16 {
        if matches!(self.sort, Sort::Structure) {
            self.structure
        } else {
            NOWHERE
        }
    }
}

/// A block, loop or closing that has not ended.
#[derive(Clone, Copy)]
pub(crate) struct Bracket {
    /// The slot of a closing, or 255.
    pub slot: u8,
    /// What is known where it is left to.
    pub joined: State,
}

/// What a construct of the source is that has not ended.
#[derive(Clone, Copy)]
pub(crate) enum Construct {
    Routine,
    Inlined,
    Handler,
    /// A block of statements, or those after the `else` of a loop.
    Scope,
    If,
    Turns,
    For,
    Lock,
    /// It takes refusals.
    Try,
    /// It took them.
    Tried,
}

/// A construct that has not ended, and what is to be restored at its end.
#[derive(Clone, Copy)]
pub(crate) struct Frame {
    pub construct: Construct,
    pub at: u32,
    /// The outermost of its blocks.
    pub level: u16,
    pub named: u8,
    pub pointers: u8,
    pub symbols: usize,
    /// The slot of a lock, or the counter of a loop.
    pub register: u8,
}

/// The turns of a loop that have not ended.
#[derive(Clone, Copy)]
pub(crate) struct Turns {
    /// The word that counts, or 255, and by how much.
    pub counted: u8,
    pub step: u16,
    /// What is known where turns begin, and whether control comes to their end first.
    pub head: State,
    pub counts_first: bool,
}

/// A routine that has not ended. If it is inlined, what is to be restored after the call.
#[derive(Clone, Copy)]
pub(crate) struct Running {
    /// The item that declares it.
    pub routine: usize,
    /// The block to whose end `return` leaves.
    pub level: u16,
    /// Whether it may be refused, and where its refusals go then.
    pub refusable: bool,
    pub fails: u16,
    /// How many results it has, and the word of the first one.
    pub gives: u8,
    pub register: u8,
    /// The item after the call.
    pub back: usize,
    pub base: usize,
    pub floor: usize,
    pub callers: u8,
    pub handler: u16,
    pub asks: bool,
}

/// Adds an item to a list. Whether there was memory for it.
pub(crate) fn added<T: Drop>(list: &mut Vec<T>, item: T) -> bool {
    list.push(item).is_ok()
}

/// Why a pointer is stale: which call, or which loop, may move its chunk.
#[derive(Clone, Copy)]
pub(crate) struct Loss {
    pub by: u32,
    pub lost: bool,
}

/// A routine that is being placed. After the first fault what is placed does not matter, and placing ends with the item.
#[derive(Drop)]
pub(crate) struct Placer {
    pub declared: Declared,
    pub placed: Vec<Placed>,
    pub brackets: Vec<Bracket>,
    pub frames: Vec<Frame>,
    pub turns: Vec<Turns>,
    pub running: Vec<Running>,
    pub symbols: Vec<Symbol>,
    pub operands: Vec<Operand>,
    pub state: State,
    /// The item that is next.
    pub next: usize,
    /// Where the source says what was placed last. A routine of the library is at its call.
    pub here: u32,
    /// How many words the callers have, how many have names, and how many are taken.
    pub callers: u8,
    pub named: u8,
    pub words: u8,
    pub named_pointers: u8,
    pub pointers: u8,
    pub counters: u8,
    pub slots: [Held; 4],
    /// The slots into which pointers lead.
    pub leads: [u8; 4],
    pub lost: [Loss; 4],
    /// The target of the statement's refusals if it has a handler, and whether `?` follows what it outputs.
    pub handler: u16,
    pub asks: bool,
    /// The first symbol of the routine, and the first value of the statement.
    pub base: usize,
    pub floor: usize,
    /// Whether w7 has an operand of the next instruction.
    pub spare_taken: bool,
    /// The words of an uncalled routine for which a call may give constants.
    pub given: u32,
    /// How many items may be gone over still.
    pub effort: u32,
    /// The first fault, if there is one.
    pub fault: Option<Fault>,
}

impl Placer {
    pub(crate) fn new(alloc: Global, declared: Declared) -> Placer {
        Placer {
            declared,
            placed: Vec::new(alloc),
            brackets: Vec::new(alloc),
            frames: Vec::new(alloc),
            turns: Vec::new(alloc),
            running: Vec::new(alloc),
            symbols: Vec::new(alloc),
            operands: Vec::new(alloc),
            state: State {
                alive: true,
                facts: 0,
                most: [u16::MAX; 8],
            },
            next: 0,
            here: 0,
            callers: 0,
            named: 0,
            words: 0,
            named_pointers: 0,
            pointers: 0,
            counters: 0,
            slots: [Held::Free; 4],
            leads: [4; 4],
            lost: [Loss { by: 0, lost: false }; 4],
            handler: NOWHERE,
            asks: false,
            base: 0,
            floor: 0,
            spare_taken: false,
            given: 0,
            effort: MOST_EFFORT,
            fault: None,
        }
    }
}

impl Placer {
    /// Where the source says what is at an offset of the source or of the library.
    pub(crate) fn said_at(&self, at: u32) -> u32 {
        if at < self.declared.source.own {
            at
        } else {
            self.here
        }
    }

    /// Keeps a fault, if it is the first one.
    pub(crate) fn refuse_with(&mut self, fault: Fault) {
        if self.fault.is_none() {
            self.fault = Some(Fault {
                at: self.said_at(fault.at),
                ..fault
            });
        }
    }

    /// Refuses the source for what is at a place.
    pub(crate) fn refuse(&mut self, why: Why, at: u32) {
        self.refuse_for(why, at, at, 0);
    }

    /// Refuses the source unless there was memory to keep what is at a place.
    pub(crate) fn keep(&mut self, kept: bool, at: u32) {
        if !kept {
            self.refuse(Why::Memory, at);
        }
    }

    /// Refuses the source for what is not known at a place. If nothing leads there, no cure of that helps.
    pub(crate) fn refuse_unknown(&mut self, why: Why, at: u32) {
        let alive = self.state.alive;
        self.refuse(if alive { why } else { Why::Unreached }, at);
    }

    /// Refuses the source for what is at a place, with another place and a number to name.
    pub(crate) fn refuse_for(&mut self, why: Why, at: u32, other: u32, number: u16) {
        self.refuse_with(Fault {
            other,
            number,
            ..Fault::new(why, at)
        });
    }

    /// What a constant of an item says.
    pub(crate) fn constant(&mut self, code: u32) -> u16 {
        match self.declared.constant(code) {
            Ok(value) => value,
            Err(fault) => {
                self.refuse_with(fault);
                0
            }
        }
    }

    /// A construct, at whose end all names are forgotten that are known from now on.
    pub(crate) fn frame(&self, construct: Construct, at: u32) -> Frame {
        Frame {
            construct,
            at,
            level: NOWHERE,
            named: self.named,
            pointers: self.named_pointers,
            symbols: self.symbols.len(),
            register: 0,
        }
    }

    pub(crate) fn begin(&mut self, frame: Frame) {
        let kept = added(&mut self.frames, frame);
        self.keep(kept, frame.at);
    }

    /// Forgets the names that are known since a construct began, and gives their registers back.
    pub(crate) fn restore(&mut self, frame: &Frame) {
        self.symbols.truncate(frame.symbols);
        self.named = frame.named;
        self.words = frame.named;
        self.named_pointers = frame.pointers;
        self.pointers = frame.pointers;
    }

    /// The innermost construct, without its end.
    pub(crate) fn innermost(&mut self, at: u32) -> Frame {
        match self.frames.last() {
            Some(frame) => *frame,
            None => {
                self.refuse(Why::Unreached, at);
                self.frame(Construct::Scope, at)
            }
        }
    }

    /// The innermost construct ends.
    pub(crate) fn finish(&mut self, at: u32) -> Frame {
        let frame = self.innermost(at);
        self.frames.pop();
        frame
    }

    /// The innermost construct ends, with its outermost block if it has one, and its names are forgotten.
    pub(crate) fn construct_end(&mut self, at: u32) {
        let frame = self.finish(at);
        self.restore(&frame);
        if frame.level != NOWHERE {
            self.end(at);
        }
    }

    /// The innermost construct becomes another one.
    pub(crate) fn turn_into(&mut self, construct: Construct) {
        if let Some(frame) = self.frames.last_mut() {
            frame.construct = construct;
        }
    }
}
