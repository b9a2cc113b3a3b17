//! Calls of routines: the statements of the routine replace the call.

use crate::declarations::{Declaration, Kind};
use crate::names::value;
use crate::placed::NOWHERE;
use crate::placer::{
    Construct, MOST_WORDS, Meaning, Operand, Placer, Running, Sort, Symbol, added,
};
use crate::results::results_of;
use crate::state::bit;
use tkv_syntax::{Item, ItemKind, Name, Why};

impl Placer {
    /// Whether the routine of an item runs.
    fn runs(&self, routine: usize) -> bool {
        for running in &self.running {
            if running.routine == routine {
                return true;
            }
        }
        false
    }

    /// The routine that a name declares, if that does not run already.
    fn routine_named(&mut self, name: &Name, at: u32) -> Option<Declaration> {
        let found = self.declared.find(name);
        match found {
            Some(routine) => {
                if !matches!(routine.kind, Kind::Routine) {
                    self.refuse(Why::NoCall, at);
                } else if self.runs(routine.item) {
                    self.refuse(Why::CallsItself, at);
                }
            }
            None => {
                let fault = self.declared.no_call(name, at);
                self.refuse_with(fault);
            }
        }
        found
    }

    /// A parameter with a meaning, for an operand.
    fn stands_for(&mut self, item: &Item, meaning: Meaning, operand: &Operand) {
        let name = self.declared.name(item.at);
        self.know(Symbol {
            name,
            at: item.at,
            meaning,
            register: operand.register,
            value: operand.value,
            structure: operand.structure,
            last: usize::MAX,
        });
    }

    /// Names a word parameter. A name that the routine does not set is used in its register.
    fn bind_word(&mut self, item: &Item, operand: Operand) {
        let kept = item.a == 0;
        match operand.sort {
            Sort::Constant if kept => self.stands_for(item, Meaning::Constant, &operand),
            Sort::Word if kept => {
                self.word_of(operand);
                self.stands_for(item, Meaning::Fixed, &operand);
            }
            Sort::Temporary if operand.register < MOST_WORDS => {
                if self.given != 0 {
                    self.given |= bit(operand.register);
                }
                self.state.facts |= bit(operand.register);
                self.stands_for(item, Meaning::Word, &operand);
            }
            _ => self.bind_copy(item, operand),
        }
    }

    /// Names a word of its own for a word parameter, with the value in it.
    fn bind_copy(&mut self, item: &Item, operand: Operand) {
        let register = self.take_word(item.at);
        self.move_to(operand, register, operand.at);
        self.state.facts |= bit(register);
        self.stands_for(
            item,
            Meaning::Word,
            &value(Sort::Word, item.at, register, 0),
        );
    }

    /// Names a block parameter.
    fn bind_block(&mut self, item: &Item, operand: Operand) {
        let slot = self.slot_of(operand);
        if self.held(slot).kind() != item.a {
            self.refuse(Why::Kinds, operand.at);
        }
        self.stands_for(item, Meaning::Block, &operand);
    }

    /// Names a pointer parameter.
    fn bind_pointer(&mut self, item: &Item, operand: Operand) {
        self.pointer_of(operand);
        let bytes = self.constant(item.a);
        if operand.value < bytes {
            self.refuse_for(Why::PastEnd, operand.at, operand.at, operand.value);
        }
        let mut pointer = operand;
        pointer.structure = self.structure_in(item.a);
        self.stands_for(item, Meaning::Pointer, &pointer);
    }

    /// The item of a routine's parameter.
    pub(crate) fn parameter(&mut self, routine: usize, k: usize, at: u32) -> Option<Item> {
        let index = routine.saturating_add(1).saturating_add(k);
        let item = self.declared.item(index);
        if item.is_none() {
            self.refuse(Why::Arguments, at);
        }
        item
    }

    /// Names the parameters of a routine for the values of a call. The names of the caller are not known from here on.
    fn bind_parameters(&mut self, routine: usize, count: usize, at: u32) {
        let base = self.symbols.len();
        for k in 0..count {
            let Some(item) = self.parameter(routine, k, at) else {
                break;
            };
            let operand = self.operand(count - 1 - k, at);
            match item.kind {
                ItemKind::WordParam => self.bind_word(&item, operand),
                ItemKind::BlockParam => self.bind_block(&item, operand),
                _ => self.bind_pointer(&item, operand),
            }
        }
        self.base = base;
    }

    /// The target of the refusals of a call. The routine may be refused if its declaration allows it.
    fn fails_to(&mut self, head: &Item, item: &Item) -> u16 {
        let asks = item.b != 0;
        if head.a & 4 != 0 {
            return self.refusal_way(asks, item.at);
        }
        if asks {
            self.refuse(Why::NotRefusable, item.at);
        }
        NOWHERE
    }

    /// The words of an inlined routine begin after those that its arguments take.
    fn start(&mut self, count: usize) {
        let len = self.operands.len();
        self.operands.truncate(len.saturating_sub(count));
        self.named = self.words;
        self.callers = self.words;
        self.named_pointers = self.pointers;
        self.floor = self.operands.len();
        self.handler = NOWHERE;
        self.asks = false;
    }

    /// A call of a routine, whose arguments are the last values: its statements follow.
    pub(crate) fn routine_call(&mut self, item: &Item, name: &Name) {
        let at = item.at;
        let Some(routine) = self.routine_named(name, at) else {
            return;
        };
        let count = item.a as usize;
        let Some(head) = self.declared.item(routine.item) else {
            return self.refuse(Why::Unknown, at);
        };
        if head.a & 1 != 0 {
            return self.refuse(Why::Public, at);
        }
        if item.a != head.b || count > self.operand_count() {
            return self.refuse_for(Why::Arguments, at, at, head.b.min(255) as u16);
        }
        let gives = results_of(&head);
        let running = Running {
            routine: routine.item,
            fails: self.fails_to(&head, item),
            refusable: head.a & 4 != 0,
            gives,
            register: self.result_words(gives, count, at),
            level: self.block(at),
            back: self.next,
            base: self.base,
            floor: self.floor,
            callers: self.callers,
            handler: self.handler,
            asks: self.asks,
        };
        let frame = self.frame(Construct::Inlined, at);
        self.bind_parameters(routine.item, count, at);
        self.here = self.said_at(at);
        self.declared.note_call(routine.index);
        self.begin(frame);
        self.run(running, at);
        self.start(count);
        self.next = routine.item.saturating_add(1).saturating_add(count);
    }

    /// A routine begins.
    pub(crate) fn run(&mut self, running: Running, at: u32) {
        let kept = added(&mut self.running, running);
        self.keep(kept, at);
    }

    /// The end of an inlined routine: its results replace the call, and the statements after the call follow.
    pub(crate) fn return_inlined(&mut self, at: u32) {
        let frame = self.finish(at);
        let Some(call) = self.running.pop() else {
            return self.refuse(Why::Unreached, at);
        };
        if call.gives != 0 && self.state.alive {
            return self.refuse_returns(call.gives, at);
        }
        self.end(at);
        if !self.state.alive {
            return self.refuse(Why::NoEnd, frame.at);
        }
        self.symbols.truncate(frame.symbols);
        self.named = frame.named;
        self.named_pointers = frame.pointers;
        self.base = call.base;
        self.floor = call.floor;
        self.callers = call.callers;
        self.handler = call.handler;
        self.asks = call.asks;
        self.next = call.back;
        if call.gives != 0 {
            self.words = call.register;
        }
        for _ in 0..call.gives {
            self.push_result(frame.at);
        }
        self.check_several(call.gives, frame.at);
    }
}
