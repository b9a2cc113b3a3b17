//! A routine, placed.

use crate::declarations::Declared;
use crate::names::value;
use crate::placed::{NOWHERE, Placed, bare};
use crate::placer::{Construct, Held, Meaning, Placer, Running, Sort};
use crate::state::bit;
use geos_image::{Row, SlotState};
use geos_opcodes::Opcode;
use std::alloc::Global;
use tkv_syntax::{Fault, Item, ItemKind, NONE, Why};

/// The most items that are gone over for a routine, with those of the routines that it calls.
const MOST_STEPS: u32 = 4_194_304;

/// The most for one that is not called.
const MOST_UNCALLED: u32 = 262_144;

/// A placed routine.
#[derive(Drop)]
pub struct PlacedRoutine {
    /// What holds where it begins.
    pub entry: Row,
    pub placed: Vec<Placed>,
    /// The program, for the next routine.
    pub declared: Declared,
}

/// The outermost routine, by its item and the block to whose end `return` leaves: it has no result, and nothing of it can be refused further.
pub(crate) fn outermost(routine: usize, level: u16) -> Running {
    Running {
        routine,
        level,
        refusable: false,
        fails: NOWHERE,
        gives: 0,
        register: 0,
        back: 0,
        base: 0,
        floor: 0,
        callers: 0,
        handler: NOWHERE,
        asks: false,
    }
}

impl Placer {
    /// A parameter of a public routine.
    fn public_parameter(&mut self, item: &Item, entry: &mut Row) {
        match item.kind {
            ItemKind::WordParam => {
                let register = self.own_word(item.at);
                if item.b != NONE {
                    let most = self.constant(item.b);
                    entry.bounds[usize::from(register)] = most;
                    self.state.bound(register, most);
                }
            }
            ItemKind::BlockParam if item.a == 1 => {
                let slot = self.free_slot(item.at);
                self.hold(slot, Held::Lent);
                entry.slots[usize::from(slot)] = SlotState::Vm {
                    marked: false,
                    borrowed: true,
                };
                self.declare(Meaning::Block, item.at, slot, 0, NOWHERE);
            }
            _ => self.refuse(Why::Public, item.at),
        }
    }

    /// The routine of an item begins.
    fn begin_routine(&mut self, index: usize, head: &Item) -> Row {
        let mut entry = Row::open();
        if head.a >= 4 {
            self.refuse(Why::Public, head.at);
            return entry;
        }
        let count = head.b.min(8) as usize;
        self.next = index.saturating_add(1).saturating_add(count);
        for k in 0..count {
            if let Some(item) = self.parameter(index, k, head.at) {
                self.public_parameter(&item, &mut entry);
            }
        }
        let level = self.block(head.at);
        let frame = self.frame(Construct::Routine, head.at);
        self.begin(frame);
        self.run(outermost(index, level), head.at);
        entry
    }

    /// A routine ends. Whether it is the outermost.
    fn end_routine(&mut self, at: u32) -> bool {
        let inner = self.innermost(at);
        if matches!(inner.construct, Construct::Tried) {
            self.construct_end(at);
        }
        let routine = self.innermost(at);
        if matches!(routine.construct, Construct::Inlined) {
            self.return_inlined(at);
            return false;
        }
        let gives = self.running.last().map_or(0, |call| call.gives);
        if self.state.alive && gives != 0 {
            self.refuse_returns(gives, at);
        }
        self.finish(at);
        self.end(at);
        if !self.state.alive {
            self.refuse(Why::NoEnd, at);
        }
        self.act(bare(Opcode::Ret), at);
        true
    }

    /// An item of a value.
    fn value_item(&mut self, item: &Item) {
        match item.kind {
            ItemKind::Number => {
                self.push(value(Sort::Constant, item.at, 0, item.a.min(65_535) as u16))
            }
            ItemKind::Named => self.named_value(item),
            ItemKind::WhyValue => self.push(value(Sort::Why, item.at, 7, 0)),
            ItemKind::Handle => self.handle_value(item),
            ItemKind::Call => self.call(item),
            ItemKind::Field => self.access(item, false),
            _ => self.operation(item),
        }
    }

    /// An item of a statement that is no bracket.
    fn simple_item(&mut self, item: &Item) {
        match item.kind {
            ItemKind::Begin => self.begin_statement(item),
            ItemKind::Let => self.bind(item),
            ItemKind::Assign => self.assign(item),
            ItemKind::Store if item.c > 0 => self.write_string(item),
            ItemKind::Store => self.access(item, true),
            ItemKind::Done => self.done(item.at),
            ItemKind::Put => self.put_out(item),
            ItemKind::Dirty => self.make_dirty(item),
            ItemKind::Break => self.leave_loop(0, item.at),
            ItemKind::Continue => self.leave_loop(3, item.at),
            ItemKind::Fail => self.fail(item),
            ItemKind::Return => self.give_back(item),
            ItemKind::Test => self.test(item),
            ItemKind::End => {
                self.clear();
                self.handler = NOWHERE;
            }
            _ => self.value_item(item),
        }
    }

    /// An item of a condition, a loop or a lock.
    fn bracket_item(&mut self, item: &Item) {
        let at = item.at;
        match item.kind {
            ItemKind::If => self.conditional(item),
            ItemKind::Alt => {
                self.block(at);
            }
            ItemKind::AltEnd => self.alternative_end(at),
            ItemKind::Group => self.group(item),
            ItemKind::GroupEnd => self.group_end(item),
            ItemKind::CondEnd => self.condition_end(at),
            ItemKind::Else => self.otherwise(at),
            ItemKind::Turns => self.bounded_turns(item),
            ItemKind::For => self.count(item),
            ItemKind::TurnEnd => self.turn_end(at),
            ItemKind::Lock => self.lock(item),
            ItemKind::LockEnd => self.lock_end(at),
            _ => self.simple_item(item),
        }
    }

    /// An item. Whether the outermost routine ends with it.
    fn item(&mut self, item: &Item) -> bool {
        let at = item.at;
        match item.kind {
            ItemKind::BodyEnd => return self.end_routine(at),
            ItemKind::Body => {
                if item.a != 0 {
                    self.attempt(Construct::Try, at);
                }
            }
            ItemKind::BodyElse | ItemKind::TryElse => self.attempted(at),
            ItemKind::Try => {
                self.attempt(Construct::Try, at);
            }
            ItemKind::LockElse => self.end(at),
            ItemKind::TryEnd
            | ItemKind::HandlerEnd
            | ItemKind::ScopeEnd
            | ItemKind::IfEnd
            | ItemKind::LoopDone
            | ItemKind::LockDone => self.construct_end(at),
            ItemKind::Handler => self.handle(at),
            ItemKind::Scope => {
                let frame = self.frame(Construct::Scope, at);
                self.begin(frame);
            }
            _ => self.bracket_item(item),
        }
        false
    }

    /// Places at most so many items of a routine that has begun, which is declared at a place. The last one ends it, unless there is a fault.
    pub(crate) fn place_items(&mut self, at: u32, most: u32) {
        for _ in 0..most {
            if self.fault.is_some() {
                return;
            }
            match self.declared.item(self.next) {
                Some(item) => {
                    self.next = self.next.saturating_add(1);
                    if self.item(&item) {
                        return;
                    }
                }
                None => self.refuse(Why::NoEnd, at),
            }
        }
        self.refuse(Why::TooMany, at);
    }
}

/// Places a routine of a program, by the item that declares it: a public one, or one that is not called. Of the latter only what any call would
/// meet is a fault.
pub fn place_routine(
    alloc: Global,
    declared: Declared,
    index: usize,
) -> Result<PlacedRoutine, Fault> {
    let Some(head) = declared.item(index) else {
        return Err(Fault::new(Why::NoRoutine, 0));
    };
    let mut placer = Placer::new(alloc, declared);
    let public = head.a & 1 != 0;
    let entry = if public {
        placer.begin_routine(index, &head)
    } else {
        placer.begin_uncalled(index, &head)
    };
    placer.place_items(head.at, if public { MOST_STEPS } else { MOST_UNCALLED });
    match placer.fault {
        Some(fault) => Err(fault),
        None => Ok(PlacedRoutine {
            entry,
            placed: placer.placed,
            declared: placer.declared,
        }),
    }
}
