//! Routines that no public routine calls, placed so that their faults are found.
//!
//! A call may give each of its words a constant, or the same word. So what only some calls would refuse is no fault here.

ghost use Rattle.std.specs.Prelude.{◌<◌};

use crate::placed::NOWHERE;
use crate::placer::{Construct, Held, Meaning, Operand, Placer, Running, Sort};
use crate::results::results_of;
use crate::routine::outermost;
use crate::state::{bit, fetched};
use geos_image::Row;
use tkv_syntax::{Item, ItemKind, NUMBERS, Why};

/// The most items that are gone over for the last needs of its names.
const MOST_EFFORT: u32 = 1_048_576;

/// When a parameter gets its register: words that the routine does not set get w0, before all, and pointers follow their blocks.
fn pass_of(item: &Item) -> u8 {
    match item.kind {
        ItemKind::WordParam if item.a == 0 => 0,
        ItemKind::PointerParam => 2,
        _ => 1,
    }
}

impl Placer {
    /// Whether some call would give a constant for this value.
    pub(crate) fn may_be_constant(&self, operand: &Operand) -> bool {
        match operand.sort {
            Sort::Word => self.given & bit(operand.register) != 0,
            Sort::Temporary => self.given != 0,
            _ => false,
        }
    }

    /// A word parameter that the routine does not set: all of these have one word.
    fn given_word(&mut self, at: u32) {
        if self.given == 0 {
            let register = self.take_word(at);
            self.keep_word(register);
            self.state.facts |= bit(register);
            self.given = bit(register);
        }
        self.declare(Meaning::Fixed, at, 0, 0, NOWHERE);
    }

    /// A word parameter that the routine sets.
    pub(crate) fn own_word(&mut self, at: u32) -> u8
        ensures { result < 7 }
    {
        let register = self.take_word(at);
        self.keep_word(register);
        self.state.facts |= bit(register);
        self.declare(Meaning::Word, at, register, 0, NOWHERE);
        register
    }

    /// A block parameter.
    fn given_block(&mut self, item: &Item) {
        let slot = self.free_slot(item.at);
        let held = match item.a {
            0 => Held::Mem,
            1 => Held::Vm,
            _ => Held::Group,
        };
        self.hold(slot, held);
        self.declare(Meaning::Block, item.at, slot, 0, NOWHERE);
    }

    /// The structure of a parameter's bytes, or `NOWHERE`.
    pub(crate) fn structure_in(&self, bytes: u32) -> u16 {
        if bytes < NUMBERS {
            return NOWHERE;
        }
        match self.declared.find(&self.declared.name(bytes - NUMBERS)) {
            Some(structure) => structure.index,
            None => NOWHERE,
        }
    }

    /// A pointer parameter, into the block of another one.
    fn given_pointer(&mut self, item: &Item) {
        let block = self.symbol(&self.declared.name(item.b));
        if !matches!(block.meaning, Meaning::Block) {
            return self.refuse(Why::NoBlock, item.b);
        }
        let bytes = self.constant(item.a);
        let structure = self.structure_in(item.a);
        let register = self.take_pointer(block.register, item.at);
        self.named_pointers = register + 1;
        self.state.facts |= fetched(register);
        self.declare(Meaning::Pointer, item.at, register, bytes, structure);
    }

    /// The parameters of an uncalled routine.
    fn given_parameters(&mut self, index: usize, count: usize, at: u32) {
        for pass in 0..3 {
            for k in 0..count {
                let Some(item) = self.parameter(index, k, at) else {
                    return;
                };
                if pass_of(&item) != pass {
                    continue;
                }
                match item.kind {
                    ItemKind::WordParam if item.a == 0 => self.given_word(item.at),
                    ItemKind::WordParam => {
                        self.own_word(item.at);
                    }
                    ItemKind::BlockParam => self.given_block(&item),
                    _ => self.given_pointer(&item),
                }
            }
        }
    }

    /// The uncalled routine of an item begins, within a block to whose end its refusals go.
    pub(crate) fn begin_uncalled(&mut self, index: usize, head: &Item) -> Row {
        let count = head.b.min(8) as usize;
        self.effort = MOST_EFFORT;
        self.next = index.saturating_add(1).saturating_add(count);
        self.given_parameters(index, count, head.at);
        let fails = self.block(head.at);
        let level = self.block(head.at);
        let frame = self.frame(Construct::Routine, head.at);
        self.begin(frame);
        self.run(
            Running {
                refusable: head.a & 4 != 0,
                fails,
                gives: results_of(head),
                ..outermost(index, level)
            },
            head.at,
        );
        Row::open()
    }
}
