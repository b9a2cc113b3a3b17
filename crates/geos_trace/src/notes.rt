//! What is noted of a run for its page.

ghost use Rattle.std.specs.Prelude.{◌<◌};

use crate::blocks::{FIRST_CHUNK, LAST_CHUNK, put_block, put_name};
use crate::json::Json;
use geos_kernel::{Kernel, Name};
use geos_machine::{Machine, Watch};
use std::alloc::Global;
use vm_file::Device;

/// The most steps of which a page tells.
pub const MOST_STEPS: u32 = 10_000;

/// The most bytes of notes, of states and of blocks each.
const MOST_NOTES: usize = 32 << 20;

/// The block that a slot had when the trace last read it.
#[derive(Drop)]
struct View {
    name: Name,
    /// The highest handle of its chunks.
    highest: u16,
    /// The number of the step.
    step: u32,
    /// What was written of it.
    text: Vec<u8>,
}

/// What a machine and its kernel had before each step of a run: registers, and the blocks that slots hold, each when it has changed.
#[derive(Drop)]
pub struct Notes {
    skipped: u32,
    last: u32,
    steps: u32,
    states: Json,
    blocks: Json,
    /// The block that the trace is reading.
    block: Json,
    views: [View; 4],
}

impl View {
    fn new(alloc: Global) -> View {
        View {
            name: Name::mem(0),
            highest: LAST_CHUNK,
            step: 0,
            text: Vec::new(alloc),
        }
    }

    /// The highest handle that a chunk of the block may have by now. A step makes one chunk at most, and its handle is the lowest free one.
    fn last_chunk(&self, name: Name, step: u32) -> u16 {
        if self.name != name {
            return LAST_CHUNK;
        }
        let made = step.saturating_sub(self.step).saturating_mul(2);
        let last = u32::from(self.highest.max(FIRST_CHUNK)).saturating_add(made);
        last.min(u32::from(LAST_CHUNK)) as u16
    }

    /// Looks at the block that has been written. Whether that is news.
    fn look(&mut self, name: Name, highest: u16, step: u32, text: &[u8]) -> bool {
        let is_new = self.text.as_slice() != text;
        if is_new {
            self.text.clear();
            // Without memory it is news each time.
            let _ = self.text.extend_from_slice(text);
        }
        self.name = name;
        self.highest = highest;
        self.step = step;
        is_new
    }
}

impl Notes {
    /// No notes yet. They are to tell of the steps after so many, up to the last one.
    pub fn new(alloc: Global, skipped: u32, last: u32) -> Notes {
        Notes {
            skipped,
            last,
            steps: 0,
            states: Json::new(alloc, MOST_NOTES),
            blocks: Json::new(alloc, MOST_NOTES),
            block: Json::new(alloc, MOST_NOTES),
            views: [
                View::new(alloc),
                View::new(alloc),
                View::new(alloc),
                View::new(alloc),
            ],
        }
    }

    /// How many steps precede the first one that is noted.
    pub(crate) fn skipped(&self) -> u32 {
        self.skipped
    }

    /// The states before each step.
    pub(crate) fn states(&self) -> &Json {
        &self.states
    }

    /// Blocks, each with the number of the step before which it was so for the first time.
    pub(crate) fn blocks(&self) -> &Json {
        &self.blocks
    }

    /// Notes the registers: pc, words, counters, names in slots, and pointers.
    fn note_state(&mut self, machine: &Machine, pc: u16) {
        let out = &mut self.states;
        if !out.values().is_empty() {
            out.put(b",\n");
        }
        out.put(b"[");
        out.put_number(u64::from(pc));
        out.put_numbers(machine.words());
        out.put_numbers(machine.counters());
        for name in machine.slots() {
            put_name(out, *name);
        }
        for span in machine.pointers() {
            out.put(b",");
            out.put_number(u64::from(span.at));
            out.put_numbers(&[span.len]);
        }
        out.put(b"]");
        out.end_value();
    }

    /// Notes the block in a slot, if something of it has changed.
    fn note_block<D: Device + Drop>(&mut self, slot: usize, name: Name, kernel: &Kernel<D>)
        requires { slot < 4 }
    {
        // No block has this handle.
        if name.h == 0 {
            return;
        }
        let view = &mut self.views[slot];
        self.block.clear();
        let last = view.last_chunk(name, self.steps);
        let highest = put_block(&mut self.block, kernel, name, last);
        self.block.end_value();
        if !view.look(name, highest, self.steps, self.block.values()) {
            return;
        }
        let out = &mut self.blocks;
        if !out.values().is_empty() {
            out.put(b",\n");
        }
        out.put(b"[");
        out.put_number(u64::from(self.steps));
        out.put(self.block.values());
        out.put(b"]");
        out.end_value();
    }
}

impl Watch for Notes {
    fn sees<D: Device + Drop>(&mut self, machine: &Machine, pc: u16, kernel: &Kernel<D>) {
        if self.steps >= self.last {
            return;
        }
        if self.steps >= self.skipped {
            self.note_state(machine, pc);
            let [s0, s1, s2, s3] = *machine.slots();
            self.note_block(0, s0, kernel);
            self.note_block(1, s1, kernel);
            self.note_block(2, s2, kernel);
            self.note_block(3, s3, kernel);
        }
        self.steps = self.steps.saturating_add(1);
    }
}
