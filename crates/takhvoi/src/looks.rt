//! What is shown of a run: the state before each step, and memory before one step.

use crate::places::{Place, places_of};
use crate::records::{put_records, show};
use geos_image::{Row, SlotState};
use geos_kernel::{Kernel, Name, Owner};
use geos_machine::{Machine, Outcome, Watch};
use geos_verify::Place as Point;
use std::alloc::Global;
use vm_file::Device;

/// A machine before a step: the instruction that comes next; where pointers lead in the region, and how many bytes there are from there on;
/// the blocks in slots; words; counters; which slots hold a block, and which pointers are known, as bits.
#[repr(C)]
#[derive(Clone, Copy)]
pub struct State {
    pub(crate) instruction: u32,
    pub(crate) pointers: [u32; 4],
    pub(crate) spans: [u32; 4],
    pub(crate) slots: [u32; 4],
    pub(crate) words: [u16; 8],
    pub(crate) counters: [u16; 4],
    pub(crate) held: u16,
    pub(crate) good: u16,
}

/// The states before some steps.
#[derive(Drop)]
pub(crate) struct States<'a> {
    /// What is known at each instruction.
    pub(crate) known: Vec<Point>,
    /// The first step that is noted, counted from 0.
    pub(crate) first: u32,
    /// The number of the next step.
    pub(crate) next: u32,
    pub(crate) into: &'a mut [State],
}

/// What memory has before a step.
#[derive(Drop)]
pub(crate) struct Picture<'a> {
    pub(crate) alloc: Global,
    /// The step, counted from 0.
    pub(crate) step: u32,
    /// The number of the next step.
    pub(crate) next: u32,
    pub(crate) into: &'a mut [Place],
    pub(crate) count: &'a mut u32,
    pub(crate) region: &'a mut [u8],
}

/// What one looks at during a run.
#[derive(Drop)]
pub(crate) enum Look<'a> {
    Nothing,
    States(States<'a>),
    Memory(Picture<'a>),
}

/// One who looks on at a run, and keeps its outcome if there is something to look at.
#[derive(Drop)]
pub(crate) struct Looker<'a> {
    pub(crate) alloc: Global,
    pub(crate) look: Look<'a>,
    pub(crate) outcome: Option<Outcome>,
}

impl<'a> Looker<'a> {
    pub(crate) fn new(alloc: Global, look: Look<'a>) -> Looker<'a> {
        Looker {
            alloc,
            look,
            outcome: None,
        }
    }

    pub(crate) fn none(alloc: Global) -> Looker<'a> {
        Looker::new(alloc, Look::Nothing)
    }
}

/// Four flags as bits.
fn bits(flags: [bool; 4]) -> u16 {
    let [a, b, c, d] = flags;
    u16::from(a) + 2 * u16::from(b) + 4 * u16::from(c) + 8 * u16::from(d)
}

/// The number of a block.
fn number(name: Name) -> u32 {
    match name.owner {
        Owner::Mem => u32::from(name.h),
        Owner::Vm => 65_536 + u32::from(name.h),
    }
}

fn is_held(state: SlotState) -> bool {
    !matches!(state, SlotState::Empty)
}

/// Which slots hold a block, and which pointers are known, where the verifier knows this.
fn known_bits(row: &Row) -> (u16, u16) {
    let [s0, s1, s2, s3] = row.slots;
    let [p0, p1, p2, p3] = row.pointers;
    (
        bits([is_held(s0), is_held(s1), is_held(s2), is_held(s3)]),
        bits([p0.is_some(), p1.is_some(), p2.is_some(), p3.is_some()]),
    )
}

/// The state of a machine before the instruction at a pc, at which the verifier knows this.
fn state_of(machine: &Machine, pc: u16, known: Option<&Point>) -> State {
    let [p0, p1, p2, p3] = *machine.pointers();
    let [s0, s1, s2, s3] = *machine.slots();
    let (held, good) = match known {
        Some(point) => known_bits(&point.row),
        None => (0, 0),
    };
    State {
        instruction: u32::from(pc),
        pointers: [p0.at, p1.at, p2.at, p3.at],
        spans: [
            u32::from(p0.len),
            u32::from(p1.len),
            u32::from(p2.len),
            u32::from(p3.len),
        ],
        slots: [number(s0), number(s1), number(s2), number(s3)],
        words: *machine.words(),
        counters: *machine.counters(),
        held,
        good,
    }
}

impl States<'_> {
    /// Notes the state before a step, if it is one of those that are noted and there is room.
    fn note(&mut self, machine: &Machine, pc: u16) {
        if self.next >= self.first {
            let at = (self.next - self.first) as usize;
            if at < self.into.len() {
                self.into[at] = state_of(machine, pc, self.known.get(usize::from(pc)));
            }
        }
        self.next = self.next.saturating_add(1);
    }
}

impl Picture<'_> {
    /// Notes what memory has before a step, if it is the one.
    fn note<D: Device + Drop>(&mut self, kernel: &Kernel<D>) {
        if self.next == self.step {
            let blocks = kernel.blocks();
            if let Ok(places) = places_of(self.alloc, blocks) {
                show(&places, self.into, self.count);
                put_records(blocks.region(), self.region);
            }
        }
        self.next = self.next.saturating_add(1);
    }
}

impl Watch for Look<'_> {
    fn sees<D: Device + Drop>(&mut self, machine: &Machine, pc: u16, kernel: &Kernel<D>) {
        match self {
            Look::Nothing => {}
            Look::States(states) => states.note(machine, pc),
            Look::Memory(picture) => picture.note(kernel),
        }
    }
}
