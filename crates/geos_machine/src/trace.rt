//! What is noted of a run: its steps, and how often it came to each pc.

ghost use Rattle.std.specs.Prelude.{◌≡◌, ◌<◌, [], replicate, slice_index, slice_get, Some, IfOk};
ghost use Rattle.geos_machine.specs.declared.trace.Left.TheVariants as left;
ghost use Rattle.geos_machine.specs.declared.step.Goes.{Goes};
ghost use Rattle.geos_machine.specs.Traces.{left_by, with_note};

use crate::step::Goes;
use geos_image::MOST_INSTRS;
use geos_terms::Name;
use std::alloc::{AllocError, Global};
use std::marker::Model;

/// How control left an instruction.
#[derive(Clone, Copy)]
pub enum Left {
    /// On to the next instruction.
    On,
    /// To the instruction's target: its test was true, or the instruction was refused.
    ToTarget,
    /// To a routine that it called.
    Calling,
    /// Back from the routine, or out of the run.
    Returning,
}

/// What is noted of a step of a run.
#[derive(Clone, Copy)]
pub struct Noted {
    /// The pc of the instruction.
    pub pc: u16,
    /// How control left it.
    pub left: Left,
    /// The words w0 to w7 after the step.
    pub words: [u16; 8],
    /// The counters k0 to k3 after the step.
    pub counters: [u16; 4],
    /// The names of the blocks in the slots after the step. The name in an empty slot means nothing.
    pub slots: [Name; 4],
}

/// The notes of one run: of its steps in a stretch of pcs the first ones, and of each pc how often it was come to.
#[derive(Drop)]
pub struct Trace {
    first: u16,
    end: u16,
    most: usize,
    noted: Vec<Noted>,
    counts: Vec<u32>,
}

impl Model for Trace {
    ghost use Rattle.std.specs.Prelude.{◌≡◌, ◌≤◌, length};
    ghost use Rattle.std.specs.Vec.{vec_capacity};
    ghost use Rattle.geos_machine.specs.Traces.{Notes};

    ghost Value = { Notes };

    ghost view = { λ t. record { first = t.first; end = t.end; most = t.most; noted = t.noted.items; counts = t.counts.items } };

    ghost invariant = { λ t. record { room : t.most ≤ vec_capacity t.noted; every : length t.counts.items ≡ 4096 } };
}

/// How control goes, of an instruction that is done.
pub(crate) fn left_by(goes: &Goes) -> Left
    ensures { result ≡ left_by goes.now }
{
    match goes {
        Goes::Along | Goes::Past | Goes::Further => Left::On,
        Goes::To | Goes::Back => Left::ToTarget,
        Goes::Calls(_) => Left::Calling,
        Goes::Returns => Left::Returning,
    }
}

impl Trace {
    /// Empty notes, for at most `most` steps, at pcs from `first` up to the one before `end`. All memory that they need is
    /// allocated here.
    pub fn new(alloc: Global, first: u16, end: u16, most: usize) -> Result<Trace, AllocError>
        ensures { IfOk result (λ trace. trace ≡ record { first = first; end = end; most = most; noted = []; counts = replicate 4096 0 }) }
    {
        let noted = Vec::with_capacity(alloc, most)?;
        let counts = vec![in alloc; 0; MOST_INSTRS as usize]?;
        Ok(Trace {
            first,
            end,
            most,
            noted,
            counts,
        })
    }

    /// The steps that were noted, in their order.
    pub fn steps(&self) -> &[Noted]
        ensures { result.now ≡ self.now.noted }
    {
        self.noted.as_slice()
    }

    /// How often the run came to a pc.
    pub fn count(&self, pc: u16) -> u32
        requires { pc < MOST_INSTRS }
        ensures { result ≡ slice_index self.now.counts pc }
    {
        self.counts[pc as usize]
    }

    /// A step is done.
    pub(crate) fn note(&mut self, noted: Noted)
        requires place { noted.pc < MOST_INSTRS }
        requires counted { slice_index self.old.counts noted.pc < 4294967295 }
        ensures { self.new ≡ with_note noted self.old }
    {
        self.counts[noted.pc as usize] += 1;
        let within = self.first <= noted.pc && noted.pc < self.end;
        if within && self.noted.len() < self.most {
            self.noted.push_reserved(noted);
        }
    }
}
