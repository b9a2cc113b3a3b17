//! The worklist of pcs: the first or the last of them is found without a visit to each of the others.

ghost use Rattle.std.specs.Prelude.{◌≡◌, ◌<◌, ◌≤◌, ◌+◌, true, false, slice_set, MatchOption};
ghost use Rattle.geos_flow.specs.Marks.{no_marks, is_marked};
ghost use Rattle.geos_flow.specs.Pending.{AllMarked, NoneIn, IsFirstIn, IsLastIn, Adds};

use crate::marks::{Marks, no_marks};
use std::marker::Model;

/// How many pcs a block has.
const BLOCK: u16 = 64;

/// Whether one of the pcs of a block is marked, the first of which is this.
fn is_any(marks: &Marks, first: u16) -> bool
    requires { first + 64 ≤ 4096 }
    ensures { result ≡ false → NoneIn marks.now first (first + 64) }
{
    for pc in first..first + BLOCK {
        if marks[usize::from(pc)] {
            return true;
        }
    }
    false
}

/// Which pcs wait. It is seen as their marks.
#[derive(Drop)]
pub struct Pending {
    marks: Marks,
    /// For each block of 64 pcs whether one of them waits, or has since it was last looked at.
    blocks: [bool; 64],
}

impl Model for Pending {
    ghost use Rattle.std.specs.Prelude.{List, Bool};
    ghost use Rattle.geos_flow.specs.Pending.{AreIn};

    ghost Value = { List Bool };

    ghost view = { λ p. p.marks };

    ghost invariant = { λ p. AreIn p.blocks p.marks };
}

impl Pending {
    /// None waits.
    pub fn none() -> Pending
        ensures { result ≡ no_marks }
    {
        Pending {
            marks: no_marks(),
            blocks: [false; 64],
        }
    }

    /// Each waits.
    pub fn all() -> Pending
        ensures { AllMarked result }
    {
        Pending {
            marks: [true; 4096],
            blocks: [true; 64],
        }
    }

    /// One more waits.
    pub fn put(&mut self, pc: u16)
        requires { pc < 4096 }
        ensures { Adds pc self.old self.new }
    {
        self.marks[usize::from(pc)] = true;
        self.blocks[usize::from(pc / BLOCK)] = true;
    }

    /// One no longer waits.
    pub fn take(&mut self, pc: u16)
        requires { pc < 4096 }
        ensures { self.new ≡ slice_set self.old pc false }
    {
        self.marks[usize::from(pc)] = false;
    }

    /// Looks whether one of a block still waits.
    fn settle_block(&mut self, block: u16)
        requires { block < 64 }
        ensures { self.new ≡ self.old }
    {
        if self.blocks[usize::from(block)] && !is_any(&self.marks, block * BLOCK) {
            self.blocks[usize::from(block)] = false;
        }
    }

    /// The same of each block: from then on blocks of which none waits are passed at one look.
    pub fn settle(&mut self)
        ensures { self.new ≡ self.old }
    {
        for block in 0..64 {
            self.settle_block(block);
        }
    }

    /// After a pc that does not wait: the next one, or, where none of its block waits, the first after that.
    fn next(&self, pc: u16) -> u16
        requires low { pc < 4096 }
        requires not { is_marked self.now pc ≡ false }
        ensures on { pc < result }
        ensures none { NoneIn self.now pc result }
    {
        if self.blocks[usize::from(pc / BLOCK)] {
            pc + 1
        } else {
            pc / BLOCK * BLOCK + BLOCK
        }
    }

    /// A pc that does not wait, or, where none of its block waits, the first of that.
    fn before(&self, pc: u16) -> u16
        requires low { pc < 4096 }
        requires not { is_marked self.now pc ≡ false }
        ensures back { result ≤ pc }
        ensures none { NoneIn self.now result (pc + 1) }
    {
        if self.blocks[usize::from(pc / BLOCK)] {
            pc
        } else {
            pc / BLOCK * BLOCK
        }
    }

    /// The first that waits, from a pc on and below another.
    pub fn first_in(&self, from: u16, end: u16) -> Option<u16>
        requires { end ≤ 4096 }
        ensures { MatchOption result (NoneIn self.now from end) (λ pc. IsFirstIn self.now from end pc) }
    {
        let mut at = from;
        while at < end {
            if self.marks[usize::from(at)] {
                return Some(at);
            }
            at = self.next(at);
        }
        None
    }

    /// The last that waits, from a pc on and below another.
    pub fn last_in(&self, from: u16, end: u16) -> Option<u16>
        requires { end ≤ 4096 }
        ensures { MatchOption result (NoneIn self.now from end) (λ pc. IsLastIn self.now from end pc) }
    {
        let mut at = end;
        while from < at {
            if self.marks[usize::from(at - 1)] {
                return Some(at - 1);
            }
            at = self.before(at - 1);
        }
        None
    }
}
