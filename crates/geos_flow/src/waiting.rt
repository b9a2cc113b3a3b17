//! Pcs that are marked, and those of them that wait to be gone on from.

ghost use Rattle.std.specs.Prelude.{◌≡◌, ◌<◌, ℕ, Some, None, IfSome};
ghost use Rattle.geos_flow.specs.Waiting.{IsKept, Has, Notes, TakesNext, NoneWaits};

use crate::marks::{Marks, is_marked, no_marks};

/// Marks, and the marked pcs in the order in which they were; each waits once.
#[derive(Clone, Copy)]
pub(crate) struct Waiting {
    pub(crate) marks: Marks,
    order: [u16; 4096],
    /// How many were gone on from.
    next: u16,
    /// How many are marked.
    end: u16,
}

impl Waiting {
    /// None is marked.
    pub(crate) fn new() -> Waiting
        ensures kept { IsKept result }
        ensures none { (k : ℕ) → Has result.marks k → ⊥ }
    {
        Waiting {
            marks: no_marks(),
            order: [0; 4096],
            next: 0,
            end: 0,
        }
    }

    /// One more is marked, and waits, if it was not marked before.
    pub(crate) fn note(&mut self, pc: u16)
        requires there { pc < 4096 }
        requires kept { IsKept self.old }
        ensures kept { IsKept self.new }
        ensures notes { Notes pc self.old self.new }
    {
        if is_marked(&self.marks, usize::from(pc)) {
            return;
        }
        self.marks[usize::from(pc)] = true;
        self.order[usize::from(self.end)] = pc;
        self.end += 1;
    }

    /// The one that waits longest, if one waits; it no longer waits.
    pub(crate) fn take(&mut self) -> Option<u16>
        requires kept { IsKept self.old }
        ensures kept { IsKept self.new }
        ensures low { IfSome result (λ pc. pc < 4096) }
        ensures takes { IfSome result (TakesNext self.old self.new) }
        ensures none { result ≡ None → NoneWaits self.new }
        ensures stays { result ≡ None → self.new ≡ self.old }
    {
        if self.next == self.end {
            return None;
        }
        let pc = self.order[usize::from(self.next)];
        self.next += 1;
        Some(pc)
    }
}
