//! The rules by name and number.

use std::fmt;
use thiserror::Error;

/// Why the verifier refuses a point.
#[derive(Clone, Copy, Debug, PartialEq, Eq)]
pub enum Rule {
    /// A branch or the fall-through leaves the routine.
    LeavesRoutine = 1,
    /// A pointer of the row leads into an empty slot.
    NamesEmptySlot = 2,
    /// The entry row does not imply the first row. Or a public routine's entry or exit row has a pointer that is not stale, or a slot that
    /// is neither empty nor borrowed; or its exit row lacks a borrowed block; or its entry row claims that two borrowed blocks differ, or that
    /// one is marked.
    EntryMisfit = 3,
    /// A pointer is read, written, copied or measured of which the row knows nothing: it may be
    /// stale.
    StalePointer = 4,
    /// A read or a write may reach past the bytes that the row says are there.
    PassesEnd = 5,
    /// A block of the VM file is changed that is not known to be marked.
    ChangesUnmarked = 6,
    /// The instruction locks a block into a slot that is not empty.
    LocksIntoHeld = 7,
    /// A slot that must hold a block is empty or of another kind, or the instruction unlocks a borrowed one.
    WrongSlot = 8,
    /// The VM file is written while a slot holds a block of it.
    CommitsHeld = 9,
    /// A routine calls one that is not below it, or one whose entry row the row does not fit.
    CallMisfit = 10,
    /// A return where the row does not fit the exit row.
    ExitMisfit = 11,
    /// The row after an edge does not fit the row there.
    EdgeMisfit = 12,
    /// The potential does not pay for an edge or a return.
    EdgeUnpaid = 13,
    /// The potential at the first pc may be above the budget: its constant is, or a
    /// coefficient is not 0.
    OverBudget = 14,
}

impl fmt::Display for Rule {
    ghost use Rattle.std.specs.Prelude.{Some};
    ghost use Rattle.geos_verify.specs.RuleText.{rule_text};

    ghost output = { λ rule. Some (rule_text rule) };

    fn fmt<W: fmt::Write>(&self, f: &mut fmt::Formatter<W>) -> fmt::Result {
        let number = *self as u8;
        write!(f, "V{number}")
    }
}

/// The first pc that is refused, and the lowest rule that refuses it.
#[derive(Clone, Copy, Debug, PartialEq, Eq, Error)]
#[error("rejected at {pc} by {rule}")]
pub struct Reject {
    pub pc: u16,
    pub rule: Rule,
}
