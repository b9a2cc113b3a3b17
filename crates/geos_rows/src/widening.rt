//! What is weakened again and again is given up.

ghost use Rattle.std.specs.Prelude.{◌≡◌, ◌<◌, ◌≤◌, ◌⊎◌, ℕ, true, false, IfSome, IfNone};
ghost use Rattle.geos_code.specs.Code.{IsPcOf};
ghost use Rattle.geos_rows.specs.Widening.{is_join, IsConstantAt, IsBound};
ghost use Rattle.geos_rows.specs.declared.widening.Kept.TheVariants.{Join, Constants, Unchanged};

use geos_code::Body;
use geos_image::{Opcode, Row};

/// So often a row is joined with what an edge that leads back says, as it is.
const JOINED: u8 = 16;

/// After so many changes, a bound is widened to a constant of the routine.
const STEPPED: u8 = 8;

/// So often a place goes along its edges at most before what changes there is given up, whichever edges weaken it.
const MOST_GONE: u8 = 100;

/// The greatest byte: a bound that instructions bring.
const MOST_BYTE: u16 = 255;

/// The greatest number of a refusal: another one.
const MOST_REFUSAL: u16 = 15;

/// How much of the join a weakened row retains.
#[derive(Clone, Copy)]
pub(crate) enum Kept {
    /// The join, as it is.
    Join,
    /// The join, with each changed bound widened to a constant of the routine, and without changed pointers.
    Constants,
    /// The join without the bounds and the pointers that change.
    Unchanged,
}

impl Kept {
    /// How much a row retains. `gone` is how often its instruction was propagated, `leads_back` whether a back edge weakens the row now,
    /// and `times` how often such edges have weakened it.
    pub(crate) fn after(gone: u8, leads_back: bool, times: u8) -> Kept
        ensures join { gone < 100 → (leads_back ≡ false) ⊎ (times ≤ 16) → result ≡ Join }
        ensures constants { gone < 100 → leads_back ≡ true → 16 < times → times ≤ 24 → result ≡ Constants }
        ensures unchanged { (100 ≤ gone) ⊎ ((leads_back ≡ true) × (24 < times)) → result ≡ Unchanged }
    {
        if MOST_GONE <= gone || leads_back && JOINED + STEPPED < times {
            Kept::Unchanged
        } else if leads_back && JOINED < times {
            Kept::Constants
        } else {
            Kept::Join
        }
    }

    /// Whether the whole join is stored.
    pub(crate) fn is_join(self) -> bool
        ensures { result ≡ is_join self }
    {
        matches!(self, Kept::Join)
    }
}

/// A constant that the instruction at a pc bounds a word by, if it does.
fn constant_at(body: &Body, pc: u16) -> Option<u16>
    requires { pc < body.now.end }
    ensures some { IfSome result (IsConstantAt body.now.image.now pc) }
    ensures none { IfNone result ((n : ℕ) → IsConstantAt body.now.image.now pc n → ⊥) }
{
    let i = body.image.instr(pc);
    match i.opcode {
        Opcode::Chk | Opcode::And | Opcode::Ldi => Some(i.imm),
        _ => None,
    }
}

/// The lesser of two constants, if the second is not below the bound; otherwise the first.
fn nearer(bound: u16, next: u16, constant: u16) -> u16
    ensures above { bound ≤ next → bound ≤ result }
    ensures less { result ≤ next }
    ensures either { (result ≡ next) ⊎ (result ≡ constant) }
    ensures least { bound ≤ constant → result ≤ constant }
{
    if bound <= constant {
        next.min(constant)
    } else {
        next
    }
}

/// The least constant of a routine that is not below the bound; that of any word, where there is
/// none.
fn next_constant(body: &Body, bound: u16) -> u16
    ensures above { bound ≤ result }
    ensures is { IsBound body.now.image.now body.now.r result }
    ensures least { (pc n : ℕ) → IsPcOf body.now.image.now body.now.r pc → IsConstantAt body.now.image.now pc n → bound ≤ n → result ≤ n }
{
    let mut next = nearer(bound, nearer(bound, u16::MAX, MOST_BYTE), MOST_REFUSAL);
    for pc in body.start..body.end {
        if let Some(constant) = constant_at(body, pc) {
            next = nearer(bound, next, constant);
        }
    }
    next
}

/// The bound of a word that changes.
fn wide_bound(body: &Body, kept: Kept, joined: u16) -> u16
    ensures above { joined ≤ result }
    ensures join { kept ≡ Join → result ≡ joined }
{
    match kept {
        Kept::Join => joined,
        Kept::Constants => next_constant(body, joined),
        Kept::Unchanged => u16::MAX,
    }
}

/// What is known at a place that was weakened: so much of the joined row, without what changes in it, beside slots and pairs, which
/// change seldom.
pub(crate) fn widened(body: &Body, kept: Kept, old: &Row, joined: &Row) -> Row
    ensures { result.slots ≡ joined.now.slots }
{
    let mut next = *joined;
    if kept.is_join() {
        return next;
    }
    for k in 0..8 {
        if old.bounds[k] != joined.bounds[k] {
            next.bounds[k] = wide_bound(body, kept, joined.bounds[k]);
        }
    }
    for k in 0..4 {
        if old.pointers[k] != joined.pointers[k] {
            next.pointers[k] = None;
        }
    }
    next
}
