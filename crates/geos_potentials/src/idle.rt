//! The LOOPs that may not pay: their counter may still have the value from the routine's start or from a call.

ghost use Rattle.std.specs.Prelude.{◌≡◌, ◌<◌, ◌≤◌, ℕ, true, Some, IfSome};
ghost use Rattle.geos_counters.specs.Touching.{KnowsTouched, NotesTouched, NotesAllTouched};
ghost use Rattle.geos_counters.specs.Idle.{calls_touching, LeadsIdle};
ghost use Rattle.geos_code.specs.Code.{IsPcOf};
ghost use Rattle.geos_potentials.specs.Ranks.{noted_idle, GoesOn, IsNotedBehind, AreNotedFrom, AreIdleNoted};
ghost use Rattle.geos_potentials.specs.Stuck.{NotesIdle};
ghost use Rattle.geos_counters.specs.Trails.{keeps_counter};
ghost use Rattle.geos_code.specs.Edges.{LeadsTo};
ghost use Rattle.geos_image.specs.Parts.{Parts};

use crate::classes::Classes;
use geos_code::{Body, edge_in, is_loop};
use geos_counters::{Touching, touches};
use geos_image::{Instr, Opcode};
use geos_verify::Touched;

/// Whether an edge of the instruction may leave the counter as it is, where routines touch these counters at least.
fn may_keep(certain: &Touched, counter: u8, i: &Instr, branch: bool) -> bool
    ensures { (image : Parts) → NotesTouched image certain.now → keeps_counter image counter i.now i.now.opcode branch ≡ true → result ≡ true }
{
    match i.opcode {
        Opcode::Setk | Opcode::Setkw => i.a != counter,
        Opcode::Loop => branch || i.a != counter,
        Opcode::Call => !touches(certain, i.imm, counter),
        _ => true,
    }
}

/// Whether the instruction may call a routine that touches the counter, where routines touch these counters at most.
fn may_touch(possible: &Touched, counter: u8, i: &Instr) -> bool
    requires { counter < 4 }
    ensures { (image : Parts) → NotesAllTouched image possible.now → calls_touching image counter i.now ≡ true → result ≡ true }
{
    match i.opcode {
        Opcode::Call => touches(possible, i.imm, counter),
        _ => false,
    }
}

/// The target of an edge, if the instruction has the edge and it stays in the routine.
fn lead(body: &Body, pc: u16, branch: bool) -> Option<u16>
    requires { pc < body.now.end }
    ensures leads { IfSome result (LeadsTo body.now.image.now pc branch) }
    ensures stays { IfSome result (IsPcOf body.now.image.now body.now.r) }
    ensures all { (to : ℕ) → LeadsTo body.now.image.now pc branch to → IsPcOf body.now.image.now body.now.r to → result ≡ Some to }
    ensures inside { IfSome result (λ to. to < 4096) }
{
    match edge_in(body, pc, branch) {
        Some(edge) => Some(edge.to),
        None => None,
    }
}

/// Whether it is noted, too, where an edge leads that keeps a counter, that this may not pay, if it is noted at the pc.
fn goes_on(
    body: &Body,
    touching: &Touching,
    classes: &Classes,
    pc: u16,
    branch: bool,
    counter: u8,
) -> bool
    requires here { pc < body.now.end }
    requires touched { KnowsTouched body.now.image.now touching.now }
    ensures { result ≡ true → GoesOn body.now.image.now body.now.r classes.now pc branch counter }
{
    if !classes.is_idle(pc, counter) {
        return true;
    }
    if !may_keep(&touching.certain, counter, body.image.instr(pc), branch) {
        return true;
    }
    match lead(body, pc, branch) {
        Some(to) => classes.is_idle(to, counter),
        None => true,
    }
}

/// Whether a note after a call that touches a counter says that the counter may not pay.
fn is_noted_behind(
    body: &Body,
    touching: &Touching,
    classes: &Classes,
    pc: u16,
    counter: u8,
) -> bool
    requires here { pc < body.now.end }
    requires counter { counter < 4 }
    requires touched { KnowsTouched body.now.image.now touching.now }
    ensures { result ≡ true → IsNotedBehind body.now.image.now body.now.r classes.now pc counter }
{
    if body.end <= pc + 1 {
        return true;
    }
    if !may_touch(&touching.possible, counter, body.image.instr(pc)) {
        return true;
    }
    classes.is_idle(pc + 1, counter)
}

/// Both, of each of the four counters.
fn are_noted_from(body: &Body, touching: &Touching, classes: &Classes, pc: u16) -> bool
    requires here { pc < body.now.end }
    requires touched { KnowsTouched body.now.image.now touching.now }
    ensures { result ≡ true → AreNotedFrom body.now.image.now body.now.r classes.now pc }
{
    for counter in 0..4u8 {
        if !goes_on(body, touching, classes, pc, false, counter) {
            return false;
        }
        if !goes_on(body, touching, classes, pc, true, counter) {
            return false;
        }
        if !is_noted_behind(body, touching, classes, pc, counter) {
            return false;
        }
    }
    true
}

/// Whether it is noted of each counter that it may not pay where a routine begins.
fn are_noted_first(body: &Body, classes: &Classes) -> bool
    ensures { result ≡ true → (k : ℕ) → k < 4 → noted_idle classes.now body.now.start k ≡ true }
{
    for counter in 0..4u8 {
        if !classes.is_idle(body.start, counter) {
            return false;
        }
    }
    true
}

/// Whether it is noted wherever a counter may not pay.
pub(crate) fn are_noted(body: &Body, touching: &Touching, classes: &Classes) -> bool
    requires { KnowsTouched body.now.image.now touching.now }
    ensures { result ≡ true → AreIdleNoted body.now.image.now body.now.r classes.now }
{
    if !are_noted_first(body, classes) {
        return false;
    }
    for pc in body.start..body.end {
        if !are_noted_from(body, touching, classes, pc) {
            return false;
        }
    }
    true
}

/// The target of an edge, if the instruction has the edge, it stays in the routine, and it is not the taken edge of a LOOP whose counter may
/// pay according to the notes.
pub(crate) fn lead_idle(body: &Body, classes: &Classes, pc: u16, branch: bool) -> Option<u16>
    requires above { body.now.start ≤ pc }
    requires below { pc < body.now.end }
    ensures only { NotesIdle body.now.image.now body.now.r classes.now → IfSome result (LeadsIdle body.now.image.now body.now.r pc branch) }
    ensures all { (to : ℕ) → AreIdleNoted body.now.image.now body.now.r classes.now
        → LeadsIdle body.now.image.now body.now.r pc branch to → result ≡ Some to }
    ensures inside { IfSome result (λ to. to < 4096) }
{
    let there = lead(body, pc, branch);
    let i = body.image.instr(pc);
    if !branch {
        return there;
    }
    if !is_loop(i.opcode) {
        return there;
    }
    if classes.is_idle(pc, i.a) {
        there
    } else {
        None
    }
}
