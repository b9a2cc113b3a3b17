//! Ways of control within a routine: noted by an edge into each place, and followed back.

ghost use Rattle.std.specs.Prelude.{◌≡◌, ◌≢◌, ◌<◌, true, false, Some, List, Bool, IfSome};
ghost use Rattle.geos_image.specs.Parts.{Parts};
ghost use Rattle.geos_counters.specs.Touching.{KnowsTouched, NotesAllTouched};
ghost use Rattle.loop_causes.specs.Causes.{IsTrailBut};
ghost use Rattle.geos_counters.specs.Trails.{LeadsKeeping, keeps};

use control_graph::{Graph, Pile};
use geos_code::{Body, edge_in};
use geos_counters::{Touching, touches};
use geos_image::{Instr, MOST_INSTRS, Opcode, Table, two_tables};
use geos_verify::Touched;
use std::alloc::{AllocError, Global};

/// An edge by which control comes to a place.
#[derive(Clone, Copy)]
pub(crate) struct Came {
    pub(crate) from: u16,
    pub(crate) branch: bool,
    /// Whether paths begin after it.
    pub(crate) begins: bool,
    ghost inside: { from < 4096 },
}

/// Which places control comes to from some, and by which edge at first.
#[derive(Drop)]
pub struct Trails {
    seen: Table<bool>,
    came: Table<Option<Came>>,
    waits: Pile,
}

/// Whether an edge of the instruction leaves the counter unchanged, if one is given. Routines touch at most these counters.
fn keeps(possible: &Touched, counter: Option<u8>, i: &Instr, branch: bool) -> bool
    ensures { (image : Parts) → NotesAllTouched image possible.now → result ≡ true → keeps image counter i.now i.now.opcode branch ≡ true }
{
    match counter {
        None => true,
        Some(counter) => match i.opcode {
            Opcode::Setk | Opcode::Setkw => i.a != counter,
            Opcode::Loop => branch || i.a != counter,
            Opcode::Call => counter < 4 && !touches(possible, i.imm, counter),
            _ => true,
        },
    }
}

/// The target of an edge, if the instruction has it, it stays in the routine, and it leaves the counter unchanged.
fn lead_keeping(
    body: &Body,
    touching: &Touching,
    counter: Option<u8>,
    pc: u16,
    branch: bool,
) -> Option<u16>
    requires here { pc < body.now.end }
    requires touched { KnowsTouched body.now.image.now touching.now }
    ensures { IfSome result (LeadsKeeping body.now.image.now body.now.r counter pc branch) }
{
    if !keeps(&touching.possible, counter, body.image.instr(pc), branch) {
        return None;
    }
    match edge_in(body, pc, branch) {
        Some(edge) => Some(edge.to),
        None => None,
    }
}

/// Whether an edge that keeps the counter leads to a place.
fn came_to(body: &Body, touching: &Touching, counter: Option<u8>, came: Came, to: u16) -> bool
    requires { KnowsTouched body.now.image.now touching.now }
    ensures { result ≡ true → LeadsKeeping body.now.image.now body.now.r counter came.from came.branch to }
{
    if body.end <= came.from {
        return false;
    }
    match lead_keeping(body, touching, counter, came.from, came.branch) {
        Some(there) => there == to,
        None => false,
    }
}

/// Whether a place is the one that is given, if one is.
fn is_at(given: Option<u16>, pc: u16) -> bool
    ensures { result ≡ false → given ≢ Some pc }
{
    match given {
        Some(there) => there == pc,
        None => false,
    }
}

impl Trails {
    ghost use Rattle.std.specs.Prelude.{◌≡◌, ◌≢◌, ◌<◌, ◌≤◌, ℕ, true, false, None, Some, List, Bool, IfOk, IfSome};
    ghost use Rattle.control_graph.specs.Arcs.{arc_at};
    ghost use Rattle.geos_counters.specs.Touching.{KnowsTouched};
    ghost use Rattle.control_graph.specs.Waits.{Waits};
    ghost use Rattle.control_graph.specs.declared.arcs.Arc.{Arc};
    ghost use Rattle.loop_causes.specs.Causes.{IsTrailBut};
    ghost use Rattle.loop_causes.specs.Noted.{comes_to, came_at, NoTrails, StayTrails, KeepsIt};

    /// Control is known to come to no place. `AllocError` if the allocator refuses memory.
    pub fn new(alloc: Global) -> Result<Trails, AllocError>
        ensures { IfOk result NoTrails }
    {
        let (seen, came) = two_tables(alloc, false, None)?;
        let waits = Pile::new(alloc)?;
        Ok(Trails { seen, came, waits })
    }

    /// Control is known to come to no place of a routine.
    pub(crate) fn clear(&mut self, body: &Body)
        ensures seen { (pc : ℕ) → body.now.start ≤ pc → pc < 4096 → comes_to self.new pc ≡ false }
        ensures came { (pc : ℕ) → body.now.start ≤ pc → pc < 4096 → came_at self.new pc ≡ None }
    {
        self.seen.fill_from(body.start, false);
        self.came.fill_from(body.start, None);
    }

    /// Control comes to a place, by this edge.
    pub(crate) fn note(&mut self, to: u16, came: Option<Came>)
        requires { to < 4096 }
        ensures comes { comes_to self.new to ≡ true }
        ensures stay { StayTrails self.old self.new }
        ensures same { comes_to self.old to ≡ true → self.new ≡ self.old }
        ensures came { comes_to self.old to ≡ false → came_at self.new to ≡ came }
        ensures waits { comes_to self.old to ≡ false → Waits self.new.waits to }
        ensures others { (pc : ℕ) → pc ≢ to → came_at self.new pc ≡ came_at self.old pc }
    {
        // Recalls the lemma.
        self.seen.lengths();
        self.came.lengths();
        if !self.seen.at(to) {
            self.seen.set(to, true);
            self.came.set(to, came);
            self.waits.put(to);
        }
    }

    /// Follows an edge.
    fn go_along(&mut self, graph: &Graph, counter: Option<u8>, from: u16, branch: bool)
        requires { from < 4096 }
        ensures stay { StayTrails self.old self.new }
        ensures comes { (arc : Arc) → arc_at graph.now.arcs from branch ≡ Some arc → KeepsIt counter arc → comes_to self.new arc.to ≡ true }
    {
        if let Some(arc) = graph.arc(from, branch) {
            let keeps = match counter {
                Some(counter) => arc.keeps(counter),
                None => true,
            };
            if keeps {
                let came = Came {
                    from,
                    branch,
                    begins: false,
                };
                self.note(arc.to, Some(came));
            }
        }
    }

    /// Follows the edges from all noted instructions except one, along edges that leave the counter unchanged, if one is given.
    pub(crate) fn go(&mut self, graph: &Graph, counter: Option<u8>, but: Option<u16>)
        ensures { StayTrails self.old self.new }
    {
        for _ in 0..MOST_INSTRS {
            let Some(pc) = self.waits.take() else {
                return;
            };
            if !is_at(but, pc) {
                self.go_along(graph, counter, pc, false);
                self.go_along(graph, counter, pc, true);
            }
        }
    }

    /// Whether control comes to a place.
    pub fn comes(&self, pc: u16) -> bool
        requires { pc < 4096 }
        ensures { result ≡ comes_to self.now pc }
    {
        self.seen.at(pc)
    }

    /// The source of the edge with which the noted path to an instruction begins.
    pub(crate) fn origin(&self, body: &Body, to: u16) -> Option<u16>
        requires { to < 4096 }
        ensures { IfSome result (λ pc. pc < body.now.end) }
    {
        let mut at = to;
        for _ in body.start..body.end {
            let came = self.came.at(at)?;
            if body.end <= came.from {
                return None;
            }
            if came.begins {
                return Some(came.from);
            }
            at = came.from;
        }
        None
    }

    /// Whether the edges that are noted lead from one place to another, each keeps the counter, and none is from a third place.
    pub(crate) fn lead(
        &self,
        body: &Body,
        touching: &Touching,
        counter: Option<u8>,
        but: Option<u16>,
        from: u16,
        to: u16,
    ) -> bool
        requires inside { to < 4096 }
        requires touched { KnowsTouched body.now.image.now touching.now }
        ensures { result ≡ true → (branches : List Bool) × IsTrailBut body.now.image.now body.now.r counter but from branches to }
    {
        let mut at = to;
        for _ in body.start..body.end {
            if at == from {
                return true;
            }
            let Some(edge) = self.came.at(at) else {
                return false;
            };
            if is_at(but, edge.from) {
                return false;
            }
            if !came_to(body, touching, counter, edge, at) {
                return false;
            }
            at = edge.from;
        }
        false
    }
}
