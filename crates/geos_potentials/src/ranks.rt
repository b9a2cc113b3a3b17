//! Whether each cycle of a routine has a LOOP that may pay: then instructions have ranks that rise along all other edges.

ghost use Rattle.std.specs.Prelude.{◌≡◌, ◌<◌, ◌≤◌, ℕ, true, slice_index, IfOk};
ghost use Rattle.geos_counters.specs.Touching.{KnowsTouched};
ghost use Rattle.geos_counters.specs.Idle.{LeadsIdle, IsNeverPaid};
ghost use Rattle.geos_potentials.specs.Ranks.{AllRise, AreIdleNoted};

use crate::classes::Classes;
use crate::counting::note_edges;
use crate::idle::{are_noted, lead_idle};
use control_graph::{Graph, Pile};
use geos_code::{Body, Known};
use geos_counters::Touching;
use geos_image::{Table, two_tables};
use std::alloc::{AllocError, Global};

/// The rank of each place.
type Ranks = Table<u16>;

/// One more edge leads to where one does.
fn count_edge(body: &Body, classes: &Classes, into: &mut Table<u16>, pc: u16, branch: bool)
    requires above { body.now.start ≤ pc }
    requires below { pc < body.now.end }
{
    if let Some(to) = lead_idle(body, classes, pc, branch) {
        into.set(to, into.at(to).saturating_add(1));
    }
}

/// One edge less leads to where one does; that place waits where none is left.
fn pass_edge(
    body: &Body,
    classes: &Classes,
    into: &mut Table<u16>,
    waits: &mut Pile,
    pc: u16,
    branch: bool,
)
    requires above { body.now.start ≤ pc }
    requires below { pc < body.now.end }
{
    if let Some(to) = lead_idle(body, classes, pc, branch) {
        let left = into.at(to).saturating_sub(1);
        into.set(to, left);
        if left == 0 {
            waits.put(to);
        }
    }
}

/// Counts the edges into each place; those that none leads to wait.
fn count_edges(body: &Body, classes: &Classes, into: &mut Table<u16>, waits: &mut Pile) {
    for pc in body.start..body.end {
        count_edge(body, classes, into, pc, false);
        count_edge(body, classes, into, pc, true);
    }
    for pc in body.start..body.end {
        if into.at(pc) == 0 {
            waits.put(pc);
        }
    }
}

/// Each place has a higher rank than those that lead to it, if control can't go round along these edges: it is ranked when all of them are.
fn rank_all(
    body: &Body,
    classes: &Classes,
    ranks: &mut Ranks,
    into: &mut Table<u16>,
    waits: &mut Pile,
) {
    count_edges(body, classes, into, waits);
    for rank in body.start..body.end {
        let Some(pc) = waits.take() else {
            return;
        };
        ranks.set(pc, rank);
        if body.start <= pc && pc < body.end {
            pass_edge(body, classes, into, waits, pc, false);
            pass_edge(body, classes, into, waits, pc, true);
        }
    }
}

/// Whether ranks rise along an edge, if there is one.
fn rises(body: &Body, classes: &Classes, ranks: &Ranks, pc: u16, branch: bool) -> bool
    requires above { body.now.start ≤ pc }
    requires below { pc < body.now.end }
    requires noted { AreIdleNoted body.now.image.now body.now.r classes.now }
    ensures { result ≡ true → (to : ℕ) → LeadsIdle body.now.image.now body.now.r pc branch to
        → slice_index ranks.now pc < slice_index ranks.now to }
{
    match lead_idle(body, classes, pc, branch) {
        Some(to) => ranks.at(pc) < ranks.at(to),
        None => true,
    }
}

/// Whether ranks rise along all edges.
fn all_rise(body: &Body, classes: &Classes, ranks: &Ranks) -> bool
    requires { AreIdleNoted body.now.image.now body.now.r classes.now }
    ensures { result ≡ true → AllRise body.now.image.now body.now.r ranks.now }
{
    for pc in body.start..body.end {
        if !rises(body, classes, ranks, pc, false) || !rises(body, classes, ranks, pc, true) {
            return false;
        }
    }
    true
}

/// Whether each cycle is found to have a LOOP that may pay, according to the notes on counters.
fn some_may_pay(alloc: Global, body: &Body, classes: &Classes) -> Result<bool, AllocError>
    requires { AreIdleNoted body.now.image.now body.now.r classes.now }
    ensures { IfOk result (λ some. some ≡ true → IsNeverPaid body.now.image.now body.now.r → ⊥) }
{
    let (mut ranks, mut into) = two_tables(alloc, 0, 0)?;
    let mut waits = Pile::new(alloc)?;
    rank_all(body, classes, &mut ranks, &mut into, &mut waits);
    Ok(all_rise(body, classes, &ranks))
}

/// Whether each cycle of a routine is found to have a LOOP that may pay.
pub fn some_always_may_pay(
    alloc: Global,
    body: &Body,
    touching: &Touching,
    known: &Known,
) -> Result<bool, AllocError>
    requires { KnowsTouched body.now.image.now touching.now }
    ensures { IfOk result (λ some. some ≡ true → IsNeverPaid body.now.image.now body.now.r → ⊥) }
{
    let mut graph = Graph::new(alloc)?;
    let mut classes = Classes::new(alloc)?;
    note_edges(&mut graph, body, known, &touching.certain);
    classes.note(body, &graph);
    if are_noted(body, touching, &classes) {
        some_may_pay(alloc, body, &classes)
    } else {
        Ok(false)
    }
}
