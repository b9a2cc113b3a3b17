//! Loops that wait on each other in a ring: each sets the counter of the next.

ghost use Rattle.std.specs.Prelude.{◌≡◌, ◌<◌, true, List, IfSome};
ghost use Rattle.geos_counters.specs.Touching.{KnowsTouched};
ghost use Rattle.loop_causes.specs.Causes.{LoopsTo, SetsFor, WaitOn, WaitInRing};
ghost use Rattle.geos_flow.specs.declared.back_way.BackWay.{BackWay};

use crate::in_turn::nest_of;
use control_graph::Graph;
use geos_code::Body;
use geos_counters::Touching;
use geos_flow::{BackWay, LoopRing};
use geos_image::MOST_INSTRS;
use geos_potentials::{Nest, Splitting};
use loop_causes::{Trails, loop_at, note_set, set_for};

/// How many loops are followed: so many that one comes round, on a small ring, to the loop with which one began.
const LOOPS: u16 = 60;

/// A loop for which another waits.
#[derive(Clone, Copy)]
struct Awaited {
    /// The way of its LOOP to its target.
    back: BackWay,
    /// The counter that it takes from.
    counter: u8,
    /// The pc in the other where that is set for it.
    at: u16,
}

/// The LOOP that pays in a nest, and to which a path from where another nest sets its counter leaves the counter unchanged.
fn set_in(
    body: &Body,
    graph: &Graph,
    splitting: &Splitting,
    nest: &Nest,
    on: u16,
    trails: &mut Trails,
) -> Option<u16>
    requires { on < 4096 }
    ensures { IfSome result (λ pc. pc < body.now.end) }
{
    let counter = splitting.nests.at(on).counter;
    note_set(
        body,
        graph,
        &splitting.order,
        &nest.piece,
        counter,
        None,
        trails,
    );
    for pc in body.start..body.end {
        if nest_of(splitting, pc) == Some(on) && trails.comes(pc) {
            return Some(pc);
        }
    }
    None
}

/// The loop for which that of a LOOP, which takes from a counter, waits, by what was noted of their nests.
fn awaited_by(
    body: &Body,
    touching: &Touching,
    graph: &Graph,
    splitting: &Splitting,
    back: &BackWay,
    own: u8,
    trails: &mut Trails,
) -> Option<Awaited>
    requires from { back.now.from < 4096 }
    requires to { back.now.to < 4096 }
    requires touched { KnowsTouched body.now.image.now touching.now }
    ensures loops { IfSome result (λ other. LoopsTo body.now.image.now body.now.r other.back other.counter) }
    ensures sets { IfSome result (λ other. SetsFor body.now.image.now body.now.r back.now own other.back other.counter other.at) }
    ensures from { IfSome result (λ other. other.back.from < 4096) }
    ensures to { IfSome result (λ other. other.back.to < 4096) }
{
    let nest = splitting.nests.at(nest_of(splitting, back.from)?);
    let on = nest.due_by?.on;
    if MOST_INSTRS <= on {
        return None;
    }
    let pc = set_in(body, graph, splitting, &nest, on, trails)?;
    let (other, counter) = loop_at(body, pc)?;
    let order = &splitting.order;
    let piece = &nest.piece;
    let at = set_for(
        body, touching, graph, order, piece, back, own, &other, counter, trails,
    )?;
    Some(Awaited {
        back: other,
        counter,
        at,
    })
}

/// Whether loops from one on, that of a LOOP which takes from a counter, wait each for the next, up to another.
fn wait_on(
    body: &Body,
    touching: &Touching,
    graph: &Graph,
    splitting: &Splitting,
    from: &BackWay,
    own: u8,
    to: &BackWay,
    trails: &mut Trails,
) -> bool
    requires first_from { from.now.from < 4096 }
    requires first_to { from.now.to < 4096 }
    requires loops { LoopsTo body.now.image.now body.now.r from.now own }
    requires touched { KnowsTouched body.now.image.now touching.now }
    ensures { result ≡ true → (others : List BackWay) × WaitOn body.now.image.now body.now.r from.now others to.now }
{
    let mut back = *from;
    let mut taken = own;
    for _ in 0..LOOPS {
        if back.from == to.from && back.to == to.to {
            return true;
        }
        let Some(other) = awaited_by(body, touching, graph, splitting, &back, taken, trails) else {
            return false;
        };
        back = other.back;
        taken = other.counter;
    }
    false
}

/// The last loop, and its counter, of the chain in which each loop waits for the next, from that of a LOOP on.
fn last_awaited(
    body: &Body,
    touching: &Touching,
    graph: &Graph,
    splitting: &Splitting,
    from: u16,
    trails: &mut Trails,
) -> Option<(BackWay, u8)>
    requires here { from < body.now.end }
    requires touched { KnowsTouched body.now.image.now touching.now }
    ensures loops { IfSome result (λ last. LoopsTo body.now.image.now body.now.r last.0 last.1) }
    ensures from { IfSome result (λ last. last.0.from < 4096) }
    ensures to { IfSome result (λ last. last.0.to < 4096) }
{
    let (mut back, mut taken) = loop_at(body, from)?;
    for _ in 0..LOOPS {
        let other = awaited_by(body, touching, graph, splitting, &back, taken, trails)?;
        back = other.back;
        taken = other.counter;
    }
    Some((back, taken))
}

/// The LOOP whose nest was paid for most often, if that was again and again.
fn most_paid(body: &Body, splitting: &Splitting) -> Option<u16>
    ensures { IfSome result (λ pc. pc < body.now.end) }
{
    let mut most = 2;
    let mut found = None;
    for pc in body.start..body.end {
        if let Some(nest) = nest_of(splitting, pc) {
            let paid = splitting.nests.at(nest).paid;
            if most < paid {
                most = paid;
                found = Some(pc);
            }
        }
    }
    found
}

/// Loops that wait on each other in a ring, if the one that was paid for most often comes to them.
pub(crate) fn find_in_ring(
    body: &Body,
    touching: &Touching,
    graph: &Graph,
    splitting: &Splitting,
    trails: &mut Trails,
) -> Option<LoopRing>
    requires { KnowsTouched body.now.image.now touching.now }
    ensures { IfSome result (WaitInRing body.now.image.now body.now.r) }
{
    let from = most_paid(body, splitting)?;
    let (back, counter) = last_awaited(body, touching, graph, splitting, from, trails)?;
    let next = awaited_by(body, touching, graph, splitting, &back, counter, trails)?;
    let third = awaited_by(
        body,
        touching,
        graph,
        splitting,
        &next.back,
        next.counter,
        trails,
    )?;
    if wait_on(
        body,
        touching,
        graph,
        splitting,
        &third.back,
        third.counter,
        &back,
        trails,
    ) {
        Some(LoopRing {
            back,
            counter,
            at: next.at,
            next: next.back,
            next_counter: next.counter,
            next_at: third.at,
            third_counter: third.counter,
        })
    } else {
        None
    }
}
