//! Ways round on which no LOOP may pay: why one of them may not.

ghost use Rattle.std.specs.Prelude.{◌≡◌, ◌<◌, true, IfSome};
ghost use Rattle.geos_counters.specs.Idle.{IsNeverPaid};
ghost use Rattle.geos_counters.specs.Touching.{KnowsTouched};
ghost use Rattle.loop_causes.specs.Causes.{TakesUnset, Holds};
ghost use Rattle.loop_causes.specs.Tells.{IsOfLoop, tells_of_ways};

use crate::trails::Trails;
use crate::within::{comes_round, find_touched_before, find_touched_within, loop_at};
use control_graph::{Graph, Order, Piece};
use geos_code::Body;
use geos_counters::Touching;
use geos_flow::{Cause, LoopOn};

/// The LOOP at a pc, if it is on a cycle, and some path to it does not set its counter.
fn find_not_set(
    body: &Body,
    touching: &Touching,
    graph: &Graph,
    from: u16,
    trails: &mut Trails,
) -> Option<LoopOn>
    requires here { from < body.now.end }
    requires touched { KnowsTouched body.now.image.now touching.now }
    ensures { IfSome result (TakesUnset body.now.image.now body.now.r) }
{
    let (back, counter) = loop_at(body, from)?;
    if comes_round(
        body,
        touching,
        graph,
        trails,
        Some(counter),
        body.start,
        from,
    ) && comes_round(body, touching, graph, trails, None, back.to, from)
    {
        Some(LoopOn { back, counter })
    } else {
        None
    }
}

/// A call because of which the LOOP at a pc may not pay, those in a component first, if some cycle has no LOOP that may pay.
pub(crate) fn find_touched(
    body: &Body,
    touching: &Touching,
    graph: &Graph,
    order: &Order,
    piece: &Piece,
    from: u16,
    trails: &mut Trails,
) -> Option<Cause>
    requires here { from < body.now.end }
    requires touched { KnowsTouched body.now.image.now touching.now }
    requires never { IsNeverPaid body.now.image.now body.now.r }
    ensures holds { IfSome result (Holds body.now.image.now body.now.r) }
    ensures at { IfSome result (IsOfLoop from) }
    ensures tells { IfSome result (λ cause. tells_of_ways cause ≡ true) }
{
    if let Some(within) = find_touched_within(body, touching, graph, order, piece, from, trails) {
        return Some(Cause::TouchedWithin(within));
    }
    match find_touched_before(body, touching, graph, from, trails) {
        Some(before) => Some(Cause::TouchedBefore(before)),
        None => None,
    }
}

/// Why the LOOP at a pc of a component may not pay, if some cycle has no LOOP that may.
fn idle_at(
    body: &Body,
    touching: &Touching,
    graph: &Graph,
    order: &Order,
    piece: &Piece,
    from: u16,
    trails: &mut Trails,
) -> Option<Cause>
    requires here { from < body.now.end }
    requires touched { KnowsTouched body.now.image.now touching.now }
    requires never { IsNeverPaid body.now.image.now body.now.r }
    ensures holds { IfSome result (Holds body.now.image.now body.now.r) }
    ensures tells { IfSome result (λ cause. tells_of_ways cause ≡ true) }
{
    if let Some(cause) = find_touched(body, touching, graph, order, piece, from, trails) {
        return Some(cause);
    }
    match find_not_set(body, touching, graph, from, trails) {
        Some(found) => Some(Cause::NotSet(found)),
        None => None,
    }
}

/// Why the first LOOP of a component that may not pay does not, if some cycle has no LOOP that may.
pub fn first_idle(
    body: &Body,
    touching: &Touching,
    graph: &Graph,
    order: &Order,
    piece: &Piece,
    trails: &mut Trails,
) -> Option<Cause>
    requires touched { KnowsTouched body.now.image.now touching.now }
    requires never { IsNeverPaid body.now.image.now body.now.r }
    ensures holds { IfSome result (Holds body.now.image.now body.now.r) }
    ensures tells { IfSome result (λ cause. tells_of_ways cause ≡ true) }
{
    for pc in body.start..body.end {
        if order.has(piece, pc) {
            if let Some(cause) = idle_at(body, touching, graph, order, piece, pc, trails) {
                return Some(cause);
            }
        }
    }
    None
}
