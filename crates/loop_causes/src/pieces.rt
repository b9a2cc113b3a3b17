//! Causes in a component.

ghost use Rattle.std.specs.Prelude.{◌<◌, IfSome};
ghost use Rattle.control_graph.specs.Orders.{HasPlace};
ghost use Rattle.geos_counters.specs.Idle.{IsNeverPaid};
ghost use Rattle.geos_counters.specs.Touching.{KnowsTouched};
ghost use Rattle.loop_causes.specs.Causes.{SetsWithin, Holds};
ghost use Rattle.loop_causes.specs.Tells.{IsOfLoop, IsOfPiece};

use crate::idle::find_touched;
use crate::trails::Trails;
use crate::within::{find_set_again, find_set_within};
use control_graph::{Graph, Order, Piece};
use geos_code::Body;
use geos_counters::Touching;
use geos_flow::{Cause, Within};

/// Why the LOOP at a pc of a component may not pay there, if some cycle has no LOOP that may.
fn cause_at(
    body: &Body,
    touching: &Touching,
    graph: &Graph,
    order: &Order,
    piece: &Piece,
    from: u16,
    trails: &mut Trails,
) -> Option<Cause>
    requires here { from < body.now.end }
    requires touched { KnowsTouched body.now.image.now touching.now }
    requires never { IsNeverPaid body.now.image.now body.now.r }
    ensures holds { IfSome result (Holds body.now.image.now body.now.r) }
    ensures at { IfSome result (IsOfLoop from) }
{
    if let Some(within) = find_set_within(body, touching, graph, order, piece, from, trails) {
        return Some(Cause::SetWithin(within));
    }
    find_touched(body, touching, graph, order, piece, from, trails)
}

/// The first cause for which a LOOP of a component may not pay there, if some cycle has no LOOP that may.
pub fn first_cause(
    body: &Body,
    touching: &Touching,
    graph: &Graph,
    order: &Order,
    piece: &Piece,
    trails: &mut Trails,
) -> Option<Cause>
    requires touched { KnowsTouched body.now.image.now touching.now }
    requires never { IsNeverPaid body.now.image.now body.now.r }
    ensures holds { IfSome result (Holds body.now.image.now body.now.r) }
    ensures tells { IfSome result (IsOfPiece order.now piece.now) }
{
    for pc in body.start..body.end {
        if order.has(piece, pc) {
            if let Some(cause) = cause_at(body, touching, graph, order, piece, pc, trails) {
                return Some(cause);
            }
        }
    }
    None
}

/// The first instruction found in a component that sets the counter of a LOOP for it.
fn find_set(
    body: &Body,
    touching: &Touching,
    graph: &Graph,
    order: &Order,
    piece: &Piece,
    trails: &mut Trails,
) -> Option<Within>
    requires { KnowsTouched body.now.image.now touching.now }
    ensures holds { IfSome result (SetsWithin body.now.image.now body.now.r) }
    ensures place { IfSome result (λ within. HasPlace order.now piece.now within.back.from) }
{
    for pc in body.start..body.end {
        if order.has(piece, pc) {
            if let Some(within) = find_set_within(body, touching, graph, order, piece, pc, trails) {
                return Some(within);
            }
        }
    }
    None
}

/// The instruction of a component that sets the counter of a LOOP for it, as the cause.
pub fn cause_of_set(
    body: &Body,
    touching: &Touching,
    graph: &Graph,
    order: &Order,
    piece: &Piece,
    trails: &mut Trails,
) -> Option<Cause>
    requires { KnowsTouched body.now.image.now touching.now }
    ensures holds { IfSome result (Holds body.now.image.now body.now.r) }
    ensures tells { IfSome result (IsOfPiece order.now piece.now) }
{
    match find_set(body, touching, graph, order, piece, trails) {
        Some(within) => Some(Cause::SetWithin(within)),
        None => None,
    }
}

/// The instruction of a component that sets the counter of a LOOP for it, whatever it was at the loop's head, as the cause.
pub fn cause_of_set_again(
    body: &Body,
    touching: &Touching,
    graph: &Graph,
    order: &Order,
    piece: &Piece,
    trails: &mut Trails,
) -> Option<Cause>
    requires { KnowsTouched body.now.image.now touching.now }
    ensures holds { IfSome result (Holds body.now.image.now body.now.r) }
    ensures tells { IfSome result (IsOfPiece order.now piece.now) }
{
    for pc in body.start..body.end {
        if order.has(piece, pc) {
            if let Some(within) = find_set_again(body, touching, graph, order, piece, pc, trails) {
                return Some(Cause::SetAgain(within));
            }
        }
    }
    None
}
