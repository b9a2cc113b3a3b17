//! Loops in which the counter of another is set.

ghost use Rattle.std.specs.Prelude.{◌<◌, IfSome};
ghost use Rattle.geos_counters.specs.Touching.{KnowsTouched};
ghost use Rattle.loop_causes.specs.Causes.{SetsFor};

use crate::trails::Trails;
use crate::within::{comes_round, kept_from, note_set, sets_at};
use control_graph::{Graph, Order, Piece};
use geos_code::Body;
use geos_counters::Touching;
use geos_flow::BackWay;

/// An instruction of a piece, in the loop that a LOOP closes with its own counter, that sets the counter of another LOOP, and from which
/// some path leaves it unchanged up to that LOOP.
pub fn set_for(
    body: &Body,
    touching: &Touching,
    graph: &Graph,
    order: &Order,
    piece: &Piece,
    back: &BackWay,
    own: u8,
    other: &BackWay,
    counter: u8,
    trails: &mut Trails,
) -> Option<u16>
    requires from { back.now.from < 4096 }
    requires to { back.now.to < 4096 }
    requires other { other.now.from < 4096 }
    requires touched { KnowsTouched body.now.image.now touching.now }
    ensures { IfSome result (SetsFor body.now.image.now body.now.r back.now own other.now counter) }
{
    note_set(body, graph, order, piece, counter, None, trails);
    let at = kept_from(body, touching, trails, counter, None, other.from)?;
    if back.from != other.from
        && sets_at(body, counter, at)
        && comes_round(body, touching, graph, trails, Some(own), back.to, at)
        && comes_round(body, touching, graph, trails, Some(own), at, back.from)
    {
        Some(at)
    } else {
        None
    }
}
