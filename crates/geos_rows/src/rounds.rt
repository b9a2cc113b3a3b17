//! Rows flow on along the edges of a routine, until nothing new comes to any place.

ghost use Rattle.std.specs.Prelude.{◌<◌, true};
ghost use Rattle.geos_rows.specs.Alike.{AllComeAlike, GoesAlike, StaysAlike};
ghost use Rattle.geos_code.specs.Edges.{IsInside};
ghost use Rattle.geos_rows.specs.Flow.{has_joined};
ghost use Rattle.geos_rows.specs.Unreached.{StaysKnown};

use crate::flow::{Arrival, spread};
use crate::waiting::Waiting;
use crate::widening::{Kept, widened};
use geos_code::{Body, Known, Lead, edge_in};
use geos_image::Row;

/// How often places go along their edges at most: each of 4,096 does so 100 times until all that changes there is given up, and then 22
/// times more, since 8 bounds and 4 pointers are given up, 4 slots lose a mark, and 6 pairs go.
pub(crate) const PASSES: u32 = 4096 * 256;

/// Weakens the row at a pc, and stores as much of the join as `kept` says.
fn widen(body: &Body, kept: Kept, old: &Option<Row>, to: u16, known: &mut Known)
    requires { to < 4096 }
    ensures there { StaysKnown known.old known.new }
    ensures alike { AllComeAlike body.now.image.now body.now.r known.old → AllComeAlike body.now.image.now body.now.r known.new }
{
    // Recalls the lemma.
    known.lengths();
    if let (Some(old), Some(joined)) = (old, known.at(to)) {
        known.set(to, Some(widened(body, kept, old, &joined)));
    }
}

/// Propagates a row along an edge. If the row at the target becomes weaker, the target is added to the worklist.
pub(crate) fn pass(
    body: &Body,
    lead: Lead,
    row: &Row,
    waiting: &mut Waiting,
    known: &mut Known,
) -> Arrival
    requires { IsInside body.now.image.now body.now.end lead.edge.from lead.edge.branch lead }
    ensures there { StaysKnown known.old known.new }
    ensures alike { GoesAlike body.now.image.now body.now.r lead row.now
        → StaysAlike body.now.image.now body.now.r known.old known.new (has_joined result) }
{
    let old = known.at(lead.to);
    let arrival = spread(body, lead, row, known);
    if let Arrival::Weaker = arrival {
        let kept = waiting.weaken(lead);
        if !kept.is_join() {
            widen(body, kept, &old, lead.to, known);
        }
        waiting.wait(lead.to);
    }
    arrival
}

/// What is known at a pc of the routine goes along one edge of the instruction there, if it stays in the routine; `false` if it has
/// no join with what is known there.
fn pass_from(body: &Body, pc: u16, branch: bool, waiting: &mut Waiting, known: &mut Known) -> bool
    ensures { StaysAlike body.now.image.now body.now.r known.old known.new result }
{
    if pc < body.start || body.end <= pc {
        return true;
    }
    let Some(row) = known.at(pc) else {
        return true;
    };
    let Some(lead) = edge_in(body, pc, branch) else {
        return true;
    };
    pass(body, lead, &row, waiting, known).has_joined()
}

/// Rows of a routine flow on from the places that wait, along all its edges until nothing new comes to any place; `false` if two
/// have no join.
pub(crate) fn flow_on(body: &Body, waiting: &mut Waiting, known: &mut Known) -> bool
    ensures { StaysAlike body.now.image.now body.now.r known.old known.new true }
{
    for _ in 0..PASSES {
        let Some(pc) = waiting.take() else {
            return true;
        };
        for branch in [false, true] {
            if !pass_from(body, pc, branch, waiting, known) {
                return false;
            }
        }
    }
    false
}
