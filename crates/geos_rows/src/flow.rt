//! Rows flow along the edges that lead ahead.

ghost use Rattle.std.specs.Prelude.{◌≡◌, ◌<◌, ◌≤◌, ◌+◌, ◌*◌, true, IfSome, IfNone};
ghost use Rattle.geos_image.specs.Parts.{start_of};
ghost use Rattle.geos_verify.specs.Rows.{after};
ghost use Rattle.geos_rows.specs.Alike.{StaysAlike};
ghost use Rattle.geos_code.specs.Edges.{IsInside};
ghost use Rattle.geos_code.specs.Known.{clean};
ghost use Rattle.geos_rows.specs.Flow.{has_joined, IsJoin, HaveNoJoin, Arrives, Spreads, Seeded, FlowsBelow, FitAhead, StaysBefore};
ghost use Rattle.geos_rows.specs.Unreached.{StaysKnown};

use crate::common::join;
use geos_code::{Body, Known, Lead, clean, edge_in};
use geos_image::Row;
use geos_verify::after;

/// What is known where another row comes to a place; nothing if they have no join.
fn join_known(old: &Option<Row>, row: &Row) -> Option<Row>
    ensures some { IfSome result (IsJoin old.now row.now) }
    ensures none { IfNone result (HaveNoJoin old.now row.now) }
{
    match old {
        None => Some(*row),
        Some(old) => join(old, row),
    }
}

/// How a row came to a place.
#[derive(Clone, Copy)]
pub(crate) enum Arrival {
    /// No less is known there than was.
    Same,
    /// Less is known there, or something now where nothing was.
    Weaker,
    /// It has no join with what is known there, which stays.
    Apart,
}

impl Arrival {
    /// Whether the row has a join with what was known.
    pub(crate) fn has_joined(self) -> bool
        ensures { result ≡ has_joined self }
    {
        match self {
            Arrival::Same | Arrival::Weaker => true,
            Arrival::Apart => false,
        }
    }
}

/// A row comes to a place, and is joined with what is known there.
fn arrive(known: &mut Known, to: u16, row: &Row) -> Arrival
    requires { to < 4096 }
    ensures arrives { Arrives result known.old to row.now known.new }
    ensures there { StaysKnown known.old known.new }
    ensures stays { StaysBefore to known.old known.new }
{
    // Recalls the lemma.
    known.lengths();
    let old = known.at(to);
    let Some(joined) = join_known(&old, row) else {
        return Arrival::Apart;
    };
    known.set(to, Some(joined));
    match old {
        Some(old) if old == joined => Arrival::Same,
        _ => Arrival::Weaker,
    }
}

/// Propagates a row along an edge: joins the row after the instruction into the row at the edge's target.
pub(crate) fn spread(body: &Body, lead: Lead, row: &Row, known: &mut Known) -> Arrival
    requires { IsInside body.now.image.now body.now.end lead.edge.from lead.edge.branch lead }
    ensures arrives { Arrives result known.old lead.to (after body.now.image.now lead.edge.from (clean row.now) lead.edge.branch) known.new }
    ensures there { StaysKnown known.old known.new }
    ensures stays { StaysBefore lead.to known.old known.new }
{
    let next = after(body.image, lead.edge.from, &clean(row), lead.edge.branch);
    arrive(known, lead.to, &next)
}

/// The row that is known at the pc goes along the edge, if that leads ahead; `false` if it has no
/// join with what is known there.
fn spread_ahead(body: &Body, pc: u16, branch: bool, known: &mut Known) -> bool
    requires above { body.now.start ≤ pc }
    requires below { pc < body.now.end }
    ensures spreads { Spreads body.now.image.now body.now.r pc branch known.old known.new result }
    ensures alike { StaysAlike body.now.image.now body.now.r known.old known.new result }
    ensures stays { StaysBefore pc known.old known.new }
{
    let Some(row) = known.at(pc) else {
        return true;
    };
    let Some(lead) = edge_in(body, pc, branch) else {
        return true;
    };
    if lead.to <= pc {
        return true;
    }
    spread(body, lead, &row, known).has_joined()
}

/// From what is known at first, rows flow along the edges of a routine that lead ahead; `false`
/// where two have no join.
pub(crate) fn flow(body: &Body, known: &mut Known) -> bool
    ensures below { Seeded body.now.image.now body.now.r known.old → FlowsBelow body.now.image.now body.now.r known.new result }
    ensures fit { Seeded body.now.image.now body.now.r known.old → result ≡ true
        → FitAhead body.now.image.now body.now.r known.new (2 * start_of body.now.image.now.routines (body.now.r + 1)) }
    ensures alike { StaysAlike body.now.image.now body.now.r known.old known.new result }
    ensures stays { StaysBefore body.now.start known.old known.new }
{
    for pc in body.start..body.end {
        if !spread_ahead(body, pc, false, known) {
            return false;
        }
        if !spread_ahead(body, pc, true, known) {
            return false;
        }
    }
    true
}
