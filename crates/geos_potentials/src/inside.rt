//! To which places control comes within a nest.

ghost use Rattle.std.specs.Prelude.{◌≤◌, ◌<◌, ◌+◌, ◌*◌, true, Some};
ghost use Rattle.geos_potentials.specs.Demands.{left_in};

use crate::nests::Splitting;
use crate::spread::{Spread, number_of, only, raise};
use control_graph::{Arc, Graph, Piece, Pile};

/// The edge of a place, if it leads to a place of a nest's piece, and is no LOOP's way to its target that is left out there.
pub(crate) fn arc_in(
    graph: &Graph,
    splitting: &Splitting,
    id: u16,
    piece: &Piece,
    pc: u16,
    branch: bool,
) -> Option<Arc>
    requires { pc < 4096 }
{
    let arc = graph.arc(pc, branch)?;
    if branch && splitting.jumps.at(pc).is_left_out_in(id) {
        return None;
    }
    if splitting.order.has(piece, arc.to) {
        Some(arc)
    } else {
        None
    }
}

/// Control comes along an edge within a nest, if it comes to the place.
fn come_along(
    graph: &Graph,
    splitting: &Splitting,
    id: u16,
    piece: &Piece,
    seen: &mut Spread,
    waits: &mut Pile,
    pc: u16,
    branch: bool,
)
    requires { pc < 4096 }
    ensures { 2 * left_in seen.new + waits.new.count ≤ 2 * left_in seen.old + waits.old.count }
{
    if let Some(arc) = arc_in(graph, splitting, id, piece, pc, branch) {
        let here = *seen.get(pc);
        raise(seen, waits, arc.to, &here);
    }
}

/// Propagates within a nest from the worklist, whose instructions begin at a lowest pc.
fn come_on(
    graph: &Graph,
    splitting: &Splitting,
    id: u16,
    piece: &Piece,
    low: u16,
    seen: &mut Spread,
    waits: &mut Pile,
) {
    while let Some(pc) = waits.take() {
        if low <= pc {
            come_along(graph, splitting, id, piece, seen, waits, pc, false);
            come_along(graph, splitting, id, piece, seen, waits, pc, true);
        }
    }
}

/// Whether control comes from one place to another within a nest; `seen` is only written.
pub(crate) fn comes_in(
    graph: &Graph,
    splitting: &Splitting,
    id: u16,
    piece: &Piece,
    from: u16,
    to: u16,
    seen: &mut Spread,
    waits: &mut Pile,
) -> bool
    requires begins { from < 4096 }
    requires ends { to < 4096 }
{
    seen.fill_from(0, [0; 4]);
    let one = only(0, 1);
    raise(seen, waits, from, &one);
    come_on(graph, splitting, id, piece, 0, seen, waits);
    0 < number_of(seen.get(to), 0)
}
