//! Nests that wait on each other in a ring: each is to be paid for again whenever the next one is.

ghost use Rattle.std.specs.Prelude.{◌<◌, true, IfSome};

use crate::inside::comes_in;
use crate::nests::{Nests, Splitting};
use crate::spread::{Spread, go_on, number_of, only, raise};
use control_graph::{Arc, Graph, Order, Piece, Pile};
use geos_image::MOST_INSTRS;

// Where a nest waits on another

/// The edge of a place to the next instruction, if it stays in a piece, and sets a counter there to more than 0.
fn set_in(graph: &Graph, order: &Order, piece: &Piece, counter: u8, at: u16) -> Option<Arc>
    requires { at < 4096 }
{
    let arc = graph.arc(at, false)?;
    let (set, _) = arc.sets()?;
    if set == counter && order.has(piece, at) && order.has(piece, arc.to) {
        Some(arc)
    } else {
        None
    }
}

/// Notes the instructions to which a path from a given one leaves a counter unchanged.
fn note_kept(graph: &Graph, from: u16, counter: u8, kept: &mut Spread, waits: &mut Pile)
    requires { from < 4096 }
{
    kept.fill_from(0, [0; 4]);
    let one = only(counter, 1);
    raise(kept, waits, from, &one);
    go_on(graph, 0, kept, waits);
}

/// Whether a LOOP at a place takes from a counter, and pays in a nest.
fn loop_pays(graph: &Graph, splitting: &Splitting, nest: u16, counter: u8, at: u16) -> bool
    requires { at < 4096 }
{
    let Some(arc) = graph.arc(at, true) else {
        return false;
    };
    let Some(taken) = arc.takes() else {
        return false;
    };
    taken == counter && splitting.jumps.at(at).pays_in(nest)
}

/// Whether some path from an instruction leaves a counter unchanged up to a LOOP that takes from it, and that pays in a nest. `kept` has the
/// instructions at the ends of those paths.
fn leads_to_paying(
    graph: &Graph,
    splitting: &Splitting,
    nest: u16,
    piece: &Piece,
    counter: u8,
    kept: &Spread,
) -> bool {
    for x in piece.begin..piece.end {
        let pc = splitting.order.place(x);
        if 0 < number_of(kept.get(pc), counter) && loop_pays(graph, splitting, nest, counter, pc) {
            return true;
        }
    }
    false
}

/// The nest on which one waits, as was noted last, if it does.
fn waited_on(
    graph: &Graph,
    splitting: &Splitting,
    id: u16,
    kept: &mut Spread,
    waits: &mut Pile,
) -> Option<u16>
    requires { id < 4096 }
    ensures inside { IfSome result (λ on. on < 4096) }
{
    let nest = splitting.nests.at(id);
    let wait = nest.due_by?;
    let on = wait.on;
    if splitting.nests.count() <= id || on == id || MOST_INSTRS <= on || MOST_INSTRS <= wait.at {
        return None;
    }
    let other = splitting.nests.at(on);
    let arc = set_in(graph, &splitting.order, &nest.piece, other.counter, wait.at)?;
    if !comes_in(
        graph,
        splitting,
        id,
        &nest.piece,
        arc.to,
        wait.at,
        kept,
        waits,
    ) {
        return None;
    }
    note_kept(graph, arc.to, other.counter, kept, waits);
    if leads_to_paying(graph, splitting, on, &other.piece, other.counter, kept) {
        Some(on)
    } else {
        None
    }
}

// Rings

/// Whether the nests from one on, each of which waits on the next, come round to it.
fn is_ring(
    graph: &Graph,
    splitting: &Splitting,
    first: u16,
    kept: &mut Spread,
    waits: &mut Pile,
) -> bool
    requires { first < 4096 }
{
    let mut id = first;
    for _ in 0..MOST_INSTRS {
        let Some(on) = waited_on(graph, splitting, id, kept, waits) else {
            return false;
        };
        if on == first {
            return true;
        }
        id = on;
    }
    false
}

/// A nest of a ring of nests that wait for each other: the nest after as many steps as there are nests, each to the nest for which the last
/// was noted to wait in the later half of the rounds.
fn on_ring(nests: &Nests, from: u16, round: u32) -> Option<u16>
    requires { from < 4096 }
    ensures { IfSome result (λ id. id < 4096) }
{
    let mut id = from;
    for _ in 0..nests.count() {
        let wait = nests.at(id).due_by?;
        if wait.round <= round / 2 || MOST_INSTRS <= wait.on {
            return None;
        }
        id = wait.on;
    }
    Some(id)
}

/// A nest of a ring that wait on each other, if one that is to be paid for waits on it, as was noted in the later half of so many rounds.
pub(crate) fn find_ring(
    graph: &Graph,
    splitting: &Splitting,
    round: u32,
    kept: &mut Spread,
    waits: &mut Pile,
) -> Option<u16> {
    for id in 0..splitting.nests.count().min(MOST_INSTRS) {
        if splitting.nests.at(id).due {
            if let Some(first) = on_ring(&splitting.nests, id, round) {
                return if is_ring(graph, splitting, first, kept, waits) {
                    Some(first)
                } else {
                    None
                };
            }
        }
    }
    None
}
