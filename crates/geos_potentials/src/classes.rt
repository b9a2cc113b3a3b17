//! The places at which a counter may not have a coefficient, and what a unit of the coefficient costs.

ghost use Rattle.std.specs.Prelude.{◌≡◌, ◌≤◌, ◌<◌, ◌==◌, ◌&&◌, ℕ, true, false, not, slice_index, slice_index_or};
ghost use Rattle.geos_potentials.specs.Arcs.{unit_at};
ghost use Rattle.control_graph.specs.Arcs.{forgets};
ghost use Rattle.geos_code.specs.Code.{IsPcOf};
ghost use Rattle.geos_potentials.specs.Ranks.{noted_idle};
ghost use Rattle.geos_potentials.specs.Spreads.{ComeBehind, ComeFrom, ForgetsIt};
ghost use Rattle.geos_potentials.specs.Stuck.{StayNoted};
ghost use Rattle.control_graph.specs.declared.arcs.Counting.TheVariants.{Sets};

use crate::spread::{Spread, go_on, number_of, only, raise};
use control_graph::{Arc, Counting, Graph, Order, Piece, Pile};
use geos_code::Body;
use geos_image::{Table, two_tables};
use std::alloc::{AllocError, Global};

/// What is known of counters at each place.
#[derive(Drop)]
pub(crate) struct Classes {
    /// 1 where control comes with the counter as a call left it that touches it.
    touched: Spread,
    /// 1 where it comes with the counter as it was where the routine begins.
    unset: Spread,
    /// The greatest number that the counter is set to from where it comes with it; 0 if there is none.
    prices: Spread,
    /// 1 where it comes with the counter as it was set among the places that were looked at last.
    set_within: Spread,
    waits: Pile,
}

/// 1 of each of these counters.
fn ones(counters: &[bool; 4]) -> [u32; 4]
    ensures { (k : ℕ) → 0 < slice_index result k → slice_index_or counters.now k false ≡ true }
{
    let [c0, c1, c2, c3] = *counters;
    [u32::from(c0), u32::from(c1), u32::from(c2), u32::from(c3)]
}

/// 1 of each counter of which an edge forgets what is known.
fn forgets(arc: &Arc) -> [u32; 4]
    ensures { (k : ℕ) → 0 < slice_index result k → ForgetsIt k (slice_index result k) arc.now.counting }
{
    match arc.counting {
        Counting::Forgets(counters) => ones(&counters),
        _ => [0; 4],
    }
}

/// What an edge sets its counter to.
fn sets(arc: &Arc) -> [u32; 4] {
    match arc.counting {
        Counting::Sets(counter, most) => only(counter, u32::from(most)),
        _ => [0; 4],
    }
}

/// 1 of the counter that an edge sets.
fn sets_some(arc: &Arc) -> [u32; 4] {
    match arc.sets() {
        Some((counter, _)) => only(counter, 1),
        None => [0; 4],
    }
}

/// Notes where control comes with counters as they are where a routine begins.
fn note_unset(body: &Body, graph: &Graph, unset: &mut Spread, waits: &mut Pile)
    ensures { ComeFrom graph.now.arcs body.now.start unset.new }
{
    unset.fill_from(body.start, [0; 4]);
    // Recalls the lemma.
    unset.lengths();
    raise(unset, waits, body.start, &[1; 4]);
    go_on(graph, body.start, unset, waits);
}

/// Notes where it comes with them as calls in the routine leave them that touch them.
fn note_touched(body: &Body, graph: &Graph, touched: &mut Spread, waits: &mut Pile)
    ensures { ComeBehind graph.now.arcs body.now.start (IsPcOf body.now.image.now body.now.r) ForgetsIt touched.new }
{
    touched.fill_from(body.start, [0; 4]);
    // Recalls the lemma.
    touched.lengths();
    for pc in body.start..body.end {
        if let Some(arc) = graph.arc(pc, false) {
            raise(touched, waits, arc.to, &forgets(&arc));
        }
    }
    go_on(graph, body.start, touched, waits);
}

/// Notes the greatest number that the routine sets each to.
fn note_prices(body: &Body, graph: &Graph, prices: &mut Spread, waits: &mut Pile) {
    prices.fill_from(body.start, [0; 4]);
    for pc in body.start..body.end {
        if let Some(arc) = graph.arc(pc, false) {
            raise(prices, waits, arc.to, &sets(&arc));
        }
    }
    go_on(graph, body.start, prices, waits);
}

/// Notes the counter that the edge of a place to the next instruction sets, where that leads, if it stays in the piece.
fn raise_set(
    graph: &Graph,
    order: &Order,
    piece: &Piece,
    x: u16,
    set: &mut Spread,
    waits: &mut Pile,
)
    requires above { piece.now.begin ≤ x }
    requires below { x < piece.now.end }
{
    let pc = order.place(x);
    let Some(arc) = graph.arc(pc, false) else {
        return;
    };
    if order.has(piece, arc.to) {
        raise(set, waits, arc.to, &sets_some(&arc));
    }
}

/// Notes where control comes with counters as they are set in a piece.
fn note_set(
    start: u16,
    graph: &Graph,
    order: &Order,
    piece: &Piece,
    set: &mut Spread,
    waits: &mut Pile,
)
    requires { start < 4096 }
{
    set.fill_from(start, [0; 4]);
    for x in piece.begin..piece.end {
        raise_set(graph, order, piece, x, set, waits);
    }
    go_on(graph, start, set, waits);
}

impl Classes {
    /// Nothing is noted.
    pub(crate) fn new(alloc: Global) -> Result<Classes, AllocError> {
        let (touched, unset) = two_tables(alloc, [0; 4], [0; 4])?;
        let (prices, set_within) = two_tables(alloc, [0; 4], [0; 4])?;
        let waits = Pile::new(alloc)?;
        Ok(Classes {
            touched,
            unset,
            prices,
            set_within,
            waits,
        })
    }

    /// Notes what is known of counters in a routine.
    pub(crate) fn note(&mut self, body: &Body, graph: &Graph)
        ensures touched { ComeBehind graph.now.arcs body.now.start (IsPcOf body.now.image.now body.now.r) ForgetsIt self.new.touched }
        ensures unset { ComeFrom graph.now.arcs body.now.start self.new.unset }
    {
        note_unset(body, graph, &mut self.unset, &mut self.waits);
        note_touched(body, graph, &mut self.touched, &mut self.waits);
        note_prices(body, graph, &mut self.prices, &mut self.waits);
    }

    /// Notes where control comes with counters as they are set in a piece.
    pub(crate) fn note_set_within(
        &mut self,
        start: u16,
        graph: &Graph,
        order: &Order,
        piece: &Piece,
    )
        requires { start < 4096 }
        ensures { StayNoted self.old self.new }
    {
        note_set(
            start,
            graph,
            order,
            piece,
            &mut self.set_within,
            &mut self.waits,
        );
    }

    /// Whether a call that touches a counter leaves it so for a place.
    pub(crate) fn is_touched(&self, pc: u16, counter: u8) -> bool
        requires { pc < 4096 }
        ensures { result ≡ not (unit_at self.now.touched pc counter == 0) }
    {
        number_of(self.touched.get(pc), counter) != 0
    }

    /// Whether a counter may be at a place what it was where the routine begins.
    pub(crate) fn is_unset(&self, pc: u16, counter: u8) -> bool
        requires { pc < 4096 }
        ensures { result ≡ not (unit_at self.now.unset pc counter == 0) }
    {
        number_of(self.unset.get(pc), counter) != 0
    }

    /// Whether a counter may not pay at a place: a call leaves it so, or the routine begins with it.
    pub(crate) fn is_idle(&self, pc: u16, counter: u8) -> bool
        requires { pc < 4096 }
        ensures { result ≡ noted_idle self.now pc counter }
    {
        self.is_touched(pc, counter) || self.is_unset(pc, counter)
    }

    /// What a unit of a counter costs at a place where the counter is set for it.
    pub(crate) fn price(&self, pc: u16, counter: u8) -> u32
        requires { pc < 4096 }
    {
        number_of(self.prices.get(pc), counter)
    }

    /// Whether a counter may be at a place what it was set to in the piece that was looked at last.
    pub(crate) fn is_set_within(&self, pc: u16, counter: u8) -> bool
        requires { pc < 4096 }
    {
        number_of(self.set_within.get(pc), counter) != 0
    }

    /// Whether a counter is 0 at a place.
    pub(crate) fn is_spent(&self, pc: u16, counter: u8) -> bool
        requires { pc < 4096 }
    {
        !self.is_idle(pc, counter) && self.price(pc, counter) == 0
    }
}
