//! Numbers of counters go along edges, or back over them, as long as these keep the counters; at each place the greatest stays.

ghost use Rattle.std.specs.Prelude.{◌≡◌, ◌≤◌, ◌<◌, ◌+◌, ◌*◌, ℕ, true, false, max, length, slice_index, slice_index_or, slice_set};
ghost use Rattle.geos_verify.specs.Lists.{zip2};
ghost use Rattle.control_graph.specs.Arcs.{arc_at, taken_from};
ghost use Rattle.geos_potentials.specs.Demands.{kept_over, left_in, AreRaised, HaveGrown, StayWanted};
ghost use Rattle.geos_potentials.specs.Least.{is_free, StayAtLoops};
ghost use Rattle.geos_counters.specs.Counters.{zeros};
ghost use Rattle.geos_potentials.specs.Spreads.{HaveCome, StayCome};
ghost use Rattle.control_graph.specs.declared.arcs.Arc.{Arc};
ghost use Rattle.control_graph.specs.declared.jumps.Jump.TheVariants.{Plain};

use control_graph::{Arc, Graph, Jump, Jumps, Pile};
use geos_image::{MOST_INSTRS, Table};

/// A number of each counter at each place.
pub type Spread = Table<[u32; 4]>;

/// The numbers of the counters that an edge keeps; 0 of the others.
fn kept(arc: &Arc, numbers: &[u32; 4]) -> [u32; 4]
    ensures { result ≡ kept_over arc.now.counting numbers.now }
{
    let [n0, n1, n2, n3] = *numbers;
    [
        if arc.keeps(0) { n0 } else { 0 },
        if arc.keeps(1) { n1 } else { 0 },
        if arc.keeps(2) { n2 } else { 0 },
        if arc.keeps(3) { n3 } else { 0 },
    ]
}

/// One counter's number, and 0 of the others.
pub(crate) fn only(counter: u8, number: u32) -> [u32; 4]
    ensures { result ≡ slice_set zeros counter number }
{
    let mut numbers = [0; 4];
    if counter < 4 {
        numbers[usize::from(counter)] = number;
    }
    numbers
}

/// The number of a counter; there is no other counter.
pub(crate) fn number_of(numbers: &[u32; 4], counter: u8) -> u32
    ensures { result ≡ slice_index numbers.now counter }
{
    match numbers.get(usize::from(counter)) {
        Some(number) => *number,
        None => 0,
    }
}

/// The greater number of each counter.
fn greatest(a: &[u32; 4], b: &[u32; 4]) -> [u32; 4]
    ensures value { result ≡ zip2 max a.now b.now }
    ensures four { length a.now ≡ length b.now }
{
    let [a0, a1, a2, a3] = *a;
    let [b0, b1, b2, b3] = *b;
    [a0.max(b0), a1.max(b1), a2.max(b2), a3.max(b3)]
}

/// The numbers at a place are at least these; the place waits where one of them has grown. So what is left to do becomes no more: each place
/// waits as often as one of its numbers grows, which it can up to what 32 bits hold.
pub(crate) fn raise(spread: &mut Spread, waits: &mut Pile, pc: u16, numbers: &[u32; 4])
    requires { pc < 4096 }
    ensures raised { AreRaised spread.old spread.new pc numbers.now }
    ensures work { 2 * left_in spread.new + waits.new.count ≤ 2 * left_in spread.old + waits.old.count }
{
    // Recalls the lemma.
    spread.lengths();
    let here = *spread.get(pc);
    let next = greatest(&here, numbers);
    if next != here {
        spread.set(pc, next);
        waits.put(pc);
    }
}

/// The numbers at a place go along an edge from there.
fn go_along(graph: &Graph, spread: &mut Spread, waits: &mut Pile, pc: u16, branch: bool)
    requires { pc < 4096 }
    ensures come { StayCome graph.now.arcs pc spread.old spread.new }
    ensures work { 2 * left_in spread.new + waits.new.count ≤ 2 * left_in spread.old + waits.old.count }
{
    if let Some(arc) = graph.arc(pc, branch) {
        let numbers = kept(&arc, spread.get(pc));
        raise(spread, waits, arc.to, &numbers);
    }
}

/// Propagates the numbers of the worklist along all edges. The instructions of the routine begin at `low`.
pub(crate) fn go_on(graph: &Graph, low: u16, spread: &mut Spread, waits: &mut Pile)
    ensures { HaveCome graph.now.arcs low spread.old spread.new }
{
    while let Some(pc) = waits.take() {
        if low <= pc {
            go_along(graph, spread, waits, pc, false);
            go_along(graph, spread, waits, pc, true);
        }
    }
}

/// The numbers where an edge leads go back over it.
fn go_back_over(graph: &Graph, spread: &mut Spread, waits: &mut Pile, pc: u16, branch: bool)
    requires { pc < 4096 }
    ensures wanted { StayWanted graph.now.arcs spread.old spread.new }
    ensures more { HaveGrown spread.old spread.new }
    ensures work { 2 * left_in spread.new + waits.new.count ≤ 2 * left_in spread.old + waits.old.count }
{
    if let Some(arc) = graph.arc(pc, branch) {
        let numbers = kept(&arc, spread.get(arc.to));
        raise(spread, waits, pc, &numbers);
    }
}

/// The numbers at a place go back over the edges into it.
pub(crate) fn go_back_from(graph: &Graph, spread: &mut Spread, waits: &mut Pile, to: u16)
    requires { to < 4096 }
    ensures wanted { StayWanted graph.now.arcs spread.old spread.new }
    ensures more { HaveGrown spread.old spread.new }
    ensures work { 2 * left_in spread.new + waits.new.count ≤ 2 * left_in spread.old + waits.old.count }
{
    let mut lead = graph.first_into(to);
    for _ in 0..2 * u32::from(MOST_INSTRS) {
        let Some(edge) = lead else {
            return;
        };
        go_back_over(graph, spread, waits, edge.from, edge.branch);
        lead = graph.next_into(edge);
    }
}

/// The numbers at the places that wait go back over all edges.
pub(crate) fn go_back(graph: &Graph, spread: &mut Spread, waits: &mut Pile)
    ensures wanted { StayWanted graph.now.arcs spread.old spread.new }
    ensures more { HaveGrown spread.old spread.new }
{
    while let Some(pc) = waits.take() {
        go_back_from(graph, spread, waits, pc);
    }
}

// For LOOPs that are left out

/// The counter of the LOOP at a place, if it is not left out.
fn counter_at(graph: &Graph, jumps: &Jumps, pc: u16) -> Option<u8>
    requires { pc < 4096 }
    ensures { (arc : Arc) (k : ℕ) → arc_at graph.now.arcs pc true ≡ Some arc → taken_from arc.counting ≡ Some k
        → is_free (slice_index_or jumps.now pc Plain) ≡ false → result ≡ Some k }
{
    if let Jump::Free = jumps.at(pc) {
        return None;
    }
    graph.arc(pc, true)?.takes()
}

/// The numbers, but 0 of a counter.
fn without(numbers: &[u32; 4], counter: Option<u8>) -> [u32; 4]
    ensures others { (k : ℕ) → 0 < slice_index result k → slice_index result k ≡ slice_index numbers.now k }
    ensures none { (k : ℕ) → counter ≡ Some k → slice_index result k ≡ 0 }
{
    let [n0, n1, n2, n3] = *numbers;
    match counter {
        Some(0) => [0, n1, n2, n3],
        Some(1) => [n0, 0, n2, n3],
        Some(2) => [n0, n1, 0, n3],
        Some(3) => [n0, n1, n2, 0],
        _ => *numbers,
    }
}

/// Propagates the numbers at an edge's target backwards over the edge, except that of a LOOP there that is not left out. A LOOP that is left
/// out is reached only with its counter at 0, and so is each instruction before it that leaves the counter unchanged.
fn go_back_free_over(
    graph: &Graph,
    jumps: &Jumps,
    spread: &mut Spread,
    waits: &mut Pile,
    pc: u16,
    branch: bool,
)
    requires { pc < 4096 }
    ensures wanted { StayWanted graph.now.arcs spread.old spread.new }
    ensures more { HaveGrown spread.old spread.new }
    ensures stay { StayAtLoops graph.now.arcs jumps.now spread.old spread.new }
    ensures work { 2 * left_in spread.new + waits.new.count ≤ 2 * left_in spread.old + waits.old.count }
{
    if let Some(arc) = graph.arc(pc, branch) {
        let numbers = without(
            &kept(&arc, spread.get(arc.to)),
            counter_at(graph, jumps, pc),
        );
        raise(spread, waits, pc, &numbers);
    }
}

/// The same over the edges into a place.
fn go_back_free_from(graph: &Graph, jumps: &Jumps, spread: &mut Spread, waits: &mut Pile, to: u16)
    requires { to < 4096 }
    ensures wanted { StayWanted graph.now.arcs spread.old spread.new }
    ensures more { HaveGrown spread.old spread.new }
    ensures stay { StayAtLoops graph.now.arcs jumps.now spread.old spread.new }
    ensures work { 2 * left_in spread.new + waits.new.count ≤ 2 * left_in spread.old + waits.old.count }
{
    let mut lead = graph.first_into(to);
    for _ in 0..2 * u32::from(MOST_INSTRS) {
        let Some(edge) = lead else {
            return;
        };
        go_back_free_over(graph, jumps, spread, waits, edge.from, edge.branch);
        lead = graph.next_into(edge);
    }
}

/// The numbers at the places that wait, which are those for LOOPs that are left out, go back over all edges.
pub(crate) fn go_back_free(graph: &Graph, jumps: &Jumps, spread: &mut Spread, waits: &mut Pile)
    ensures wanted { StayWanted graph.now.arcs spread.old spread.new }
    ensures more { HaveGrown spread.old spread.new }
    ensures stay { StayAtLoops graph.now.arcs jumps.now spread.old spread.new }
{
    while let Some(pc) = waits.take() {
        go_back_free_from(graph, jumps, spread, waits, pc);
    }
}
