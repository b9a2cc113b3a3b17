//! A search along edges that count: each pc that is marked is gone on from once.

ghost use Rattle.std.specs.Prelude.{◌≡◌, ◌<◌, ◌↔◌, ℕ, Some};
ghost use Rattle.geos_flow.specs.declared.search.Heading.TheVariants.{Ahead, Back};
ghost use Rattle.geos_flow.specs.Edges.{end_in};
ghost use Rattle.geos_flow.specs.Flow.{step_along, step_by, MarksWhatIsLed};
ghost use Rattle.geos_flow.specs.Waiting.{IsKept, Has, Waits, TakesEdge, GoesOn};

use crate::edge::{Edge, end_in};
use crate::graph::Graph;
use crate::marks::{Marks, is_marked};
use crate::waiting::Waiting;

/// Which way a search goes along edges.
#[derive(Clone, Copy)]
pub enum Heading {
    /// From where they begin.
    Ahead,
    /// From where they lead.
    Back,
}

/// Which edges count in a search.
pub trait Counting {
    ghost use Rattle.std.specs.Prelude.{◌≡◌, ℕ, Bool};
    ghost use Rattle.geos_flow.specs.declared.edge.Edge.{Edge};

    /// Whether an edge counts that leads to a pc.
    ghost counted: { Self → Edge → ℕ → Bool };

    /// Whether the edge counts, which leads to this pc.
    fn counts(&self, edge: Edge, end: u16) -> bool
        ensures { result ≡ counted self.now edge end };
}

/// The pc that a step along the edge reaches; the edge's target is given.
fn step_end(heading: Heading, edge: Edge, end: u16) -> u16
    ensures { result ≡ (step_along heading edge.from end).to }
{
    match heading {
        Heading::Ahead => end,
        Heading::Back => edge.from,
    }
}

/// Takes the step along an edge that leads to this pc, if it counts.
fn step<C: Counting>(
    waiting: &mut Waiting,
    graph: &Graph,
    heading: Heading,
    counting: &C,
    edge: Edge,
    end: u16,
)
    requires ends { end_in graph.now.image.now edge ≡ Some end }
    requires kept { IsKept waiting.old }
    ensures kept { IsKept waiting.new }
    ensures takes { TakesEdge (step_by graph.now.image.now heading (C.counted counting.now)) edge (step_along heading edge.from end).from
        waiting.old waiting.new }
{
    let to = step_end(heading, edge, end);
    if !is_marked(&waiting.marks, usize::from(to)) && counting.counts(edge, end) {
        waiting.note(to);
    }
}

/// Takes the step along an edge from its beginning, if it leads anywhere and counts.
fn step_ahead<C: Counting>(waiting: &mut Waiting, graph: &Graph, counting: &C, edge: Edge)
    requires kept { IsKept waiting.old }
    ensures kept { IsKept waiting.new }
    ensures takes { TakesEdge (step_by graph.now.image.now Ahead (C.counted counting.now)) edge edge.from waiting.old waiting.new }
{
    if let Some(end) = end_in(graph.image, edge) {
        step(waiting, graph, Heading::Ahead, counting, edge, end);
    }
}

/// Takes the steps along the edges of the instruction at a pc.
fn go_ahead<C: Counting>(waiting: &mut Waiting, graph: &Graph, counting: &C, from: u16)
    requires kept { IsKept waiting.old }
    ensures kept { IsKept waiting.new }
    ensures goes { GoesOn (step_by graph.now.image.now Ahead (C.counted counting.now)) from waiting.old waiting.new }
{
    let along = Edge {
        from,
        branch: false,
    };
    step_ahead(waiting, graph, counting, along);
    step_ahead(waiting, graph, counting, Edge { from, branch: true });
}

/// Takes the steps back along the edges that lead to a pc.
fn go_back<C: Counting>(waiting: &mut Waiting, graph: &Graph, counting: &C, to: u16)
    requires there { to < 4096 }
    requires kept { IsKept waiting.old }
    ensures kept { IsKept waiting.new }
    ensures goes { GoesOn (step_by graph.now.image.now Back (C.counted counting.now)) to waiting.old waiting.new }
{
    let mut at = graph.first(to);
    while let Some(edge) = at {
        step(waiting, graph, Heading::Back, counting, edge, to);
        at = graph.next(edge);
    }
}

/// Takes the steps from a pc.
fn go<C: Counting>(waiting: &mut Waiting, graph: &Graph, heading: Heading, counting: &C, pc: u16)
    requires there { pc < 4096 }
    requires kept { IsKept waiting.old }
    ensures kept { IsKept waiting.new }
    ensures goes { GoesOn (step_by graph.now.image.now heading (C.counted counting.now)) pc waiting.old waiting.new }
{
    match heading {
        Heading::Ahead => go_ahead(waiting, graph, counting, pc),
        Heading::Back => go_back(waiting, graph, counting, pc),
    }
}

/// What is marked to begin with waits.
fn begun(marks: &Marks) -> Waiting
    ensures kept { IsKept result }
    ensures same { (k : ℕ) → Has result.marks k ↔ Has marks.now k }
    ensures waits { (k : ℕ) → Has result.marks k → Waits result k }
{
    let mut waiting = Waiting::new();
    for pc in 0..4096_u16 {
        if is_marked(marks, usize::from(pc)) {
            waiting.note(pc);
        }
    }
    waiting
}

/// Marks all pcs that are reachable from marked ones along counted edges, forwards or backwards. Each edge is visited at most once.
pub fn follow<C: Counting>(graph: &Graph, heading: Heading, counting: &C, marks: &mut Marks)
    ensures { MarksWhatIsLed (step_by graph.now.image.now heading (C.counted counting.now)) marks.old marks.new }
{
    let mut waiting = begun(marks);
    while let Some(pc) = waiting.take() {
        go(&mut waiting, graph, heading, counting, pc);
    }
    *marks = waiting.marks;
}
