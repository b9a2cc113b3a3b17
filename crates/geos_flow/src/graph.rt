//! The edges into each pc of an image.

ghost use Rattle.std.specs.Prelude.{◌≡◌, ◌<◌, ◌≤◌, ◌+◌, ◌*◌, length};
ghost use Rattle.geos_flow.specs.Edges.{number_of};
ghost use Rattle.geos_flow.specs.Graphs.{AreInto};

use crate::edge::{Edge, end_in, number_of};
use crate::pending::Pending;
use crate::search::Counting;
use geos_image::Image;

/// An image, and for each of its pcs the edges that lead there, as a list: the first one, and after each the next.
#[derive(Clone, Copy)]
pub struct Graph<'a> {
    /// The image.
    pub image: &'a Image,
    first: [Option<Edge>; 4096],
    /// After each edge, by its number, another to the same pc.
    behind: [Option<Edge>; 8192],
    ghost short: { length image.now.points ≤ 4096 },
    ghost into: { AreInto image.now (2 * length image.now.points) first behind },
}

/// The edge comes first among those to where it leads, if it leads anywhere.
fn note(
    first: &mut [Option<Edge>; 4096],
    behind: &mut [Option<Edge>; 8192],
    image: &Image,
    edge: Edge,
)
    requires from { edge.from < 4096 }
    requires short { length image.now.points ≤ 4096 }
    requires before { AreInto image.now (number_of edge) first.old behind.old }
    ensures { AreInto image.now (number_of edge + 1) first.new behind.new }
{
    if let Some(end) = end_in(image, edge) {
        let at = usize::from(end);
        behind[number_of(edge)] = first[at];
        first[at] = Some(edge);
    }
}

impl<'a> Graph<'a> {
    ghost use Rattle.std.specs.Prelude.{◌⊎◌, ℕ, Some, true};
    ghost use Rattle.geos_flow.specs.declared.edge.Edge.{Edge};
    ghost use Rattle.geos_flow.specs.Edges.{end_in};
    ghost use Rattle.geos_flow.specs.Graphs.{IsFirstInto, IsLast, LeadsTo};
    ghost use Rattle.geos_flow.specs.Marks.{is_marked};

    /// The edges of the image.
    pub fn of(image: &'a Image) -> Graph<'a>
        ensures { result.image.now ≡ image.now }
    {
        let mut first = [None; 4096];
        let mut behind = [None; 8192];
        for from in 0..image.len() {
            let along = Edge {
                from,
                branch: false,
            };
            note(&mut first, &mut behind, image, along);
            note(&mut first, &mut behind, image, Edge { from, branch: true });
        }
        Graph {
            image,
            first,
            behind,
        }
    }

    /// The first edge to a pc.
    pub(crate) fn first(&self, to: u16) -> Option<Edge>
        requires { to < 4096 }
        ensures { IsLast self.now.image.now (2 * length self.now.image.now.points) to result }
    {
        self.first[usize::from(to)]
    }

    /// The next edge to where an edge leads.
    pub(crate) fn next(&self, edge: Edge) -> Option<Edge>
        requires { edge.from < 4096 }
        ensures { (to : ℕ) → end_in self.now.image.now edge ≡ Some to → IsLast self.now.image.now (number_of edge) to result }
    {
        self.behind[number_of(edge)]
    }

    /// The pcs from which edges lead to one wait, and what waited.
    pub fn put_begins(&self, waits: &mut Pending, to: u16)
        requires { to < 4096 }
        ensures begins { (edge : Edge) → end_in self.now.image.now edge ≡ Some to → is_marked waits.new edge.from ≡ true }
        ensures keeps { (pc : ℕ) → is_marked waits.old pc ≡ true → is_marked waits.new pc ≡ true }
        ensures was { (pc : ℕ) → is_marked waits.new pc ≡ true → (is_marked waits.old pc ≡ true) ⊎ LeadsTo self.now.image.now pc to }
    {
        let mut at = self.first(to);
        while let Some(edge) = at {
            waits.put(edge.from);
            at = self.next(edge);
        }
    }

    /// The first edge to a pc that counts: that of the first instruction, and of one instruction that to the next.
    pub fn first_into<C: Counting>(&self, counting: &C, to: u16) -> Option<Edge>
        requires { to < 4096 }
        ensures { IsFirstInto self.now.image.now (C.counted counting.now) to result }
    {
        let mut found = None;
        let mut at = self.first(to);
        while let Some(edge) = at {
            if counting.counts(edge, to) {
                found = Some(edge);
            }
            at = self.next(edge);
        }
        found
    }
}
