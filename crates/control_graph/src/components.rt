//! Components of a piece: the places from each of which control comes to each other.

ghost use Rattle.std.specs.Prelude.{◌<◌, ◌+◌, min};

use crate::depth::Depth;
use crate::graph::Graph;
use crate::jumps::{Jumps, lead_within};
use crate::leads::Lead;
use crate::lists::Lists;
use crate::pieces::{Order, Piece};
use crate::pile::Pile;
use geos_image::{MOST_INSTRS, Table, two_tables};
use std::alloc::{AllocError, Global};

/// What a search for components takes.
#[derive(Drop)]
pub struct Components {
    depth: Depth,
    /// The component of each place, by its number from 1 on; 0 if it is not known.
    pub of: Table<u16>,
    /// The places of each component.
    lists: Lists,
    /// The end of each component in the order, after they are arranged.
    pub ends: Table<u16>,
    /// How many there are.
    pub count: u16,
    waits: Pile,
}

impl Components {
    /// There are none.
    pub fn new(alloc: Global) -> Result<Components, AllocError> {
        let (of, ends) = two_tables(alloc, 0, 0)?;
        let lists = Lists::new(alloc)?;
        let waits = Pile::new(alloc)?;
        let depth = Depth::new(alloc)?;
        Ok(Components {
            depth,
            of,
            lists,
            ends,
            count: 0,
            waits,
        })
    }

    /// A place is of the last component, if it is not of another.
    fn add(&mut self, pc: u16)
        requires inside { pc < 4096 }
    {
        if self.of.at(pc) != 0 {
            return;
        }
        self.of.set(pc, self.count);
        self.waits.put(pc);
    }

    /// The place from which an edge leads to one of the last component is of that, if it is of the piece and not of another component.
    fn add_over(
        &mut self,
        graph: &Graph,
        jumps: &Jumps,
        order: &Order,
        piece: &Piece,
        edge: Lead,
        to: u16,
    ) {
        if !order.has(piece, edge.from) {
            return;
        }
        let Some(next) = lead_within(graph, jumps, order, piece, edge.from, edge.branch) else {
            return;
        };
        if next != to {
            return;
        }
        self.add(edge.from);
    }

    /// If an instruction belongs to the last component, adds to that component all its predecessors that belong to no other.
    fn add_before(&mut self, graph: &Graph, jumps: &Jumps, order: &Order, piece: &Piece, to: u16)
        requires inside { to < 4096 }
    {
        if self.of.at(to) != self.count {
            return;
        }
        let mut lead = graph.first_into(to);
        for _ in 0..2 * u32::from(MOST_INSTRS) {
            let Some(edge) = lead else {
                return;
            };
            self.add_over(graph, jumps, order, piece, edge, to);
            lead = graph.next_into(edge);
        }
    }

    /// A component begins with a place that is of none, and has what leads there.
    fn begin(&mut self, graph: &Graph, jumps: &Jumps, order: &Order, piece: &Piece, pc: u16)
        requires inside { pc < 4096 }
    {
        self.count = self.count.saturating_add(1);
        self.add(pc);
        // None is added twice.
        for _ in 0..MOST_INSTRS {
            let Some(to) = self.waits.take() else {
                return;
            };
            self.add_before(graph, jumps, order, piece, to);
        }
    }

    /// The components of the places of a piece are not known.
    fn forget(&mut self, order: &Order, piece: &Piece) {
        self.count = 0;
        for x in piece.begin..piece.end {
            self.of.set(order.place(x), 0);
        }
    }

    /// Finds the component of each place of a piece; those that lead to others come first.
    fn find(&mut self, graph: &Graph, jumps: &Jumps, order: &Order, piece: &Piece) {
        self.depth.search(graph, jumps, order, piece);
        self.forget(order, piece);
        for n in (0..self.depth.count().min(MOST_INSTRS)).rev() {
            let pc = self.depth.left(n);
            if self.of.at(pc) == 0 {
                self.begin(graph, jumps, order, piece, pc);
            }
        }
    }

    /// Makes a list of the places of each component, in the order in which the search in depth has left them.
    fn list_places(&mut self) {
        self.lists.clear();
        for n in (0..self.depth.count().min(MOST_INSTRS)).rev() {
            let component = self.of.at(self.depth.left(n)).saturating_sub(1);
            self.lists.put(component, n);
        }
    }

    /// Puts the instructions of a component at the indices from `begin` on. Returns the index after the last.
    fn gather(&self, order: &mut Order, piece: &Piece, component: u16, begin: u16) -> u16
        requires { component < 4096 }
    {
        let mut x = begin;
        let mut next = self.lists.first(component);
        for _ in 0..MOST_INSTRS {
            let Some(place) = next else {
                return x;
            };
            let pc = self.depth.left(place.n);
            let rest = Piece {
                begin: x,
                end: piece.end,
            };
            if order.has(&rest, pc) {
                order.swap(x, pc);
                x += 1;
            }
            next = self.lists.next(place);
        }
        x
    }

    /// Orders the instructions of a piece by their components, each component after those that it leads to, and within a component in the
    /// postorder of a depth-first search. Instructions outside the piece keep their indices.
    pub fn arrange(&mut self, graph: &Graph, jumps: &Jumps, order: &mut Order, piece: &Piece) {
        self.find(graph, jumps, order, piece);
        self.list_places();
        let mut begin = piece.begin;
        for component in (0..self.count.min(MOST_INSTRS)).rev() {
            begin = self.gather(order, piece, component, begin);
            self.ends.set(component, begin);
        }
    }

    /// How many components there are.
    pub fn count(&self) -> u16 {
        self.count
    }

    /// The part of a piece that a component is, once they are arranged, where it begins here.
    pub fn part_of(&self, component: u16, begin: u16) -> Piece
        requires { component < 4096 }
    {
        let end = self.ends.at(component).min(MOST_INSTRS);
        Piece { begin, end }
    }
}
