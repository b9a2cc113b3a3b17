//! A search in depth over the places of a piece: the order in which it leaves them.

ghost use Rattle.std.specs.Prelude.{◌<◌, ◌≤◌, ◌+◌, ◌-◌, true};
ghost use Rattle.control_graph.specs.declared.depth.Search.TheVariants.{New};
ghost use Rattle.control_graph.specs.declared.pieces.Order.{Order};
ghost use Rattle.control_graph.specs.declared.pieces.Piece.{Piece};
ghost use Rattle.control_graph.specs.declared.place.Place.{Place};

use crate::graph::Graph;
use crate::jumps::{Jumps, lead_within};
use crate::pieces::{Order, Piece};
use crate::place::Place;
use geos_image::{MOST_INSTRS, Table, two_tables};
use std::alloc::{AllocError, Global};

/// How far a place is searched.
#[derive(Clone, Copy)]
enum Search {
    New,
    /// It is on the path, and none of its edges were followed.
    Begun,
    /// The edge to the next instruction was.
    Along,
    /// Both were.
    Done,
}

/// A search in depth.
#[derive(Drop)]
pub(crate) struct Depth {
    searched: Table<Search>,
    /// The places on the path from where it began.
    path: Table<Place>,
    /// How many places were left when each was entered.
    entered: Table<u16>,
    /// The places that it has left.
    left: Table<Place>,
    count: u16,
}

impl Depth {
    /// No place is left.
    pub(crate) fn new(alloc: Global) -> Result<Depth, AllocError> {
        let (searched, path) = two_tables(alloc, Search::New, Place { pc: 0 })?;
        let (left, entered) = two_tables(alloc, Place { pc: 0 }, 0)?;
        Ok(Depth {
            searched,
            path,
            entered,
            left,
            count: 0,
        })
    }

    /// How many places it has left.
    pub(crate) fn count(&self) -> u16 {
        self.count
    }

    /// The place that it left as one of them.
    pub(crate) fn left(&self, n: u16) -> u16
        requires { n < 4096 }
        ensures inside { result < 4096 }
    {
        let Place { pc } = self.left.at(n);
        pc
    }

    /// Whether it has not come to a place.
    fn is_new(&self, pc: u16) -> bool
        requires { pc < 4096 }
    {
        match self.searched.at(pc) {
            Search::New => true,
            _ => false,
        }
    }

    /// A place that it has not come to comes after so many on the path; how many are on it then.
    fn enter(&mut self, length: u16, pc: u16) -> u16
        requires { pc < 4096 }
    {
        if MOST_INSTRS <= length {
            return length;
        }
        self.searched.set(pc, Search::Begun);
        self.path.set(length, Place { pc });
        self.entered.set(pc, self.count);
        length + 1
    }

    /// The place is left.
    fn leave(&mut self, pc: u16)
        requires { pc < 4096 }
    {
        if self.count < MOST_INSTRS {
            self.left.set(self.count, Place { pc });
            self.count += 1;
        }
    }

    /// Follows an edge of the place that is the last of so many on the path; how many are on it then.
    fn follow(
        &mut self,
        graph: &Graph,
        jumps: &Jumps,
        order: &Order,
        piece: &Piece,
        length: u16,
        pc: u16,
        branch: bool,
    ) -> u16
        requires inside { pc < 4096 }
    {
        let Some(to) = lead_within(graph, jumps, order, piece, pc, branch) else {
            return length;
        };
        if !self.is_new(to) {
            return length;
        }
        self.enter(length, to)
    }

    /// Follows the next edge from the last of so many places on the path, or leaves it; how many are on the path then.
    fn step(
        &mut self,
        graph: &Graph,
        jumps: &Jumps,
        order: &Order,
        piece: &Piece,
        length: u16,
    ) -> u16
        requires some { 0 < length }
        requires room { length ≤ 4096 }
    {
        let Place { pc } = self.path.at(length - 1);
        match self.searched.at(pc) {
            Search::Begun => {
                let next = self.follow(graph, jumps, order, piece, length, pc, false);
                self.searched.set(pc, Search::Along);
                next
            }
            Search::Along => {
                let next = self.follow(graph, jumps, order, piece, length, pc, true);
                self.searched.set(pc, Search::Done);
                next
            }
            _ => {
                self.leave(pc);
                length - 1
            }
        }
    }

    /// Searches from a place, if it has not come there.
    fn search_from(&mut self, graph: &Graph, jumps: &Jumps, order: &Order, piece: &Piece, pc: u16)
        requires inside { pc < 4096 }
    {
        if !self.is_new(pc) {
            return;
        }
        let mut length = self.enter(0, pc);
        // Both edges of each place are followed, and then it is left.
        for _ in 0..3 * u32::from(MOST_INSTRS) {
            if length == 0 || MOST_INSTRS < length {
                return;
            }
            length = self.step(graph, jumps, order, piece, length);
        }
    }

    /// It has left no place, and come to none of a piece.
    fn begin(&mut self, order: &Order, piece: &Piece) {
        self.count = 0;
        for x in piece.begin..piece.end {
            self.searched.set(order.place(x), Search::New);
        }
    }

    /// Searches from each place of a piece that it has not come to; those that it leaves are all places of the piece.
    pub(crate) fn search(&mut self, graph: &Graph, jumps: &Jumps, order: &Order, piece: &Piece) {
        self.begin(order, piece);
        for x in piece.begin..piece.end {
            self.search_from(graph, jumps, order, piece, order.place(x));
        }
    }
}
