//! The places of a routine in the order in which they are gone over, and pieces of that order.

ghost use Rattle.std.specs.Prelude.{◌≡◌, ◌-◌, ◌≤◌};

use crate::place::Place;
use geos_image::{Table, two_tables};
use std::alloc::{AllocError, Global};

/// The places from one on up to another, in an order of places.
#[derive(Clone, Copy)]
pub struct Piece {
    pub begin: u16,
    pub end: u16,
    ghost room: { end ≤ 4096 },
}

impl Piece {
    /// How many places there are.
    pub fn length(&self) -> u32
        ensures value { result ≡ self.now.end - self.now.begin }
        ensures few { result ≤ 4096 }
    {
        u32::from(self.end.saturating_sub(self.begin))
    }
}

/// The places of a routine in some order.
#[derive(Drop)]
pub struct Order {
    /// The instruction at each index.
    pub places: Table<Place>,
    /// The index of each instruction.
    pub at: Table<u16>,
}

impl Order {
    ghost use Rattle.std.specs.Prelude.{◌<◌, ◌≤◌, ◌↔◌, IsTrue, slice_index};
    ghost use Rattle.control_graph.specs.Orders.{StandsAt};

    /// There are no places.
    pub fn new(alloc: Global) -> Result<Order, AllocError> {
        let (places, at) = two_tables(alloc, Place { pc: 0 }, 0)?;
        Ok(Order { places, at })
    }

    /// Puts the instructions from `start` up to `end` in the order of their pcs, and returns the piece that they form.
    pub fn begin(&mut self, start: u16, end: u16) -> Piece
        requires { end ≤ 4096 }
    {
        for pc in start..end {
            self.put(pc, pc);
        }
        Piece { begin: start, end }
    }

    /// Stores an instruction at an index.
    fn put(&mut self, x: u16, pc: u16)
        requires here { x < 4096 }
        requires place { pc < 4096 }
    {
        self.places.set(x, Place { pc });
        self.at.set(pc, x);
    }

    /// Swaps an instruction with the one at an index.
    pub(crate) fn swap(&mut self, x: u16, pc: u16)
        requires here { x < 4096 }
        requires place { pc < 4096 }
        requires there { slice_index self.old.at pc < 4096 }
    {
        let there = self.at.at(pc);
        let other = self.place(x);
        self.put(there, other);
        self.put(x, pc);
    }

    /// The instruction at an index.
    pub fn place(&self, x: u16) -> u16
        requires { x < 4096 }
        ensures stands { StandsAt self.now x result }
        ensures inside { result < 4096 }
    {
        let Place { pc } = self.places.at(x);
        pc
    }

    /// Whether a piece has a place.
    pub fn has(&self, piece: &Piece, pc: u16) -> bool
        requires { pc < 4096 }
        ensures { IsTrue result ↔ (piece.now.begin ≤ slice_index self.now.at pc) × (slice_index self.now.at pc < piece.now.end) }
    {
        let x = self.at.at(pc);
        piece.begin <= x && x < piece.end
    }
}
