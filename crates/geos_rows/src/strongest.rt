//! The strongest rows that can hold in a routine: rows flow along all its edges, and each is joined with others as it is.

ghost use Rattle.std.specs.Prelude.{◌≡◌, ◌<◌, ◌≤◌, ℕ, None, IfOk};
ghost use Rattle.geos_code.specs.Known.{known_at};
ghost use Rattle.geos_rows.specs.Reached.{AreAtMostAny};

use crate::flow::{Arrival, spread};
use crate::seeds::seed_entry;
use crate::waiting::Waiting;
use geos_code::{Body, Known, edge_in};
use geos_image::Row;
use std::alloc::{AllocError, Global};

/// The most propagations: enough for a word that grows by 1 in each iteration of a loop of 32 instructions.
const LOOKS: u32 = 1 << 21;

/// Rows that no rows that hold are stronger than.
#[derive(Drop)]
pub struct Strongest {
    pub rows: Known,
    waiting: Waiting,
}

/// A row goes along an edge, if there is one; a place where less is known then waits.
fn go(body: &Body, rows: &mut Known, waiting: &mut Waiting, pc: u16, branch: bool)
    requires above { body.now.start ≤ pc }
    requires below { pc < body.now.end }
    requires least { AreAtMostAny body.now.image.now body.now.r rows.old }
    ensures { AreAtMostAny body.now.image.now body.now.r rows.new }
{
    // Recalls the lemma.
    rows.lengths();
    let Some(row) = rows.at(pc) else {
        return;
    };
    let Some(lead) = edge_in(body, pc, branch) else {
        return;
    };
    if let Arrival::Weaker = spread(body, lead, &row, rows) {
        waiting.wait(lead.to);
    }
}

/// Rows continue from the places that wait, until nothing new comes to any place, or it takes too long.
fn go_all(body: &Body, rows: &mut Known, waiting: &mut Waiting)
    requires { AreAtMostAny body.now.image.now body.now.r rows.old }
    ensures { AreAtMostAny body.now.image.now body.now.r rows.new }
{
    for _ in 0..LOOKS {
        let Some(pc) = waiting.take() else {
            return;
        };
        if body.start <= pc && pc < body.end {
            go(body, rows, waiting, pc, false);
            go(body, rows, waiting, pc, true);
        }
    }
}

impl Strongest {
    /// Nothing is known at any place.
    pub fn new(alloc: Global) -> Result<Strongest, AllocError>
        ensures { IfOk result (λ strongest. (pc : ℕ) → known_at strongest.rows pc ≡ None) }
    {
        let rows = Known::new(alloc, None)?;
        let waiting = Waiting::new(alloc)?;
        Ok(Strongest { rows, waiting })
    }

    /// Finds such rows in a routine, in the place of those of another.
    pub fn find(&mut self, body: &Body)
        ensures { AreAtMostAny body.now.image.now body.now.r self.new.rows }
    {
        seed_entry(body, &mut self.rows);
        self.waiting.clear(body);
        self.waiting.wait(body.start);
        go_all(body, &mut self.rows, &mut self.waiting);
    }

    /// The row at a place, if control is known to reach it.
    pub fn at(&self, pc: u16) -> Option<Row>
        requires { pc < 4096 }
        ensures { result ≡ known_at self.now.rows pc }
    {
        self.rows.at(pc)
    }
}
