//! The edges of a routine, from each place and into it.

ghost use Rattle.std.specs.Prelude.{◌≡◌, ◌<◌, None};
ghost use Rattle.control_graph.specs.Arcs.{arc_at};

use crate::arcs::Arc;
use crate::leads::{Lead, Leads};
use geos_image::Table;
use std::alloc::{AllocError, Global};

/// The edges of a routine that stay in it.
#[derive(Drop)]
pub struct Graph {
    /// The edge to the next instruction, and the one to the target.
    pub arcs: Table<[Option<Arc>; 2]>,
    /// The edges into each place.
    pub leads: Leads,
}

impl Graph {
    ghost use Rattle.std.specs.Prelude.{◌≡◌, ◌≢◌, ◌<◌, ℕ, Bool, None, if◌then◌else◌};

    /// There are no edges.
    pub fn new(alloc: Global) -> Result<Graph, AllocError> {
        let arcs = Table::new(alloc, [None, None])?;
        let leads = Leads::new(alloc)?;
        Ok(Graph { arcs, leads })
    }

    /// There are no edges, and none are listed that lead to the places from a pc on.
    pub fn clear_from(&mut self, pc: u16)
        requires { pc < 4096 }
        ensures { (at : ℕ) (branch : Bool) → arc_at self.new.arcs at branch ≡ None }
    {
        self.arcs.fill_from(0, [None, None]);
        // Recalls the lemma.
        self.arcs.lengths();
        self.leads.clear_from(pc);
    }

    /// The edges of a place are noted, and listed where they lead.
    pub fn add(&mut self, pc: u16, along: Option<Arc>, branching: Option<Arc>)
        requires { pc < 4096 }
        ensures here { (branch : Bool) → arc_at self.new.arcs pc branch ≡ (if branch then branching else along) }
        ensures others { (at : ℕ) (branch : Bool) → at ≢ pc → arc_at self.new.arcs at branch ≡ arc_at self.old.arcs at branch }
    {
        // Recalls the lemma.
        self.arcs.lengths();
        let arcs = [along, branching];
        self.leads.add(pc, &arcs);
        self.arcs.set(pc, arcs);
    }

    /// The edge of the instruction at a pc: to its target if `branch`, otherwise to the next instruction.
    pub fn arc(&self, pc: u16, branch: bool) -> Option<Arc>
        requires { pc < 4096 }
        ensures { result ≡ arc_at self.now.arcs pc branch }
    {
        let [along, branching] = self.arcs.get(pc);
        if branch { *branching } else { *along }
    }

    /// The first edge into a place.
    pub fn first_into(&self, to: u16) -> Option<Lead>
        requires { to < 4096 }
    {
        self.leads.first(to)
    }

    /// The next edge into where an edge leads.
    pub fn next_into(&self, lead: Lead) -> Option<Lead> {
        self.leads.next(lead)
    }
}
