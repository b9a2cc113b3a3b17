//! The edges that lead into each place of a routine.

ghost use Rattle.std.specs.Prelude.{◌<◌};

use crate::arcs::Arc;
use geos_image::{Table, two_tables};
use std::alloc::{AllocError, Global};

/// An edge into a place: where it begins, and whether it leads to the target of the instruction there.
#[derive(Clone, Copy)]
pub struct Lead {
    pub from: u16,
    pub branch: bool,
    ghost inside: { from < 4096 },
}

/// The edges into each instruction, as a linked list: the first edge, and for each edge the next.
#[derive(Drop)]
pub struct Leads {
    /// The first edge into each place.
    pub first: Table<Option<Lead>>,
    /// The list's next edge, for the edge of each pc to the next instruction, and for the one to its target.
    pub behind: Table<[Option<Lead>; 2]>,
}

impl Leads {
    ghost use Rattle.std.specs.Prelude.{◌<◌, None};

    /// There are no edges.
    pub(crate) fn new(alloc: Global) -> Result<Leads, AllocError> {
        let (first, behind) = two_tables(alloc, None, [None, None])?;
        Ok(Leads { first, behind })
    }

    /// There are no edges into the places from a pc on.
    pub(crate) fn clear_from(&mut self, pc: u16)
        requires { pc < 4096 }
    {
        self.first.fill_from(pc, None);
    }

    /// An edge comes first among those into where it leads, if there is one; the edge that came first there before.
    fn put(&mut self, from: u16, branch: bool, arc: &Option<Arc>) -> Option<Lead>
        requires { from < 4096 }
    {
        let Some(arc) = arc else {
            return None;
        };
        let behind = self.first.at(arc.to);
        self.first.set(arc.to, Some(Lead { from, branch }));
        behind
    }

    /// The edges of a place lead to others: that to the next instruction, and that to its target.
    pub(crate) fn add(&mut self, from: u16, arcs: &[Option<Arc>; 2])
        requires { from < 4096 }
    {
        let [along, branching] = arcs;
        let behind = [
            self.put(from, false, along),
            self.put(from, true, branching),
        ];
        self.behind.set(from, behind);
    }

    /// The first edge into a place.
    pub(crate) fn first(&self, to: u16) -> Option<Lead>
        requires { to < 4096 }
    {
        self.first.at(to)
    }

    /// The next edge into where an edge leads.
    pub(crate) fn next(&self, lead: Lead) -> Option<Lead> {
        let [along, branching] = self.behind.get(lead.from);
        if lead.branch { *branching } else { *along }
    }
}
