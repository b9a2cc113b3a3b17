//! LOOPs' ways to their targets: which are left out, and which pay.

ghost use Rattle.std.specs.Prelude.{◌<◌, Some, IfSome};

use crate::graph::Graph;
use crate::pieces::{Order, Piece};
use geos_image::Table;

/// What is found of the way from a place to its target.
#[derive(Clone, Copy)]
pub enum Jump {
    /// It is like any edge; so far, where it is a LOOP's.
    Plain,
    /// A LOOP's whose counter is 0: it is left out.
    Free,
    /// A LOOP's, which pays in a nest and all that are around it.
    Pays(u16),
}

impl Jump {
    /// Whether it is a LOOP's that pays in a nest.
    pub fn pays_in(self, nest: u16) -> bool {
        match self {
            Jump::Pays(other) => other == nest,
            _ => false,
        }
    }

    /// Whether it is a LOOP's that is left out, or pays in a nest around one.
    pub fn is_left_out_in(self, nest: u16) -> bool {
        match self {
            Jump::Plain => false,
            Jump::Free => true,
            Jump::Pays(other) => other < nest,
        }
    }
}

/// What is found of the way from each place to its target.
pub type Jumps = Table<Jump>;

/// The target of an edge that stays in a piece, unless it is the taken edge of a LOOP that is left out or pays.
pub fn lead_within(
    graph: &Graph,
    jumps: &Jumps,
    order: &Order,
    piece: &Piece,
    pc: u16,
    branch: bool,
) -> Option<u16>
    requires { pc < 4096 }
    ensures inside { IfSome result (λ to. to < 4096) }
{
    if branch {
        match jumps.at(pc) {
            Jump::Plain => {}
            _ => return None,
        }
    }
    let to = graph.arc(pc, branch)?.to;
    if order.has(piece, to) { Some(to) } else { None }
}
