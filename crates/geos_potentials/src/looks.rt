//! Counts the visits of the search, which bounds its time.

ghost use Rattle.std.specs.Prelude.{◌≡◌, ◌<◌, ◌+◌, ◌-◌, ◌*◌, IfSome};
ghost use Rattle.geos_potentials.specs.Least.{StayAtMost};
ghost use Rattle.geos_potentials.specs.declared.nests.Nest.{Nest};

use crate::lengths::Lengths;
use crate::nests::{Nest, Nests};
use crate::spread::Spread;
use control_graph::{Order, Piece, Pile};
use geos_image::MOST_INSTRS;

/// The most visits in all: about 2 s. No hostile text that was tried took a third of that.
pub(crate) const LOOKS: u32 = 1 << 27;

/// How many edges, places and nests were looked at.
#[derive(Drop)]
pub(crate) struct Looked {
    count: u32,
}

impl Looked {
    /// Nothing was looked at.
    pub(crate) fn new() -> Looked {
        Looked { count: 0 }
    }

    /// So much more was looked at.
    fn add(&mut self, more: u32) {
        self.count = self.count.saturating_add(more);
    }

    /// Whether more visits are allowed.
    pub(crate) fn are_few(&self) -> bool {
        self.count < LOOKS
    }

    /// Looks at the edges from the places of a piece, for longer ways, as `Lengths::sweep` does.
    pub(crate) fn sweep(&mut self, lengths: &mut Lengths, order: &Order, piece: &Piece) -> bool {
        self.add(2 * piece.length());
        lengths.sweep(order, piece)
    }

    /// The same as `Lengths::sweep_all` does.
    pub(crate) fn sweep_all(&mut self, lengths: &mut Lengths, order: &Order, piece: &Piece) -> bool
        ensures links { lengths.new.links ≡ lengths.old.links }
        ensures below { StayAtMost lengths.old.links lengths.old.ways lengths.new.ways }
    {
        self.add(2 * piece.length());
        lengths.sweep_all(order, piece)
    }

    /// Takes a place that waits, and looks at it.
    pub(crate) fn take(&mut self, waits: &mut Pile) -> Option<u16>
        ensures inside { IfSome result (λ pc. pc < 4096) }
        ensures fewer { IfSome result (λ _. waits.new.count + 1 ≡ waits.old.count) }
    {
        let pc = waits.take()?;
        self.add(1);
        Some(pc)
    }

    /// Sets the numbers of all places to 0.
    pub(crate) fn clear(&mut self, spread: &mut Spread) {
        self.add(u32::from(MOST_INSTRS));
        spread.fill_from(0, [0; 4]);
    }

    /// Looks at a nest.
    pub(crate) fn nest(&mut self, nests: &Nests, id: u16) -> Nest
        requires { id < 4096 }
    {
        self.add(1);
        nests.at(id)
    }
}
