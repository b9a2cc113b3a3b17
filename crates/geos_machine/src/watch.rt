//! Those who look on at a run.

ghost use Rattle.std.specs.Prelude.{◌≡◌};

use crate::machine::Machine;
use geos_kernel::{Kernel, Span};
use geos_terms::Name;
use vm_file::Device;

/// Looks on at a run. It sees the machine and its kernel, and can change neither.
pub trait Watch {
    /// The machine is about to carry out the instruction at a pc.
    fn sees<D: Device + Drop>(&mut self, machine: &Machine, pc: u16, kernel: &Kernel<D>);
}

/// Follows how far a run is.
pub trait Follow {
    /// A run begins, with so many steps.
    fn begins(&mut self, budget: usize);

    /// Control jumps back, or to a routine that is called. The run has so many steps left.
    fn jumps(&mut self, left: usize);

    /// The run has ended.
    fn ends(&mut self);
}

/// Nobody looks on.
#[derive(Drop)]
pub struct Unwatched;

impl Follow for Unwatched {
    fn begins(&mut self, _budget: usize) {}

    fn jumps(&mut self, _left: usize) {}

    fn ends(&mut self) {}
}

impl Watch for Unwatched {
    fn sees<D: Device + Drop>(&mut self, _machine: &Machine, _pc: u16, _kernel: &Kernel<D>) {}
}

impl Machine {
    /// The words w0 to w7.
    pub fn words(&self) -> &[u16; 8]
        ensures { result.now ≡ self.now.words }
    {
        &self.words
    }

    /// The counters k0 to k3.
    pub fn counters(&self) -> &[u16; 4]
        ensures { result.now ≡ self.now.counters }
    {
        &self.counters
    }

    /// The names of the blocks that slots hold. The name in an empty slot means nothing.
    pub fn slots(&self) -> &[Name; 4]
        ensures { result.now ≡ self.now.slots }
    {
        &self.slots
    }

    /// The spans that pointers lead to. A stale pointer may lead anywhere.
    pub fn pointers(&self) -> &[Span; 4]
        ensures { result.now ≡ self.now.pointers }
    {
        &self.pointers
    }
}
