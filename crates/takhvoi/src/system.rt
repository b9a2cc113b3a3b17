//! The kernel of a handle, and what runs over it.

ghost use Rattle.std.specs.Prelude.{◌≡◌, []};

use geos_kernel::Kernel;
use geos_machine::Machine;
use geos_verify::Checked;
use host_device::HostDevice;
use std::alloc::Global;

/// A kernel, the machine that runs routines over it, and the loaded images, by their numbers. `hosted`: whether a host performs the steps that
/// the device notes; otherwise they are forgotten.
#[derive(Drop)]
pub struct System {
    pub(crate) kernel: Kernel<HostDevice>,
    pub(crate) machine: Machine,
    pub(crate) images: Vec<Option<Checked>>,
    pub(crate) hosted: bool,
}

impl System {
    /// A kernel, and no image.
    pub(crate) fn of(alloc: Global, kernel: Kernel<HostDevice>, hosted: bool) -> System
        ensures kernel { result.kernel ≡ kernel }
        ensures images { result.images.items ≡ [] }
        ensures hosted { result.hosted ≡ hosted }
    {
        System {
            kernel,
            machine: Machine::new(),
            images: Vec::new(alloc),
            hosted,
        }
    }
}
