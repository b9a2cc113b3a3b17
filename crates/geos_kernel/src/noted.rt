//! What the device of the VM file has noted.

ghost use Rattle.std.specs.Prelude.{◌≡◌};
ghost use Rattle.vm_file.specs.Noting.{Rests};

use crate::kernel::Kernel;
use vm_file::{Device, Noting};

impl<D: Device + Drop> Kernel<D> {
    /// The device of the VM file.
    pub fn device(&self) -> &D
        ensures { result.now ≡ self.now.device }
    {
        self.vm.device()
    }
}

impl<D: Noting + Drop> Kernel<D> {
    /// Takes it that what the device has noted was performed, and lasts. Nothing else changes.
    pub fn settle(&mut self)
        ensures core { self.new.core ≡ self.old.core }
        ensures settled { D.settles self.old.device self.new.device }
        ensures rests { Rests D.medium self.old.device self.new.device }
        ensures failed { D.medium.failed self.new.device ≡ D.medium.failed self.old.device }
    {
        self.vm.settle();
    }
}
