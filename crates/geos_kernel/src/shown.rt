//! What a debugger shows of a kernel.

ghost use Rattle.std.specs.Prelude.{◌≡◌};
ghost use Rattle.vm_blocks.specs.View.{held_at};

use crate::kernel::Kernel;
use block_handles::Blocks;
use vm_blocks::Held;
use vm_file::Device;

impl<D: Device + Drop> Kernel<D> {
    /// The blocks in memory, of either owner, in their region.
    pub fn blocks(&self) -> &Blocks
        ensures { result.now ≡ self.now.core.blocks }
    {
        &self.blocks
    }

    /// What is listed of the VM file under a handle.
    pub fn held(&self, handle: u16) -> Option<Held>
        ensures { result ≡ held_at self.now.core.vm handle }
    {
        self.vm.held(handle)
    }
}
