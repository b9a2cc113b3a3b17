//! Kernels whose VM file lies in memory.

ghost use Rattle.std.specs.Prelude.{◌≡◌, ◌≤◌, IfOk, None, replicate};
ghost use Rattle.block_handles.specs.Layout.{IsEmpty};
ghost use Rattle.geos_calls.specs.VmFile.{VmFile, empty_file};
ghost use Rattle.vm_file.specs.Device.{IsSteady};
ghost use Rattle.vm_file.specs.Memory.{IsHonest, bytes_of, medium};
ghost use Rattle.vm_file.specs.State.{HasRoom};
ghost use Rattle.geos_kernel.specs.Files.{vm_file_of};
ghost use Rattle.geos_kernel.specs.View.{failed_in, IsFileOf, memory_of};

use crate::kernel::Kernel;
use std::alloc::{AllocError, Global};
use vm_file::{MemoryDevice, device_length};

/// How long a pair of directories may be in the file, in bytes.
const AREA: u32 = 65_536;

/// A kernel without a block, in a region of `region` bytes, 65,536 to 16,777,216, on a new VM
/// file in memory with an area of 65,536 bytes. The device is honest, and has not failed.
/// `AllocError` if there is no memory.
pub fn kernel_in_memory(alloc: Global, region: u32) -> Result<Kernel<MemoryDevice>, AllocError>
    requires { (65536 ≤ region) × (region ≤ 16777216) }
    ensures store { IfOk result (λ kernel. IsEmpty kernel.core.blocks region) }
    ensures tied { IfOk result (λ kernel. IsFileOf (IsHonest kernel.device) kernel.core (empty_file 65536)) }
    ensures memory { IfOk result
        (λ kernel. (f : VmFile) → memory_of kernel.core f ≡ record { blocks = replicate 1024 None; file = f; region = region; handles = 1024 }) }
    ensures honest { IfOk result (λ kernel. IsHonest kernel.device) }
    ensures failures { IfOk result (λ kernel. failed_in kernel.core ≡ 0) }
    // Its device has room for the file, and fails at no call within its length: so it fails at none
    // that the kernel makes (`Between`).
    ensures room { IfOk result (λ kernel. HasRoom bytes_of (vm_file_of kernel)) }
    ensures steady { IfOk result (λ _. IsSteady medium) }
{
    let device = MemoryDevice::new(alloc, device_length(AREA))?;
    // The device has room for the file, and fails at nothing else: so no fault comes here.
    let file = match vm_file::VmFile::create(alloc, device, AREA) {
        Ok(file) => file,
        Err(_) => return Err(AllocError),
    };
    match Kernel::new(alloc, region, file) {
        Ok(kernel) => {
            // what is seen of its device is that it has not failed
            kernel.memory_is_legal();
            Ok(kernel)
        }
        Err((_file, error)) => Err(error),
    }
}
