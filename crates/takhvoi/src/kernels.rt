//! Kernels are made and freed.

ghost use Rattle.std.specs.Prelude.{◌≡◌, ◌≢◌, ◌⊎◌, ◌≤◌, Err, [], false, true};
ghost use Rattle.host_device.specs.Journal.{journal_of};
ghost use Rattle.vm_file.specs.Reading.{file_at, is_area};
ghost use Rattle.takhvoi.specs.Answers.{Done, IsFlag, Limits, LimitsBlocks, Looks, Served};
ghost use Rattle.takhvoi.specs.Own.{NoOwn};
ghost use Rattle.takhvoi.specs.Starts.{Began, IsMade, IsNew, IsNoRegion, IsOpened, IsStarted};

use crate::handle::Handle;
use crate::held::{put, take};
use crate::journal::rest;
use crate::status::{BAD_FILE, BAD_SIZE, DONE, HAS_KERNEL, NO_KERNEL, NO_MEMORY};
use crate::system::System;
use geos_kernel::Kernel;
use host_device::HostDevice;
use std::alloc::Global;
use vm_file::{OpenError, VmFile, device_length};

/// Whether an area of the VM file may have so many bytes.
fn is_area(area: u32) -> bool
    ensures exact { result ≡ is_area area }
    ensures small { result ≡ true → area ≤ 16777216 }
{
    512 <= area && area <= 16_777_216 && area % 512 == 0
}

/// Whether the region may have so many bytes.
fn is_region(region: u32) -> bool
    ensures yes { result ≡ true → (65536 ≤ region) × (region ≤ 16777216) }
    ensures no { result ≡ false → IsNoRegion region }
{
    65_536 <= region && region <= 16_777_216
}

/// Puts a kernel on an open VM file into a handle. `hosted`: whether a host performs the steps that the device notes.
fn start(
    alloc: Global,
    handle: &mut Handle,
    region: u32,
    file: VmFile<HostDevice>,
    hosted: bool,
) -> u32
    requires { (65536 ≤ region) × (region ≤ 16777216) }
    ensures made { result ≡ 0 → (handle.old.live ≡ 0) × (handle.new.live ≡ 1) }
    ensures kept { handle.old.live ≢ 0 → (handle.new.live ≢ 0) × (handle.new.value ≡ handle.old.value) }
    ensures began { result ≡ 0 → Began file region handle.new.value.kernel.core }
    ensures hosts { result ≡ 0 → handle.new.value.hosted ≡ hosted }
    ensures images { result ≡ 0 → handle.new.value.images.items ≡ [] }
    ensures device { result ≡ 0 → hosted ≡ true → handle.new.value.kernel.device ≡ file.device }
    ensures alone { result ≡ 0 → hosted ≡ false → journal_of handle.new.value.kernel.device ≡ [] }
    ensures none { (result ≡ 0 → ⊥) → handle.old.live ≡ 0 → handle.new.live ≡ 0 }
    ensures own { IsStarted handle.old.live result }
{
    if let Some(system) = take(alloc, handle) {
        put(handle, system);
        return HAS_KERNEL;
    }
    let Ok(mut kernel) = Kernel::new(alloc, region, file) else {
        return NO_MEMORY;
    };
    rest(&mut kernel, hosted);
    match Box::new(alloc, System::of(alloc, kernel, hosted)) {
        Ok(system) => {
            put(handle, system);
            DONE
        }
        Err(_) => NO_MEMORY,
    }
}

/// The same on a new VM file.
fn start_new(alloc: Global, handle: &mut Handle, area: u32, region: u32, hosted: bool) -> u32
    ensures made { result ≡ 0 → (handle.old.live ≡ 0) × (handle.new.live ≡ 1) }
    ensures kept { handle.old.live ≢ 0 → (handle.new.live ≢ 0) × (handle.new.value ≡ handle.old.value) }
    ensures new { result ≡ 0 → IsNew area region hosted handle.new.value }
    ensures none { (result ≡ 0 → ⊥) → handle.old.live ≡ 0 → handle.new.live ≡ 0 }
    ensures own { IsMade handle.old.live area region result }
{
    if !is_region(region) {
        return BAD_SIZE;
    }
    if !is_area(area) {
        return BAD_SIZE;
    }
    let Ok(device) = HostDevice::new(alloc, device_length(area)) else {
        return NO_MEMORY;
    };
    // The device has room for the file, and fails only if the allocator refuses.
    match VmFile::create(alloc, device, area) {
        Ok(file) => start(alloc, handle, region, file, hosted),
        Err(_) => NO_MEMORY,
    }
}

/// Puts a kernel without blocks into a handle: in a region of so many bytes, on a new VM file in memory with areas of so many.
#[unsafe(no_mangle)]
pub extern "C" fn takhvoi_new(alloc: Global, handle: &mut Handle, area: u32, region: u32) -> u32
    ensures made { result ≡ 0 → (handle.old.live ≡ 0) × (handle.new.live ≡ 1) }
    ensures kept { handle.old.live ≢ 0 → (handle.new.live ≢ 0) × (handle.new.value ≡ handle.old.value) }
    ensures new { result ≡ 0 → IsNew area region false handle.new.value }
    ensures none { (result ≡ 0 → ⊥) → handle.old.live ≡ 0 → handle.new.live ≡ 0 }
    ensures own { IsMade handle.old.live area region result }
{
    start_new(alloc, handle, area, region, false)
}

/// The same for a file of a host: it begins with 1,024 zeros and two areas of zeros, and performs the noted steps.
#[unsafe(no_mangle)]
pub extern "C" fn takhvoi_create(alloc: Global, handle: &mut Handle, area: u32, region: u32) -> u32
    ensures made { result ≡ 0 → (handle.old.live ≡ 0) × (handle.new.live ≡ 1) }
    ensures kept { handle.old.live ≢ 0 → (handle.new.live ≢ 0) × (handle.new.value ≡ handle.old.value) }
    ensures new { result ≡ 0 → IsNew area region true handle.new.value }
    ensures none { (result ≡ 0 → ⊥) → handle.old.live ≡ 0 → handle.new.live ≡ 0 }
    ensures own { IsMade handle.old.live area region result }
{
    start_new(alloc, handle, area, region, true)
}

/// The same on the VM file that a host's bytes encode. If they encode none, `fault` is the offset of the first field that is faulty or cut
/// off.
#[unsafe(no_mangle)]
pub extern "C" fn takhvoi_open(
    alloc: Global,
    handle: &mut Handle,
    bytes: &[u8],
    region: u32,
    fault: &mut u64,
) -> u32
    ensures made { result ≡ 0 → (handle.old.live ≡ 0) × (handle.new.live ≡ 1) }
    ensures kept { handle.old.live ≢ 0 → (handle.new.live ≢ 0) × (handle.new.value ≡ handle.old.value) }
    ensures opened { result ≡ 0 → IsOpened bytes.now region handle.new.value }
    ensures bad { result ≡ 110 → file_at bytes.now ≡ Err fault.new }
    ensures none { (result ≡ 0 → ⊥) → handle.old.live ≡ 0 → handle.new.live ≡ 0 }
    ensures own { (result ≡ 110) ⊎ ((result ≡ 105) × IsNoRegion region ⊎ IsStarted handle.old.live result) }
{
    if !is_region(region) {
        return BAD_SIZE;
    }
    let Ok(device) = HostDevice::holding(alloc, bytes) else {
        return NO_MEMORY;
    };
    match VmFile::open(alloc, device) {
        Ok(file) => start(alloc, handle, region, file, true),
        Err((_device, error)) => match error {
            OpenError::BadFile(at) => {
                *fault = at;
                BAD_FILE
            }
            OpenError::Memory => NO_MEMORY,
            // It fails only if the allocator refuses the memory to note the sync.
            OpenError::Disk => NO_MEMORY,
        },
    }
}

/// Writes to `sure` whether the VM file is sure of what it has committed: 1 or 0. If not, it refuses commits, and has to be opened again.
#[unsafe(no_mangle)]
pub extern "C" fn takhvoi_is_sure(alloc: Global, handle: &mut Handle, sure: &mut u16) -> u32
    ensures { Served NoOwn (Looks (IsFlag sure.new handle.old.value.kernel.core.vm.file.sure)) result handle.old handle.new }
{
    let Some(system) = take(alloc, handle) else {
        return NO_KERNEL;
    };
    *sure = u16::from(system.kernel.is_sure());
    put(handle, system);
    DONE
}

fn limit(system: &mut System, more: u32) -> u32
    ensures { Done NoOwn (Limits more) result system.old system.new }
{
    system.kernel.limit(more);
    DONE
}

/// Lets all blocks in memory together have `more` bytes more than they have, at most the whole region, until the next such call. A large number
/// takes the limit away. What would be more is refused with 4, after all blocks were evicted that may be.
#[unsafe(no_mangle)]
pub extern "C" fn takhvoi_limit(alloc: Global, handle: &mut Handle, more: u32) -> u32
    ensures { Served NoOwn (Limits more) result handle.old handle.new }
{
    let Some(mut system) = take(alloc, handle) else {
        return NO_KERNEL;
    };
    let status = limit(&mut system, more);
    put(handle, system);
    status
}

fn limit_blocks(system: &mut System, last: u16) -> u32
    ensures { Done NoOwn (LimitsBlocks last) result system.old system.new }
{
    system.kernel.limit_handles(last);
    DONE
}

/// Lets new blocks of memory get only handles up to `last`, until the next such call; 1,024 takes the limit away. So no more than `last` blocks
/// have such handles at once. One more is refused with 5.
#[unsafe(no_mangle)]
pub extern "C" fn takhvoi_limit_blocks(alloc: Global, handle: &mut Handle, last: u16) -> u32
    ensures { Served NoOwn (LimitsBlocks last) result handle.old handle.new }
{
    let Some(mut system) = take(alloc, handle) else {
        return NO_KERNEL;
    };
    let status = limit_blocks(&mut system, last);
    put(handle, system);
    status
}

/// Frees the kernel of a handle. Changes that were not committed are lost.
#[unsafe(no_mangle)]
pub extern "C" fn takhvoi_close(alloc: Global, handle: &mut Handle) -> u32
    ensures freed { handle.new.live ≡ 0 }
    ensures none { result ≡ 100 → handle.old.live ≡ 0 }
    ensures done { (result ≡ 100 → ⊥) → (result ≡ 0) × (handle.old.live ≢ 0) }
{
    match take(alloc, handle) {
        Some(system) => {
            drop(system);
            DONE
        }
        None => NO_KERNEL,
    }
}

/// The number of this library's interface: it rises when a declaration of the header changes.
#[unsafe(no_mangle)]
pub extern "C" fn takhvoi_abi() -> u32
    ensures { result ≡ 1 }
{
    1
}
