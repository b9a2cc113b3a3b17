//! The steps that the device has noted, for the host to perform.

ghost use Rattle.std.specs.Prelude.{◌≡◌, [], false, length, slice_get, true};
ghost use Rattle.host_device.specs.Journal.{journal_of};
ghost use Rattle.takhvoi.specs.Answers.{Done, Looks, Served};
ghost use Rattle.takhvoi.specs.Journal.{HasBytes, IsSettled, IsStep, LacksBytes, NoSuchBytes, step_at};
ghost use Rattle.takhvoi.specs.Own.{NoOwn};

use crate::handle::Handle;
use crate::held::{put, take};
use crate::status::{BAD_SIZE, DONE, NO_KERNEL};
use crate::system::System;
use geos_kernel::Kernel;
use host_device::{HostDevice, Step};
use std::alloc::Global;

/// Whether the host has performed every noted step.
pub(crate) fn is_performed(kernel: &Kernel<HostDevice>) -> bool
    ensures none { result ≡ true → journal_of kernel.now.device ≡ [] }
    ensures some { result ≡ false → journal_of kernel.now.device ≡ [] → ⊥ }
{
    kernel.device().is_performed()
}

/// Gets the memory for every note of a commit, and returns whether there is enough. No clause says when the answer is false: only if the
/// allocator has refused, for which the kit has no predicate.
pub(crate) fn make_room(kernel: &mut Kernel<HostDevice>) -> bool
    requires { journal_of kernel.old.device ≡ [] }
    ensures { kernel.new ≡ kernel.old }
{
    kernel.settle();
    kernel.device().has_room()
}

/// Forgets the noted steps if there is no host.
pub(crate) fn rest(kernel: &mut Kernel<HostDevice>, hosted: bool)
    ensures core { kernel.new.core ≡ kernel.old.core }
    ensures hosted { hosted ≡ true → kernel.new ≡ kernel.old }
    ensures alone { hosted ≡ false → journal_of kernel.new.device ≡ [] }
{
    if !hosted {
        kernel.settle();
    }
}

#[tactic(auto, using(crate::proofs::Told::tells_write, crate::proofs::Told::tells_sync, crate::proofs::Told::tells_none))]
fn tell_step(device: &HostDevice, number: u32, kind: &mut u16, at: &mut u64, len: &mut u64)
    ensures { IsStep (slice_get (journal_of device.now) number) kind.new at.new len.new }
{
    match device.step(number as usize) {
        Some(Step::Write(from, bytes)) => {
            *kind = 1;
            *at = from;
            *len = bytes.len() as u64;
        }
        Some(Step::Sync) => *kind = 2,
        None => *kind = 0,
    }
}

/// The step with a number, from 0 on, of those that the host has not performed: `kind` is 1 for a write of `len` bytes from the offset `at`
/// of the file on, 2 for a sync, and 0 after the last step.
#[unsafe(no_mangle)]
pub extern "C" fn takhvoi_step(
    alloc: Global,
    handle: &mut Handle,
    number: u32,
    kind: &mut u16,
    at: &mut u64,
    len: &mut u64,
) -> u32
    ensures { Served NoOwn (Looks (IsStep (step_at handle.old.value number) kind.new at.new len.new)) result handle.old handle.new }
{
    let Some(system) = take(alloc, handle) else {
        return NO_KERNEL;
    };
    tell_step(system.kernel.device(), number, kind, at, len);
    put(handle, system);
    DONE
}

/// Copies bytes of the step, if it is a write and has them.
#[tactic(auto, using(crate::proofs::Told::has_write, crate::proofs::Told::lacks_write, crate::proofs::Told::lacks_sync, crate::proofs::Told::lacks_none))]
fn copy_step(device: &HostDevice, number: u32, from: u64, into: &mut [u8]) -> u32
    ensures copied { result ≡ 0 → HasBytes (slice_get (journal_of device.now) number) from into.new }
    ensures own { (result ≡ 0 → ⊥) → (result ≡ 105) × LacksBytes (slice_get (journal_of device.now) number) from (length into.old) }
    ensures kept { (result ≡ 0 → ⊥) → into.new ≡ into.old }
{
    let bytes = match device.step(number as usize) {
        Some(Step::Write(_, bytes)) => bytes,
        Some(Step::Sync) => return BAD_SIZE,
        None => return BAD_SIZE,
    };
    let (len, n) = (bytes.len(), into.len());
    if n > len || from > (len - n) as u64 {
        return BAD_SIZE;
    }
    let from = from as usize;
    into.copy_from_slice(&bytes[from..from + n]);
    DONE
}

/// Copies bytes of the step with a number, a write, from its byte `from` on. `BAD_SIZE` if the step is no write, or has fewer bytes: then
/// `into` is as before.
#[unsafe(no_mangle)]
pub extern "C" fn takhvoi_step_bytes(
    alloc: Global,
    handle: &mut Handle,
    number: u32,
    from: u64,
    into: &mut [u8],
) -> u32
    ensures served { Served (NoSuchBytes number from (length into.old)) (Looks (HasBytes (step_at handle.old.value number) from into.new))
        result handle.old handle.new }
    ensures kept { (result ≡ 0 → ⊥) → into.new ≡ into.old }
{
    let Some(system) = take(alloc, handle) else {
        return NO_KERNEL;
    };
    let status = copy_step(system.kernel.device(), number, from, into);
    put(handle, system);
    status
}

fn settle(system: &mut System) -> u32
    ensures { Done NoOwn IsSettled result system.old system.new }
{
    system.kernel.settle();
    DONE
}

/// The host has performed every step, in order, and the writes last: the kernel forgets the steps.
#[unsafe(no_mangle)]
pub extern "C" fn takhvoi_performed(alloc: Global, handle: &mut Handle) -> u32
    ensures { Served NoOwn IsSettled result handle.old handle.new }
{
    let Some(mut system) = take(alloc, handle) else {
        return NO_KERNEL;
    };
    let status = settle(&mut system);
    put(handle, system);
    status
}
