//! Lists of handles, in order.

ghost use Rattle.std.specs.Prelude.{ℕ, ◌≡◌, ◌+◌, ◌<◌, ◌++◌, ◌∷◌, [], List, Ok, Err, IfErr, IfOk, OnOk};
ghost use Rattle.geos_calls.specs.VmFile.{VmFile};
ghost use Rattle.geos_terms.specs.Names.{vm};
ghost use Rattle.vm_file.specs.Outcomes.{ReadsOnly};
ghost use Rattle.geos_kernel.specs.Kernel.{Calls, LeavesVm, ListedHasNoRoom};
ghost use Rattle.geos_kernel.specs.View.{IsFileOf, IsLocked, memory_of};
ghost use Rattle.host_device.specs.Journal.{medium};
ghost use Rattle.takhvoi.specs.Answers.{Done, Looks, Served};
ghost use Rattle.takhvoi.specs.Lists.{Fills, Lists, is_block, is_chunk, is_listed, looks, past_chunks, past_handles, IsBrought, IsFound, brings};
ghost use Rattle.takhvoi.specs.Names.{name_of};
ghost use Rattle.takhvoi.specs.Own.{NoOwn, NotLocked};

use crate::handle::Handle;
use crate::held::{put, take};
use crate::status::{DONE, NO_KERNEL, NOT_LOCKED, end, name_of};
use crate::system::System;
use geos_calls::Ask;
use geos_kernel::{Kernel, Name, Refusal};
use host_device::HostDevice;
use std::alloc::Global;

/// Handles of blocks are below this number.
const PAST_HANDLES: u16 = 1025;

/// Handles of chunks are even, and below this number.
const PAST_CHUNKS: u16 = 65_535;

/// The number of the refusal of a chunk that does not exist.
const BAD_CHUNK: u16 = 2;
/// The number of the refusal of a block that is locked too often.
const LOCKED: u16 = 7;

/// Counts a handle, and writes it after the others if there is room.
fn put_next(into: &mut [u16], count: &mut u32, handle: u16)
    requires { count.old < 65536 }
    ensures filled { (found start : List ℕ) → Fills found count.old start into.old → Fills (found ++ handle ∷ []) count.new start into.new }
    ensures one { count.new ≡ count.old + 1 }
{
    let at = *count as usize;
    if at < into.len() {
        into[at] = handle;
    }
    *count += 1;
}

/// Whether the VM file has a block or a group with this handle.
fn is_listed(kernel: &Kernel<HostDevice>, h: u16) -> bool
    ensures { (f : VmFile) → IsFileOf (Unit {0}) kernel.now.core f → result ≡ is_listed (memory_of kernel.now.core f) h }
{
    match kernel.vuid(h) {
        Ok(_) => true,
        Err(_) => false,
    }
}

/// Lists the blocks and groups of the VM file.
fn list_file(kernel: &Kernel<HostDevice>, into: &mut [u16], count: &mut u32)
    ensures { Lists is_listed past_handles kernel.now.core count.new into.old into.new }
{
    *count = 0;
    for h in 0..PAST_HANDLES {
        if is_listed(kernel, h) {
            put_next(into, count, h);
        }
    }
}

/// Lists the handles of the blocks and groups of the VM file, in order: `count` is their number, and as many as there is room for are written
/// to `into`.
#[unsafe(no_mangle)]
pub extern "C" fn takhvoi_vlist(
    alloc: Global,
    handle: &mut Handle,
    into: &mut [u16],
    count: &mut u32,
) -> u32
    ensures served { Served NoOwn (Looks (Lists is_listed past_handles handle.old.value.kernel.core count.new into.old into.new)) result handle.old handle.new }
    ensures kept { (result ≡ 0 → ⊥) → into.new ≡ into.old }
{
    let Some(system) = take(alloc, handle) else {
        return NO_KERNEL;
    };
    list_file(&system.kernel, into, count);
    put(handle, system);
    DONE
}

/// Whether a locked block has a chunk with this handle.
fn is_chunk(kernel: &Kernel<HostDevice>, name: Name, c: u16) -> bool
    requires { IsLocked kernel.now.core name }
    ensures { (f : VmFile) → IsFileOf (Unit {0}) kernel.now.core f → result ≡ is_chunk name (memory_of kernel.now.core f) c }
{
    match kernel.ask(name, Ask::Lsize { c }) {
        Ok(_) => true,
        Err(_) => false,
    }
}

/// Lists the chunks of a locked block.
fn list_chunks(kernel: &Kernel<HostDevice>, name: Name, into: &mut [u16], count: &mut u32)
    requires { IsLocked kernel.now.core name }
    ensures { Lists (is_chunk name) past_chunks kernel.now.core count.new into.old into.new }
{
    *count = 0;
    for c in 0..PAST_CHUNKS {
        if is_chunk(kernel, name, c) {
            put_next(into, count, c);
        }
    }
}

fn list_chunks_in(system: &System, name: Name, into: &mut [u16], count: &mut u32) -> u32
    ensures done { Done (NotLocked name) (Looks (Lists (is_chunk name) past_chunks system.now.kernel.core count.new into.old into.new))
        result system.now system.now }
    ensures kept { (result ≡ 0 → ⊥) → into.new ≡ into.old }
{
    if system.kernel.locks(name) == 0 {
        return NOT_LOCKED;
    }
    list_chunks(&system.kernel, name, into, count);
    DONE
}

/// Lists the handles of the chunks of a locked block, as `takhvoi_vlist` does; of a group, those of its items.
#[unsafe(no_mangle)]
pub extern "C" fn takhvoi_llist(
    alloc: Global,
    handle: &mut Handle,
    block: u32,
    into: &mut [u16],
    count: &mut u32,
) -> u32
    ensures served { Served (NotLocked (name_of block)) (Looks (Lists (is_chunk (name_of block)) past_chunks handle.old.value.kernel.core
        count.new into.old into.new)) result handle.old handle.new }
    ensures kept { (result ≡ 0 → ⊥) → into.new ≡ into.old }
{
    let Some(system) = take(alloc, handle) else {
        return NO_KERNEL;
    };
    let status = list_chunks_in(&system, name_of(block), into, count);
    put(handle, system);
    status
}

/// Whether a block of memory has this handle. If it is not locked, this call locks and unlocks it.
fn is_block(kernel: &mut Kernel<HostDevice>, h: u16) -> bool
    ensures looks { Calls (Unit {0}) looks (Ok tt) kernel.old.core kernel.new.core }
    ensures vm { LeavesVm kernel.old kernel.new }
    ensures found { (f : VmFile) → IsFileOf (Unit {0}) kernel.old.core f → result ≡ is_block (memory_of kernel.old.core f) h }
{
    // the lock count in the model
    kernel.memory_is_legal();
    match kernel.mlock(h) {
        Ok(()) => {
            kernel.memory_is_legal();
            kernel.munlock(Name::mem(h));
            true
        }
        Err(why) => why.number() == LOCKED,
    }
}

/// Lists the blocks of memory.
fn list_blocks(kernel: &mut Kernel<HostDevice>, into: &mut [u16], count: &mut u32)
    ensures looks { Calls (Unit {0}) looks (Ok tt) kernel.old.core kernel.new.core }
    ensures vm { LeavesVm kernel.old kernel.new }
    ensures lists { Lists is_block past_handles kernel.old.core count.new into.old into.new }
{
    *count = 0;
    for h in 0..PAST_HANDLES {
        if is_block(kernel, h) {
            put_next(into, count, h);
        }
    }
}

fn list_blocks_in(system: &mut System, into: &mut [u16], count: &mut u32) -> u32
    ensures done { Done NoOwn (IsFound (Lists is_block past_handles system.old.kernel.core count.new into.old into.new)) result system.old system.new }
    ensures kept { (result ≡ 0 → ⊥) → into.new ≡ into.old }
{
    list_blocks(&mut system.kernel, into, count);
    DONE
}

/// Lists the handles of the blocks of memory, as `takhvoi_vlist` does.
#[unsafe(no_mangle)]
pub extern "C" fn takhvoi_mlist(
    alloc: Global,
    handle: &mut Handle,
    into: &mut [u16],
    count: &mut u32,
) -> u32
    ensures served { Served NoOwn (IsFound (Lists is_block past_handles handle.old.value.kernel.core count.new into.old into.new))
        result handle.old handle.new }
    ensures kept { (result ≡ 0 → ⊥) → into.new ≡ into.old }
{
    let Some(mut system) = take(alloc, handle) else {
        return NO_KERNEL;
    };
    let status = list_blocks_in(&mut system, into, count);
    put(handle, system);
    status
}

/// Whether a group has an item with this handle. The call brings the group into memory, and locks and unlocks it; its refusals are those of
/// `ilock`.
fn is_item(kernel: &mut Kernel<HostDevice>, group: u16, c: u16) -> Result<bool, Refusal>
    ensures brought { IfOk result (λ _. Calls (Unit {0}) (brings group) (Ok tt) kernel.old.core kernel.new.core) }
    ensures refused { IfErr result (λ why. Calls (Unit {0}) (brings group) (Err why) kernel.old.core kernel.new.core) }
    ensures no_room { IfErr result (λ why. why ≡ Refusal.NoRoom → ListedHasNoRoom kernel.new.core group) }
    ensures reads { ReadsOnly medium kernel.old.device kernel.new.device }
    ensures found { IfOk result (λ is. (f : VmFile) → IsFileOf (Unit {0}) kernel.old.core f → is ≡ is_chunk (vm group) (memory_of kernel.old.core f) c) }
{
    // the lock count in the model
    kernel.memory_is_legal();
    match kernel.ilock(group, c, 0) {
        Ok(_span) => {
            kernel.memory_is_legal();
            kernel.iunlock(Name::vm(group));
            Ok(true)
        }
        Err(why) => {
            if why.number() == BAD_CHUNK {
                Ok(false)
            } else {
                Err(why)
            }
        }
    }
}

/// Lists the items of a group.
fn list_items(
    kernel: &mut Kernel<HostDevice>,
    group: u16,
    into: &mut [u16],
    count: &mut u32,
) -> Result<(), Refusal>
    ensures brought { Calls (Unit {0}) (brings group) result kernel.old.core kernel.new.core }
    ensures no_room { result ≡ Err Refusal.NoRoom → ListedHasNoRoom kernel.new.core group }
    ensures reads { ReadsOnly medium kernel.old.device kernel.new.device }
    ensures lists { OnOk result (Lists (is_chunk (vm group)) past_chunks kernel.old.core count.new into.old into.new) }
{
    *count = 0;
    // the group is brought into memory, or the call is refused
    match is_item(kernel, group, 0) {
        Ok(_) => {}
        Err(why) => return Err(why),
    }
    for c in 0..PAST_CHUNKS {
        let is_there = match is_item(kernel, group, c) {
            Ok(is_there) => is_there,
            Err(why) => return Err(why),
        };
        if is_there {
            put_next(into, count, c);
        }
    }
    Ok(())
}

fn list_items_in(system: &mut System, group: u16, into: &mut [u16], count: &mut u32) -> u32
    ensures done { Done NoOwn (IsBrought group (Lists (is_chunk (vm group)) past_chunks system.old.kernel.core count.new into.old into.new))
        result system.old system.new }
    ensures no_room { result ≡ 4 → ListedHasNoRoom system.new.kernel.core group }
{
    end(list_items(&mut system.kernel, group, into, count))
}

/// Lists the items of a group, as `takhvoi_vlist` does. The call brings the group into memory; its refusals are those of `takhvoi_ilock`.
#[unsafe(no_mangle)]
pub extern "C" fn takhvoi_ilist(
    alloc: Global,
    handle: &mut Handle,
    group: u16,
    into: &mut [u16],
    count: &mut u32,
) -> u32
    ensures served { Served NoOwn (IsBrought group (Lists (is_chunk (vm group)) past_chunks handle.old.value.kernel.core
        count.new into.old into.new)) result handle.old handle.new }
    ensures no_room { result ≡ 4 → ListedHasNoRoom handle.new.value.kernel.core group }
{
    let Some(mut system) = take(alloc, handle) else {
        return NO_KERNEL;
    };
    let status = list_items_in(&mut system, group, into, count);
    put(handle, system);
    status
}
