//! Calls on whole blocks of memory, and on locks.

ghost use Rattle.std.specs.Prelude.{◌≡◌};
ghost use Rattle.block_handles.specs.Names.{slot_of};
ghost use Rattle.block_handles.specs.Store.{locks_of};
ghost use Rattle.vm_blocks.specs.Blocks.{is_marked_in};
ghost use Rattle.vm_blocks.specs.View.{held_at};
ghost use Rattle.geos_calls.specs.Calls as table;
ghost use Rattle.geos_kernel.specs.Kernel.{NewHasNoRoom};
ghost use Rattle.takhvoi.specs.Answers.{Done, IsAnswer, IsFlag, IsTold, Looks, Served};
ghost use Rattle.takhvoi.specs.Names.{name_of};
ghost use Rattle.takhvoi.specs.Own.{NoOwn, NotLocked};

use crate::handle::Handle;
use crate::held::{put, take};
use crate::status::{DONE, NO_KERNEL, NOT_LOCKED, end, name_of, tell};
use crate::system::System;
use std::alloc::Global;

fn mnew(system: &mut System, told: &mut u16) -> u32
    ensures done { Done NoOwn (IsTold table.mnew told.new) result system.old system.new }
    ensures no_room { result ≡ 4 → NewHasNoRoom system.old.kernel.core system.new.kernel.core }
{
    tell(system.kernel.mnew(), told)
}

/// Makes a block of 64 bytes, locks it, and writes its handle to `told`.
#[unsafe(no_mangle)]
pub extern "C" fn takhvoi_mnew(alloc: Global, handle: &mut Handle, told: &mut u16) -> u32
    ensures served { Served NoOwn (IsTold table.mnew told.new) result handle.old handle.new }
    ensures no_room { result ≡ 4 → NewHasNoRoom handle.old.value.kernel.core handle.new.value.kernel.core }
{
    let Some(mut system) = take(alloc, handle) else {
        return NO_KERNEL;
    };
    let status = mnew(&mut system, told);
    put(handle, system);
    status
}

fn mlock(system: &mut System, block: u16) -> u32
    ensures { Done NoOwn (IsAnswer (table.mlock block)) result system.old system.new }
{
    end(system.kernel.mlock(block))
}

/// Locks a block of memory once more.
#[unsafe(no_mangle)]
pub extern "C" fn takhvoi_mlock(alloc: Global, handle: &mut Handle, block: u16) -> u32
    ensures { Served NoOwn (IsAnswer (table.mlock block)) result handle.old handle.new }
{
    let Some(mut system) = take(alloc, handle) else {
        return NO_KERNEL;
    };
    let status = mlock(&mut system, block);
    put(handle, system);
    status
}

fn unlock(system: &mut System, block: u32) -> u32
    ensures { Done (NotLocked (name_of block)) (IsAnswer (table.unlock (name_of block))) result system.old system.new }
{
    let name = name_of(block);
    if system.kernel.locks(name) == 0 {
        return NOT_LOCKED;
    }
    system.kernel.munlock(name);
    DONE
}

/// Unlocks a block of either owner, or a group, once.
#[unsafe(no_mangle)]
pub extern "C" fn takhvoi_unlock(alloc: Global, handle: &mut Handle, block: u32) -> u32
    ensures { Served (NotLocked (name_of block)) (IsAnswer (table.unlock (name_of block))) result handle.old handle.new }
{
    let Some(mut system) = take(alloc, handle) else {
        return NO_KERNEL;
    };
    let status = unlock(&mut system, block);
    put(handle, system);
    status
}

fn mfree(system: &mut System, block: u16) -> u32
    ensures { Done NoOwn (IsAnswer (table.mfree block)) result system.old system.new }
{
    end(system.kernel.mfree(block))
}

/// Frees a block of memory that is not locked.
#[unsafe(no_mangle)]
pub extern "C" fn takhvoi_mfree(alloc: Global, handle: &mut Handle, block: u16) -> u32
    ensures { Served NoOwn (IsAnswer (table.mfree block)) result handle.old handle.new }
{
    let Some(mut system) = take(alloc, handle) else {
        return NO_KERNEL;
    };
    let status = mfree(&mut system, block);
    put(handle, system);
    status
}

/// Writes the lock count of a block of either owner, or of a group, to `told`; 0 if there is none.
#[unsafe(no_mangle)]
pub extern "C" fn takhvoi_locks(
    alloc: Global,
    handle: &mut Handle,
    block: u32,
    told: &mut u16,
) -> u32
    ensures { Served NoOwn (Looks (told.new ≡ locks_of handle.old.value.kernel.core.blocks (slot_of (name_of block)))) result handle.old handle.new }
{
    let Some(system) = take(alloc, handle) else {
        return NO_KERNEL;
    };
    *told = system.kernel.locks(name_of(block));
    put(handle, system);
    DONE
}

/// Writes to `told` whether a block of the VM file, or a group, is marked: 1 or 0; 0 if there is none.
#[unsafe(no_mangle)]
pub extern "C" fn takhvoi_marked(
    alloc: Global,
    handle: &mut Handle,
    block: u16,
    told: &mut u16,
) -> u32
    ensures { Served NoOwn (Looks (IsFlag told.new (is_marked_in (held_at handle.old.value.kernel.core.vm block)))) result handle.old handle.new }
{
    let Some(system) = take(alloc, handle) else {
        return NO_KERNEL;
    };
    *told = u16::from(system.kernel.marked(block));
    put(handle, system);
    DONE
}
