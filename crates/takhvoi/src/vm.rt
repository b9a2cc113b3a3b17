//! Calls on blocks of the VM file, and on the file.

ghost use Rattle.std.specs.Prelude.{◌≡◌};
ghost use Rattle.geos_terms.specs.Names.{vm};
ghost use Rattle.geos_calls.specs.VmCalls as table;
ghost use Rattle.geos_kernel.specs.Kernel.{ListedHasNoRoom, NewListedHasNoRoom};
ghost use Rattle.takhvoi.specs.Answers.{Changes, Done, IsAnswer, IsAnswerRead, IsTold, Served};
ghost use Rattle.takhvoi.specs.Journal.{IsCommitted};
ghost use Rattle.takhvoi.specs.Own.{IsPending, MayNotCommit, MayNotMark, NoOwn};

use crate::handle::Handle;
use crate::held::{put, take};
use crate::journal::{is_performed, make_room, rest};
use crate::status::{DONE, FILE_LOCKED, NO_KERNEL, NOT_LOCKED, PENDING, end, number, tell};
use crate::system::System;
use geos_kernel::{Name, Refusal};
use std::alloc::Global;
use vm_file::How;

fn vnew(system: &mut System, uid: u16, told: &mut u16) -> u32
    ensures done { Done IsPending (Changes (IsTold (table.vnew uid) told.new)) result system.old system.new }
    ensures no_room { result ≡ 4 → NewListedHasNoRoom system.old.kernel.core system.new.kernel.core }
{
    if !is_performed(&system.kernel) {
        return PENDING;
    }
    tell(system.kernel.vnew(uid), told)
}

/// Makes a block of the VM file with a user ID, marks and locks it, and writes its handle to `told`.
#[unsafe(no_mangle)]
pub extern "C" fn takhvoi_vnew(alloc: Global, handle: &mut Handle, uid: u16, told: &mut u16) -> u32
    ensures served { Served IsPending (Changes (IsTold (table.vnew uid) told.new)) result handle.old handle.new }
    ensures no_room { result ≡ 4 → NewListedHasNoRoom handle.old.value.kernel.core handle.new.value.kernel.core }
{
    let Some(mut system) = take(alloc, handle) else {
        return NO_KERNEL;
    };
    let status = vnew(&mut system, uid, told);
    put(handle, system);
    status
}

fn vlock(system: &mut System, block: u16) -> u32
    ensures done { Done NoOwn (IsAnswerRead (table.vlock block)) result system.old system.new }
    ensures no_room { result ≡ 4 → ListedHasNoRoom system.new.kernel.core block }
{
    end(system.kernel.vlock(block))
}

/// Locks a block of the VM file once more; the call brings the block into memory.
#[unsafe(no_mangle)]
pub extern "C" fn takhvoi_vlock(alloc: Global, handle: &mut Handle, block: u16) -> u32
    ensures served { Served NoOwn (IsAnswerRead (table.vlock block)) result handle.old handle.new }
    ensures no_room { result ≡ 4 → ListedHasNoRoom handle.new.value.kernel.core block }
{
    let Some(mut system) = take(alloc, handle) else {
        return NO_KERNEL;
    };
    let status = vlock(&mut system, block);
    put(handle, system);
    status
}

fn vdirty(system: &mut System, block: u16) -> u32
    ensures { Done (MayNotMark (vm block)) (Changes (IsAnswer (table.vdirty block))) result system.old system.new }
{
    let name = Name::vm(block);
    if system.kernel.locks(name) == 0 {
        return NOT_LOCKED;
    }
    if !is_performed(&system.kernel) {
        return PENDING;
    }
    system.kernel.vdirty(name);
    DONE
}

/// Marks a locked block of the VM file, or a locked group: the next commit writes it.
#[unsafe(no_mangle)]
pub extern "C" fn takhvoi_vdirty(alloc: Global, handle: &mut Handle, block: u16) -> u32
    ensures { Served (MayNotMark (vm block)) (Changes (IsAnswer (table.vdirty block))) result handle.old handle.new }
{
    let Some(mut system) = take(alloc, handle) else {
        return NO_KERNEL;
    };
    let status = vdirty(&mut system, block);
    put(handle, system);
    status
}

fn vfree(system: &mut System, block: u16) -> u32
    ensures { Done IsPending (Changes (IsAnswer (table.vfree block))) result system.old system.new }
{
    if !is_performed(&system.kernel) {
        return PENDING;
    }
    end(system.kernel.vfree(block))
}

/// Frees a block of the VM file that is not locked.
#[unsafe(no_mangle)]
pub extern "C" fn takhvoi_vfree(alloc: Global, handle: &mut Handle, block: u16) -> u32
    ensures { Served IsPending (Changes (IsAnswer (table.vfree block))) result handle.old handle.new }
{
    let Some(mut system) = take(alloc, handle) else {
        return NO_KERNEL;
    };
    let status = vfree(&mut system, block);
    put(handle, system);
    status
}

fn vfind(system: &mut System, start: u16, uid: u16, told: &mut u16) -> u32
    ensures { Done NoOwn (IsTold (table.vfind start uid) told.new) result system.old system.new }
{
    tell(system.kernel.vfind(start, uid), told)
}

/// Writes to `told` the lowest handle above `start` of a block with the user ID; 0 for none.
#[unsafe(no_mangle)]
pub extern "C" fn takhvoi_vfind(
    alloc: Global,
    handle: &mut Handle,
    start: u16,
    uid: u16,
    told: &mut u16,
) -> u32
    ensures { Served NoOwn (IsTold (table.vfind start uid) told.new) result handle.old handle.new }
{
    let Some(mut system) = take(alloc, handle) else {
        return NO_KERNEL;
    };
    let status = vfind(&mut system, start, uid, told);
    put(handle, system);
    status
}

fn vuid(system: &mut System, block: u16, told: &mut u16) -> u32
    ensures { Done NoOwn (IsTold (table.vuid block) told.new) result system.old system.new }
{
    tell(system.kernel.vuid(block), told)
}

/// Writes to `told` the user ID of a block of the VM file, or of a group.
#[unsafe(no_mangle)]
pub extern "C" fn takhvoi_vuid(
    alloc: Global,
    handle: &mut Handle,
    block: u16,
    told: &mut u16,
) -> u32
    ensures { Served NoOwn (IsTold (table.vuid block) told.new) result handle.old handle.new }
{
    let Some(mut system) = take(alloc, handle) else {
        return NO_KERNEL;
    };
    let status = vuid(&mut system, block, told);
    put(handle, system);
    status
}

fn vgetmap(system: &mut System, told: &mut u16) -> u32
    ensures { Done NoOwn (IsTold table.vgetmap told.new) result system.old system.new }
{
    *told = system.kernel.vgetmap();
    DONE
}

/// Writes the handle of the map block to `told`; 0 for none.
#[unsafe(no_mangle)]
pub extern "C" fn takhvoi_vgetmap(alloc: Global, handle: &mut Handle, told: &mut u16) -> u32
    ensures { Served NoOwn (IsTold table.vgetmap told.new) result handle.old handle.new }
{
    let Some(mut system) = take(alloc, handle) else {
        return NO_KERNEL;
    };
    let status = vgetmap(&mut system, told);
    put(handle, system);
    status
}

fn vsetmap(system: &mut System, block: u16) -> u32
    ensures { Done IsPending (Changes (IsAnswer (table.vsetmap block))) result system.old system.new }
{
    if !is_performed(&system.kernel) {
        return PENDING;
    }
    end(system.kernel.vsetmap(block))
}

/// Sets the map block; 0 for none.
#[unsafe(no_mangle)]
pub extern "C" fn takhvoi_vsetmap(alloc: Global, handle: &mut Handle, block: u16) -> u32
    ensures { Served IsPending (Changes (IsAnswer (table.vsetmap block))) result handle.old handle.new }
{
    let Some(mut system) = take(alloc, handle) else {
        return NO_KERNEL;
    };
    let status = vsetmap(&mut system, block);
    put(handle, system);
    status
}

fn commit_in(system: &mut System, how: How) -> u32
    ensures { Done MayNotCommit (IsCommitted how) result system.old system.new }
{
    if !system.kernel.vm_unlocked() {
        return FILE_LOCKED;
    }
    if !is_performed(&system.kernel) {
        return PENDING;
    }
    if !make_room(&mut system.kernel) {
        return number(Refusal::Memory);
    }
    // what a stop before the commit leaves
    system.kernel.memory_is_legal();
    let status = end(system.kernel.commit(how));
    rest(&mut system.kernel, system.hosted);
    status
}

/// Commits the pair of directories that `how` names. No block of the VM file may be locked.
fn commit(alloc: Global, handle: &mut Handle, how: How) -> u32
    ensures { Served MayNotCommit (IsCommitted how) result handle.old handle.new }
{
    let Some(mut system) = take(alloc, handle) else {
        return NO_KERNEL;
    };
    let status = commit_in(&mut system, how);
    put(handle, system);
    status
}

/// Commits the current state of the VM file, and leaves the saved state.
#[unsafe(no_mangle)]
pub extern "C" fn takhvoi_update(alloc: Global, handle: &mut Handle) -> u32
    ensures { Served MayNotCommit (IsCommitted How.Update) result handle.old handle.new }
{
    commit(alloc, handle, How::Update)
}

/// Commits the current state of the VM file, and makes it the saved state.
#[unsafe(no_mangle)]
pub extern "C" fn takhvoi_save(alloc: Global, handle: &mut Handle) -> u32
    ensures { Served MayNotCommit (IsCommitted How.Save) result handle.old handle.new }
{
    commit(alloc, handle, How::Save)
}

/// Reverts to the saved state, and commits it.
#[unsafe(no_mangle)]
pub extern "C" fn takhvoi_revert(alloc: Global, handle: &mut Handle) -> u32
    ensures { Served MayNotCommit (IsCommitted How.Revert) result handle.old handle.new }
{
    commit(alloc, handle, How::Revert)
}
