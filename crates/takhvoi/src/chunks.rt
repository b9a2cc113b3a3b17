//! Calls on the chunks of a locked block.

ghost use Rattle.std.specs.Prelude.{◌≡◌, [], false, IsFalse, IsTrue};
ghost use Rattle.block_handles.specs.Names.{slot_of};
ghost use Rattle.block_handles.specs.Store.{bytes_of};
ghost use Rattle.geos_terms.specs.Edits.{alloc as allocate, insert_bytes, realloc};
ghost use Rattle.geos_terms.specs.Heap.{IsCompact};
ghost use Rattle.geos_terms.specs.declared.name.Owner.TheVariants as owner;
ghost use Rattle.vm_blocks.specs.Blocks.{is_marked_in};
ghost use Rattle.vm_blocks.specs.View.{held_at};
ghost use Rattle.geos_calls.specs.Calls as table;
ghost use Rattle.geos_calls.specs.ChunkCalls.{ask_row, change_edit, change_row, make_edit, make_row};
ghost use Rattle.geos_kernel.specs.View.{MayChange};
ghost use Rattle.host_device.specs.Journal.{journal_of};
ghost use Rattle.takhvoi.specs.Answers.{ChangesIn, Done, IsAnswer, IsTold, Served};
ghost use Rattle.takhvoi.specs.Names.{name_of};
ghost use Rattle.takhvoi.specs.Own.{MayNotChange, NotLocked, ServesChange};
ghost use Rattle.takhvoi.specs.Room.{EditHasNoRoom};

use crate::handle::Handle;
use crate::held::{put, take};
use crate::journal::is_performed;
use crate::status::{NO_KERNEL, NOT_LOCKED, NOT_MARKED, PENDING, end, name_of, tell};
use crate::system::System;
use geos_calls::{Ask, Change, Make};
use geos_kernel::{Name, Owner};
use std::alloc::Global;

/// Whether the bytes of a block may be changed: a block of memory, or a marked block of the VM file.
pub(crate) fn may_change(system: &System, name: Name) -> bool
    ensures yes { IsTrue result → MayChange system.now.kernel.core name }
    ensures no { IsFalse result → (name.owner ≡ owner.Vm) × (is_marked_in (held_at system.now.kernel.core.vm name.h) ≡ false) }
{
    match name.owner {
        Owner::Mem => true,
        Owner::Vm => system.kernel.marked(name.h),
    }
}

/// Whether the host has performed every noted step, or the block is one of memory.
pub(crate) fn is_settled(system: &System, name: Name) -> bool
    ensures yes { IsTrue result → name.owner ≡ owner.Vm → journal_of system.now.kernel.device ≡ [] }
    ensures no { IsFalse result → (name.owner ≡ owner.Vm) × (journal_of system.now.kernel.device ≡ [] → ⊥) }
{
    match name.owner {
        Owner::Mem => true,
        Owner::Vm => is_performed(&system.kernel),
    }
}

fn change_in(system: &mut System, name: Name, change: Change) -> u32
    ensures done { Done (MayNotChange name) (ChangesIn name (IsAnswer (change_row name change))) result system.old system.new }
    ensures compact { change ≡ Change.Lcontract → result ≡ 0 → IsCompact (bytes_of system.new.kernel.core.blocks (slot_of name)) }
    ensures no_room { result ≡ 4 → EditHasNoRoom (change_edit change) name system.old system.new }
{
    if system.kernel.locks(name) == 0 {
        return NOT_LOCKED;
    }
    if !may_change(system, name) {
        return NOT_MARKED;
    }
    if !is_settled(system, name) {
        return PENDING;
    }
    end(system.kernel.change(name, change))
}

/// Changes the chunks of a block, as the value says.
pub(crate) fn change(alloc: Global, handle: &mut Handle, block: u32, change: Change) -> u32
    ensures served { ServesChange (name_of block) (IsAnswer (change_row (name_of block) change)) result handle.old handle.new }
    ensures compact { change ≡ Change.Lcontract → result ≡ 0 → IsCompact (bytes_of handle.new.value.kernel.core.blocks (slot_of (name_of block))) }
    ensures no_room { result ≡ 4 → EditHasNoRoom (change_edit change) (name_of block) handle.old.value handle.new.value }
{
    let Some(mut system) = take(alloc, handle) else {
        return NO_KERNEL;
    };
    let status = change_in(&mut system, name_of(block), change);
    put(handle, system);
    status
}

fn make_in(system: &mut System, name: Name, make: Make, told: &mut u16) -> u32
    ensures done { Done (MayNotChange name) (ChangesIn name (IsTold (make_row name make) told.new)) result system.old system.new }
    ensures no_room { result ≡ 4 → EditHasNoRoom (make_edit make) name system.old system.new }
{
    if system.kernel.locks(name) == 0 {
        return NOT_LOCKED;
    }
    if !may_change(system, name) {
        return NOT_MARKED;
    }
    if !is_settled(system, name) {
        return PENDING;
    }
    tell(system.kernel.make_chunk(name, make), told)
}

/// Makes a chunk in a block, as the value says, and writes its handle to `told`.
pub(crate) fn make(
    alloc: Global,
    handle: &mut Handle,
    block: u32,
    make: Make,
    told: &mut u16,
) -> u32
    ensures served { ServesChange (name_of block) (IsTold (make_row (name_of block) make) told.new) result handle.old handle.new }
    ensures no_room { result ≡ 4 → EditHasNoRoom (make_edit make) (name_of block) handle.old.value handle.new.value }
{
    let Some(mut system) = take(alloc, handle) else {
        return NO_KERNEL;
    };
    let status = make_in(&mut system, name_of(block), make, told);
    put(handle, system);
    status
}

fn ask_in(system: &mut System, name: Name, ask: Ask, told: &mut u16) -> u32
    ensures { Done (NotLocked name) (IsTold (ask_row name ask) told.new) result system.old system.new }
{
    if system.kernel.locks(name) == 0 {
        return NOT_LOCKED;
    }
    tell(system.kernel.ask(name, ask), told)
}

/// Writes a number of the chunks of a block to `told`, as the value says.
pub(crate) fn ask(alloc: Global, handle: &mut Handle, block: u32, ask: Ask, told: &mut u16) -> u32
    ensures { Served (NotLocked (name_of block)) (IsTold (ask_row (name_of block) ask) told.new) result handle.old handle.new }
{
    let Some(mut system) = take(alloc, handle) else {
        return NO_KERNEL;
    };
    let status = ask_in(&mut system, name_of(block), ask, told);
    put(handle, system);
    status
}

/// Makes a chunk of zero bytes, and writes its handle to `told`.
#[unsafe(no_mangle)]
pub extern "C" fn takhvoi_lalloc(
    alloc: Global,
    handle: &mut Handle,
    block: u32,
    len: u16,
    told: &mut u16,
) -> u32
    ensures served { ServesChange (name_of block) (IsTold (table.lalloc (name_of block) len) told.new) result handle.old handle.new }
    ensures no_room { result ≡ 4 → EditHasNoRoom (allocate len) (name_of block) handle.old.value handle.new.value }
{
    make(alloc, handle, block, Make::Lalloc { n: len }, told)
}

/// Frees a chunk.
#[unsafe(no_mangle)]
pub extern "C" fn takhvoi_lfree(alloc: Global, handle: &mut Handle, block: u32, chunk: u16) -> u32
    ensures { ServesChange (name_of block) (IsAnswer (table.lfree (name_of block) chunk)) result handle.old handle.new }
{
    change(alloc, handle, block, Change::Lfree { c: chunk })
}

/// Changes a chunk's length: its first bytes stay, and zeros come after them.
#[unsafe(no_mangle)]
pub extern "C" fn takhvoi_lrealloc(
    alloc: Global,
    handle: &mut Handle,
    block: u32,
    chunk: u16,
    len: u16,
) -> u32
    ensures served { ServesChange (name_of block) (IsAnswer (table.lrealloc (name_of block) chunk len)) result handle.old handle.new }
    ensures no_room { result ≡ 4 → EditHasNoRoom (realloc chunk len) (name_of block) handle.old.value handle.new.value }
{
    change(alloc, handle, block, Change::Lrealloc { c: chunk, n: len })
}

/// Inserts zero bytes into a chunk.
#[unsafe(no_mangle)]
pub extern "C" fn takhvoi_lins(
    alloc: Global,
    handle: &mut Handle,
    block: u32,
    chunk: u16,
    at: u16,
    len: u16,
) -> u32
    ensures served { ServesChange (name_of block) (IsAnswer (table.lins (name_of block) chunk at len)) result handle.old handle.new }
    ensures no_room { result ≡ 4 → EditHasNoRoom (insert_bytes chunk at len) (name_of block) handle.old.value handle.new.value }
{
    change(
        alloc,
        handle,
        block,
        Change::Lins {
            c: chunk,
            at,
            n: len,
        },
    )
}

/// Deletes bytes of a chunk.
#[unsafe(no_mangle)]
pub extern "C" fn takhvoi_ldel(
    alloc: Global,
    handle: &mut Handle,
    block: u32,
    chunk: u16,
    at: u16,
    len: u16,
) -> u32
    ensures { ServesChange (name_of block) (IsAnswer (table.ldel (name_of block) chunk at len)) result handle.old handle.new }
{
    change(
        alloc,
        handle,
        block,
        Change::Ldel {
            c: chunk,
            at,
            n: len,
        },
    )
}

/// Moves the chunks of a block together: its free bytes are then in one piece.
#[unsafe(no_mangle)]
pub extern "C" fn takhvoi_lcontract(alloc: Global, handle: &mut Handle, block: u32) -> u32
    ensures served { ServesChange (name_of block) (IsAnswer (table.lcontract (name_of block))) result handle.old handle.new }
    ensures compact { result ≡ 0 → IsCompact (bytes_of handle.new.value.kernel.core.blocks (slot_of (name_of block))) }
{
    change(alloc, handle, block, Change::Lcontract)
}

/// Writes the length of a chunk to `told`.
#[unsafe(no_mangle)]
pub extern "C" fn takhvoi_lsize(
    alloc: Global,
    handle: &mut Handle,
    block: u32,
    chunk: u16,
    told: &mut u16,
) -> u32
    ensures { Served (NotLocked (name_of block)) (IsTold (table.lsize (name_of block) chunk) told.new) result handle.old handle.new }
{
    ask(alloc, handle, block, Ask::Lsize { c: chunk }, told)
}
