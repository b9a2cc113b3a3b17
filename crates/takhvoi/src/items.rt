//! Calls on groups of the VM file, and on items.

ghost use Rattle.std.specs.Prelude.{◌≡◌};
ghost use Rattle.geos_terms.specs.Edits.{alloc as allocate, delete_bytes, free, insert_bytes, realloc};
ghost use Rattle.geos_terms.specs.Names.{vm};
ghost use Rattle.geos_calls.specs.ChunkCalls.{change_edit, change_row, make_edit, make_row};
ghost use Rattle.geos_calls.specs.ItemCalls as table;
ghost use Rattle.geos_kernel.specs.Kernel.{ItemHasNoRoom, ListedHasNoRoom, NewListedHasNoRoom};
ghost use Rattle.takhvoi.specs.Answers.{Changes, Done, IsAnswer, IsAnswerRead, IsTold, IsToldRead, IsToldTwo, Served};
ghost use Rattle.takhvoi.specs.Bytes.{IsReferred};
ghost use Rattle.takhvoi.specs.Own.{IsPending, NoOwn};

use crate::handle::Handle;
use crate::held::{put, take};
use crate::journal::is_performed;
use crate::status::{DONE, NO_KERNEL, PENDING, end, number, tell};
use crate::system::System;
use geos_calls::{Change, Make};
use std::alloc::Global;

fn gnew(system: &mut System, told: &mut u16) -> u32
    ensures done { Done IsPending (Changes (IsTold table.gnew told.new)) result system.old system.new }
    ensures no_room { result ≡ 4 → NewListedHasNoRoom system.old.kernel.core system.new.kernel.core }
{
    if !is_performed(&system.kernel) {
        return PENDING;
    }
    tell(system.kernel.gnew(), told)
}

/// Makes a group, marks it, and writes its handle to `told`.
#[unsafe(no_mangle)]
pub extern "C" fn takhvoi_gnew(alloc: Global, handle: &mut Handle, told: &mut u16) -> u32
    ensures served { Served IsPending (Changes (IsTold table.gnew told.new)) result handle.old handle.new }
    ensures no_room { result ≡ 4 → NewListedHasNoRoom handle.old.value.kernel.core handle.new.value.kernel.core }
{
    let Some(mut system) = take(alloc, handle) else {
        return NO_KERNEL;
    };
    let status = gnew(&mut system, told);
    put(handle, system);
    status
}

fn gfree(system: &mut System, group: u16) -> u32
    ensures { Done IsPending (Changes (IsAnswer (table.gfree group))) result system.old system.new }
{
    if !is_performed(&system.kernel) {
        return PENDING;
    }
    end(system.kernel.gfree(group))
}

/// Frees a group that is not locked, with its items.
#[unsafe(no_mangle)]
pub extern "C" fn takhvoi_gfree(alloc: Global, handle: &mut Handle, group: u16) -> u32
    ensures { Served IsPending (Changes (IsAnswer (table.gfree group))) result handle.old handle.new }
{
    let Some(mut system) = take(alloc, handle) else {
        return NO_KERNEL;
    };
    let status = gfree(&mut system, group);
    put(handle, system);
    status
}

fn make_in(system: &mut System, group: u16, make: Make, told: &mut u16) -> u32
    ensures done { Done IsPending (Changes (IsToldRead (table.on_group group (make_row (vm group) make)) told.new)) result system.old system.new }
    ensures no_room { result ≡ 4 → ItemHasNoRoom system.new.kernel.core group (make_edit make) }
{
    if !is_performed(&system.kernel) {
        return PENDING;
    }
    tell(system.kernel.item_make(group, make), told)
}

/// Makes an item of a group, as the value says, and writes its handle to `told`.
fn make(alloc: Global, handle: &mut Handle, group: u16, make: Make, told: &mut u16) -> u32
    ensures served { Served IsPending (Changes (IsToldRead (table.on_group group (make_row (vm group) make)) told.new)) result handle.old handle.new }
    ensures no_room { result ≡ 4 → ItemHasNoRoom handle.new.value.kernel.core group (make_edit make) }
{
    let Some(mut system) = take(alloc, handle) else {
        return NO_KERNEL;
    };
    let status = make_in(&mut system, group, make, told);
    put(handle, system);
    status
}

/// Makes an item of zero bytes, and writes its handle to `told`.
#[unsafe(no_mangle)]
pub extern "C" fn takhvoi_inew(
    alloc: Global,
    handle: &mut Handle,
    group: u16,
    len: u16,
    told: &mut u16,
) -> u32
    ensures served { Served IsPending (Changes (IsToldRead (table.inew group len) told.new)) result handle.old handle.new }
    ensures no_room { result ≡ 4 → ItemHasNoRoom handle.new.value.kernel.core group (allocate len) }
{
    make(alloc, handle, group, Make::Lalloc { n: len }, told)
}

fn change_in(system: &mut System, group: u16, change: Change) -> u32
    ensures done { Done IsPending (Changes (IsAnswerRead (table.on_group group (change_row (vm group) change)))) result system.old system.new }
    ensures no_room { result ≡ 4 → ItemHasNoRoom system.new.kernel.core group (change_edit change) }
{
    if !is_performed(&system.kernel) {
        return PENDING;
    }
    end(system.kernel.item_change(group, change))
}

/// Changes the items of a group, as the value says.
fn change(alloc: Global, handle: &mut Handle, group: u16, change: Change) -> u32
    ensures served { Served IsPending (Changes (IsAnswerRead (table.on_group group (change_row (vm group) change)))) result handle.old handle.new }
    ensures no_room { result ≡ 4 → ItemHasNoRoom handle.new.value.kernel.core group (change_edit change) }
{
    let Some(mut system) = take(alloc, handle) else {
        return NO_KERNEL;
    };
    let status = change_in(&mut system, group, change);
    put(handle, system);
    status
}

/// Frees an item.
#[unsafe(no_mangle)]
pub extern "C" fn takhvoi_ifree(alloc: Global, handle: &mut Handle, group: u16, item: u16) -> u32
    ensures served { Served IsPending (Changes (IsAnswerRead (table.ifree group item))) result handle.old handle.new }
    ensures no_room { result ≡ 4 → ItemHasNoRoom handle.new.value.kernel.core group (free item) }
{
    change(alloc, handle, group, Change::Lfree { c: item })
}

/// Changes an item's length: its first bytes stay, and zeros come after them.
#[unsafe(no_mangle)]
pub extern "C" fn takhvoi_irealloc(
    alloc: Global,
    handle: &mut Handle,
    group: u16,
    item: u16,
    len: u16,
) -> u32
    ensures served { Served IsPending (Changes (IsAnswerRead (table.irealloc group item len))) result handle.old handle.new }
    ensures no_room { result ≡ 4 → ItemHasNoRoom handle.new.value.kernel.core group (realloc item len) }
{
    change(alloc, handle, group, Change::Lrealloc { c: item, n: len })
}

/// Inserts zero bytes into an item.
#[unsafe(no_mangle)]
pub extern "C" fn takhvoi_iins(
    alloc: Global,
    handle: &mut Handle,
    group: u16,
    item: u16,
    at: u16,
    len: u16,
) -> u32
    ensures served { Served IsPending (Changes (IsAnswerRead (table.iins group item at len))) result handle.old handle.new }
    ensures no_room { result ≡ 4 → ItemHasNoRoom handle.new.value.kernel.core group (insert_bytes item at len) }
{
    change(
        alloc,
        handle,
        group,
        Change::Lins {
            c: item,
            at,
            n: len,
        },
    )
}

/// Deletes bytes of an item.
#[unsafe(no_mangle)]
pub extern "C" fn takhvoi_idel(
    alloc: Global,
    handle: &mut Handle,
    group: u16,
    item: u16,
    at: u16,
    len: u16,
) -> u32
    ensures served { Served IsPending (Changes (IsAnswerRead (table.idel group item at len))) result handle.old handle.new }
    ensures no_room { result ≡ 4 → ItemHasNoRoom handle.new.value.kernel.core group (delete_bytes item at len) }
{
    change(
        alloc,
        handle,
        group,
        Change::Ldel {
            c: item,
            at,
            n: len,
        },
    )
}

fn ilock(system: &mut System, group: u16, item: u16, told: &mut u16) -> u32
    ensures done { Done NoOwn (IsReferred (table.ilock group item 0) told.new) result system.old system.new }
    ensures no_room { result ≡ 4 → ListedHasNoRoom system.new.kernel.core group }
{
    match system.kernel.ilock(group, item, 0) {
        Ok(span) => {
            *told = span.len;
            DONE
        }
        Err(refusal) => number(refusal),
    }
}

/// Locks a group once more, if it has this item, and writes the item's length to `told`. The group's items are then chunks of a locked block.
#[unsafe(no_mangle)]
pub extern "C" fn takhvoi_ilock(
    alloc: Global,
    handle: &mut Handle,
    group: u16,
    item: u16,
    told: &mut u16,
) -> u32
    ensures served { Served NoOwn (IsReferred (table.ilock group item 0) told.new) result handle.old handle.new }
    ensures no_room { result ≡ 4 → ListedHasNoRoom handle.new.value.kernel.core group }
{
    let Some(mut system) = take(alloc, handle) else {
        return NO_KERNEL;
    };
    let status = ilock(&mut system, group, item, told);
    put(handle, system);
    status
}

fn igetmap(system: &mut System, group: &mut u16, item: &mut u16) -> u32
    ensures { Done NoOwn (IsToldTwo table.igetmap group.new item.new) result system.old system.new }
{
    let map = system.kernel.igetmap();
    *group = map.0;
    *item = map.1;
    DONE
}

/// Writes the map item: its group, 0 for none, and the item.
#[unsafe(no_mangle)]
pub extern "C" fn takhvoi_igetmap(
    alloc: Global,
    handle: &mut Handle,
    group: &mut u16,
    item: &mut u16,
) -> u32
    ensures { Served NoOwn (IsToldTwo table.igetmap group.new item.new) result handle.old handle.new }
{
    let Some(mut system) = take(alloc, handle) else {
        return NO_KERNEL;
    };
    let status = igetmap(&mut system, group, item);
    put(handle, system);
    status
}

fn isetmap(system: &mut System, group: u16, item: u16) -> u32
    ensures { Done IsPending (Changes (IsAnswer (table.isetmap group item))) result system.old system.new }
{
    if !is_performed(&system.kernel) {
        return PENDING;
    }
    end(system.kernel.isetmap(group, item))
}

/// Sets the map item; the group 0 and the item 0 for none.
#[unsafe(no_mangle)]
pub extern "C" fn takhvoi_isetmap(alloc: Global, handle: &mut Handle, group: u16, item: u16) -> u32
    ensures { Served IsPending (Changes (IsAnswer (table.isetmap group item))) result handle.old handle.new }
{
    let Some(mut system) = take(alloc, handle) else {
        return NO_KERNEL;
    };
    let status = isetmap(&mut system, group, item);
    put(handle, system);
    status
}
