//! The blocks and groups of the VM file.

ghost use Rattle.std.specs.Prelude.{◌≡◌, ◌≤◌, IfOk, length};
ghost use Rattle.block_handles.specs.Names.{slot_of};
ghost use Rattle.block_handles.specs.Store.{block_at};
ghost use Rattle.takhvoi.specs.Answers.{Done, Looks, Served};
ghost use Rattle.takhvoi.specs.Entries.{AreEntries, entry_in, size_or};
ghost use Rattle.takhvoi.specs.Records.{Shows};
ghost use Rattle.takhvoi.specs.Shown.{IsNoMemory};

use crate::handle::Handle;
use crate::held::{put, take};
use crate::records::{push_some, show};
use crate::status::{DONE, NO_KERNEL, NO_MEMORY};
use crate::system::System;
use block_handles::Blocks;
use geos_kernel::{Kernel, Name};
use host_device::HostDevice;
use std::alloc::{AllocError, Global};

/// Handles of blocks are below this number.
const PAST_HANDLES: u16 = 1_025;

/// A block or group of the VM file: its handle, its user ID, its size in bytes, 1 if it is in memory, 1 if it is marked, and how often it is
/// locked.
#[repr(C)]
#[derive(Clone, Copy)]
pub struct FileEntry {
    pub(crate) handle: u32,
    pub(crate) user_id: u32,
    pub(crate) size: u32,
    pub(crate) in_memory: u32,
    pub(crate) marked: u32,
    pub(crate) locks: u32,
}

/// The size of a block in memory; of another one `len`.
fn size_in(blocks: &Blocks, name: Name, len: u16) -> u32
    ensures { result ≡ size_or len (block_at blocks.now (slot_of name)) }
{
    if blocks.has(name) {
        blocks.size(name)
    } else {
        u32::from(len)
    }
}

/// What is listed under a handle.
fn entry_in(kernel: &Kernel<HostDevice>, handle: u16) -> Option<FileEntry>
    ensures { result ≡ entry_in kernel.now.core handle }
{
    match kernel.held(handle) {
        Some(held) => {
            let (blocks, name) = (kernel.blocks(), Name::vm(handle));
            Some(FileEntry {
                handle: u32::from(handle),
                user_id: u32::from(held.uid),
                size: size_in(blocks, name, held.len),
                in_memory: u32::from(blocks.has(name)),
                marked: u32::from(held.marked),
                locks: u32::from(blocks.locks(name)),
            })
        }
        None => None,
    }
}

/// All that is listed.
fn entries_of(alloc: Global, kernel: &Kernel<HostDevice>) -> Result<Vec<FileEntry>, AllocError>
    ensures are { IfOk result (λ entries. AreEntries kernel.now.core entries.items) }
    ensures few { IfOk result (λ entries. length entries.items ≤ 1025) }
{
    let mut entries = Vec::new(alloc);
    for handle in 0..PAST_HANDLES {
        push_some(&mut entries, entry_in(kernel, handle))?;
    }
    Ok(entries)
}

fn entries_in(alloc: Global, system: &System, into: &mut [FileEntry], count: &mut u32) -> u32
    ensures done { Done IsNoMemory (Looks (Shows (AreEntries system.now.kernel.core) count.new into.old into.new)) result system.now system.now }
    ensures kept { (result ≡ 0 → ⊥) → into.new ≡ into.old }
{
    match entries_of(alloc, &system.kernel) {
        Ok(entries) => {
            show(&entries, into, count);
            DONE
        }
        Err(_) => NO_MEMORY,
    }
}

/// Writes the blocks and groups of the VM file to `into`, by their handles, as many as there is room for; `count` is their number.
#[unsafe(no_mangle)]
pub extern "C" fn takhvoi_entries(
    alloc: Global,
    handle: &mut Handle,
    into: &mut [FileEntry],
    count: &mut u32,
) -> u32
    ensures served { Served IsNoMemory (Looks (Shows (AreEntries handle.old.value.kernel.core) count.new into.old into.new))
        result handle.old handle.new }
    ensures kept { (result ≡ 0 → ⊥) → into.new ≡ into.old }
{
    let Some(system) = take(alloc, handle) else {
        return NO_KERNEL;
    };
    let status = entries_in(alloc, &system, into, count);
    put(handle, system);
    status
}
