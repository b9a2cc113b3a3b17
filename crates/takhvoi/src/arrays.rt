//! Calls on arrays in the chunks of a locked block.

ghost use Rattle.std.specs.Prelude.{◌≡◌};
ghost use Rattle.geos_calls.specs.ArrayCalls as table;
ghost use Rattle.geos_terms.specs.ArrayEdits.{append_element, create_array, insert_element, resize_element};
ghost use Rattle.takhvoi.specs.Answers.{IsAnswer, IsTold, Served};
ghost use Rattle.takhvoi.specs.Names.{name_of};
ghost use Rattle.takhvoi.specs.Own.{NotLocked, ServesChange};
ghost use Rattle.takhvoi.specs.Room.{EditHasNoRoom};

use crate::chunks::{ask, change, make};
use crate::handle::Handle;
use geos_calls::{Ask, Change, Make};
use std::alloc::Global;

/// Makes an empty array in a new chunk, of elements of so many bytes, or of varying sizes for 0, and writes the chunk's handle to `told`.
#[unsafe(no_mangle)]
pub extern "C" fn takhvoi_canew(
    alloc: Global,
    handle: &mut Handle,
    block: u32,
    element_size: u16,
    told: &mut u16,
) -> u32
    ensures served { ServesChange (name_of block) (IsTold (table.canew (name_of block) element_size) told.new) result handle.old handle.new }
    ensures no_room { result ≡ 4 → EditHasNoRoom (create_array element_size) (name_of block) handle.old.value handle.new.value }
{
    make(alloc, handle, block, Make::Canew { element_size }, told)
}

/// Appends an element of zeros, of so many bytes if sizes vary.
#[unsafe(no_mangle)]
pub extern "C" fn takhvoi_caadd(
    alloc: Global,
    handle: &mut Handle,
    block: u32,
    chunk: u16,
    len: u16,
) -> u32
    ensures served { ServesChange (name_of block) (IsAnswer (table.caadd (name_of block) chunk len)) result handle.old handle.new }
    ensures no_room { result ≡ 4 → EditHasNoRoom (append_element chunk len) (name_of block) handle.old.value handle.new.value }
{
    change(alloc, handle, block, Change::Caadd { c: chunk, n: len })
}

/// Inserts an element of zeros at an index, of so many bytes if sizes vary.
#[unsafe(no_mangle)]
pub extern "C" fn takhvoi_cains(
    alloc: Global,
    handle: &mut Handle,
    block: u32,
    chunk: u16,
    index: u16,
    len: u16,
) -> u32
    ensures served { ServesChange (name_of block) (IsAnswer (table.cains (name_of block) chunk index len)) result handle.old handle.new }
    ensures no_room { result ≡ 4 → EditHasNoRoom (insert_element chunk index len) (name_of block) handle.old.value handle.new.value }
{
    change(
        alloc,
        handle,
        block,
        Change::Cains {
            c: chunk,
            i: index,
            n: len,
        },
    )
}

/// Removes an element.
#[unsafe(no_mangle)]
pub extern "C" fn takhvoi_cadel(
    alloc: Global,
    handle: &mut Handle,
    block: u32,
    chunk: u16,
    index: u16,
) -> u32
    ensures { ServesChange (name_of block) (IsAnswer (table.cadel (name_of block) chunk index)) result handle.old handle.new }
{
    change(alloc, handle, block, Change::Cadel { c: chunk, i: index })
}

/// Removes all elements.
#[unsafe(no_mangle)]
pub extern "C" fn takhvoi_cazero(alloc: Global, handle: &mut Handle, block: u32, chunk: u16) -> u32
    ensures { ServesChange (name_of block) (IsAnswer (table.cazero (name_of block) chunk)) result handle.old handle.new }
{
    change(alloc, handle, block, Change::Cazero { c: chunk })
}

/// Changes the length of an element, if sizes vary.
#[unsafe(no_mangle)]
pub extern "C" fn takhvoi_caresize(
    alloc: Global,
    handle: &mut Handle,
    block: u32,
    chunk: u16,
    index: u16,
    len: u16,
) -> u32
    ensures served { ServesChange (name_of block) (IsAnswer (table.caresize (name_of block) chunk index len)) result handle.old handle.new }
    ensures no_room { result ≡ 4 → EditHasNoRoom (resize_element chunk index len) (name_of block) handle.old.value handle.new.value }
{
    change(
        alloc,
        handle,
        block,
        Change::Caresize {
            c: chunk,
            i: index,
            n: len,
        },
    )
}

/// Writes the number of elements of an array to `told`.
#[unsafe(no_mangle)]
pub extern "C" fn takhvoi_cacount(
    alloc: Global,
    handle: &mut Handle,
    block: u32,
    chunk: u16,
    told: &mut u16,
) -> u32
    ensures { Served (NotLocked (name_of block)) (IsTold (table.cacount (name_of block) chunk) told.new) result handle.old handle.new }
{
    ask(alloc, handle, block, Ask::Cacount { c: chunk }, told)
}
