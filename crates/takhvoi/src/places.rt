//! Where blocks and chunks lie in the region.

ghost use Rattle.std.specs.Prelude.{◌≡◌, ◌≤◌, ◌<◌, ◌+◌, IfOk, length};
ghost use Rattle.geos_terms.specs.Heap.{IsHeap};
ghost use Rattle.takhvoi.specs.Answers.{Done, Looks, Served};
ghost use Rattle.takhvoi.specs.Names.{name_of};
ghost use Rattle.takhvoi.specs.Records.{Shows, records_below};
ghost use Rattle.takhvoi.specs.Shown.{AreOfRegion, ArePlaces, IsNoMemory, IsPastRegion, ShowsChunks, chunk_in, place_in};

use crate::handle::Handle;
use crate::held::{put, take};
use crate::records::{push_some, show};
use crate::status::{BAD_SIZE, DONE, NO_KERNEL, NO_MEMORY, name_of};
use crate::system::System;
use block_handles::Blocks;
use geos_kernel::Name;
use lmem_heap::locate;
use std::alloc::{AllocError, Global};

/// The numbers of blocks are below this one.
const PAST_BLOCKS: u32 = 66_561;

/// Handles of chunks are even, and below this number.
const PAST_CHUNKS: u16 = 65_535;

/// The number of the refusal of a block that does not exist.
const BAD_HANDLE: u32 = 1;

/// A block in memory: its number, where it begins in the region, its size in bytes, and how often it is locked.
#[repr(C)]
#[derive(Clone, Copy)]
pub struct Place {
    pub(crate) block: u32,
    pub(crate) at: u32,
    pub(crate) size: u32,
    pub(crate) locks: u32,
}

/// A chunk of a block in memory: its handle, where its bytes begin in the region, and how many there are.
#[repr(C)]
#[derive(Clone, Copy)]
pub struct Chunk {
    pub(crate) handle: u32,
    pub(crate) at: u32,
    pub(crate) len: u32,
}

/// The block with a number, if it is in memory.
fn place_in(blocks: &Blocks, block: u32) -> Option<Place>
    ensures { result ≡ place_in blocks.now block }
{
    let name = name_of(block);
    if !blocks.has(name) {
        return None;
    }
    Some(Place {
        block,
        at: blocks.place(name),
        size: blocks.size(name),
        locks: u32::from(blocks.locks(name)),
    })
}

/// The blocks in memory, by their numbers.
fn all_places(alloc: Global, blocks: &Blocks) -> Result<Vec<Place>, AllocError>
    ensures { IfOk result (λ places. places.items ≡ records_below (place_in blocks.now) 66561) }
{
    let mut places = Vec::new(alloc);
    for block in 0..PAST_BLOCKS {
        push_some(&mut places, place_in(blocks, block))?;
    }
    Ok(places)
}

/// The blocks in memory, in the order in which they lie in the region.
pub(crate) fn places_of(alloc: Global, blocks: &Blocks) -> Result<Vec<Place>, AllocError>
    ensures are { IfOk result (λ places. ArePlaces blocks.now places.items) }
    ensures few { IfOk result (λ places. length places.items ≤ 66561) }
{
    let mut places = all_places(alloc, blocks)?;
    places.sort_by_key(|place| place.at)?;
    Ok(places)
}

fn places_in(alloc: Global, system: &System, into: &mut [Place], count: &mut u32) -> u32
    ensures done { Done IsNoMemory (Looks (Shows (ArePlaces system.now.kernel.core.blocks) count.new into.old into.new))
        result system.now system.now }
    ensures kept { (result ≡ 0 → ⊥) → into.new ≡ into.old }
{
    match places_of(alloc, system.kernel.blocks()) {
        Ok(places) => {
            show(&places, into, count);
            DONE
        }
        Err(_) => NO_MEMORY,
    }
}

/// Writes the blocks in memory to `into`, in the order in which they lie in the region, as many as there is room for; `count` is their number.
#[unsafe(no_mangle)]
pub extern "C" fn takhvoi_places(
    alloc: Global,
    handle: &mut Handle,
    into: &mut [Place],
    count: &mut u32,
) -> u32
    ensures served { Served IsNoMemory (Looks (Shows (ArePlaces handle.old.value.kernel.core.blocks) count.new into.old into.new))
        result handle.old handle.new }
    ensures kept { (result ≡ 0 → ⊥) → into.new ≡ into.old }
{
    let Some(system) = take(alloc, handle) else {
        return NO_KERNEL;
    };
    let status = places_in(alloc, &system, into, count);
    put(handle, system);
    status
}

fn region_in(system: &System, at: u32, into: &mut [u8]) -> u32
    ensures done { Done (IsPastRegion at (length into.old)) (Looks (AreOfRegion system.now.kernel.core.blocks at into.new))
        result system.now system.now }
    ensures kept { (result ≡ 0 → ⊥) → into.new ≡ into.old }
{
    let region = system.kernel.blocks().region();
    let (n, from) = (into.len(), at as usize);
    if n > region.len() || from > region.len() - n {
        return BAD_SIZE;
    }
    into.copy_from_slice(&region[from..from + n]);
    DONE
}

/// Copies bytes of the region, from an offset on.
#[unsafe(no_mangle)]
pub extern "C" fn takhvoi_region(
    alloc: Global,
    handle: &mut Handle,
    at: u32,
    into: &mut [u8],
) -> u32
    ensures served { Served (IsPastRegion at (length into.old)) (Looks (AreOfRegion handle.old.value.kernel.core.blocks at into.new))
        result handle.old handle.new }
    ensures kept { (result ≡ 0 → ⊥) → into.new ≡ into.old }
{
    let Some(system) = take(alloc, handle) else {
        return NO_KERNEL;
    };
    let status = region_in(&system, at, into);
    put(handle, system);
    status
}

/// The chunk with a handle, of a block that begins at a place of the region.
fn chunk_in(block: &[u8], place: u32, handle: u16) -> Option<Chunk>
    requires heap { IsHeap block.now }
    requires short { place + length block.now ≤ 4294967295 }
    ensures { result ≡ chunk_in block.now place handle }
{
    match locate(block, handle) {
        Ok((at, len)) => Some(Chunk {
            handle: u32::from(handle),
            at: place + at as u32,
            len: u32::from(len),
        }),
        Err(_) => None,
    }
}

/// The chunks of a block that begins at a place of the region, by their handles.
fn chunks_of(alloc: Global, block: &[u8], place: u32) -> Result<Vec<Chunk>, AllocError>
    requires heap { IsHeap block.now }
    requires short { place + length block.now ≤ 4294967295 }
    ensures are { IfOk result (λ chunks. chunks.items ≡ records_below (chunk_in block.now place) 65535) }
    ensures few { IfOk result (λ chunks. length chunks.items ≤ 65535) }
{
    let mut chunks = Vec::new(alloc);
    for handle in 0..PAST_CHUNKS {
        push_some(&mut chunks, chunk_in(block, place, handle))?;
    }
    Ok(chunks)
}

fn chunks_in(alloc: Global, system: &System, name: Name, into: &mut [Chunk], count: &mut u32) -> u32
    ensures done { Done IsNoMemory (ShowsChunks name count.new into.old into.new) result system.now system.now }
    ensures kept { (result ≡ 0 → ⊥) → into.new ≡ into.old }
{
    let blocks = system.kernel.blocks();
    if !blocks.has(name) {
        return BAD_HANDLE;
    }
    // each block is a heap
    system.kernel.memory_is_legal();
    let (bytes, place) = (blocks.bytes(name), blocks.place(name));
    // No block ends past 16 MiB.
    if bytes.len() > (u32::MAX - place) as usize {
        return NO_MEMORY;
    }
    match chunks_of(alloc, bytes, place) {
        Ok(chunks) => {
            show(&chunks, into, count);
            DONE
        }
        Err(_) => NO_MEMORY,
    }
}

/// Writes the chunks of a block in memory to `into`, by their handles, as many as there is room for; `count` is their number. The block need
/// not be locked.
#[unsafe(no_mangle)]
pub extern "C" fn takhvoi_chunks(
    alloc: Global,
    handle: &mut Handle,
    block: u32,
    into: &mut [Chunk],
    count: &mut u32,
) -> u32
    ensures served { Served IsNoMemory (ShowsChunks (name_of block) count.new into.old into.new) result handle.old handle.new }
    ensures kept { (result ≡ 0 → ⊥) → into.new ≡ into.old }
{
    let Some(system) = take(alloc, handle) else {
        return NO_KERNEL;
    };
    let status = chunks_in(alloc, &system, name_of(block), into, count);
    put(handle, system);
    status
}
