//! Blocks by slots in a region: what a slot holds, where its block lies, and the one step by
//! which a block moves or grows.
ghost use Rattle.std.specs.Prelude.{◌≡◌, ℕ, ◌+◌, ◌*◌, ◌/◌, ◌%◌, ◌<◌, ◌≤◌, ◌↔◌, [], ◌∷◌, length, All, slice_index_or, None, IfOk, IfSome, IfNone, IsFalse, IsTrue};
ghost use Rattle.std.specs.Borrow.{sem};
ghost use Rattle.lmem_raw.specs.Bytes.{part, with_part};

use crate::table::{SLOTS, Table};
use lmem_raw::Region;
use std::alloc::{AllocError, Global};
use std::marker::Model;

/// The highest handle.
const HANDLES: u16 = 1_024;

/// Each block has at least this many bytes, so no two begin in one granule.
const GRANULE: u32 = 64;

/// What blocks may take.
#[derive(Clone, Copy)]
pub(crate) struct Limits {
    /// How many bytes all blocks may have together.
    pub most: u32,
    /// The highest handle that a new block of global memory may get.
    pub handles: u16,
}

/// A region and the blocks in it.
#[derive(Drop)]
pub(crate) struct Arena {
    region: Region,
    table: Table,
    index: Vec<Option<u16>>,
    limits: Limits,
}

impl Model for Arena {
    ghost use Rattle.block_handles.specs.Store.{Store};

    ghost Value = { Store };

    ghost use Rattle.block_handles.specs.Change.{with_limits};
    ghost use Rattle.block_handles.specs.View.{store_in, IsSound};

    ghost view = { λ a. with_limits (store_in a.region a.table) a.limits };

    ghost invariant = { λ a. IsSound a.region a.table a.index.items };
}

/// An index in which no block begins.
fn empty_index(alloc: Global, n: usize) -> Result<Vec<Option<u16>>, AllocError>
    ensures { IfOk result (λ index. (length index.items ≡ n) × ((granule : ℕ) → slice_index_or index.items granule None ≡ None)) }
{
    let mut index = Vec::new(alloc);
    for _ in 0..n {
        index.push(None)?;
    }
    Ok(index)
}

/// Moves bytes to another offset, unless they are there.
fn move_to(region: &mut Region, from: u32, to: u32, n: u32)
    requires { (from + n ≤ length region.old) × (to + n ≤ length region.old) }
    ensures { region.new ≡ with_part region.old to (part region.old from n) }
{
    if from == to {
        return;
    }
    region.move_bytes(from, to, n);
}

impl Arena {
    ghost use Rattle.block_handles.specs.Layout.{IsEmpty, IsRegion};
    ghost use Rattle.block_handles.specs.Search.{IsFirst, IsLast, BeginsNone};
    ghost use Rattle.block_handles.specs.Store.{IsThere, bytes_of, size_of, place_of, end_of, locks_of, handles_of, most_of, region_len};
    ghost use Rattle.block_handles.specs.Layout.{IsLaidOut, IsFreeBut};
    ghost use Rattle.geos_terms.specs.Heap.{IsBlockSize, most_block_bytes};
    ghost use Rattle.block_handles.specs.Change.{with_block, new_block, grown_block, with_handles, with_most, with_place, with_lock_more, with_lock_less, after_write};
    ghost use Rattle.block_handles.specs.Lending.{LendsBytes};
    ghost use Rattle.block_handles.specs.Offsets.{Copies, ReadsAs, ReadsByte, ReadsWord};

    /// An arena of `len` bytes with no block.
    pub(crate) fn new(alloc: Global, len: u32) -> Result<Arena, AllocError>
        ensures { IfOk result (λ arena. IsEmpty arena len) }
    {
        Ok(Arena {
            region: Region::new(alloc, len)?,
            table: Table::new(alloc)?,
            index: empty_index(alloc, (len / GRANULE) as usize + 1)?,
            limits: Limits {
                most: len,
                handles: HANDLES,
            },
        })
    }

    pub(crate) fn len(&self) -> u32
        ensures { result ≡ region_len self.now }
    {
        self.region.len()
    }

    /// How many bytes all blocks may have together.
    pub(crate) fn most(&self) -> u32
        ensures { result ≡ most_of self.now }
    {
        self.limits.most
    }

    /// Sets how many bytes all blocks may have together.
    pub(crate) fn limit(&mut self, most: u32)
        ensures { self.new ≡ with_most self.old most }
    {
        self.limits.most = most;
    }

    /// The highest handle that a new block of global memory may get.
    pub(crate) fn handles(&self) -> u16
        ensures { result ≡ handles_of self.now }
    {
        self.limits.handles
    }

    /// Sets the highest handle that a new block of global memory may get.
    pub(crate) fn limit_handles(&mut self, handles: u16)
        ensures { self.new ≡ with_handles self.old handles }
    {
        self.limits.handles = handles;
    }

    /// The bytes of the region, in which the blocks lie.
    pub(crate) fn region(&self) -> &[u8]
        ensures region { IsRegion self.now result.now }
        ensures bytes { All (λ b. b < 256) result.now }
    {
        let all = self.region.slice(0, self.region.len());
        all
    }

    /// Whether a slot is in use.
    pub(crate) fn has(&self, slot: usize) -> bool
        ensures { IsTrue result ↔ IsThere self.now slot }
    {
        slot < SLOTS && self.table.has(slot)
    }

    pub(crate) fn locks(&self, slot: usize) -> u16
        requires { IsThere self.now slot }
        ensures { result ≡ locks_of self.now slot }
    {
        self.table.entry_of(slot).locks
    }

    pub(crate) fn place(&self, slot: usize) -> u32
        requires { IsThere self.now slot }
        ensures { result ≡ place_of self.now slot }
    {
        self.table.entry_of(slot).place
    }

    pub(crate) fn size(&self, slot: usize) -> u32
        requires { IsThere self.now slot }
        ensures { result ≡ size_of self.now slot }
    {
        self.table.entry_of(slot).size
    }

    /// The offset at which a block ends.
    pub(crate) fn end(&self, slot: usize) -> u32
        requires { IsThere self.now slot }
        ensures { result ≡ end_of self.now slot }
    {
        let entry = self.table.entry_of(slot);
        entry.place + entry.size
    }

    pub(crate) fn bytes(&self, slot: usize) -> &[u8]
        requires { IsThere self.now slot }
        ensures { result.now ≡ bytes_of self.now slot }
    {
        let entry = self.table.entry_of(slot);
        self.region.slice(entry.place, entry.size)
    }

    pub(crate) fn bytes_mut(&mut self, slot: usize) -> &mut [u8]
        requires { IsThere self.old slot }
        ensures* writes_back { sem 𝓛 (LendsBytes self.entry slot result) }
        ensures value { result.now ≡ bytes_of self.old slot }
    {
        let entry = self.table.entry_of(slot);
        self.region.slice_mut(entry.place, entry.size)
    }

    /// The byte at an offset of the region.
    pub(crate) fn read8(&self, at: u32) -> u8
        requires { at < region_len self.now }
        ensures { ReadsByte self.now at result }
    {
        self.region.get8(at)
    }

    /// The word at an offset of the region.
    pub(crate) fn read16(&self, at: u32) -> u16
        requires { at + 2 ≤ region_len self.now }
        ensures { ReadsWord self.now at result }
    {
        self.region.get16(at)
    }

    /// The `n` bytes from an offset of the region on.
    pub(crate) fn read(&self, at: u32, n: u32) -> &[u8]
        requires { at + n ≤ region_len self.now }
        ensures read { ReadsAs self.now at result.now }
        ensures long { length result.now ≡ n }
    {
        self.region.slice(at, n)
    }

    pub(crate) fn write8(&mut self, at: u32, byte: u8)
        requires { at < region_len self.old }
        ensures { self.new ≡ after_write self.old at (byte ∷ []) }
    {
        self.region.put8(at, byte);
    }

    pub(crate) fn write16(&mut self, at: u32, word: u16)
        requires { at + 2 ≤ region_len self.old }
        ensures { self.new ≡ after_write self.old at (word % 256 ∷ word / 256 ∷ []) }
    {
        self.region.put16(at, word);
    }

    pub(crate) fn write(&mut self, at: u32, bytes: &[u8])
        requires { at + length bytes.now ≤ region_len self.old }
        ensures { self.new ≡ after_write self.old at bytes.now }
    {
        self.region.put(at, bytes);
    }

    pub(crate) fn copy(&mut self, from: u32, to: u32, count: u32)
        requires { (from + count ≤ region_len self.old) × (to + count ≤ region_len self.old) }
        ensures { Copies self.old self.new from to count }
    {
        self.region.move_bytes(from, to, count);
    }

    /// Puts a new block into a free slot, at a place where no other block lies.
    pub(crate) fn create(&mut self, slot: usize, at: u32, size: u32)
        requires slot { (slot < 2048) × (IsThere self.old slot → ⊥) }
        requires legal { IsBlockSize size }
        requires room { at + size ≤ region_len self.old }
        requires free { IsFreeBut self.old slot at (at + size) }
        ensures store { self.new ≡ with_block self.old slot (new_block size) at }
        ensures laid { IsLaidOut self.new }
    {
        self.region.fill(at, size, 0);
        self.table.put(slot, at, size);
        self.index[(at / GRANULE) as usize] = Some(slot as u16);
    }

    /// Moves a block to a place where no other block lies, and grows
    /// it there by zeros. The place may overlap the block's old one.
    pub(crate) fn relocate(&mut self, slot: usize, to: u32, size: u32)
        requires there { IsThere self.old slot }
        requires legal { (size_of self.old slot ≤ size) × (size ≤ most_block_bytes) × (size % 16 ≡ 0) }
        requires room { to + size ≤ region_len self.old }
        requires free { IsFreeBut self.old slot to (to + size) }
        ensures store { self.new ≡ with_block self.old slot (grown_block self.old slot size) to }
        ensures laid { IsLaidOut self.new }
    {
        let entry = self.table.entry_of(slot);
        move_to(&mut self.region, entry.place, to, entry.size);
        self.region.fill(to + entry.size, size - entry.size, 0);
        self.table.put_place(slot, to, size);
        self.index[(entry.place / GRANULE) as usize] = None;
        self.index[(to / GRANULE) as usize] = Some(slot as u16);
    }

    /// Takes a block away.
    pub(crate) fn remove(&mut self, slot: usize)
        requires { IsThere self.old slot }
        ensures store { self.new ≡ with_block self.old slot None 0 }
        ensures laid { IsLaidOut self.new }
    {
        let entry = self.table.entry_of(slot);
        self.table.free(slot);
        self.index[(entry.place / GRANULE) as usize] = None;
    }

    /// Locks a block once more. `false` if the slot has none, or its count is 65,535; nothing changes then.
    #[inline(always)]
    pub(crate) fn lock(&mut self, slot: usize) -> bool
        ensures taken { IsTrue result → IsThere self.old slot × (locks_of self.old slot < 65535)
            × (self.new ≡ with_lock_more self.old slot) }
        ensures refused { IsFalse result → IsThere self.old slot → locks_of self.old slot ≡ 65535 }
        ensures same { IsFalse result → self.new ≡ self.old }
    {
        let table = &mut self.table;
        if slot >= SLOTS {
            return false;
        }
        table.lock(slot)
    }

    /// Takes back one lock of a block.
    #[inline(always)]
    pub(crate) fn unlock(&mut self, slot: usize)
        requires { 0 < locks_of self.old slot }
        ensures { self.new ≡ with_lock_less self.old slot }
    {
        self.table.unlock(slot);
    }

    /// Moves a block to a place where no other block lies. The place may overlap the block's old one.
    pub(crate) fn slide(&mut self, slot: usize, to: u32)
        requires there { IsThere self.old slot }
        requires laid { IsLaidOut self.old }
        requires room { to + size_of self.old slot ≤ region_len self.old }
        requires free { IsFreeBut self.old slot to (to + size_of self.old slot) }
        ensures store { self.new ≡ with_place self.old slot to }
        ensures laid { IsLaidOut self.new }
    {
        let size = self.size(slot);
        if self.place(slot) == to {
            return;
        }
        self.relocate(slot, to, size);
    }

    /// Of the blocks that begin in a range, the one that lies first.
    pub(crate) fn first_in(&self, from: u32, until: u32) -> Option<usize>
        requires { until ≤ region_len self.now }
        ensures found { IfSome result (IsFirst self.now from until) }
        ensures none { IfNone result (BeginsNone self.now from until) }
    {
        let end = (until / GRANULE) as usize + 1;
        let mut granule = (from / GRANULE) as usize;
        while granule < end {
            if let Some(slot) = self.index[granule] {
                let place = self.table.entry_of(slot as usize).place;
                if from <= place && place < until {
                    return Some(slot as usize);
                }
            }
            granule += 1;
        }
        None
    }

    /// Of the blocks that begin in a range, the one that lies last.
    pub(crate) fn last_in(&self, from: u32, until: u32) -> Option<usize>
        requires { until ≤ region_len self.now }
        ensures found { IfSome result (IsLast self.now from until) }
        ensures none { IfNone result (BeginsNone self.now from until) }
    {
        let end = (from / GRANULE) as usize;
        let mut granule = (until / GRANULE) as usize + 1;
        while granule > end {
            granule -= 1;
            if let Some(slot) = self.index[granule] {
                let place = self.table.entry_of(slot as usize).place;
                if from <= place && place < until {
                    return Some(slot as usize);
                }
            }
        }
        None
    }
}
