//! Moving blocks by their names, in one region.
//!
//! A block is named by an owner and a handle. The store may move a block while it is not
//! locked: it packs the blocks of one stretch of the region, between two locked ones, where a
//! request needs the room. A locked block keeps its place over every call that does not grow
//! it.
//! (GEOS SDK Concepts Book, chapters Handles and Memory Management.)
#![tactic(auto)]

ghost use Rattle.std.specs.Prelude.{min, ◌-◌, ◌≡◌, ◌+◌, ◌/◌, ◌%◌, ◌<◌, ◌≤◌, ◌↔◌, [], ◌∷◌, ℕ, IsTrue, All, length, IfOk, IfSome, IfNone, OnOk, OnErr, Err};
ghost use Rattle.std.specs.Borrow.{sem};

mod arena;
mod error;
mod name;
mod pack;
mod room;
mod slots;
mod stretch;
mod table;

use arena::Arena;
pub use error::{HandleError, RoomError};
use geos_terms::MOST_BLOCK_BYTES;
pub use geos_terms::{Name, Owner};
use name::{first_slot, name_of, of_file, slot_in_use, slot_of};
use room::{Gap, room_for};
use slots::SlotSet;
use std::alloc::{AllocError, Global};
use std::marker::Model;

/// Blocks in one region: a map from names to bytes and lock counts, and the place of each.
#[derive(Drop)]
pub struct Blocks {
    // These two come first: where the region lies must not be where the blocks lie, which calls take. The compiler would keep that
    // address in memory, and read it for each load and store of a run.
    /// How many bytes more blocks may have.
    free: u32,
    /// How often the blocks of the VM file are locked, all together.
    vm_locks: u32,
    arena: Arena,
    gap: Gap,
    used: SlotSet,
}

impl Model for Blocks {
    ghost use Rattle.block_handles.specs.Store.{Store};

    ghost Value = { Store };

    ghost use Rattle.block_handles.specs.Used.{IsKept};

    ghost view = { λ b. b.arena };

    ghost invariant = { λ b. IsKept b.arena b.gap b.used.words.items b.free b.vm_locks };
}

impl Blocks {
    ghost use Rattle.block_handles.specs.Calls.{Makes, Grows};
    ghost use Rattle.block_handles.specs.Change.{with_lock_more, with_handles, with_lock_less, with_most, without, after_write};
    ghost use Rattle.block_handles.specs.Layout.{IsEmpty, IsLaidOut, IsRegion};
    ghost use Rattle.geos_terms.specs.Heap.{IsBlockSize, most_block_bytes};
    ghost use Rattle.block_handles.specs.LendingBlocks.{LendsBlock};
    ghost use Rattle.block_handles.specs.Names.{slot_of, IsHandle};
    ghost use Rattle.block_handles.specs.Offsets.{Copies, CopiesCovered, ReadsAs, ReadsByte, ReadsWord, WritesCovered};
    ghost use Rattle.block_handles.specs.Store.{IsThere, bytes_of, size_of, place_of, end_of, handles_of, locks_of, most_of, region_len};
    ghost use Rattle.block_handles.specs.Stretch.{HasNoRoom, all_sizes, vm_locks};
    ghost use Rattle.block_handles.specs.Used.{IsLowest, AllInUse};

    /// No block, in a region of `region` zero bytes. This is the only call that takes memory:
    /// the region, and tables for every name. `AllocError` if the allocator has none.
    pub fn new(alloc: Global, region: u32) -> Result<Blocks, AllocError>
        requires { (65536 ≤ region) × (region ≤ 16777216) }
        ensures { IfOk result (λ blocks. IsEmpty blocks region) }
    {
        Ok(Blocks {
            arena: Arena::new(alloc, region)?,
            gap: Gap { at: 0, end: region },
            used: SlotSet::new(alloc)?,
            free: region,
            vm_locks: 0,
        })
    }

    /// The lowest handle of an owner that names no block; `None` if all 1,024 do.
    pub fn lowest(&self, owner: Owner) -> Option<u16>
        ensures found { IfSome result (IsLowest self.now owner) }
        ensures none { IfNone result (AllInUse self.now owner) }
    {
        let first = first_slot(owner);
        let slot = self.used.lowest_free(first / 64)?;
        Some((slot - first) as u16 + 1)
    }

    /// The bytes of the region that contains the blocks: a block's bytes begin at its place.
    pub fn region(&self) -> &[u8]
        ensures region { IsRegion self.now result.now }
        ensures bytes { All (λ b. b < 256) result.now }
    {
        self.arena.region()
    }

    /// Whether a block has this name.
    pub fn has(&self, name: Name) -> bool
        ensures { IsTrue result ↔ IsThere self.now (slot_of name) }
    {
        self.arena.has(slot_of(name))
    }

    /// How often a block is locked; 0 if there is none.
    pub fn locks(&self, name: Name) -> u16
        ensures { result ≡ locks_of self.now (slot_of name) }
    {
        let slot = slot_of(name);
        if self.arena.has(slot) {
            self.arena.locks(slot)
        } else {
            0
        }
    }

    /// How often the blocks of the VM file are locked, all together: the sum of their counts. The
    /// sum is stored, so this takes constant time.
    pub fn vm_locks(&self) -> u32
        ensures sum { result ≡ vm_locks self.now }
        ensures laid { IsLaidOut self.now }
    {
        self.vm_locks
    }

    /// Whether blocks may have fewer than `more` bytes more. Then no block of that
    /// size can be made, and none grow by as much: a search for room would be in vain.
    pub fn lacks(&self, more: u32) -> bool
        ensures lacks { IsTrue result ↔ (most_of self.now < all_sizes self.now + more) }
        ensures no_room { IsTrue result → (slot size : ℕ) → size ≡ size_of self.now slot + more → HasNoRoom self.now slot size }
    {
        self.free < more
    }

    /// How many bytes all blocks have together: never more than they may.
    pub fn taken(&self) -> u32
        ensures taken { result ≡ all_sizes self.now }
        ensures within { result ≤ most_of self.now }
    {
        self.arena.most() - self.free
    }

    /// Lets all blocks together have `more` bytes more than now, at most the whole region, until the next call.
    /// A large number removes the limit. A request beyond the limit is refused like a request without room.
    pub fn limit(&mut self, more: u32)
        ensures { self.new ≡ with_most self.old (min more (region_len self.old - all_sizes self.old) + all_sizes self.old) }
    {
        let taken = self.arena.most() - self.free;
        self.free = more.min(self.arena.len() - taken);
        self.arena.limit(self.free + taken);
    }

    /// The highest handle that a new block of global memory may get: 1,024, unless `limit_handles` has set another one.
    pub fn handles(&self) -> u16
        ensures { result ≡ handles_of self.now }
    {
        self.arena.handles()
    }

    /// Sets the highest handle that a new block of global memory may get, until the next call. This changes no block. The number is only
    /// stored: a caller of `make` compares it with the handle.
    pub fn limit_handles(&mut self, handles: u16)
        ensures { self.new ≡ with_handles self.old handles }
    {
        self.arena.limit_handles(handles);
    }

    /// The end of the gap, the free range in which the next block is placed. If the block after it
    /// is freed, the gap gets wider. A hint which block to free for room: no contract rests on it.
    pub fn gap_end(&self) -> u32 {
        self.gap.end
    }

    /// The name and the end of the first block that begins at an offset or after it, or of the
    /// first in the region if none does; `None` if there is no block. So a walk passes the blocks
    /// in the order of their offsets. No contract rests on that order: it is a hint.
    pub fn next_from(&self, at: u32) -> Option<(Name, u32)>
        ensures { IfSome result (λ next. IsThere self.now (slot_of next.0) × (next.1 ≡ end_of self.now (slot_of next.0))) }
    {
        let arena = &self.arena;
        let slot = match arena.first_in(at, arena.len()) {
            Some(slot) => slot,
            None => arena.first_in(0, arena.len())?,
        };
        Some((name_of(slot), arena.end(slot)))
    }

    /// The offset at which a block begins in the region. Blocks lie in the region, and no two overlap.
    pub fn place(&self, name: Name) -> u32
        requires { IsThere self.now (slot_of name) }
        ensures place { result ≡ place_of self.now (slot_of name) }
        ensures laid { IsLaidOut self.now }
    {
        self.arena.place(slot_in_use(name))
    }

    /// A block's size in bytes: from 64 to 65,520, a multiple of 16.
    pub fn size(&self, name: Name) -> u32
        requires { IsThere self.now (slot_of name) }
        ensures size { result ≡ size_of self.now (slot_of name) }
        ensures legal { IsBlockSize result }
    {
        self.arena.size(slot_in_use(name))
    }

    /// A block's bytes.
    pub fn bytes(&self, name: Name) -> &[u8]
        requires { IsThere self.now (slot_of name) }
        ensures { result.now ≡ bytes_of self.now (slot_of name) }
    {
        self.arena.bytes(slot_in_use(name))
    }

    /// Borrows a block's bytes for writing. When the borrow ends, the block
    /// has the bytes that were left in them, and nothing else has changed.
    pub fn bytes_mut(&mut self, name: Name) -> &mut [u8]
        requires { IsThere self.old (slot_of name) }
        ensures* writes_back { sem 𝓛 (LendsBlock self.entry (slot_of name) result) }
        ensures value { result.now ≡ bytes_of self.old (slot_of name) }
    {
        self.arena.bytes_mut(slot_in_use(name))
    }

    /// The byte at an offset of the region, as the block that covers it has it.
    pub fn read8(&self, at: u32) -> u8
        requires { at < region_len self.now }
        ensures { ReadsByte self.now at result }
    {
        self.arena.read8(at)
    }

    /// The word at an offset of the region and the next, little-endian, as the blocks that
    /// cover them have it.
    pub fn read16(&self, at: u32) -> u16
        requires { at + 2 ≤ region_len self.now }
        ensures { ReadsWord self.now at result }
    {
        self.arena.read16(at)
    }

    /// The `len` bytes from an offset of the region on, each as the block that covers it has it.
    pub fn read(&self, at: u32, len: u32) -> &[u8]
        requires { at + len ≤ region_len self.now }
        ensures read { ReadsAs self.now at result.now }
        ensures long { length result.now ≡ len }
    {
        self.arena.read(at, len)
    }

    /// Writes a byte at an offset of the region: that byte of the block that covers it, and
    /// nothing else.
    pub fn write8(&mut self, at: u32, byte: u8)
        requires { at < region_len self.old }
        ensures written { self.new ≡ after_write self.old at (byte ∷ []) }
        ensures covered { WritesCovered self.old self.new at (byte ∷ []) }
    {
        self.arena.write8(at, byte);
    }

    /// Writes a word at an offset of the region and the next, little-endian, and nothing else.
    pub fn write16(&mut self, at: u32, word: u16)
        requires { at + 2 ≤ region_len self.old }
        ensures written { self.new ≡ after_write self.old at (word % 256 ∷ word / 256 ∷ []) }
        ensures covered { WritesCovered self.old self.new at (word % 256 ∷ word / 256 ∷ []) }
    {
        self.arena.write16(at, word);
    }

    /// Writes bytes from an offset of the region on: what falls into each block, and nothing else.
    pub fn write(&mut self, at: u32, bytes: &[u8])
        requires { at + length bytes.now ≤ region_len self.old }
        ensures written { self.new ≡ after_write self.old at bytes.now }
        ensures covered { WritesCovered self.old self.new at bytes.now }
    {
        self.arena.write(at, bytes);
    }

    /// Copies `count` bytes from one offset of the region to another, as they were before, also
    /// where the ranges overlap. Nothing outside the target changes.
    pub fn copy(&mut self, from: u32, to: u32, count: u32)
        requires { (from + count ≤ region_len self.old) × (to + count ≤ region_len self.old) }
        ensures copied { Copies self.old self.new from to count }
        ensures covered { CopiesCovered self.old self.new from to count }
    {
        self.arena.copy(from, to, count);
    }

    /// Locks a block once more: it keeps its place until its count is 0 again, or it grows.
    /// `BadHandle` if no block has this name, `Locked` if its count is 65,535; nothing
    /// changes then.
    pub fn lock(&mut self, name: Name) -> Result<(), HandleError>
        ensures there { OnOk result (IsThere self.old (slot_of name)) }
        ensures ok { OnOk result (self.new ≡ with_lock_more self.old (slot_of name)) }
        ensures bad_handle { (result ≡ Err HandleError.BadHandle) ↔ (IsThere self.old (slot_of name) → ⊥) }
        ensures locked { (result ≡ Err HandleError.Locked) ↔ (locks_of self.old (slot_of name) ≡ 65535) }
        ensures err { OnErr result (self.new ≡ self.old) }
    {
        let slot = slot_of(name);
        if self.arena.lock(slot) {
            self.vm_locks += of_file(name.owner);
            return Ok(());
        }
        if self.arena.has(slot) {
            Err(HandleError::Locked)
        } else {
            Err(HandleError::BadHandle)
        }
    }

    /// Takes back one lock of a block.
    pub fn unlock(&mut self, name: Name)
        requires { 0 < locks_of self.old (slot_of name) }
        ensures { self.new ≡ with_lock_less self.old (slot_of name) }
    {
        self.arena.unlock(slot_in_use(name));
        self.vm_locks -= of_file(name.owner);
    }

    /// Frees a block. `BadHandle` if no block has this name, `Locked` if it is locked;
    /// nothing changes then.
    pub fn free(&mut self, name: Name) -> Result<(), HandleError>
        ensures there { OnOk result (IsThere self.old (slot_of name)) }
        ensures ok { OnOk result (self.new ≡ without self.old (slot_of name)) }
        ensures bad_handle { (result ≡ Err HandleError.BadHandle) ↔ (IsThere self.old (slot_of name) → ⊥) }
        ensures locked { (result ≡ Err HandleError.Locked) ↔ (0 < locks_of self.old (slot_of name)) }
        ensures err { OnErr result (self.new ≡ self.old) }
    {
        let slot = slot_of(name);
        if !self.arena.has(slot) {
            return Err(HandleError::BadHandle);
        }
        if self.arena.locks(slot) > 0 {
            return Err(HandleError::Locked);
        }
        let place = self.arena.place(slot);
        let end = self.arena.end(slot);
        self.arena.remove(slot);
        self.used.remove(slot);
        self.gap = self.gap.joined(place, end, self.free);
        self.free += end - place;
        Ok(())
    }

    /// Makes a block of `size` zero bytes, not locked, under a name that is not in use.
    /// `NoRoom` if it would be over the limit or no stretch of the region has the room, `TooBig`
    /// above 65,520 bytes; nothing changes then. Unlocked blocks may move.
    pub fn make(&mut self, name: Name, size: u32) -> Result<(), RoomError>
        requires name { IsHandle name.h × (IsThere self.old (slot_of name) → ⊥) }
        requires size { (64 ≤ size) × (size % 16 ≡ 0) }
        ensures ok { OnOk result (Makes self.old self.new (slot_of name) size) }
        ensures no_room { result ≡ Err RoomError.NoRoom → HasNoRoom self.new (slot_of name) size }
        ensures too_big { (result ≡ Err RoomError.TooBig) ↔ (most_block_bytes < size) }
        ensures err { OnErr result (self.new ≡ self.old) }
    {
        if size as usize > MOST_BLOCK_BYTES {
            return Err(RoomError::TooBig);
        }
        if self.free < size {
            return Err(RoomError::NoRoom);
        }
        let slot = slot_of(name);
        let gap = room_for(&mut self.arena, self.gap, self.gap.end, slot, size)?;
        self.arena.create(slot, gap.at, size);
        self.used.insert(slot);
        self.gap = Gap {
            at: gap.at + size,
            end: gap.end,
        };
        self.free -= size;
        Ok(())
    }

    /// Grows a block to `size` bytes: it keeps its bytes, and zeros come after them. It may
    /// move, also where it is locked; another locked block stays, and unlocked ones may move.
    /// `NoRoom` if it would be over the limit or no stretch of the region between the other locked
    /// blocks has the room, `TooBig` above 65,520 bytes; nothing changes then.
    pub fn grow(&mut self, name: Name, size: u32) -> Result<(), RoomError>
        requires there { IsThere self.old (slot_of name) }
        requires size { (size_of self.old (slot_of name) ≤ size) × (size % 16 ≡ 0) }
        ensures ok { OnOk result (Grows self.old self.new (slot_of name) size) }
        ensures no_room { result ≡ Err RoomError.NoRoom → HasNoRoom self.new (slot_of name) size }
        ensures too_big { (result ≡ Err RoomError.TooBig) ↔ (most_block_bytes < size) }
        ensures err { OnErr result (self.new ≡ self.old) }
    {
        if size as usize > MOST_BLOCK_BYTES {
            return Err(RoomError::TooBig);
        }
        let slot = slot_of(name);
        let place = self.arena.place(slot);
        let end = self.arena.end(slot);
        let more = size - (end - place);
        if self.free < more {
            return Err(RoomError::NoRoom);
        }
        let gap = self.gap.reaching(place, end);
        let gap = room_for(&mut self.arena, gap, self.gap.end, slot, size)?;
        self.arena.relocate(slot, gap.at, size);
        self.gap = Gap {
            at: gap.at + size,
            end: gap.end,
        };
        self.free -= more;
        Ok(())
    }
}
