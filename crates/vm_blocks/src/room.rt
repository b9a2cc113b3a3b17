//! Room for a block: other blocks that can be read from the file again are evicted for it.
ghost use Rattle.std.specs.Prelude.{◌≡◌, ◌≢◌, ◌+◌, ◌%◌, ◌<◌, ◌≤◌, IsTrue, IfSome, IfNone, OnOk, OnErr, true, false};
ghost use Rattle.geos_terms.specs.Heap.{IsBlockSize, most_block_bytes};
ghost use Rattle.block_handles.specs.Names.{IsHandle, slot_of};
ghost use Rattle.block_handles.specs.Store.{IsThere, size_of};
ghost use Rattle.vm_blocks.specs.Room.{DiscardsForRoom, DiscardsOne, DiscardsAndGrows, LacksRoom, DiscardsAndMakes, NoneIdle, Thins, is_idle, own_handle, there_count};
ghost use Rattle.vm_blocks.specs.Tied.{IsTied};

use crate::blocks::VmBlocks;
use crate::error::NoRoom;
use block_handles::Blocks;
use geos_terms::{Name, Owner};
use vm_file::Device;

/// The handle that a named block has in the file; 0 for a block of global memory.
fn own_handle(name: Name) -> u16
    ensures { result ≡ own_handle name }
{
    match name.owner {
        Owner::Mem => 0,
        Owner::Vm => name.h,
    }
}

impl<D: Device + Drop> VmBlocks<D> {
    /// Whether a block is idle, so that it may be evicted.
    fn is_idle(&self, blocks: &Blocks, h: u16) -> bool
        ensures idle { result ≡ is_idle self.now blocks.now h }
        ensures handle { IsTrue result → IsHandle h }
    {
        match self.held(h) {
            Some(held) => {
                !held.marked && blocks.has(Name::vm(h)) && blocks.locks(Name::vm(h)) == 0
            }
            None => false,
        }
    }

    /// The handle of the first idle block after the gap, other than `but`. So the gap usually
    /// gets wider, and moves through the region cyclically. Visits each block at most once.
    fn idle_behind_gap(&self, blocks: &Blocks, but: u16) -> Option<u16>
        ensures { IfSome result (λ h. IsHandle h × (h ≢ but) × (is_idle self.now blocks.now h ≡ true)) }
    {
        let mut at = blocks.gap_end();
        for _ in 0..2 * Name::HANDLES {
            let (name, end) = blocks.next_from(at)?;
            let h = own_handle(name);
            if self.is_idle(blocks, h) && h != but {
                return Some(h);
            }
            at = end;
        }
        None
    }

    /// The handle of an idle block other than `but`: the first one
    /// after the gap, or the lowest if there is none after the gap.
    fn first_idle(&self, blocks: &Blocks, but: u16) -> Option<u16>
        ensures found { IfSome result (λ h. IsHandle h × (h ≢ but) × (is_idle self.now blocks.now h ≡ true)) }
        ensures none { IfNone result (NoneIdle self.now blocks.now but) }
    {
        if let Some(h) = self.idle_behind_gap(blocks, but) {
            return Some(h);
        }
        for h in 1..Name::HANDLES + 1 {
            if h != but && self.is_idle(blocks, h) {
                return Some(h);
            }
        }
        None
    }

    /// Evicts one idle block of the file, other than that of the handle `but` (0 for
    /// none); nothing else changes. `false` if there is none: nothing has changed.
    pub fn discard_one(&self, blocks: &mut Blocks, but: u16) -> bool
        requires { IsTied D.medium self.now blocks.old }
        ensures one { IsTrue result → DiscardsOne self.now blocks.old blocks.new but }
        ensures thins { IsTrue result → Thins self.now blocks.old blocks.new but }
        ensures fewer { IsTrue result → there_count blocks.new < there_count blocks.old }
        ensures none { result ≡ false → (blocks.new ≡ blocks.old) × NoneIdle self.now blocks.old but }
    {
        match self.first_idle(blocks, but) {
            Some(h) => {
                let _ = blocks.free(Name::vm(h));
                true
            }
            None => false,
        }
    }

    /// Evicts blocks, but not the named one, which is to have `more` bytes,
    /// while fewer are free. Before that no search for room can succeed.
    fn discard_for(&self, blocks: &mut Blocks, name: Name, more: u32)
        requires tied { IsTied D.medium self.now blocks.old }
        requires handle { IsHandle name.h }
        ensures thins { Thins self.now blocks.old blocks.new (own_handle name) }
        ensures wanted { DiscardsForRoom self.now blocks.old blocks.new (own_handle name) (slot_of name) (size_of blocks.old (slot_of name) + more) }
    {
        let but = own_handle(name);
        while blocks.lacks(more) && self.discard_one(blocks, but) {}
    }

    /// Makes a block of `size` zero bytes, not locked, under an unused name. While there is no room, it evicts
    /// other blocks, one after another. `NoRoom` if there is none although all idle blocks were evicted.
    pub fn make_room(&self, blocks: &mut Blocks, name: Name, size: u32) -> Result<(), NoRoom>
        requires tied { IsTied D.medium self.now blocks.old }
        requires handle { IsHandle name.h }
        requires absent { IsThere blocks.old (slot_of name) → ⊥ }
        requires size { IsBlockSize size }
        ensures ok { OnOk result (DiscardsAndMakes self.now blocks.old blocks.new name size) }
        ensures err { OnErr result (LacksRoom self.now blocks.old blocks.new name size) }
        ensures wanted { OnErr result (DiscardsForRoom self.now blocks.old blocks.new (own_handle name) (slot_of name) size) }
    {
        let but = own_handle(name);
        self.discard_for(blocks, name, size);
        loop {
            match blocks.make(name, size) {
                Ok(()) => return Ok(()),
                Err(_) => {}
            }
            if !self.discard_one(blocks, but) {
                return Err(NoRoom);
            }
        }
    }

    /// Grows a block to `size` bytes, with zeros after its own. While there is no room, it evicts other
    /// blocks, one after another. `NoRoom` if there is none although all idle blocks were evicted.
    pub fn grow_room(&self, blocks: &mut Blocks, name: Name, size: u32) -> Result<(), NoRoom>
        requires tied { IsTied D.medium self.now blocks.old }
        requires there { IsThere blocks.old (slot_of name) }
        requires size { (size_of blocks.old (slot_of name) ≤ size) × (size ≤ most_block_bytes) × (size % 16 ≡ 0) }
        ensures ok { OnOk result (DiscardsAndGrows self.now blocks.old blocks.new name size) }
        ensures err { OnErr result (LacksRoom self.now blocks.old blocks.new name size) }
        ensures wanted { OnErr result (DiscardsForRoom self.now blocks.old blocks.new (own_handle name) (slot_of name) size) }
    {
        let but = own_handle(name);
        let more = size - blocks.size(name);
        self.discard_for(blocks, name, more);
        loop {
            match blocks.grow(name, size) {
                Ok(()) => return Ok(()),
                Err(_) => {}
            }
            if !self.discard_one(blocks, but) {
                return Err(NoRoom);
            }
        }
    }
}
