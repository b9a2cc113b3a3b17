//! New blocks of the file, and blocks that go.
ghost use Rattle.std.specs.Prelude.{◌≡◌, ◌<◌, ◌↔◌, ℕ, None, Err, IfOk, OnOk, OnErr};
ghost use Rattle.geos_terms.specs.Names.{vm};
ghost use Rattle.block_handles.specs.Names.{IsHandle};
ghost use Rattle.block_handles.specs.Store.{IsThere, locks_of, size_of};
ghost use Rattle.vm_blocks.specs.Blocks.{Adds, AllListed, BecomesHeap, IsLowestUnlisted, IsNew, LacksRoomForNew, without_held};
ghost use Rattle.vm_blocks.specs.Bring.{Drops, Keeps};
ghost use Rattle.vm_blocks.specs.DoesRow.{DoesRow};
ghost use Rattle.vm_blocks.specs.ListedCalls.{free_listed, make_listed};
ghost use Rattle.vm_blocks.specs.Refused.{of_free, of_new};
ghost use Rattle.vm_blocks.specs.Room.{LacksRoom, RemainOrNoRoom};
ghost use Rattle.vm_blocks.specs.Tied.{IsTied};
ghost use Rattle.vm_blocks.specs.View.{held_at, vm_slot};

use crate::blocks::VmBlocks;
use crate::entries::Held;
use crate::error::{FreeError, NewError, NoRoom};
use block_handles::Blocks;
use geos_terms::Name;
use vm_file::Device;

/// Makes a heap without a chunk of a new block.
fn begin(blocks: &mut Blocks, h: u16)
    requires there { IsThere blocks.old (vm_slot h) }
    requires size { size_of blocks.old (vm_slot h) ≡ 64 }
    ensures { BecomesHeap blocks.old blocks.new h }
{
    lmem_block::init(blocks.bytes_mut(Name::vm(h)), h);
}

impl<D: Device + Drop> VmBlocks<D> {
    /// Makes a block in memory under a handle that is not listed.
    fn make_heap(&self, blocks: &mut Blocks, h: u16) -> Result<(), NoRoom>
        requires tied { IsTied D.medium self.now blocks.old }
        requires handle { IsHandle h }
        requires free { held_at self.now h ≡ None }
        ensures ok { OnOk result (IsNew blocks.new h 0) }
        ensures keeps { OnOk result (Keeps self.now blocks.old blocks.new h) }
        ensures err { OnErr result (LacksRoom self.now blocks.old blocks.new (vm h) 64) }
        ensures wanted { RemainOrNoRoom blocks.old blocks.new h 64 }
    {
        match self.make_room(blocks, Name::vm(h), 64) {
            Ok(()) => {}
            Err(NoRoom) => return Err(NoRoom),
        }
        begin(blocks, h);
        Ok(())
    }

    /// Makes a block of 64 bytes without a chunk under the lowest free handle, in memory and marked, but not locked.
    /// `NoHandle` if all 1,024 are listed; then `NoRoom` if no stretch of the region has room, although every idle
    /// block of the file was evicted.
    pub fn vnew_unlocked(&mut self, blocks: &mut Blocks, uid: u16) -> Result<u16, NewError>
        requires { IsTied D.medium self.old blocks.old }
        ensures tied { IsTied D.medium self.new blocks.new }
        ensures ok { IfOk result (Adds self.old self.new blocks.old blocks.new uid 0) }
        ensures no_handle { (result ≡ Err NewError.NoHandle) ↔ AllListed self.old }
        ensures no_room { result ≡ Err NewError.NoRoom → LacksRoomForNew self.old blocks.old blocks.new }
        // No block goes where there is room.
        ensures wanted { (h : ℕ) → IsLowestUnlisted self.old h → RemainOrNoRoom blocks.old blocks.new h 64 }
        ensures stays { result ≡ Err NewError.NoHandle → blocks.new ≡ blocks.old }
        ensures err { OnErr result (self.new ≡ self.old) }
        // Its row of the table of calls, in each memory that the model may have before it.
        ensures row { DoesRow D.medium (make_listed uid 0) (of_new result) self.old blocks.old self.new blocks.new }
    {
        let Some(h) = self.lowest() else {
            return Err(NewError::NoHandle);
        };
        match self.make_heap(blocks, h) {
            Ok(()) => {}
            Err(NoRoom) => return Err(NewError::NoRoom),
        }
        self.put(
            h,
            Some(Held {
                uid,
                len: 64,
                marked: true,
            }),
        );
        Ok(h)
    }

    /// Makes a block as `vnew_unlocked` does, with the same refusals, and locks it once.
    pub fn vnew(&mut self, blocks: &mut Blocks, uid: u16) -> Result<u16, NewError>
        requires { IsTied D.medium self.old blocks.old }
        ensures tied { IsTied D.medium self.new blocks.new }
        ensures ok { IfOk result (Adds self.old self.new blocks.old blocks.new uid 1) }
        ensures no_handle { (result ≡ Err NewError.NoHandle) ↔ AllListed self.old }
        ensures no_room { result ≡ Err NewError.NoRoom → LacksRoomForNew self.old blocks.old blocks.new }
        // No block goes where there is room.
        ensures wanted { (h : ℕ) → IsLowestUnlisted self.old h → RemainOrNoRoom blocks.old blocks.new h 64 }
        ensures stays { result ≡ Err NewError.NoHandle → blocks.new ≡ blocks.old }
        ensures err { OnErr result (self.new ≡ self.old) }
        // Its row of the table of calls, in each memory that the model may have before it.
        ensures row { DoesRow D.medium (make_listed uid 1) (of_new result) self.old blocks.old self.new blocks.new }
    {
        match self.vnew_unlocked(blocks, uid) {
            Ok(h) => {
                let _ = blocks.lock(Name::vm(h));
                Ok(h)
            }
            Err(error) => Err(error),
        }
    }

    /// Lists no block under a handle, and maps it no more.
    fn unlist(&mut self, h: u16)
        requires { IsHandle h }
        ensures { self.new ≡ without_held self.old h }
    {
        self.put(h, None);
        if self.map_block == h {
            self.map_block = 0;
        }
        if self.map_item.0 == h {
            self.map_item = (0, 0);
        }
    }

    /// Frees a block: it is listed and mapped no more, and leaves the memory. `BadHandle` if
    /// none has this handle, `Locked` if it is locked; nothing changes then.
    pub fn vfree(&mut self, blocks: &mut Blocks, handle: u16) -> Result<(), FreeError>
        requires { IsTied D.medium self.old blocks.old }
        ensures tied { IsTied D.medium self.new blocks.new }
        ensures bad_handle { (result ≡ Err FreeError.BadHandle) ↔ (held_at self.old handle ≡ None) }
        ensures locked { (result ≡ Err FreeError.Locked) ↔ (0 < locks_of blocks.old (vm_slot handle)) }
        ensures state { OnOk result (self.new ≡ without_held self.old handle) }
        ensures drops { OnOk result (Drops blocks.old blocks.new handle) }
        ensures err { OnErr result ((self.new ≡ self.old) × (blocks.new ≡ blocks.old)) }
        // Its row of the table of calls, in each memory that the model may have before it.
        ensures row { DoesRow D.medium (free_listed handle) (of_free result) self.old blocks.old self.new blocks.new }
    {
        let Some(_held) = self.held(handle) else {
            return Err(FreeError::BadHandle);
        };
        if blocks.locks(Name::vm(handle)) > 0 {
            return Err(FreeError::Locked);
        }
        let _ = blocks.free(Name::vm(handle));
        self.unlist(handle);
        Ok(())
    }
}
