//! Locks of blocks of the file, and marks.
ghost use Rattle.std.specs.Prelude.{true, ◌≡◌, ◌<◌, ◌↔◌, None, Ok, Err, OnOk, option_map};
ghost use Rattle.block_handles.specs.Change.{with_lock_less};
ghost use Rattle.block_handles.specs.Store.{IsThere, locks_of};
ghost use Rattle.geos_calls.specs.VmCalls.{vdirty, vunlock};
ghost use Rattle.geos_calls.specs.Memory.{Memory, with_mark};
ghost use Rattle.vm_blocks.specs.Blocks.{marked};
ghost use Rattle.vm_blocks.specs.Bring.{LockedMore, LocksThere};
ghost use Rattle.vm_blocks.specs.Bringing.{BringsBlock};
ghost use Rattle.vm_blocks.specs.DoesRow.{DoesRow};
ghost use Rattle.vm_blocks.specs.FileOf.{IsMemoryOf};
ghost use Rattle.vm_blocks.specs.Keeping.{IsChanged};
ghost use Rattle.vm_blocks.specs.ListedCalls.{lock_listed};
ghost use Rattle.vm_blocks.specs.Refused.{of_lock};
ghost use Rattle.vm_blocks.specs.Tied.{IsTied};
ghost use Rattle.vm_blocks.specs.View.{held_at, vm_slot, with_held};

use crate::blocks::VmBlocks;
use crate::entries::Held;
use crate::error::LockError;
use block_handles::{Blocks, HandleError};
use geos_terms::Name;
use vm_file::Device;

impl<D: Device + Drop> VmBlocks<D> {
    /// Brings a block into memory and locks it once more: it stays there, at its place, until
    /// its count is 0 again. `BadHandle` if none has this handle, `Locked` if its count is
    /// 65,535; `NoRoom` and `Disk` as `bring` has them.
    pub fn vlock(&mut self, blocks: &mut Blocks, handle: u16) -> Result<(), LockError>
        requires { IsTied D.medium self.old blocks.old }
        ensures brings { BringsBlock D.medium LockError.NoRoom LockError.Disk handle result self.old self.new blocks.old blocks.new }
        ensures bad_handle { (result ≡ Err LockError.BadHandle) ↔ (held_at self.old handle ≡ None) }
        ensures locked { (result ≡ Err LockError.Locked) ↔ (locks_of blocks.old (vm_slot handle) ≡ 65535) }
        // One that is in memory is locked once more, or its count is full, and nothing changes.
        ensures there { IsThere blocks.old (vm_slot handle) → LocksThere handle result blocks.old blocks.new }
        ensures ok { OnOk result (LockedMore blocks.old blocks.new handle) }
        // Its row of the table of calls, in each memory that the model may have before it.
        ensures row { DoesRow D.medium (lock_listed handle) (of_lock result) self.old blocks.old self.new blocks.new }
    {
        match blocks.lock(Name::vm(handle)) {
            Ok(()) => Ok(()),
            Err(HandleError::Locked) => Err(LockError::Locked),
            Err(HandleError::BadHandle) => self.lock_absent(blocks, handle),
        }
    }

    /// Brings a block that is not in memory there, and locks it. Apart, so that a lock of a block
    /// that is there stays short.
    #[inline(never)]
    fn lock_absent(&mut self, blocks: &mut Blocks, h: u16) -> Result<(), LockError>
        requires tied { IsTied D.medium self.old blocks.old }
        requires absent { IsThere blocks.old (vm_slot h) → ⊥ }
        ensures brings { BringsBlock D.medium LockError.NoRoom LockError.Disk h result self.old self.new blocks.old blocks.new }
        ensures bad_handle { (result ≡ Err LockError.BadHandle) ↔ (held_at self.old h ≡ None) }
        ensures locked { (result ≡ Err LockError.Locked) ↔ (locks_of blocks.old (vm_slot h) ≡ 65535) }
        ensures ok { OnOk result (LockedMore blocks.old blocks.new h) }
        ensures row { DoesRow D.medium (lock_listed h) (of_lock result) self.old blocks.old self.new blocks.new }
    {
        self.bring(blocks, h)?;
        let _ = blocks.lock(Name::vm(h));
        Ok(())
    }

    /// Takes back one lock of a block. It stays in memory.
    pub fn vunlock(&self, blocks: &mut Blocks, handle: u16)
        requires tied { IsTied D.medium self.now blocks.old }
        requires locked { 0 < locks_of blocks.old (vm_slot handle) }
        ensures tied { IsTied D.medium self.now blocks.new }
        ensures less { blocks.new ≡ with_lock_less blocks.old (vm_slot handle) }
        // Its row of the table of calls, in each memory that the model may have before it.
        ensures row { DoesRow D.medium (vunlock handle) (Ok tt) self.now blocks.old self.now blocks.new }
    {
        blocks.unlock(Name::vm(handle));
    }

    /// Marks a block that is in memory as changed: it stays there until a commit has written it.
    pub fn vdirty(&mut self, blocks: &Blocks, handle: u16)
        requires tied { IsTied D.medium self.old blocks.now }
        requires there { IsThere blocks.now (vm_slot handle) }
        ensures tied { IsTied D.medium self.new blocks.now }
        ensures marks { self.new ≡ with_held self.old handle (option_map marked (held_at self.old handle)) }
        // Its row of the table of calls, in each memory that the model may have before it.
        ensures row { DoesRow D.medium (vdirty handle) (Ok tt) self.old blocks.now self.new blocks.now }
    {
        self.vdirty_changed(blocks, handle);
    }

    /// Marks a block that is in memory and has changed there: till then it is not what the file has,
    /// though it is not marked. A block that was marked before it changed stays so.
    pub fn vdirty_changed(&mut self, blocks: &Blocks, handle: u16)
        requires { IsChanged D.medium self.old blocks.now handle }
        ensures tied { IsTied D.medium self.new blocks.now }
        ensures marks { self.new ≡ with_held self.old handle (option_map marked (held_at self.old handle)) }
        // Each memory that the model may have before it continues, with the mark.
        ensures memory { (m : Memory) → IsMemoryOf D.medium self.old blocks.now m
            → IsMemoryOf D.medium self.new blocks.now (with_mark m handle true) }
    {
        match self.held(handle) {
            Some(held) => self.put(
                handle,
                Some(Held {
                    uid: held.uid,
                    len: held.len,
                    marked: true,
                }),
            ),
            None => {}
        }
    }
}
