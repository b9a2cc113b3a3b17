//! The kernel's calls on blocks of the VM file, on what is mapped, and on the file.

ghost use Rattle.std.specs.Prelude.{◌≡◌, ℕ, List, Ok, Err, IfOk, OnErr, OnOk};

use crate::kernel::Kernel;
use crate::refused::{of_commit, of_free, of_lock, of_new, of_uid};
use db_items::is_group;
use geos_terms::{Name, Refusal};
use vm_file::{Device, GROUP_UID, How};

impl<D: Device + Drop> Kernel<D> {
    ghost use Rattle.geos_terms.specs.declared.name.Owner.TheVariants as owner;
    ghost use Rattle.geos_terms.specs.Names.{vm};
    ghost use Rattle.geos_calls.specs.VmCalls as table;
    ghost use Rattle.block_handles.specs.Change.{with_lock_more};
    ghost use Rattle.block_handles.specs.Store.{IsThere};
    ghost use Rattle.vm_blocks.specs.View.{vm_slot};
    ghost use Rattle.vm_blocks.specs.Listed.{NoneLocked};
    ghost use Rattle.vm_blocks.specs.ListedCalls.{keeper_of};
    ghost use Rattle.vm_file.specs.State.{Finds};
    ghost use Rattle.geos_kernel.specs.Files.{AsksNothing, Commits, InMemory, LeavesKept, ReadsFile, vm_file_of};
    ghost use Rattle.geos_kernel.specs.Kernel.{Calls, LeavesVm, ListedHasNoRoom, NewListedHasNoRoom, Remain};
    ghost use Rattle.geos_kernel.specs.View.{IsLocked, IsMarked};

    /// Whether the VM file is sure of the pair that it keeps: where it is not, it takes no commit.
    pub fn is_sure(&self) -> bool
        ensures sure { result ≡ self.now.core.vm.file.sure }
        // What `open` would find after a stop now.
        ensures stop { D.medium.honest self.now.device → (c : List ℕ) → D.medium.may_leave self.now.device c
            → Finds D.medium.image (vm_file_of self.now) c }
        // That is what the model has committed.
        ensures kept { LeavesKept D.medium self.now }
    {
        self.vm.is_sure()
    }

    /// Makes a block of the file of 64 bytes with no chunk, under the lowest handle that is free,
    /// with this user ID, marks it and locks it. `Reserved` if the user ID is that of groups,
    /// `NoHandle` if all 1,024 handles are listed, `NoRoom` if no stretch of the region has
    /// room for it, though no block is left that could be discarded.
    pub fn vnew(&mut self, uid: u16) -> Result<u16, Refusal>
        ensures calls { Calls (D.medium.honest self.old.device) (table.vnew uid) result self.old.core self.new.core }
        ensures no_room { result ≡ Err Refusal.NoRoom → NewListedHasNoRoom self.old.core self.new.core }
        ensures ready { IfOk result (λ h. IsLocked self.new.core (vm h) × IsMarked self.new.core h) }
        ensures device { AsksNothing self.old self.new }
    {
        // that the kernel's invariant is known, also where it is refused
        let _ = &self.vm;
        if uid == GROUP_UID {
            return Err(Refusal::Reserved);
        }
        let made = self.vm.vnew(&mut self.blocks, uid);
        of_new(made)
    }

    /// Locks a block of the file once more, which brings it into memory. `BadHandle` if there is
    /// none, `Reserved` if it is a group, `Locked` if its count is 65,535, `NoRoom` if no
    /// stretch of the region has room for it, though no other block is left that could be discarded,
    /// `Disk` if the device fails, or gives bytes that are no heap under the handle.
    pub fn vlock(&mut self, handle: u16) -> Result<(), Refusal>
        ensures calls { Calls (D.medium.honest self.old.device) (table.vlock handle) result self.old.core self.new.core }
        ensures no_room { result ≡ Err Refusal.NoRoom → ListedHasNoRoom self.new.core handle }
        // A block in memory is locked without the device. A refusal changes nothing, except `NoRoom` and `Disk`.
        ensures in_memory { InMemory handle result self.old self.new }
        ensures locks { IsThere self.old.core.blocks (vm_slot handle)
            → OnOk result (self.new.core.blocks ≡ with_lock_more self.old.core.blocks (vm_slot handle)) }
        ensures refused { (result ≡ Err Refusal.NoRoom → ⊥) → (result ≡ Err Refusal.Disk → ⊥) → OnErr result (self.new ≡ self.old) }
        ensures device { ReadsFile D.medium (result ≡ Err Refusal.Disk) self.old self.new }
    {
        // what a stop leaves before it
        self.vm.is_sure();
        if is_group(&self.vm, handle) {
            return Err(Refusal::Reserved);
        }
        let locked = self.vm.vlock(&mut self.blocks, handle);
        of_lock(locked)
    }

    /// Marks a locked block of the file as changed: it stays in memory until a commit has written it.
    pub fn vdirty(&mut self, name: Name)
        requires kind { name.owner ≡ owner.Vm }
        requires locked { IsLocked self.old.core name }
        ensures calls { Calls (D.medium.honest self.old.device) (table.vdirty name.h) (Ok tt) self.old.core self.new.core }
        ensures marked { IsMarked self.new.core name.h }
        ensures device { AsksNothing self.old self.new }
        ensures remain { Remain self.old.core.blocks self.new.core.blocks 0 }
    {
        self.vm.vdirty(&self.blocks, name.h);
    }

    /// Unlocks a block of the file once. When it is locked no more, references into it are stale.
    pub fn vunlock(&mut self, name: Name)
        requires kind { name.owner ≡ owner.Vm }
        requires locked { IsLocked self.old.core name }
        ensures calls { Calls (D.medium.honest self.old.device) (table.vunlock name.h) (Ok tt) self.old.core self.new.core }
        ensures vm { LeavesVm self.old self.new }
        ensures remain { Remain self.old.core.blocks self.new.core.blocks 0 }
    {
        self.munlock(name);
    }

    /// Frees a block of the file: it is mapped no more. `BadHandle` if there is none, `Reserved`
    /// where it is a group, `Locked` if it is locked.
    pub fn vfree(&mut self, handle: u16) -> Result<(), Refusal>
        ensures calls { Calls (D.medium.honest self.old.device) (table.vfree handle) result self.old.core self.new.core }
        ensures device { AsksNothing self.old self.new }
        ensures remain { Remain self.old.core.blocks self.new.core.blocks handle }
    {
        if is_group(&self.vm, handle) {
            return Err(Refusal::Reserved);
        }
        let freed = self.vm.vfree(&mut self.blocks, handle);
        of_free(freed)
    }

    /// The lowest handle above `start` of a block of the file with this user ID; 0 if there is
    /// none. `Reserved` if the user ID is that of groups.
    pub fn vfind(&self, start: u16, uid: u16) -> Result<u16, Refusal>
        ensures { Calls (D.medium.honest self.now.device) (table.vfind start uid) result self.now.core self.now.core }
    {
        // as in `vnew`
        let _ = &self.vm;
        if uid == GROUP_UID {
            return Err(Refusal::Reserved);
        }
        Ok(self.vm.find(start, uid))
    }

    /// The user ID of a block or group. `BadHandle` if there is none.
    pub fn vuid(&self, handle: u16) -> Result<u16, Refusal>
        ensures { Calls (D.medium.honest self.now.device) (table.vuid handle) result self.now.core self.now.core }
    {
        of_uid(self.vm.uid(handle))
    }

    /// The map block; 0 for none.
    pub fn vgetmap(&self) -> u16
        ensures { Calls (D.medium.honest self.now.device) table.vgetmap (Ok result) self.now.core self.now.core }
    {
        self.vm.map()
    }

    /// Names the map block; 0 is for none. `BadHandle` if there is no such block, `Reserved` if
    /// it is a group.
    pub fn vsetmap(&mut self, handle: u16) -> Result<(), Refusal>
        ensures calls { Calls (D.medium.honest self.old.device) (table.vsetmap handle) result self.old.core self.new.core }
        ensures device { AsksNothing self.old self.new }
        ensures remain { Remain self.old.core.blocks self.new.core.blocks 0 }
    {
        if handle != 0 && !self.vm.has(handle) {
            return Err(Refusal::BadHandle);
        }
        if is_group(&self.vm, handle) {
            return Err(Refusal::Reserved);
        }
        self.vm.set_map(handle);
        Ok(())
    }

    /// Keeps the current directory beside the saved one: no block of the file is marked any more.
    /// `Unsure` if the file is unsure of what its device holds, `TooBig` if both need more than
    /// the area, `Memory` if an allocation is refused, `Disk` if the device fails, or gives
    /// bytes that are no heap under their handle. A refusal leaves blocks and marks as they were; the
    /// file may be unsure after `Disk`.
    pub fn vupdate(&mut self) -> Result<(), Refusal>
        requires { NoneLocked self.old.core.blocks }
        ensures calls { Calls (D.medium.honest self.old.device) table.vupdate result self.old.core self.new.core }
        ensures commits { Commits D.medium How.Update self.old self.new result }
    {
        self.commit(How::Update)
    }

    /// Keeps the current directory, which is the saved one too from then on. It is refused as
    /// `vupdate` is.
    pub fn vsave(&mut self) -> Result<(), Refusal>
        requires { NoneLocked self.old.core.blocks }
        ensures calls { Calls (D.medium.honest self.old.device) table.vsave result self.old.core self.new.core }
        ensures commits { Commits D.medium How.Save self.old self.new result }
    {
        self.commit(How::Save)
    }

    /// Goes back to the saved directory, and keeps it: what was not saved is lost. It is refused as
    /// `vupdate` is.
    pub fn vrevert(&mut self) -> Result<(), Refusal>
        requires { NoneLocked self.old.core.blocks }
        ensures calls { Calls (D.medium.honest self.old.device) table.vrevert result self.old.core self.new.core }
        ensures commits { Commits D.medium How.Revert self.old self.new result }
    {
        self.commit(How::Revert)
    }

    /// Keeps one of the pairs of directories that `How` names. It is refused as `vupdate` is.
    pub fn commit(&mut self, how: How) -> Result<(), Refusal>
        requires { NoneLocked self.old.core.blocks }
        ensures calls { Calls (D.medium.honest self.old.device) (table.commit (keeper_of how)) result self.old.core self.new.core }
        ensures commits { Commits D.medium how self.old self.new result }
    {
        // `open` finds what the model has committed, before the call and after it
        self.vm.is_sure();
        let done = self.vm.commit(&mut self.blocks, how);
        self.vm.is_sure();
        of_commit(done)
    }
}
