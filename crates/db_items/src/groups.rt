//! Groups: which blocks are groups; making, freeing and loading them.
ghost use Rattle.std.specs.Prelude.{◌≡◌, ◌⊎◌, ◌<◌, ◌↔◌, ℕ, Err, IsTrue, IfOk, IfErr, OnOk, OnErr};
ghost use Rattle.block_handles.specs.Store.{locks_of};
ghost use Rattle.geos_calls.specs.ItemCalls.{gfree, gnew};
ghost use Rattle.geos_terms.specs.Names.{group_uid};
ghost use Rattle.vm_blocks.specs.Blocks.{Adds, AllListed, IsLowestUnlisted, LacksRoomForNew, without_held};
ghost use Rattle.vm_blocks.specs.Bring.{Drops};
ghost use Rattle.vm_blocks.specs.DoesRow.{DoesRow};
ghost use Rattle.vm_blocks.specs.Room.{RemainOrNoRoom};
ghost use Rattle.vm_blocks.specs.Tied.{IsTied};
ghost use Rattle.vm_blocks.specs.View.{vm_slot};
ghost use Rattle.db_items.specs.Groups.{BringsGroup, IsGroup, RefusesNoGroup};

use block_handles::Blocks;
use geos_terms::Refusal;
use vm_blocks::VmBlocks;
use vm_file::{Device, GROUP_UID};

/// Whether a handle names a group.
pub fn is_group<D: Device + Drop>(vm: &VmBlocks<D>, group: u16) -> bool
    ensures { IsTrue result ↔ IsGroup vm.now group }
{
    vm.has_group(group)
}

/// Makes a group of 64 bytes without an item under the lowest handle of the file that is free, in memory and marked,
/// but not locked. `NoHandle` if all 1,024 are listed; then `NoRoom` if no stretch of the region has room, although
/// every idle block of the file was evicted.
pub fn group_new<D: Device + Drop>(
    vm: &mut VmBlocks<D>,
    blocks: &mut Blocks,
) -> Result<u16, Refusal>
    requires { IsTied D.medium vm.old blocks.old }
    ensures tied { IsTied D.medium vm.new blocks.new }
    // Its row of the table of calls, in each memory that the model may have before it.
    ensures row { DoesRow D.medium gnew result vm.old blocks.old vm.new blocks.new }
    ensures ok { IfOk result (Adds vm.old vm.new blocks.old blocks.new group_uid 0) }
    ensures why { IfErr result (λ why. (why ≡ Refusal.NoHandle) ⊎ (why ≡ Refusal.NoRoom)) }
    ensures no_handle { (result ≡ Err Refusal.NoHandle) ↔ AllListed vm.old }
    ensures no_room { result ≡ Err Refusal.NoRoom → LacksRoomForNew vm.old blocks.old blocks.new }
    // No block goes where there is room.
    ensures wanted { (h : ℕ) → IsLowestUnlisted vm.old h → RemainOrNoRoom blocks.old blocks.new h 64 }
    ensures stays { result ≡ Err Refusal.NoHandle → blocks.new ≡ blocks.old }
    ensures err { OnErr result (vm.new ≡ vm.old) }
    ensures file { vm.new.file ≡ vm.old.file }
{
    match vm.vnew_unlocked(blocks, GROUP_UID) {
        Ok(g) => Ok(g),
        Err(why) => Err(why.refusal()),
    }
}

/// Frees a group, and its items with it: it is listed no more, the map item is none if it was
/// mapped, and it leaves the memory. `BadHandle` if no group has this handle, `Locked` if it is
/// locked; nothing changes then.
pub fn group_free<D: Device + Drop>(
    vm: &mut VmBlocks<D>,
    blocks: &mut Blocks,
    group: u16,
) -> Result<(), Refusal>
    requires { IsTied D.medium vm.old blocks.old }
    ensures tied { IsTied D.medium vm.new blocks.new }
    // Its row of the table of calls, in each memory that the model may have before it.
    ensures row { DoesRow D.medium (gfree group) result vm.old blocks.old vm.new blocks.new }
    ensures no_group { RefusesNoGroup group result vm.old vm.new blocks.old blocks.new }
    ensures locked { IsGroup vm.old group → (result ≡ Err Refusal.Locked) ↔ (0 < locks_of blocks.old (vm_slot group)) }
    ensures state { OnOk result (vm.new ≡ without_held vm.old group) }
    ensures drops { OnOk result (Drops blocks.old blocks.new group) }
    ensures err { OnErr result ((vm.new ≡ vm.old) × (blocks.new ≡ blocks.old)) }
    ensures file { vm.new.file ≡ vm.old.file }
{
    if !is_group(vm, group) {
        return Err(Refusal::BadHandle);
    }
    match vm.vfree(blocks, group) {
        Ok(()) => Ok(()),
        Err(why) => Err(why.refusal()),
    }
}

/// Brings a group into memory, and does not lock it. `BadHandle` if no group has this handle;
/// `NoRoom` and `Disk` as `VmBlocks::bring` has them.
pub(crate) fn bring_group<D: Device + Drop>(
    vm: &mut VmBlocks<D>,
    blocks: &mut Blocks,
    g: u16,
) -> Result<(), Refusal>
    requires { IsTied D.medium vm.old blocks.old }
    ensures { BringsGroup D.medium g result vm.old vm.new blocks.old blocks.new }
{
    if !is_group(vm, g) {
        return Err(Refusal::BadHandle);
    }
    match vm.bring(blocks, g) {
        Ok(()) => Ok(()),
        Err(why) => Err(why.refusal()),
    }
}
