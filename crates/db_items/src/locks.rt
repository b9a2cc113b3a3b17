//! Groups that are locked for an item, unlocked and marked.
ghost use Rattle.std.specs.Prelude.{◌≡◌, ◌<◌, ◌↔◌, IsTrue, Ok, Err, option_map};
ghost use Rattle.geos_calls.specs.ItemCalls.{idirty, iunlock};
ghost use Rattle.block_handles.specs.Change.{with_lock_less};
ghost use Rattle.block_handles.specs.Store.{IsThere, locks_of};
ghost use Rattle.vm_blocks.specs.Blocks.{marked};
ghost use Rattle.vm_blocks.specs.DoesRow.{DoesRow};
ghost use Rattle.vm_blocks.specs.Tied.{IsTied};
ghost use Rattle.vm_blocks.specs.View.{held_at, vm_slot, with_held};
ghost use Rattle.db_items.specs.Groups.{IsGroup};
ghost use Rattle.db_items.specs.Items.{LocksItem};

use crate::groups::{bring_group, is_group};
use block_handles::Blocks;
use chunk_calls::find;
use geos_calls::Refer;
use geos_terms::{Name, Refusal};
use vm_blocks::VmBlocks;
use vm_file::Device;

/// Whether a handle names a group whose count of locks can't rise.
fn is_full<D: Device + Drop>(vm: &VmBlocks<D>, blocks: &Blocks, g: u16) -> bool
    ensures { IsTrue result ↔ IsGroup vm.now g × (locks_of blocks.now (vm_slot g) ≡ 65535) }
{
    is_group(vm, g) && blocks.locks(Name::vm(g)) == u16::MAX
}

/// Locks a group once more, after loading it into memory, for an item of at least `len` bytes: returns the item's
/// offset in the group, and its length. `BadHandle` if no group has this handle, `Locked` if its lock count is 65,535,
/// `NoRoom` and `Disk` if it can't be loaded, `BadChunk` if it has no such item, `Short` if the item has fewer bytes.
/// The group is locked only if the call succeeds.
pub fn item_lock_part<D: Device + Drop>(
    vm: &mut VmBlocks<D>,
    blocks: &mut Blocks,
    group: u16,
    item: u16,
    len: u16,
) -> Result<(usize, u16), Refusal>
    requires { IsTied D.medium vm.old blocks.old }
    ensures { LocksItem D.medium group item len result vm.old vm.new blocks.old blocks.new }
{
    if is_full(vm, blocks, group) {
        return Err(Refusal::Locked);
    }
    match bring_group(vm, blocks, group) {
        Ok(()) => {}
        Err(refusal) => return Err(refusal),
    }
    let place = match find(
        blocks.bytes(Name::vm(group)),
        Refer::Deref { c: item, n: len },
    ) {
        Ok(place) => place,
        Err(why) => return Err(why),
    };
    let _ = blocks.lock(Name::vm(group));
    Ok(place)
}

/// Locks a group once more for an item of any length. It is refused as `item_lock_part` is, but never
/// with `Short`.
pub fn item_lock<D: Device + Drop>(
    vm: &mut VmBlocks<D>,
    blocks: &mut Blocks,
    group: u16,
    item: u16,
) -> Result<(usize, u16), Refusal>
    requires { IsTied D.medium vm.old blocks.old }
    ensures not_short { result ≡ Err Refusal.Short → ⊥ }
    ensures locks { LocksItem D.medium group item 0 result vm.old vm.new blocks.old blocks.new }
{
    item_lock_part(vm, blocks, group, item, 0)
}

/// Marks a group that is in memory as changed.
pub fn item_dirty<D: Device + Drop>(vm: &mut VmBlocks<D>, blocks: &Blocks, group: u16)
    requires tied { IsTied D.medium vm.old blocks.now }
    requires there { IsThere blocks.now (vm_slot group) }
    ensures tied { IsTied D.medium vm.new blocks.now }
    ensures marks { vm.new ≡ with_held vm.old group (option_map marked (held_at vm.old group)) }
    // Its row of the table of calls, in each memory that the model may have before it.
    ensures row { DoesRow D.medium (idirty group) (Ok tt) vm.old blocks.now vm.new blocks.now }
{
    vm.vdirty(blocks, group);
}

/// Takes back one lock of a group. It stays in memory.
pub fn item_unlock<D: Device + Drop>(vm: &VmBlocks<D>, blocks: &mut Blocks, group: u16)
    requires tied { IsTied D.medium vm.now blocks.old }
    requires locked { 0 < locks_of blocks.old (vm_slot group) }
    ensures tied { IsTied D.medium vm.now blocks.new }
    ensures less { blocks.new ≡ with_lock_less blocks.old (vm_slot group) }
    // Its row of the table of calls, in each memory that the model may have before it.
    ensures row { DoesRow D.medium (iunlock group) (Ok tt) vm.now blocks.old vm.now blocks.new }
{
    vm.vunlock(blocks, group);
}
