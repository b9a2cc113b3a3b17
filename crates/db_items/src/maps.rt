//! The map item.
ghost use Rattle.std.specs.Prelude.{◌≡◌, ◌≢◌, ◌↔◌, Ok, Err, OnOk, OnErr};
ghost use Rattle.block_handles.specs.Store.{Store};
ghost use Rattle.geos_calls.specs.ItemCalls.{igetmap, isetmap};
ghost use Rattle.vm_blocks.specs.DoesRow.{DoesRow};
ghost use Rattle.vm_blocks.specs.Tied.{IsTied};
ghost use Rattle.db_items.specs.Groups.{IsGroup};

use crate::groups::is_group;
use geos_terms::Refusal;
use vm_blocks::VmBlocks;
use vm_file::Device;

/// The map item: its group, 0 for none, and the item.
pub fn map_item<D: Device + Drop>(vm: &VmBlocks<D>) -> (u16, u16)
    ensures item { result ≡ vm.now.map_item }
    // Its row of the table of calls, in each memory that the model may have before it.
    ensures row { (s : Store) → IsTied D.medium vm.now s → DoesRow D.medium igetmap (Ok result) vm.now s vm.now s }
{
    vm.map_item()
}

/// Names the map item: a group, and any number for an item of it; or 0 and 0 for none. `BadHandle` if
/// the group is neither 0 nor a group, `Range` if it is 0 and the item is not; nothing changes then.
pub fn set_map_item<D: Device + Drop>(
    vm: &mut VmBlocks<D>,
    group: u16,
    item: u16,
) -> Result<(), Refusal>
    ensures tied { (s : Store) → IsTied D.medium vm.old s → IsTied D.medium vm.new s }
    ensures bad_handle { (result ≡ Err Refusal.BadHandle) ↔ (group ≢ 0) × (IsGroup vm.old group → ⊥) }
    ensures range { (result ≡ Err Refusal.Range) ↔ (group ≡ 0) × (item ≢ 0) }
    ensures ok { OnOk result (vm.new ≡ record vm.old { map_item = (group, item) }) }
    ensures err { OnErr result (vm.new ≡ vm.old) }
    // Its row of the table of calls, in each memory that the model may have before it.
    ensures row { (s : Store) → IsTied D.medium vm.old s → DoesRow D.medium (isetmap group item) result vm.old s vm.new s }
{
    if group != 0 && !is_group(vm, group) {
        return Err(Refusal::BadHandle);
    }
    if group == 0 && item != 0 {
        return Err(Refusal::Range);
    }
    vm.put_map_item(group, item);
    Ok(())
}
