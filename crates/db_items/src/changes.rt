//! Calls that change the chunks of a group: the two ways in.
ghost use Rattle.geos_terms.specs.Names.{vm as vm_name};
ghost use Rattle.geos_calls.specs.ChunkCalls.{change_edit, change_row, make_edit, make_row};
ghost use Rattle.geos_calls.specs.ItemCalls.{on_group};
ghost use Rattle.vm_blocks.specs.Tied.{IsTied};
ghost use Rattle.db_items.specs.Items.{ChangesItem};

use crate::groups::bring_group;
use block_handles::Blocks;
use chunk_calls::{change as change_chunks, make_chunk};
use geos_calls::{Change, Make};
use geos_terms::{Name, Refusal};
use vm_blocks::VmBlocks;
use vm_file::Device;

/// Makes a change in a group: loads the group into memory first, and marks it if the change is made. `BadHandle` if
/// no group has this handle; `NoRoom` and `Disk` if it can't be loaded; then what `chunk_calls::change` refuses.
pub fn item_change<D: Device + Drop>(
    vm: &mut VmBlocks<D>,
    blocks: &mut Blocks,
    group: u16,
    change: Change,
) -> Result<(), Refusal>
    requires { IsTied D.medium vm.old blocks.old }
    ensures { ChangesItem D.medium (on_group group (change_row (vm_name group) change)) (change_edit change)
        group result vm.old vm.new blocks.old blocks.new }
{
    match bring_group(vm, blocks, group) {
        Ok(()) => {}
        Err(refusal) => return Err(refusal),
    }
    match change_chunks(vm, blocks, Name::vm(group), change) {
        Ok(()) => {}
        Err(refusal) => return Err(refusal),
    }
    // what lies in the region are bytes, as the group is to encode
    let _ = blocks.region();
    vm.vdirty_changed(blocks, group);
    Ok(())
}

/// Makes a chunk in a group, which is brought into memory first and marked after it, and answers its
/// handle: the lowest one of the group that is free. It is refused as `item_change` is.
pub fn item_make<D: Device + Drop>(
    vm: &mut VmBlocks<D>,
    blocks: &mut Blocks,
    group: u16,
    make: Make,
) -> Result<u16, Refusal>
    requires { IsTied D.medium vm.old blocks.old }
    ensures { ChangesItem D.medium (on_group group (make_row (vm_name group) make)) (make_edit make)
        group result vm.old vm.new blocks.old blocks.new }
{
    match bring_group(vm, blocks, group) {
        Ok(()) => {}
        Err(refusal) => return Err(refusal),
    }
    let item = match make_chunk(vm, blocks, Name::vm(group), make) {
        Ok(item) => item,
        Err(refusal) => return Err(refusal),
    };
    // as in `item_change`
    let _ = blocks.region();
    vm.vdirty_changed(blocks, group);
    Ok(item)
}
