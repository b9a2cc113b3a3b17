//! Items that are made, freed, and get other lengths.
ghost use Rattle.geos_terms.specs.Edits.{alloc, delete_bytes, free, insert_bytes, realloc};
ghost use Rattle.geos_calls.specs.ItemCalls.{idel, ifree, iins, inew, irealloc};
ghost use Rattle.vm_blocks.specs.Tied.{IsTied};
ghost use Rattle.db_items.specs.Items.{ChangesItem};

use crate::changes::{item_change, item_make};
use block_handles::Blocks;
use geos_calls::{Change, Make};
use geos_terms::Refusal;
use vm_blocks::VmBlocks;
use vm_file::Device;

/// Makes an item of `len` zero bytes, and returns its handle: the lowest one of the group that is free. `BadHandle` if
/// no group has this handle; `NoRoom` and `Disk` if it can't be loaded; `TooBig` if it would need more than 65,520
/// bytes; `NoRoom` if it must grow and no stretch of the region has room for it. The group is marked if the call
/// succeeds.
pub fn item_new<D: Device + Drop>(
    vm: &mut VmBlocks<D>,
    blocks: &mut Blocks,
    group: u16,
    len: u16,
) -> Result<u16, Refusal>
    requires { IsTied D.medium vm.old blocks.old }
    ensures { ChangesItem D.medium (inew group len) (alloc len) group result vm.old vm.new blocks.old blocks.new }
{
    item_make(vm, blocks, group, Make::Lalloc { n: len })
}

/// Frees an item. `BadHandle`, `NoRoom` and `Disk` as for `item_new`, and `BadChunk` if the group has no such item.
pub fn item_free<D: Device + Drop>(
    vm: &mut VmBlocks<D>,
    blocks: &mut Blocks,
    group: u16,
    item: u16,
) -> Result<(), Refusal>
    requires { IsTied D.medium vm.old blocks.old }
    ensures { ChangesItem D.medium (ifree group item) (free item) group result vm.old vm.new blocks.old blocks.new }
{
    item_change(vm, blocks, group, Change::Lfree { c: item })
}

/// Resizes an item to `len` bytes: keeps the first bytes that fit, and adds zeros. It
/// is refused as `item_free` is, and then with `TooBig` and `NoRoom` as `item_new` is.
pub fn item_realloc<D: Device + Drop>(
    vm: &mut VmBlocks<D>,
    blocks: &mut Blocks,
    group: u16,
    item: u16,
    len: u16,
) -> Result<(), Refusal>
    requires { IsTied D.medium vm.old blocks.old }
    ensures { ChangesItem D.medium (irealloc group item len) (realloc item len) group result vm.old vm.new blocks.old blocks.new }
{
    item_change(vm, blocks, group, Change::Lrealloc { c: item, n: len })
}

/// Puts `len` zero bytes into an item at an offset. It is refused as `item_realloc` is, with `Range` after
/// `BadChunk` if the offset is past the item's end.
pub fn item_insert<D: Device + Drop>(
    vm: &mut VmBlocks<D>,
    blocks: &mut Blocks,
    group: u16,
    item: u16,
    at: u16,
    len: u16,
) -> Result<(), Refusal>
    requires { IsTied D.medium vm.old blocks.old }
    ensures { ChangesItem D.medium (iins group item at len) (insert_bytes item at len)
        group result vm.old vm.new blocks.old blocks.new }
{
    item_change(
        vm,
        blocks,
        group,
        Change::Lins {
            c: item,
            at,
            n: len,
        },
    )
}

/// Takes `len` bytes out of an item at an offset. It is refused as `item_free` is, with `Range` after
/// `BadChunk` if the bytes go past the item's end.
pub fn item_delete<D: Device + Drop>(
    vm: &mut VmBlocks<D>,
    blocks: &mut Blocks,
    group: u16,
    item: u16,
    at: u16,
    len: u16,
) -> Result<(), Refusal>
    requires { IsTied D.medium vm.old blocks.old }
    ensures { ChangesItem D.medium (idel group item at len) (delete_bytes item at len)
        group result vm.old vm.new blocks.old blocks.new }
{
    item_change(
        vm,
        blocks,
        group,
        Change::Ldel {
            c: item,
            at,
            n: len,
        },
    )
}
