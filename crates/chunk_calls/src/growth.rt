//! Blocks that grow if their heaps need more room.

ghost use Rattle.std.specs.Prelude.{◌≡◌, ◌<◌, ◌≤◌, ◌%◌};
ghost use Rattle.geos_terms.specs.Heap.{most_block_bytes};
ghost use Rattle.chunk_calls.specs.Calls.{HoldsTied};
ghost use Rattle.chunk_calls.specs.Heaps.{AsksFor, Enlarges, GivesRoom, size_at};

use block_handles::Blocks;
use geos_terms::{Name, Refusal};
use lmem_heap::{RoomError, enlarged};
use vm_blocks::{NoRoom, VmBlocks};
use vm_file::Device;

/// Enlarges a block, and frees the new bytes in its heap. `NoRoom` if no stretch
/// of the region has room for it, although all idle blocks were evicted.
fn enlarge<D: Device + Drop>(
    vm: &VmBlocks<D>,
    blocks: &mut Blocks,
    name: Name,
    size: u16,
) -> Result<(), Refusal>
    requires holds { HoldsTied D.medium vm.now blocks.old name }
    requires larger { size_at blocks.old name < size }
    requires legal { (size ≤ most_block_bytes) × (size % 16 ≡ 0) }
    ensures { Enlarges vm.now blocks.old blocks.new name size result }
{
    let old_size = blocks.size(name) as u16;
    match vm.grow_room(blocks, name, u32::from(size)) {
        Ok(()) => {}
        Err(NoRoom) => return Err(Refusal::NoRoom),
    }
    enlarged(blocks.bytes_mut(name), old_size);
    Ok(())
}

/// Makes the room that a heap asked for.
pub(crate) fn make_room<D: Device + Drop>(
    vm: &VmBlocks<D>,
    blocks: &mut Blocks,
    name: Name,
    room: RoomError,
) -> Result<(), Refusal>
    requires holds { HoldsTied D.medium vm.now blocks.old name }
    requires asks { AsksFor room (size_at blocks.old name) }
    ensures { GivesRoom vm.now room result blocks.old blocks.new name }
{
    match room {
        RoomError::TooBig => Err(Refusal::TooBig),
        RoomError::NeedMore(size) => enlarge(vm, blocks, name, size),
    }
}
