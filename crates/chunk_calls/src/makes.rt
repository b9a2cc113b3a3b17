//! New chunks in a block of the region, which may have to grow for them.

ghost use Rattle.std.specs.Prelude.{◌≡◌, Err, OnErr};
ghost use Rattle.geos_calls.specs.ChunkCalls.{make_edit, make_row};
ghost use Rattle.chunk_calls.specs.Calls.{CallsChunks, HoldsTied};
ghost use Rattle.chunk_calls.specs.Edits.{DiscardsAndEdits, Tries};
ghost use Rattle.chunk_calls.specs.Heaps.{HoldsHeap};
ghost use Rattle.chunk_calls.specs.declared.obstacle.Obstacle.TheVariants.{Room};

use crate::growth::make_room;
use crate::obstacle::Obstacle;
use block_handles::Blocks;
use geos_calls::Make;
use geos_terms::{Name, Refusal};
use lmem_heap::RoomError;
use vm_blocks::VmBlocks;
use vm_file::Device;

/// Makes a chunk in a block that is in memory, and returns its handle: the lowest one of the block that is free. The
/// block grows, and others are evicted, as in `change`; `TooBig` and `NoRoom` as there. It does not mark a block of the
/// file. Inlined, as `change` is.
#[inline(always)]
pub fn make_chunk<D: Device + Drop>(
    vm: &VmBlocks<D>,
    blocks: &mut Blocks,
    name: Name,
    make: Make,
) -> Result<u16, Refusal>
    requires { HoldsTied D.medium vm.now blocks.old name }
    ensures comes { DiscardsAndEdits vm.now (make_edit make) blocks.old blocks.new name result }
    // Its row of the table of calls, in each memory that the model may have before it; and what it leaves of all else.
    ensures calls { CallsChunks D.medium (make_row name make) name result vm.now blocks.old blocks.new }
{
    let made = match try_make(blocks, name, make) {
        Ok(c) => Ok(c),
        Err(Obstacle::Refused(refusal)) => Err(refusal),
        Err(Obstacle::Room(room)) => grow_and_make(vm, blocks, name, make, room),
    };
    // what lies in the region are bytes, as the block is to encode
    let _ = blocks.region();
    made
}

/// Makes the room that a chunk needs, and makes the chunk.
// A function of its own, so that the chunks that need no room are inlined.
#[cold]
#[inline(never)]
fn grow_and_make<D: Device + Drop>(
    vm: &VmBlocks<D>,
    blocks: &mut Blocks,
    name: Name,
    make: Make,
    room: RoomError,
) -> Result<u16, Refusal>
    requires holds { HoldsTied D.medium vm.now blocks.old name }
    requires tried { Tries (make_edit make) blocks.old blocks.old name (Err (Room room)) }
    ensures comes { DiscardsAndEdits vm.now (make_edit make) blocks.old blocks.new name result }
    ensures refused { (result ≡ Err Refusal.NoRoom → ⊥) → OnErr result (blocks.new ≡ blocks.old) }
{
    match make_room(vm, blocks, name, room) {
        Ok(()) => {}
        Err(refusal) => return Err(refusal),
    }
    match try_make(blocks, name, make) {
        Ok(c) => Ok(c),
        Err(_) => unreachable!(),
    }
}

/// Makes a chunk in a block that stays as large as it is.
// Each arm takes the bytes for itself, as for changes.
#[inline(always)]
fn try_make(blocks: &mut Blocks, name: Name, make: Make) -> Result<u16, Obstacle>
    requires { HoldsHeap blocks.old name }
    ensures { Tries (make_edit make) blocks.old blocks.new name result }
{
    match make {
        Make::Lalloc { n } => {
            lmem_heap::alloc(blocks.bytes_mut(name), n).map_err(Obstacle::Room)
        }
        Make::Canew { element_size } => {
            chunk_array::create(blocks.bytes_mut(name), element_size).map_err(Obstacle::Room)
        }
    }
}
