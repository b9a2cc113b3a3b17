//! Changes of the chunks of a block of the region, which may have to grow for them.

ghost use Rattle.std.specs.Prelude.{◌≡◌, Ok, Err, OnErr};
ghost use Rattle.geos_terms.specs.Edits.{contract};
ghost use Rattle.geos_terms.specs.Heap.{IsCompact};
ghost use Rattle.block_handles.specs.Names.{slot_of};
ghost use Rattle.block_handles.specs.Store.{bytes_of};
ghost use Rattle.geos_calls.specs.ChunkCalls.{change_edit, change_row, may_grow};
ghost use Rattle.chunk_calls.specs.Calls.{CallsChunks, HoldsTied};
ghost use Rattle.chunk_calls.specs.Edits.{Carries, DiscardsAndEdits, IsOwn, Tries};
ghost use Rattle.chunk_calls.specs.Heaps.{HoldsHeap};
ghost use Rattle.chunk_calls.specs.declared.obstacle.Obstacle.TheVariants.{Room};

use crate::growth::make_room;
use crate::obstacle::{
    Obstacle, why_no_array, why_no_chunk, why_no_element, why_not_appended, why_not_deleted,
    why_not_grown, why_not_inserted, why_not_resized,
};
use block_handles::Blocks;
use geos_calls::Change;
use geos_terms::{Name, Refusal};
use lmem_heap::RoomError;
use vm_blocks::VmBlocks;
use vm_file::Device;

/// Makes a change in a block that is in memory, for which it grows where it must, and blocks of the
/// file that can be read again are discarded where that needs room. `BadChunk`, `BadArray`,
/// `BadElement` and `Range` as the value's row says; `TooBig` if the block would need more than
/// 65,520 bytes; `NoRoom` if it must grow and no stretch of the region has room for it, though
/// none is left that could be discarded. A refusal leaves every block that is not discarded as it
/// was.
///
/// It does not mark a block of the file: the caller marks it before, or immediately afterwards.
/// After `Lcontract` the free bytes of the block are in one piece, at its end.
// Made in place, as the calls of it in the kernel and the machine are, so that the caller's choice of the change is known here.
#[inline(always)]
pub fn change<D: Device + Drop>(
    vm: &VmBlocks<D>,
    blocks: &mut Blocks,
    name: Name,
    change: Change,
) -> Result<(), Refusal>
    requires { HoldsTied D.medium vm.now blocks.old name }
    ensures carries { Carries (may_grow change) vm.now (change_edit change) blocks.old blocks.new name result }
    // Its row of the table of calls, in each memory that the model may have before it; and what it leaves of all else.
    ensures calls { CallsChunks D.medium (change_row name change) name result vm.now blocks.old blocks.new }
    ensures compact { change ≡ Change.Lcontract → IsCompact (bytes_of blocks.new (slot_of name)) }
{
    let done = match try_change(blocks, name, change) {
        Ok(()) => Ok(()),
        Err(Obstacle::Refused(refusal)) => Err(refusal),
        Err(Obstacle::Room(room)) => grow_and_change(vm, blocks, name, change, room),
    };
    // what lies in the region are bytes, as the block is to encode
    let _ = blocks.region();
    done
}

/// Makes the room that a change needs, and makes the change.
// A function of its own, so that the changes that need no room are inlined.
#[inline(never)]
fn grow_and_change<D: Device + Drop>(
    vm: &VmBlocks<D>,
    blocks: &mut Blocks,
    name: Name,
    change: Change,
    room: RoomError,
) -> Result<(), Refusal>
    requires holds { HoldsTied D.medium vm.now blocks.old name }
    requires tried { Tries (change_edit change) blocks.old blocks.old name (Err (Room room)) }
    ensures comes { DiscardsAndEdits vm.now (change_edit change) blocks.old blocks.new name result }
    ensures refused { (result ≡ Err Refusal.NoRoom → ⊥) → OnErr result (blocks.new ≡ blocks.old) }
{
    match make_room(vm, blocks, name, room) {
        Ok(()) => {}
        Err(refusal) => return Err(refusal),
    }
    match try_change(blocks, name, change) {
        Ok(()) => Ok(()),
        Err(_) => unreachable!(),
    }
}

/// Moves the chunks of a block together, so that its free bytes are in one piece, at its end.
/// Handles and bytes stay.
#[inline(never)]
pub fn contract(blocks: &mut Blocks, name: Name)
    requires { HoldsHeap blocks.old name }
    ensures tries { Tries contract blocks.old blocks.new name (Ok tt) }
    ensures compact { IsCompact (bytes_of blocks.new (slot_of name)) }
{
    lmem_heap::contract(blocks.bytes_mut(name));
}

/// Makes a change in a block that stays as large as it is.
// Each arm takes the block's bytes for itself, so that the compiler makes one of this match and of
// the match by which a caller chose the change.
#[inline(always)]
fn try_change(blocks: &mut Blocks, name: Name, change: Change) -> Result<(), Obstacle>
    requires { HoldsHeap blocks.old name }
    ensures tries { Tries (change_edit change) blocks.old blocks.new name result }
    ensures own { IsOwn (may_grow change) result }
    ensures compact { change ≡ Change.Lcontract → IsCompact (bytes_of blocks.new (slot_of name)) }
{
    match change {
        Change::Lfree { c } => lmem_heap::free(blocks.bytes_mut(name), c)
            .map_err(why_no_chunk)
            .map_err(Obstacle::Refused),
        Change::Lrealloc { c, n } => {
            lmem_heap::realloc(blocks.bytes_mut(name), c, n).map_err(why_not_resized)
        }
        Change::Lins { c, at, n } => {
            lmem_heap::insert(blocks.bytes_mut(name), c, at, n).map_err(why_not_inserted)
        }
        Change::Ldel { c, at, n } => lmem_heap::delete(blocks.bytes_mut(name), c, at, n)
            .map_err(why_not_deleted)
            .map_err(Obstacle::Refused),
        Change::Lcontract => {
            contract(blocks, name);
            Ok(())
        }
        Change::Caadd { c, n } => {
            chunk_array::append(blocks.bytes_mut(name), c, n).map_err(why_not_appended)
        }
        Change::Cains { c, i, n } => {
            chunk_array::insert(blocks.bytes_mut(name), c, i, n).map_err(why_not_grown)
        }
        Change::Cadel { c, i } => chunk_array::remove(blocks.bytes_mut(name), c, i)
            .map_err(why_no_element)
            .map_err(Obstacle::Refused),
        Change::Cazero { c } => chunk_array::clear(blocks.bytes_mut(name), c)
            .map_err(why_no_array)
            .map_err(Obstacle::Refused),
        Change::Caresize { c, i, n } => {
            chunk_array::resize_element(blocks.bytes_mut(name), c, i, n).map_err(why_not_grown)
        }
    }
}
