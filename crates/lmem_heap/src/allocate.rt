//! Chunks that are made and freed.
ghost use Rattle.std.specs.Prelude.{◌≡◌, ◌<◌, ◌≤◌, length, IfErr, IfOk, IsSome, OnErr, OnOk};
ghost use Rattle.geos_terms.specs.Chunks.{chunk_of, lowest_entry, need, new_handle, used_bytes, with_entry, with_new, without};
ghost use Rattle.geos_terms.specs.Block.{chunks, entries, entry, handle_word};
ghost use Rattle.geos_terms.specs.Heap.{IsHeap};
ghost use Rattle.lmem_heap.specs.Refusals.{IsRoomError};

use crate::chunks::{new_chunk, release_chunk};
use crate::error::RoomError;
use crate::room::{room_for, used_with_new};
use crate::table::{add_entries, lowest_entry};
use lmem_block::{BadChunk, entries, find, handle_of};

/// Makes a chunk of `len` zero bytes and returns its handle, the lowest one that is not in use.
/// If all entries of the table are in use, the table gets two more. Other chunks may move.
///
/// `NeedMore` with the size that the block needs if the block is smaller; `TooBig` if no block
/// is that large.
pub fn alloc(block: &mut [u8], len: u16) -> Result<u16, RoomError>
    requires { IsHeap block.old }
    ensures heap { IsHeap block.new }
    ensures handle { handle_word block.new ≡ handle_word block.old }
    ensures ok { IfOk result (λ c. (c ≡ new_handle (chunks block.old)) × (chunks block.new ≡ with_new (chunks block.old) len)) }
    ensures fits { OnOk result (need (with_new (chunks block.old) len) ≤ length block.old) }
    ensures refused { IfErr result (λ e. IsRoomError e (need (with_new (chunks block.old) len)) (length block.old)) }
    ensures err { OnErr result (block.new ≡ block.old) }
{
    let i = lowest_entry(block);
    let used = used_with_new(block, i, len);
    room_for(used, block.len())?;
    make_entry(block, i);
    new_chunk(block, i, len);
    Ok(handle_of(i))
}

/// Sees that the table has an entry for a new chunk.
fn make_entry(block: &mut [u8], i: usize)
    requires heap { IsHeap block.old }
    requires lowest { i ≡ lowest_entry (chunks block.old) }
    requires room { used_bytes (with_entry (chunks block.old)) ≤ length block.old }
    ensures heap { IsHeap block.new }
    ensures chunks { chunks block.new ≡ with_entry (chunks block.old) }
    ensures handle { handle_word block.new ≡ handle_word block.old }
    ensures known { i < entries block.new }
    ensures free { entry block.new i ≡ 0 }
{
    if i == entries(block) {
        add_entries(block);
    }
}

/// Frees a chunk: its handle has no chunk then, and its bytes are free. Other chunks may move.
/// `BadChunk` exactly if no chunk has this handle.
pub fn free(block: &mut [u8], chunk: u16) -> Result<(), BadChunk>
    requires { IsHeap block.old }
    ensures heap { IsHeap block.new }
    ensures handle { handle_word block.new ≡ handle_word block.old }
    ensures ok { OnOk result (IsSome (chunk_of (chunks block.old) chunk) × (chunks block.new ≡ without (chunks block.old) chunk)) }
    ensures bad { OnErr result (chunk_of (chunks block.old) chunk ≡ None) }
    ensures err { OnErr result (block.new ≡ block.old) }
{
    let i = find(block, chunk)?;
    release_chunk(block, i);
    Ok(())
}
