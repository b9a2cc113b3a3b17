//! Chunks that get another length.
ghost use Rattle.std.specs.Prelude.{◌≡◌, ◌≢◌, ◌+◌, ◌<◌, ◌≤◌, length, slice_set, IfErr, IsSome, OnErr, OnOk};
ghost use Rattle.geos_terms.specs.Chunks.{bytes_of, chunk_of, entry_bytes, need, with_deleted, with_inserted, with_resized};
ghost use Rattle.geos_terms.specs.Block.{chunks, entries, entry, handle_word};
ghost use Rattle.geos_terms.specs.Heap.{IsHeap};
ghost use Rattle.lmem_heap.specs.Changes.{closed, entry_resized, opened};
ghost use Rattle.lmem_heap.specs.Refusals.{IsRoomError, IsReallocError, IsInsertError, IsDeleteError};

use crate::chunks::resize_chunk;
use crate::error::{DeleteError, InsertError, ReallocError, RoomError};
use crate::room::{room_for, used_with};
use lmem_block::{clear, find, move_bytes, place_of_entry};

/// Gives a chunk `len` bytes: its first ones that fit, and zeros after them. Other chunks may
/// move.
///
/// `BadChunk` exactly if no chunk has this handle; otherwise `Room` if the block has no room:
/// see `alloc`.
pub fn realloc(block: &mut [u8], chunk: u16, len: u16) -> Result<(), ReallocError>
    requires { IsHeap block.old }
    ensures heap { IsHeap block.new }
    ensures handle { handle_word block.new ≡ handle_word block.old }
    ensures ok { let old = chunks block.old in OnOk result (IsSome (chunk_of old chunk) × (chunks block.new ≡ with_resized old chunk len)) }
    ensures fits { OnOk result (need (with_resized (chunks block.old) chunk len) ≤ length block.old) }
    ensures refused { IfErr result (λ e. IsReallocError e (chunks block.old) (length block.old) chunk len) }
    ensures err { OnErr result (block.new ≡ block.old) }
{
    let i = find(block, chunk)?;
    resize(block, i, len as usize)?;
    Ok(())
}

/// Inserts `count` zero bytes at an offset of a chunk. Other chunks may move.
///
/// `BadChunk` exactly if no chunk has this handle; otherwise `Range` if `at` is past the
/// chunk's length; otherwise `Room` if the block has no room: see `alloc`.
pub fn insert(block: &mut [u8], chunk: u16, at: u16, count: u16) -> Result<(), InsertError>
    requires { IsHeap block.old }
    ensures heap { IsHeap block.new }
    ensures handle { handle_word block.new ≡ handle_word block.old }
    ensures ok { let old = chunks block.old in
        OnOk result (IsSome (chunk_of old chunk) × (at ≤ length (bytes_of old chunk)) × (chunks block.new ≡ with_inserted old chunk at count)) }
    ensures fits { OnOk result (need (with_inserted (chunks block.old) chunk at count) ≤ length block.old) }
    ensures refused { IfErr result (λ e. IsInsertError e (chunks block.old) (length block.old) chunk at count) }
    ensures err { OnErr result (block.new ≡ block.old) }
{
    let i = find(block, chunk)?;
    let (_, len) = place_of_entry(block, i);
    if at > len {
        return Err(InsertError::Range);
    }
    resize(block, i, len as usize + count as usize)?;
    open_bytes(block, i, at as usize, count as usize);
    Ok(())
}

/// Deletes the `count` bytes at an offset of a chunk. Other chunks may move.
///
/// `BadChunk` exactly if no chunk has this handle; otherwise `Range` if `at + count` is past the
/// chunk's length.
pub fn delete(block: &mut [u8], chunk: u16, at: u16, count: u16) -> Result<(), DeleteError>
    requires { IsHeap block.old }
    ensures heap { IsHeap block.new }
    ensures handle { handle_word block.new ≡ handle_word block.old }
    ensures ok { let old = chunks block.old in
        OnOk result (IsSome (chunk_of old chunk) × (at + count ≤ length (bytes_of old chunk))
        × (chunks block.new ≡ with_deleted old chunk at count)) }
    ensures refused { IfErr result (λ e. IsDeleteError e (chunks block.old) chunk at count) }
    ensures err { OnErr result (block.new ≡ block.old) }
{
    let i = find(block, chunk)?;
    let (_, len) = place_of_entry(block, i);
    let (at, count, len) = (at as usize, count as usize, len as usize);
    if at + count > len {
        return Err(DeleteError::Range);
    }
    close_bytes(block, i, at, count);
    resize_chunk(block, i, (len - count) as u16);
    Ok(())
}

/// Gives an entry's chunk n bytes, if the block has room.
fn resize(block: &mut [u8], i: usize, n: usize) -> Result<(), RoomError>
    requires heap { IsHeap block.old }
    requires known { i < entries block.old }
    requires used { entry block.old i ≢ 0 }
    requires small { n ≤ 131070 }
    ensures heap { IsHeap block.new }
    ensures handle { handle_word block.new ≡ handle_word block.old }
    ensures ok { OnOk result (chunks block.new ≡ entry_resized (chunks block.old) i n) }
    ensures fits { OnOk result (need (entry_resized (chunks block.old) i n) ≤ length block.old) }
    ensures refused { IfErr result (λ e. IsRoomError e (need (entry_resized (chunks block.old) i n)) (length block.old)) }
    ensures err { OnErr result (block.new ≡ block.old) }
{
    let used = used_with(block, i, n);
    room_for(used, block.len())?;
    resize_chunk(block, i, n as u16);
    Ok(())
}

/// Moves the bytes of a chunk from an offset on up by n, and writes zeros there. Its last n
/// bytes go.
fn open_bytes(block: &mut [u8], i: usize, at: usize, n: usize)
    requires heap { IsHeap block.old }
    requires known { i < entries block.old }
    requires used { entry block.old i ≢ 0 }
    requires within { at + n ≤ length (entry_bytes (chunks block.old) i) }
    ensures heap { IsHeap block.new }
    ensures handle { handle_word block.new ≡ handle_word block.old }
    ensures chunks { chunks block.new ≡ slice_set (chunks block.old) i (Some (opened (entry_bytes (chunks block.old) i) at n)) }
{
    let (begin, len) = place_of_entry(block, i);
    let begin = begin + at;
    move_bytes(block, begin, begin + n, len as usize - (at + n));
    clear(block, begin, n);
}

/// Moves the bytes of a chunk that follow n bytes down over them.
fn close_bytes(block: &mut [u8], i: usize, at: usize, n: usize)
    requires heap { IsHeap block.old }
    requires known { i < entries block.old }
    requires used { entry block.old i ≢ 0 }
    requires within { at + n ≤ length (entry_bytes (chunks block.old) i) }
    ensures heap { IsHeap block.new }
    ensures handle { handle_word block.new ≡ handle_word block.old }
    ensures chunks { chunks block.new ≡ slice_set (chunks block.old) i (Some (closed (entry_bytes (chunks block.old) i) at n)) }
{
    let (begin, len) = place_of_entry(block, i);
    let begin = begin + at;
    move_bytes(block, begin + n, begin, len as usize - (at + n));
}
