//! Elements that get another size.
ghost use Rattle.std.specs.Prelude.{◌≡◌, ◌+◌, ◌≤◌, length, IfErr, IsSome, OnErr, OnOk};
ghost use Rattle.geos_terms.specs.Arrays.{element, with_element_bytes};
ghost use Rattle.geos_terms.specs.ArrayEdits.{resize_element};
ghost use Rattle.geos_terms.specs.Block.{chunks, handle_word};
ghost use Rattle.geos_terms.specs.Chunks.{bytes_of, chunk_of, need, resized, with_bytes, with_resized_part};
ghost use Rattle.geos_terms.specs.Heap.{IsHeap, most_block_bytes};
ghost use Rattle.geos_terms.specs.Refusals.{first_refusal};
ghost use Rattle.lmem_heap.specs.Refusals.{IsRoomError};
ghost use Rattle.chunk_array.specs.Changes.{ChangesArray};
ghost use Rattle.chunk_array.specs.GrowthErrors.{IsGrowthError};

use crate::change::put_offsets;
use crate::error::{ArrayError, GrowthError};
use crate::look::find;
use lmem_heap::{InsertError, RoomError, delete};

/// Gives an element of an array whose sizes vary `len` bytes: its first ones that fit, and zeros
/// after them. Other chunks may move.
///
/// `BadChunk` exactly if no chunk has this handle; otherwise `BadArray` if its bytes are no
/// array, or elements have one size; otherwise `BadElement` if `index` is not below the count; otherwise
/// `Room` if the block has no room: see `append`.
pub fn resize_element(block: &mut [u8], chunk: u16, index: u16, len: u16) -> Result<(), GrowthError>
    requires { IsHeap block.old }
    ensures heap { IsHeap block.new }
    ensures handle { handle_word block.new ≡ handle_word block.old }
    ensures ok { let e = resize_element chunk index len (chunks block.old) in
        OnOk result ((first_refusal e.refusals ≡ None) × (chunks block.new ≡ e.chunks)) }
    ensures array { OnOk result (ChangesArray (chunks block.old) (chunks block.new) chunk
        (λ a. with_element_bytes a index (resized (element a index) len))) }
    ensures fits { OnOk result (need (resize_element chunk index len (chunks block.old)).chunks ≤ length block.old) }
    ensures refused { let e = resize_element chunk index len (chunks block.old) in
        IfErr result (λ why. IsGrowthError why e.refusals (need e.chunks) (length block.old)) }
    ensures err { OnErr result (block.new ≡ block.old) }
{
    let found = match find(block, chunk) {
        Ok(found) => found,
        Err(ArrayError::BadChunk) => return Err(GrowthError::BadChunk),
        Err(ArrayError::BadArray) => return Err(GrowthError::BadArray),
    };
    if found.shape.element_size != 0 {
        return Err(GrowthError::BadArray);
    }
    if index >= found.shape.count {
        return Err(GrowthError::BadElement);
    }
    let element = found.place(block, index as usize);
    match resize_part(block, chunk, element.begin, element.len, len) {
        Ok(()) => {}
        Err(room) => return Err(GrowthError::Room(room)),
    }
    put_offsets(block, chunk, found.shape, element, len as usize);
    Ok(())
}

/// Resizes the part of a chunk at an offset from `has` bytes to n: keeps
/// its first bytes that fit, and adds zeros. All room is made first.
fn resize_part(block: &mut [u8], c: u16, at: usize, has: usize, n: u16) -> Result<(), RoomError>
    requires heap { IsHeap block.old }
    requires chunk { IsSome (chunk_of (chunks block.old) c) }
    requires within { at + has ≤ length (bytes_of (chunks block.old) c) }
    requires small { length (bytes_of (chunks block.old) c) ≤ most_block_bytes }
    ensures heap { IsHeap block.new }
    ensures handle { handle_word block.new ≡ handle_word block.old }
    ensures ok { let old = chunks block.old in OnOk result (chunks block.new ≡ with_bytes old c (with_resized_part (bytes_of old c) at has n)) }
    ensures fits { let old = chunks block.old in
        OnOk result (need (with_bytes old c (with_resized_part (bytes_of old c) at has n)) ≤ length block.old) }
    ensures refused { let old = chunks block.old in
        IfErr result (λ e. IsRoomError e (need (with_bytes old c (with_resized_part (bytes_of old c) at has n))) (length block.old)) }
    ensures err { OnErr result (block.new ≡ block.old) }
{
    let n = n as usize;
    if n > has {
        match lmem_heap::insert(block, c, (at + has) as u16, (n - has) as u16) {
            Ok(()) => return Ok(()),
            Err(InsertError::Room(room)) => return Err(room),
            Err(_) => unreachable!(),
        }
    }
    match delete(block, c, (at + n) as u16, (has - n) as u16) {
        Ok(()) => Ok(()),
        Err(_) => unreachable!(),
    }
}
