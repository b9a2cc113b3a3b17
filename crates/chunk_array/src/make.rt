//! Arrays with no element.
ghost use Rattle.std.specs.Prelude.{◌≡◌, length, IfErr, IfOk, OnErr, OnOk, IsSomeAnd, ◌≤◌};
ghost use Rattle.geos_terms.specs.Refusals.{first_refusal};
ghost use Rattle.geos_terms.specs.Block.{chunks, handle_word};
ghost use Rattle.geos_terms.specs.Chunks.{bytes_of, chunk_of, need};
ghost use Rattle.geos_terms.specs.Heap.{IsHeap};
ghost use Rattle.geos_terms.specs.Arrays.{arr, empty, spelled};
ghost use Rattle.geos_terms.specs.ArrayEdits.{clear_array, create_array, with_array};
ghost use Rattle.lmem_heap.specs.Refusals.{IsRoomError};
ghost use Rattle.chunk_array.specs.ArrayErrors.{IsArrayError};
ghost use Rattle.chunk_array.specs.Changes.{ChangesArray};

use crate::error::ArrayError;
use crate::look::find;
use crate::shape::{COUNT, ELEMENT_SIZE, HEADER, HEADER_SIZE, ZERO};
use lmem_block::put16;
use lmem_heap::{RoomError, alloc, delete, place};

/// Makes an array with no element in a new chunk, and answers the chunk's handle: the lowest
/// one that is not in use. Elements will have `element_size` bytes each, or sizes of their own
/// where that is 0. Other chunks may move.
///
/// `NeedMore` names the size that the block needs, where it is larger than the block is;
/// `TooBig` if no block is that large.
pub fn create(block: &mut [u8], element_size: u16) -> Result<u16, RoomError>
    requires { IsHeap block.old }
    ensures heap { IsHeap block.new }
    ensures handle { handle_word block.new ≡ handle_word block.old }
    ensures ok { let e = create_array element_size (chunks block.old) in IfOk result (λ c. (c ≡ e.answer) × (chunks block.new ≡ e.chunks)) }
    ensures array { IfOk result (λ c. arr (bytes_of (chunks block.new) c) ≡ Some (empty element_size)) }
    ensures fits { OnOk result (need (create_array element_size (chunks block.old)).chunks ≤ length block.old) }
    ensures refused { IfErr result (λ e. IsRoomError e (need (create_array element_size (chunks block.old)).chunks) (length block.old)) }
    ensures err { OnErr result (block.new ≡ block.old) }
{
    let c = match alloc(block, HEADER as u16) {
        Ok(c) => c,
        Err(room) => return Err(room),
    };
    put_empty(block, c, element_size);
    Ok(c)
}

/// Takes all elements out of an array; their size stays. Other chunks may move.
///
/// `BadChunk` exactly if no chunk has this handle; otherwise `BadArray` if its bytes are no
/// array.
pub fn clear(block: &mut [u8], chunk: u16) -> Result<(), ArrayError>
    requires { IsHeap block.old }
    ensures heap { IsHeap block.new }
    ensures handle { handle_word block.new ≡ handle_word block.old }
    ensures ok { let e = clear_array chunk (chunks block.old) in OnOk result ((first_refusal e.refusals ≡ None) × (chunks block.new ≡ e.chunks)) }
    ensures array { OnOk result (ChangesArray (chunks block.old) (chunks block.new) chunk (λ a. empty a.element_size)) }
    ensures refused { IfErr result (λ e. IsArrayError e (clear_array chunk (chunks block.old)).refusals) }
    ensures err { OnErr result (block.new ≡ block.old) }
{
    let found = match find(block, chunk) {
        Ok(found) => found,
        Err(e) => return Err(e),
    };
    match delete(block, chunk, HEADER as u16, found.len - HEADER as u16) {
        Ok(()) => {}
        Err(_) => unreachable!(),
    }
    put_empty(block, chunk, found.shape.element_size);
    Ok(())
}

/// Writes the header of an array with no element over a chunk of its length.
fn put_empty(block: &mut [u8], chunk: u16, element_size: u16)
    requires heap { IsHeap block.old }
    requires chunk { IsSomeAnd (chunk_of (chunks block.old) chunk) (λ bytes. length bytes ≡ 8) }
    ensures heap { IsHeap block.new }
    ensures handle { handle_word block.new ≡ handle_word block.old }
    ensures chunks { chunks block.new ≡ with_array (chunks block.old) chunk (empty element_size) }
{
    let (at, len) = match place(block, chunk) {
        Ok(place) => place,
        Err(_) => unreachable!(),
    };
    let begin = at as usize;
    put_header(&mut block[begin..begin + len as usize], element_size);
}

/// Writes the header of an array with no element.
fn put_header(bytes: &mut [u8], element_size: u16)
    requires { length bytes.old ≡ 8 }
    ensures { bytes.new ≡ spelled (empty element_size) }
{
    put16(bytes, COUNT, 0);
    put16(bytes, ELEMENT_SIZE, element_size);
    put16(bytes, ZERO, 0);
    put16(bytes, HEADER_SIZE, HEADER as u16);
}
