//! Adding elements.
ghost use Rattle.std.specs.Prelude.{◌≡◌, ◌≤◌, length, IfErr, OnErr, OnOk};
ghost use Rattle.geos_terms.specs.Arrays.{with_element};
ghost use Rattle.geos_terms.specs.ArrayEdits.{append_element, array_of, insert_element, with_array};
ghost use Rattle.geos_terms.specs.Block.{chunks, handle_word};
ghost use Rattle.geos_terms.specs.Chunks.{need};
ghost use Rattle.geos_terms.specs.Heap.{IsHeap};
ghost use Rattle.geos_terms.specs.Refusals.{first_refusal};
ghost use Rattle.lmem_heap.specs.Refusals.{IsRoomError};
ghost use Rattle.chunk_array.specs.Changes.{ChangesArray};
ghost use Rattle.chunk_array.specs.Found.{IsFound};
ghost use Rattle.chunk_array.specs.GrowthErrors.{as_growth_error, IsGrowthError};

use crate::change::put_element;
use crate::error::{AppendError, ArrayError, GrowthError};
use crate::look::{Found, find};
use crate::shape::ElementPlace;
use lmem_heap::{InsertError, RoomError};

/// Puts an element of `len` zero bytes after the others; `len` is not used where elements have
/// one size. Other chunks may move.
///
/// `BadChunk` exactly if no chunk has this handle; otherwise `BadArray` if its bytes are no
/// array; otherwise `Room` if the block has no room: `NeedMore` with the size that the block
/// needs if the block is smaller, and `TooBig` if no block is that large.
pub fn append(block: &mut [u8], chunk: u16, len: u16) -> Result<(), AppendError>
    requires { IsHeap block.old }
    ensures heap { IsHeap block.new }
    ensures handle { handle_word block.new ≡ handle_word block.old }
    ensures ok { let e = append_element chunk len (chunks block.old) in
        OnOk result ((first_refusal e.refusals ≡ None) × (chunks block.new ≡ e.chunks)) }
    ensures array { OnOk result (ChangesArray (chunks block.old) (chunks block.new) chunk (λ a. with_element a (length a.elements) len)) }
    ensures fits { OnOk result (need (append_element chunk len (chunks block.old)).chunks ≤ length block.old) }
    ensures refused { let e = append_element chunk len (chunks block.old) in
        IfErr result (λ why. IsGrowthError (as_growth_error why) e.refusals (need e.chunks) (length block.old)) }
    ensures err { OnErr result (block.new ≡ block.old) }
{
    let found = match find(block, chunk) {
        Ok(found) => found,
        Err(ArrayError::BadChunk) => return Err(AppendError::BadChunk),
        Err(ArrayError::BadArray) => return Err(AppendError::BadArray),
    };
    match insert_at(block, chunk, found, found.shape.count as usize, len) {
        Ok(()) => Ok(()),
        Err(room) => Err(AppendError::Room(room)),
    }
}

/// Puts an element of `len` zero bytes at an index, which may be the count; `len` is not used
/// where elements have one size. Other chunks may move.
///
/// `BadChunk` exactly if no chunk has this handle; otherwise `BadArray` if its bytes are no
/// array; otherwise `BadElement` if `index` is above the count; otherwise `Room` if the block has no
/// room: see `append`.
pub fn insert(block: &mut [u8], chunk: u16, index: u16, len: u16) -> Result<(), GrowthError>
    requires { IsHeap block.old }
    ensures heap { IsHeap block.new }
    ensures handle { handle_word block.new ≡ handle_word block.old }
    ensures ok { let e = insert_element chunk index len (chunks block.old) in
        OnOk result ((first_refusal e.refusals ≡ None) × (chunks block.new ≡ e.chunks)) }
    ensures array { OnOk result (ChangesArray (chunks block.old) (chunks block.new) chunk (λ a. with_element a index len)) }
    ensures fits { OnOk result (need (insert_element chunk index len (chunks block.old)).chunks ≤ length block.old) }
    ensures refused { let e = insert_element chunk index len (chunks block.old) in
        IfErr result (λ why. IsGrowthError why e.refusals (need e.chunks) (length block.old)) }
    ensures err { OnErr result (block.new ≡ block.old) }
{
    let found = match find(block, chunk) {
        Ok(found) => found,
        Err(ArrayError::BadChunk) => return Err(GrowthError::BadChunk),
        Err(ArrayError::BadArray) => return Err(GrowthError::BadArray),
    };
    if index > found.shape.count {
        return Err(GrowthError::BadElement);
    }
    match insert_at(block, chunk, found, index as usize, len) {
        Ok(()) => Ok(()),
        Err(room) => Err(GrowthError::Room(room)),
    }
}

/// Inserts an element of n zero bytes at an index. It makes all room
/// first, by one `insert` of bytes at the place of the element.
fn insert_at(
    block: &mut [u8],
    chunk: u16,
    found: Found,
    index: usize,
    len: u16,
) -> Result<(), RoomError>
    requires heap { IsHeap block.old }
    requires found { IsFound block.old chunk found }
    requires known { index ≤ found.shape.count }
    ensures heap { IsHeap block.new }
    ensures handle { handle_word block.new ≡ handle_word block.old }
    ensures ok { let old = chunks block.old in OnOk result (chunks block.new ≡ with_array old chunk (with_element (array_of old chunk) index len)) }
    ensures fits { let old = chunks block.old in
        OnOk result (need (with_array old chunk (with_element (array_of old chunk) index len)) ≤ length block.old) }
    ensures refused { let old = chunks block.old in
        IfErr result (λ e. IsRoomError e (need (with_array old chunk (with_element (array_of old chunk) index len))) (length block.old)) }
    ensures err { OnErr result (block.new ≡ block.old) }
{
    let at = found.start(block, index);
    let room = found.shape.room(len);
    if room > 65535 {
        return Err(RoomError::TooBig);
    }
    match lmem_heap::insert(block, chunk, at as u16, room as u16) {
        Ok(()) => {}
        Err(InsertError::Room(room)) => return Err(room),
        Err(_) => unreachable!(),
    }
    let element = ElementPlace {
        index,
        begin: at,
        len: len as usize,
    };
    put_element(block, chunk, found.shape, element);
    Ok(())
}
