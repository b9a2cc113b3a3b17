//! Elements that go.
ghost use Rattle.std.specs.Prelude.{◌≡◌, IfErr, OnErr, OnOk};
ghost use Rattle.geos_terms.specs.Arrays.{without_element};
ghost use Rattle.geos_terms.specs.ArrayEdits.{remove_element};
ghost use Rattle.geos_terms.specs.Block.{chunks, handle_word};
ghost use Rattle.geos_terms.specs.Heap.{IsHeap};
ghost use Rattle.geos_terms.specs.Refusals.{first_refusal};
ghost use Rattle.chunk_array.specs.Changes.{ChangesArray};
ghost use Rattle.chunk_array.specs.ElementErrors.{IsElementError};

use crate::change::take_element;
use crate::error::ElementError;
use crate::look::find_element;
use lmem_heap::delete;

/// Takes an element out of an array. Other chunks may move.
///
/// `BadChunk` exactly if no chunk has this handle; otherwise `BadArray` if its bytes are no
/// array; otherwise `BadElement` if `index` is not below the count.
pub fn remove(block: &mut [u8], chunk: u16, index: u16) -> Result<(), ElementError>
    requires { IsHeap block.old }
    ensures heap { IsHeap block.new }
    ensures handle { handle_word block.new ≡ handle_word block.old }
    ensures ok { let e = remove_element chunk index (chunks block.old) in
        OnOk result ((first_refusal e.refusals ≡ None) × (chunks block.new ≡ e.chunks)) }
    ensures array { OnOk result (ChangesArray (chunks block.old) (chunks block.new) chunk (λ a. without_element a index)) }
    ensures refused { IfErr result (λ why. IsElementError why (remove_element chunk index (chunks block.old)).refusals) }
    ensures err { OnErr result (block.new ≡ block.old) }
{
    let found = match find_element(block, chunk, index) {
        Ok(found) => found,
        Err(e) => return Err(e),
    };
    let element = found.place(block, index as usize);
    let room = found.shape.room(element.len as u16);
    take_element(block, chunk, found.shape, element);
    let end = element.begin + element.len;
    match delete(block, chunk, (end - room) as u16, room as u16) {
        Ok(()) => Ok(()),
        Err(_) => unreachable!(),
    }
}
