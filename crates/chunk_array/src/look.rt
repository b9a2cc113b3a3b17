//! Calls that look at an array.
ghost use Rattle.std.specs.Prelude.{◌≡◌, ◌+◌, ◌<◌, ◌≤◌, length, IfErr, IfOk, MatchResult, OnOk};
ghost use Rattle.lmem_raw.specs.Bytes.{part};
ghost use Rattle.geos_terms.specs.Refusals.{first_refusal};
ghost use Rattle.geos_terms.specs.Block.{chunks};
ghost use Rattle.geos_terms.specs.Heap.{IsHeap};
ghost use Rattle.geos_terms.specs.ArrayEdits.{count_elements, no_array, no_element};
ghost use Rattle.chunk_array.specs.Found.{HasIndex, IsFound};
ghost use Rattle.chunk_array.specs.Shapes.{HasShape};
ghost use Rattle.chunk_array.specs.Elements.{HasElement};
ghost use Rattle.chunk_array.specs.ArrayErrors.{IsArrayError};
ghost use Rattle.chunk_array.specs.ElementErrors.{IsElementError};

use crate::error::{ArrayError, ElementError};
use crate::shape::{ElementPlace, Shape};
use lmem_heap::place;

/// An array in a chunk: the offset of the chunk's bytes, their number, and their shape.
#[derive(Clone, Copy)]
pub(crate) struct Found {
    pub(crate) at: u16,
    pub(crate) len: u16,
    pub(crate) shape: Shape,
}

impl Found {
    ghost use Rattle.geos_terms.specs.Arrays.{Array, arr, element_at};

    /// The offset of an element in the chunk; at the count, the end of the last element.
    pub(crate) fn start(self, block: &[u8], index: usize) -> usize
        requires within { self.at + self.len ≤ length block.now }
        requires shape { HasShape (part block.now self.at self.len) self.shape }
        requires known { index ≤ self.shape.count }
        ensures start { (a : Array) → arr (part block.now self.at self.len) ≡ Some a → result ≡ element_at a index }
        ensures within { (8 ≤ result) × (result ≤ self.len) }
    {
        let begin = self.at as usize;
        self.shape
            .start(&block[begin..begin + self.len as usize], index)
    }

    /// The place of an element.
    pub(crate) fn place(self, block: &[u8], index: usize) -> ElementPlace
        requires within { self.at + self.len ≤ length block.now }
        requires shape { HasShape (part block.now self.at self.len) self.shape }
        requires known { index < self.shape.count }
        ensures index { result.index ≡ index }
        ensures begin { (a : Array) → arr (part block.now self.at self.len) ≡ Some a → result.begin ≡ element_at a index }
        ensures end { (a : Array) → arr (part block.now self.at self.len) ≡ Some a → result.begin + result.len ≡ element_at a (index + 1) }
        ensures within { (8 ≤ result.begin) × (result.begin + result.len ≤ self.len) }
    {
        let begin = self.start(block, index);
        let end = self.start(block, index + 1);
        ElementPlace {
            index,
            begin,
            len: end - begin,
        }
    }
}

/// The array of a chunk's handle.
pub(crate) fn find(block: &[u8], chunk: u16) -> Result<Found, ArrayError>
    requires { IsHeap block.now }
    ensures { MatchResult result (λ found. IsFound block.now chunk found) (λ e. IsArrayError e (no_array (chunks block.now) chunk)) }
{
    let (at, len) = match place(block, chunk) {
        Ok(place) => place,
        Err(_) => return Err(ArrayError::BadChunk),
    };
    let begin = at as usize;
    match Shape::of(&block[begin..begin + len as usize]) {
        Some(shape) => Ok(Found { at, len, shape }),
        None => Err(ArrayError::BadArray),
    }
}

/// The array of a chunk's handle, which has an element of this index.
pub(crate) fn find_element(block: &[u8], chunk: u16, index: u16) -> Result<Found, ElementError>
    requires { IsHeap block.now }
    ensures { MatchResult result (λ found. HasIndex block.now chunk index found) (λ e. IsElementError e (no_element (chunks block.now) chunk index)) }
{
    let found = match find(block, chunk) {
        Ok(found) => found,
        Err(ArrayError::BadChunk) => return Err(ElementError::BadChunk),
        Err(ArrayError::BadArray) => return Err(ElementError::BadArray),
    };
    if index >= found.shape.count {
        return Err(ElementError::BadElement);
    }
    Ok(found)
}

/// The count of an array's elements.
///
/// `BadChunk` exactly if no chunk has this handle; otherwise `BadArray` if its bytes are no
/// array.
pub fn count(block: &[u8], chunk: u16) -> Result<u16, ArrayError>
    requires { IsHeap block.now }
    ensures ok { let e = count_elements chunk (chunks block.now) in IfOk result (λ n. (first_refusal e.refusals ≡ None) × (n ≡ e.answer)) }
    ensures refused { IfErr result (λ e. IsArrayError e (count_elements chunk (chunks block.now)).refusals) }
{
    let found = find(block, chunk)?;
    Ok(found.shape.count)
}

/// The offset of an element's first byte in the block, and the number of its bytes. Bytes may
/// be written there: see `lmem_heap::writes_stay_in_their_chunk`.
///
/// `BadChunk` exactly if no chunk has this handle; otherwise `BadArray` if its bytes are no
/// array; otherwise `BadElement` if `index` is not below the count.
pub fn element(block: &[u8], chunk: u16, index: u16) -> Result<(u16, u16), ElementError>
    requires { IsHeap block.now }
    ensures ok { OnOk result (first_refusal (no_element (chunks block.now) chunk index) ≡ None) }
    ensures place { IfOk result (λ p. HasElement block.now chunk index p.0 p.1) }
    ensures within { IfOk result (λ p. p.0 + p.1 ≤ length block.now) }
    ensures refused { IfErr result (λ e. IsElementError e (no_element (chunks block.now) chunk index)) }
{
    let found = match find_element(block, chunk, index) {
        Ok(found) => found,
        Err(e) => return Err(e),
    };
    let place = found.place(block, index as usize);
    Ok((found.at + place.begin as u16, place.len as u16))
}
