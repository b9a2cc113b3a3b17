//! Changes of an array's bytes in place.
ghost use Rattle.std.specs.Prelude.{◌≡◌, ℕ, ◌≤◌, List, Some};
ghost use Rattle.geos_terms.specs.Arrays.{Array, spelled, with_element};
ghost use Rattle.geos_terms.specs.ArrayEdits.{with_array};
ghost use Rattle.geos_terms.specs.Block.{chunks, handle_word};
ghost use Rattle.geos_terms.specs.Chunks.{chunk_of};
ghost use Rattle.geos_terms.specs.Heap.{IsHeap};
ghost use Rattle.std.specs.Prelude.{IsSomeAnd};
ghost use Rattle.chunk_array.specs.Insertions.{HasRoom, IsRoomy};
ghost use Rattle.chunk_array.specs.Refits.{HasRefit, IsRefitted, with_refit};
ghost use Rattle.chunk_array.specs.Removals.{Excludes, HasPart, IsParted, SpellsWithout};

use crate::shape::{COUNT, ElementPlace, Shape};
use crate::table::{close_table, open_table, shift_offsets};
use lmem_block::put16;
use lmem_heap::place;

/// Encodes an array with a new element of zeros in a chunk that has the room for
/// it at its place. If elements have one size, the element's length is not used.
pub(crate) fn put_element(block: &mut [u8], chunk: u16, shape: Shape, element: ElementPlace)
    requires heap { IsHeap block.old }
    requires room { IsSomeAnd (chunk_of (chunks block.old) chunk) (λ bytes. IsRoomy bytes shape element) }
    ensures heap { IsHeap block.new }
    ensures handle { handle_word block.new ≡ handle_word block.old }
    ensures chunks { (bytes before : List ℕ) (a : Array) → chunk_of (chunks block.old) chunk ≡ Some bytes → HasRoom bytes before a shape element
        → chunks block.new ≡ with_array (chunks block.old) chunk (with_element a element.index element.len) }
{
    let (begin, len) = match place(block, chunk) {
        Ok(place) => place,
        Err(_) => unreachable!(),
    };
    let begin = begin as usize;
    spell_inserted(&mut block[begin..begin + len as usize], shape, element);
}

/// Encodes an array with a new element of zeros.
fn spell_inserted(bytes: &mut [u8], shape: Shape, element: ElementPlace)
    requires { IsRoomy bytes.old shape element }
    ensures { (before : List ℕ) (a : Array) → HasRoom bytes.old before a shape element
        → bytes.new ≡ spelled (with_element a element.index element.len) }
{
    if shape.element_size == 0 {
        open_table(
            bytes,
            shape.count as usize,
            element.index,
            element.begin,
            element.len,
        );
    }
    put16(bytes, COUNT, shape.count + 1);
}

/// Encodes an array without an element. The bytes that the element took, with its offset if
/// sizes vary, are left before the end: the caller deletes them.
pub(crate) fn take_element(block: &mut [u8], chunk: u16, shape: Shape, element: ElementPlace)
    requires heap { IsHeap block.old }
    requires part { IsSomeAnd (chunk_of (chunks block.old) chunk) (λ bytes. IsParted bytes shape element) }
    ensures heap { IsHeap block.new }
    ensures handle { handle_word block.new ≡ handle_word block.old }
    ensures chunks { (bytes : List ℕ) (a : Array) → chunk_of (chunks block.old) chunk ≡ Some bytes → HasPart bytes a shape element
        → Excludes block.old block.new chunk bytes a shape element }
{
    let (begin, len) = match place(block, chunk) {
        Ok(place) => place,
        Err(_) => unreachable!(),
    };
    let begin = begin as usize;
    spell_removed(&mut block[begin..begin + len as usize], shape, element);
}

/// Encodes an array without an element, except for the bytes that it took.
fn spell_removed(bytes: &mut [u8], shape: Shape, element: ElementPlace)
    requires { IsParted bytes.old shape element }
    ensures { (a : Array) → HasPart bytes.old a shape element
        → SpellsWithout bytes.new a shape element }
{
    if shape.element_size == 0 {
        close_table(
            bytes,
            shape.count as usize,
            element.index,
            element.begin,
            element.len,
        );
    }
    put16(bytes, COUNT, shape.count - 1);
}

/// Corrects the offsets after an element that now has n bytes.
pub(crate) fn put_offsets(
    block: &mut [u8],
    chunk: u16,
    shape: Shape,
    element: ElementPlace,
    n: usize,
)
    requires heap { IsHeap block.old }
    requires refit { IsSomeAnd (chunk_of (chunks block.old) chunk) (λ bytes. IsRefitted bytes shape element n) }
    requires small { (element.len ≤ 65535) × (n ≤ 65535) }
    ensures heap { IsHeap block.new }
    ensures handle { handle_word block.new ≡ handle_word block.old }
    ensures chunks { (bytes before : List ℕ) (a : Array) → chunk_of (chunks block.old) chunk ≡ Some bytes → HasRefit bytes before a shape element n
        → chunks block.new ≡ with_array (chunks block.old) chunk (with_refit a element.index n) }
{
    let (begin, len) = match place(block, chunk) {
        Ok(place) => place,
        Err(_) => unreachable!(),
    };
    let begin = begin as usize;
    spell_refitted(&mut block[begin..begin + len as usize], shape, element, n);
}

/// Encodes an array in which an element now has n bytes.
fn spell_refitted(bytes: &mut [u8], shape: Shape, element: ElementPlace, n: usize)
    requires refit { IsRefitted bytes.old shape element n }
    requires small { (element.len ≤ 65535) × (n ≤ 65535) }
    ensures { (before : List ℕ) (a : Array) → HasRefit bytes.old before a shape element n
        → bytes.new ≡ spelled (with_refit a element.index n) }
{
    shift_offsets(
        bytes,
        element.index + 1,
        shape.count as usize,
        element.len,
        n,
    );
}
