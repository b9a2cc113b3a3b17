//! Chunks that are made, freed and resized.
ghost use Rattle.std.specs.Prelude.{◌≡◌, ◌≢◌, ◌+◌, ◌^◌, ◌<◌, ◌≤◌, replicate, slice_index_or, slice_set, MatchBool};
ghost use Rattle.geos_terms.specs.Chunks.{cost, cost_of};
ghost use Rattle.geos_terms.specs.Block.{chunks, entries, entry, handle_word, total_free};
ghost use Rattle.geos_terms.specs.Heap.{IsHeap, IsOffset};
ghost use Rattle.lmem_heap.specs.Holes.{FirstIsSmaller, GivesBack, PlacesChunk, ResizesChunk};
ghost use Rattle.lmem_heap.specs.Changes.{entry_resized};
ghost use Rattle.lmem_heap.specs.Packed.{chunk_length, IsPacked};

use crate::extents::Extent;
use crate::holes::Hole;
use crate::runs::move_run;
use crate::tail::{chunks_end, pack, set_tail};
use lmem_block::{NO_BYTE, clear, entry, get16, put_entry, put16};

/// What a chunk of n bytes takes: its size word and its bytes, filled up to fours.
pub(crate) fn cost(n: usize) -> usize
    requires { n ≤ 131070 }
    ensures { result ≡ cost n }
{
    if n == 0 { 0 } else { (n + 5) / 4 * 4 }
}

/// Frees the chunk of an entry, and leaves the others where they
/// are. The entry is then unused, and the chunk's bytes are free.
pub(crate) fn release_chunk(block: &mut [u8], i: usize)
    requires heap { IsHeap block.old }
    requires known { i < entries block.old }
    requires used { entry block.old i ≢ 0 }
    ensures heap { IsHeap block.new }
    ensures chunks { chunks block.new ≡ slice_set (chunks block.old) i None }
    ensures handle { handle_word block.new ≡ handle_word block.old }
{
    if entry(block, i) == NO_BYTE {
        put_entry(block, i, 0);
        return;
    }
    let hole = Hole::left_by(block, i);
    hole.give_back(block);
}

/// Gives an unused entry a chunk of n zero bytes. If no free chunk is large enough, the other chunks move together.
pub(crate) fn new_chunk(block: &mut [u8], i: usize, n: u16)
    requires heap { IsHeap block.old }
    requires known { i < entries block.old }
    requires free { entry block.old i ≡ 0 }
    requires room { cost n ≤ total_free block.old }
    ensures heap { IsHeap block.new }
    ensures chunks { chunks block.new ≡ slice_set (chunks block.old) i (Some (replicate n 0)) }
    ensures handle { handle_word block.new ≡ handle_word block.old }
{
    if place_chunk(block, i, n) {
        return;
    }
    pack(block);
    if place_chunk(block, i, n) {
        return;
    }
    unreachable!()
}

/// Gives an unused entry a chunk of n zero bytes, at the first free chunk
/// that is large enough. False if none is; then nothing is changed.
fn place_chunk(block: &mut [u8], i: usize, n: u16) -> bool
    requires heap { IsHeap block.old }
    requires known { i < entries block.old }
    requires free { entry block.old i ≡ 0 }
    ensures { MatchBool result (PlacesChunk block.old block.new i n) ((0 < n) × (block.new ≡ block.old) × FirstIsSmaller block.old (cost n)) }
{
    if n == 0 {
        put_entry(block, i, NO_BYTE);
        return true;
    }
    let size = cost(n as usize);
    match Hole::first_fit(block, size) {
        Some(hole) => {
            let hole = hole.take(block, size);
            hole.fill(block, i, 0, n);
            true
        }
        None => false,
    }
}

/// Resizes a chunk to n bytes: keeps the first bytes that fit, and adds zeros.
/// If the free chunk after it is not large enough, the other chunks move.
pub(crate) fn resize_chunk(block: &mut [u8], i: usize, n: u16)
    requires heap { IsHeap block.old }
    requires known { i < entries block.old }
    requires used { entry block.old i ≢ 0 }
    requires room { cost n ≤ total_free block.old + cost_of (slice_index_or (chunks block.old) i None) }
    ensures heap { IsHeap block.new }
    ensures chunks { chunks block.new ≡ entry_resized (chunks block.old) i n }
    ensures handle { handle_word block.new ≡ handle_word block.old }
{
    if n == 0 || entry(block, i) == NO_BYTE {
        release_chunk(block, i);
        new_chunk(block, i, n);
        return;
    }
    if resize_beside(block, i, n) {
        return;
    }
    if move_away(block, i, n) {
        return;
    }
    pack(block);
    resize_in_place(block, i, n);
}

/// Changes the length of a chunk in place, and leaves the others where they are. False if no
/// free chunk after it is large enough; then no chunk is changed.
fn resize_beside(block: &mut [u8], i: usize, n: u16) -> bool
    requires heap { IsHeap block.old }
    requires known { i < entries block.old }
    requires offset { IsOffset (entry block.old i) }
    requires some { 0 < n }
    ensures { MatchBool result (ResizesChunk block.old block.new i n) (GivesBack block.old block.new) }
{
    let chunk = Extent::of(block, i);
    let (has, size) = (chunk.end - chunk.begin, cost(n as usize));
    if has == size {
        resize_within(block, i, n);
        return true;
    }
    if has < size && !may_be_free(block, chunk.end, size - has) {
        return false;
    }
    let hole = Hole::left_by(block, i);
    match hole.widen(block, size) {
        Some(wide) => {
            let rest = wide.fill(block, i, chunk.len, n);
            rest.give_back(block);
            true
        }
        None => {
            hole.fill(block, i, chunk.len, chunk.len as u16);
            false
        }
    }
}

/// Changes the length of a chunk that takes as many bytes of the block with it: only its size
/// word changes.
fn resize_within(block: &mut [u8], i: usize, n: u16)
    requires heap { IsHeap block.old }
    requires known { i < entries block.old }
    requires offset { IsOffset (entry block.old i) }
    requires some { 0 < n }
    requires same { cost n ≡ cost (chunk_length block.old i) }
    ensures { ResizesChunk block.old block.new i n }
{
    let chunk = Extent::of(block, i);
    put16(block, chunk.begin, n + 2);
    let more = (n as usize).saturating_sub(chunk.len);
    clear(block, chunk.begin + 2 + chunk.len, more);
}

/// Whether the word at an offset may be that of a free chunk of at least this size. It may
/// also be a chunk's word; but if the result is false, the free list need not be searched.
fn may_be_free(block: &[u8], at: usize, size: usize) -> bool
    requires { at < 2 ^ 32 }
{
    if at + 2 > block.len() {
        return false;
    }
    let word = get16(block, at);
    word % 4 == 0 && word as usize >= size
}

/// Moves a chunk to the first free chunk that is large enough, with its new length,
/// and leaves the others where they are. False if none is; then nothing is changed.
fn move_away(block: &mut [u8], i: usize, n: u16) -> bool
    requires heap { IsHeap block.old }
    requires known { i < entries block.old }
    requires offset { IsOffset (entry block.old i) }
    requires some { 0 < n }
    ensures { MatchBool result (ResizesChunk block.old block.new i n) (block.new ≡ block.old) }
{
    let size = cost(n as usize);
    match Hole::first_fit(block, size) {
        Some(hole) => {
            let hole = hole.take(block, size);
            let left = hole.move_in(block, i, n);
            left.give_back(block);
            true
        }
        None => false,
    }
}

/// Changes the length of a chunk of a packed heap in place, and moves those after it.
fn resize_in_place(block: &mut [u8], i: usize, n: u16)
    requires packed { IsPacked block.old }
    requires known { i < entries block.old }
    requires offset { IsOffset (entry block.old i) }
    requires some { 0 < n }
    requires room { cost n ≤ total_free block.old + cost (chunk_length block.old i) }
    ensures heap { IsHeap block.new }
    ensures chunks { chunks block.new ≡ entry_resized (chunks block.old) i n }
    ensures handle { handle_word block.new ≡ handle_word block.old }
{
    let chunk = Extent::of(block, i);
    let at = chunks_end(block);
    let end = chunk.begin + cost(n as usize);
    move_run(block, chunk.end, at, end);
    put16(block, chunk.begin, n + 2);
    let more = (n as usize).saturating_sub(chunk.len);
    clear(block, chunk.begin + 2 + chunk.len, more);
    set_tail(block, end + (at - chunk.end));
}
