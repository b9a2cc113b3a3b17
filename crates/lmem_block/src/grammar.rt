//! Whether bytes are a heap.
ghost use Rattle.std.specs.Prelude.{◌≡◌, ℕ, ◌*◌, ◌%◌, ◌<◌, ◌≤◌, false, length, MatchOption, IsTrue, ◌↔◌, slice_index_or};
ghost use Rattle.geos_terms.specs.Block.{table_end, entries};
ghost use Rattle.geos_terms.specs.Heap.{IsHeader, IsHeap};
ghost use Rattle.lmem_block.specs.Check.{CanTile, Goes, IsTiled, Marks, marks_from};

use crate::header::{
    BLOCK_SIZE, FIRST_FREE, FLAGS, KIND, TABLE, TABLE_BEGIN, TOTAL_FREE, entries, table_end,
};
use crate::marks::mark;
use crate::words::get16;
use geos_terms::is_block_size;

/// One place for each four bytes of the largest block.
const PLACES: usize = 16384;
/// One place for each four bytes of a block of up to 4,096, so that no more are cleared for it.
const FEW_PLACES: usize = 1024;

/// Whether the bytes are a heap: exactly if they are header, table, chunks and free chunks
/// that tile the block, as the format says. It takes time in proportion to the block's size.
pub fn check(block: &[u8]) -> bool
    ensures { IsTrue result ↔ IsHeap block.now }
{
    if !is_header(block) {
        return false;
    }
    if block.len() <= 4 * FEW_PLACES {
        let mut starts = [false; FEW_PLACES];
        return is_full(block, &mut starts);
    }
    let mut starts = [false; PLACES];
    is_full(block, &mut starts)
}

fn is_header(block: &[u8]) -> bool
    ensures { IsTrue result ↔ IsHeader block.now }
{
    let size = block.len();
    if !is_block_size(size) {
        return false;
    }
    let n = entries(block);
    get16(block, TABLE_BEGIN) as usize == TABLE
        && get16(block, FLAGS) == 0
        && get16(block, KIND) == 0
        && get16(block, BLOCK_SIZE) as usize == size
        && n >= 2
        && n % 2 == 0
        && table_end(block) <= size
}

/// Whether pieces tile the block after the table, by marks of which none is set yet.
fn is_full(block: &[u8], starts: &mut [bool]) -> bool
    requires header { IsHeader block.now }
    requires blank { (k : ℕ) → slice_index_or starts.old k false ≡ false }
    requires room { length block.now ≤ 4 * length starts.old }
    ensures { IsTrue result ↔ IsTiled block.now }
{
    match mark(block, starts) {
        Some(chunks) => is_tiled(block, starts, chunks),
        None => false,
    }
}

/// Whether pieces tile the block after the table: visits them from the lowest on.
/// If it visits as many chunks as offsets are marked, no mark lies within a piece.
fn is_tiled(block: &[u8], starts: &[bool], chunks: usize) -> bool
    requires header { IsHeader block.now }
    requires marks { Marks block.now (entries block.now) starts.now }
    requires room { length block.now ≤ 4 * length starts.now }
    requires counted { chunks ≡ marks_from starts.now 0 }
    ensures { IsTrue result ↔ IsTiled block.now }
{
    let mut at = table_end(block);
    let mut free = get16(block, FIRST_FREE) as usize;
    let mut sum: usize = 0;
    let mut left = chunks;
    while at < block.len() {
        match next_piece(block, starts, at, free, sum) {
            Some(piece) => {
                at = piece.end;
                left -= piece.chunks;
                free = piece.free;
                sum = piece.sum;
            }
            None => return false,
        }
    }
    let total = get16(block, TOTAL_FREE) as usize;
    if free != 0 || sum != total || left != 0 {
        return false;
    }
    true
}

/// A chunk or a free chunk.
#[derive(Clone, Copy)]
struct Piece {
    end: usize,
    /// 1, or 0 if it is free.
    chunks: usize,
    /// The next free chunk after it.
    free: usize,
    /// The bytes of the free chunks up to its end.
    sum: usize,
}

/// The piece at an offset, if the next free chunk is expected at `free` and the free chunks so far have `sum`
/// bytes: a chunk if an entry's chunk begins there, otherwise a free chunk. None if no piece can be there.
fn next_piece(block: &[u8], starts: &[bool], at: usize, free: usize, sum: usize) -> Option<Piece>
    requires header { IsHeader block.now }
    requires marks { Marks block.now (entries block.now) starts.now }
    requires room { length block.now ≤ 4 * length starts.now }
    requires fours { at % 4 ≡ 0 }
    requires inside { (table_end block.now ≤ at) × (at < length block.now) }
    requires small { sum ≤ at }
    ensures { MatchOption result (CanTile block.now at free sum → ⊥) (λ s. Goes block.now starts.now at free sum s.end s.chunks s.free s.sum) }
{
    if starts[at / 4] {
        let word = get16(block, at) as usize;
        let end = (at + word + 3) / 4 * 4;
        if word < 3 || end > block.len() {
            return None;
        }
        return Some(Piece {
            end,
            chunks: 1,
            free,
            sum,
        });
    }
    let size = get16(block, at) as usize;
    let next = get16(block, at + 2) as usize;
    let end = at + size;
    if free != at || size == 0 || size % 4 != 0 || next == end || end > block.len() {
        return None;
    }
    Some(Piece {
        end,
        chunks: 0,
        free: next,
        sum: sum + size,
    })
}
