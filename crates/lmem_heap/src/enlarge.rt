//! Blocks that got longer.
ghost use Rattle.std.specs.Prelude.{◌≡◌, ◌≤◌, length, take};
ghost use Rattle.geos_terms.specs.Block.{chunks, handle_word};
ghost use Rattle.geos_terms.specs.Heap.{IsBlockSize, IsHeap};

use crate::holes::Hole;
use lmem_block::{BLOCK_SIZE, put16};

/// Adds the bytes after a heap to it, as free bytes. The first `old_size` bytes are the heap, and the block's
/// length is its new size, a legal one. Every chunk keeps its handle and its bytes, and the table keeps its length.
pub fn enlarged(block: &mut [u8], old_size: u16)
    requires heap { IsHeap (take old_size block.old) }
    requires within { old_size ≤ length block.old }
    requires size { IsBlockSize (length block.old) }
    ensures heap { IsHeap block.new }
    ensures chunks { chunks block.new ≡ chunks (take old_size block.old) }
    ensures handle { handle_word block.new ≡ handle_word block.old }
{
    let size = block.len();
    put16(block, BLOCK_SIZE, size as u16);
    let hole = Hole::at(block, old_size as usize, size);
    hole.give_back(block);
}
