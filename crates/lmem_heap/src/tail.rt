//! The free bytes at the end of a packed heap.
ghost use Rattle.std.specs.Prelude.{◌≡◌, ◌-◌, ◌%◌, ◌≤◌, length};
ghost use Rattle.geos_terms.specs.Block.{chunks, handle_word};
ghost use Rattle.geos_terms.specs.Heap.{IsHeap, most_block_bytes};
ghost use Rattle.lmem_heap.specs.Packed.{chunks_end, IsPacked, SetsTail};

use crate::compact::contract;
use lmem_block::{FIRST_FREE, TOTAL_FREE, get16, put16};

/// Moves the chunks together, with all free bytes after them.
pub(crate) fn pack(block: &mut [u8])
    requires { IsHeap block.old }
    ensures packed { IsPacked block.new }
    ensures chunks { chunks block.new ≡ chunks block.old }
    ensures handle { handle_word block.new ≡ handle_word block.old }
{
    contract(block);
}

/// The offset at which the chunks of a packed heap end.
pub(crate) fn chunks_end(block: &[u8]) -> usize
    requires { IsPacked block.now }
    ensures { result ≡ chunks_end block.now }
{
    block.len() - get16(block, TOTAL_FREE) as usize
}

/// Makes the bytes from `at` to the block's end free: one free chunk, or none if there are no
/// bytes. Only the free chunk's two words are written.
pub(crate) fn set_tail(block: &mut [u8], at: usize)
    requires within { (16 ≤ at) × (at ≤ length block.old) × (length block.old ≤ most_block_bytes) }
    requires fours { (length block.old - at) % 4 ≡ 0 }
    ensures { SetsTail block.old block.new at }
{
    let free = block.len() - at;
    put16(block, TOTAL_FREE, free as u16);
    if free == 0 {
        put16(block, FIRST_FREE, 0);
    } else {
        put16(block, FIRST_FREE, at as u16);
        put16(block, at, free as u16);
        put16(block, at + 2, 0);
    }
}
