//! The bytes of a block that holds a heap: what they say, whether they are a heap, and how a fresh one is made.
//!
//! A block begins with a header of eight words and a table of chunk handles; chunks and free chunks tile the rest. Here is
//! what a reader needs. The calls that change a heap are in `lmem_heap`; only that crate writes words of header and
//! table. docs/HEAPS.md has a picture. (GEOS SDK Concepts Book, chapter Local Memory.)
#![tactic(auto)]

ghost use Rattle.std.specs.Prelude.{◌≡◌, [], ◌∷◌, length};
ghost use Rattle.geos_terms.specs.Block.{chunks, handle_word};
ghost use Rattle.geos_terms.specs.Heap.{IsBlockSize, IsHeap};

mod grammar;
mod header;
mod look;
mod marks;
mod words;

pub use grammar::check;
pub use header::{
    BLOCK_SIZE, ENTRIES, FIRST_FREE, NO_BYTE, TABLE, TOTAL_FREE, entries, entry, handle_of,
    put_entry, table_end,
};
pub use look::{BadChunk, find, locate, next, place, place_of_entry, size, total_free};
use words::put_words;
pub use words::{clear, get16, move_bytes, put16};

/// Makes a heap with two table entries and no chunk, whatever the bytes were. The block's
/// length is a legal block size: a multiple of 16 from 64 to 65,520. `handle` is the block's
/// handle, which no other call changes.
pub fn init(block: &mut [u8], handle: u16)
    requires { IsBlockSize (length block.old) }
    ensures heap { IsHeap block.new }
    ensures chunks { chunks block.new ≡ None ∷ None ∷ [] }
    ensures handle { handle_word block.new ≡ handle }
{
    let size = block.len() as u16;
    let first = TABLE as u16 + 4;
    let free = size - first;
    // the header, two entries that are not in use, one free chunk
    let words = [
        handle,
        TABLE as u16,
        0,
        0,
        size,
        2,
        first,
        free,
        0,
        0,
        free,
        0,
    ];
    put_words(block, 0, &words);
}
