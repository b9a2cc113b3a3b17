//! The places of chunks.
ghost use Rattle.lmem_heap.specs.Extents.{HasExtent, IsExtent};

use crate::chunks::cost;
use lmem_block::{entry, get16};

/// The extent of an entry's chunk, with its size word and its padding.
#[derive(Clone, Copy)]
pub(crate) struct Extent {
    pub(crate) begin: usize,
    pub(crate) end: usize,
    /// The length of its bytes.
    pub(crate) len: usize,
}

impl Extent {
    /// The extent of an entry's chunk, from its size word.
    pub(crate) fn of(block: &[u8], i: usize) -> Extent
        requires { HasExtent block.now i }
        ensures { IsExtent block.now i result }
    {
        let begin = entry(block, i) as usize - 2;
        let len = get16(block, begin) as usize - 2;
        Extent {
            begin,
            end: begin + cost(len),
            len,
        }
    }
}
