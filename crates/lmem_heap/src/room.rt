//! Whether a block has room.
ghost use Rattle.std.specs.Prelude.{◌≡◌, ◌≢◌, ℕ, ◌<◌, ◌≤◌, List, length, slice_set, MatchResult};
ghost use Rattle.geos_terms.specs.Chunks.{lowest_entry, sixteens, used_bytes, with_new};
ghost use Rattle.geos_terms.specs.Block.{chunks, entries, entry};
ghost use Rattle.geos_terms.specs.Heap.{IsBlockSize, IsHeap};
ghost use Rattle.lmem_heap.specs.Refusals.{IsRoomError};

use crate::chunks::cost;
use crate::error::RoomError;
use geos_terms::MOST_BLOCK_BYTES;
use lmem_block::{TOTAL_FREE, entries, get16, place_of_entry};

/// Whether a block of this size has room for so many bytes; otherwise how large it must be.
pub(crate) fn room_for(used: usize, size: usize) -> Result<(), RoomError>
    requires small { used ≤ 300000 }
    requires size { IsBlockSize size }
    ensures { MatchResult result (λ _. (used ≤ size) × (sixteens used ≤ size)) (λ e. IsRoomError e (sixteens used) size) }
{
    if used <= size {
        return Ok(());
    }
    let needed = (used + 15) / 16 * 16;
    if needed > MOST_BLOCK_BYTES {
        return Err(RoomError::TooBig);
    }
    Err(RoomError::NeedMore(needed as u16))
}

/// The bytes that header, table and chunks take.
fn used_bytes(block: &[u8]) -> usize
    requires { IsHeap block.now }
    ensures { result ≡ used_bytes (chunks block.now) }
{
    block.len() - get16(block, TOTAL_FREE) as usize
}

/// What they take with a new chunk of n bytes, whose entry is to be the i-th.
pub(crate) fn used_with_new(block: &[u8], i: usize, n: u16) -> usize
    requires heap { IsHeap block.now }
    requires lowest { i ≡ lowest_entry (chunks block.now) }
    ensures value { result ≡ used_bytes (with_new (chunks block.now) n) }
    ensures small { result ≤ 300000 }
{
    let used = used_bytes(block) + cost(n as usize);
    if i == entries(block) { used + 4 } else { used }
}

/// The bytes in use if an entry's chunk has n bytes.
pub(crate) fn used_with(block: &[u8], i: usize, n: usize) -> usize
    requires heap { IsHeap block.now }
    requires known { i < entries block.now }
    requires used { entry block.now i ≢ 0 }
    requires small { n ≤ 131070 }
    ensures value { (bytes : List ℕ) → length bytes ≡ n → result ≡ used_bytes (slice_set (chunks block.now) i (Some bytes)) }
    ensures small { result ≤ 300000 }
{
    let (_, len) = place_of_entry(block, i);
    used_bytes(block) - cost(len as usize) + cost(n)
}
