//! Calls that read the chunks of a heap.

ghost use Rattle.std.specs.Prelude.{◌≡◌, ◌+◌, ◌≤◌, length, IfOk};
ghost use Rattle.geos_terms.specs.Block.{chunks};
ghost use Rattle.geos_terms.specs.Heap.{IsHeap};
ghost use Rattle.geos_calls.specs.ChunkCalls.{ask_edit, refer_edit, least};
ghost use Rattle.chunk_calls.specs.Edits.{Tells, Finds, enough};

use crate::obstacle::{why_no_array, why_no_chunk, why_no_element};
use chunk_array::{count, element};
use geos_calls::{Ask, Refer};
use geos_terms::Refusal;
use lmem_heap::{BadChunk, locate, size};

/// Returns the number that a call requests.
pub fn tell(block: &[u8], ask: Ask) -> Result<u16, Refusal>
    requires { IsHeap block.now }
    ensures { Tells (ask_edit ask) (chunks block.now) result }
{
    match ask {
        Ask::Lsize { c } => size(block, c).map_err(why_no_chunk),
        Ask::Cacount { c } => count(block, c).map_err(why_no_array),
    }
}

/// Finds the bytes that a call refers to: the offset of the first one in the block, and how many
/// there are.
#[inline(always)]
pub fn find(block: &[u8], refer: Refer) -> Result<(usize, u16), Refusal>
    requires { IsHeap block.now }
    ensures finds { Finds (refer_edit refer) block.now result }
    ensures within { IfOk result (λ place. (place.0 + place.1 ≤ length block.now) × (least refer ≤ place.1)) }
{
    match refer {
        Refer::Deref { c, n } => match locate(block, c) {
            Ok(place) => enough(place, n),
            Err(BadChunk) => Err(Refusal::BadChunk),
        },
        Refer::Caelt { c, i, n } => match element(block, c, i) {
            Ok((at, len)) => enough((usize::from(at), len), n),
            Err(why) => Err(why_no_element(why)),
        },
    }
}

/// A place, which must have `n` bytes at least.
#[inline(always)]
fn enough(place: (usize, u16), n: u16) -> Result<(usize, u16), Refusal>
    ensures { result ≡ enough place n }
{
    if place.1 < n {
        return Err(Refusal::Short);
    }
    Ok(place)
}
