//! Calls that look at a heap.
ghost use Rattle.std.specs.Prelude.{◌≡◌, ◌≢◌, ◌+◌, ◌*◌, ◌/◌, ◌%◌, ◌<◌, ◌≤◌, None, length, IsTrue, IsFalse};
ghost use Rattle.std.specs.Prelude.{MatchResult, MatchOption, IfOk, IfErr, IsSomeAnd};
ghost use Rattle.lmem_raw.specs.Bytes.{part};
ghost use Rattle.geos_terms.specs.Chunks.{chunk_of, entry_bytes, used_bytes};
ghost use Rattle.geos_terms.specs.Block.{chunks, entries, entry, place_of, place_at, IsPlaced};
ghost use Rattle.geos_terms.specs.Heap.{IsHeap};
ghost use Rattle.lmem_block.specs.Found.{HasEntry, IsLast, IsNext};

use crate::header::{NO_BYTE, TABLE, TOTAL_FREE, entries, entry, handle_of};
use crate::words::get16;
use thiserror::Error;

/// No chunk has this handle.
#[derive(Clone, Copy, Debug, Drop, PartialEq, Eq, Error)]
#[error("no chunk has this handle")]
pub struct BadChunk;

/// A word turned right by one bit: its lowest bit comes first.
fn turned(word: u16) -> u16
    ensures { result ≡ word / 2 + word % 2 * 32768 }
{
    word.rotate_right(1)
}

/// The entry of a handle, which may be one of no chunk. `BadChunk` if the table has none for it.
fn index_of(block: &[u8], chunk: u16) -> Result<usize, BadChunk>
    requires { IsHeap block.now }
    ensures some { IfOk result (λ i. (chunk ≡ 16 + 2 * i) × (i < entries block.now)) }
    ensures none { IfErr result (λ _. chunk_of (chunks block.now) chunk ≡ None) }
    ensures no_place { IfErr result (λ _. place_of block.now chunk ≡ None) }
{
    // Below the table the difference wraps, and of an odd handle its lowest bit comes first: one test finds both past the last entry.
    let i = turned(chunk.wrapping_sub(TABLE as u16)) as usize;
    if i >= entries(block) {
        return Err(BadChunk);
    }
    Ok(i)
}

/// The entry of a chunk's handle. `BadChunk` if no chunk has it.
pub fn find(block: &[u8], chunk: u16) -> Result<usize, BadChunk>
    requires { IsHeap block.now }
    ensures place { MatchResult result (λ i. place_of block.now chunk ≡ place_at block.now (entry block.now i))
        (λ _. place_of block.now chunk ≡ None) }
    ensures found { MatchResult result (λ i. HasEntry block.now chunk i) (λ _. chunk_of (chunks block.now) chunk ≡ None) }
{
    let i = index_of(block, chunk)?;
    if entry(block, i) == 0 {
        return Err(BadChunk);
    }
    Ok(i)
}

/// Whether an entry is 0 or `NO_BYTE`, and so no offset of a byte.
// With 1 taken away these two come last, so that one test finds both.
fn has_no_byte(entry: u16) -> bool
    ensures only { IsTrue result → entry ≢ 0 → entry ≡ 65535 }
    ensures all { IsFalse result → (entry ≢ 0) × (entry ≢ 65535) }
{
    (entry as usize).wrapping_sub(1) >= NO_BYTE as usize - 1
}

/// The offset of the bytes of an entry's chunk, and their number.
pub fn place_of_entry(block: &[u8], index: usize) -> (usize, u16)
    requires heap { IsHeap block.now }
    requires known { index < entries block.now }
    requires used { entry block.now index ≢ 0 }
    ensures within { result.0 + result.1 ≤ length block.now }
    ensures place { place_at block.now (entry block.now index) ≡ Some (record { at = result.0; len = result.1 }) }
    ensures len { length (entry_bytes (chunks block.now) index) ≡ result.1 }
{
    let at = entry(block, index);
    if at == NO_BYTE {
        return (0, 0);
    }
    let at = at as usize;
    (at, get16(block, at - 2) - 2)
}

/// The length of a chunk in bytes. `BadChunk` exactly if no chunk has this handle.
pub fn size(block: &[u8], chunk: u16) -> Result<u16, BadChunk>
    requires { IsHeap block.now }
    ensures { MatchResult result (λ n. IsSomeAnd (chunk_of (chunks block.now) chunk) (λ bytes. length bytes ≡ n))
        (λ _. chunk_of (chunks block.now) chunk ≡ None) }
{
    let (_, n) = place(block, chunk)?;
    Ok(n)
}

/// The offset of the first byte of a chunk, and the number of its bytes. A chunk of no byte
/// has offset 0. `BadChunk` exactly if no chunk has this handle. Bytes may be written there:
/// see `writes_stay_in_their_chunk`.
pub fn place(block: &[u8], chunk: u16) -> Result<(u16, u16), BadChunk>
    requires { IsHeap block.now }
    ensures within { IfOk result (λ p. p.0 + p.1 ≤ length block.now) }
    ensures place { MatchResult result (λ p. IsPlaced block.now chunk p.0 p.1) (λ _. place_of block.now chunk ≡ None) }
    ensures bytes { MatchResult result (λ p. chunk_of (chunks block.now) chunk ≡ Some (part block.now p.0 p.1))
        (λ _. chunk_of (chunks block.now) chunk ≡ None) }
{
    let (at, n) = locate(block, chunk)?;
    Ok((at as u16, n))
}

/// The same as `place`, with the offset as an index of the block. `BadChunk` exactly if no
/// chunk has this handle.
// The compiler makes one number of a pair of words, and takes it apart again; not of this pair.
pub fn locate(block: &[u8], chunk: u16) -> Result<(usize, u16), BadChunk>
    requires { IsHeap block.now }
    ensures within { IfOk result (λ p. p.0 + p.1 ≤ length block.now) }
    ensures place { MatchResult result (λ p. IsPlaced block.now chunk p.0 p.1) (λ _. place_of block.now chunk ≡ None) }
    ensures bytes { MatchResult result (λ p. chunk_of (chunks block.now) chunk ≡ Some (part block.now p.0 p.1))
        (λ _. chunk_of (chunks block.now) chunk ≡ None) }
{
    let i = index_of(block, chunk)?;
    if has_no_byte(entry(block, i)) {
        // Seldom, so that no time goes to what is answered of them.
        return if entry(block, i) == 0 {
            Err(BadChunk)
        } else {
            Ok((0, 0))
        };
    }
    Ok(place_of_entry(block, i))
}

/// The bytes that are free: the block's size less the header, the table, and what each chunk
/// takes with its size word and its padding.
pub fn total_free(block: &[u8]) -> u16
    requires { IsHeap block.now }
    ensures { result + used_bytes (chunks block.now) ≡ length block.now }
{
    get16(block, TOTAL_FREE)
}

/// The lowest handle above `chunk` that has a chunk, or none if there is none.
pub fn next(block: &[u8], chunk: u16) -> Option<u16>
    requires { IsHeap block.now }
    ensures { MatchOption result (IsLast (chunks block.now) chunk) (λ h. IsNext (chunks block.now) chunk h) }
{
    let chunk = chunk as usize;
    let first = if chunk < TABLE {
        0
    } else {
        (chunk - TABLE) / 2 + 1
    };
    for i in first..entries(block) {
        if entry(block, i) != 0 {
            return Some(handle_of(i));
        }
    }
    None
}
