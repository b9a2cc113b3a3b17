//! Calls on a heap of chunks in a block, and on the arrays in its chunks. No call on a heap is made where the block is none; the answer
//! is `no heap` then.
//!
//! A line has the name of a call of `lmem_heap` or `chunk_array` and the numbers that it takes after the block; `insert_element` is
//! the `insert` of arrays, and `element` answers where the element begins in its chunk. The other lines are
//!
//!     block SIZE BYTE                 makes a block of this size, whose bytes are all this one
//!     enlarged SIZE BYTE              the block gets this size and new bytes like this one, and its heap becomes one of all of it
//!     put AT BYTE                     writes a byte of the block
//!     words AT COUNT                  so many words of the block from an offset on
//!     copy                            takes a copy of the block
//!     is_copy                         whether the block has the bytes of the copy
//!     bytes C                         the bytes of a chunk
//!     count_into C FIRST              writes FIRST, FIRST + 1 .. into a chunk
//!     count_into_element C I FIRST    writes them into an element

ghost use Rattle.std.specs.Prelude.{◌≤◌, ◌↔◌, IsTrue, length, take};
ghost use Rattle.geos_terms.specs.Heap.{IsBlockSize, IsHeap};

use crate::Answer;
use chunk_array::{ElementError, append, clear, count, create, element, remove, resize_element};
use geos_terms::is_block_size;
use lmem_heap::{
    BadChunk, alloc, check, contract, delete, enlarged, free, init, insert, next, place, realloc,
    size, total_free,
};
use std::alloc::{AllocError, Global};
use trial_lines::{Line, shown, shown_done, shown_result};

/// The block that the lines speak of, and a copy of it.
#[derive(Drop)]
pub(crate) struct HeapTrial {
    block: Vec<u8>,
    copy: Vec<u8>,
}

impl HeapTrial {
    /// No byte yet.
    pub(crate) fn new(global: Global) -> HeapTrial {
        HeapTrial {
            block: Vec::new(global),
            copy: Vec::new(global),
        }
    }

    /// Makes the call of a line.
    pub(crate) fn answer(&mut self, global: Global, line: &Line<'_>) -> Result<Answer, AllocError> {
        let at = line.word_at(0);
        match line.word {
            "block" => {
                self.block.clear();
                self.block.resize(at as usize, line.byte_at(1))?;
            }
            "put" => match self.block.get_mut(at as usize) {
                Some(place) => *place = line.byte_at(1),
                None => return Ok(Answer::NotAsked("the block has no such byte")),
            },
            "words" => return shown(global, words(global, &self.block, line)?),
            "copy" => {
                self.copy.clear();
                self.copy.extend_from_slice(&self.block[..])?;
            }
            "is_copy" => return Ok((self.block.as_slice() == self.copy.as_slice()).into()),
            "init" if is_block_size(self.block.len()) => init(&mut self.block[..], at),
            "init" => return Ok(Answer::NotAsked("no size of a block")),
            "check" => return Ok(check(&self.block[..]).into()),
            "enlarged" => return self.enlarge(at, line.byte_at(1)),
            _ if check(&self.block[..]) => return look(global, &mut self.block[..], line),
            _ => return Ok(Answer::Said("no heap")),
        }
        Ok(Answer::Done)
    }

    /// Gives the block more bytes, and makes the heap in its first ones a heap of all.
    fn enlarge(&mut self, size: u16, byte: u8) -> Result<Answer, AllocError> {
        let old_size = self.block.len();
        if !is_block_size(size as usize) || old_size > size as usize {
            return Ok(Answer::NotAsked("no larger size of a block"));
        }
        self.block.resize(size as usize, byte)?;
        Ok(enlarge_heap(&mut self.block[..], old_size as u16))
    }
}

/// Makes the heap in a block's first bytes one of the whole block.
fn enlarge_heap(block: &mut [u8], old_size: u16) -> Answer
    requires within { old_size ≤ length block.old }
    requires size { IsBlockSize (length block.old) }
{
    if !begins_with_a_heap(block, old_size as usize) {
        return Answer::Said("no heap");
    }
    enlarged(block, old_size);
    Answer::Done
}

/// Whether the first bytes of a block are a heap.
fn begins_with_a_heap(block: &[u8], size: usize) -> bool
    requires { size ≤ length block.now }
    ensures { IsTrue result ↔ IsHeap (take size block.now) }
{
    check(&block[..size])
}

/// So many words of the block from an offset on, as far as it goes.
fn words(global: Global, block: &[u8], line: &Line<'_>) -> Result<Vec<u16>, AllocError> {
    let mut words = Vec::new(global);
    for i in 0..line.word_at(1) as usize {
        let at = line.word_at(0) as usize + 2 * i;
        if at + 1 < block.len() {
            words.push(u16::from_le_bytes([block[at], block[at + 1]]))?;
        }
    }
    Ok(words)
}

/// Makes a call on a heap that changes nothing, or another one.
fn look(global: Global, block: &mut [u8], line: &Line<'_>) -> Result<Answer, AllocError>
    requires { IsHeap block.old }
{
    let [c, i, ..] = line.words();
    match line.word {
        "size" => shown_result(global, size(block, c)),
        "place" => shown_result(global, place(block, c)),
        "next" => shown(global, next(block, c)),
        "total_free" => shown(global, total_free(block)),
        "bytes" => shown_result(global, chunk(block, c)),
        "count" => shown_result(global, count(block, c)),
        "element" => shown_result(global, part(block, c, i)),
        _ => change(global, block, line),
    }
}

/// Makes a call that changes a heap.
fn change(global: Global, block: &mut [u8], line: &Line<'_>) -> Result<Answer, AllocError>
    requires { IsHeap block.old }
{
    let [c, i, n, ..] = line.words();
    match line.word {
        "alloc" => shown_result(global, alloc(block, c)),
        "free" => shown_done(global, free(block, c)),
        "realloc" => shown_done(global, realloc(block, c, i)),
        "insert" => shown_done(global, insert(block, c, i, n)),
        "delete" => shown_done(global, delete(block, c, i, n)),
        "contract" => {
            contract(block);
            Ok(Answer::Done)
        }
        "count_into" => shown_done(global, count_into(block, c, i)),
        "create" => shown_result(global, create(block, c)),
        "append" => shown_done(global, append(block, c, i)),
        "insert_element" => shown_done(global, chunk_array::insert(block, c, i, n)),
        "resize_element" => shown_done(global, resize_element(block, c, i, n)),
        "remove" => shown_done(global, remove(block, c, i)),
        "clear" => shown_done(global, clear(block, c)),
        "count_into_element" => shown_done(global, count_into_element(block, c, i, n)),
        _ => Ok(Answer::NotACall),
    }
}

/// The bytes of a chunk.
fn chunk(block: &[u8], c: u16) -> Result<&[u8], BadChunk>
    requires { IsHeap block.now }
{
    let (at, len) = place(block, c)?;
    Ok(&block[at as usize..at as usize + len as usize])
}

/// The offset of an element from its chunk's first byte, and its length.
fn part(block: &[u8], c: u16, i: u16) -> Result<(u16, u16), ElementError>
    requires { IsHeap block.now }
{
    let (at, len) = element(block, c, i)?;
    match place(block, c) {
        Ok((begin, _)) => Ok((at.wrapping_sub(begin), len)),
        Err(_) => Err(ElementError::BadChunk),
    }
}

/// Writes numbers that count up from a first one into a chunk.
fn count_into(block: &mut [u8], c: u16, first: u16) -> Result<(), BadChunk>
    requires { IsHeap block.old }
{
    let (at, len) = place(block, c)?;
    count_up(&mut block[at as usize..at as usize + len as usize], first);
    Ok(())
}

/// Writes numbers that count up from a first one into an element.
fn count_into_element(block: &mut [u8], c: u16, i: u16, first: u16) -> Result<(), ElementError>
    requires { IsHeap block.old }
{
    let (at, len) = element(block, c, i)?;
    count_up(&mut block[at as usize..at as usize + len as usize], first);
    Ok(())
}

/// Makes the bytes count up from a first one, and on from 0 after 255.
fn count_up(bytes: &mut [u8], first: u16) {
    let mut number = (first % 256) as u8;
    for byte in bytes.iter_mut() {
        *byte = number;
        number = number.wrapping_add(1);
    }
}
