//! Heaps with their free bytes at the end.
ghost use Rattle.std.specs.Prelude.{◌≡◌, ℕ, ◌+◌, ◌≤◌, List, IfSome, IsTrue, ◌↔◌};
ghost use Rattle.geos_terms.specs.Block.{chunks, handle_word};
ghost use Rattle.geos_terms.specs.Heap.{IsHeader, IsHeap, IsCompact};
ghost use Rattle.lmem_heap.specs.Slides.{IsButForEntries};
ghost use Rattle.lmem_heap.specs.Gaps.{ClosesGaps, IsFirstGap};

use crate::runs::move_run;
use crate::slides::{MOST_SLIDES, Slide, write_entries};
use arrayvec::ArrayVec;
use lmem_block::{FIRST_FREE, get16, move_bytes, put16};

/// Moves the chunks together, so that at most one free chunk is left, at the block's end.
/// Every chunk keeps its handle and its bytes. Each byte moves at most once.
pub fn contract(block: &mut [u8])
    requires { IsHeap block.old }
    ensures heap { IsHeap block.new }
    ensures chunks { chunks block.new ≡ chunks block.old }
    ensures handle { handle_word block.new ≡ handle_word block.old }
    ensures compact { IsCompact block.new }
{
    while !is_compact(block) {
        close_gaps(block);
    }
}

/// Closes the first gap; if the run after it is short, also further gaps, with one pass over the table for all of them.
fn close_gaps(block: &mut [u8])
    requires heap { IsHeap block.old }
    requires not_compact { IsCompact block.old → ⊥ }
    ensures { ClosesGaps block.old block.new }
{
    let gap = Gap::first_of(block);
    if gap.is_long(block) {
        gap.close(block);
    } else {
        slide_gaps(block, gap);
    }
}

/// Moves the chunks after one gap after the other, up to one with a long run, and then writes
/// their entries. It has a table of runs on the stack, which is of no use for a single one.
#[inline(never)]
fn slide_gaps(block: &mut [u8], first: Gap)
    requires heap { IsHeap block.old }
    requires not_compact { IsCompact block.old → ⊥ }
    requires first { IsFirstGap block.old first }
    ensures { ClosesGaps block.old block.new }
{
    let mut slides: ArrayVec<Slide, MOST_SLIDES> = ArrayVec::new();
    let mut next = Some(first);
    while let Some(gap) = next {
        let slide = gap.slide(block);
        slides.push(slide);
        next = if slides.is_full() {
            None
        } else {
            short_gap(block)
        };
    }
    write_entries(block, &slides);
}

/// The first gap, if the run after it is short.
fn short_gap(block: &[u8]) -> Option<Gap>
    requires { (heap : List ℕ) × IsButForEntries block.now heap }
    ensures { IfSome result (λ gap. IsFirstGap block.now gap) }
{
    if is_compact(block) {
        return None;
    }
    let gap = Gap::first_of(block);
    if gap.is_long(block) {
        return None;
    }
    Some(gap)
}

/// Whether there is at most one free chunk, at the end.
fn is_compact(block: &[u8]) -> bool
    requires { (heap : List ℕ) × IsButForEntries block.now heap }
    ensures { IsTrue result ↔ IsCompact block.now }
{
    let first = get16(block, FIRST_FREE) as usize;
    if first == 0 {
        return true;
    }
    let size = get16(block, first) as usize;
    if first + size == block.len() {
        return true;
    }
    false
}

/// The first free chunk of a heap with chunks after it.
#[derive(Clone, Copy)]
struct Gap {
    /// Its offset and its size.
    first: u16,
    size: u16,
    /// The end of the chunks after it: the next free chunk, or the block's end.
    end: u16,
    /// The size of that free chunk, and the next one after it; both 0 at the block's end.
    more: u16,
    after: u16,
}

impl Gap {
    ghost use Rattle.lmem_heap.specs.Gaps.{HasGap, IsFirstGap, ClosesGap, slid, slide_of};

    fn first_of(block: &[u8]) -> Gap
        requires heap { (heap : List ℕ) × IsButForEntries block.now heap }
        requires not_compact { IsCompact block.now → ⊥ }
        ensures { IsFirstGap block.now result }
    {
        let first = get16(block, FIRST_FREE);
        let size = get16(block, first as usize);
        let next = get16(block, first as usize + 2);
        if next == 0 {
            return Gap {
                first,
                size,
                end: block.len() as u16,
                more: 0,
                after: 0,
            };
        }
        let more = get16(block, next as usize);
        let after = get16(block, next as usize + 2);
        Gap {
            first,
            size,
            end: next,
            more,
            after,
        }
    }

    /// Whether the run after it is so long that one pass over the table takes less time than a
    /// search for each of its entries.
    fn is_long(self, block: &[u8]) -> bool
        requires { self.first + self.size ≤ self.end }
    {
        let run = self.end - (self.first + self.size);
        64 * run as usize >= block.len()
    }

    /// Moves the chunks after the gap to where it begins, and joins it with the free chunk
    /// there.
    fn close(self, block: &mut [u8])
        requires header { IsHeader block.old }
        requires gap { HasGap block.old self }
        ensures { ClosesGap block.old block.new self }
    {
        let (first, size, end) = (self.first as usize, self.size as usize, self.end as usize);
        move_run(block, first + size, end, first);
        put16(block, end - size, self.size + self.more);
        put16(block, end - size + 2, self.after);
        put16(block, FIRST_FREE, self.end - self.size);
    }
    /// The same, but leaves the entries of the chunks as they are. The run that has moved.
    fn slide(self, block: &mut [u8]) -> Slide
        requires gap { (heap : List ℕ) × IsButForEntries block.old heap × HasGap heap self }
        ensures run { result ≡ slide_of self }
        ensures bytes { block.new ≡ slid block.old self }
    {
        let (first, size, end) = (self.first as usize, self.size as usize, self.end as usize);
        move_bytes(block, first + size, first, end - (first + size));
        put16(block, end - size, self.size + self.more);
        put16(block, end - size + 2, self.after);
        put16(block, FIRST_FREE, self.end - self.size);
        Slide {
            from: self.first + self.size,
            end: self.end,
            to: self.first,
        }
    }
}
