//! Holes: bytes that belong neither to a chunk nor to a free chunk, while chunks are made, freed or resized.
ghost use Rattle.std.specs.Prelude.{◌≡◌, ◌≢◌, ◌+◌, ◌-◌, ◌%◌, ◌<◌, ◌≤◌, length, slice_set, IfSome, MatchOption, IsTrue, None, Some, ◌↔◌};
ghost use Rattle.lmem_raw.specs.Bytes.{part};
ghost use Rattle.geos_terms.specs.Bytes.{word};
ghost use Rattle.geos_terms.specs.Chunks.{cost, resized};
ghost use Rattle.geos_terms.specs.Block.{chunks, entries, entry, handle_word};
ghost use Rattle.geos_terms.specs.Heap.{IsHeap, IsOffset};
ghost use Rattle.lmem_heap.specs.Packed.{chunk_end, chunk_length};
ghost use Rattle.lmem_heap.specs.Holes.{FirstIsSmaller, FitsBehind, GivesBack, IsBeside, IsOpen, MakesRoom, Widens};

use crate::chunks::cost;
use crate::extents::Extent;
use lmem_block::{FIRST_FREE, TOTAL_FREE, clear, get16, move_bytes, put_entry, put16};

/// The bytes of a hole, and the link of the free list before it: the offset of the word that
/// names the next free chunk, which is the header's or that of the last free chunk before the
/// hole.
#[derive(Clone, Copy)]
pub(crate) struct Hole {
    link: usize,
    at: usize,
    end: usize,
}

impl Hole {
    /// The hole at these bytes: searches the free list up to it.
    pub(crate) fn at(block: &[u8], at: usize, end: usize) -> Hole
        requires { IsOpen block.now 12 at end }
        ensures hole { IsBeside block.now result.link at end }
        ensures place { (result.at ≡ at) × (result.end ≡ end) }
    {
        let mut link = FIRST_FREE;
        let mut next = get16(block, link) as usize;
        while next != 0 && next < at {
            link = next + 2;
            next = get16(block, link) as usize;
        }
        Hole { link, at, end }
    }

    /// The first free chunk of at least this size, as the one after an empty hole.
    pub(crate) fn first_fit(block: &[u8], size: usize) -> Option<Hole>
        requires { IsHeap block.now }
        ensures { MatchOption result (FirstIsSmaller block.now size) (λ hole. FitsBehind block.now hole.link hole.at hole.end size) }
    {
        let mut link = FIRST_FREE;
        let mut next = get16(block, link) as usize;
        while next != 0 {
            if get16(block, next) as usize >= size {
                return Some(Hole {
                    link,
                    at: next,
                    end: next,
                });
            }
            link = next + 2;
            next = get16(block, link) as usize;
        }
        None
    }

    /// The hole that the chunk of an entry leaves. The entry is not in use then.
    pub(crate) fn left_by(block: &mut [u8], i: usize) -> Hole
        requires heap { IsHeap block.old }
        requires known { i < entries block.old }
        requires offset { IsOffset (entry block.old i) }
        ensures hole { IsBeside block.new result.link result.at result.end }
        ensures place { (result.at ≡ entry block.old i - 2) × (result.end ≡ chunk_end block.old i) }
        ensures some { result.at < result.end }
        ensures fours { result.end % 4 ≡ 0 }
        ensures chunks { chunks block.new ≡ slice_set (chunks block.old) i None }
        ensures handle { handle_word block.new ≡ handle_word block.old }
        ensures count { entries block.new ≡ entries block.old }
        ensures free { entry block.new i ≡ 0 }
        ensures bytes { part block.new (entry block.old i) (chunk_length block.old i)
            ≡ part block.old (entry block.old i) (chunk_length block.old i) }
    {
        let chunk = Extent::of(block, i);
        put_entry(block, i, 0);
        Hole::at(block, chunk.begin, chunk.end)
    }

    /// Makes the front of the hole the chunk of an unused entry. Its first `keep`
    /// bytes are those of the hole, the others zeros. Returns the rest of the hole.
    pub(crate) fn fill(self, block: &mut [u8], i: usize, keep: usize, n: u16) -> Hole
        requires hole { IsBeside block.old self.link self.at self.end }
        requires some { 0 < n }
        requires room { self.at + cost n ≤ self.end }
        requires kept { self.at + 2 + keep ≤ length block.old }
        requires known { i < entries block.old }
        requires free { entry block.old i ≡ 0 }
        ensures hole { IsBeside block.new result.link result.at result.end }
        ensures place { (result.link ≡ self.link) × (result.at ≡ self.at + cost n) × (result.end ≡ self.end) }
        ensures chunks { chunks block.new ≡ slice_set (chunks block.old) i (Some (resized (part block.old (self.at + 2) keep) n)) }
        ensures handle { handle_word block.new ≡ handle_word block.old }
    {
        put_entry(block, i, (self.at + 2) as u16);
        put16(block, self.at, n + 2);
        let more = (n as usize).saturating_sub(keep);
        clear(block, self.at + 2 + keep, more);
        Hole {
            link: self.link,
            at: self.at + cost(n as usize),
            end: self.end,
        }
    }

    /// Moves the chunk of an entry to where the hole is, and gives it n bytes, which fill the
    /// hole: its first ones that fit, and zeros after them. The hole that it leaves.
    pub(crate) fn move_in(self, block: &mut [u8], i: usize, n: u16) -> Hole
        requires hole { IsBeside block.old self.link self.at self.end }
        requires some { 0 < n }
        requires room { self.at + cost n ≡ self.end }
        requires known { i < entries block.old }
        requires offset { IsOffset (entry block.old i) }
        ensures hole { IsBeside block.new result.link result.at result.end }
        ensures fours { result.end % 4 ≡ 0 }
        ensures chunks { chunks block.new
            ≡ slice_set (chunks block.old) i (Some (resized (part block.old (entry block.old i) (chunk_length block.old i)) n)) }
        ensures handle { handle_word block.new ≡ handle_word block.old }
    {
        let chunk = Extent::of(block, i);
        let keep = chunk.len.min(n as usize);
        put_entry(block, i, (self.at + 2) as u16);
        put16(block, self.at, n + 2);
        move_bytes(block, chunk.begin + 2, self.at + 2, keep);
        clear(block, self.at + 2 + keep, n as usize - keep);
        Hole::at(block, chunk.begin, chunk.end)
    }

    /// Enlarges the hole to this size with bytes of the free chunk after it,
    /// if it is smaller. None if they are not enough; then nothing is changed.
    pub(crate) fn widen(self, block: &mut [u8], size: usize) -> Option<Hole>
        requires hole { IsBeside block.old self.link self.at self.end }
        requires fours { (self.end % 4 ≡ 0) × (size % 4 ≡ 0) }
        ensures at { IfSome result (λ hole. hole.at ≡ self.at) }
        ensures room { MatchOption result (block.new ≡ block.old) (λ hole. MakesRoom block.old block.new self.end size hole.link hole.at hole.end) }
    {
        let has = self.end - self.at;
        if has >= size {
            return Some(self);
        }
        if get16(block, self.link) as usize != self.end {
            return None;
        }
        if (get16(block, self.end) as usize) < size - has {
            return None;
        }
        Some(self.take(block, size - has))
    }

    /// Takes so many bytes from the front of the free chunk after the hole.
    pub(crate) fn take(self, block: &mut [u8], size: usize) -> Hole
        requires hole { IsBeside block.old self.link self.at self.end }
        requires behind { word block.old self.link ≡ self.end }
        requires some { 0 < size }
        requires fours { size % 4 ≡ 0 }
        requires room { size ≤ word block.old self.end }
        ensures wider { Widens block.old block.new self.link self.at self.end result.end }
        ensures place { (result.link ≡ self.link) × (result.at ≡ self.at) × (result.end ≡ self.end + size) }
    {
        if size == get16(block, self.end) as usize {
            return self.take_whole(block);
        }
        self.take_front(block, size)
    }

    /// Takes bytes from the front of the free chunk after the hole, fewer than it has.
    fn take_front(self, block: &mut [u8], size: usize) -> Hole
        requires hole { IsBeside block.old self.link self.at self.end }
        requires behind { word block.old self.link ≡ self.end }
        requires some { 0 < size }
        requires fours { size % 4 ≡ 0 }
        requires room { size < word block.old self.end }
        ensures wider { Widens block.old block.new self.link self.at self.end result.end }
        ensures place { (result.link ≡ self.link) × (result.at ≡ self.at) × (result.end ≡ self.end + size) }
    {
        let left = get16(block, self.end) - size as u16;
        let next = get16(block, self.end + 2);
        let total = get16(block, TOTAL_FREE);
        let end = self.end + size;
        put16(block, end, left);
        put16(block, end + 2, next);
        put16(block, self.link, end as u16);
        put16(block, TOTAL_FREE, total - size as u16);
        Hole {
            link: self.link,
            at: self.at,
            end,
        }
    }

    /// Frees the hole's bytes: they become one free chunk with those that touch it.
    pub(crate) fn give_back(self, block: &mut [u8])
        requires hole { IsBeside block.old self.link self.at self.end }
        requires fours { self.end % 4 ≡ 0 }
        ensures { GivesBack block.old block.new }
    {
        if self.at == self.end {
            return;
        }
        let hole = self.merge_behind(block);
        if hole.touches_before(block) {
            hole.merge_before(block);
        } else {
            hole.link_in(block);
        }
    }

    /// Takes the free chunk after the hole, if there is one that touches it.
    fn merge_behind(self, block: &mut [u8]) -> Hole
        requires hole { IsBeside block.old self.link self.at self.end }
        requires some { self.at < self.end }
        requires fours { self.end % 4 ≡ 0 }
        ensures hole { IsBeside block.new result.link result.at result.end }
        ensures apart { word block.new result.link ≢ result.end }
        ensures some { result.at < result.end }
        ensures fours { result.end % 4 ≡ 0 }
        ensures chunks { chunks block.new ≡ chunks block.old }
        ensures handle { handle_word block.new ≡ handle_word block.old }
    {
        if get16(block, self.link) as usize != self.end {
            return self;
        }
        self.take_whole(block)
    }

    /// Takes the free chunk after the hole.
    fn take_whole(self, block: &mut [u8]) -> Hole
        requires hole { IsBeside block.old self.link self.at self.end }
        requires behind { word block.old self.link ≡ self.end }
        ensures wider { Widens block.old block.new self.link self.at self.end result.end }
        ensures place { (result.link ≡ self.link) × (result.at ≡ self.at) × (result.end ≡ self.end + word block.old self.end) }
        ensures apart { word block.new self.link ≢ result.end }
    {
        let size = get16(block, self.end);
        let next = get16(block, self.end + 2);
        let total = get16(block, TOTAL_FREE);
        put16(block, self.link, next);
        put16(block, TOTAL_FREE, total - size);
        Hole {
            link: self.link,
            at: self.at,
            end: self.end + size as usize,
        }
    }

    /// Whether the hole begins where the free chunk before it ends.
    fn touches_before(self, block: &[u8]) -> bool
        requires { IsBeside block.now self.link self.at self.end }
        ensures { IsTrue result ↔ ((self.link ≢ 12) × (self.link - 2 + word block.now (self.link - 2) ≡ self.at)) }
    {
        if self.link == FIRST_FREE {
            return false;
        }
        let before = self.link - 2;
        before + get16(block, before) as usize == self.at
    }

    /// Makes the hole part of the free chunk before it.
    fn merge_before(self, block: &mut [u8])
        requires hole { IsBeside block.old self.link self.at self.end }
        requires apart { word block.old self.link ≢ self.end }
        requires some { self.at < self.end }
        requires fours { self.end % 4 ≡ 0 }
        requires touch { (self.link ≢ 12) × (self.link - 2 + word block.old (self.link - 2) ≡ self.at) }
        ensures { GivesBack block.old block.new }
    {
        let before = self.link - 2;
        let total = get16(block, TOTAL_FREE);
        put16(block, before, (self.end - before) as u16);
        put16(block, TOTAL_FREE, total + (self.end - self.at) as u16);
    }

    /// Makes the hole a free chunk, and links it in.
    fn link_in(self, block: &mut [u8])
        requires hole { IsBeside block.old self.link self.at self.end }
        requires apart { word block.old self.link ≢ self.end }
        requires some { self.at < self.end }
        requires fours { self.end % 4 ≡ 0 }
        requires alone { (self.link ≢ 12) × (self.link - 2 + word block.old (self.link - 2) ≡ self.at) → ⊥ }
        ensures { GivesBack block.old block.new }
    {
        let size = (self.end - self.at) as u16;
        let next = get16(block, self.link);
        let total = get16(block, TOTAL_FREE);
        put16(block, self.at, size);
        put16(block, self.at + 2, next);
        put16(block, self.link, self.at as u16);
        put16(block, TOTAL_FREE, total + size);
    }
}
