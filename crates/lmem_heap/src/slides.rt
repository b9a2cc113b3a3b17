//! Runs of chunks that have moved, while the table still has their old offsets.
ghost use Rattle.std.specs.Prelude.{◌≡◌, ℕ, ◌+◌, ◌<◌, ◌≤◌, ◌⊎◌, false, length, IsTrue};
ghost use Rattle.geos_terms.specs.Block.{entries, entry, entry_offset, table_end};
ghost use Rattle.lmem_heap.specs.Moves.{entry_moved, MapsEntries};
ghost use Rattle.lmem_heap.specs.Slides.{AreInOrder, entry_slid, run_at};

use lmem_block::{entries, entry, put_entry};

/// How many runs move before the table is written.
pub(crate) const MOST_SLIDES: usize = 128;

/// How many entries are compared together.
const RUN: usize = 16;

/// A run of chunks that was moved from `from`, up to `end`, to `to`.
#[derive(Clone, Copy, Default)]
pub(crate) struct Slide {
    pub(crate) from: u16,
    pub(crate) end: u16,
    pub(crate) to: u16,
}

impl Slide {
    /// An entry after this run has moved.
    fn moved(self, entry: u16) -> u16
        requires { self.to ≤ self.from }
        ensures { result ≡ entry_moved self.from self.end self.to entry }
    {
        if self.from < entry && entry < self.end {
            entry - self.from + self.to
        } else {
            entry
        }
    }
}

/// Runs of chunks that have moved, which stood between two offsets.
#[derive(Clone, Copy)]
struct Slides<'a> {
    runs: &'a [Slide],
    low: u16,
    high: u16,
}

/// Writes the new offsets of the chunks of these runs into the table. Runs of entries without a
/// moved chunk are left out.
pub(crate) fn write_entries(block: &mut [u8], slides: &[Slide])
    requires table { table_end block.old ≤ length block.old }
    requires order { (high : ℕ) × AreInOrder 0 slides.now high }
    requires some { 0 < length slides.now }
    ensures { MapsEntries block.old block.new (entry_slid slides.now) 0 (entries block.old) }
{
    let low = slides[0].from;
    let high = slides[slides.len() - 1].end;
    let moved = Slides {
        runs: slides,
        low,
        high,
    };
    let n = entries(block);
    let runs = n / RUN;
    for run in 0..runs {
        if !is_apart(block, RUN * run, low, high) {
            write_run(block, &moved, RUN * run, RUN * run + RUN);
        }
    }
    write_run(block, &moved, RUN * runs, n);
}

/// Whether no entry of the run that begins at this one lies between two offsets. It reads all of
/// them, with no branch on the way, so that they can be compared together.
fn is_apart(block: &[u8], from: usize, low: u16, high: u16) -> bool
    requires { entry_offset (from + RUN) ≤ length block.now }
    ensures { IsTrue result → (k : ℕ) → from ≤ k → k < from + RUN → (entry block.now k ≤ low) ⊎ (high ≤ entry block.now k) }
{
    let mut inside = false;
    for i in from..from + RUN {
        inside |= is_inside(entry(block, i), low, high);
    }
    !inside
}

fn is_inside(entry: u16, low: u16, high: u16) -> bool
    ensures { result ≡ false → (entry ≤ low) ⊎ (high ≤ entry) }
{
    low < entry && entry < high
}

/// Writes the entries from one on up to another.
fn write_run(block: &mut [u8], slides: &Slides, from: usize, end: usize)
    requires table { table_end block.old ≤ length block.old }
    requires within { (from ≤ end) × (end ≤ entries block.old) }
    requires order { AreInOrder slides.now.low slides.now.runs.now slides.now.high }
    requires some { 0 < length slides.now.runs.now }
    ensures { MapsEntries block.old block.new (entry_slid slides.now.runs.now) from end }
{
    for i in from..end {
        let slid = slid_entry(slides, entry(block, i));
        put_entry(block, i, slid);
    }
}

/// An entry after these runs have moved.
fn slid_entry(slides: &Slides, entry: u16) -> u16
    requires order { AreInOrder slides.now.low slides.now.runs.now slides.now.high }
    requires some { 0 < length slides.now.runs.now }
    ensures { result ≡ entry_slid slides.now.runs.now entry }
{
    let Slides { runs, low, high } = *slides;
    if entry <= low || high <= entry {
        return entry;
    }
    runs[last_below(runs, entry)].moved(entry)
}

/// The last run that begins below an entry, by binary search; the first run if none does.
fn last_below(slides: &[Slide], entry: u16) -> usize
    requires { 0 < length slides.now }
    ensures known { result < length slides.now }
    ensures below { 0 < result → (run_at slides.now result).from < entry }
    ensures next { result + 1 < length slides.now → entry ≤ (run_at slides.now (result + 1)).from }
{
    let mut last = 0;
    let mut end = slides.len();
    while end - last > 1 {
        let middle = last + (end - last) / 2;
        if slides[middle].from < entry {
            last = middle;
        } else {
            end = middle;
        }
    }
    last
}
