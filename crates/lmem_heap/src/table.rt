//! The table of chunk handles.
ghost use Rattle.std.specs.Prelude.{◌≡◌, ◌≢◌, ℕ, ◌+◌, ◌<◌, ◌≤◌, [], ◌∷◌, ◌++◌, length, IsTrue};
ghost use Rattle.geos_terms.specs.Chunks.{lowest_entry};
ghost use Rattle.geos_terms.specs.Block.{chunks, entries, entry, entry_offset, handle_word, table_end, total_free};
ghost use Rattle.geos_terms.specs.Heap.{IsHeap};
ghost use Rattle.lmem_heap.specs.Packed.{GrowsTable, IsPacked};

use crate::runs::move_run;
use crate::tail::{chunks_end, pack, set_tail};
use lmem_block::{ENTRIES, entries, entry, put16, table_end};

/// How many entries are compared together.
const RUN: usize = 16;

/// The lowest unused entry, or the number of entries if all are in use.
pub(crate) fn lowest_entry(block: &[u8]) -> usize
    requires { table_end block.now ≤ length block.now }
    ensures value { result ≡ lowest_entry (chunks block.now) }
    ensures within { result ≤ entries block.now }
    ensures free { result < entries block.now → entry block.now result ≡ 0 }
{
    let n = entries(block);
    for i in used_runs(block, n)..n {
        if entry(block, i) == 0 {
            return i;
        }
    }
    n
}

/// How many entries from the first on are in use, counted in whole runs.
fn used_runs(block: &[u8], n: usize) -> usize
    requires { entry_offset n ≤ length block.now }
    ensures within { result ≤ n }
    ensures used { (k : ℕ) → k < result → entry block.now k ≢ 0 }
{
    let runs = n / RUN;
    for run in 0..runs {
        if !is_used_run(block, RUN * run) {
            return RUN * run;
        }
    }
    RUN * runs
}

/// Whether each entry of the run that begins at this one is in use. It reads all of them, with
/// no branch on the way, so that they can be compared together.
fn is_used_run(block: &[u8], from: usize) -> bool
    requires { entry_offset (from + RUN) ≤ length block.now }
    ensures { IsTrue result → (k : ℕ) → from ≤ k → k < from + RUN → entry block.now k ≢ 0 }
{
    let mut free = false;
    for i in from..from + RUN {
        free |= entry(block, i) == 0;
    }
    !free
}

/// Gives the table two more entries. The chunks move up to make room.
pub(crate) fn add_entries(block: &mut [u8])
    requires heap { IsHeap block.old }
    requires room { 4 ≤ total_free block.old }
    ensures heap { IsHeap block.new }
    ensures chunks { chunks block.new ≡ chunks block.old ++ (None ∷ (None ∷ [])) }
    ensures handle { handle_word block.new ≡ handle_word block.old }
    ensures count { entries block.new ≡ entries block.old + 2 }
    ensures fresh { entry block.new (entries block.old) ≡ 0 }
{
    pack(block);
    grow_table(block);
}

/// Gives the table of a packed heap two more entries.
fn grow_table(block: &mut [u8])
    requires packed { IsPacked block.old }
    requires room { 4 ≤ total_free block.old }
    ensures { GrowsTable block.old block.new }
{
    let n = entries(block);
    let end = table_end(block);
    let at = chunks_end(block);
    move_run(block, end, at, end + 4);
    put16(block, end, 0);
    put16(block, end + 2, 0);
    put16(block, ENTRIES, (n + 2) as u16);
    set_tail(block, at + 4);
}
