//! Chunks that move within a block.
ghost use Rattle.std.specs.Prelude.{◌≡◌, ◌+◌, ◌-◌, ◌≤◌, length};
ghost use Rattle.geos_terms.specs.Block.{entries, table_end};
ghost use Rattle.geos_terms.specs.Heap.{most_block_bytes};
ghost use Rattle.lmem_heap.specs.Moves.{entry_moved, MapsEntries, MovesRun};

use lmem_block::{entries, entry, move_bytes, put_entry};

/// Moves the chunks from `from` to `end` so that they begin at `to`, and their entries with
/// them.
pub(crate) fn move_run(block: &mut [u8], from: usize, end: usize, to: usize)
    requires behind_table { (table_end block.old ≤ from) × (table_end block.old ≤ to) }
    requires within { (from ≤ end) × (end ≤ length block.old) × (to + (end - from) ≤ length block.old) }
    requires small { length block.old ≤ most_block_bytes }
    ensures { MovesRun block.old block.new from end to }
{
    if from == to {
        return;
    }
    move_bytes(block, from, to, end - from);
    move_entries(block, from as u16, end as u16, to as u16);
}

/// Moves the entries of the chunks that stood from `from` to `end`.
fn move_entries(block: &mut [u8], from: u16, end: u16, to: u16)
    requires table { table_end block.old ≤ length block.old }
    requires fits { (from ≤ end) × (to + (end - from) ≤ most_block_bytes) }
    ensures { MapsEntries block.old block.new (entry_moved from end to) 0 (entries block.old) }
{
    for i in 0..entries(block) {
        let moved = moved_entry(entry(block, i), from, end, to);
        put_entry(block, i, moved);
    }
}

fn moved_entry(entry: u16, from: u16, end: u16, to: u16) -> u16
    requires { (from ≤ end) × (to + (end - from) ≤ most_block_bytes) }
    ensures { result ≡ entry_moved from end to entry }
{
    if from < entry && entry < end {
        entry - from + to
    } else {
        entry
    }
}
