//! Marks of the offsets at which the chunks of a table begin.
ghost use Rattle.std.specs.Prelude.{◌≡◌, ℕ, ◌*◌, ◌≤◌, false, length, MatchOption, slice_index_or};
ghost use Rattle.geos_terms.specs.Block.{entries};
ghost use Rattle.geos_terms.specs.Heap.{IsHeader};
ghost use Rattle.lmem_block.specs.Check.{IsTiled, Marks, marks_from};

use crate::header::{NO_BYTE, entries, entry, table_end};

/// Marks the offsets at which the chunks of the table begin, each once, and returns how many there are. There is a mark
/// for each four bytes. None if an entry can't be the offset of a chunk: it lies in the table, after the block, at an
/// offset that no chunk can have, or where another entry's chunk begins.
pub(crate) fn mark(block: &[u8], starts: &mut [bool]) -> Option<usize>
    requires header { IsHeader block.now }
    requires blank { (k : ℕ) → slice_index_or starts.old k false ≡ false }
    requires room { length block.now ≤ 4 * length starts.old }
    ensures { MatchOption result (IsTiled block.now → ⊥) (λ n. Marks block.now (entries block.now) starts.new × (n ≡ marks_from starts.new 0)) }
{
    let mut marks = 0;
    let n = entries(block);
    let lowest = table_end(block) + 2;
    for i in 0..n {
        let e = entry(block, i);
        if e != 0 && e != NO_BYTE {
            let at = e as usize;
            if at < lowest || at >= block.len() || at % 4 != 2 || starts[at / 4] {
                return None;
            }
            starts[at / 4] = true;
            marks += 1;
        }
    }
    Some(marks)
}
