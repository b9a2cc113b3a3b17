//! The table of offsets of an array whose sizes vary.
ghost use Rattle.std.specs.Prelude.{ℕ, ◌+◌, ◌*◌, ◌<◌, ◌≤◌, length, IsTrue};
ghost use Rattle.chunk_array.specs.Tables.{offset, ClosesTable, OpensTable, ShiftsOffsets};

use crate::shape::HEADER;
use lmem_block::{get16, move_bytes, put16};

/// How many offsets are compared together.
const RUN: usize = 16;

/// How many offsets from the first one on never fall, counted in whole runs after the first.
pub(crate) fn rising_offsets(bytes: &[u8], count: usize) -> usize
    requires some { 0 < count }
    requires within { 8 + 2 * count ≤ length bytes.now }
    ensures within { (0 < result) × (result ≤ count) }
    ensures rise { (j : ℕ) → j + 1 < result → offset bytes.now j ≤ offset bytes.now (j + 1) }
{
    let runs = (count - 1) / RUN;
    for run in 0..runs {
        if !is_rising_run(bytes, RUN * run) {
            return RUN * run + 1;
        }
    }
    RUN * runs + 1
}

/// Whether none of the offsets after this one, a run of them, is below the one before
/// it. It reads all of them without a branch, so that they can be compared together.
fn is_rising_run(bytes: &[u8], from: usize) -> bool
    requires { 8 + 2 * (from + RUN + 1) ≤ length bytes.now }
    ensures { IsTrue result → (j : ℕ) → from ≤ j → j < from + RUN → offset bytes.now j ≤ offset bytes.now (j + 1) }
{
    let mut falls = false;
    for j in from..from + RUN {
        let at = HEADER + 2 * j;
        falls |= get16(bytes, at + 2) < get16(bytes, at);
    }
    !falls
}

/// Makes the offsets from one index up to another lower by `less` and higher by `more`.
pub(crate) fn shift_offsets(bytes: &mut [u8], from: usize, to: usize, less: usize, more: usize)
    requires order { from ≤ to }
    requires within { 8 + 2 * to ≤ length bytes.old }
    requires small { (less ≤ 131070) × (more ≤ 131070) × (to ≤ 65535) }
    requires room { (j : ℕ) → from ≤ j → j < to → (less ≤ offset bytes.old j) × (offset bytes.old j + more ≤ 65535 + less) }
    ensures { ShiftsOffsets bytes.old bytes.new from to less more }
{
    for j in from..to {
        let at = HEADER + 2 * j;
        let moved = get16(bytes, at) as usize - less + more;
        put16(bytes, at, moved as u16);
    }
}

/// Inserts an offset into the table at an index, for a new element of n bytes. There are n + 2 bytes at
/// `at`, the place of the element: the elements before it move up by 2, over the first of these bytes.
pub(crate) fn open_table(bytes: &mut [u8], count: usize, i: usize, at: usize, n: usize)
    requires order { i ≤ count }
    requires table { 8 + 2 * count ≤ at }
    requires room { at + (n + 2) ≤ length bytes.old }
    requires small { length bytes.old ≤ 65535 }
    requires offsets { (j : ℕ) → j < count → offset bytes.old j + (n + 2) ≤ 65535 }
    ensures { OpensTable bytes.old bytes.new count i at n }
{
    let here = HEADER + 2 * i;
    move_bytes(bytes, here, here + 2, at - here);
    shift_offsets(bytes, 0, i, 0, 2);
    put16(bytes, here, (at + 2) as u16);
    shift_offsets(bytes, i + 1, count + 1, 0, n + 2);
}

/// Removes an offset from the table, with the n bytes of its element at `at`. The elements
/// before it move down by 2, and those after it stay: then n + 2 bytes before them are unused.
pub(crate) fn close_table(bytes: &mut [u8], count: usize, i: usize, at: usize, n: usize)
    requires order { i < count }
    requires table { 8 + 2 * count ≤ at }
    requires room { at + n ≤ length bytes.old }
    requires small { length bytes.old ≤ 65535 }
    requires before { (j : ℕ) → j < i → (2 ≤ offset bytes.old j) × (offset bytes.old j ≤ 65535) }
    requires behind { (j : ℕ) → i < j → j < count → (n + 2 ≤ offset bytes.old j) × (offset bytes.old j ≤ 65535) }
    ensures { ClosesTable bytes.old bytes.new count i at n }
{
    let here = HEADER + 2 * i;
    move_bytes(bytes, here + 2, here, at - (here + 2));
    shift_offsets(bytes, 0, i, 2, 0);
    shift_offsets(bytes, i, count - 1, n + 2, 0);
}
