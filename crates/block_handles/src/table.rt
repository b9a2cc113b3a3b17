//! The table of the blocks by slots. Its rows have no tag: each row encodes an entry or none.
ghost use Rattle.std.specs.Prelude.{◌≡◌, ℕ, ◌+◌, ◌-◌, ◌<◌, ◌↔◌, length, slice_index_or, slice_set, Some, None, IfOk, IfSome, IsSomeAnd, IsTrue, IsFalse};
ghost use Rattle.block_handles.specs.Rows.{HasSize, IsEntry, IsLocked, free_row};

use std::alloc::{AllocError, Global};
use std::marker::Model;

/// How many slots there are.
pub(crate) const SLOTS: usize = 2048;

/// The place of a block, and its lock count.
#[derive(Clone, Copy)]
pub(crate) struct Entry {
    pub(crate) place: u32,
    pub(crate) size: u32,
    pub(crate) locks: u16,
}

/// A slot: the place of its block, and how many more locks it can take. A free slot has no byte and takes no lock, so a
/// lock makes one test.
#[derive(Clone, Copy)]
struct Row {
    place: u32,
    size: u32,
    left: u16,
    /// Unused: it makes a row 16 bytes long, so that a shift of the slot finds the row.
    padding: u32,
}

/// The row of a free slot.
const FREE: Row = Row {
    place: 0,
    size: 0,
    left: 0,
    padding: 0,
};

/// What each slot has.
#[derive(Drop)]
pub(crate) struct Table {
    rows: Vec<Row>,
}

impl Model for Table {
    ghost use Rattle.std.specs.Prelude.{List, Option};
    ghost use Rattle.block_handles.specs.declared.table.Entry.{Entry};

    ghost Value = { List (Option Entry) };

    ghost use Rattle.block_handles.specs.Rows.{entries_in};

    ghost view = { λ t. entries_in t.rows.items };
}

/// Rows of free slots.
fn free_rows(alloc: Global, n: usize) -> Result<Vec<Row>, AllocError>
    ensures { IfOk result (λ rows. (length rows.items ≡ n) × ((slot : ℕ) → slice_index_or rows.items slot free_row ≡ free_row)) }
{
    let mut rows = Vec::new(alloc);
    for _ in 0..n {
        rows.push(FREE)?;
    }
    Ok(rows)
}

impl Table {
    /// A table of free slots.
    pub(crate) fn new(alloc: Global) -> Result<Table, AllocError>
        ensures { IfOk result (λ table. (length table ≡ 2048) × ((slot : ℕ) → slice_index_or table slot None ≡ None)) }
    {
        let rows = free_rows(alloc, SLOTS)?;
        Ok(Table { rows })
    }

    /// Whether a slot is in use.
    pub(crate) fn has(&self, slot: usize) -> bool
        requires { slot < length self.now }
        ensures { IsTrue result ↔ IsEntry (slice_index_or self.now slot None) }
    {
        let row = &self.rows[slot];
        row.left != 0 || row.size != 0
    }

    /// The entry of a slot that is in use.
    #[inline(always)]
    pub(crate) fn entry_of(&self, slot: usize) -> Entry
        requires { IsEntry (slice_index_or self.now slot None) }
        ensures { slice_index_or self.now slot None ≡ Some result }
    {
        let row = &self.rows[slot];
        Entry {
            place: row.place,
            size: row.size,
            locks: u16::MAX - row.left,
        }
    }

    /// Takes a lock more of the block in a slot. `false` if the slot is free, or its block can't be locked more often;
    /// nothing changes then.
    #[inline(always)]
    pub(crate) fn lock(&mut self, slot: usize) -> bool
        requires within { slot < length self.old }
        requires sized { HasSize (slice_index_or self.old slot None) }
        ensures taken { IsTrue result → IsSomeAnd (slice_index_or self.old slot None)
            (λ entry. (entry.locks < 65535) × (self.new ≡ slice_set self.old slot (Some (record entry { locks = entry.locks + 1 })))) }
        ensures refused { IsFalse result → IfSome (slice_index_or self.old slot None) (λ entry. entry.locks ≡ 65535) }
        ensures same { IsFalse result → self.new ≡ self.old }
    {
        if self.rows[slot].left == 0 {
            return false;
        }
        self.rows[slot].left -= 1;
        true
    }

    /// Takes back a lock of the block in a slot.
    #[inline(always)]
    pub(crate) fn unlock(&mut self, slot: usize)
        requires { IsLocked (slice_index_or self.old slot None) }
        ensures { IfSome (slice_index_or self.old slot None)
            (λ entry. self.new ≡ slice_set self.old slot (Some (record entry { locks = entry.locks - 1 }))) }
    {
        self.rows[slot].left += 1;
    }

    /// Puts a block that is not locked into a slot.
    pub(crate) fn put(&mut self, slot: usize, place: u32, size: u32)
        requires { slot < length self.old }
        ensures { self.new ≡ slice_set self.old slot (Some (record { place = place; size = size; locks = 0 })) }
    {
        self.rows[slot] = Row {
            place,
            size,
            left: u16::MAX,
            padding: 0,
        };
    }

    /// The block of a slot lies elsewhere, and has another size. Its locks stay.
    pub(crate) fn put_place(&mut self, slot: usize, place: u32, size: u32)
        requires used { IsEntry (slice_index_or self.old slot None) }
        requires sized { 0 < size }
        ensures { IfSome (slice_index_or self.old slot None)
            (λ entry. self.new ≡ slice_set self.old slot (Some (record entry { place = place; size = size }))) }
    {
        let row = &mut self.rows[slot];
        row.place = place;
        row.size = size;
    }

    /// Makes a slot free.
    pub(crate) fn free(&mut self, slot: usize)
        requires { slot < length self.old }
        ensures { self.new ≡ slice_set self.old slot None }
    {
        self.rows[slot] = FREE;
    }
}
