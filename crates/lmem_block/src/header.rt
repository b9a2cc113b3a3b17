//! The header's words and the entries of the table.
ghost use Rattle.std.specs.Prelude.{◌≡◌, ◌+◌, ◌<◌, ◌≤◌, length};
ghost use Rattle.geos_terms.specs.Bytes.{with_word};
ghost use Rattle.geos_terms.specs.Chunks.{handle_of};
ghost use Rattle.geos_terms.specs.Block.{entries, entry, entry_offset, table_end};

use crate::words::{get16, put16};

// the offsets of the header's words, after the block's handle
/// The offset of the word that has the table's offset, which is always `TABLE`.
pub(crate) const TABLE_BEGIN: usize = 2;
/// 0.
pub(crate) const FLAGS: usize = 4;
/// 0.
pub(crate) const KIND: usize = 6;
/// The block's size.
pub const BLOCK_SIZE: usize = 8;
/// The number of table entries.
pub const ENTRIES: usize = 10;
/// The offset of the first free chunk, or 0.
pub const FIRST_FREE: usize = 12;
/// The bytes in free chunks.
pub const TOTAL_FREE: usize = 14;

/// The offset at which the table begins.
pub const TABLE: usize = 16;

/// The entry of a chunk of no byte.
pub const NO_BYTE: u16 = 0xffff;

/// The number of table entries.
pub fn entries(block: &[u8]) -> usize
    requires { 16 ≤ length block.now }
    ensures value { result ≡ entries block.now }
    ensures small { result < 65536 }
{
    get16(block, ENTRIES) as usize
}

/// The offset at which the table ends.
pub fn table_end(block: &[u8]) -> usize
    requires { 16 ≤ length block.now }
    ensures value { result ≡ table_end block.now }
    ensures small { result < 131088 }
{
    TABLE + 2 * entries(block)
}

/// The handle of an entry, which is the entry's offset.
pub fn handle_of(index: usize) -> u16
    requires { handle_of index < 65536 }
    ensures { result ≡ handle_of index }
{
    (TABLE + 2 * index) as u16
}

/// An entry of the table: 0 for no chunk, `NO_BYTE`, or the offset of a chunk's first byte.
pub fn entry(block: &[u8], index: usize) -> u16
    requires { entry_offset index + 2 ≤ length block.now }
    ensures { result ≡ entry block.now index }
{
    get16(block, TABLE + 2 * index)
}

/// Writes an entry of the table.
pub fn put_entry(block: &mut [u8], index: usize, word: u16)
    requires { entry_offset index + 2 ≤ length block.old }
    ensures { block.new ≡ with_word block.old (entry_offset index) word }
{
    put16(block, TABLE + 2 * index, word);
}
