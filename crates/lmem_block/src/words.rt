//! Words and parts of a block.
ghost use Rattle.std.specs.Prelude.{◌≡◌, ◌+◌, ◌*◌, ◌≤◌, length, replicate};
ghost use Rattle.lmem_raw.specs.Bytes.{part, with_part};
ghost use Rattle.geos_terms.specs.Bytes.{AreWords, with_word, with_words, word};

use byteorder::{ByteOrder, LittleEndian};

/// The word at an offset, little-endian.
pub fn get16(block: &[u8], at: usize) -> u16
    requires { at + 2 ≤ length block.now }
    ensures { result ≡ word block.now at }
{
    LittleEndian::read_u16(&block[at..at + 2])
}

/// Writes a word, little-endian.
pub fn put16(block: &mut [u8], at: usize, word: u16)
    requires { at + 2 ≤ length block.old }
    ensures { block.new ≡ with_word block.old at word }
{
    LittleEndian::write_u16(&mut block[at..at + 2], word);
}

/// Writes words one after the other.
pub(crate) fn put_words(block: &mut [u8], at: usize, words: &[u16])
    requires { at + 2 * length words.now ≤ length block.old }
    ensures words { AreWords block.new at words.now }
    ensures after { block.new ≡ with_words block.old at words.now }
{
    for (i, word) in words.iter().enumerate() {
        put16(block, at + 2 * i, *word);
    }
}

/// Moves bytes with their old values, also if the two ranges overlap.
pub fn move_bytes(block: &mut [u8], from: usize, to: usize, count: usize)
    requires source { from + count ≤ length block.old }
    requires target { to + count ≤ length block.old }
    ensures { block.new ≡ with_part block.old to (part block.old from count) }
{
    block.copy_within(from..from + count, to);
}

/// Writes zero bytes.
pub fn clear(block: &mut [u8], at: usize, count: usize)
    requires { at + count ≤ length block.old }
    ensures { block.new ≡ with_part block.old at (replicate count 0) }
{
    block[at..at + count].fill(0);
}
