//! How large blocks are.

ghost use Rattle.std.specs.Prelude.{◌≡◌, ◌↔◌, IsTrue};
ghost use Rattle.geos_terms.specs.Heap.{IsBlockSize, is_block_size};

/// The most bytes of a block.
pub const MOST_BLOCK_BYTES: usize = 65_520;

/// Whether it is a legal size of a block: whole sixteens of bytes, from 64 to
/// [`MOST_BLOCK_BYTES`].
pub fn is_block_size(size: usize) -> bool
    ensures legal { IsTrue result ↔ IsBlockSize size }
    ensures test { result ≡ is_block_size size }
{
    size >= 64 && size <= MOST_BLOCK_BYTES && size % 16 == 0
}
