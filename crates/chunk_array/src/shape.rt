//! The shape of the array that the bytes of a chunk encode.
ghost use Rattle.std.specs.Prelude.{◌≡◌, ◌+◌, ◌*◌, ◌<◌, ◌≤◌, length, MatchOption};
ghost use Rattle.geos_terms.specs.Arrays.{Array, arr, are_offsets, element_at, words_from};

use crate::table::rising_offsets;
use lmem_block::get16;

// the offsets of the header's words
/// How many elements there are.
pub(crate) const COUNT: usize = 0;
/// The size of each, 0 if sizes vary.
pub(crate) const ELEMENT_SIZE: usize = 2;
/// 0.
pub(crate) const ZERO: usize = 4;
/// The header's length, 8.
pub(crate) const HEADER_SIZE: usize = 6;

/// The offset at which the header ends.
pub(crate) const HEADER: usize = 8;

/// How many elements an array has, and of which size.
#[derive(Clone, Copy)]
pub(crate) struct Shape {
    pub(crate) count: u16,
    /// 0 if sizes vary.
    pub(crate) element_size: u16,
}

/// The place of an element in the bytes of an array.
#[derive(Clone, Copy)]
pub(crate) struct ElementPlace {
    pub(crate) index: usize,
    /// The offset of its first byte, from the chunk's first byte on.
    pub(crate) begin: usize,
    /// How many bytes it has.
    pub(crate) len: usize,
}

impl Shape {
    ghost use Rattle.chunk_array.specs.Shapes.{HasShape};
    ghost use Rattle.chunk_array.specs.Insertions.{room_of};

    /// The shape of the array that bytes encode, or none if they encode none.
    pub(crate) fn of(bytes: &[u8]) -> Option<Shape>
        ensures { MatchOption result (arr bytes.now ≡ None) (λ shape. HasShape bytes.now shape) }
    {
        if bytes.len() < HEADER || get16(bytes, ZERO) != 0 || get16(bytes, HEADER_SIZE) != 8 {
            return None;
        }
        let count = get16(bytes, COUNT);
        let element_size = get16(bytes, ELEMENT_SIZE);
        let fits = if element_size == 0 {
            are_offsets(bytes, count as usize)
        } else {
            bytes.len() == HEADER + count as usize * element_size as usize
        };
        if fits {
            Some(Shape {
                count,
                element_size,
            })
        } else {
            None
        }
    }

    /// The bytes that a new element of n bytes needs, including its offset if sizes vary.
    pub(crate) fn room(self, n: u16) -> usize
        ensures value { result ≡ room_of self.element_size n }
        ensures small { result ≤ 65537 }
    {
        if self.element_size == 0 {
            n as usize + 2
        } else {
            self.element_size as usize
        }
    }

    /// The offset of an element in the chunk; at the count, the end of the last element.
    pub(crate) fn start(self, bytes: &[u8], index: usize) -> usize
        requires shape { HasShape bytes.now self }
        requires known { index ≤ self.count }
        ensures start { (a : Array) → arr bytes.now ≡ Some a → result ≡ element_at a index }
        ensures within { (8 ≤ result) × (result ≤ length bytes.now) }
    {
        if self.element_size != 0 {
            return HEADER + index * self.element_size as usize;
        }
        if index < self.count as usize {
            get16(bytes, HEADER + 2 * index) as usize
        } else {
            bytes.len()
        }
    }
}

/// Whether the words after the header are offsets of so many elements that fill the
/// bytes. Not inlined, because its callers are short if elements have one size.
#[inline(never)]
fn are_offsets(bytes: &[u8], count: usize) -> bool
    requires header { 8 ≤ length bytes.now }
    requires small { count < 65536 }
    ensures { result ≡ are_offsets (words_from bytes.now 8 count) (8 + 2 * count) (length bytes.now) }
{
    let first = HEADER + 2 * count;
    if count == 0 {
        return first == bytes.len();
    }
    if first > bytes.len() || get16(bytes, HEADER) as usize != first {
        return false;
    }
    let rising = rising_offsets(bytes, count);
    let mut last = get16(bytes, HEADER + 2 * (rising - 1)) as usize;
    for i in rising..count {
        let at = get16(bytes, HEADER + 2 * i) as usize;
        if at < last {
            return false;
        }
        last = at;
    }
    last <= bytes.len()
}
