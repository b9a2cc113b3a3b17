//! The chunks of a block, as text.

ghost use Rattle.std.specs.Prelude.{◌≡◌, ◌<◌, length};
ghost use Rattle.geos_terms.specs.Block.{chunks};
ghost use Rattle.geos_terms.specs.Chunks.{bytes_of};
ghost use Rattle.geos_terms.specs.Heap.{IsHeap};

use crate::hex::put_hex_lines;
use crate::view::{Detail, View};
use chunk_array::{count, element};
use lmem_block::{locate, next};
use sentence_text::Text;

/// The most elements of an array that are printed: finding one takes time in proportion to their number.
const MOST_ELEMENTS: u16 = 1000;

/// The bytes of a handle's chunk; none if no chunk has this handle.
pub(crate) fn bytes_of(block: &[u8], c: u16) -> &[u8]
    requires { IsHeap block.now }
    ensures value { result.now ≡ bytes_of (chunks block.now) c }
    ensures short { length result.now < 65536 }
{
    match locate(block, c) {
        Ok((at, n)) => &block[at..at + usize::from(n)],
        Err(_) => &[],
    }
}

/// The handle and the length of each chunk of a block.
pub(crate) fn put_chunks(out: &mut Text, block: &[u8])
    requires { IsHeap block.now }
{
    let mut last = 0;
    while let Some(c) = next(block, last) {
        out.put_number(" ", u64::from(c));
        out.put_number(":", bytes_of(block, c).len() as u64);
        last = c;
    }
}

/// The bytes of an element, below a line with its index.
fn put_element(out: &mut Text, view: View, block: &[u8], c: u16, index: u16)
    requires { IsHeap block.now }
{
    out.put_number("element ", u64::from(index));
    out.put("\n");
    if let Ok((at, n)) = element(block, c, index) {
        let at = usize::from(at);
        put_hex_lines(out, &block[at..at + usize::from(n)], view.short);
    }
}

/// The bytes of a chunk, below a line with its handle; of an array with its count, and element by element if that is required.
fn put_chunk_dump(out: &mut Text, view: View, block: &[u8], c: u16)
    requires { IsHeap block.now }
{
    out.put_number("chunk ", u64::from(c));
    match count(block, c) {
        Ok(n) if matches!(view.detail, Detail::Elements) => {
            out.put_number(" elements ", u64::from(n));
            out.put("\n");
            let shown = if n < MOST_ELEMENTS { n } else { MOST_ELEMENTS };
            for index in 0..shown {
                put_element(out, view, block, c, index);
            }
            if n > shown {
                out.put_number("more elements ", u64::from(n - shown));
                out.put("\n");
            }
        }
        _ => {
            out.put("\n");
            put_hex_lines(out, bytes_of(block, c), view.short)
        }
    }
}

/// The bytes of the chunks of a block that are printed.
pub(crate) fn put_chunk_dumps(out: &mut Text, view: View, block: &[u8])
    requires { IsHeap block.now }
{
    let mut last = 0;
    while let Some(c) = next(block, last) {
        if view.has_chunk(c) {
            put_chunk_dump(out, view, block, c);
        }
        last = c;
    }
}
