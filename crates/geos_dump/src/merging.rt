//! What differs between two dumps.

ghost use Rattle.std.specs.Prelude.{◌≡◌, ◌≢◌, IfOk, MatchOption};

use crate::lines::DumpLine;
use sentence_text::Text;
use std::alloc::{AllocError, Global};

/// The lines of the directory, the block and the chunk that both dumps are in, if they are the same in both and were not printed yet.
/// Otherwise they are empty.
#[derive(Clone, Copy)]
struct Heads<'a> {
    directory: &'a [u8],
    block: &'a [u8],
    chunk: &'a [u8],
}

/// Writes a line after a sign, unless it is empty.
fn put_line(out: &mut Text, sign: &str, line: &[u8]) {
    if !line.is_empty() {
        out.put(sign);
        out.put_bytes(line);
        out.put("\n");
    }
}

impl<'a> Heads<'a> {
    /// No line.
    fn none() -> Heads<'a> {
        Heads {
            directory: &[],
            block: &[],
            chunk: &[],
        }
    }

    /// The lines after a line at a place, which is the same in both dumps.
    fn after(self, line: DumpLine<'a>) -> Heads<'a> {
        let DumpLine { place, text, .. } = line;
        if place.is_in_chunk() {
            self
        } else if place.is_in_block() {
            Heads {
                directory: self.directory,
                block: self.block,
                chunk: text,
            }
        } else if place.is_in_directory() {
            Heads {
                directory: self.directory,
                block: text,
                chunk: &[],
            }
        } else {
            Heads {
                directory: text,
                block: &[],
                chunk: &[],
            }
        }
    }

    /// Writes a line of one dump only after a sign, below the lines of what it is in.
    fn put_single(self, out: &mut Text, sign: &str, line: DumpLine<'_>) {
        if line.place.is_in_directory() {
            put_line(out, " ", self.directory);
        }
        if line.place.is_in_block() {
            put_line(out, " ", self.block);
        }
        if line.place.is_in_chunk() {
            put_line(out, " ", self.chunk);
        }
        put_line(out, sign, line.text)
    }

    /// Writes the lines of both dumps at a place, unless they are the same, and returns what is the same in both from then on.
    fn put_both(self, out: &mut Text, left: DumpLine<'a>, right: DumpLine<'_>) -> Heads<'a> {
        if left.text == right.text {
            return self.after(left);
        }
        self.put_single(out, "-", left);
        put_line(out, "+", right.text);
        Heads::none()
    }
}

/// The next lines of two dumps, and what was the same in both before.
#[derive(Clone, Copy)]
struct Merge<'a> {
    left: DumpLine<'a>,
    right: DumpLine<'a>,
    heads: Heads<'a>,
}

impl<'a> Merge<'a> {
    /// Whether both dumps are at their ends.
    fn is_done(self) -> bool {
        self.left.text.is_empty() && self.right.text.is_empty()
    }

    /// Writes the next line of one dump, or the next lines of both if these have the same place, unless the lines are the same.
    fn step(self, out: &mut Text) -> Merge<'a> {
        let Merge { left, right, heads } = self;
        if left.place.is_before(right.place) {
            heads.put_single(out, "-", left);
            Merge {
                left: left.next(),
                right,
                heads: Heads::none(),
            }
        } else if right.place.is_before(left.place) {
            heads.put_single(out, "+", right);
            Merge {
                left,
                right: right.next(),
                heads: Heads::none(),
            }
        } else {
            Merge {
                left: left.next(),
                right: right.next(),
                heads: heads.put_both(out, left, right),
            }
        }
    }
}

/// Writes what differs between two dumps. Each step takes a line at least.
fn put_differences(out: &mut Text, one: &[u8], other: &[u8]) {
    let mut at = Merge {
        left: DumpLine::first(one),
        right: DumpLine::first(other),
        heads: Heads::none(),
    };
    for _ in 0..one.len().saturating_add(other.len()) {
        if at.is_done() {
            break;
        }
        at = at.step(out);
    }
}

/// The lines that differ between two dumps with all bytes, if any do: those of the first one after `-`, those of the other one after `+`. Before
/// them are, after a blank, the lines of the directory, the block and the chunk that they are in, where these are the same in both.
/// `AllocError` if an allocation is refused.
pub fn differences(alloc: Global, one: &[u8], other: &[u8]) -> Result<Option<Vec<u8>>, AllocError>
    ensures { IfOk result (λ found. MatchOption found (one.now ≡ other.now) (λ lines. one.now ≢ other.now)) }
{
    if one == other {
        return Ok(None);
    }
    let mut out = Text::new(alloc);
    put_differences(&mut out, one, other);
    Ok(Some(out.finish()?))
}
