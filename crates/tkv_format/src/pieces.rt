//! The words and comments of a source.

ghost use Rattle.std.specs.Prelude.{◌≡◌};
ghost use Rattle.tkv_format.specs.Blanks.{is_blank};

use std::alloc::Global;
use tkv_syntax::{Fault, Why, Word, next_token};

/// A word, a string or a comment.
#[derive(Clone, Copy)]
pub(crate) struct Piece {
    /// Which word it is: `Quote` for a string.
    pub(crate) word: Word,
    pub(crate) comment: bool,
    /// The offsets of its first byte and after its last byte.
    pub(crate) at: u32,
    pub(crate) end: u32,
    /// How many lines end before it and after the piece before it.
    pub(crate) feeds: u32,
}

/// Whether a byte is between words.
pub(crate) fn is_blank(byte: u8) -> bool
    ensures { result ≡ is_blank byte }
{
    byte == b' ' || byte == b'\t' || byte == b'\r' || byte == b'\n'
}

/// The byte at an offset, or 0 past the end.
fn byte_at(text: &[u8], at: u32) -> u8 {
    match text.get(at as usize) {
        Some(byte) => *byte,
        None => 0,
    }
}

/// The end of the comment that begins at an offset, without the blanks there.
fn comment_end(text: &[u8], at: u32) -> u32 {
    let mut end = at;
    let mut next = at;
    for _ in 0..text.len() {
        let byte = byte_at(text, next);
        if byte == b'\n' || byte == 0 {
            break;
        }
        next = next.saturating_add(1);
        if !is_blank(byte) {
            end = next;
        }
    }
    end
}

/// The end of the string that begins at an offset, if it ends on its line.
fn string_end(text: &[u8], at: u32) -> Option<u32> {
    let mut next = at.saturating_add(1);
    for _ in 0..text.len() {
        match byte_at(text, next) {
            b'"' => return Some(next.saturating_add(1)),
            b'\n' | 0 => return None,
            b'\\' => next = next.saturating_add(2),
            _ => next = next.saturating_add(1),
        }
    }
    None
}

/// The piece at an offset, where no blank is, after so many line ends.
fn piece_at(text: &[u8], at: u32, feeds: u32) -> Result<Piece, Fault> {
    let byte = byte_at(text, at);
    if byte == b'/' && byte_at(text, at.saturating_add(1)) == b'/' {
        return Ok(Piece {
            word: Word::End,
            comment: true,
            at,
            end: comment_end(text, at),
            feeds,
        });
    }
    let token = next_token(text, at)?;
    let end = if token.word == Word::Quote {
        match string_end(text, at) {
            Some(end) => end,
            None => return Err(Fault::new(Why::BadText, at)),
        }
    } else {
        token.end
    };
    Ok(Piece {
        word: token.word,
        comment: false,
        at,
        end,
        feeds,
    })
}

/// The pieces of a source, in order. The fault of the first word that is none.
pub(crate) fn pieces_of(alloc: Global, text: &[u8]) -> Result<Vec<Piece>, Fault> {
    let mut pieces = Vec::new(alloc);
    let mut at: u32 = 0;
    let mut feeds: u32 = 0;
    // Each iteration takes a byte at least.
    for _ in 0..text.len() {
        if at as usize >= text.len() {
            break;
        }
        let byte = byte_at(text, at);
        if is_blank(byte) {
            feeds = feeds.saturating_add(u32::from(byte == b'\n'));
            at = at.saturating_add(1);
        } else {
            let piece = piece_at(text, at, feeds)?;
            at = piece.end;
            feeds = 0;
            pieces.push(piece)?;
        }
    }
    Ok(pieces)
}

/// The bytes of a piece.
pub(crate) fn bytes_of(text: &[u8], piece: Piece) -> &[u8] {
    text.get(piece.at as usize..piece.end as usize)
        .unwrap_or(&[])
}
