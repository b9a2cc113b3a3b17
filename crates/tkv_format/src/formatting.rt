//! Sources are formatted.

ghost use Rattle.std.specs.Prelude.{◌≡◌, IfOk, IsTrue, filter};
ghost use Rattle.tkv_format.specs.Blanks.{is_solid};

use crate::layout::laid_out;
use crate::pieces::{Piece, bytes_of, is_blank, pieces_of};
use std::alloc::{AllocError, Global};
use tkv_syntax::{Fault, MOST_BYTES, Why};

/// Why a source is not formatted.
#[derive(Drop)]
pub enum Unformatted {
    /// The source has a fault: a word that is none, or it has too many bytes, also when it is formatted.
    Fault(Fault),
    /// In the layout the source would have other words.
    OtherWords,
}

impl From<Fault> for Unformatted {
    fn from(fault: Fault) -> Unformatted {
        Unformatted::Fault(fault)
    }
}

impl From<AllocError> for Unformatted {
    fn from(error: AllocError) -> Unformatted {
        Unformatted::Fault(Fault::from(error))
    }
}

/// The bytes of a text that are no blanks.
fn solid(alloc: Global, text: &[u8]) -> Result<Vec<u8>, AllocError>
    ensures { IfOk result (λ kept. kept.items ≡ filter is_solid text.now) }
{
    text.iter()
        .copied()
        .filter(|byte| !is_blank(*byte))
        .collect(alloc)
}

/// Whether two pieces of two texts are the same word, string or comment.
fn is_same(text: &[u8], piece: &Piece, other: &[u8], there: &Piece) -> bool {
    piece.word == there.word
        && piece.comment == there.comment
        && bytes_of(text, *piece) == bytes_of(other, *there)
}

/// Whether two texts have the same pieces.
fn are_same(text: &[u8], pieces: &[Piece], other: &[u8], there: &[Piece]) -> bool {
    if pieces.len() != there.len() {
        return false;
    }
    for k in 0..pieces.len() {
        if k >= there.len() || !is_same(text, &pieces[k], other, &there[k]) {
            return false;
        }
    }
    true
}

/// The source in one layout: its lines indented by their blocks, one space between words or none, and at most one blank line between two lines.
/// The words of what is returned are read again, and are those of the source, with its comments.
pub fn formatted(alloc: Global, text: &[u8]) -> Result<Vec<u8>, Unformatted>
    // Both have the same bytes, apart from blanks.
    ensures same { IfOk result (λ made. filter is_solid made.items ≡ filter is_solid text.now) }
{
    if text.len() > MOST_BYTES {
        return Err(Unformatted::Fault(Fault::new(Why::TooLong, 0)));
    }
    let pieces = pieces_of(alloc, text)?;
    let made = laid_out(alloc, text, &pieces, MOST_BYTES).finish()?;
    if made.len() > MOST_BYTES {
        return Err(Unformatted::Fault(Fault::new(Why::TooLong, 0)));
    }
    let again = pieces_of(alloc, &made)?;
    let bytes = solid(alloc, text)?;
    let bytes_again = solid(alloc, &made)?;
    if bytes != bytes_again || !are_same(text, &pieces, &made, &again) {
        return Err(Unformatted::OtherWords);
    }
    Ok(made)
}
