//! The blanks before each word.

use crate::pieces::{Piece, bytes_of};
use sentence_text::Text;
use std::alloc::Global;
use tkv_syntax::Word;

/// The most levels that a line is indented by.
const MOST_LEVELS: u32 = 32;

/// Whether the word opens what another one closes.
fn opens(word: Word) -> bool {
    matches!(word, Word::Brace | Word::Paren | Word::Bracket)
}

fn closes(word: Word) -> bool {
    matches!(word, Word::BraceEnd | Word::ParenEnd | Word::BracketEnd)
}

/// Whether a statement or a part of a list ends with the word, so that the next line does not continue it.
fn ends(word: Word) -> bool {
    opens(word) || matches!(word, Word::End | Word::Stop | Word::Comma | Word::BraceEnd)
}

/// Whether a bracket follows the word as it follows the name of a call.
fn calls(word: Word) -> bool {
    matches!(
        word,
        Word::Named | Word::Out | Word::BracketEnd | Word::ParenEnd
    )
}

/// Whether no space is after the word.
fn clings_after(word: Word) -> bool {
    matches!(
        word,
        Word::Paren | Word::Bracket | Word::Dot | Word::To | Word::Not
    )
}

/// Whether no space is before the word.
fn clings_before(word: Word) -> bool {
    matches!(
        word,
        Word::Comma
            | Word::Stop
            | Word::Colon
            | Word::ParenEnd
            | Word::Bracket
            | Word::BracketEnd
            | Word::Asks
            | Word::Dot
            | Word::To
    )
}

/// Whether a space is between two words of a line.
fn is_spaced(before: Word, word: Word) -> bool {
    let call = word == Word::Paren && calls(before);
    let empty = before == Word::Brace && word == Word::BraceEnd;
    !(call || empty || clings_after(before) || clings_before(word))
}

/// A source that is laid out.
#[derive(Drop)]
struct Layout {
    out: Text,
    /// How many brackets are open.
    depth: u32,
    /// The last word that is no comment: `End` before the first one.
    word: Word,
    /// Whether a comment is after this word.
    commented: bool,
}

/// How many of these pieces close brackets, up to another one or to the end of the first one's line.
fn count_closing(pieces: &[Piece]) -> u32 {
    let mut count: u32 = 0;
    for piece in pieces {
        if !closes(piece.word) || (count > 0 && piece.feeds > 0) {
            break;
        }
        count = count.saturating_add(1);
    }
    count
}

impl Layout {
    /// Begins the line of the first of these pieces.
    fn begin_line(&mut self, piece: &Piece, rest: &[Piece]) {
        if !self.out.bytes.is_empty() {
            self.out.put(if piece.feeds > 1 { "\n\n" } else { "\n" });
        }
        let closing = count_closing(rest);
        let continued = closing == 0 && piece.word != Word::Brace && !ends(self.word);
        let levels = self.depth.saturating_sub(closing);
        for _ in 0..levels.min(MOST_LEVELS).saturating_add(u32::from(continued)) {
            self.out.put("    ");
        }
    }

    /// Writes a piece of the text, which begins these pieces.
    fn put_piece(&mut self, text: &[u8], piece: &Piece, rest: &[Piece]) {
        if piece.feeds > 0 || self.out.bytes.is_empty() {
            self.begin_line(piece, rest);
        } else if piece.comment || self.commented || is_spaced(self.word, piece.word) {
            self.out.put(" ");
        }
        self.out.put_bytes(bytes_of(text, *piece));
        self.commented = piece.comment;
        if piece.comment {
            return;
        }
        if opens(piece.word) {
            self.depth = self.depth.saturating_add(1);
        } else if closes(piece.word) {
            self.depth = self.depth.saturating_sub(1);
        }
        self.word = piece.word;
    }
}

/// The pieces of a text, each after its blanks, up to about so many bytes.
pub(crate) fn laid_out(alloc: Global, text: &[u8], pieces: &[Piece], most: usize) -> Text {
    let mut layout = Layout {
        out: Text::new(alloc),
        depth: 0,
        word: Word::End,
        commented: false,
    };
    for k in 0..pieces.len() {
        if layout.out.bytes.len() > most {
            break;
        }
        layout.put_piece(text, &pieces[k], &pieces[k..]);
    }
    if !layout.out.bytes.is_empty() {
        layout.out.put("\n");
    }
    layout.out
}
