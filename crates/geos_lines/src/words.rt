//! The words of a line, and where they are.

ghost use Rattle.std.specs.Prelude.{◌≡◌, ◌<◌, ◌≤◌, ◌-◌, [], ◌∷◌, not, length, take, drop, IfSome, IfNone};
ghost use Rattle.std.specs.List.{position_or_len};
ghost use Rattle.geos_text.specs.Words.{is_blank, words};

use geos_text::is_blank;

/// A word of a line.
#[derive(Clone, Copy)]
pub struct Word<'a> {
    pub bytes: &'a [u8],
    /// Its offset in the line, in bytes.
    pub start: usize,
    /// Where it ends: the words after it are from there on.
    pub end: usize,
}

/// How many blanks are before the first word.
fn blanks_in_front(line: &[u8]) -> usize
    ensures place { result ≡ position_or_len (λ b. not (is_blank b)) line.now }
    ensures within { result ≤ length line.now }
{
    line.iter()
        .position(|byte| !is_blank(*byte))
        .unwrap_or(line.len())
}

/// The offset of the first blank in the line, or the line's length if it has none.
fn end_of_word(line: &[u8]) -> usize
    ensures place { result ≡ position_or_len is_blank line.now }
    ensures within { result ≤ length line.now }
{
    line.iter()
        .position(|byte| is_blank(*byte))
        .unwrap_or(line.len())
}

/// The first word of a line from an index on; `None` if there is none.
pub fn word_from(line: &[u8], from: usize) -> Option<Word>
    requires { from ≤ length line.now }
    ensures none { IfNone result (words (drop from line.now) ≡ []) }
    ensures some { IfSome result (λ word. words (drop from line.now) ≡ word.bytes.now ∷ words (drop word.end line.now)) }
    ensures within { IfSome result (λ word. (from ≤ word.start) × (word.start < word.end) × (word.end ≤ length line.now)) }
    ensures bytes { IfSome result (λ word. word.bytes.now ≡ take (word.end - word.start) (drop word.start line.now)) }
{
    let start = from + blanks_in_front(&line[from..]);
    if start == line.len() {
        return None;
    }
    let end = start + end_of_word(&line[start..]);
    Some(Word {
        bytes: &line[start..end],
        start,
        end,
    })
}
