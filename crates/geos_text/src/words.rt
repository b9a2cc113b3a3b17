//! The words of a line.

ghost use Rattle.std.specs.Prelude.{◌≡◌, ◌≤◌, length, IfSome, IfNone, [], ◌∷◌, not};
ghost use Rattle.std.specs.List.{position_or_len};
ghost use Rattle.geos_text.specs.Words.{is_blank, words, without_comment};

use crate::lines::place_of;

/// The line without the comment that a `;` begins.
pub fn without_comment(line: &[u8]) -> &[u8]
    ensures { result.now ≡ without_comment line.now }
{
    &line[..place_of(b';', line)]
}

/// Whether the byte parts words.
pub fn is_blank(byte: u8) -> bool
    ensures { result ≡ is_blank byte }
{
    byte == b' ' || byte == b'\t'
}

/// The number of blanks before the first word.
fn blanks_in_front(line: &[u8]) -> usize
    ensures place { result ≡ position_or_len (λ b. not (is_blank b)) line.now }
    ensures within { result ≤ length line.now }
{
    line.iter()
        .position(|byte| !is_blank(*byte))
        .unwrap_or(line.len())
}

/// The position of the first blank in the line, or the line's length if there is none.
fn end_of_word(line: &[u8]) -> usize
    ensures place { result ≡ position_or_len is_blank line.now }
    ensures within { result ≤ length line.now }
{
    line.iter()
        .position(|byte| is_blank(*byte))
        .unwrap_or(line.len())
}

/// The first word, which blanks may precede, and the line after it; `None` if there is
/// none.
pub fn first_word(line: &[u8]) -> Option<(&[u8], &[u8])>
    ensures none { IfNone result (words line.now ≡ []) }
    ensures some { IfSome result (λ r. words line.now ≡ r.0.now ∷ words r.1.now) }
{
    let line = &line[blanks_in_front(line)..];
    if line.is_empty() {
        return None;
    }
    Some(line.split_at(end_of_word(line)))
}
