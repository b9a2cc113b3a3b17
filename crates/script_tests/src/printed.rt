//! Whether a line printed what it is to print.

ghost use Rattle.std.specs.Prelude.{◌≡◌, ◌++◌, IfSome, IsTrue};
ghost use Rattle.geos_text.specs.Words.{words};
ghost use Rattle.script_tests.specs.Expected.{words_printed};

use geos_text::{first_line, first_word};

/// The part of a text after the words of a line, if the text begins with these words.
fn after_words<'a>(text: &'a [u8], line: &[u8]) -> Option<&'a [u8]>
    ensures { IfSome result (λ left. words text.now ≡ words line.now ++ words left.now) }
{
    let mut left = text;
    let mut rest = line;
    while let Some((word, behind)) = first_word(rest) {
        rest = behind;
        match first_word(left) {
            Some((same, after)) if same == word => left = after,
            _ => return None,
        }
    }
    Some(left)
}

/// Whether the lines that were printed have exactly the expected words.
pub(crate) fn is_printed(expected: &[u8], printed: &[u8]) -> bool
    ensures { IsTrue result → words expected.now ≡ words_printed printed.now }
{
    let mut left = expected;
    let mut rest = printed;
    while !rest.is_empty() {
        let (line, behind) = first_line(rest);
        rest = behind;
        match after_words(left, line) {
            Some(after) => left = after,
            None => return false,
        }
    }
    first_word(left).is_none()
}
