//! The lines of a text.

ghost use Rattle.std.specs.Prelude.{◌≡◌, ◌<◌, ◌≤◌, length, ◌∷◌, ◌==◌};
ghost use Rattle.std.specs.List.{position_or_len};
ghost use Rattle.std.specs.Str.Lines.{lines, strip_carriage_return};

use memchr::memchr;

/// The most bytes of a text, a script or a session.
pub const MOST_BYTES: usize = 1_048_576;

/// The position of the first such byte in the text, or the text's length if there is none.
pub(crate) fn place_of(byte: u8, text: &[u8]) -> usize
    ensures place { result ≡ position_or_len (λ b. b == byte) text.now }
    ensures within { result ≤ length text.now }
{
    memchr(byte, text).unwrap_or(text.len())
}

fn without_carriage_return(line: &[u8]) -> &[u8]
    ensures { result.now ≡ strip_carriage_return line.now }
{
    match line.split_last() {
        Some((b'\r', front)) => front,
        _ => line,
    }
}

/// The first line, without its end, and the text after it. A line ends with LF, CR LF or the
/// end of the text.
pub fn first_line(text: &[u8]) -> (&[u8], &[u8])
    ensures line { 0 < length text.now → lines text.now ≡ result.0.now ∷ lines result.1.now }
    ensures less { 0 < length text.now → length result.1.now < length text.now }
{
    let end = place_of(b'\n', text);
    if end == text.len() {
        (text, &text[end..])
    } else {
        (without_carriage_return(&text[..end]), &text[end + 1..])
    }
}
