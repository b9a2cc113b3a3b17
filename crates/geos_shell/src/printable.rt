//! Texts that may have control characters, as they are shown.

use std::alloc::{AllocError, Global};
use std::fmt::{self, Display, Formatter};

/// A text of the user's in what the program writes: each of its control characters is written by its bytes, as `\x0a`, so that it ends
/// no line, and does nothing to a terminal.
#[derive(Clone, Copy)]
pub(crate) struct Printable<'a> {
    pub(crate) text: &'a str,
    /// Whether ends of lines and tabs stay.
    pub(crate) has_lines: bool,
}

/// Whether a character is written as it is.
fn is_shown(character: char, has_lines: bool) -> bool {
    !character.is_control() || has_lines && matches!(character, '\n' | '\t')
}

impl Display for Printable<'_> {
    fn fmt<W: fmt::Write>(&self, f: &mut Formatter<W>) -> fmt::Result {
        for character in self.text.chars() {
            if is_shown(character, self.has_lines) {
                f.write_char(character)?;
                continue;
            }
            for byte in character.encode_utf8(&mut [0; 4]).bytes() {
                write!(f, "\\x{byte:02x}")?;
            }
        }
        Ok(())
    }
}

/// A path, a name or a number of the user's in a line of the program's: written as `Printable` is, except for an empty one, which is `''`.
#[derive(Clone, Copy)]
pub struct Named<'a>(pub &'a str);

impl Display for Named<'_> {
    fn fmt<W: fmt::Write>(&self, f: &mut Formatter<W>) -> fmt::Result {
        let text = if self.0.is_empty() { "''" } else { self.0 };
        let has_lines = false;
        Printable { text, has_lines }.fmt(f)
    }
}

/// A text that is not UTF-8, with each byte past ASCII by its number too.
fn by_bytes(alloc: Global, text: &[u8]) -> Result<String, AllocError> {
    let mut shown = String::new(alloc);
    for &byte in text {
        if byte.is_ascii() && is_shown(char::from(byte), true) {
            shown.push(char::from(byte))?;
        } else {
            write!(shown, "\\x{byte:02x}")?;
        }
    }
    Ok(shown)
}

/// What a terminal is given for lines of text: control characters but the end of a line and a tab by their bytes, and where the text
/// is not UTF-8 each byte past ASCII too.
pub(crate) fn for_terminal(alloc: Global, text: &[u8]) -> Result<String, AllocError> {
    match str::from_utf8(text) {
        Ok(text) => {
            let has_lines = true;
            let shown = Printable { text, has_lines };
            format!(in alloc; "{shown}")
        }
        Err(_) => by_bytes(alloc, text),
    }
}
