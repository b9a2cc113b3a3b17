//! Attributes of JUnit XML.

use sentence_text::Text;
use std::alloc::AllocError;

/// Writes a character of an attribute. XML has no control characters.
fn put_character(out: &mut Text, character: char) {
    let mut bytes = [0; 4];
    match character {
        '&' => out.put("&amp;"),
        '<' => out.put("&lt;"),
        '"' => out.put("&quot;"),
        '\u{0}'..='\u{1f}' | '\u{fffe}' | '\u{ffff}' => out.put("?"),
        _ => out.put(character.encode_utf8(&mut bytes)),
    }
}

/// Writes the end of an attribute after words that begin it. Bytes that are not UTF-8 become U+FFFD.
pub(crate) fn put_attribute(out: &mut Text, before: &str, text: &[u8]) {
    out.put(before);
    match String::from_utf8_lossy(*out.bytes.allocator(), text) {
        Ok(text) => {
            for character in text.chars() {
                put_character(out, character);
            }
        }
        Err(AllocError) => out.failed = true,
    }
    out.put("\"")
}
