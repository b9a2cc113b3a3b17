//! Texts that are written part by part, mostly JSON.

use sentence_text::Text;
use std::alloc::{AllocError, Global};

/// The digits of hexadecimal numbers.
const DIGITS: [u8; 16] = *b"0123456789abcdef";

/// A message to the editor, or a text that is made for it. After an allocation was refused, only that counts.
#[derive(Drop)]
pub(crate) struct Reply {
    pub(crate) alloc: Global,
    text: Text,
    /// Whether the next item of an array is its first one.
    is_first: bool,
}

impl Reply {
    /// Nothing was written.
    pub(crate) fn new(alloc: Global) -> Reply {
        Reply {
            alloc,
            text: Text::new(alloc),
            is_first: true,
        }
    }

    /// All that was written. `AllocError` if an allocation was refused.
    pub(crate) fn finish(self) -> Result<Vec<u8>, AllocError> {
        self.text.finish()
    }

    /// What was written.
    pub(crate) fn written(&self) -> &[u8] {
        &self.text.bytes
    }

    /// Forgets what was written, but not that an allocation was refused.
    pub(crate) fn clear(&mut self) {
        self.text.bytes = Vec::new(self.alloc)
    }

    /// Whether an allocation was refused.
    pub(crate) fn has_failed(&self) -> bool {
        self.text.failed
    }

    /// Bytes.
    pub(crate) fn bytes(&mut self, bytes: &[u8]) {
        self.text.put_bytes(bytes)
    }

    /// A part that is JSON already, or of another text than JSON.
    pub(crate) fn raw(&mut self, part: &str) {
        self.text.put(part)
    }

    /// A number after a part.
    pub(crate) fn number(&mut self, part: &str, number: u64) {
        self.text.put_number(part, number)
    }

    /// A byte of a text, of which a control character, a quote and a backslash are escaped.
    fn put_escaped(&mut self, byte: u8) {
        match byte {
            b'"' => self.raw("\\\""),
            b'\\' => self.raw("\\\\"),
            0..=31 => {
                let digits = [
                    DIGITS[usize::from(byte / 16)],
                    DIGITS[usize::from(byte % 16)],
                ];
                self.raw("\\u00");
                self.bytes(&digits)
            }
            _ => self.bytes(&[byte]),
        }
    }

    /// An allocation was refused.
    pub(crate) fn fail(&mut self) {
        self.text.failed = true;
    }

    /// Bytes of a text within quotes.
    pub(crate) fn escaped(&mut self, text: &[u8]) {
        for byte in text {
            self.put_escaped(*byte);
        }
    }

    /// A text in quotes after a part that is JSON.
    pub(crate) fn quoted_bytes(&mut self, json: &str, text: &[u8]) {
        self.raw(json);
        self.raw("\"");
        self.escaped(text);
        self.raw("\"")
    }

    /// The same of a text that is a string.
    pub(crate) fn quoted(&mut self, json: &str, text: &str) {
        self.quoted_bytes(json, text.as_bytes())
    }

    /// Begins an array.
    pub(crate) fn begin_items(&mut self, part: &str) {
        self.raw(part);
        self.raw("[");
        self.is_first = true;
    }

    /// Begins the next item of the array.
    pub(crate) fn item(&mut self) {
        self.raw(if self.is_first { "" } else { "," });
        self.is_first = false;
    }
}
