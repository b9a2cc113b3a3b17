//! JSON, written into a text of a bounded length.

use std::alloc::{AllocError, Global};

/// A text of JSON values, each whole. The first value that does not fit into the bound, or for which there is no memory, is left out, and so
/// are all after it.
#[derive(Drop)]
pub(crate) struct Json {
    bytes: Vec<u8>,
    /// How many bytes belong to whole values.
    whole: usize,
    most: usize,
    full: bool,
}

/// The sixteen digits.
const DIGITS: &[u8; 16] = b"0123456789abcdef";

impl Json {
    /// An empty text, of at most so many bytes.
    pub(crate) fn new(alloc: Global, most: usize) -> Json {
        Json {
            bytes: Vec::new(alloc),
            whole: 0,
            most,
            full: false,
        }
    }

    /// The whole values.
    pub(crate) fn values(&self) -> &[u8] {
        match self.bytes.get(..self.whole) {
            Some(values) => values,
            None => &[],
        }
    }

    /// All bytes. `AllocError` if a value was left out.
    pub(crate) fn into_bytes(self) -> Result<Vec<u8>, AllocError> {
        let Json { bytes, full, .. } = self;
        if full { Err(AllocError) } else { Ok(bytes) }
    }

    /// Whether a value was left out.
    pub(crate) fn is_full(&self) -> bool {
        self.full
    }

    /// A value ends here.
    pub(crate) fn end_value(&mut self) {
        if !self.full {
            self.whole = self.bytes.len();
        }
    }

    /// Forgets all values.
    pub(crate) fn clear(&mut self) {
        self.bytes.clear();
        self.whole = 0;
    }

    /// Appends bytes as they are.
    pub(crate) fn put(&mut self, bytes: &[u8]) {
        if self.full {
            return;
        }
        let room = self.most.saturating_sub(self.bytes.len());
        self.full = bytes.len() > room || self.bytes.extend_from_slice(bytes).is_err();
    }

    /// Appends a number.
    pub(crate) fn put_number(&mut self, number: u64) {
        let mut digits = itoa::Buffer::new();
        self.put(digits.format(number).as_bytes());
    }

    /// Appends numbers, each after a comma.
    pub(crate) fn put_numbers(&mut self, numbers: &[u16]) {
        for number in numbers {
            self.put(b",");
            self.put_number(u64::from(*number));
        }
    }

    /// Appends a byte as two hexadecimal digits.
    pub(crate) fn put_hex(&mut self, byte: u8) {
        let high = DIGITS[usize::from(byte / 16)];
        let low = DIGITS[usize::from(byte % 16)];
        self.put(&[high, low]);
    }

    /// Appends a byte of a string. It also escapes `<`, so that no string ends the script that contains it.
    fn put_in_string(&mut self, byte: u8) {
        match byte {
            b'"' => self.put(b"\\\""),
            b'\\' => self.put(b"\\\\"),
            b'\n' => self.put(b"\\n"),
            b'<' | 0..=31 | 127..=255 => {
                self.put(b"\\u00");
                self.put_hex(byte);
            }
            _ => self.put(&[byte]),
        }
    }

    /// Appends bytes as a string, whose characters are U+0000 to U+00FF, one for each byte.
    pub(crate) fn put_string(&mut self, bytes: &[u8]) {
        self.put(b"\"");
        for byte in bytes {
            self.put_in_string(*byte);
        }
        self.put(b"\"");
    }
}
