//! Objects, which are written member by member.

use geos_text::put_numbered;
use std::alloc::{AllocError, Global};

/// The digits of hexadecimal numbers.
const DIGITS: [u8; 16] = *b"0123456789abcdef";

/// Objects, each on a line. After an allocation was refused, only that counts.
#[derive(Drop)]
pub struct JsonLines {
    alloc: Global,
    out: Vec<u8>,
    /// Whether an allocation was refused.
    refused: bool,
}

impl JsonLines {
    /// No object.
    pub fn new(alloc: Global) -> JsonLines {
        JsonLines {
            alloc,
            out: Vec::new(alloc),
            refused: false,
        }
    }

    /// All lines. `AllocError` if an allocation was refused.
    pub fn finish(self) -> Result<Vec<u8>, AllocError> {
        if self.refused {
            Err(AllocError)
        } else {
            Ok(self.out)
        }
    }

    /// Something was written, or an allocation was refused.
    fn note(&mut self, done: Result<(), AllocError>) {
        self.refused = self.refused || done.is_err();
    }

    fn put(&mut self, bytes: &[u8]) {
        let done = self.out.extend_from_slice(bytes);
        self.note(done);
    }

    fn put_number(&mut self, sign: &str, number: u64) {
        let done = put_numbered(&mut self.out, sign, number);
        self.note(done);
    }

    /// The two digits of a byte.
    fn put_hex(&mut self, byte: u8) {
        self.put(&[
            DIGITS[usize::from(byte / 16)],
            DIGITS[usize::from(byte % 16)],
        ])
    }

    /// A byte of a text, of which a control character, a quote and a backslash are escaped.
    fn put_escaped(&mut self, byte: u8) {
        match byte {
            b'"' => self.put(b"\\\""),
            b'\\' => self.put(b"\\\\"),
            0..=31 => {
                self.put(b"\\u00");
                self.put_hex(byte)
            }
            _ => self.put(&[byte]),
        }
    }

    fn put_quoted(&mut self, text: &str) {
        self.put(b"\"");
        for byte in text.bytes() {
            self.put_escaped(byte);
        }
        self.put(b"\"")
    }

    fn put_name(&mut self, name: &str) {
        self.put(b",");
        self.put_quoted(name);
        self.put(b":")
    }

    /// Begins an object, whose first member `kind` says what it is.
    pub fn begin(&mut self, kind: &str) {
        self.put(b"{\"kind\":");
        self.put_quoted(kind)
    }

    /// Ends the object and its line.
    pub fn end(&mut self) {
        self.put(b"}\n")
    }

    /// A member that has no value.
    pub fn null(&mut self, name: &str) {
        self.put_name(name);
        self.put(b"null")
    }

    /// A text. Each sequence of bytes that is no UTF-8 becomes U+FFFD.
    pub fn text(&mut self, name: &str, text: &[u8]) {
        self.put_name(name);
        match String::from_utf8_lossy(self.alloc, text) {
            Ok(text) => self.put_quoted(&text),
            Err(AllocError) => self.refused = true,
        }
    }

    /// A text, or none.
    pub fn text_or_null(&mut self, name: &str, text: Option<&[u8]>) {
        match text {
            Some(text) => self.text(name, text),
            None => self.null(name),
        }
    }

    /// A number.
    pub fn number(&mut self, name: &str, number: u64) {
        self.put_name(name);
        self.put_number("", number)
    }

    /// A number, or none.
    pub fn number_or_null(&mut self, name: &str, number: Option<u64>) {
        match number {
            Some(number) => self.number(name, number),
            None => self.null(name),
        }
    }

    /// A truth.
    pub fn flag(&mut self, name: &str, flag: bool) {
        self.put_name(name);
        self.put(if flag { b"true" } else { b"false" })
    }

    /// An array of numbers.
    pub fn numbers(&mut self, name: &str, numbers: &[u16]) {
        self.put_name(name);
        let mut sign = "[";
        for number in numbers {
            self.put_number(sign, u64::from(*number));
            sign = ",";
        }
        self.put(if numbers.is_empty() { b"[]" } else { b"]" })
    }

    /// Bytes, as a text of two hexadecimal digits for each.
    pub fn hex(&mut self, name: &str, bytes: &[u8]) {
        self.put_name(name);
        self.put(b"\"");
        for byte in bytes {
            self.put_hex(*byte);
        }
        self.put(b"\"")
    }
}
