//! Elements of arrays are printed as rows.

use crate::elements::Elements;
use geos_shell::Field;
use sentence_text::Text;
use std::alloc::{AllocError, Global};

/// The digits of a byte.
const DIGITS: &[u8; 16] = b"0123456789abcdef";

/// The bytes of a text, without the bytes 0 at its end.
fn without_padding(bytes: &[u8]) -> &[u8] {
    let mut length: usize = 0;
    let mut end: usize = 0;
    for byte in bytes {
        length = length.saturating_add(1);
        if *byte != 0 {
            end = length;
        }
    }
    bytes.get(..end).unwrap_or(bytes)
}

/// Rows that are printed: lines of CSV, or one JSON object.
#[derive(Drop)]
pub(crate) struct Printed {
    out: Text,
    json: bool,
}

impl Printed {
    /// No row has been printed.
    pub(crate) fn new(alloc: Global, json: bool) -> Printed {
        Printed {
            out: Text::new(alloc),
            json,
        }
    }

    /// Appends the first words in JSON, the other ones in CSV.
    fn put(&mut self, json: &str, csv: &str) {
        self.out.put(if self.json { json } else { csv })
    }

    /// Appends the digits of a byte.
    fn put_hex(&mut self, byte: u8) {
        let high = DIGITS[usize::from(byte / 16)];
        self.out.put_bytes(&[high, DIGITS[usize::from(byte % 16)]])
    }

    /// Appends a byte of a text: a backslash as `\\`, and a byte that is no printable character of ASCII as `\x` and two digits.
    fn put_byte(&mut self, byte: u8) {
        match byte {
            b'"' => self.put("\\\"", "\"\""),
            b'\\' => self.put("\\\\\\\\", "\\\\"),
            b' '..=b'~' => self.out.put_bytes(&[byte]),
            _ => {
                self.put("\\\\x", "\\x");
                self.put_hex(byte)
            }
        }
    }

    /// Appends a text, between quotes if it has to be.
    fn put_text(&mut self, text: &[u8]) {
        let is_plain = !text.is_empty() && !text.contains(&b',') && !text.contains(&b'"');
        let quote = if is_plain { "" } else { "\"" };
        self.put("\"", quote);
        for byte in text {
            self.put_byte(*byte);
        }
        self.put("\"", quote)
    }

    /// Appends the digits of an element.
    fn put_digits(&mut self, element: &[u8]) {
        let quote = if element.is_empty() { "\"" } else { "" };
        self.put("\"", quote);
        for byte in element {
            self.put_hex(*byte);
        }
        self.put("\"", quote)
    }

    /// Appends the bytes of a field.
    fn put_field(&mut self, field: Field, bytes: &[u8]) {
        match (field, bytes) {
            (Field::Text(_), _) => self.put_text(without_padding(bytes)),
            (Field::Word, [low, high]) => {
                let number = u16::from_le_bytes([*low, *high]);
                self.out.put_number("", u64::from(number))
            }
            (_, [byte, ..]) => self.out.put_number("", u64::from(*byte)),
            (_, []) => self.out.put("0"),
        }
    }

    /// Appends an element with these fields.
    fn put_fields(&mut self, fields: &[Field], element: &[u8]) {
        let mut start: usize = 0;
        for field in fields {
            if start > 0 {
                self.out.put(",");
            }
            let end = start.saturating_add(field.size());
            self.put_field(*field, element.get(start..end).unwrap_or(&[]));
            start = end;
        }
    }

    /// Appends the elements of an array.
    pub(crate) fn put_all(&mut self, fields: &[Field], array: &Elements<'_>) {
        self.put("{\"kind\":\"array\",\"rows\":[", "");
        for index in 0..array.count {
            self.put(if index == 0 { "[" } else { ",[" }, "");
            let element = array.element(index);
            if fields.is_empty() {
                self.put_digits(element);
            } else {
                self.put_fields(fields, element);
            }
            self.put("]", "\n");
        }
        self.put("]}\n", "")
    }

    /// The rows.
    pub(crate) fn finish(self) -> Result<Vec<u8>, AllocError> {
        self.out.finish()
    }
}
