//! Rows become elements of an array.

use crate::elements::HEADER;
use crate::escapes::Escaped;
use crate::fault::RowFault;
use crate::row::Row;
use geos_shell::Field;
use geos_text::{first_line, number_up_to};
use sentence_text::Text;
use std::alloc::{AllocError, Global};

/// Elements that are made of rows.
#[derive(Drop)]
pub(crate) struct NewElements {
    /// The bytes of all elements.
    pub(crate) bytes: Text,
    /// How many bytes end with each.
    ends: Vec<usize>,
    /// The size of each element, 0 if sizes vary.
    size: usize,
    /// The number of the last row that was read, counted from 1.
    pub(crate) row: usize,
    /// The number of the first row that is wrong, and what is wrong with it.
    pub(crate) fault: Option<(usize, RowFault)>,
}

impl NewElements {
    /// No row has been read.
    pub(crate) fn new(alloc: Global, size: usize) -> NewElements {
        NewElements {
            bytes: Text::new(alloc),
            ends: Vec::new(alloc),
            size,
            row: 0,
            fault: None,
        }
    }

    /// Notes what is wrong with a row.
    pub(crate) fn fail(&mut self, fault: RowFault) {
        if self.fault.is_none() {
            self.fault = Some((self.row, fault));
        }
    }

    /// Appends a number of one or two bytes.
    fn put_number(&mut self, bytes: &[u8], field: usize, most: u32) {
        match number_up_to(most, bytes) {
            Ok(number) if most < 256 => self.bytes.put_bytes(&[(number % 256) as u8]),
            Ok(number) => {
                let high = (number / 256 % 256) as u8;
                self.bytes.put_bytes(&[(number % 256) as u8, high])
            }
            Err(_) => self.fail(RowFault::Number(field, most)),
        }
    }

    /// Appends the bytes that these say. Returns how many there are, or nothing if they say none.
    fn put_escaped(&mut self, mut escaped: Escaped, bytes: &[u8]) -> Option<usize> {
        let before = self.bytes.bytes.len();
        for byte in bytes {
            if let Some(byte) = escaped.take(*byte) {
                self.bytes.put_bytes(&[byte]);
            }
        }
        if escaped.is_whole() {
            Some(self.bytes.bytes.len().saturating_sub(before))
        } else {
            None
        }
    }

    /// Appends a text of `size` bytes.
    fn put_text(&mut self, bytes: &[u8], field: usize, size: usize) {
        match self.put_escaped(Escaped::text(), bytes) {
            None => self.fail(RowFault::Byte(field)),
            Some(length) if length > size => self.fail(RowFault::Length(field, length, size)),
            Some(length) => {
                for _ in length..size {
                    self.bytes.put_bytes(&[0]);
                }
            }
        }
    }

    /// Appends a field of a row.
    fn put_field(&mut self, field: Field, bytes: &[u8], number: usize) {
        match field {
            Field::Byte => self.put_number(bytes, number, 255),
            Field::Word => self.put_number(bytes, number, 65_535),
            Field::Text(size) => self.put_text(bytes, number, usize::from(size)),
        }
    }

    /// Appends the element of a row with these fields.
    fn put_fields(&mut self, row: &Row, fields: &[Field]) {
        let mut index: usize = 0;
        for field in fields {
            let bytes = row.field(index);
            index = index.saturating_add(1);
            self.put_field(*field, bytes, index);
        }
    }

    /// Appends the element of a row with any bytes.
    fn put_digits(&mut self, row: &Row) {
        match self.put_escaped(Escaped::digits(), row.field(0)) {
            None => self.fail(RowFault::Hex(1)),
            Some(found) if self.size > 0 && found != self.size => {
                self.fail(RowFault::Size(found, self.size))
            }
            Some(_) => {}
        }
    }

    /// Appends the element of a row.
    pub(crate) fn put_row(&mut self, row: &Row, fields: &[Field]) {
        let count = fields.len().max(1);
        if row.is_wrong() {
            self.fail(RowFault::Quotes)
        } else if row.count() != count {
            self.fail(RowFault::Count(row.count(), count))
        } else if fields.is_empty() {
            self.put_digits(row)
        } else {
            self.put_fields(row, fields)
        }
        let done = self.ends.push(self.bytes.bytes.len());
        self.bytes.failed = self.bytes.failed || row.has_failed() || done.is_err();
    }

    /// Appends the elements of lines of CSV with these fields, or without fields of bytes in hexadecimal digits, up to the first row that is
    /// wrong.
    pub(crate) fn put_rows(&mut self, alloc: Global, text: &[u8], fields: &[Field]) {
        let mut rest = text;
        // Each line takes at least a byte.
        for number in 1..=text.len() {
            if rest.is_empty() || self.fault.is_some() || self.bytes.failed {
                break;
            }
            let (line, after) = first_line(rest);
            self.row = number;
            let mut row = Row::new(alloc);
            row.read(line);
            self.put_row(&row, fields);
            rest = after;
        }
    }

    /// The bytes of an array with these elements.
    pub(crate) fn array(&self, alloc: Global) -> Result<Vec<u8>, AllocError> {
        let mut out = Text::new(alloc);
        put_word(&mut out, self.ends.len());
        put_word(&mut out, self.size);
        put_word(&mut out, 0);
        put_word(&mut out, HEADER);
        if self.size == 0 {
            let offsets = self.ends.len().saturating_mul(2).saturating_add(HEADER);
            let mut before = 0;
            for end in &self.ends {
                put_word(&mut out, offsets.saturating_add(before));
                before = *end;
            }
        }
        out.put_bytes(&self.bytes.bytes);
        out.failed = out.failed || self.bytes.failed;
        out.finish()
    }
}

/// Appends a word, little end first. A greater number becomes 65,535: an array with it is longer than a chunk.
fn put_word(out: &mut Text, number: usize) {
    let word = number.min(65_535);
    out.put_bytes(&[(word % 256) as u8, (word / 256 % 256) as u8]);
}
