//! The fields of a row.

use sentence_text::Text;
use std::alloc::Global;

/// Where a byte of a line is.
#[derive(Clone, Copy)]
enum Place {
    /// At the beginning of a field.
    First,
    /// In a field without quotes.
    Plain,
    /// Between quotes.
    Quoted,
    /// After a second quote.
    Closed,
    /// After a quote that may not be there.
    Wrong,
}

/// The fields of a row.
#[derive(Drop)]
pub(crate) struct Row {
    /// The bytes of all fields.
    fields: Text,
    /// How many bytes end with each.
    ends: Vec<usize>,
    /// Where the next byte is.
    place: Place,
}

impl Row {
    /// A row of whose bytes none was read.
    pub(crate) fn new(alloc: Global) -> Row {
        Row {
            fields: Text::new(alloc),
            ends: Vec::new(alloc),
            place: Place::First,
        }
    }

    /// Reads a line of CSV.
    pub(crate) fn read(&mut self, line: &[u8]) {
        for byte in line {
            self.take(*byte);
        }
        if let Place::Quoted = self.place {
            self.place = Place::Wrong;
        }
        self.end_field();
    }

    /// Reads a byte.
    fn take(&mut self, byte: u8) {
        let is_quote = byte == b'"';
        self.place = match self.place {
            Place::Quoted if is_quote => Place::Closed,
            Place::Quoted => self.put(Place::Quoted, byte),
            Place::First if is_quote => Place::Quoted,
            Place::Closed if is_quote => self.put(Place::Quoted, byte),
            Place::First | Place::Plain | Place::Closed if byte == b',' => self.end_field(),
            Place::First | Place::Plain if !is_quote => self.put(Place::Plain, byte),
            _ => Place::Wrong,
        };
    }

    /// Appends a byte of a field, and returns the place of the next one.
    fn put(&mut self, place: Place, byte: u8) -> Place {
        self.fields.put_bytes(&[byte]);
        place
    }

    /// Ends a field.
    fn end_field(&mut self) -> Place {
        let done = self.ends.push(self.fields.bytes.len());
        self.fields.failed = self.fields.failed || done.is_err();
        Place::First
    }

    /// Appends a field with these bytes.
    pub(crate) fn put_field(&mut self, bytes: &[u8]) {
        self.fields.put_bytes(bytes);
        self.end_field();
    }

    /// Appends a field with the digits of a number.
    pub(crate) fn put_number(&mut self, number: u64) {
        self.fields.put_number("", number);
        self.end_field();
    }

    /// Whether its quotes are wrong.
    pub(crate) fn is_wrong(&self) -> bool {
        matches!(self.place, Place::Wrong)
    }

    /// Whether an allocation was refused.
    pub(crate) fn has_failed(&self) -> bool {
        self.fields.failed
    }

    /// How many fields it has.
    pub(crate) fn count(&self) -> usize {
        self.ends.len()
    }

    /// How many bytes end with the fields before this one.
    fn start(&self, index: usize) -> usize {
        match index {
            0 => 0,
            _ => self.ends.get(index - 1).copied().unwrap_or(0),
        }
    }

    /// The bytes of a field.
    pub(crate) fn field(&self, index: usize) -> &[u8] {
        let end = self.start(index.saturating_add(1));
        self.fields.bytes.get(self.start(index)..end).unwrap_or(&[])
    }
}
