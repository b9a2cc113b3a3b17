//! A text that is written line by line.

use sentence_text::Text;
use std::alloc::{AllocError, Global};

/// A text under construction.
#[derive(Drop)]
pub(crate) struct Output {
    text: Text,
    /// The bytes of the line that is written now.
    width: usize,
}

impl Output {
    pub(crate) fn new(alloc: Global) -> Output {
        Output {
            text: Text::new(alloc),
            width: 0,
        }
    }

    /// Writes bytes of one line.
    pub(crate) fn put(&mut self, bytes: &[u8]) {
        self.text.put_bytes(bytes);
        self.width = self.width.saturating_add(bytes.len());
    }

    /// Writes spaces up to a column, or one space if the line is at this column or after it. At the start of a line it writes none for
    /// column 0.
    pub(crate) fn go_to(&mut self, column: usize) {
        if self.width >= column && self.width > 0 {
            self.put(b" ");
        }
        for _ in self.width..column {
            self.put(b" ");
        }
    }

    /// Ends the line with LF, or with CR LF if its last byte is a CR, since a reader removes the CR before an LF.
    pub(crate) fn end_line(&mut self) {
        let ends_with_cr = self.width > 0 && self.text.bytes.ends_with(b"\r");
        self.put(if ends_with_cr { b"\r\n" } else { b"\n" });
        self.width = 0;
    }

    /// The text. An error says that an allocation was refused.
    pub(crate) fn finish(self) -> Result<Vec<u8>, AllocError> {
        self.text.finish()
    }
}
