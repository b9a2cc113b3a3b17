//! The lines of a session that were carried out.

use geos_cli::MOST_BYTES;
use geos_text::first_line;
use script_commands::{Kept, keep};
use std::alloc::Global;

/// A line that was carried out.
#[derive(Clone, Copy)]
pub(crate) struct Row {
    /// Where it begins in the text of all lines.
    pub(crate) start: usize,
    /// The first word that it output.
    pub(crate) word: Option<u16>,
}

/// The lines that were carried out and not taken back, in their order.
#[derive(Drop)]
pub(crate) struct Past {
    /// The lines, each without its comment and with its end.
    pub(crate) text: Vec<u8>,
    pub(crate) rows: Vec<Row>,
    /// How many bytes of the text a commit has followed, or is.
    pub(crate) fixed: usize,
}

impl Past {
    /// No line was carried out.
    pub(crate) fn new(alloc: Global) -> Past {
        Past {
            text: Vec::new(alloc),
            rows: Vec::new(alloc),
            fixed: 0,
        }
    }

    /// Adds a line that was carried out. Whether there was memory.
    pub(crate) fn add(&mut self, line: &[u8], word: Option<u16>) -> bool {
        let start = self.text.len();
        self.text.extend_from_slice(line).is_ok()
            && self.text.push(b'\n').is_ok()
            && self.rows.push(Row { start, word }).is_ok()
    }

    /// Whether all lines together have more than 1,048,576 bytes.
    pub(crate) fn is_too_long(&self) -> bool {
        self.text.len() > MOST_BYTES
    }

    /// The last line, with its end.
    pub(crate) fn last(&self) -> &[u8] {
        match self.rows.last() {
            Some(row) => self.text.get(row.start..).unwrap_or(&[]),
            None => &[],
        }
    }

    /// Takes the last line back, if no commit has followed it. Whether it did.
    pub(crate) fn undo(&mut self) -> bool {
        if self.text.len() <= self.fixed {
            return false;
        }
        if let Some(row) = self.rows.pop() {
            self.text.truncate(row.start);
        }
        true
    }

    /// The names that the lines store, with their words. `None` if there is no memory.
    pub(crate) fn names(&self, alloc: Global) -> Option<Vec<Kept<'_>>> {
        let mut names = Vec::new(alloc);
        let mut rest: &[u8] = &self.text;
        for row in &self.rows {
            let (line, behind) = first_line(rest);
            rest = behind;
            if keep(&mut names, line, row.word).is_err() {
                return None;
            }
        }
        Some(names)
    }
}
