//! The lines of faults.

use geos_text::{Part, put_parts};
use std::alloc::{AllocError, Global};

/// How many lines are written at most.
const MOST_LINES: u64 = 1_000;

/// A block of one of the two directories.
#[derive(Clone, Copy)]
pub(crate) struct Subject {
    /// Whether the saved directory has it.
    pub(crate) saved: bool,
    /// Its handle.
    pub(crate) handle: u16,
}

/// The lines of faults, the first 1,000, and the number of all. If an allocation was refused, only that counts.
#[derive(Drop)]
pub(crate) struct Report {
    text: Vec<u8>,
    faults: u64,
    refused: bool,
}

/// Appends a line that begins with a text, and perhaps a number.
fn put_line(out: &mut Vec<u8>, front: Part<'_>, parts: &[Part]) -> Result<(), AllocError> {
    put_parts(out, &[front])?;
    put_parts(out, parts)?;
    out.extend_from_slice(b"\n")
}

impl Report {
    /// No line.
    pub(crate) fn new(alloc: Global) -> Report {
        Report {
            text: Vec::new(alloc),
            faults: 0,
            refused: false,
        }
    }

    /// How many faults were reported.
    pub(crate) fn faults(&self) -> u64 {
        self.faults
    }

    /// Adds a line. After the first 1,000 it is only counted.
    pub(crate) fn put(&mut self, front: Part<'_>, parts: &[Part]) {
        if self.faults < MOST_LINES {
            let done = put_line(&mut self.text, front, parts);
            self.refused = self.refused || done.is_err();
        }
        self.faults = self.faults.saturating_add(1);
    }

    /// Adds a line on a block.
    pub(crate) fn put_of_block(&mut self, subject: Subject, parts: &[Part]) {
        let word = if subject.saved {
            "saved block "
        } else {
            "block "
        };
        self.put(Part::Numbered(word, u64::from(subject.handle)), parts)
    }

    /// The lines, and how many faults have none. `AllocError` if an allocation was refused.
    pub(crate) fn finish(self) -> Result<Vec<u8>, AllocError> {
        let Report {
            mut text,
            faults,
            refused,
        } = self;
        if refused {
            return Err(AllocError);
        }
        if faults > MOST_LINES {
            let more = Part::Numbered("", faults - MOST_LINES);
            put_line(&mut text, more, &[Part::Text(" more faults")])?;
        }
        Ok(text)
    }
}
