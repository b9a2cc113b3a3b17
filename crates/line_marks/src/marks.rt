//! The line marks of a text.

use crate::mark::mark_of;
use geos_text::first_line;
use std::alloc::{AllocError, Global};

/// A line mark of a text.
#[derive(Clone, Copy)]
struct Marked {
    /// The number of its line in the text, from 1.
    at: u64,
    /// The number of the next line in its file.
    next: u64,
    /// Which of the files it is; past the files, the text itself.
    file: usize,
}

/// Where a line of a text comes from.
#[derive(Clone, Copy)]
pub struct Place<'a> {
    /// The file that the last line mark before it names, if one does.
    pub file: Option<&'a str>,
    /// The number of the line there.
    pub line: u64,
}

/// The line marks of a text.
#[derive(Drop)]
pub struct LineMarks {
    /// In order.
    marks: Vec<Marked>,
    files: Vec<String>,
}

impl LineMarks {
    /// No marks.
    pub fn new(alloc: Global) -> LineMarks {
        LineMarks {
            marks: Vec::new(alloc),
            files: Vec::new(alloc),
        }
    }

    /// The line marks of a text. The `#` of each becomes a `;`, so that it is a comment of an assembly text. `AllocError` if the allocator
    /// refuses memory.
    pub fn take(alloc: Global, text: &mut Vec<u8>) -> Result<LineMarks, AllocError> {
        let mut marks = LineMarks::new(alloc);
        let mut start: usize = 0;
        let mut number: u64 = 0;
        // A line has at least one byte, so this is enough for all lines.
        for _ in 0..text.len() {
            let rest = text.get(start..).unwrap_or(&[]);
            if rest.is_empty() {
                break;
            }
            let (line, behind) = first_line(rest);
            number = number.saturating_add(1);
            let end = text.len().saturating_sub(behind.len());
            if marks.add(alloc, number, line)? {
                put_sign(text, start, b';');
            }
            start = end;
        }
        Ok(marks)
    }

    /// Takes the line of this number, if it is a mark, and returns whether it is.
    fn add(&mut self, alloc: Global, number: u64, line: &[u8]) -> Result<bool, AllocError> {
        let Some(mark) = mark_of(line) else {
            return Ok(false);
        };
        let file = match mark.file {
            Some(name) => {
                self.files.push(String::from_str(alloc, name)?)?;
                self.files.len().saturating_sub(1)
            }
            None => self.marks.last().map_or(usize::MAX, |last| last.file),
        };
        self.marks.push(Marked {
            at: number,
            next: u64::from(mark.next),
            file,
        })?;
        Ok(true)
    }

    /// The lines after the line with this number are those of the file with the name, from its first one; without a name, of the text itself.
    /// `AllocError` if the allocator refuses memory.
    pub fn begin_file(&mut self, at: u64, name: Option<String>) -> Result<(), AllocError> {
        let file = match name {
            Some(name) => {
                self.files.push(name)?;
                self.files.len().saturating_sub(1)
            }
            None => usize::MAX,
        };
        self.marks.push(Marked { at, next: 1, file })?;
        Ok(())
    }

    /// Whether the text has no line marks.
    pub fn is_empty(&self) -> bool {
        self.marks.is_empty()
    }

    /// Makes line marks again of the comments that `take` made of them, in a text of the same lines.
    pub fn restore(&self, text: &mut Vec<u8>) {
        let mut start: usize = 0;
        let mut number: u64 = 1;
        for mark in &self.marks {
            // Goes on to the line of the mark.
            for _ in number..mark.at {
                let rest = text.get(start..).unwrap_or(&[]);
                let (_, behind) = first_line(rest);
                start = text.len().saturating_sub(behind.len());
            }
            number = number.max(mark.at);
            put_sign(text, start, b'#');
        }
    }

    /// The file and line from which a line of the text comes; lines count from 1. A line before the first mark comes
    /// from the text itself.
    pub fn place(&self, line: u64) -> Place {
        let mut place = Place { file: None, line };
        for mark in &self.marks {
            if mark.at >= line {
                break;
            }
            let after = line.saturating_sub(mark.at).saturating_sub(1);
            place = Place {
                file: self.files.get(mark.file).map(|file| file.as_str()),
                line: mark.next.saturating_add(after),
            };
        }
        place
    }
}

/// Writes the first byte of a line.
fn put_sign(text: &mut [u8], start: usize, sign: u8) {
    if let Some(first) = text.get_mut(start) {
        *first = sign;
    }
}
