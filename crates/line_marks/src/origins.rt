//! Where instructions come from.

use crate::marks::{LineMarks, Place};
use geos_text::{first_line, first_word, without_comment};
use std::alloc::{AllocError, Global};

/// What a text has for an instruction.
#[derive(Clone, Copy)]
pub struct Origin<'a> {
    /// Where its line comes from.
    pub place: Place<'a>,
    /// The instruction as the text writes it, without labels and comment. Empty if it is not known.
    pub code: &'a [u8],
    /// The lines of the text after the previous instruction, up to its own: they have its labels. Empty if they are not known.
    pub lines: &'a [u8],
}

impl<'a> Origin<'a> {
    /// Whether the instruction has the label.
    pub fn has_label(&self, label: &[u8]) -> bool {
        let mut rest = self.lines;
        // Each label takes at least a byte.
        for _ in 0..self.lines.len() {
            match first_label(rest) {
                Some((found, _)) if found == label => return true,
                Some((_, behind)) => rest = behind,
                None => break,
            }
        }
        false
    }

    /// Appends its labels, each after a blank and with its colon.
    pub fn put_labels(&self, out: &mut Vec<u8>) -> Result<(), AllocError> {
        let mut rest = self.lines;
        // Each label takes at least a byte.
        for _ in 0..self.lines.len() {
            let Some((label, behind)) = first_label(rest) else {
                break;
            };
            out.push(b' ')?;
            out.extend_from_slice(label)?;
            out.push(b':')?;
            rest = behind;
        }
        Ok(())
    }
}

/// The first label of a line, without its colon, and the line after it.
fn label_of(line: &[u8]) -> Option<(&[u8], &[u8])> {
    let (word, behind) = first_word(without_comment(line))?;
    let (last, label) = word.split_last()?;
    if *last == b':' {
        Some((label, behind))
    } else {
        None
    }
}

/// The first label of lines, without its colon, and what follows it.
fn first_label(lines: &[u8]) -> Option<(&[u8], &[u8])> {
    let mut rest = lines;
    // Each line takes at least a byte.
    for _ in 0..lines.len() {
        let (line, below) = first_line(rest);
        if let Some((label, behind)) = label_of(line) {
            let used = without_comment(line).len().saturating_sub(behind.len());
            return Some((label, rest.get(used..).unwrap_or(&[])));
        }
        rest = below;
    }
    None
}

/// The instruction of a line, without labels and comment.
fn code_in(line: &[u8]) -> &[u8] {
    let mut said = without_comment(line);
    // Each label takes at least a byte.
    for _ in 0..line.len() {
        match first_word(said) {
            Some((word, behind)) if word.ends_with(b":") => said = behind,
            _ => break,
        }
    }
    said.trim_ascii()
}

/// What a text has for instructions, whose lines are in ascending order; lines are those that the marks name, if marks are given. Without a text
/// no code is known. `AllocError` if the allocator refuses memory.
pub fn origins_of<'a>(
    alloc: Global,
    marks: Option<&'a LineMarks>,
    text: &'a [u8],
    lines: &[u32],
) -> Result<Vec<Origin<'a>>, AllocError> {
    let mut found = Vec::new(alloc);
    let mut rest = text;
    let mut code: &'a [u8] = &[];
    let mut number: u32 = 0;
    for line in lines {
        let above = rest;
        for _ in number..*line {
            let (current, behind) = first_line(rest);
            code = code_in(current);
            rest = behind;
        }
        number = number.max(*line);
        let line = u64::from(*line);
        let place = match marks {
            Some(marks) => marks.place(line),
            None => Place { file: None, line },
        };
        let taken = above.len().saturating_sub(rest.len());
        let lines = above.get(..taken).unwrap_or(&[]);
        found.push(Origin { place, code, lines })?;
    }
    Ok(found)
}
