//! Texts on a terminal, whose long lines are broken between words.

use crate::command_line::parts_of;
use crate::numbers::number_in;
use crate::streams::{StreamFault, print};
use std::alloc::Global;
use std::env;
use std::io::IsTerminal;

/// The least columns that a terminal has; `COLUMNS` may be 0 if they are unknown.
const LEAST_COLUMNS: u32 = 40;

/// The most columns for which texts are broken.
const MOST_COLUMNS: u32 = 120;

/// How much further than a line its later parts begin, if nothing in it says where.
const FURTHER: usize = 4;

/// What precedes the first usage; the others begin below it.
const USAGE: &str = "Usage: ";

/// The least columns for the later parts below an explanation.
const LEAST_PART: usize = 20;

/// The columns of the terminal, if standard output is one and the environment has its `COLUMNS`. The system is not asked: std has no call for
/// that.
pub(crate) fn columns(rt: &HostRuntime) -> Option<u32> {
    match env::var(rt, "COLUMNS") {
        Ok(text) if rt.stdout().is_terminal() => match number_in(text.as_str()) {
            Some(columns) if columns >= LEAST_COLUMNS => Some(columns),
            _ => None,
        },
        _ => None,
    }
}

/// The column at which the later parts of a line begin, whose text begins at a column. The parts begin below the explanation in the line, which
/// follows two blanks or more, if there is room for it. The parts of a paragraph begin at the column of the paragraph.
fn hang_of(line: &str, indent: usize, width: usize) -> usize {
    let further = indent.saturating_add(FURTHER);
    match line.trim_start().split_once("  ") {
        Some((_, about)) => {
            let hang = line.len().saturating_sub(about.trim_start().len());
            if hang.saturating_add(LEAST_PART) > width {
                further
            } else {
                hang
            }
        }
        None if indent > 0 => further,
        None if line.starts_with(USAGE) => USAGE.len().saturating_add(FURTHER),
        None => 0,
    }
}

/// A text whose long lines are broken.
#[derive(Drop)]
struct Wrapped {
    text: String,
    /// The most columns of a line.
    width: usize,
    /// The columns of the last line so far.
    column: usize,
    /// The column of the next part of the last line, if the line was too long.
    hang: Option<usize>,
    /// Whether an allocation was refused.
    has_failed: bool,
}

impl Wrapped {
    /// Appends to the last line.
    fn put(&mut self, text: &str) {
        self.has_failed |= self.text.push_str(text).is_err();
        self.column = self.column.saturating_add(text.len());
    }

    /// Begins a line with so many blanks.
    fn begin(&mut self, indent: usize) {
        if !self.text.is_empty() {
            self.put("\n");
        }
        self.column = 0;
        for _ in 0..indent {
            self.put(" ");
        }
    }

    /// Appends words, each after a blank, or on a line of its own if it does not fit.
    fn put_words(&mut self, words: &str, hang: usize) {
        for word in words.split(' ') {
            if self.column.saturating_add(word.len()) < self.width {
                self.put(" ");
                self.put(word);
            } else if !word.is_empty() {
                self.begin(hang);
                self.put(word);
            }
        }
    }

    /// Appends a line. If the line before was broken, and this one begins at the column of its next part, the text continues there.
    fn put_line(&mut self, line: &str) {
        let text = line.trim_start();
        let indent = line.len().saturating_sub(text.len());
        if self.hang == Some(indent) && !text.is_empty() && text.split_once("  ").is_none() {
            return self.put_words(text, indent);
        }
        if line.len() <= self.width {
            self.begin(0);
            self.put(line);
            self.hang = None;
            return;
        }
        let hang = hang_of(line, indent, self.width);
        let (first, rest) = parts_of(text, ' ');
        self.begin(indent);
        self.put(first);
        self.put_words(rest, hang);
        self.hang = Some(hang);
    }
}

/// The text with its long lines broken.
fn broken(alloc: Global, text: &str, width: u32) -> Wrapped {
    let mut out = Wrapped {
        text: String::new(alloc),
        width: width as usize,
        column: 0,
        hang: None,
        has_failed: false,
    };
    for line in text.lines() {
        out.put_line(line);
    }
    out.put("\n");
    out
}

/// Prints a text. On a terminal of 40 to 120 columns, which the environment has, longer lines are broken.
pub(crate) fn print_text<'a>(rt: &HostRuntime, text: &str) -> Result<(), StreamFault<'a>> {
    let width = match columns(rt) {
        Some(width) if width <= MOST_COLUMNS => width,
        _ => return print(rt, text.as_bytes()),
    };
    let out = broken(rt.alloc(), text, width);
    if out.has_failed {
        return Err(StreamFault::Memory);
    }
    print(rt, out.text.as_bytes())
}
