//! The first lines of routines of an assembly text, and the labels to which a routine may go if it gives up.

use crate::edits::NO_LINE;
use crate::names::{code_of, next_word};
use crate::positions::{Span, line_of};

/// The numbers of the line `routine`, and of the lines `in` and `out`, which are `NO_LINE` if there are none.
#[derive(Clone, Copy)]
pub(crate) struct Head {
    pub(crate) routine: usize,
    pub(crate) enters: usize,
    pub(crate) exits: usize,
}

impl Head {
    /// The head that begins at a line.
    fn at(routine: usize) -> Head {
        Head {
            routine,
            enters: NO_LINE,
            exits: NO_LINE,
        }
    }
}

/// The name of the routine that begins with this code, empty if none does.
fn routine_in(code: &str) -> &str {
    match next_word(0, code, 0) {
        Some(first) if first.words() == "routine" => match next_word(0, code, first.end) {
            Some(name) => name.words(),
            None => "",
        },
        _ => "",
    }
}

/// The head of the routine that a line is in.
pub(crate) fn head_at(text: &str, line: usize) -> Option<Head> {
    let mut head = Head::at(NO_LINE);
    for (number, line_text) in text.split("\n").enumerate() {
        let code = code_of(false, line_text).trim();
        if !routine_in(code).is_empty() {
            if number > line {
                break;
            }
            head = Head::at(number)
        } else if code.starts_with("in ") {
            head.enters = number
        } else if code.starts_with("out ") {
            head.exits = number
        }
    }
    if head.routine == NO_LINE {
        None
    } else {
        Some(head)
    }
}

/// The head of the routine with the name.
pub(crate) fn head_named(text: &str, name: &str) -> Option<Head> {
    let mut found = NO_LINE;
    for (number, line) in text.split("\n").enumerate() {
        if routine_in(code_of(false, line)) == name {
            found = number;
            break;
        }
    }
    if found == NO_LINE {
        None
    } else {
        head_at(text, found)
    }
}

/// The labels of a line, and its first word that is none, which is empty if there is no other word.
fn parted(code: &str) -> (&str, &str) {
    match instruction_in(0, code) {
        Some(word) => (code.get(..word.start).unwrap_or(""), word.words()),
        None => (code, ""),
    }
}

/// Whether an instruction does more than to unlock.
fn is_busy(word: &str) -> bool {
    !word.is_empty() && word != "MUNLOCK" && word != "VUNLOCK" && word != "IUNLOCK"
}

/// The first word of a line that is no label.
pub(crate) fn instruction_in<'d>(line: usize, code: &'d str) -> Option<Span<'d>> {
    let mut from = 0;
    // Each word has at least a byte.
    for _ in 0..code.len() {
        let word = next_word(line, code, from)?;
        if code.as_bytes().get(word.end) != Some(&b':') {
            return Some(word);
        }
        from = word.end;
    }
    None
}

/// The label with this number, counted from 0, of those before the code of a line. Empty if there is none.
fn label_at(text: &str, line: usize, number: usize) -> &str {
    let (front, _word) = parted(code_of(false, line_of(text, line)));
    let mut count: usize = 0;
    for part in front.split(":") {
        let part = part.trim();
        if !part.is_empty() {
            if count == number {
                return part;
            }
            count = count.saturating_add(1);
        }
    }
    ""
}

/// How many labels are before the code of a line.
fn label_count(front: &str) -> usize {
    let mut count: usize = 0;
    for part in front.split(":") {
        if !part.trim().is_empty() {
            count = count.saturating_add(1);
        }
    }
    count
}

/// The label with this number, counted from 0, among those of the routine that begins at a line after which only unlocks come before RET.
/// Empty if there is none.
pub(crate) fn end_label(text: &str, routine: usize, number: usize) -> &str {
    // The line of the label, and how many labels come before that line.
    let (mut at, mut before): (usize, usize) = (0, 0);
    // How many labels there are, and after how many of them only unlocks come before RET. Only unlocks have come so far after the others.
    let mut count: usize = 0;
    let mut found: usize = 0;
    for (line, line_text) in text.split("\n").enumerate() {
        let (front, word) = parted(code_of(false, line_text));
        if line > routine {
            let next = count.saturating_add(label_count(front));
            if count <= number && number < next {
                (at, before) = (line, count);
            }
            count = next;
            if word == "RET" {
                found = count;
            } else if is_busy(word) {
                count = found;
            }
            if number < found || word == "routine" {
                break;
            }
        }
    }
    if number < found {
        label_at(text, at, number.saturating_sub(before))
    } else {
        ""
    }
}
