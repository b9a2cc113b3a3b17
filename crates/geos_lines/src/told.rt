//! A sentence on each faulty line of a text.

use crate::faulty::{FaultyLine, FaultyLines, faulty_lines};
use crate::instr_lines::put_instr;
use crate::names::{Statement, Twice};
use crate::other_lines::{put_items, put_out, put_routine};
use crate::sentences::put_word;
use crate::words::Word;
use geos_source::Why;
use sentence_text::Text;
use std::alloc::{AllocError, Global};

/// Appends the sentence on a name that was used before.
fn put_twice(out: &mut Text, twice: Twice) {
    put_word(out, twice.word);
    let (what, cure) = if twice.is_label {
        (
            " is a label already, on line ",
            ": labels hold for the whole text, so choose another name",
        )
    } else {
        (" is a routine already, on line ", ": choose another name")
    };
    out.put_number(what, twice.first as u64);
    out.put(cure)
}

/// What a line begins after its labels.
#[derive(Clone, Copy)]
enum Beginning {
    Routine,
    In,
    Out,
    Instr,
    Nothing,
}

impl Beginning {
    fn of(statement: Statement) -> Beginning {
        match statement.word {
            Some(word) => Beginning::by(word.bytes),
            None => Beginning::Nothing,
        }
    }

    /// What a line with this word begins.
    fn by(word: &[u8]) -> Beginning {
        match word {
            b"routine" => Beginning::Routine,
            b"in" => Beginning::In,
            b"out" => Beginning::Out,
            _ => Beginning::Instr,
        }
    }

    /// The text about a line that is not allowed here.
    fn misplaced(self) -> &'static str {
        match self {
            Beginning::Routine => "the routine has no instruction",
            Beginning::In =>
                "in comes once, with all its items, after the line that begins a routine and before its instructions",
            Beginning::Out =>
                "out comes once, with all its items, after the line that begins a routine and before its instructions",
            Beginning::Instr => "the instruction comes before any line routine NAME budget N",
            Beginning::Nothing => "the text has no line routine NAME budget N",
        }
    }
}

/// Which of the limits the line passes.
fn too_many(number: usize, statement: Statement) -> &'static str {
    if number == 1 {
        return "a text has at most 1048576 bytes";
    }
    match Beginning::of(statement) {
        Beginning::Routine => "a text has at most 32 routines",
        _ => "a text has at most 4096 instructions",
    }
}

/// What is wrong with where the line is.
fn put_misplaced(out: &mut Text, statement: Statement) {
    let beginning = Beginning::of(statement);
    match statement.label {
        Some(label) if !matches!(beginning, Beginning::Instr) => {
            out.put("no instruction follows the label ");
            put_word(out, label)
        }
        _ => out.put(beginning.misplaced()),
    }
}

/// What is wrong with the form of a line.
fn put_form(out: &mut Text, statement: Statement) {
    let line = statement.line;
    let Some(word) = statement.word else {
        return;
    };
    if word.end > line.len() {
        return;
    }
    match Beginning::by(word.bytes) {
        Beginning::Routine => put_routine(out, line, word.end),
        Beginning::In => put_items(out, line, word.end),
        Beginning::Out => put_out(out, line, word.end),
        _ => put_instr(out, line, word),
    }
}

/// Appends what is wrong with a line.
pub fn put_saying(out: &mut Text, line: &FaultyLine) {
    let statement = line.statement;
    match line.fault.why {
        Why::UsedTwice => match line.twice {
            Some(twice) => put_twice(out, twice),
            None => out.put("a name is used twice"),
        },
        Why::TooMany => out.put(too_many(line.fault.line, statement)),
        Why::OutOfPlace => put_misplaced(out, statement),
        Why::UnknownWord | Why::WrongOperands | Why::OutOfRange | Why::Undefined => put_form(
            out, statement,
        ),
    }
}

/// Appends what is before the sentence on a line: `line N: `.
pub fn put_line_number(out: &mut Text, number: usize) {
    out.put_number("line ", number as u64);
    out.put(": ")
}

/// Appends how many more lines are faulty, if any is.
pub fn put_more(out: &mut Text, more: usize) {
    if more == 0 {
        return;
    }
    out.put_number(".. and ", more as u64);
    out.put(" more\n")
}

/// Appends the line of output on a faulty line.
fn put_told(out: &mut Text, line: &FaultyLine) {
    put_line_number(out, line.fault.line);
    put_saying(out, line);
    out.put("\n")
}

/// The explanation of the faulty lines of a text: a line on each of the first 1,000, in order, and how many more there are.
/// `AllocError` if the allocator refuses memory.
pub fn tell_faults(alloc: Global, text: &[u8]) -> Result<Vec<u8>, AllocError> {
    let FaultyLines { lines, more } = faulty_lines(alloc, text)?;
    let mut out = Text::new(alloc);
    for line in &lines {
        put_told(&mut out, line);
    }
    put_more(&mut out, more);
    out.finish()
}
