//! The faults of a text.

ghost use Rattle.std.specs.Prelude.{◌≡◌};
ghost use Rattle.geos_source.specs.Faults.{why_number, least, first, at_line};

use std::fmt;

/// Why a line is faulty.
#[derive(Clone, Copy, Debug)]
pub enum Why {
    /// The first word after the labels is none that a line can begin with.
    UnknownWord,
    /// Operands are too few, too many, or of another form.
    WrongOperands,
    /// A number is past its range.
    OutOfRange,
    /// No label, or no routine, has the name.
    Undefined,
    /// A label has the name of a label before it, or a routine that of a routine before it.
    UsedTwice,
    /// The text is too long, or its routines or instructions are too many.
    TooMany,
    /// The line is not allowed here, or something is missing after it.
    OutOfPlace,
}

impl Why {
    /// The number that names it in a message. Of several faults of a line, the one of the lowest
    /// number is named.
    pub fn number(self) -> u8
        ensures { result ≡ why_number self }
    {
        match self {
            Why::UnknownWord => 1,
            Why::WrongOperands => 2,
            Why::OutOfRange => 3,
            Why::Undefined => 4,
            Why::UsedTwice => 5,
            Why::TooMany => 6,
            Why::OutOfPlace => 7,
        }
    }
}

/// A faulty line of a text.
#[derive(Clone, Copy, Debug)]
pub struct BadLine {
    /// Its number, from 1.
    pub line: usize,
    pub why: Why,
}

impl fmt::Display for BadLine {
    fn fmt<W: fmt::Write>(&self, f: &mut fmt::Formatter<W>) -> fmt::Result {
        write!(f, "line {}: why {}", self.line, self.why.number())
    }
}

/// Of two faults of a line, the one that is named.
pub(crate) fn least(one: Option<Why>, other: Option<Why>) -> Option<Why>
    ensures { result ≡ least one other }
{
    match (one, other) {
        (None, other) => other,
        (one, None) => one,
        (Some(why), Some(other)) => {
            if why.number() <= other.number() {
                Some(why)
            } else {
                Some(other)
            }
        }
    }
}

/// The fault at a line.
pub(crate) fn at_line(line: usize, why: Option<Why>) -> Option<BadLine>
    ensures { result ≡ at_line line why }
{
    match why {
        None => None,
        Some(why) => Some(BadLine { line, why }),
    }
}

/// Of two faults of a text, the one that is named: on the lower line, and there of the lower
/// number.
pub(crate) fn first(one: Option<BadLine>, other: Option<BadLine>) -> Option<BadLine>
    ensures { result ≡ first one other }
{
    match (one, other) {
        (None, other) => other,
        (one, None) => one,
        (Some(fault), Some(other)) => {
            let lower = fault.line == other.line && fault.why.number() <= other.why.number();
            if fault.line < other.line || lower {
                Some(fault)
            } else {
                Some(other)
            }
        }
    }
}
