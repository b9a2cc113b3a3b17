//! Why elements were not made rows, or rows not elements.

use std::fmt::{self, Display, Formatter};

/// What is wrong with a row.
#[derive(Clone, Copy)]
pub enum RowFault {
    /// A quote is not closed, or not where it may be.
    Quotes,
    /// It has so many fields, and not as many as are required.
    Count(usize, usize),
    /// A field, counted from 1, is no number up to a greatest one.
    Number(usize, u32),
    /// A field has so many bytes, more than it may have.
    Length(usize, usize, usize),
    /// A field has a byte that is no printable character, or an escape that is none.
    Byte(usize),
    /// A field is not bytes in hexadecimal digits.
    Hex(usize),
    /// It has so many bytes, and not as many as an element.
    Size(usize, usize),
    /// A field of a JSON object is no string.
    String(usize),
    /// A JSON object, or one of its rows, has another form.
    Object,
}

/// Words, and perhaps a number after them.
type Part = (&'static str, Option<usize>);

/// There are no more words.
const END: Part = ("", None);

/// Words.
fn words(words: &'static str) -> [Part; 4] {
    [(words, None), END, END, END]
}

/// Words on one number.
fn one(before: &'static str, number: usize, after: &'static str) -> [Part; 4] {
    [(before, Some(number)), (after, None), END, END]
}

/// Words on two numbers.
fn two(one: (&'static str, usize), other: (&'static str, usize), after: &'static str) -> [Part; 4] {
    let (before, first) = one;
    let (between, second) = other;
    [
        (before, Some(first)),
        (between, Some(second)),
        (after, None),
        END,
    ]
}

/// Words on a field that is too long.
fn too_long(field: usize, found: usize, most: usize) -> [Part; 4] {
    [
        ("field ", Some(field)),
        (" has ", Some(found)),
        (" bytes, and at most ", Some(most)),
        (" fit", None),
    ]
}

impl RowFault {
    /// What is wrong, in words.
    fn parts(&self) -> [Part; 4] {
        match *self {
            RowFault::Quotes => words(
                "a field with quotes begins and ends with one, and has two for each quote in it",
            ),
            RowFault::Count(found, required) => two(
                ("fields: ", found),
                (", and ", required),
                " are required",
            ),
            RowFault::Number(field, most) => two(
                ("field ", field),
                (" is no number from 0 to ", most as usize),
                "",
            ),
            RowFault::Length(field, found, most) => too_long(field, found, most),
            RowFault::Byte(field) => one(
                "field ",
                field,
                " has a byte that is no printable ASCII character: write it as \\x and two digits, and a backslash as \\\\",
            ),
            RowFault::Hex(field) => one(
                "field ",
                field,
                " is not hexadecimal, two digits for each byte",
            ),
            RowFault::Size(found, size) => two(
                ("bytes: ", found),
                (", and an element has ", size),
                "",
            ),
            RowFault::String(field) => one("field ", field, " is no string"),
            RowFault::Object => words(
                "the object is {\"kind\":\"array\",\"rows\":[[..],..]}, as 'geos get --array --json' prints it",
            ),
        }
    }
}

impl Display for RowFault {
    fn fmt<W: fmt::Write>(&self, f: &mut Formatter<W>) -> fmt::Result {
        for (words, number) in &self.parts() {
            f.write_str(words)?;
            if let Some(number) = number {
                number.fmt(f)?;
            }
        }
        Ok(())
    }
}

/// Why elements were not made rows, or rows not elements.
#[derive(Clone, Copy)]
pub enum ArrayFault {
    /// The bytes of the chunk are no array.
    NoArray,
    /// The elements of the array have so many bytes, and the requested fields have so many.
    OtherSize(usize, usize),
    /// The sizes of its elements vary, and fields are requested.
    Varying,
    /// The row with the number, counted from 1, is wrong.
    Row(usize, RowFault),
    /// An allocation was refused.
    Memory,
}
