//! The lines of a dump, one after the other.

use crate::places::Place;
use geos_text::first_line;

/// A line of a dump, and what follows it. After the last line comes an empty one.
#[derive(Clone, Copy)]
pub(crate) struct DumpLine<'a> {
    pub(crate) place: Place,
    pub(crate) text: &'a [u8],
    rest: &'a [u8],
}

/// The first line of what follows a line at a place.
fn line_after(place: Place, dump: &[u8]) -> DumpLine<'_> {
    let (text, rest) = first_line(dump);
    DumpLine {
        place: place.next(text),
        text,
        rest,
    }
}

impl<'a> DumpLine<'a> {
    /// The first line of a dump.
    pub(crate) fn first(dump: &'a [u8]) -> DumpLine<'a> {
        line_after(Place::start(), dump)
    }

    /// The line after this one.
    pub(crate) fn next(self) -> DumpLine<'a> {
        line_after(self.place, self.rest)
    }
}

/// The lines of the saved directory in a dump.
pub fn saved_part(dump: &[u8]) -> &[u8] {
    let mut rest = dump;
    for _ in 0..dump.len() {
        if rest.starts_with(b"saved ") {
            break;
        }
        let (_line, after) = first_line(rest);
        rest = after;
    }
    rest
}
