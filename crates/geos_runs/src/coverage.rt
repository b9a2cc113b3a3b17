//! How often the lines of a text ran.

use crate::testing::Testable;
use geos_image::{Image, ReadError};
use geos_text::first_line;
use geos_trace::put_instruction;
use script_tests::Coverage;
use sentence_text::Text;
use std::alloc::{AllocError, Global};

/// An instruction, by the line of the text that it is of.
#[derive(Clone, Copy)]
struct Counted {
    line: u32,
    /// How often it ran.
    count: u64,
}

/// What is counted of the instructions of a line.
#[derive(Clone, Copy)]
struct Count {
    /// The highest count of them.
    most: u64,
    /// Whether one of them never ran.
    has_idle: bool,
}

impl Count {
    /// That of one instruction.
    fn of(count: u64) -> Count {
        Count {
            most: count,
            has_idle: count == 0,
        }
    }

    /// That of these instructions and another one.
    fn with(self, count: u64) -> Count {
        Count {
            most: self.most.max(count),
            has_idle: self.has_idle || count == 0,
        }
    }
}

/// The columns of a count.
const COLUMNS: usize = 9;

/// A count as it is printed, or `-` without instructions.
fn digits_of(alloc: Global, count: Option<Count>) -> Text {
    let mut digits = Text::new(alloc);
    match count {
        None => digits.put("-"),
        Some(Count { most: 0, .. }) => digits.put("#####"),
        Some(Count { most, has_idle }) => {
            digits.put_number("", most);
            digits.put(if has_idle { "*" } else { "" })
        }
    }
    digits
}

/// Appends a count at the right of its columns, and a colon.
fn put_count(alloc: Global, out: &mut Text, count: Option<Count>) {
    let digits = digits_of(alloc, count);
    for _ in digits.bytes.len()..COLUMNS {
        out.put(" ");
    }
    out.put_bytes(&digits.bytes);
    out.put(":");
    out.failed = out.failed || digits.failed;
}

/// The instructions in the order of their lines.
fn by_lines(alloc: Global, lines: &[u32], coverage: &Coverage) -> Result<Vec<Counted>, AllocError> {
    let mut counted = Vec::new(alloc);
    for (pc, line) in lines.iter().enumerate() {
        counted.push(Counted {
            line: *line,
            count: coverage.count(pc.min(65_535) as u16),
        })?;
    }
    counted.sort_by_key(|counted| counted.line)?;
    Ok(counted)
}

/// Takes the first instructions, if they are of the line with this number, and returns their count.
fn take_line(left: &mut &[Counted], number: u64) -> Option<Count> {
    let mut found: Option<Count> = None;
    for _ in 0..left.len() {
        let Some((first, behind)) = left.split_first() else {
            break;
        };
        if u64::from(first.line) > number {
            break;
        }
        found = Some(match found {
            Some(count) => count.with(first.count),
            None => Count::of(first.count),
        });
        *left = behind;
    }
    found
}

/// Appends a line without blanks at its end.
fn put_line(out: &mut Text, line: &[u8]) {
    let line = line.trim_ascii_end();
    out.put(if line.is_empty() { "" } else { " " });
    out.put_bytes(line);
    out.put("\n")
}

/// Appends the lines of a text, each after how often it ran. `lines` has the line of each instruction.
fn put_text(
    alloc: Global,
    out: &mut Text,
    text: &[u8],
    lines: &[u32],
    coverage: &Coverage,
) -> Result<(), AllocError> {
    let counted = by_lines(alloc, lines, coverage)?;
    let mut left = counted.as_slice();
    let mut rest = text;
    let mut number: u64 = 0;
    // A line has at least one byte, so this is enough for all lines.
    for _ in 0..text.len() {
        if rest.is_empty() {
            break;
        }
        let (line, behind) = first_line(rest);
        rest = behind;
        number = number.saturating_add(1);
        put_count(alloc, out, take_line(&mut left, number));
        put_line(out, line);
    }
    Ok(())
}

/// Appends the instructions of an image, each after how often it ran and its pc.
fn put_image(
    alloc: Global,
    out: &mut Text,
    image: &Image,
    coverage: &Coverage,
) -> Result<(), AllocError> {
    for pc in 0..image.len() {
        put_count(alloc, out, Some(Count::of(coverage.count(pc))));
        out.put_number(" ", u64::from(pc));
        put_instruction(&mut out.bytes, image, None, pc)?;
        out.put("\n");
    }
    Ok(())
}

/// How many of the instructions of an image ran.
fn count_covered(image: &Image, coverage: &Coverage) -> u64 {
    let mut covered: u64 = 0;
    for pc in 0..image.len() {
        if coverage.count(pc) > 0 {
            covered = covered.saturating_add(1);
        }
    }
    covered
}

/// The lines of what was tested, each with how often it ran; of an image its instructions. Then how many instructions ran.
pub(crate) fn coverage_text(
    alloc: Global,
    tested: &Testable<'_>,
    coverage: &Coverage,
) -> Result<Vec<u8>, ReadError> {
    let image = geos_image::read(alloc, tested.image)?;
    let mut out = Text::new(alloc);
    match tested.lines {
        Some(lines) => put_text(alloc, &mut out, tested.text, lines, coverage)?,
        None => put_image(alloc, &mut out, &image, coverage)?,
    }
    out.put_number("", count_covered(&image, coverage));
    out.put_number(" of ", u64::from(image.len()));
    out.put(" instructions ran\n");
    Ok(out.finish()?)
}
