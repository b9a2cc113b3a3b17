//! Explanations of images and texts.

ghost use Rattle.std.specs.Prelude.{◌≡◌, ◌<◌, ◌⊎◌, Err, IfOk, IsTrue, length, slice_index_or};
ghost use Rattle.geos_asm.specs.Assembling.{IsAssembled};
ghost use Rattle.geos_image.specs.Reading.{image_at};
ghost use Rattle.geos_source.specs.InstrLines.{instr_lines};
ghost use Rattle.takhvoi.specs.Texts.{EndsLine, Gives, GivesOrTells, IsExplained, IsExplainedText, IsJudged, IsLonger};

use crate::status::{BAD_IMAGE, NO_MEMORY};
use crate::texts::give;
use geos_asm::{Assembled, Unassembled, assemble_or_tell};
use geos_explain::{explain, explain_cause, explain_text};
use geos_flow::Cause;
use geos_image::{Image, ReadError};
use geos_lines::{tell_faults, tell_many_steps};
use geos_source::Parsed;
use geos_text::first_line;
use geos_verify::{check, refused_places};
use std::alloc::{AllocError, Global};

/// Whether a text ends with a line feed.
fn ends_line(text: &[u8]) -> bool
    ensures { IsTrue result → EndsLine text.now }
{
    match text.last() {
        Some(byte) => *byte == b'\n',
        None => false,
    }
}

/// The text, with a line feed at its end.
#[tactic(auto, using(crate::proofs::Lines::fed))]
fn with_end(text: Vec<u8>) -> Result<Vec<u8>, AllocError>
    ensures { IfOk result (λ ended. EndsLine ended.items) }
{
    if ends_line(&text) {
        return Ok(text);
    }
    let mut text = text;
    text.push(b'\n')?;
    Ok(text)
}

/// The explanation of an image.
fn explained(alloc: Global, image: Image) -> Result<Vec<u8>, AllocError>
    ensures { IfOk result (λ text. EndsLine text.items) }
{
    let text = match check(image) {
        Ok(checked) => explain(alloc, checked.image(), &[])?,
        Err((image, _reject)) => explain(alloc, &image, &refused_places(&image))?,
    };
    with_end(text)
}

/// The listing of an image with what is known at each instruction, and if it is refused, why. `told` as for `takhvoi_list`.
#[unsafe(no_mangle)]
pub extern "C" fn takhvoi_explain(
    alloc: Global,
    bytes: &[u8],
    into: &mut [u8],
    told: &mut u64,
) -> u32
    ensures explained { result ≡ 0 → Gives (IsExplained bytes.now) told.new into.old into.new }
    ensures kept { (result ≡ 0 → ⊥) → into.new ≡ into.old }
    ensures bad { result ≡ 112 → image_at bytes.now ≡ Err told.new }
    ensures short { result ≡ 115 → IsLonger (IsExplained bytes.now) told.new (length into.old) }
    ensures own { GivesOrTells result }
{
    let image = match geos_image::read(alloc, bytes) {
        Ok(image) => image,
        Err(ReadError::BadImage(at)) => {
            *told = at as u64;
            return BAD_IMAGE;
        }
        Err(ReadError::Memory) => return NO_MEMORY,
    };
    match explained(alloc, image) {
        Ok(text) => give(&text, into, told),
        Err(_) => NO_MEMORY,
    }
}

/// The explanation of a text.
#[derive(Drop)]
struct Said {
    text: Vec<u8>,
    /// The line of the first fault or refusal; 0 if there is none.
    line: u64,
    /// The column in that line, from 1; 0 for the whole line.
    column: u64,
}

/// The number after ` at column ` in the first line of a text; otherwise 0.
pub(crate) fn column_in(told: &[u8]) -> u64 {
    const COLUMN: &[u8] = b" at column ";
    let (line, _behind) = first_line(told);
    let Some(at) = line
        .windows(COLUMN.len())
        .position(|window| window == COLUMN)
    else {
        return 0;
    };
    let mut column: u64 = 0;
    for byte in line.iter().skip(at + COLUMN.len()) {
        if !byte.is_ascii_digit() {
            return column;
        }
        column = column
            .saturating_mul(10)
            .saturating_add(u64::from(*byte - b'0'));
    }
    column
}

/// The line of an instruction.
pub(crate) fn line_of(lines: &[u32], pc: u16) -> u64
    ensures { result ≡ slice_index_or lines.now pc 0 }
{
    match lines.get(usize::from(pc)) {
        Some(line) => u64::from(*line),
        None => 0,
    }
}

/// The explanation of a text that has an image.
fn of_assembled(alloc: Global, text: &[u8], assembled: Assembled) -> Result<Said, AllocError>
    requires image { IsAssembled text.now assembled.image }
    requires lines { assembled.lines.items ≡ instr_lines text.now }
    ensures { IfOk result (λ said. IsJudged text.now said.line) }
{
    let Assembled { image, lines } = assembled;
    match check(image) {
        Ok(checked) => Ok(Said {
            text: explain_text(alloc, text, &lines, checked.image(), &[])?,
            line: 0,
            column: 0,
        }),
        Err((image, reject)) => Ok(Said {
            text: explain_text(alloc, text, &lines, &image, &refused_places(&image))?,
            line: line_of(&lines, reject.pc),
            column: 0,
        }),
    }
}

/// Why no rows are found for the routine of a text that begins on a line.
pub(crate) fn why_no_rows(
    alloc: Global,
    line: usize,
    cause: &Cause,
    parsed: &Parsed,
) -> Result<Vec<u8>, AllocError> {
    match tell_many_steps(alloc, parsed, line, cause)? {
        Some(told) => Ok(told),
        None => explain_cause(alloc, &parsed.lines, &parsed.instrs, cause),
    }
}

/// The explanation of a text.
fn of_text(alloc: Global, text: &[u8]) -> Result<Said, AllocError>
    ensures { IfOk result (λ said. IsJudged text.now said.line) }
{
    match assemble_or_tell(alloc, text) {
        Ok(assembled) => of_assembled(alloc, text, assembled),
        Err(Unassembled::BadLine(bad)) => {
            let told = tell_faults(alloc, text)?;
            let column = column_in(&told);
            Ok(Said {
                text: told,
                line: bad.line as u64,
                column,
            })
        }
        Err(Unassembled::NoRows(line, cause, parsed)) => Ok(Said {
            text: why_no_rows(alloc, line, &cause, &parsed)?,
            line: line as u64,
            column: 0,
        }),
        Err(Unassembled::Memory) => Err(AllocError),
    }
}

/// The lines of a text with what is known at each instruction, and why its image is refused, if it is; or a line on each faulty line;
/// or why no rows are found. `told` is the number of bytes, also if the buffer is too short; `line` and `column` are those of the first fault
/// or refusal, 0 if there is none. The column is 0 for a whole line.
#[unsafe(no_mangle)]
pub extern "C" fn takhvoi_explain_text(
    alloc: Global,
    text: &[u8],
    into: &mut [u8],
    told: &mut u64,
    line: &mut u64,
    column: &mut u64,
) -> u32
    ensures explained { result ≡ 0 → Gives (IsExplainedText text.now line.new) told.new into.old into.new }
    ensures kept { (result ≡ 0 → ⊥) → into.new ≡ into.old }
    ensures short { result ≡ 115 → IsLonger (IsExplainedText text.now line.new) told.new (length into.old) }
    ensures own { (result ≡ 0) ⊎ ((result ≡ 111) ⊎ (result ≡ 115)) }
{
    match of_text(alloc, text) {
        Ok(said) => {
            *line = said.line;
            *column = said.column;
            match with_end(said.text) {
                Ok(explanation) => give(&explanation, into, told),
                Err(_) => NO_MEMORY,
            }
        }
        Err(_) => NO_MEMORY,
    }
}
