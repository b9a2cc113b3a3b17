//! Why texts have no images.

use crate::finding::{Finding, Severity, put_finding, put_more};
use geos_asm::{Unassembled, assemble_or_tell};
use geos_explain::explain_cause;
use geos_flow::Cause;
use geos_json::JsonLines;
use geos_lines::{FaultyLines, faulty_lines, put_saying, tell_many_steps};
use geos_source::Parsed;
use line_marks::LineMarks;
use sentence_text::Text;
use std::alloc::{AllocError, Global};

/// A text: its path, its bytes, in which line marks are comments, and its line marks, if it has some.
#[derive(Clone, Copy)]
pub struct MarkedText<'a> {
    /// The path.
    pub file: &'a str,
    /// The text.
    pub text: &'a [u8],
    /// The line marks.
    pub marks: Option<&'a LineMarks>,
}

/// What is wrong with a line.
#[derive(Clone, Copy)]
struct Wrong<'m> {
    line: usize,
    /// Another line that is the cause, if it is known apart from the message.
    cause: Option<usize>,
    message: &'m [u8],
}

/// A finding about a line.
fn put_line(
    alloc: Global,
    out: &mut JsonLines,
    text: MarkedText<'_>,
    wrong: Wrong<'_>,
) -> Result<(), AllocError> {
    put_finding(
        alloc,
        out,
        &Finding {
            marks: text.marks,
            severity: Severity::Error,
            file: text.file,
            line: Some(wrong.line as u64),
            column: None,
            at: None,
            cause: wrong.cause.map(|line| line as u64),
            cure: None,
            message: wrong.message,
        },
    )
}

/// Each faulty line.
fn put_faulty_lines(
    alloc: Global,
    out: &mut JsonLines,
    text: MarkedText<'_>,
) -> Result<(), AllocError> {
    let FaultyLines { lines, more } = faulty_lines(alloc, text.text)?;
    for line in &lines {
        let mut message = Text::new(alloc);
        put_saying(&mut message, line);
        let message = message.finish()?;
        let wrong = Wrong {
            line: line.fault.line,
            cause: line.first_use(),
            message: &message,
        };
        put_line(alloc, out, text, wrong)?;
    }
    put_more(out, text.file, more as u64);
    Ok(())
}

/// Why no rows are found for the routine at a line.
fn why_no_rows(
    alloc: Global,
    line: usize,
    cause: &Cause,
    parsed: &Parsed,
) -> Result<Vec<u8>, AllocError> {
    let mut message = Vec::new(alloc);
    message.extend_from_slice(b"no rows: ")?;
    match tell_many_steps(alloc, parsed, line, cause)? {
        Some(told) => message.extend_from_slice(&told)?,
        None => message.extend_from_slice(&explain_cause(
            alloc,
            &parsed.lines,
            &parsed.instrs,
            cause,
        )?)?,
    }
    Ok(message)
}

/// Writes why a text has no image: a finding for each faulty line, or one for the routine that no rows are found for. Nothing
/// of a text that has one.
pub fn put_why_no_image(
    alloc: Global,
    out: &mut JsonLines,
    text: MarkedText<'_>,
) -> Result<(), AllocError> {
    if text.text.starts_with(b"GVM1") {
        let wrong = Wrong {
            line: 1,
            cause: None,
            message: b"this is a VM file, and no text: geos dump shows it",
        };
        return put_line(alloc, out, text, wrong);
    }
    match assemble_or_tell(alloc, text.text) {
        Ok(_assembled) => Ok(()),
        Err(Unassembled::BadLine(_)) => put_faulty_lines(alloc, out, text),
        Err(Unassembled::NoRows(line, cause, parsed)) => {
            let message = why_no_rows(alloc, line, &cause, &parsed)?;
            let wrong = Wrong {
                line,
                cause: None,
                message: &message,
            };
            put_line(alloc, out, text, wrong)
        }
        Err(Unassembled::Memory) => Err(AllocError),
    }
}
