//! What is found in texts, sources and images, as JSON objects.

use crate::fault::{FaultyText, TextFault};
use crate::files::uses_files;
use crate::runnable::Runnable;
use crate::sources::FaultySource;
use geos_image::ReadError;
use geos_json::JsonLines;
use geos_lints::Advice;
use geos_shell::TextPath;
use geos_verify::Reject;
use json_findings::{
    Finding, MarkedText, Severity, Source, put_finding, put_judged, put_why_no_image,
};
use line_marks::LineMarks;
use std::alloc::{AllocError, Global};

/// What is written of an image that was read.
#[derive(Clone, Copy)]
pub struct Wanted {
    /// Whether its author is warned.
    pub warnings: bool,
    /// Whether the effects of each routine are listed, if the image is accepted.
    pub effects: bool,
}

/// The line marks of a text, if it has some.
fn marks_of(marks: &LineMarks) -> Option<&LineMarks> {
    if marks.is_empty() { None } else { Some(marks) }
}

/// Why a text has no image.
fn put_text(alloc: Global, out: &mut JsonLines, text: &FaultyText<'_>) -> Result<(), AllocError> {
    put_why_no_image(
        alloc,
        out,
        MarkedText {
            file: text.path,
            text: &text.text,
            marks: marks_of(&text.marks),
        },
    )
}

/// Why a source is not compiled.
fn put_source(
    alloc: Global,
    out: &mut JsonLines,
    fault: &FaultySource<'_>,
) -> Result<(), AllocError> {
    put_finding(
        alloc,
        out,
        &Finding {
            marks: marks_of(&fault.marks),
            severity: Severity::Error,
            file: fault.path,
            line: Some(fault.line as u64),
            column: Some(fault.column as u64),
            at: None,
            cause: None,
            cure: None,
            message: &fault.sentence,
        },
    )
}

/// The warnings about a source.
fn put_warnings(
    alloc: Global,
    out: &mut JsonLines,
    image: &Runnable<'_>,
) -> Result<(), AllocError> {
    for warning in &image.told {
        let finding = Finding {
            marks: marks_of(&image.marks),
            severity: Severity::Warning,
            file: image.path,
            line: Some(warning.line),
            column: None,
            at: None,
            cause: None,
            cure: None,
            message: &warning.sentence,
        };
        put_finding(alloc, out, &finding)?;
    }
    Ok(())
}

/// What is wrong with an image that was read.
fn put_image(
    alloc: Global,
    out: &mut JsonLines,
    image: &Runnable<'_>,
    wanted: Wanted,
) -> Result<Option<Reject>, ReadError> {
    let source = Source {
        file: image.path,
        text: &image.text,
        lines: image.lines().unwrap_or(&[]),
        marks: marks_of(&image.marks),
        warns: wanted.warnings,
        effects: wanted.effects,
    };
    let reject = put_judged(alloc, out, &source, &image.image)?;
    if wanted.warnings {
        put_warnings(alloc, out, image)?;
    }
    Ok(reject)
}

/// Why nothing was read: each fault of a text or of a source. Nothing for another fault of reading.
fn put_fault(alloc: Global, out: &mut JsonLines, fault: &TextFault<'_>) -> Result<(), AllocError> {
    match fault {
        TextFault::Assemble(text) => put_text(alloc, out, text),
        TextFault::Source(source) => put_source(alloc, out, source),
        _ => Ok(()),
    }
}

/// Writes a warning about a call of a routine of the file with the path.
pub fn put_advice(
    alloc: Global,
    out: &mut JsonLines,
    path: &str,
    advice: &Advice,
) -> Result<(), AllocError> {
    let message = advice.sentence(alloc)?;
    let finding = Finding {
        marks: None,
        severity: Severity::Warning,
        file: path,
        line: None,
        column: None,
        at: None,
        cause: None,
        cure: Some(&advice.cure),
        message: &message,
    };
    put_finding(alloc, out, &finding)
}

/// Writes what is wrong with an image that was read, as `put_judged`, or why none was read. Returns the first refusal of the image, if it has
/// one. `ReadError::BadImage` if the bytes that were read encode no image.
pub fn put_read(
    alloc: Global,
    out: &mut JsonLines,
    read: &Result<Runnable<'_>, TextFault<'_>>,
    wanted: Wanted,
) -> Result<Option<Reject>, ReadError> {
    match read {
        Ok(image) => put_image(alloc, out, image, wanted),
        Err(fault) => {
            // If memory is refused here, the fault itself is still reported.
            let _ = put_fault(alloc, out, fault);
            Ok(None)
        }
    }
}

/// What is found in the bytes of a text, a source or an image with this path: the objects that `geos explain --json` prints, an object a line.
/// Nothing of a source that uses files, since none is read.
pub fn findings_in_text(alloc: Global, path: &str, bytes: Vec<u8>) -> Result<Vec<u8>, AllocError> {
    let mut out = JsonLines::new(alloc);
    let from = TextPath::by_ending(path);
    if !from.is_source() || !uses_files(&bytes) {
        let read = Runnable::of(alloc, from, bytes);
        let wanted = Wanted {
            warnings: true,
            effects: false,
        };
        // A fault is among the objects.
        let _ = put_read(alloc, &mut out, &read, wanted);
    }
    out.finish()
}
