//! Pages of what there is to say of a text, a source or an image.

use geos_json::JsonLines;
use geos_pages::{Subject, html};
use geos_shell::{Language, PagePaths, StreamFault, read, write};
use geos_texts::{MOST_READ, Runnable, TextFault, Wanted, known_at_lines, known_lines, put_read};
use line_marks::LineMarks;
use std::alloc::{AllocError, Global};

/// The text of a page.
#[derive(Drop)]
struct Shown {
    subject: Subject,
    text: Vec<u8>,
}

/// The text of the page of what was read: lines with what is known there, or a text as it is if it has no image. Nothing for another fault.
fn shown_of<'a>(
    rt: &HostRuntime,
    found: &Result<Runnable<'a>, TextFault<'a>>,
) -> Result<Option<Shown>, TextFault<'a>> {
    let (subject, text) = match found {
        Ok(image) if image.text.is_empty() => (Subject::Listing, known_lines(rt, image)?.lines),
        Ok(image) => (
            Subject::Text,
            text_or_fault(known_at_lines(rt.alloc(), &image.text))?,
        ),
        Err(TextFault::Assemble(faulty)) => {
            (
                Subject::Faulty,
                text_or_fault(Vec::from_slice(rt.alloc(), &faulty.text))?,
            )
        }
        Err(TextFault::Source(faulty)) => (Subject::Faulty, read(rt, faulty.path, MOST_READ)?),
        Err(_) => return Ok(None),
    };
    Ok(Some(Shown { subject, text }))
}

/// A text, or the fault of one for which there is no memory.
fn text_or_fault<'a>(text: Result<Vec<u8>, AllocError>) -> Result<Vec<u8>, TextFault<'a>> {
    match text {
        Ok(text) => Ok(text),
        Err(_) => Err(TextFault::Stream(StreamFault::Memory)),
    }
}

/// Forgets the line marks of what was read: a page has the lines of the text itself.
fn unmarked<'a>(
    alloc: Global,
    found: Result<Runnable<'a>, TextFault<'a>>,
) -> Result<Runnable<'a>, TextFault<'a>> {
    match found {
        Ok(mut image) => {
            image.marks = LineMarks::new(alloc);
            Ok(image)
        }
        Err(TextFault::Assemble(mut faulty)) => {
            faulty.marks = LineMarks::new(alloc);
            Err(TextFault::Assemble(faulty))
        }
        Err(fault) => Err(fault),
    }
}

/// Makes the page of a text, a source or an image, and writes it. After that, `TextFault::Explained` if the verifier refuses the image, and
/// the fault of a text or a source that has none. Without a page, the fault of reading.
pub(crate) fn explain_on_page<'a>(
    rt: &HostRuntime,
    paths: PagePaths<'a>,
    language: Language,
) -> Result<(), TextFault<'a>> {
    let alloc = rt.alloc();
    let found = unmarked(alloc, Runnable::read(rt, language.at(paths.shown)));
    let shown = shown_of(rt, &found)?;
    let wanted = Wanted {
        warnings: true,
        effects: true,
    };
    let mut data = JsonLines::new(alloc);
    let judged = put_read(alloc, &mut data, &found, wanted);
    if let Some(Shown { subject, text }) = shown {
        let data = text_or_fault(data.finish())?;
        let made = text_or_fault(html(alloc, subject, paths.shown, &text, &data))?;
        write(rt, paths.page, &made, paths.shown)?;
    }
    match (judged?, found) {
        (_, Err(fault)) => Err(fault),
        (Some(reject), Ok(_)) => Err(TextFault::Explained(reject)),
        (None, Ok(_)) => Ok(()),
    }
}
