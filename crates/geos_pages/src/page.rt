//! A page around a text and data.

use crate::explained_page::BEFORE_EXPLAINED;
use crate::explained_script::AFTER_EXPLAINED;
use crate::map_page::{AFTER_MAP, BEFORE_MAP};
use geos_json::JsonLines;
use sentence_text::Text;
use std::alloc::{AllocError, Global};

/// What a page shows.
#[derive(Clone, Copy)]
pub enum Subject {
    /// The lines of a text, with their numbers and with what is known there.
    Text,
    /// The listing of an image, with what is known at each instruction.
    Listing,
    /// A text without an image, as it is.
    Faulty,
    /// A drawing of a VM file.
    File,
}

impl Subject {
    /// What the data call it.
    fn word(self) -> &'static str {
        match self {
            Subject::Text => "text",
            Subject::Listing => "listing",
            Subject::Faulty => "faulty",
            Subject::File => "file",
        }
    }

    /// What precedes the text of a page, and what follows its data.
    fn ends(self) -> (&'static str, &'static str) {
        match self {
            Subject::File => (BEFORE_MAP, AFTER_MAP),
            _ => (BEFORE_EXPLAINED, AFTER_EXPLAINED),
        }
    }
}

/// What separates the text of a page from its data.
const BETWEEN: &str = "</pre>\n<pre id=\"data\" hidden>\n";

/// Appends bytes as the text of an element.
fn put_escaped(out: &mut Text, bytes: &[u8]) {
    for byte in bytes {
        match *byte {
            b'<' => out.put("&lt;"),
            b'&' => out.put("&amp;"),
            // A browser would read it as the end of a line.
            b'\r' => out.put("&#13;"),
            byte => out.put_bytes(&[byte]),
        }
    }
}

/// The object that says what a page shows.
fn head_of(alloc: Global, subject: Subject, path: &str) -> Result<Vec<u8>, AllocError> {
    let mut head = JsonLines::new(alloc);
    head.begin("page");
    head.text("file", path.as_bytes());
    head.text("shows", subject.word().as_bytes());
    head.end();
    head.finish()
}

/// The page of what a path names: one HTML file. Its script shows the text and the data, which are lines of JSON objects. Without scripts
/// the page shows only the text. `AllocError` if the allocator refuses memory.
pub fn html(
    alloc: Global,
    subject: Subject,
    path: &str,
    text: &[u8],
    data: &[u8],
) -> Result<Vec<u8>, AllocError> {
    let (before, after) = subject.ends();
    let mut out = Text::new(alloc);
    out.put(before);
    put_escaped(&mut out, text);
    out.put(BETWEEN);
    put_escaped(&mut out, &head_of(alloc, subject, path)?);
    put_escaped(&mut out, data);
    out.put(after);
    out.finish()
}
