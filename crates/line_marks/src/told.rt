//! Sentences that name lines of a text by the file and line of its line marks.

use crate::marks::{LineMarks, Place};
use geos_text::number_up_to;
use sentence_text::Text;
use std::alloc::{AllocError, Global};

/// What is before the number of a line in a sentence.
const LINE: &[u8] = b"line ";

/// How many digits a text begins with.
fn count_digits(text: &[u8]) -> usize {
    text.iter()
        .position(|byte| !byte.is_ascii_digit())
        .unwrap_or(text.len())
}

/// A number at the beginning of a text, and what follows it.
#[derive(Clone, Copy)]
struct Numbered<'a> {
    number: u64,
    rest: &'a [u8],
}

impl<'a> Numbered<'a> {
    fn of(text: &'a [u8]) -> Option<Numbered<'a>> {
        let (digits, rest) = text.split_at_checked(count_digits(text))?;
        let number = number_up_to(u32::MAX, digits).ok()?;
        Some(Numbered {
            number: u64::from(number),
            rest,
        })
    }
}

/// A sentence, cut after the first words `line ` in it.
#[derive(Clone, Copy)]
struct Cut<'a> {
    front: &'a [u8],
    rest: &'a [u8],
}

impl<'a> Cut<'a> {
    fn of(text: &'a [u8]) -> Option<Cut<'a>> {
        let at = text.windows(LINE.len()).position(|window| window == LINE)?;
        let (front, rest) = text.split_at_checked(at.saturating_add(LINE.len()))?;
        Some(Cut { front, rest })
    }
}

impl LineMarks {
    /// Writes a sentence, in which each line number is the one in its file, with the file if it is another than `here`.
    fn put_sentence(&self, out: &mut Text, here: Option<&str>, sentence: &[u8]) {
        let mut rest = sentence;
        // Each turn takes at least a byte.
        for _ in 0..sentence.len() {
            let Some(cut) = Cut::of(rest) else {
                break;
            };
            out.put_bytes(cut.front);
            rest = cut.rest;
            if let Some(numbered) = Numbered::of(cut.rest) {
                put_place(out, here, self.place(numbered.number));
                rest = numbered.rest;
            }
        }
        out.put_bytes(rest)
    }

    /// Writes a diagnostic, `FILE:LINE..`, with the file and the line that a mark names.
    fn put_diagnostic(&self, out: &mut Text, file: &str, diagnostic: &[u8]) {
        let Some(rest) = diagnostic
            .strip_prefix(file.as_bytes())
            .and_then(|rest| rest.strip_prefix(b":"))
        else {
            return out.put_bytes(diagnostic);
        };
        let Some(numbered) = Numbered::of(rest) else {
            return out.put_bytes(diagnostic);
        };
        let place = self.place(numbered.number);
        out.put(place.file.unwrap_or(file));
        out.put_number(":", place.line);
        self.put_sentence(out, place.file, numbered.rest)
    }

    /// Sentences on lines of the text, as `line 3: ..`, in which each line is named as `line 2 of f.asm`. `here` is a file that is not named.
    /// `AllocError` if the allocator refuses memory.
    pub fn sentences(
        &self,
        alloc: Global,
        here: Option<&str>,
        told: &[u8],
    ) -> Result<Vec<u8>, AllocError> {
        let mut out = Text::new(alloc);
        self.put_sentence(&mut out, here, told);
        out.finish()
    }

    /// Diagnostics on the text FILE, lines `FILE:LINE..`, each with the file and the line that a mark names. `AllocError` if the allocator
    /// refuses memory.
    pub fn diagnostics(
        &self,
        alloc: Global,
        file: &str,
        told: Vec<u8>,
    ) -> Result<Vec<u8>, AllocError> {
        if self.is_empty() {
            return Ok(told);
        }
        let mut out = Text::new(alloc);
        for line in told.split_inclusive(|byte| *byte == b'\n') {
            self.put_diagnostic(&mut out, file, line);
        }
        out.finish()
    }
}

/// Writes the number of a line, and its file if it is another than `here`.
fn put_place(out: &mut Text, here: Option<&str>, place: Place) {
    out.put_number("", place.line);
    if place.file != here
        && let Some(file) = place.file
    {
        out.put(" of ");
        out.put(file)
    }
}
