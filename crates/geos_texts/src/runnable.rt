//! What a path names is made an image, so that it can be checked and run.

use crate::commands::{Made, NotMade, begins_as_image, image_of};
use crate::fault::{FaultyText, TextFault, by_marks};
use crate::files::{Joined, read_joined};
use crate::requests::MOST_READ;
use crate::sources::{LineWarning, ScriptOfTest, compiled, scripts_of, warning_lines};
use geos_asm::completed;
use geos_explain::diagnose;
use geos_image::ReadError;
use geos_input::ScriptFault;
use geos_lints::{Advice, advice_on_call, warnings};
use geos_scripts::{NameUse, tell_bad_lines};
use geos_shell::{Named, StreamFault, TextPath, read};
use geos_verify::{Checked, check, refused_places};
use line_marks::{LineMarks, Origin, origins_of};
use std::alloc::{AllocError, Global};

/// An image, or a text in which line marks are comments.
#[derive(Drop)]
pub(crate) struct Unmarked {
    pub(crate) bytes: Vec<u8>,
    /// The line marks of the text.
    pub(crate) marks: LineMarks,
}

impl Unmarked {
    /// The image or the text that bytes are.
    fn of(alloc: Global, mut bytes: Vec<u8>) -> Result<Unmarked, AllocError> {
        let marks = if begins_as_image(&bytes) {
            LineMarks::new(alloc)
        } else {
            LineMarks::take(alloc, &mut bytes)?
        };
        Ok(Unmarked { bytes, marks })
    }

    /// The same with the least budgets, if it is a draft, in which `?` stands for the budget of a routine.
    pub(crate) fn completed(alloc: Global, bytes: Vec<u8>) -> Result<Unmarked, AllocError> {
        let Unmarked { bytes, marks } = Unmarked::of(alloc, bytes)?;
        if begins_as_image(&bytes) {
            return Ok(Unmarked { bytes, marks });
        }
        let bytes = completed(alloc, bytes)?;
        Ok(Unmarked { bytes, marks })
    }
}

/// Reads an image or a text.
pub(crate) fn read_unmarked<'a>(
    rt: &HostRuntime,
    path: &'a str,
) -> Result<Unmarked, StreamFault<'a>> {
    match Unmarked::of(rt.alloc(), read(rt, path, MOST_READ)?) {
        Ok(unmarked) => Ok(unmarked),
        Err(_) => Err(StreamFault::Memory),
    }
}

/// Reads an image or a text. A draft comes with the least budgets.
pub(crate) fn read_completed<'a>(
    rt: &HostRuntime,
    path: &'a str,
) -> Result<Unmarked, StreamFault<'a>> {
    match Unmarked::completed(rt.alloc(), read(rt, path, MOST_READ)?) {
        Ok(unmarked) => Ok(unmarked),
        Err(_) => Err(StreamFault::Memory),
    }
}

/// The image that bytes encode, if the verifier accepts it. `ReadError::BadImage` if they encode none. It promises nothing, so that a proof
/// about its callers does not go over the rules of the verifier.
pub(crate) fn accepted(alloc: Global, bytes: &[u8]) -> Result<Option<Checked>, ReadError> {
    match check(geos_image::read(alloc, bytes)?) {
        Ok(checked) => Ok(Some(checked)),
        Err(_) => Ok(None),
    }
}

/// An image that a path names, or that is made of the text there.
#[derive(Drop)]
pub struct Runnable<'a> {
    /// The path.
    pub path: &'a str,
    /// The bytes of the image.
    pub image: Vec<u8>,
    /// For each pc the number of its line, counted from 1, if the image was made of a text.
    pub lines: Option<Vec<u32>>,
    /// The text that the image was made of, in which line marks are comments. Empty without one.
    pub text: Vec<u8>,
    /// The line marks of the text.
    pub marks: LineMarks,
    /// The warnings about a source. Those about a text are found when they are required.
    pub told: Vec<LineWarning>,
    /// The source that the image was made of, after the files that it uses. Empty without one.
    pub source: Vec<u8>,
}

impl<'a> Runnable<'a> {
    /// Reads what a path names: an image; a source, which is compiled; or a text, which is assembled, a draft with the least budgets.
    /// `TextFault::Stream` if the path cannot be read, `TextFault::Source` if the source has a fault, and `TextFault::Assemble` if the text
    /// has no image.
    pub fn read(rt: &HostRuntime, from: TextPath<'a>) -> Result<Runnable<'a>, TextFault<'a>> {
        let bytes = read(rt, from.path, MOST_READ)?;
        if from.is_source() {
            let Joined { text, marks } = read_joined(rt, from.path, bytes)?;
            return compiled(rt.alloc(), from.path, &text, marks);
        }
        Runnable::of(rt.alloc(), from, bytes)
    }

    /// The same of the bytes of what a path names, which is a source without the files that it uses.
    pub fn of(
        alloc: Global,
        from: TextPath<'a>,
        bytes: Vec<u8>,
    ) -> Result<Runnable<'a>, TextFault<'a>> {
        let path = from.path;
        if from.is_source() {
            return compiled(alloc, path, &bytes, LineMarks::new(alloc));
        }
        let Ok(Unmarked { bytes, marks }) = Unmarked::completed(alloc, bytes) else {
            return Err(TextFault::Stream(StreamFault::Memory));
        };
        match image_of(alloc, bytes) {
            Ok(Made { image, lines, text }) => Ok(Runnable {
                path,
                image,
                lines,
                text,
                marks,
                told: Vec::new(alloc),
                source: Vec::new(alloc),
            }),
            Err(NotMade { text, fault }) => Err(TextFault::Assemble(FaultyText::new(
                alloc, path, text, marks, fault,
            ))),
        }
    }

    /// Whether the image was made of a source. A source has at least one byte.
    pub fn is_of_source(&self) -> bool {
        !self.source.is_empty()
    }

    /// The tests of the source that the image was made of, without those of files that it uses; none without a source. `AllocError` if the
    /// allocator refuses memory.
    pub fn tests(&self, alloc: Global) -> Result<Vec<ScriptOfTest>, AllocError> {
        scripts_of(alloc, &self.source, &self.marks)
    }

    /// The text or the source that the image was made of; empty without one. Its lines are those of `lines`.
    pub fn written(&self) -> &[u8] {
        if self.source.is_empty() {
            &self.text
        } else {
            &self.source
        }
    }

    /// The line of each instruction in the text; none of an image without a text.
    pub fn lines(&self) -> Option<&[u32]> {
        match &self.lines {
            Some(lines) => Some(lines.as_slice()),
            None => None,
        }
    }

    /// What the text has for each instruction, with the lines that its line marks name if `by_marks`; none of an image without a text.
    /// `StreamFault::Memory` if the allocator refuses memory.
    pub fn origins(
        &self,
        alloc: Global,
        by_marks: bool,
    ) -> Result<Option<Vec<Origin<'_>>>, TextFault<'a>> {
        let Some(lines) = self.lines() else {
            return Ok(None);
        };
        let marks = if by_marks { Some(&self.marks) } else { None };
        match origins_of(alloc, marks, &self.text, lines) {
            Ok(found) => Ok(Some(found)),
            Err(_) => Err(TextFault::Stream(StreamFault::Memory)),
        }
    }

    /// Why the verifier refuses the image, as diagnostics. Empty if it refuses nothing. `file` is the path as it is written in them.
    /// `ReadError::BadImage` if the bytes encode no image.
    pub fn diagnostics(&self, alloc: Global, file: &str) -> Result<Vec<u8>, ReadError> {
        match check(geos_image::read(alloc, &self.image)?) {
            Ok(_checked) => Ok(Vec::new(alloc)),
            Err((image, _reject)) => {
                let lines = self.lines().unwrap_or(&[]);
                Ok(diagnose(alloc, file, lines, &image, &refused_places(&image))?)
            }
        }
    }

    /// Warnings about a source, or about a text whose image the verifier accepts: lines `FILE:LINE: warning: ..`. Empty if there are none, or
    /// if there is no memory.
    pub fn warnings(&self, alloc: Global) -> Vec<u8> {
        match self.warned(alloc) {
            Ok(told) => told,
            Err(_) => Vec::new(alloc),
        }
    }

    fn warned(&self, alloc: Global) -> Result<Vec<u8>, ReadError> {
        let Some(lines) = self.lines() else {
            return Ok(Vec::new(alloc));
        };
        // The author of a source did not write its instructions.
        if self.is_of_source() {
            return Ok(warning_lines(alloc, self.path, &self.marks, &self.told)?);
        }
        let path = Named(self.path);
        let file = format!(in alloc; "{path}")?;
        match accepted(alloc, &self.image)? {
            Some(checked) => {
                let told = warnings(alloc, &file, &self.text, lines, checked.image())?;
                Ok(by_marks(alloc, &self.marks, &file, told))
            }
            None => Ok(Vec::new(alloc)),
        }
    }

    /// What a warning says of a call with so many numbers of the routine with the name; none if there is nothing to warn of, or if the verifier
    /// refuses the image. `ReadError::BadImage` if the bytes encode no image.
    pub fn advice_on_call(
        &self,
        alloc: Global,
        name: &str,
        numbers: usize,
    ) -> Result<Option<Advice>, ReadError> {
        match accepted(alloc, &self.image)? {
            Some(checked) => Ok(advice_on_call(alloc, checked.image(), name, numbers)?),
            None => Ok(None),
        }
    }

    /// The image, if the verifier accepts it. Otherwise the fault of a session on it: `ScriptFault::Rejected` names the first refusal.
    pub fn checked(&self, alloc: Global) -> Result<Checked, ScriptFault> {
        match check(geos_image::read(alloc, &self.image)?) {
            Ok(checked) => Ok(checked),
            Err((_image, reject)) => Err(ScriptFault::from(reject)),
        }
    }

    /// What is wrong with the bad lines of a script for the image, which may use names, as `explain_script` prints it. The faults are those of
    /// a script that are found before it runs, except for its bad lines.
    pub fn tell_bad_lines(&self, alloc: Global, script: &[u8]) -> Result<Vec<u8>, ScriptFault> {
        Ok(tell_bad_lines(alloc, &self.image, script, NameUse::Allowed)?.told)
    }
}
