//! Why a request on a text or an image was not carried out.

use crate::diagnostics::of_text;
use crate::runnable::Runnable;
use crate::sources::FaultySource;
use geos_asm::{AssembleError, BudgetError};
use geos_image::ReadError;
use geos_input::ScriptFault;
use geos_shell::{Diagnosed, Named, StreamFault};
use geos_verify::Reject;
use line_marks::LineMarks;
use std::alloc::{AllocError, Global};
use std::fmt::{self, Display, Formatter};
use thiserror::Error;

/// A text that is not assembled, and its fault.
#[derive(Drop)]
pub struct FaultyText<'a> {
    /// The path that was read.
    pub path: &'a str,
    /// The text, in which line marks are comments.
    pub text: Vec<u8>,
    /// Its line marks.
    pub marks: LineMarks,
    /// Its fault.
    pub fault: AssembleError,
    /// The message of the fault, if the text has line marks.
    said: Option<String>,
}

impl<'a> FaultyText<'a> {
    /// The text of a path, in which line marks are comments, and its fault.
    pub(crate) fn new(
        alloc: Global,
        path: &'a str,
        text: Vec<u8>,
        marks: LineMarks,
        fault: AssembleError,
    ) -> FaultyText<'a> {
        let said = said_by_marks(alloc, &marks, &fault);
        FaultyText {
            path,
            text,
            marks,
            fault,
            said,
        }
    }
}

impl Display for FaultyText<'_> {
    fn fmt<W: fmt::Write>(&self, f: &mut Formatter<W>) -> fmt::Result {
        match &self.said {
            Some(said) => f.write_str(said.as_str()),
            None => self.fault.fmt(f),
        }
    }
}

/// The message of a fault in a text with line marks. None if the text has none, or if there is no memory.
pub(crate) fn said_by_marks<F: Display>(
    alloc: Global,
    marks: &LineMarks,
    fault: &F,
) -> Option<String> {
    if marks.is_empty() {
        return None;
    }
    let said = format!(in alloc; "{fault}").ok()?;
    let by_marks = marks.sentences(alloc, None, said.as_bytes()).ok()?;
    String::from_utf8(by_marks).ok()
}

/// An image that the verifier refuses, and its first refusal.
#[derive(Drop)]
pub struct Refused<'a> {
    /// The image.
    pub image: Runnable<'a>,
    /// The first refusal.
    pub reject: Reject,
}

impl Display for Refused<'_> {
    fn fmt<W: fmt::Write>(&self, f: &mut Formatter<W>) -> fmt::Result {
        self.reject.fmt(f)
    }
}

/// Why a request on a text or an image was not carried out.
#[derive(Drop, Error)]
pub enum TextFault<'a> {
    /// What a path names was not read or written.
    #[error(transparent)]
    Stream(#[from] StreamFault<'a>),
    /// A script has a fault.
    #[error(transparent)]
    Script(#[from] ScriptFault),
    /// A text is not assembled.
    #[error("{0}")]
    Assemble(FaultyText<'a>),
    /// A source is not compiled.
    #[error("{0}")]
    Source(FaultySource<'a>),
    /// A text has no budgets that are enough.
    #[error(transparent)]
    Budget(#[from] BudgetError),
    /// An image of version 1 is required of a text with a borrowed slot.
    #[error("a borrowed slot takes version 2")]
    TakesVersion2,
    /// An image of version 1 is required of a source.
    #[error("--all-rows requires an assembly text")]
    AllRowsOfSource,
    /// A text is required, and an image is given.
    #[error("fmt requires a text")]
    NoText,
    /// The budgets of a source are required, and a source has none.
    #[error("budget requires an assembly text: a source has no budgets")]
    BudgetOfSource,
    /// The words of a source would be others in one layout.
    #[error("fmt can't lay out this source: two signs of it would become one")]
    OtherWords,
    /// A text is longer than a text may be.
    #[error("a text has at most 1,048,576 bytes")]
    LongText,
    /// The bytes are no image.
    #[error(transparent)]
    Read(#[from] ReadError),
    /// The verifier refuses an image.
    #[error("{0}")]
    Refused(Refused<'a>),
    /// A text that is not assembled, of which all is printed that there is to say.
    #[error(transparent)]
    Unexplained(AssembleError),
    /// A list of grants has a word that is none.
    #[error("bad grants: {}", Named(.0))]
    BadGrants(&'a str),
    /// A public routine does what is not granted: which one, what, and where.
    #[error("refused: {}", .0)]
    NotGranted(String),
    /// The budget of a public routine is above the number that is allowed.
    #[error("refused: the budget of {} is {}", .0, .1)]
    OverLimit(String, u32),
    /// The verifier refuses an image that was explained.
    #[error(transparent)]
    Explained(Reject),
    /// The message of a fault in a text with line marks.
    #[error("{0}")]
    Marked(String),
}

impl From<AllocError> for TextFault<'_> {
    fn from(_error: AllocError) -> Self {
        TextFault::Stream(StreamFault::Memory)
    }
}

impl<'a> TextFault<'a> {
    /// The fault of a text with these line marks, which name its lines.
    pub(crate) fn by_marks(self, alloc: Global, marks: &LineMarks) -> TextFault<'a> {
        match said_by_marks(alloc, marks, &self) {
            Some(said) => TextFault::Marked(said),
            None => self,
        }
    }
}

/// Diagnostics with the files and lines that line marks name. Empty if there is no memory.
pub(crate) fn by_marks(alloc: Global, marks: &LineMarks, file: &str, told: Vec<u8>) -> Vec<u8> {
    match marks.diagnostics(alloc, file, told) {
        Ok(told) => told,
        Err(_) => Vec::new(alloc),
    }
}

impl fmt::Debug for TextFault<'_> {
    fn fmt<W: fmt::Write>(&self, f: &mut Formatter<W>) -> fmt::Result {
        Display::fmt(self, f)
    }
}

impl Diagnosed for TextFault<'_> {
    fn diagnostics(&self, alloc: Global) -> Vec<u8> {
        match self {
            TextFault::Stream(fault) => fault.diagnostics(alloc),
            TextFault::Assemble(faulty) => faulty.diagnostics(alloc),
            TextFault::Source(faulty) => faulty.diagnostics(alloc),
            TextFault::Refused(refused) => refused.image.told(alloc),
            _ => Vec::new(alloc),
        }
    }
}

impl FaultyText<'_> {
    fn diagnostics(&self, alloc: Global) -> Vec<u8> {
        let path = Named(self.path);
        let Ok(file) = format!(in alloc; "{path}") else {
            return Vec::new(alloc);
        };
        let told = match of_text(alloc, &file, &self.text) {
            Ok(told) => told,
            Err(_) => Vec::new(alloc),
        };
        by_marks(alloc, &self.marks, &file, told)
    }
}

impl Runnable<'_> {
    /// Why the verifier refuses the image, as diagnostics. Empty if it refuses nothing, if the bytes encode no image, or if there is no memory.
    pub fn told(&self, alloc: Global) -> Vec<u8> {
        let path = Named(self.path);
        let Ok(file) = format!(in alloc; "{path}") else {
            return Vec::new(alloc);
        };
        let told = match self.diagnostics(alloc, &file) {
            Ok(told) => told,
            Err(_) => Vec::new(alloc),
        };
        by_marks(alloc, &self.marks, &file, told)
    }
}
