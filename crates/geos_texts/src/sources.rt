//! Sources of the structured language.

use crate::fault::{TextFault, by_marks, said_by_marks};
use crate::runnable::Runnable;
use geos_image::write;
use geos_shell::{Named, TextPath};
use line_marks::LineMarks;
use std::alloc::{AllocError, Global};
use std::fmt::{self, Display, Formatter};
use tkv_code::{
    Compiled, Fault, Place, SourceTest, compile, lines_of, place_of, put_sentence, put_uncalled,
    tests_of,
};
use tkv_format::{Unformatted, formatted};

/// A source that is not compiled, and why.
#[derive(Drop)]
pub struct FaultySource<'a> {
    /// The path that was read.
    pub path: &'a str,
    /// The line and the column of the fault.
    pub line: usize,
    pub column: usize,
    /// The fault, as a sentence after its line and column.
    pub sentence: Vec<u8>,
    /// The files from which its lines come, if it uses some.
    pub marks: LineMarks,
    /// The message of the fault, if the source uses files.
    said: Option<String>,
}

impl Display for FaultySource<'_> {
    fn fmt<W: fmt::Write>(&self, f: &mut Formatter<W>) -> fmt::Result {
        match &self.said {
            Some(said) => f.write_str(said.as_str()),
            None => f.write_str(sentence_of(&self.sentence)),
        }
    }
}

/// The sentence of a fault.
fn sentence_of(sentence: &[u8]) -> &str {
    std::str::from_utf8(sentence).unwrap_or("a fault of the source")
}

impl<'a> FaultySource<'a> {
    /// The fault of the source with the path, at a line and a column of all its files.
    pub(crate) fn new(
        alloc: Global,
        path: &'a str,
        line: usize,
        column: usize,
        sentence: Vec<u8>,
        marks: LineMarks,
    ) -> FaultySource<'a> {
        let said = said_by_marks(alloc, &marks, &sentence_of(&sentence));
        FaultySource {
            path,
            line,
            column,
            sentence,
            marks,
            said,
        }
    }

    /// The fault as a diagnostic, `FILE:LINE:COLUMN: error: ..`. Empty if there is no memory.
    pub(crate) fn diagnostics(&self, alloc: Global) -> Vec<u8> {
        let told = sentence_of(&self.sentence);
        let sentence = match told.split_once(": ") {
            Some((_place, sentence)) => sentence,
            None => told,
        };
        let (path, line, column) = (Named(self.path), self.line, self.column);
        let Ok(file) = format!(in alloc; "{path}") else {
            return Vec::new(alloc);
        };
        match format!(in alloc; "{file}:{line}:{column}: error: {sentence}\n") {
            Ok(line) => by_marks(alloc, &self.marks, &file, line.into_bytes()),
            Err(_) => Vec::new(alloc),
        }
    }
}

/// A warning about a line of a source.
#[derive(Drop)]
pub struct LineWarning {
    /// The line, counted from 1 in all files of the source.
    pub line: u64,
    pub sentence: Vec<u8>,
}

/// Warnings about routines that no public routine calls, by their places. Files that the source uses may have such routines.
fn warnings_of(
    alloc: Global,
    text: &[u8],
    marks: &LineMarks,
    uncalled: &[u32],
) -> Result<Vec<LineWarning>, AllocError> {
    let mut warnings = Vec::new(alloc);
    for at in uncalled {
        let line = place_of(text, *at).line as u64;
        if marks.place(line).file.is_none() {
            let mut sentence = Vec::new(alloc);
            put_uncalled(&mut sentence, text, *at)?;
            warnings.push(LineWarning { line, sentence })?;
        }
    }
    Ok(warnings)
}

/// Warnings as lines `FILE:LINE: warning: ..`.
pub(crate) fn warning_lines(
    alloc: Global,
    path: &str,
    marks: &LineMarks,
    warnings: &[LineWarning],
) -> Result<Vec<u8>, AllocError> {
    let mut told = Vec::new(alloc);
    for warning in warnings {
        let (path, line) = (Named(path), marks.place(warning.line).line);
        let head = format!(in alloc; "{path}:{line}: warning: ")?;
        told.extend_from_slice(head.as_bytes())?;
        told.extend_from_slice(&warning.sentence)?;
        told.push(b'\n')?;
    }
    Ok(told)
}

/// A test of a source, as a script.
#[derive(Drop)]
pub struct ScriptOfTest {
    pub name: Vec<u8>,
    /// A line for each call.
    pub script: Vec<u8>,
    /// The line of each call in the source.
    pub lines: Vec<u32>,
}

/// A test of a source with these marks; none if it is one of a file that the source uses.
fn script_of(
    alloc: Global,
    text: &[u8],
    marks: &LineMarks,
    test: SourceTest,
) -> Result<Option<ScriptOfTest>, AllocError> {
    if marks
        .place(place_of(text, test.from).line as u64)
        .file
        .is_some()
    {
        return Ok(None);
    }
    let name = text.get(test.from as usize..test.to as usize);
    let mut lines = lines_of(alloc, text, &test.places)?;
    for line in &mut lines {
        *line = marks.place(u64::from(*line)).line.min(4_294_967_295) as u32;
    }
    Ok(Some(ScriptOfTest {
        name: Vec::from_slice(alloc, name.unwrap_or(&[]))?,
        script: test.script.finish()?,
        lines,
    }))
}

/// The tests of a source that was compiled, without those of files that it uses.
pub(crate) fn scripts_of(
    alloc: Global,
    text: &[u8],
    marks: &LineMarks,
) -> Result<Vec<ScriptOfTest>, AllocError> {
    let mut scripts = Vec::new(alloc);
    // The source was compiled, so only memory may be refused.
    let Ok(tests) = tests_of(alloc, text) else {
        return Err(AllocError);
    };
    for test in tests {
        if let Some(script) = script_of(alloc, text, marks, test)? {
            scripts.push(script)?;
        }
    }
    Ok(scripts)
}

/// The image of what was compiled.
fn runnable<'a>(
    alloc: Global,
    path: &'a str,
    text: &[u8],
    marks: LineMarks,
    compiled: &Compiled,
) -> Result<Runnable<'a>, AllocError> {
    let told = warnings_of(alloc, text, &marks, &compiled.uncalled)?;
    Ok(Runnable {
        path,
        image: write(alloc, compiled.checked.image())?,
        lines: Some(lines_of(alloc, text, &compiled.places)?),
        text: Vec::new(alloc),
        marks,
        told,
        source: Vec::from_slice(alloc, text)?,
    })
}

/// The fault of a source, whose lines come from the files that the marks name.
fn faulty<'a>(
    alloc: Global,
    path: &'a str,
    text: &[u8],
    marks: LineMarks,
    fault: &Fault,
) -> TextFault<'a> {
    let mut sentence = Vec::new(alloc);
    if put_sentence(&mut sentence, text, fault).is_err() {
        return TextFault::Read(geos_image::ReadError::Memory);
    }
    let Place { line, column } = place_of(text, fault.at);
    TextFault::Source(FaultySource::new(alloc, path, line, column, sentence, marks))
}

/// The source with the path in one layout. `TextFault::Source` if a word of the source is none, or if the source is too long in this layout.
pub(crate) fn formatted_source<'a>(
    alloc: Global,
    path: &'a str,
    text: &[u8],
) -> Result<Vec<u8>, TextFault<'a>> {
    match formatted(alloc, text) {
        Ok(made) => Ok(made),
        Err(Unformatted::OtherWords) => Err(TextFault::OtherWords),
        Err(Unformatted::Fault(fault)) => {
            Err(faulty(alloc, path, text, LineMarks::new(alloc), &fault))
        }
    }
}

/// The text in columns, or the source in one layout, which the ending of the path tells; none if a word of a source is none.
pub fn formatted_text(
    alloc: Global,
    path: &str,
    text: &[u8],
) -> Result<Option<Vec<u8>>, AllocError> {
    if !TextPath::by_ending(path).is_source() {
        return Ok(Some(line_marks::formatted(alloc, text)?));
    }
    match formatted(alloc, text) {
        Ok(made) => Ok(Some(made)),
        Err(_) => Ok(None),
    }
}

/// The image of a source, whose lines come from the files that the marks name. `TextFault::Source` if it has a fault.
pub(crate) fn compiled<'a>(
    alloc: Global,
    path: &'a str,
    text: &[u8],
    marks: LineMarks,
) -> Result<Runnable<'a>, TextFault<'a>> {
    let fault = match compile(alloc, text) {
        Ok(compiled) => match runnable(alloc, path, text, marks, &compiled) {
            Ok(runnable) => return Ok(runnable),
            Err(_) => return Err(TextFault::Read(geos_image::ReadError::Memory)),
        },
        Err(fault) => fault,
    };
    Err(faulty(alloc, path, text, marks, &fault))
}
