//! Sources of several files.

use crate::fault::TextFault;
use crate::requests::MOST_READ;
use crate::sources::FaultySource;
use geos_shell::{Named, Reason, STANDARD, StreamFault, are_one_file_read, read};
use geos_text::first_line;
use line_marks::LineMarks;
use std::alloc::{AllocError, Global};

/// The most files of a source.
const MOST_FILES: usize = 16;

/// More than the bytes that all files have: each iteration takes one at least, or ends a file.
const MOST_STEPS: u32 = 33_554_432;

/// A line `use "FILE";`.
#[derive(Clone, Copy)]
struct Use<'t> {
    /// The path of the file.
    path: &'t str,
    /// How many bytes of the line it takes.
    length: usize,
}

/// The offset of the first such byte.
fn place_in(text: &[u8], wanted: u8) -> Option<usize> {
    for (at, byte) in text.iter().enumerate() {
        if *byte == wanted {
            return Some(at);
        }
    }
    None
}

/// The file that a line uses, if it uses one: `use` begins the line.
fn use_of(line: &[u8]) -> Option<Use<'_>> {
    let quoted = line.strip_prefix(b"use ")?.trim_ascii_start();
    let rest = quoted.strip_prefix(b"\"")?;
    let end = place_in(rest, b'"')?;
    let path = std::str::from_utf8(rest.get(..end)?).ok()?;
    let after = rest.get(end..)?.strip_prefix(b"\"")?;
    let behind = after.trim_ascii_start().strip_prefix(b";")?;
    Some(Use {
        path,
        length: line.len().saturating_sub(behind.len()),
    })
}

/// Whether a line of the source uses a file.
pub(crate) fn uses_files(text: &[u8]) -> bool {
    let mut start = 0;
    for (at, byte) in text.iter().enumerate() {
        if *byte == b'\n' {
            if let Some(line) = text.get(start..at)
                && use_of(line).is_some()
            {
                return true;
            }
            start = at.saturating_add(1);
        }
    }
    match text.get(start..) {
        Some(line) => use_of(line).is_some(),
        None => false,
    }
}

/// The path of a file that the file with the other path names.
fn path_beside(alloc: Global, other: &str, path: &str) -> Result<String, AllocError> {
    match other.rsplit_once('/') {
        Some((folder, _)) if !path.starts_with('/') => format!(in alloc; "{folder}/{path}"),
        _ => String::from_str(alloc, path),
    }
}

/// A file of a source.
#[derive(Drop)]
struct File {
    path: String,
    text: Vec<u8>,
    /// The offset at which the next line begins, and the number of the line before it.
    next: usize,
    line: usize,
}

impl File {
    fn new(path: String, text: Vec<u8>) -> File {
        File {
            path,
            text,
            next: 0,
            line: 0,
        }
    }

    /// Goes on to the next line that uses a file, which becomes blank, and returns the path of that file. `None` if no line is left.
    fn next_use(&mut self, alloc: Global) -> Result<Option<String>, AllocError> {
        for _ in 0..self.text.len() {
            let start = self.next;
            let rest = self.text.get(start..).unwrap_or(&[]);
            if rest.is_empty() {
                break;
            }
            let (line, behind) = first_line(rest);
            self.next = self.text.len().saturating_sub(behind.len());
            self.line = self.line.saturating_add(1);
            if let Some(used) = use_of(line) {
                let path = path_beside(alloc, &self.path, used.path)?;
                let length = used.length;
                blank(&mut self.text, start, length);
                return Ok(Some(path));
            }
        }
        Ok(None)
    }

    /// A fault of the last line, in the source with the path.
    fn fault<'a>(
        &self,
        alloc: Global,
        source: &'a str,
        is_first: bool,
        told: &str,
    ) -> Result<TextFault<'a>, AllocError> {
        let line = self.line;
        let mut marks = LineMarks::new(alloc);
        if !is_first {
            marks.begin_file(0, Some(name_of(alloc, &self.path)?))?;
        }
        let sentence = format!(in alloc; "line {line}, column 1: {told}")?;
        Ok(TextFault::Source(FaultySource::new(
            alloc,
            source,
            line,
            1,
            sentence.into_bytes(),
            marks,
        )))
    }
}

/// A path as messages write it.
fn name_of(alloc: Global, path: &str) -> Result<String, AllocError> {
    let path = Named(path);
    format!(in alloc; "{path}")
}

/// Writes spaces over bytes of a text.
fn blank(text: &mut [u8], start: usize, length: usize) {
    for k in start..start.saturating_add(length).min(text.len()) {
        text[k] = b' ';
    }
}

/// A source with the files that it uses.
#[derive(Drop)]
pub(crate) struct Joined {
    pub(crate) text: Vec<u8>,
    /// The file and the line from which each line comes. Empty if no file is used.
    pub(crate) marks: LineMarks,
}

/// A source that is read: a file follows those that it uses.
#[derive(Drop)]
struct Joining {
    /// All files that are read, the source first.
    files: Vec<File>,
    /// Those that are not searched to their end; each is used by the one before it.
    open: Vec<usize>,
    joined: Joined,
    /// How many lines are joined.
    lines: u64,
}

impl Joining {
    /// Adds a file, which is searched next.
    fn add(&mut self, file: File) -> Result<(), AllocError> {
        self.open.push(self.files.len())?;
        self.files.push(file)?;
        Ok(())
    }

    /// Joins the text of a file, which is searched to its end.
    fn join(&mut self, alloc: Global, index: usize) -> Result<(), AllocError> {
        self.open.pop();
        let Some(file) = self.files.get_mut(index) else {
            return Ok(());
        };
        let name = if index == 0 {
            None
        } else {
            Some(name_of(alloc, &file.path)?)
        };
        self.joined.marks.begin_file(self.lines, name)?;
        self.joined.text.extend_from_slice(&file.text)?;
        self.lines = self.lines.saturating_add(file.line as u64);
        if index > 0 && !file.text.ends_with(b"\n") {
            self.joined.text.push(b'\n')?;
        }
        Ok(())
    }

    /// Whether the file with the path has been read.
    fn has(&self, rt: &HostRuntime, path: &str) -> bool {
        for file in &self.files {
            if are_one_file_read(rt, path, &file.path) {
                return true;
            }
        }
        false
    }
}

/// Why a file was not read that a line uses.
fn not_read(alloc: Global, path: &str, reason: Reason) -> Result<String, AllocError> {
    let path = Named(path);
    format!(in alloc; "cannot read {path}: {reason}")
}

impl Joining {
    /// Reads the file that a line of the file with the index uses, unless it has been read.
    fn read_used<'a>(
        &mut self,
        rt: &HostRuntime,
        source: &'a str,
        index: usize,
        path: String,
    ) -> Result<(), TextFault<'a>> {
        let alloc = rt.alloc();
        if self.has(rt, &path) {
            return Ok(());
        }
        let told = if self.files.len() >= MOST_FILES {
            String::from_str(alloc, "a source has at most 16 files")?
        } else {
            match read(rt, &path, MOST_READ) {
                Ok(text) => return Ok(self.add(File::new(path, text))?),
                Err(StreamFault::Read(_, reason)) => not_read(alloc, &path, reason)?,
                Err(StreamFault::Write(_, reason)) => {
                    return Err(TextFault::Stream(StreamFault::Write(STANDARD, reason)));
                }
                Err(_) => return Err(TextFault::Stream(StreamFault::Memory)),
            }
        };
        match self.files.get(index) {
            Some(file) => Err(file.fault(alloc, source, index == 0, &told)?),
            None => Ok(()),
        }
    }
}

/// The source with the path, and before it the files that it uses, and those that they use. Each is read once. `TextFault::Source` names a line
/// that uses a file that is not read.
pub(crate) fn read_joined<'a>(
    rt: &HostRuntime,
    path: &'a str,
    text: Vec<u8>,
) -> Result<Joined, TextFault<'a>> {
    let alloc = rt.alloc();
    if !uses_files(&text) {
        return Ok(Joined {
            text,
            marks: LineMarks::new(alloc),
        });
    }
    let mut joining = Joining {
        files: Vec::new(alloc),
        open: Vec::new(alloc),
        joined: Joined {
            text: Vec::new(alloc),
            marks: LineMarks::new(alloc),
        },
        lines: 0,
    };
    joining.add(File::new(String::from_str(alloc, path)?, text))?;
    for _ in 0..MOST_STEPS {
        let index = match joining.open.last() {
            Some(index) => *index,
            None => break,
        };
        let used = match joining.files.get_mut(index) {
            Some(file) => file.next_use(alloc)?,
            None => None,
        };
        match used {
            Some(used) => joining.read_used(rt, path, index, used)?,
            None => joining.join(alloc, index)?,
        }
    }
    Ok(joining.joined)
}
