//! What is read of files and of the standard input, and written to them or to the standard output.

use crate::colours::tell_coloured;
use crate::output::{keep_from_image, keep_from_output};
use crate::printable::{Named, for_terminal};
use crate::reason::Reason;
use crate::replace::replace;
use crate::reported::Diagnosed;
use crate::request::Reports;
use std::alloc::Global;
use std::error::Error;
use std::fmt::{self, Display, Formatter};
use std::io::{ErrorKind, IsTerminal, Read, Write};
use std::{fs, io};

/// The path that names a standard stream.
pub const STANDARD: &str = "-";

/// Whether the path names a standard stream.
pub(crate) fn is_stream(path: &str) -> bool {
    path == STANDARD
}

/// Why bytes were not read, or not written.
#[derive(Drop)]
pub enum StreamFault<'a> {
    /// The file with the path can't be read.
    Read(&'a str, Reason),
    /// The file with the path can't be written.
    Write(&'a str, Reason),
    /// The file is written, but a part of this name, which is a second name of it, can't be removed.
    Left(String),
    /// An allocation was refused.
    Memory,
}

impl Display for StreamFault<'_> {
    fn fmt<W: fmt::Write>(&self, f: &mut Formatter<W>) -> fmt::Result {
        let (words, name) = match self {
            StreamFault::Read(path, _) => ("cannot read ", *path),
            StreamFault::Write(path, _) => ("cannot write ", *path),
            StreamFault::Left(name) => ("cannot remove ", name.as_str()),
            StreamFault::Memory => return f.write_str("memory"),
        };
        f.write_str(words)?;
        Named(name).fmt(f)
    }
}

impl Error for StreamFault<'_> {}

impl fmt::Debug for StreamFault<'_> {
    fn fmt<W: fmt::Write>(&self, f: &mut Formatter<W>) -> fmt::Result {
        Display::fmt(self, f)
    }
}

impl Diagnosed for StreamFault<'_> {
    fn diagnostics(&self, alloc: Global) -> Vec<u8> {
        match self {
            StreamFault::Read(path, reason) | StreamFault::Write(path, reason) => {
                note(alloc, Named(path), *reason)
            }
            StreamFault::Left(_) | StreamFault::Memory => Vec::new(alloc),
        }
    }
}

/// The system's reason as a diagnostic.
fn note(alloc: Global, path: Named<'_>, reason: Reason) -> Vec<u8> {
    match format!(in alloc; "{path}: note: {reason}\n") {
        Ok(line) => line.into_bytes(),
        Err(_) => Vec::new(alloc),
    }
}

/// Why the file with the path was not written.
pub(crate) fn not_written<'a>(path: &'a str, error: &io::Error) -> StreamFault<'a> {
    match error.kind() {
        ErrorKind::OutOfMemory => StreamFault::Memory,
        _ => StreamFault::Write(path, Reason::of(error)),
    }
}

/// The first bytes, at most so many.
fn bytes_of<R: Read + Drop>(alloc: Global, input: R, most: u64) -> io::Result<Vec<u8>> {
    let mut bytes = Vec::new(alloc);
    input.take(most).read_to_end(&mut bytes)?;
    Ok(bytes)
}

/// Says that the standard input is read, to a user who has to type it.
pub fn tell_typist(rt: &HostRuntime) {
    if rt.stdin().is_terminal() && rt.stderr().is_terminal() {
        let _ = eprintln!(rt; "reading from the terminal, to its end (Ctrl-D)");
    }
}

fn bytes_at(rt: &HostRuntime, path: &str, most: u64) -> io::Result<Vec<u8>> {
    if is_stream(path) {
        tell_typist(rt);
        bytes_of(rt.alloc(), rt.stdin(), most)
    } else {
        bytes_of(rt.alloc(), fs::open(rt, path)?, most)
    }
}

/// The first bytes of the file with the path, at most so many; of the standard input where it is `-`. `StreamFault::Write` of
/// `-` if the standard output goes into that file.
pub fn read<'a>(rt: &HostRuntime, path: &'a str, most: u64) -> Result<Vec<u8>, StreamFault<'a>> {
    keep_from_output(rt, path)?;
    match bytes_at(rt, path, most) {
        Ok(bytes) => Ok(bytes),
        Err(error) if error.kind() == ErrorKind::OutOfMemory => Err(StreamFault::Memory),
        Err(error) => Err(StreamFault::Read(path, Reason::of(&error))),
    }
}

/// Writes the bytes to the standard output.
pub(crate) fn put(rt: &HostRuntime, bytes: &[u8]) -> io::Result<()> {
    io::writer(rt).write_all(bytes)
}

/// Prints the bytes on the standard output.
pub fn print<'a>(rt: &HostRuntime, bytes: &[u8]) -> Result<(), StreamFault<'a>> {
    match put(rt, bytes) {
        Ok(()) => Ok(()),
        Err(error) => Err(StreamFault::Write(STANDARD, Reason::of(&error))),
    }
}

/// Prints lines that have words of the user's. A terminal gets their control characters by their bytes, as `\x1b`, all else the bytes
/// as they are.
pub fn print_lines<'a>(rt: &HostRuntime, text: &[u8]) -> Result<(), StreamFault<'a>> {
    if !rt.stdout().is_terminal() {
        return print(rt, text);
    }
    match for_terminal(rt.alloc(), text) {
        Ok(shown) => print(rt, shown.as_bytes()),
        Err(_) => Err(StreamFault::Memory),
    }
}

/// Appends diagnostics to standard error, with control characters by their bytes, and in colours if these are required. If that fails, only
/// the status reports the fault.
pub fn tell(rt: &HostRuntime, reports: Reports, lines: &[u8]) {
    let Ok(shown) = for_terminal(rt.alloc(), lines) else {
        return;
    };
    if !reports.colours {
        let _ = eprint!(rt; "{shown}");
        return;
    }
    for line in shown.lines() {
        tell_coloured(rt, line);
    }
}

/// What the system calls the file that a path names, also that of the standard input.
pub(crate) fn name_of(path: &str) -> &str {
    if is_stream(path) { "/dev/stdin" } else { path }
}

/// Puts the bytes, which are made of what `source` names, into the file with the path, in the place of what it has; prints them where
/// the path is `-`. `StreamFault::Write` also where the file is the source itself, or a VM file, also as the standard
/// output; it is as it was then. `StreamFault::Left` if the file is
/// written, but its part can't be removed.
pub fn write<'a>(
    rt: &HostRuntime,
    path: &'a str,
    bytes: &[u8],
    source: &str,
) -> Result<(), StreamFault<'a>> {
    if is_stream(path) {
        keep_from_image(rt, source)?;
        return print(rt, bytes);
    }
    match replace(rt, path, bytes, name_of(source)) {
        Ok(None) => Ok(()),
        Ok(Some(part)) => Err(StreamFault::Left(part)),
        Err(error) => Err(not_written(path, &error)),
    }
}
