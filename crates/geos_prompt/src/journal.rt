//! The file that gets the lines since the last commit, so that a session which was stopped can be begun again.

use crate::fault::PromptFault;
use crate::reply::Stop;
use geos_cli::MOST_BYTES;
use geos_shell::{Reason, StreamFault};
use std::fs::{File, OpenOptions};
use std::io::{self, ErrorKind, Read, Write};

/// The first line of a journal, which is a comment.
const FIRST: &[u8] = b"; lines of geos shell since the last commit\n";

/// The most bytes that are read of a journal.
const MOST_READ: u64 = 2 * MOST_BYTES as u64;

/// Opens the file, or makes it, and reads it. An empty one gets the first line.
fn read_or_made(rt: &HostRuntime, path: &str) -> io::Result<(File, Vec<u8>)> {
    let mut how = OpenOptions::new();
    how.read(true).append(true).create(true);
    let mut file = how.open(rt, path)?;
    if !file.metadata()?.is_file() {
        return Err(io::Error::from(ErrorKind::InvalidInput));
    }
    let mut lines = Vec::new(rt.alloc());
    (&file).take(MOST_READ).read_to_end(&mut lines)?;
    if lines.is_empty() {
        file.write_all(FIRST)?;
    }
    Ok((file, lines))
}

/// Opens the journal with the path, or makes it. Returns the lines that it has too. `PromptFault::NoJournal` if the file has something else
/// than a journal.
pub(crate) fn open_journal<'a>(
    rt: &HostRuntime,
    path: &'a str,
) -> Result<(File, Vec<u8>), PromptFault<'a>> {
    match read_or_made(rt, path) {
        Ok((journal, lines)) => {
            if lines.is_empty() || lines.starts_with(FIRST) {
                Ok((journal, lines))
            } else {
                Err(PromptFault::NoJournal(path))
            }
        }
        Err(error) => Err(PromptFault::Stream(match stop_of(&error) {
            Stop::Memory => StreamFault::Memory,
            _ => StreamFault::Write(path, Reason::OTHER),
        })),
    }
}

/// Why a session ends whose journal is not written.
fn stop_of(error: &io::Error) -> Stop {
    match error.kind() {
        ErrorKind::OutOfMemory => Stop::Memory,
        _ => Stop::Journal,
    }
}

/// Writes at the end of a journal.
fn put(file: &mut File, bytes: &[u8]) -> Result<(), Stop> {
    match file.write_all(bytes) {
        Ok(()) => Ok(()),
        Err(error) => Err(stop_of(&error)),
    }
}

/// Adds a line, with its end, to the journal, if there is one.
pub(crate) fn note(journal: &mut Option<File>, line: &[u8]) -> Result<(), Stop> {
    match journal {
        Some(file) => put(file, line),
        None => Ok(()),
    }
}

/// Forgets all lines of the journal, if there is one.
pub(crate) fn clear(journal: &mut Option<File>) -> Result<(), Stop> {
    let Some(file) = journal else {
        return Ok(());
    };
    match file.set_len(0) {
        Ok(()) => put(file, FIRST),
        Err(error) => Err(stop_of(&error)),
    }
}
