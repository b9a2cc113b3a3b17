//! Why a session ended early.

use geos_cli::ScriptFault;
use geos_files::FileFault;
use geos_shell::{Diagnosed, Named, StreamFault};
use std::alloc::Global;
use std::error::Error;
use std::fmt::{self, Display, Formatter};

/// Why a session ended early.
#[derive(Drop)]
pub enum PromptFault<'a> {
    /// What a path names was not read or written.
    Stream(StreamFault<'a>),
    /// The VM file was not opened.
    File(FileFault<'a>),
    /// The image is not accepted, the lines are too long, or there is no memory.
    Session(ScriptFault),
    /// The file with the path has something, and does not begin as a journal does.
    NoJournal(&'a str),
    /// The VM file with the path did not do what its copy in memory did.
    NotTaken(&'a str),
}

impl<'a> From<StreamFault<'a>> for PromptFault<'a> {
    fn from(fault: StreamFault<'a>) -> PromptFault<'a> {
        PromptFault::Stream(fault)
    }
}

impl Display for PromptFault<'_> {
    fn fmt<W: fmt::Write>(&self, f: &mut Formatter<W>) -> fmt::Result {
        let (path, words) = match self {
            PromptFault::Stream(fault) => return fault.fmt(f),
            PromptFault::File(fault) => return fault.fmt(f),
            PromptFault::Session(fault) => return fault.fmt(f),
            PromptFault::NoJournal(path) => (
                *path,
                " is no journal of geos shell: give an empty or a new file",
            ),
            PromptFault::NotTaken(path) => (
                *path,
                " did not take the commit: begin a new session, which shows what it has",
            ),
        };
        Named(path).fmt(f)?;
        f.write_str(words)
    }
}

impl fmt::Debug for PromptFault<'_> {
    fn fmt<W: fmt::Write>(&self, f: &mut Formatter<W>) -> fmt::Result {
        Display::fmt(self, f)
    }
}

impl Error for PromptFault<'_> {}

impl Diagnosed for PromptFault<'_> {
    fn diagnostics(&self, alloc: Global) -> Vec<u8> {
        match self {
            PromptFault::Stream(fault) => fault.diagnostics(alloc),
            PromptFault::File(fault) => fault.diagnostics(alloc),
            _ => Vec::new(alloc),
        }
    }
}
