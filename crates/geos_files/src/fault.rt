//! Why a VM file was not made, opened, copied or shown.

use geos_dump::DumpError;
use geos_shell::{Diagnosed, Named, StreamFault};
use std::alloc::Global;
use std::error::Error;
use std::fmt::{self, Display, Formatter};
use vm_file::{CreateError, OpenError};

/// Why a VM file was not made, opened, copied or shown.
#[derive(Drop)]
pub enum FileFault<'a> {
    /// What a path names was not read or written.
    Stream(StreamFault<'a>),
    /// The VM file was not made.
    Create(CreateError),
    /// The VM file with the path was not opened.
    Open(&'a str, OpenError),
    /// The blocks of a VM file take more bytes than an area of its copy has. An area of so many has room for them.
    AreaTooSmall(u64),
    /// No area has room for the saved blocks of a VM file twice.
    NoArea,
    /// The VM files with these paths differ.
    Differ(&'a str, &'a str),
    /// The VM file with the path has no block with the handle.
    NoBlock(&'a str, u16),
    /// The VM file with the path has no block with the first handle in which a chunk has the second one.
    NoChunk(&'a str, u16, u16),
    /// The VM file was not shown.
    Dump(DumpError),
}

impl Display for FileFault<'_> {
    fn fmt<W: fmt::Write>(&self, f: &mut Formatter<W>) -> fmt::Result {
        match self {
            FileFault::Stream(fault) => fault.fmt(f),
            FileFault::Create(error) => error.fmt(f),
            FileFault::Open(_, error) => error.fmt(f),
            FileFault::AreaTooSmall(least) => {
                write!(f, "area too small: the blocks require --area {least}")
            }
            FileFault::NoArea => {
                f.write_str("area too small: no area has room for the saved blocks twice")
            }
            FileFault::Differ(one, other) => {
                write!(f, "{} and {} differ", Named(one), Named(other))
            }
            FileFault::NoBlock(path, h) => write!(f, "no block {h} in {}", Named(path)),
            FileFault::NoChunk(path, h, c) => {
                write!(f, "no chunk {c} in block {h} of {}", Named(path))
            }
            FileFault::Dump(error) => error.fmt(f),
        }
    }
}

impl<'a> From<StreamFault<'a>> for FileFault<'a> {
    fn from(fault: StreamFault<'a>) -> FileFault<'a> {
        FileFault::Stream(fault)
    }
}

impl<'a> From<DumpError> for FileFault<'a> {
    fn from(fault: DumpError) -> FileFault<'a> {
        FileFault::Dump(fault)
    }
}

impl fmt::Debug for FileFault<'_> {
    fn fmt<W: fmt::Write>(&self, f: &mut Formatter<W>) -> fmt::Result {
        Display::fmt(self, f)
    }
}

impl Error for FileFault<'_> {}

/// A note that the file with the path is no VM file. Empty if there is no memory for it.
fn no_file_note(alloc: Global, path: &str) -> Vec<u8> {
    let path = Named(path);
    match format!(in alloc;
        "{path}: note: a VM file begins with GVM1; geos list reads texts and images\n"
    ) {
        Ok(note) => note.into_bytes(),
        Err(_) => Vec::new(alloc),
    }
}

impl Diagnosed for FileFault<'_> {
    fn diagnostics(&self, alloc: Global) -> Vec<u8> {
        match self {
            FileFault::Stream(fault) => fault.diagnostics(alloc),
            FileFault::Open(path, OpenError::BadFile(0)) => no_file_note(alloc, *path),
            _ => Vec::new(alloc),
        }
    }
}
