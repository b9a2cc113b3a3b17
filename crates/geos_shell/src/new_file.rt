//! A file that is made whole, or not at all.

use crate::parts::Part;
use crate::streams::{StreamFault, not_written};
use std::fs::{self, File};
use std::io::{self, ErrorKind};

/// The permissions of a new file, before the user's mask.
const ANY: u32 = 0o666;

/// A file that is being made. Nothing has its path until it is whole; until then it is a part, and locked, also when it has got the path.
#[derive(Drop)]
pub struct NewFile<'a> {
    path: &'a str,
    part: Part,
}

/// Makes a part where the path names nothing.
fn begun(rt: &HostRuntime, path: &str) -> io::Result<Part> {
    match fs::symlink_metadata(rt, path) {
        Ok(_) => Err(io::Error::from(ErrorKind::AlreadyExists)),
        Err(error) if error.kind() == ErrorKind::NotFound => Part::beside(rt, path, ANY, path),
        Err(error) => Err(error),
    }
}

impl<'a> NewFile<'a> {
    /// Begins to make the file with the path, which is empty so far. `StreamFault::Write` if something has that path, also a link that
    /// leads nowhere, or where no file can be made.
    pub fn begin(rt: &HostRuntime, path: &'a str) -> Result<NewFile<'a>, StreamFault<'a>> {
        match begun(rt, path) {
            Ok(part) => Ok(NewFile { path, part }),
            Err(error) => Err(not_written(path, &error)),
        }
    }

    /// The open file, once more.
    pub fn file(&self) -> Result<File, StreamFault<'a>> {
        match self.part.file.try_clone() {
            Ok(file) => Ok(file),
            Err(error) => Err(not_written(self.path, &error)),
        }
    }

    /// Gives the file its path, which lasts then. `StreamFault::Write` if something has got that path meanwhile, or where the system
    /// refuses: then nothing is left. `StreamFault::Left` if the file has its path, but its part can't be removed.
    pub fn finish(self, rt: &HostRuntime) -> Result<(), StreamFault<'a>> {
        match self.part.give_path(rt, self.path) {
            Ok(has_one_name) => {
                if has_one_name {
                    return Ok(());
                }
                Err(StreamFault::Left(self.part.name))
            }
            Err(error) => Err(not_written(self.path, &error)),
        }
    }

    /// Makes no file after all.
    pub fn discard(self, rt: &HostRuntime) {
        self.part.discard(rt);
    }
}
