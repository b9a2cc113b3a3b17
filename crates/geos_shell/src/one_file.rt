//! Whether paths and open files are one file.

use crate::streams::name_of;
use std::fs::{self, File, Metadata};
use std::io;
use std::os::unix::fs::MetadataExt;

/// Whether the system says both of one file: of the same number on the same device.
fn is_of(found: &Metadata, other: io::Result<Metadata>) -> bool {
    matches!(other, Ok(other) if found.ino() == other.ino() && found.dev() == other.dev())
}

/// Whether both paths lead to one regular file.
pub(crate) fn are_one_file(rt: &HostRuntime, path: &str, other: &str) -> bool {
    match fs::metadata(rt, path) {
        Ok(found) => found.is_file() && is_of(&found, fs::metadata(rt, other)),
        Err(_) => false,
    }
}

/// Whether a path leads to the regular file that is read of another one, the standard input where that is `-`.
pub fn are_one_file_read(rt: &HostRuntime, path: &str, read: &str) -> bool {
    are_one_file(rt, path, name_of(read))
}

/// Whether the path leads to the open file: another program may have given the path to another file.
pub(crate) fn leads_to(rt: &HostRuntime, path: &str, file: &File) -> bool {
    match file.metadata() {
        Ok(open) => is_of(&open, fs::metadata(rt, path)),
        Err(_) => false,
    }
}

/// Whether the path, which may be that of a link, is one of the open file.
pub(crate) fn names(rt: &HostRuntime, path: &str, file: &File) -> bool {
    match file.metadata() {
        Ok(open) => is_of(&open, fs::symlink_metadata(rt, path)),
        Err(_) => false,
    }
}
