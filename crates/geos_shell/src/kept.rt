//! Which files an image does not come into.

use crate::one_file::are_one_file;
use std::fs::{self, File};
use std::io::{self, ErrorKind};
use std::os::unix::fs::FileExt;

/// What a VM file begins with.
const VM_FILE: [u8; 4] = *b"GVM1";
/// What an image begins with, of either version.
const IMAGE: [u8; 4] = *b"GRT1";

/// The first bytes of a regular file, with zeros after its end. An error if it
/// can't be read, because data that a user saved in it might otherwise be lost.
fn first_of(rt: &HostRuntime, path: &str) -> io::Result<[u8; 4]> {
    let mut first = [0; 4];
    // One without a byte need not be readable.
    if !matches!(fs::metadata(rt, path), Ok(found) if found.is_file() && found.len() > 0) {
        return Ok(first);
    }
    match File::open(rt, path)?.read_exact_at(&mut first, 0) {
        Err(error) if error.kind() != ErrorKind::UnexpectedEof => Err(error),
        _ => Ok(first),
    }
}

/// Whether a file begins as a VM file or an image does, or can't be read.
pub(crate) fn may_be_saved(rt: &HostRuntime, path: &str) -> bool {
    match first_of(rt, path) {
        Ok(first) => first == VM_FILE || first == IMAGE,
        Err(_) => true,
    }
}

/// Whether the file with the path is not to be changed: it is the one that the bytes are made of, by another name or another link, or a
/// VM file.
pub(crate) fn is_kept(rt: &HostRuntime, path: &str, source: &str) -> io::Result<bool> {
    Ok(are_one_file(rt, path, source) || first_of(rt, path)? == VM_FILE)
}
