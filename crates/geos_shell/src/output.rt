//! The standard output and standard error, where they go into files.

use crate::kept::is_kept;
use crate::one_file::are_one_file;
use crate::reason::Reason;
use crate::streams::{STANDARD, StreamFault, is_stream, name_of};

/// What the system calls the file that the standard output goes into.
pub(crate) const OUTPUT: &str = "/dev/stdout";

/// What it calls that of standard error.
pub(crate) const FAULTS: &str = "/dev/stderr";

/// What the system calls the file that is written for a path, also that of the standard output.
pub(crate) fn written_name(path: &str) -> &str {
    if is_stream(path) { OUTPUT } else { path }
}

/// Sees to it that what is printed does not come into what is read of the file with the path, or of the standard input where it is `-`.
/// `StreamFault::Write` of `-` if both are one file.
pub fn keep_from_output<'a>(rt: &HostRuntime, path: &str) -> Result<(), StreamFault<'a>> {
    if are_one_file(rt, name_of(path), OUTPUT) {
        return Err(StreamFault::Write(STANDARD, Reason::IN_USE));
    }
    Ok(())
}

/// Sees to it that an image, which is made of what `source` names, does not come into that or into a VM file, where it goes to the
/// standard output. `StreamFault::Write` of `-` if it would.
pub(crate) fn keep_from_image<'a>(rt: &HostRuntime, source: &str) -> Result<(), StreamFault<'a>> {
    match is_kept(rt, OUTPUT, name_of(source)) {
        Ok(false) => Ok(()),
        _ => Err(StreamFault::Write(STANDARD, Reason::EXISTS)),
    }
}
