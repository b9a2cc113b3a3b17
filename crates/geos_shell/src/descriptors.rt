//! The numbers of the standard streams, which no file of the program's gets.

use crate::reason::Reason;
use crate::streams::StreamFault;
use std::fs::File;
use std::os::fd::{AsRawFd, IntoRawFd};

/// The standard streams have the numbers below this one.
const STREAMS: i32 = 3;

/// A folder that each system has: what it is opened as can't be read or written as a file.
const ROOT: &str = "/";

/// Sees to it that no file which is opened from now on has the number of a standard stream: the numbers of those that are closed are taken
/// by what can't be read and can't be written, so that a stream that is required fails as a closed one does. `StreamFault::Read` if
/// the system does not tell.
pub fn keep_stream_numbers<'a>(rt: &HostRuntime) -> Result<(), StreamFault<'a>> {
    // The system gives the lowest number that is free.
    for _ in 0..STREAMS {
        match File::open(rt, ROOT) {
            Ok(file) if file.as_raw_fd() >= STREAMS => return Ok(()),
            // It stays open as long as the program runs.
            Ok(file) => {
                let _ = file.into_raw_fd();
            }
            Err(error) => return Err(StreamFault::Read(ROOT, Reason::of(&error))),
        }
    }
    Ok(())
}
