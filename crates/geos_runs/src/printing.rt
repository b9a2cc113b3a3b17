//! What was made is printed, or written to a file.

use crate::fault::RunFault;
use geos_cli::ScriptFault;
use geos_shell::{print, write};
use std::alloc::AllocError;

/// Prints bytes.
pub(crate) fn print_bytes<'a>(rt: &HostRuntime, bytes: &[u8]) -> Result<(), RunFault<'a>> {
    match print(rt, bytes) {
        Ok(()) => Ok(()),
        Err(fault) => Err(RunFault::Stream(fault)),
    }
}

/// Prints bytes that were made, if there was memory for them.
pub(crate) fn print_made<'a>(
    rt: &HostRuntime,
    made: Result<Vec<u8>, AllocError>,
) -> Result<(), RunFault<'a>> {
    match made {
        Ok(bytes) => print_bytes(rt, &bytes),
        Err(_) => Err(RunFault::Session(ScriptFault::Memory)),
    }
}

/// Writes bytes that were made to the path `out`, if there was memory for them. They tell of what was read from the path `source`.
pub(crate) fn write_made<'a>(
    rt: &HostRuntime,
    out: &'a str,
    made: Result<Vec<u8>, AllocError>,
    source: &str,
) -> Result<(), RunFault<'a>> {
    let Ok(bytes) = made else {
        return Err(RunFault::Session(ScriptFault::Memory));
    };
    match write(rt, out, &bytes, source) {
        Ok(()) => Ok(()),
        Err(fault) => Err(RunFault::Stream(fault)),
    }
}
