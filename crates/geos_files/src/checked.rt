//! VM files are checked.

use crate::fault::FileFault;
use crate::files::{Locked, lock_to_read};
use file_checks::{Unsound, check, put_objects};
use geos_json::JsonLines;
use geos_shell::{STANDARD, StreamFault, print};
use std::fs::{self, File};
use std::io;
use std::os::unix::fs::FileExt;

/// What a VM file begins with.
const VM_FILE: [u8; 4] = *b"GVM1";

/// Whether the path leads to a regular file that begins as a VM file does.
fn begins_as_vm_file(rt: &HostRuntime, path: &str) -> io::Result<bool> {
    if !fs::metadata(rt, path)?.is_file() {
        return Ok(false);
    }
    let mut first = [0; 4];
    File::open(rt, path)?.read_exact_at(&mut first, 0)?;
    Ok(first == VM_FILE)
}

/// Whether a word names a VM file: a regular file that can be read, and begins as a VM file does. `-` is a stream, and names none.
pub fn is_vm_file(rt: &HostRuntime, path: &str) -> bool {
    path != STANDARD && matches!(begins_as_vm_file(rt, path), Ok(true))
}

/// Reads all of a VM file. Its lock is let go before anything is printed.
fn checked<'a>(rt: &HostRuntime, path: &'a str) -> Result<Result<(), Unsound>, StreamFault<'a>> {
    let Locked {
        device,
        lock: _lock,
    } = lock_to_read(rt, path)?;
    Ok(check(rt.alloc(), device))
}

/// Prints the lines of faults, or an object for each.
fn print_faults<'a>(
    rt: &HostRuntime,
    path: &'a str,
    json: bool,
    lines: &[u8],
) -> Result<(), StreamFault<'a>> {
    if !json {
        return print(rt, lines);
    }
    let mut objects = JsonLines::new(rt.alloc());
    put_objects(&mut objects, path, lines);
    match objects.finish() {
        Ok(text) => print(rt, &text),
        Err(_) => Err(StreamFault::Memory),
    }
}

/// Prints `sound` if a VM file is legal, or nothing as JSON, and otherwise a line or an object for each fault. `FileFault::Open` if it is not
/// legal, or memory or the device fails; `FileFault::Stream` if it cannot be read, or nothing be printed.
pub fn check_file<'a>(rt: &HostRuntime, path: &'a str, json: bool) -> Result<(), FileFault<'a>> {
    match checked(rt, path)? {
        Ok(()) if json => Ok(()),
        Ok(()) => Ok(print(rt, b"sound\n")?),
        Err(Unsound { error, lines }) => {
            print_faults(rt, path, json, &lines)?;
            Err(FileFault::Open(path, error))
        }
    }
}
