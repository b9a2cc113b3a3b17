//! VM files are compared.

use crate::fault::FileFault;
use crate::shown::text_of_file;
use geos_dump::{Detail, DumpError, View, differences, saved_part};
use geos_shell::{DiffRequest, print};

/// The part of a dump that is compared.
fn part_of(dump: &[u8], saved: bool) -> &[u8] {
    if saved { saved_part(dump) } else { dump }
}

/// Prints what differs between two VM files. They are read one after the other, and the lock of each is released before anything is printed.
///
/// `FileFault::Differ` if something differs.
pub fn compare_files<'a>(rt: &HostRuntime, files: &DiffRequest<'a>) -> Result<(), FileFault<'a>> {
    let view = View {
        detail: Detail::Bytes,
        short: false,
        side: None,
        block: None,
        chunk: None,
    };
    let one = text_of_file(rt, files.one, view)?;
    let other = text_of_file(rt, files.other, view)?;
    let (left, right) = (part_of(&one, files.saved), part_of(&other, files.saved));
    match differences(rt.alloc(), left, right) {
        Ok(None) => Ok(()),
        Ok(Some(lines)) => {
            print(rt, &lines)?;
            Err(FileFault::Differ(files.one, files.other))
        }
        Err(_) => Err(FileFault::Dump(DumpError::Memory)),
    }
}
