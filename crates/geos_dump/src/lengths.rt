//! What a copy takes in an area.

ghost use Rattle.std.specs.Prelude.{◌≡◌, ◌<◌, ◌≤◌, ◌^◌, length};
ghost use Rattle.vm_file.specs.Contents.{pair_length};
ghost use Rattle.vm_file.specs.Directories.{directory_length, entries_length};
ghost use Rattle.vm_file.specs.State.{pair_of};
ghost use Rattle.geos_dump.specs.Copies.{copied};

use crate::sides::{Side, directory};
use vm_file::{Device, Directory, Entry, MOST_BLOCKS, VmFile};

/// The bytes that entries take in an area, with their blocks.
fn entries_length(entries: &[Entry]) -> u32
    requires { length entries.now ≤ MOST_BLOCKS }
    ensures exact { result ≡ entries_length entries.now }
    ensures small { result < 2 ^ 27 }
{
    let mut length = 0;
    for e in entries {
        length += 6 + u32::from(e.len);
    }
    length
}

/// The bytes that a directory takes in an area.
fn directory_length(directory: &Directory) -> u32
    ensures exact { result ≡ directory_length directory.now }
    ensures small { result < 2 ^ 28 }
{
    8 + entries_length(&directory.entries)
}

/// The bytes that a copy takes in an area, whose current directory is the one on a side.
pub(crate) fn copy_length<D: Device + Drop>(file: &VmFile<D>, side: Side) -> u32
    ensures { result ≡ pair_length (copied side (pair_of D.medium.image file.now)) }
{
    directory_length(directory(file, side)) + directory_length(directory(file, Side::Saved))
}
