//! The entries of directories: which are legal, and what they take in an area.
ghost use Rattle.std.specs.Prelude.{◌≡◌, ◌<◌, ◌≤◌, ◌^◌, length};
ghost use Rattle.vm_file.specs.Directories.{are_entries, directory_length, entries_length, has_block, has_group, is_directory};
ghost use Rattle.vm_file.specs.State.{place_in};

use crate::directory::{Directory, Entry, GROUP_UID, MOST_BLOCKS};
use geos_terms::is_block_size;

/// Whether a block that is no group has this handle.
pub(crate) fn has_block(entries: &[Entry], h: u16) -> bool
    ensures { result ≡ has_block entries.now h }
{
    entries.iter().any(|e| e.h == h && e.uid != GROUP_UID)
}

/// Whether a group has this handle.
pub(crate) fn has_group(entries: &[Entry], h: u16) -> bool
    ensures { result ≡ has_group entries.now h }
{
    entries.iter().any(|e| e.h == h && e.uid == GROUP_UID)
}

/// Whether handles ascend to 1,024 and lengths are legal block sizes.
fn are_entries(entries: &[Entry]) -> bool
    ensures { result ≡ are_entries 0 entries.now }
{
    let mut last = 0;
    for e in entries {
        if !(last < e.h && e.h as usize <= MOST_BLOCKS && is_block_size(e.len as usize)) {
            return false;
        }
        last = e.h;
    }
    true
}

/// Whether it is a legal directory.
pub(crate) fn is_directory(directory: &Directory) -> bool
    ensures { result ≡ is_directory directory.now }
{
    let entries = directory.entries.as_slice();
    let (group, item) = directory.map_item;
    are_entries(entries)
        && (directory.map_block == 0 || has_block(entries, directory.map_block))
        && (group == 0 || has_group(entries, group))
        && (group != 0 || item == 0)
}

/// The bytes that entries take in an area, with their blocks.
pub(crate) fn entries_length(entries: &[Entry]) -> u32
    requires { length entries.now ≤ MOST_BLOCKS }
    ensures exact { result ≡ entries_length entries.now }
    ensures small { result < 2 ^ 27 }
{
    let mut length = 0;
    for e in entries {
        length += 6 + u32::from(e.len);
    }
    length
}

/// The bytes that a directory takes in an area.
pub(crate) fn directory_length(directory: &Directory) -> u32
    ensures exact { result ≡ directory_length directory.now }
    ensures small { result < 2 ^ 28 }
{
    8 + entries_length(&directory.entries)
}

/// The offset of the bytes of the block with a handle, from the first entry.
pub(crate) fn place_in(entries: &[Entry], h: u16) -> u32
    requires { length entries.now ≤ MOST_BLOCKS }
    ensures exact { result ≡ place_in entries.now h }
    ensures small { result < 2 ^ 28 }
{
    let mut place = 0;
    for e in entries {
        if e.h == h {
            return place + 6;
        }
        place += 6 + u32::from(e.len);
    }
    place
}
