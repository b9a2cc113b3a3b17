//! The two directories of an area.

ghost use Rattle.std.specs.Prelude.{◌≤◌, length};

use crate::bytes::{has, word};
use crate::heaps::put_heap_faults;
use crate::report::{Report, Subject};
use geos_terms::is_block_size;
use geos_text::Part;
use lmem_block::check;
use vm_file::{GROUP_UID, MOST_BLOCKS};

/// The bytes before a block: its handle, its user ID and its length.
const FRONT: usize = 6;

/// Reports what is wrong with the bytes of a block, if they are no heap under its handle.
fn put_block_faults(report: &mut Report, subject: Subject, block: &[u8]) {
    if word(block, 0) != usize::from(subject.handle) {
        let found = word(block, 0) as u64;
        report.put_of_block(subject, &[Part::Numbered(": its handle word is ", found)]);
    }
    if !check(block) {
        put_heap_faults(report, subject, block)
    }
}

/// Reports what is wrong with the handle of a block after the one with handle `last`.
fn put_handle_faults(report: &mut Report, subject: Subject, last: usize) {
    let handle = usize::from(subject.handle);
    if handle == 0 || handle > MOST_BLOCKS {
        report.put_of_block(subject, &[Part::Text(": a handle is from 1 to 1024")]);
    } else if handle <= last {
        report.put_of_block(
            subject,
            &[Part::Numbered(": it comes after block ", last as u64)],
        );
    }
}

/// Reports the faults of the block at an offset, after the block with handle
/// `last`, and returns the offset of the next block. None if this cannot be known.
fn put_entry_faults(
    report: &mut Report,
    bytes: &[u8],
    saved: bool,
    at: usize,
    last: usize,
) -> Option<usize> {
    let subject = Subject {
        saved,
        handle: word(bytes, at) as u16,
    };
    if !has(bytes, at, FRONT) {
        report.put_of_block(subject, &[Part::Text(" lies past the end of the area")]);
        return None;
    }
    put_handle_faults(report, subject, last);
    let from = at + FRONT;
    let len = word(bytes, at + 4);
    if !is_block_size(len) {
        let size = Part::Numbered(": its size is ", len as u64);
        report.put_of_block(
            subject,
            &[
                size,
                Part::Text(", and not a multiple of 16 from 64 to 65520"),
            ],
        );
        return None;
    }
    if !has(bytes, from, len) {
        report.put_of_block(subject, &[Part::Text(" lies past the end of the area")]);
        return None;
    }
    put_block_faults(report, subject, &bytes[from..from + len]);
    Some(from + len)
}

/// Whether one of the first blocks from an offset on has the handle, and is a group or is none.
fn lists(bytes: &[u8], from: usize, count: usize, handle: usize, group: bool) -> bool {
    let mut at = from;
    for _ in 0..count {
        let is_group = word(bytes, at.saturating_add(2)) == usize::from(GROUP_UID);
        if word(bytes, at) == handle && is_group == group {
            return true;
        }
        at = at.saturating_add(FRONT + word(bytes, at.saturating_add(4)));
    }
    false
}

/// The word for a directory.
fn directory_of(saved: bool) -> Part<'static> {
    Part::Text(if saved {
        "saved directory"
    } else {
        "current directory"
    })
}

/// Reports what is wrong with the map block and the map item at an offset, of a directory with so many blocks from another offset on.
fn put_map_faults(report: &mut Report, bytes: &[u8], saved: bool, from: usize, at: usize) {
    let count = word(bytes, from);
    let blocks = from.saturating_add(2);
    let (map, group) = (word(bytes, at), word(bytes, at.saturating_add(2)));
    if map != 0 && !lists(bytes, blocks, count, map, false) {
        report.put(
            directory_of(saved),
            &[Part::Numbered(": there is no map block ", map as u64)],
        );
    }
    if group != 0 && !lists(bytes, blocks, count, group, true) {
        report.put(
            directory_of(saved),
            &[Part::Numbered(": there is no group ", group as u64)],
        );
    }
    if group == 0 && word(bytes, at.saturating_add(4)) != 0 {
        report.put(
            directory_of(saved),
            &[Part::Text(": its map item is in no group")],
        );
    }
}

/// Reports the faults of the directory at an offset, and returns
/// the offset at which it ends. None if this cannot be known.
fn put_directory_faults(
    report: &mut Report,
    bytes: &[u8],
    saved: bool,
    from: usize,
) -> Option<usize> {
    let count = word(bytes, from);
    if count > MOST_BLOCKS {
        report.put(
            directory_of(saved),
            &[
                Part::Numbered(": it has ", count as u64),
                Part::Text(" blocks, and 1024 are the most"),
            ],
        );
        return None;
    }
    let mut at = from.saturating_add(2);
    let mut last = 0;
    for _ in 0..count {
        let end = put_entry_faults(report, bytes, saved, at, last)?;
        last = word(bytes, at);
        at = end;
    }
    if !has(bytes, at, FRONT) {
        report.put(
            directory_of(saved),
            &[Part::Text(" lies past the end of the area")],
        );
        return None;
    }
    put_map_faults(report, bytes, saved, from, at);
    Some(at + FRONT)
}

/// Reports what is wrong with the bytes of an area.
pub(crate) fn put_area_faults(report: &mut Report, bytes: &[u8]) {
    if let Some(end) = put_directory_faults(report, bytes, false, 0) {
        put_directory_faults(report, bytes, true, end);
    }
}
