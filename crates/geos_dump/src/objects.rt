//! What a file has, as JSON objects.

ghost use Rattle.std.specs.Prelude.{◌≡◌};
ghost use Rattle.geos_terms.specs.Heap.{IsHeap};

use crate::chunks::bytes_of;
use crate::view::{Detail, View};
use geos_json::JsonLines;
use lmem_block::next;
use sentence_text::Text;
use vm_file::{Directory, Entry};

/// The user ID of a group.
const GROUP: u16 = 65_280;

/// A handle, or null for 0, which is none.
fn handle(objects: &mut JsonLines, name: &str, h: u16) {
    if h == 0 {
        objects.null(name)
    } else {
        objects.number(name, u64::from(h))
    }
}

/// A chunk of a block, or an item of a group.
fn put_chunk(objects: &mut JsonLines, side: &str, entry: Entry, c: u16, chunk: &[u8], whole: bool) {
    let (kind, within) = if entry.uid == GROUP {
        ("item", "group")
    } else {
        ("chunk", "block")
    };
    objects.begin(kind);
    objects.text("directory", side.as_bytes());
    objects.number(within, u64::from(entry.h));
    objects.number("handle", u64::from(c));
    objects.number("size", chunk.len() as u64);
    if whole {
        objects.hex("bytes", chunk)
    } else {
        objects.null("bytes")
    }
    objects.end()
}

/// Appends all lines.
fn put_lines(out: &mut Text, objects: JsonLines) {
    match objects.finish() {
        Ok(lines) => out.put_bytes(&lines),
        Err(_) => out.failed = true,
    }
}

/// Appends a block or a group, and its chunks or items, with their bytes if those are requested; only a chunk or item if the view has one.
pub(crate) fn put_block_objects(out: &mut Text, view: View, side: &str, entry: Entry, block: &[u8])
    requires { IsHeap block.now }
{
    let whole = matches!(view.detail, Detail::WholeObjects);
    let mut objects = JsonLines::new(*out.bytes.allocator());
    if view.chunk.is_none() {
        objects.begin(if entry.uid == GROUP { "group" } else { "block" });
        objects.text("directory", side.as_bytes());
        objects.number("handle", u64::from(entry.h));
        objects.number("uid", u64::from(entry.uid));
        objects.number("size", block.len() as u64);
        objects.end();
    }
    let mut last = 0;
    while let Some(c) = next(block, last) {
        if view.has_chunk(c) {
            put_chunk(&mut objects, side, entry, c, bytes_of(block, c), whole);
        }
        last = c;
    }
    put_lines(out, objects)
}

/// Appends a directory with its map block and its map item.
pub(crate) fn put_map_object(out: &mut Text, side: &str, directory: &Directory) {
    let (group, item) = directory.map_item;
    let mut objects = JsonLines::new(*out.bytes.allocator());
    objects.begin("map");
    objects.text("directory", side.as_bytes());
    handle(&mut objects, "block", directory.map_block);
    handle(&mut objects, "group", group);
    handle(&mut objects, "item", item);
    objects.end();
    put_lines(out, objects)
}
