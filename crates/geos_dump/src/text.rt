//! The text of what a file keeps.

ghost use Rattle.std.specs.Prelude.{◌≡◌};
ghost use Rattle.geos_terms.specs.Heap.{IsHeap};
ghost use Rattle.vm_file.specs.Outcomes.{ReadsOnly};
ghost use Rattle.vm_file.specs.State.{pair_of};
ghost use Rattle.geos_dump.specs.Sides.{Causes};

use crate::chunks::{put_chunk_dumps, put_chunks};
use crate::error::DumpError;
use crate::objects::{put_block_objects, put_map_object};
use crate::telling::{Telling, put_directories};
use crate::view::{Detail, View};
use sentence_text::Text;
use std::alloc::Global;
use vm_file::{Device, Directory, Entry, VmFile};

/// The line of a block.
fn put_block_line(out: &mut Text, entry: Entry, bytes: &[u8])
    requires { IsHeap bytes.now }
{
    out.put_number("", u64::from(entry.h));
    out.put_number(" uid ", u64::from(entry.uid));
    out.put_number(" size ", bytes.len() as u64);
    out.put(" chunks");
    put_chunks(out, bytes);
    out.put("\n")
}

/// What is printed of a block of the directory that the word names.
pub(crate) fn put_block_text(out: &mut Text, view: View, word: &str, entry: Entry, bytes: &[u8])
    requires { IsHeap bytes.now }
{
    match view.detail {
        Detail::Lines => put_block_line(out, entry, bytes),
        Detail::Bytes | Detail::Elements => {
            if view.chunk.is_none() {
                put_block_line(out, entry, bytes);
            }
            put_chunk_dumps(out, view, bytes)
        }
        Detail::Objects | Detail::WholeObjects => {
            put_block_objects(out, view, word, entry, bytes)
        }
    }
}

/// What is printed before the blocks of a directory.
pub(crate) fn put_directory_text(
    out: &mut Text,
    detail: Detail,
    word: &str,
    directory: &Directory,
) {
    match detail {
        Detail::Lines | Detail::Bytes | Detail::Elements => {
            put_directory_line(out, word, directory)
        }
        Detail::Objects | Detail::WholeObjects => put_map_object(out, word, directory),
    }
}

/// The line of a directory, after a word.
pub(crate) fn put_directory_line(out: &mut Text, word: &str, directory: &Directory) {
    let (group, item) = directory.map_item;
    out.put(word);
    out.put_number(" map ", u64::from(directory.map_block));
    out.put_number(" item ", u64::from(group));
    out.put_number(" ", u64::from(item));
    out.put("\n")
}

/// The text of a file's contents: for the current directory and for the saved one a line with its map block and its map item, and a line
/// for each block with its handle, its user ID, its size in bytes, and the handles and lengths of its chunks. With `Detail::Bytes` the
/// bytes of its chunks follow, as `xxd` prints them, and with `Detail::Elements` those of an array element by element. `Detail::Objects` and
/// `Detail::WholeObjects` are the same as JSON objects. Only the part that the view has is printed: nothing if it is not there.
///
/// It reads each block once, through one buffer of the greatest block's size, and writes
/// nothing. `Disk` if the device fails, or gives bytes that are no heap under the block's
/// handle; `Memory` if an allocation is refused.
pub fn dump<D: Device + Drop>(
    alloc: Global,
    file: &mut VmFile<D>,
    view: View,
) -> Result<Vec<u8>, DumpError>
    ensures same { file.new ≡ record file.old { device = file.new.device } }
    ensures pair { pair_of D.medium.image file.new ≡ pair_of D.medium.image file.old }
    // Nothing is written, so a stop meanwhile leaves what it might have left before.
    ensures reads { ReadsOnly D.medium file.old.device file.new.device }
    ensures cause { Causes (D.medium.honest file.old.device) (D.medium.failed file.old.device) (D.medium.failed file.new.device) result }
{
    let mut out = Text::new(alloc);
    put_directories(alloc, &mut out, Telling::Text(view), file)?;
    Ok(out.finish()?)
}
