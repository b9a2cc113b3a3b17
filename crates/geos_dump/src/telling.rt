//! What is printed of a file: the text of its contents, or a picture of how full its blocks are.

ghost use Rattle.std.specs.Prelude.{◌≡◌, ◌≤◌, ◌<◌, length};
ghost use Rattle.geos_terms.specs.Heap.{IsHeap, most_block_bytes};
ghost use Rattle.vm_file.specs.State.{HasBlock};
ghost use Rattle.geos_dump.specs.Sides.{Causes, IsOnlyRead, directory_on};

use crate::error::DumpError;
use crate::picture::{Scale, put_columns_line, put_row, used_bytes};
use crate::sides::{Listed, Side, count, directory, entry_at, read_block, word_of};
use crate::text::{put_block_text, put_directory_text};
use crate::view::View;
use geos_terms::MOST_BLOCK_BYTES;
use sentence_text::Text;
use std::alloc::Global;
use vm_file::{Device, Directory, Entry, VmFile};

/// What is printed of a file.
#[derive(Clone, Copy)]
pub(crate) enum Telling {
    /// The text of what it keeps.
    Text(View),
    /// A picture of how full its blocks are.
    Picture(Scale),
}

/// What is printed of a block.
fn put_told(out: &mut Text, telling: Telling, word: &str, entry: Entry, bytes: &[u8])
    requires heap { IsHeap bytes.now }
    requires size { length bytes.now < 65536 }
{
    match telling {
        Telling::Text(view) => put_block_text(out, view, word, entry, bytes),
        Telling::Picture(scale) => put_row(out, entry, used_bytes(bytes), scale),
    }
}

/// What is printed before the blocks of the directory on a side.
fn put_head(out: &mut Text, telling: Telling, side: Side, directory: &Directory) {
    let word = word_of(side);
    match telling {
        Telling::Text(view) => {
            if view.has_directory(side) {
                put_directory_text(out, view.detail, word, directory)
            }
        }
        Telling::Picture(_) => put_columns_line(out, word, directory),
    }
}

/// Whether a block is left out.
fn omits(telling: Telling, block: Listed) -> bool {
    match telling {
        Telling::Text(view) => !view.has_block(block.side, block.entry.h),
        Telling::Picture(_) => false,
    }
}

/// Reads a block, and tells of it, unless it is left out.
#[tactic(auto, using(crate::proofs::Looks::look_none))]
fn put_block<D: Device + Drop>(
    out: &mut Text,
    telling: Telling,
    file: &mut VmFile<D>,
    block: Listed,
    buffer: &mut [u8],
) -> Result<(), DumpError>
    requires listed { HasBlock (directory_on block.side file.old) block.entry.h block.entry.len }
    requires room { block.entry.len ≤ length buffer.old }
    ensures looks { IsOnlyRead D.medium file.old file.new }
    ensures cause { Causes (D.medium.honest file.old.device) (D.medium.failed file.old.device) (D.medium.failed file.new.device) result }
{
    if omits(telling, block) {
        return Ok(());
    }
    let Listed { side, entry } = block;
    let bytes = &mut buffer[..usize::from(entry.len)];
    read_block(file, side, entry.h, bytes)?;
    put_told(out, telling, word_of(side), entry, bytes);
    Ok(())
}

/// The blocks of a directory.
fn put_blocks<D: Device + Drop>(
    out: &mut Text,
    telling: Telling,
    file: &mut VmFile<D>,
    side: Side,
    buffer: &mut [u8],
) -> Result<(), DumpError>
    requires room { length buffer.old ≡ most_block_bytes }
    ensures looks { IsOnlyRead D.medium file.old file.new }
    ensures cause { Causes (D.medium.honest file.old.device) (D.medium.failed file.old.device) (D.medium.failed file.new.device) result }
{
    for i in 0..count(file, side) {
        let entry = entry_at(file, side, i);
        put_block(out, telling, file, Listed { side, entry }, buffer)?;
    }
    Ok(())
}

/// A directory with its blocks.
fn put_directory<D: Device + Drop>(
    out: &mut Text,
    telling: Telling,
    file: &mut VmFile<D>,
    side: Side,
    buffer: &mut [u8],
) -> Result<(), DumpError>
    requires room { length buffer.old ≡ most_block_bytes }
    ensures looks { IsOnlyRead D.medium file.old file.new }
    ensures cause { Causes (D.medium.honest file.old.device) (D.medium.failed file.old.device) (D.medium.failed file.new.device) result }
{
    put_head(out, telling, side, directory(file, side));
    put_blocks(out, telling, file, side, buffer)
}

/// The current directory and the saved one, whose blocks are read through one buffer of the
/// greatest block's size.
pub(crate) fn put_directories<D: Device + Drop>(
    alloc: Global,
    out: &mut Text,
    telling: Telling,
    file: &mut VmFile<D>,
) -> Result<(), DumpError>
    ensures looks { IsOnlyRead D.medium file.old file.new }
    ensures cause { Causes (D.medium.honest file.old.device) (D.medium.failed file.old.device) (D.medium.failed file.new.device) result }
{
    let mut buffer = vec![in alloc; 0u8; MOST_BLOCK_BYTES]?;
    put_directory(out, telling, file, Side::Current, &mut buffer)?;
    put_directory(out, telling, file, Side::Saved, &mut buffer)
}
