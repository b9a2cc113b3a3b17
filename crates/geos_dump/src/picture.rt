//! A picture of a file in text.

ghost use Rattle.std.specs.Prelude.{◌≡◌, ◌<◌, ◌^◌, length};
ghost use Rattle.geos_terms.specs.Heap.{IsHeap};
ghost use Rattle.vm_file.specs.Outcomes.{ReadsOnly};
ghost use Rattle.vm_file.specs.State.{pair_of};
ghost use Rattle.geos_dump.specs.Sides.{Causes};

use crate::areas::Areas;
use crate::bars::{columns_of, put_bar, put_number_right, put_right};
use crate::error::DumpError;
use crate::sides::{Side, count, directory, entry_at};
use crate::telling::{Telling, put_directories};
use crate::text::put_directory_line;
use lmem_block::total_free;
use sentence_text::Text;
use std::alloc::Global;
use vm_file::{Device, Directory, Entry, GROUP_UID, VmFile};

/// The least width of a picture, in columns.
pub const LEAST_WIDTH: u16 = 60;

/// The columns before a block's bar.
const FRONT: u16 = 25;

/// How the bars of blocks are drawn.
#[derive(Clone, Copy)]
pub(crate) struct Scale {
    /// The size of the longest block, in bytes.
    longest: u16,
    /// The columns that its bar takes.
    columns: u16,
}

/// The bytes that a directory takes in an area, with its blocks.
fn taken<D: Device + Drop>(file: &VmFile<D>, side: Side) -> u32
    ensures { result < 2 ^ 31 }
{
    let mut bytes = 8;
    for i in 0..count(file, side) {
        bytes += 6 + u32::from(entry_at(file, side, i).len);
    }
    bytes
}

/// The size of the longest block of a directory, or 0 if it has none.
fn longest<D: Device + Drop>(file: &VmFile<D>, side: Side) -> u16 {
    let sizes = directory(file, side).entries.iter().map(|e| e.len);
    sizes.max().unwrap_or(0)
}

/// The line of the area that is read, and its bar, of which the pair takes so many bytes.
fn put_area(out: &mut Text, areas: Areas, pair: u32, width: u16) {
    let columns = usize::from(width.saturating_sub(2));
    let name = if areas.second { "B" } else { "A" };
    out.put_number("areas of ", u64::from(areas.size));
    out.put(" bytes, ");
    out.put(name);
    out.put_number(" is read, ", u64::from(pair));
    out.put(" taken\n");
    out.put(name);
    put_bar(out, columns_of(pair, areas.size, columns), columns)
}

/// The line of a block of which so many bytes are used.
pub(crate) fn put_row(out: &mut Text, entry: Entry, used: u16, scale: Scale) {
    let size = u32::from(entry.len);
    let columns = columns_of(size, u32::from(scale.longest), usize::from(scale.columns));
    put_number_right(out, 6, entry.h);
    if entry.uid == GROUP_UID {
        put_right(out, 6, "group");
    } else {
        put_number_right(out, 6, entry.uid);
    }
    put_number_right(out, 6, entry.len);
    put_number_right(out, 6, used);
    put_bar(out, columns_of(u32::from(used), size, columns), columns)
}

/// The bytes of a block that are not free.
pub(crate) fn used_bytes(block: &[u8]) -> u16
    requires heap { IsHeap block.now }
    requires size { length block.now < 65536 }
{
    block.len() as u16 - total_free(block)
}

/// The line of a directory and, where it has blocks, that of their columns, after an empty line.
pub(crate) fn put_columns_line(out: &mut Text, word: &str, directory: &Directory) {
    out.put("\n");
    put_directory_line(out, word, directory);
    if !directory.entries.is_empty() {
        out.put("handle   uid  size  used\n");
    }
}

/// A picture of a file that is read in the given area: how much of the area the pair takes, and
/// for the current directory and the saved one a line for each block with its handle, its user
/// ID or `group`, its size and its used bytes, and a bar with `#` for what is used and `.` for
/// what is free. The bars are as long as the blocks, of which the longest fills the width. No
/// line is longer than `width` columns, of which fewer than 60 count as 60.
///
/// It reads each block once, through one buffer of the greatest block's size, and writes
/// nothing. `Disk` if the device fails, or gives bytes that are no heap under the block's
/// handle; `Memory` if an allocation is refused.
pub fn map<D: Device + Drop>(
    alloc: Global,
    file: &mut VmFile<D>,
    areas: Areas,
    width: u16,
) -> Result<Vec<u8>, DumpError>
    ensures same { file.new ≡ record file.old { device = file.new.device } }
    ensures pair { pair_of D.medium.image file.new ≡ pair_of D.medium.image file.old }
    // Nothing is written, so a stop meanwhile leaves what it might have left before.
    ensures reads { ReadsOnly D.medium file.old.device file.new.device }
    ensures cause { Causes (D.medium.honest file.old.device) (D.medium.failed file.old.device) (D.medium.failed file.new.device) result }
{
    let width = width.max(LEAST_WIDTH);
    let scale = Scale {
        longest: longest(file, Side::Current).max(longest(file, Side::Saved)),
        columns: width.saturating_sub(FRONT),
    };
    let mut out = Text::new(alloc);
    let pair = taken(file, Side::Current) + taken(file, Side::Saved);
    put_area(&mut out, areas, pair, width);
    put_directories(alloc, &mut out, Telling::Picture(scale), file)?;
    Ok(out.finish()?)
}
