//! The bytes of a copy.

ghost use Rattle.std.specs.Prelude.{◌≡◌, ◌<◌, length, IfOk};
ghost use Rattle.geos_dump.specs.Sides.{IsOnlyRead, contents_on};
ghost use Rattle.vm_file.specs.State.{pair_of};

use crate::copy_error::Fault;
use crate::sides::{Side, count, directory, entry_at, read_block};
use sentence_text::Text;
use std::alloc::Global;
use vm_file::{Device, Disk, VmFile};

/// How many bytes precede the first area.
const FRONT: usize = 1_024;

/// A vector of so many zeros. `Memory` if an allocation is refused.
pub(crate) fn zeros(alloc: Global, len: usize) -> Result<Vec<u8>, Fault>
    ensures { IfOk result (λ bytes. length bytes.items ≡ len) }
{
    match Vec::from_elem(alloc, 0u8, len) {
        Ok(bytes) => Ok(bytes),
        Err(_) => Err(Fault::Memory),
    }
}

/// The bytes of three words, the low byte first.
fn bytes_of(one: u16, two: u16, three: u16) -> [u8; 6] {
    let (a, b, c) = (one.to_le_bytes(), two.to_le_bytes(), three.to_le_bytes());
    [a[0], a[1], b[0], b[1], c[0], c[1]]
}

/// Appends a block with its entry.
fn put_block<D: Device + Drop>(
    alloc: Global,
    out: &mut Text,
    file: &mut VmFile<D>,
    side: Side,
    i: usize,
) -> Result<(), Fault>
    requires { i < length (contents_on side (pair_of D.medium.image file.old)).blocks }
    ensures { IsOnlyRead D.medium file.old file.new }
{
    let entry = entry_at(file, side, i);
    let mut block = match zeros(alloc, usize::from(entry.len)) {
        Ok(block) => block,
        Err(error) => return Err(error),
    };
    match read_block(file, side, entry.h, &mut block) {
        Ok(()) => {}
        Err(Disk) => return Err(Fault::Disk),
    }
    out.put_bytes(&bytes_of(entry.h, entry.uid, entry.len));
    out.put_bytes(&block);
    Ok(())
}

/// Appends the blocks of a directory.
fn put_blocks<D: Device + Drop>(
    alloc: Global,
    out: &mut Text,
    file: &mut VmFile<D>,
    side: Side,
) -> Result<(), Fault>
    ensures { IsOnlyRead D.medium file.old file.new }
{
    for i in 0..count(file, side) {
        match put_block(alloc, out, file, side, i) {
            Ok(()) => {}
            Err(error) => return Err(error),
        }
    }
    Ok(())
}

/// Appends a directory with its blocks.
fn put_directory<D: Device + Drop>(
    alloc: Global,
    out: &mut Text,
    file: &mut VmFile<D>,
    side: Side,
) -> Result<(), Fault>
    ensures { IsOnlyRead D.medium file.old file.new }
{
    let count = (count(file, side) as u16).to_le_bytes();
    let listed = directory(file, side);
    let maps = bytes_of(listed.map_block, listed.map_item.0, listed.map_item.1);
    out.put_bytes(&count);
    match put_blocks(alloc, out, file, side) {
        Ok(()) => {}
        Err(error) => return Err(error),
    }
    out.put_bytes(&maps);
    Ok(())
}

/// Writes the header of a file with areas of so many bytes.
fn put_header(front: &mut [u8], area: u32)
    requires { length front.old ≡ FRONT }
{
    let size = area.to_le_bytes();
    front[0] = b'G';
    front[1] = b'V';
    front[2] = b'M';
    front[3] = b'1';
    front[4] = 1;
    front[8] = size[0];
    front[9] = size[1];
    front[10] = size[2];
    front[11] = size[3];
}

/// The bytes of a copy with areas of so many bytes, to the end of its pair. The directory on a side is its current one.
pub(crate) fn spelled<D: Device + Drop>(
    alloc: Global,
    file: &mut VmFile<D>,
    area: u32,
    side: Side,
) -> Result<Vec<u8>, Fault>
    ensures { IsOnlyRead D.medium file.old file.new }
{
    let mut front = [0; FRONT];
    put_header(&mut front, area);
    let mut out = Text::new(alloc);
    out.put_bytes(&front);
    match put_directory(alloc, &mut out, file, side) {
        Ok(()) => {}
        Err(error) => return Err(error),
    }
    match put_directory(alloc, &mut out, file, Side::Saved) {
        Ok(()) => {}
        Err(error) => return Err(error),
    }
    match out.finish() {
        Ok(bytes) => Ok(bytes),
        Err(_) => Err(Fault::Memory),
    }
}
