//! The two directories of a file, and their blocks.

ghost use Rattle.std.specs.Prelude.{◌≡◌, ◌<◌, ◌≤◌, true, length, OnOk, OnErr};
ghost use Rattle.geos_terms.specs.Heap.{IsHeap};
ghost use Rattle.vm_file.specs.Contents.{listed};
ghost use Rattle.vm_file.specs.Device.{Rose};
ghost use Rattle.vm_file.specs.Directories.{is_directory};
ghost use Rattle.vm_file.specs.State.{HasBlock, bytes_of_block, pair_of};
ghost use Rattle.geos_dump.specs.Sides.{IsEntryOf, IsOnlyRead, contents_on, directory_on};

use vm_file::{Device, Directory, Disk, Entry, MOST_BLOCKS, VmFile};

/// One of the directories of a file.
#[derive(Clone, Copy)]
pub enum Side {
    /// The current directory.
    Current,
    /// The saved directory.
    Saved,
}

/// The word for a side.
pub(crate) fn word_of(side: Side) -> &'static str {
    match side {
        Side::Current => "current",
        Side::Saved => "saved",
    }
}

/// A block that the directory on a side lists.
#[derive(Clone, Copy)]
pub(crate) struct Listed {
    pub(crate) side: Side,
    pub(crate) entry: Entry,
}

/// The directory on a side.
pub(crate) fn directory<D: Device + Drop>(file: &VmFile<D>, side: Side) -> &Directory
    ensures same { result.now ≡ directory_on side file.now }
    ensures lists { listed (contents_on side (pair_of D.medium.image file.now)) ≡ result.now }
    ensures legal { is_directory result.now ≡ true }
{
    match side {
        Side::Current => file.current(),
        Side::Saved => file.saved(),
    }
}

/// The number of blocks on a side.
pub(crate) fn count<D: Device + Drop>(file: &VmFile<D>, side: Side) -> usize
    ensures blocks { result ≡ length (contents_on side (pair_of D.medium.image file.now)).blocks }
    ensures few { result ≤ MOST_BLOCKS }
{
    directory(file, side).entries.len()
}

/// The entry of the block with a number on a side.
pub(crate) fn entry_at<D: Device + Drop>(file: &VmFile<D>, side: Side, i: usize) -> Entry
    requires { i < length (contents_on side (pair_of D.medium.image file.now)).blocks }
    ensures { IsEntryOf (directory_on side file.now) (contents_on side (pair_of D.medium.image file.now)).blocks i result }
{
    directory(file, side).entries[i]
}

/// Reads the bytes of a block on a side straight into a slice that is as long as its entry
/// says. `Disk` if the device fails, or gives bytes that are no heap with that handle.
pub(crate) fn read_block<D: Device + Drop>(
    file: &mut VmFile<D>,
    side: Side,
    h: u16,
    into: &mut [u8],
) -> Result<(), Disk>
    requires { HasBlock (directory_on side file.old) h (length into.old) }
    ensures bytes { D.medium.honest file.old.device
        → OnOk result (into.new ≡ bytes_of_block (contents_on side (pair_of D.medium.image file.old)).blocks h) }
    ensures heap { OnOk result (IsHeap into.new) }
    ensures looks { IsOnlyRead D.medium file.old file.new }
    ensures ok { OnOk result (D.medium.failed file.new.device ≡ D.medium.failed file.old.device) }
    ensures cause { D.medium.honest file.old.device → OnErr result (Rose (D.medium.failed file.old.device) (D.medium.failed file.new.device)) }
{
    match side {
        Side::Current => file.block(h, into),
        Side::Saved => file.saved_block(h, into),
    }
}
