//! What a file lists.
ghost use Rattle.std.specs.Prelude.{◌≡◌, ◌==◌, find};

use crate::entries::is_directory;
use arrayvec::ArrayVec;

/// The greatest handle, and the greatest number of blocks.
pub const MOST_BLOCKS: usize = 1024;

/// The user ID of groups.
pub const GROUP_UID: u16 = 0xff00;

/// A block of a file, as its directory lists it.
#[derive(Clone, Copy, Default)]
pub struct Entry {
    /// The block's handle, from 1 to 1,024.
    pub h: u16,
    /// Its user ID; that of a group is `GROUP_UID`.
    pub uid: u16,
    /// Its length in bytes, a legal block size.
    pub len: u16,
}

/// The blocks of a file in ascending order of their handles, and what is mapped. (GEOS SDK
/// Concepts Book, chapter Virtual Memory.)
#[derive(Drop)]
pub struct Directory {
    pub entries: ArrayVec<Entry, MOST_BLOCKS>,
    /// The map block: 0, or the handle of a block that is no group.
    pub map_block: u16,
    /// The map item: a group, or 0 for none, and the chunk handle of the item in it.
    pub map_item: (u16, u16),
}

impl Directory {
    ghost use Rattle.vm_file.specs.Contents.{listed};
    ghost use Rattle.vm_file.specs.Directories.{is_directory};
    ghost use Rattle.vm_file.specs.Spelling.{empty_contents};

    /// No block, and nothing mapped.
    pub fn new() -> Directory
        ensures { result ≡ listed empty_contents }
    {
        Directory {
            entries: ArrayVec::new(),
            map_block: 0,
            map_item: (0, 0),
        }
    }

    /// The entry of the block with a handle, if there is one.
    pub fn entry(&self, handle: u16) -> Option<Entry>
        ensures { result ≡ find (λ e. e.h == handle) self.now.entries.items }
    {
        self.entries.iter().copied().find(|e| e.h == handle)
    }

    /// Whether handles ascend to 1,024, lengths are legal block sizes, the map block is 0 or a
    /// block that is no group, the map item's group is 0 or a group, and the item is 0 if
    /// there is no group.
    pub fn is_legal(&self) -> bool
        ensures { result ≡ is_directory self.now }
    {
        is_directory(self)
    }

    /// Becomes the same as another one.
    pub fn copy_from(&mut self, other: &Directory)
        ensures { self.new ≡ other.now }
    {
        self.entries.clear();
        let _ = self.entries.try_extend_from_slice(&other.entries);
        self.map_block = other.map_block;
        self.map_item = other.map_item;
    }
}
