//! Directories with the places of their blocks, so that no walk over entries leads to a block.
ghost use Rattle.std.specs.Prelude.{◌≡◌, ◌≤◌, true, length};
ghost use Rattle.vm_file.specs.Contents.{listed};
ghost use Rattle.vm_file.specs.Directories.{are_entries, is_directory};
ghost use Rattle.vm_file.specs.Places.{ArePlaces};
ghost use Rattle.vm_file.specs.Spelling.{empty_contents};
ghost use Rattle.vm_file.specs.State.{place_in};

use crate::directory::{Directory, Entry, MOST_BLOCKS};
use crate::entries::entries_length;
use std::marker::Model;

/// One place for each handle, and for 0.
const PLACES: usize = MOST_BLOCKS + 1;

/// A legal directory, and the offset of each of its blocks' bytes from the first entry.
#[derive(Drop)]
pub(crate) struct PlacedDirectory {
    directory: Directory,
    places: [u32; PLACES],
}

impl Model for PlacedDirectory {
    ghost use Rattle.vm_file.specs.declared.directory.Directory.{Directory};

    ghost Value = { Directory };

    ghost use Rattle.vm_file.specs.Places.{ArePlaces};

    ghost view = { λ p. p.directory };

    ghost invariant = { λ p. ArePlaces p.directory.entries.items p.places };
}

/// Writes the offsets of the blocks of these entries, from the last to the first.
fn put_places(places: &mut [u32], entries: &[Entry])
    requires long { length places.old ≡ 1025 }
    requires few { length entries.now ≤ MOST_BLOCKS }
    requires legal { are_entries 0 entries.now ≡ true }
    ensures { ArePlaces entries.now places.new }
{
    let mut place = entries_length(entries);
    places.fill(place);
    let mut i = entries.len();
    while i > 0 {
        i -= 1;
        let entry = entries[i];
        place -= 6 + u32::from(entry.len);
        places[entry.h as usize] = place + 6;
    }
}

impl PlacedDirectory {
    /// No block, and nothing mapped.
    pub(crate) fn new() -> PlacedDirectory
        ensures { result ≡ listed empty_contents }
    {
        PlacedDirectory::of(Directory::new())
    }

    /// A directory with the places of its blocks.
    pub(crate) fn of(directory: Directory) -> PlacedDirectory
        requires { is_directory directory ≡ true }
        ensures { result ≡ directory }
    {
        let mut places = [0; PLACES];
        put_places(&mut places, &directory.entries);
        PlacedDirectory { directory, places }
    }

    /// Only the directory.
    pub(crate) fn directory(&self) -> &Directory
        ensures { result.now ≡ self.now }
    {
        &self.directory
    }

    /// The offset of the bytes of the block with a handle, from the first entry.
    pub(crate) fn place(&self, h: u16) -> u32
        requires { h ≤ 1024 }
        ensures { result ≡ place_in self.now.entries.items h }
    {
        self.places[h as usize]
    }

    /// Becomes another directory.
    pub(crate) fn copy_from(&mut self, other: &Directory)
        requires { is_directory other.now ≡ true }
        ensures { self.new ≡ other.now }
    {
        self.directory.copy_from(other);
        put_places(&mut self.places, &self.directory.entries);
    }
}
