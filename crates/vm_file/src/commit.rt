//! What a commit is given, and what it keeps.
ghost use Rattle.std.specs.Prelude.{◌≡◌, ◌<◌, ◌^◌, ◌↔◌, ℕ, List, Option, All, IsTrue, true};
ghost use Rattle.vm_file.specs.Committing.{IsThere, Shows, current_after, length_after, saved_after};
ghost use Rattle.vm_file.specs.Directories.{is_directory};
ghost use Rattle.vm_file.specs.Reading.{is_second};
ghost use Rattle.vm_file.specs.Spelling.{selector_of};

use crate::directory::{Directory, Entry};
use crate::entries::directory_length;
use crate::places::PlacedDirectory;
use crate::reader::is_heap_of;

/// Which pair of directories a commit keeps.
#[derive(Clone, Copy, Drop)]
pub enum How {
    /// The given current directory, and the saved one unchanged.
    Update,
    /// The given directory as the current one and the saved one.
    Save,
    /// The saved directory as the current one, too.
    Revert,
}

/// Blocks that are in memory.
pub trait Source {
    /// The bytes of the block with a handle, if it is in memory.
    ghost resident_bytes: { Self → ℕ → Option (List ℕ) };

    /// The bytes of the block with a handle, if it is in memory.
    fn resident(&self, h: u16) -> Option<&[u8]>
        ensures { Shows result (resident_bytes self.now h) };
}

/// No block is in memory.
#[derive(Drop)]
pub(crate) struct Nothing;

impl Source for Nothing {
    ghost resident_bytes = { λ s h. Option.None };

    fn resident(&self, _h: u16) -> Option<&[u8]> {
        None
    }
}

/// The bytes that the pair takes which a commit keeps.
pub(crate) fn length_after(how: How, cur: &Directory, saved: &Directory) -> u32
    ensures exact { result ≡ length_after how cur.now saved.now }
    ensures small { result < 2 ^ 29 }
{
    match how {
        How::Update => directory_length(cur) + directory_length(saved),
        How::Save => 2 * directory_length(cur),
        How::Revert => 2 * directory_length(saved),
    }
}

/// Replaces a current and a saved directory by those of the pair that is committed.
pub(crate) fn go_on(current: &mut PlacedDirectory, saved: &mut Directory, how: How, cur: &Directory)
    requires given { is_directory cur.now ≡ true }
    requires kept { is_directory saved.old ≡ true }
    ensures current { current.new ≡ current_after how cur.now saved.old }
    ensures saved { saved.new ≡ saved_after how cur.now saved.old }
{
    match how {
        How::Update => current.copy_from(cur),
        How::Save => {
            current.copy_from(cur);
            saved.copy_from(cur);
        }
        How::Revert => current.copy_from(saved),
    }
}

/// The selector of an area.
pub(crate) fn selector_of(second: bool) -> u8
    ensures names { is_second result ≡ second }
    ensures value { result ≡ selector_of second }
{
    if second { 1 } else { 0 }
}

/// Whether the block of an entry is there to be committed.
fn is_there<S: Source>(source: &S, kept: &Directory, e: Entry) -> bool
    ensures { IsTrue result ↔ IsThere (S.resident_bytes source.now) kept.now e }
{
    match source.resident(e.h) {
        Some(bytes) => is_heap_of(bytes, e.h) && bytes.len() == e.len as usize,
        None => match kept.entry(e.h) {
            Some(entry) => entry.len == e.len,
            None => false,
        },
    }
}

/// Whether the blocks of these entries are there to be committed.
pub(crate) fn are_there<S: Source>(source: &S, kept: &Directory, entries: &[Entry]) -> bool
    ensures { IsTrue result ↔ All (IsThere (S.resident_bytes source.now) kept.now) entries.now }
{
    for e in entries {
        if !is_there(source, kept, *e) {
            return false;
        }
    }
    true
}
