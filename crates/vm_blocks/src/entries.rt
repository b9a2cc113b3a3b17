//! What is listed of the blocks of a file.
ghost use Rattle.std.specs.Prelude.{◌≡◌, ◌<◌, ℕ, true, length, slice_index_or, slice_set, IfOk, None};
ghost use Rattle.geos_calls.specs.Handles.{at_handle};
ghost use Rattle.block_handles.specs.Names.{IsHandle};
ghost use Rattle.vm_file.specs.Directories.{is_directory};
ghost use Rattle.vm_blocks.specs.Groups.{is_group};
ghost use Rattle.vm_blocks.specs.Listed.{held_in};
ghost use Rattle.vm_blocks.specs.Opened.{AreWords};

use geos_terms::Name;
use std::alloc::{AllocError, Global};
use std::marker::Model;
use vm_file::{Directory, GROUP_UID};

/// How many handles there are.
const HANDLES: usize = Name::HANDLES as usize;

/// A block of the current directory.
#[derive(Clone, Copy, Debug, PartialEq, Eq)]
pub struct Held {
    /// Its user ID.
    pub uid: u16,
    /// Its length in bytes if it is not in memory; otherwise the region has the length.
    pub len: u16,
    /// It is marked as changed: the file may have other bytes.
    pub marked: bool,
}

/// The listed blocks by handles, starting with handle 1.
#[derive(Drop)]
pub(crate) struct Table {
    entries: Vec<Option<Held>>,
    /// Which of them are groups, in the value itself: a lock asks this first.
    groups: [bool; HANDLES],
}

impl Model for Table {
    ghost use Rattle.std.specs.Prelude.{List, Option};
    ghost use Rattle.vm_blocks.specs.declared.entries.Held.{Held};

    ghost Value = { List (Option Held) };

    ghost use Rattle.vm_blocks.specs.Groups.{AreGroups};

    ghost view = { λ t. t.entries.items };

    ghost invariant = { λ t. AreGroups t.entries.items t.groups };
}

/// Whether it is a group that is listed.
fn is_group(held: Option<Held>) -> bool
    ensures { result ≡ is_group held }
{
    match held {
        Some(held) => held.uid == GROUP_UID,
        None => false,
    }
}

impl Table {
    /// A table in which nothing is listed.
    pub(crate) fn new(alloc: Global) -> Result<Table, AllocError>
        ensures { IfOk result (λ table. length table ≡ 1024) }
    {
        let entries = Vec::from_elem(alloc, None, HANDLES)?;
        Ok(Table {
            entries,
            groups: [false; HANDLES],
        })
    }

    /// What is listed at an index.
    pub(crate) fn at(&self, i: usize) -> Option<Held>
        requires { i < 1024 }
        ensures { result ≡ slice_index_or self.now i None }
    {
        self.entries[i]
    }

    /// Whether it is a group that is listed at an index.
    pub(crate) fn has_group(&self, i: usize) -> bool
        requires { i < 1024 }
        ensures { result ≡ is_group (slice_index_or self.now i None) }
    {
        self.groups[i]
    }

    /// Lists this, or nothing, at an index.
    pub(crate) fn put(&mut self, i: usize, held: Option<Held>)
        requires { i < 1024 }
        ensures { self.new ≡ slice_set self.old i held }
    {
        self.entries[i] = held;
        self.groups[i] = is_group(held);
    }
}

/// Lists the blocks of a directory by handles, none of them marked, in one pass over its entries, whose handles ascend.
pub(crate) fn list(table: &mut Table, directory: &Directory)
    requires long { length table.old ≡ 1024 }
    requires legal { is_directory directory.now ≡ true }
    ensures long { length table.new ≡ 1024 }
    ensures each { (h : ℕ) → IsHandle h → at_handle None table.new h ≡ held_in directory.now h }
{
    let entries = directory.entries.as_slice();
    let mut next = 0;
    for i in 0..HANDLES {
        table.put(i, None);
        if next < entries.len() && entries[next].h as usize == i + 1 {
            let entry = entries[next];
            let held = Held {
                uid: entry.uid,
                len: entry.len,
                marked: false,
            };
            table.put(i, Some(held));
            next += 1;
        }
    }
}

/// A word is below 65,536.
fn is_word(word: u16)
    ensures { word < 65536 }
{}

/// The user IDs of a directory, and its map item, are words.
pub(crate) fn are_words(directory: &Directory)
    ensures { AreWords directory.now }
{
    is_word(directory.map_item.1);
    for entry in directory.entries.as_slice() {
        is_word(entry.uid);
    }
}
