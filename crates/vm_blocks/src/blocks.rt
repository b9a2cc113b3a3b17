//! VM blocks: the value, and the functions that only read it.
ghost use Rattle.std.specs.Prelude.{ℕ, List, ◌≡◌, IsTrue, ◌↔◌, IfOk, IfErr, IfSome, IsSomeAnd, is_some, option_map, length};
ghost use Rattle.block_handles.specs.Layout.{IsLaidOut};
ghost use Rattle.block_handles.specs.Names.{IsHandle};
ghost use Rattle.block_handles.specs.Store.{Store};
ghost use Rattle.geos_calls.specs.Memory.{Memory, is_marked};
ghost use Rattle.geos_calls.specs.VmCalls.{vuid};
ghost use Rattle.geos_terms.specs.Names.{group_uid};
ghost use Rattle.vm_file.specs.Noting.{Rests};
ghost use Rattle.vm_file.specs.State.{Finds};
ghost use Rattle.vm_blocks.specs.Blocks.{uid_of, is_marked_in};
ghost use Rattle.vm_blocks.specs.DoesRow.{DoesRow};
ghost use Rattle.vm_blocks.specs.FileOf.{IsMemoryOf};
ghost use Rattle.vm_blocks.specs.Found.{OpensAsKept};
ghost use Rattle.vm_blocks.specs.Listed.{IsListOf};
ghost use Rattle.vm_blocks.specs.Opened.{opened_memory};
ghost use Rattle.vm_blocks.specs.Refused.{of_uid};
ghost use Rattle.vm_blocks.specs.Tied.{IsTied, NoneResident};
ghost use Rattle.vm_blocks.specs.View.{held_at, with_held};

use crate::entries::{Held, Table, are_words, list};
use geos_terms::Name;
use std::alloc::{AllocError, Global};
use std::marker::Model;
use vm_file::{Device, Noting, VmFile};

/// The blocks of the current directory of a VM file by handles. A block is in memory if
/// `Blocks` has one under its name; each call that moves blocks has `Blocks` as an argument.
#[derive(Drop)]
pub struct VmBlocks<D: Device + Drop> {
    pub(crate) file: VmFile<D>,
    pub(crate) entries: Table,
    pub(crate) map_block: u16,
    pub(crate) map_item: (u16, u16),
}

impl<D: Device + Drop> Model for VmBlocks<D> {
    ghost use Rattle.std.specs.Prelude.{◌≡◌, length};
    ghost use Rattle.vm_blocks.specs.View.{VmState};

    ghost Value = { VmState D };

    ghost view = { λ v. record { file = v.file; entries = v.entries; map_block = v.map_block; map_item = v.map_item } };

    ghost invariant = { λ v. length v.entries ≡ 1024 };
}

impl<D: Device + Drop> VmBlocks<D> {
    /// The blocks of a file, none of them in memory. `AllocError` returns the file.
    pub fn new(alloc: Global, file: VmFile<D>) -> Result<VmBlocks<D>, (VmFile<D>, AllocError)>
        ensures file { IfOk result (λ v. v.file ≡ file) }
        ensures lists { IfOk result (λ v. IsListOf v file.current) }
        ensures tied { IfOk result (λ v. (s : Store) → IsLaidOut s → NoneResident s → IsTied D.medium v s) }
        // The model's memory to begin with.
        ensures memory { IfOk result (λ v. (s : Store) → NoneResident s → IsMemoryOf D.medium v s (opened_memory D.medium.image file s)) }
        ensures back { IfErr result (λ e. e.0 ≡ file) }
    {
        match Table::new(alloc) {
            Ok(mut entries) => {
                file.device_gives_bytes();
                are_words(file.saved());
                let current = file.current();
                are_words(current);
                list(&mut entries, current);
                let map_block = current.map_block;
                let map_item = current.map_item;
                Ok(VmBlocks {
                    file,
                    entries,
                    map_block,
                    map_item,
                })
            }
            Err(error) => Err((file, error)),
        }
    }

    /// The device of the file.
    pub fn device(&self) -> &D
        ensures { result.now ≡ self.now.file.device }
    {
        self.file.device()
    }

    /// The file as it is. Nothing is written: what is marked is lost.
    pub fn into_file(self) -> VmFile<D>
        ensures { result ≡ self.file }
    {
        let VmBlocks {
            file,
            entries: _,
            map_block: _,
            map_item: _,
        } = self;
        file
    }

    /// Whether the file is sure of its committed pair; if it is not, it refuses commits.
    pub fn is_sure(&self) -> bool
        ensures sure { result ≡ self.now.file.sure }
        // What `open` would find after a stop now.
        ensures stop { D.medium.honest self.now.file.device → (c : List ℕ) → D.medium.may_leave self.now.file.device c
            → Finds D.medium.image self.now.file c }
        // That is what the model has committed.
        ensures kept { (s : Store) (m : Memory) → IsMemoryOf D.medium self.now s m → D.medium.honest self.now.file.device
            → (c : List ℕ) → D.medium.may_leave self.now.file.device c → OpensAsKept m.file.kept c }
        ensures found { (s : Store) (m : Memory) → IsMemoryOf D.medium self.now s m → D.medium.honest self.now.file.device
            → (c : List ℕ) → Finds D.medium.image self.now.file c → OpensAsKept m.file.kept c }
    {
        self.file.is_sure()
    }

    /// What is listed under a handle.
    pub fn held(&self, handle: u16) -> Option<Held>
        ensures held { result ≡ held_at self.now handle }
        ensures handle { IfSome result (λ _. IsHandle handle) }
    {
        let entries = &self.entries;
        if handle == 0 || handle > Name::HANDLES {
            return None;
        }
        entries.at(handle as usize - 1)
    }

    /// Whether a group has this handle.
    pub fn has_group(&self, handle: u16) -> bool
        ensures { IsTrue result ↔ IsSomeAnd (held_at self.now handle) (λ held. held.uid ≡ group_uid) }
    {
        let entries = &self.entries;
        if handle == 0 || handle > Name::HANDLES {
            return false;
        }
        entries.has_group(handle as usize - 1)
    }

    /// Whether a block has this handle.
    pub fn has(&self, handle: u16) -> bool
        ensures { result ≡ is_some (held_at self.now handle) }
    {
        self.held(handle).is_some()
    }

    /// The user ID of a block.
    pub fn uid(&self, handle: u16) -> Option<u16>
        ensures uid { result ≡ option_map uid_of (held_at self.now handle) }
        ensures row { (s : Store) → IsTied D.medium self.now s → DoesRow D.medium (vuid handle) (of_uid result) self.now s self.now s }
    {
        match self.held(handle) {
            Some(held) => Some(held.uid),
            None => None,
        }
    }

    /// Whether a block is marked as changed; `false` if none has this handle.
    pub fn marked(&self, handle: u16) -> bool
        ensures mark { result ≡ is_marked_in (held_at self.now handle) }
        // The model's mark of it, in each memory that it may have.
        ensures told { (s : Store) (m : Memory) → IsTied D.medium self.now s → IsMemoryOf D.medium self.now s m → is_marked m handle ≡ result }
    {
        match self.held(handle) {
            Some(held) => held.marked,
            None => false,
        }
    }

    /// Lists this, or nothing, under a handle.
    pub(crate) fn put(&mut self, h: u16, held: Option<Held>)
        requires { IsHandle h }
        ensures { self.new ≡ with_held self.old h held }
    {
        self.entries.put(h as usize - 1, held);
    }
}

impl<D: Noting + Drop> VmBlocks<D> {
    /// Takes it that what the device has noted was performed, and lasts.
    pub fn settle(&mut self)
        ensures same { self.new ≡ record self.old { file = record self.old.file { device = self.new.file.device } } }
        ensures rests { Rests D.medium self.old.file.device self.new.file.device }
        ensures failed { D.medium.failed self.new.file.device ≡ D.medium.failed self.old.file.device }
        ensures settled { D.settles self.old.file.device self.new.file.device }
    {
        self.file.settle();
    }
}
