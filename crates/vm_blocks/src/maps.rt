//! What is mapped, and blocks that are found by their user IDs.
ghost use Rattle.std.specs.Prelude.{◌≡◌, ◌≢◌, ◌↔◌, Ok, IfSome, IfNone, IsSomeAnd, IsTrue};
ghost use Rattle.block_handles.specs.Store.{Store};
ghost use Rattle.geos_calls.specs.ItemCalls.{igetmap, isetmap};
ghost use Rattle.geos_calls.specs.VmCalls.{vfind, vgetmap, vsetmap};
ghost use Rattle.geos_terms.specs.Names.{group_uid};
ghost use Rattle.vm_blocks.specs.Blocks.{AllListed, HasUid, IsLowestUnlisted, IsNextWith, NoneWith};
ghost use Rattle.vm_blocks.specs.DoesRow.{DoesRow};
ghost use Rattle.vm_blocks.specs.Tied.{IsTied};
ghost use Rattle.vm_blocks.specs.View.{held_at};

use crate::blocks::VmBlocks;
use geos_terms::Name;
use vm_file::Device;

impl<D: Device + Drop> VmBlocks<D> {
    /// The lowest handle that is not listed: a block that is not in memory has its handle, too.
    /// `None` if all 1,024 are.
    pub fn lowest(&self) -> Option<u16>
        ensures found { IfSome result (IsLowestUnlisted self.now) }
        ensures none { IfNone result (AllListed self.now) }
    {
        for h in 1..Name::HANDLES + 1 {
            if self.held(h).is_none() {
                return Some(h);
            }
        }
        None
    }

    /// Whether a block has this handle and this user ID.
    fn has_uid(&self, h: u16, uid: u16) -> bool
        ensures { IsTrue result ↔ HasUid self.now uid h }
    {
        match self.held(h) {
            Some(held) => held.uid == uid,
            None => false,
        }
    }

    /// The lowest handle above `start` of a block with this user ID; 0 if there is none.
    pub fn find(&self, start: u16, uid: u16) -> u16
        ensures found { result ≢ 0 → IsNextWith self.now start uid result }
        ensures none { result ≡ 0 → NoneWith self.now start uid }
        // Its row of the table of calls, except for the user ID of groups, which that refuses.
        ensures row { uid ≢ group_uid → (s : Store) → IsTied D.medium self.now s
            → DoesRow D.medium (vfind start uid) (Ok result) self.now s self.now s }
    {
        // that the table's length is known
        let _ = &self.entries;
        for h in 1..Name::HANDLES + 1 {
            if h > start && self.has_uid(h, uid) {
                return h;
            }
        }
        0
    }

    /// The map block; 0 for none.
    pub fn map(&self) -> u16
        ensures map { result ≡ self.now.map_block }
        ensures row { (s : Store) → IsTied D.medium self.now s → DoesRow D.medium vgetmap (Ok result) self.now s self.now s }
    {
        self.map_block
    }

    /// Names the map block: 0 for none, or a block that is no group.
    pub fn set_map(&mut self, handle: u16)
        requires { handle ≢ 0 → IsSomeAnd (held_at self.old handle) (λ e. e.uid ≢ group_uid) }
        ensures state { self.new ≡ record self.old { map_block = handle } }
        ensures tied { (s : Store) → IsTied D.medium self.old s → IsTied D.medium self.new s }
        // Its row of the table of calls, in each memory that the model may have before it.
        ensures row { (s : Store) → IsTied D.medium self.old s → DoesRow D.medium (vsetmap handle) (Ok tt) self.old s self.new s }
    {
        self.map_block = handle;
    }

    /// The map item: a group, 0 for none, and an item of it.
    pub fn map_item(&self) -> (u16, u16)
        ensures item { result ≡ self.now.map_item }
        ensures row { (s : Store) → IsTied D.medium self.now s → DoesRow D.medium igetmap (Ok result) self.now s self.now s }
    {
        self.map_item
    }

    /// Names the map item: a group and an item of it, or 0 and 0 for none.
    pub fn put_map_item(&mut self, group: u16, item: u16)
        requires group { group ≢ 0 → IsSomeAnd (held_at self.old group) (λ e. e.uid ≡ group_uid) }
        requires no_item { group ≡ 0 → item ≡ 0 }
        ensures state { self.new ≡ record self.old { map_item = (group, item) } }
        ensures tied { (s : Store) → IsTied D.medium self.old s → IsTied D.medium self.new s }
        // Its row of the table of calls, in each memory that the model may have before it.
        ensures row { (s : Store) → IsTied D.medium self.old s → DoesRow D.medium (isetmap group item) (Ok tt) self.old s self.new s }
    {
        self.map_item = (group, item);
    }
}
