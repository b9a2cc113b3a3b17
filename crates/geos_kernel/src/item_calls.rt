//! The kernel's calls on groups of the VM file, and on items.

ghost use Rattle.std.specs.Prelude.{◌≡◌, ◌≤◌, Ok, Err, IfOk, OnOk};

use crate::kernel::Kernel;
use crate::span::Span;
use db_items::{
    group_free, group_new, item_change, item_lock_part, item_make, map_item, set_map_item,
};
use geos_calls::{Change, Make};
use geos_terms::{Name, Refusal};
use vm_file::Device;

impl<D: Device + Drop> Kernel<D> {
    ghost use Rattle.geos_terms.specs.declared.name.Owner.TheVariants as owner;
    ghost use Rattle.block_handles.specs.Change.{with_lock_more};
    ghost use Rattle.block_handles.specs.Store.{IsThere};
    ghost use Rattle.db_items.specs.Groups.{IsGroup};
    ghost use Rattle.vm_blocks.specs.View.{vm_slot};
    ghost use Rattle.geos_terms.specs.Edits.{alloc, delete_bytes, free, insert_bytes, realloc};
    ghost use Rattle.geos_terms.specs.Names.{vm};
    ghost use Rattle.geos_calls.specs.ChunkCalls.{change_edit, change_row, make_edit, make_row};
    ghost use Rattle.geos_calls.specs.ItemCalls as table;
    ghost use Rattle.geos_kernel.specs.Files.{AsksNothing, CallsItem, InMemory, ReadsFile};
    ghost use Rattle.geos_kernel.specs.Kernel.{Calls, LeadsToSpan, LeavesVm, ListedHasNoRoom, NewListedHasNoRoom, Remain};
    ghost use Rattle.geos_kernel.specs.Spans.{IsStanding, IsWritable};
    ghost use Rattle.geos_kernel.specs.View.{IsLocked, IsMarked};

    /// Makes a group of 64 bytes with no item, under the lowest handle of the file that is free, and
    /// marks it; it is not locked. `NoHandle` if all 1,024 handles are listed, `NoRoom` if no
    /// stretch of the region has room for it, though no block is left that could be discarded.
    pub fn gnew(&mut self) -> Result<u16, Refusal>
        ensures calls { Calls (D.medium.honest self.old.device) table.gnew result self.old.core self.new.core }
        ensures no_room { result ≡ Err Refusal.NoRoom → NewListedHasNoRoom self.old.core self.new.core }
        ensures device { AsksNothing self.old self.new }
    {
        group_new(&mut self.vm, &mut self.blocks)
    }

    /// Frees a group, and its items with it; the map item is none then if it was of this group.
    /// `BadHandle` if there is no such group, `Locked` if it is locked.
    pub fn gfree(&mut self, group: u16) -> Result<(), Refusal>
        ensures calls { Calls (D.medium.honest self.old.device) (table.gfree group) result self.old.core self.new.core }
        ensures device { AsksNothing self.old self.new }
        ensures remain { Remain self.old.core.blocks self.new.core.blocks group }
    {
        group_free(&mut self.vm, &mut self.blocks, group)
    }

    /// Changes the items of a group, as the value says, and marks it; it is brought into memory first.
    /// `BadHandle` if there is no such group, `NoRoom` and `Disk` if it does not come into
    /// memory, as `vlock` says; then refused as `change` is, an item being a chunk of the group. Spans
    /// into the group are stale after it, also where it is refused.
    pub fn item_change(&mut self, group: u16, change: Change) -> Result<(), Refusal>
        ensures { CallsItem D.medium (table.on_group group (change_row (vm group) change)) (change_edit change) group result self.old self.new }
    {
        // as in `vlock`
        self.vm.is_sure();
        item_change(&mut self.vm, &mut self.blocks, group, change)
    }

    /// Makes an item of a group, as the value says, marks the group, and answers the item's handle: the
    /// lowest one of the group that is free. It is refused, and makes stale, as `item_change`.
    pub fn item_make(&mut self, group: u16, make: Make) -> Result<u16, Refusal>
        ensures { CallsItem D.medium (table.on_group group (make_row (vm group) make)) (make_edit make) group result self.old self.new }
    {
        // as in `vlock`
        self.vm.is_sure();
        item_make(&mut self.vm, &mut self.blocks, group, make)
    }

    /// Makes an item of `len` zero bytes, and answers its handle. It is refused, and makes stale, as
    /// `item_make`.
    pub fn inew(&mut self, group: u16, len: u16) -> Result<u16, Refusal>
        ensures { CallsItem D.medium (table.inew group len) (alloc len) group result self.old self.new }
    {
        self.item_make(group, Make::Lalloc { n: len })
    }

    /// Frees an item. `BadHandle`, `NoRoom` and `Disk` as `item_change`, `BadChunk` if the group
    /// has no such item.
    pub fn ifree(&mut self, group: u16, item: u16) -> Result<(), Refusal>
        ensures { CallsItem D.medium (table.ifree group item) (free item) group result self.old self.new }
    {
        self.item_change(group, Change::Lfree { c: item })
    }

    /// Gives an item `len` bytes: its first ones that fit, and zeros after them. It is refused as
    /// `ifree` is; then `TooBig` if the group would need more than 65,520 bytes, `NoRoom` if it
    /// must grow and no stretch of the region has room for it.
    pub fn irealloc(&mut self, group: u16, item: u16, len: u16) -> Result<(), Refusal>
        ensures { CallsItem D.medium (table.irealloc group item len) (realloc item len) group result self.old self.new }
    {
        self.item_change(group, Change::Lrealloc { c: item, n: len })
    }

    /// Inserts `len` zero bytes at an offset of an item. It is refused as `irealloc` is, with `Range`
    /// after `BadChunk` if the offset is past the item's length.
    pub fn iins(&mut self, group: u16, item: u16, at: u16, len: u16) -> Result<(), Refusal>
        ensures { CallsItem D.medium (table.iins group item at len) (insert_bytes item at len) group result self.old self.new }
    {
        self.item_change(
            group,
            Change::Lins {
                c: item,
                at,
                n: len,
            },
        )
    }

    /// Deletes `len` bytes at an offset of an item. It is refused as `ifree` is, with `Range` after
    /// `BadChunk` if they reach past the item's length.
    pub fn idel(&mut self, group: u16, item: u16, at: u16, len: u16) -> Result<(), Refusal>
        ensures { CallsItem D.medium (table.idel group item at len) (delete_bytes item at len) group result self.old self.new }
    {
        self.item_change(
            group,
            Change::Ldel {
                c: item,
                at,
                n: len,
            },
        )
    }

    /// Locks a group once more, which brings it into memory, and returns the span of an item's
    /// bytes, at least `least`. `BadHandle` if there is no such group, `Locked` if its count is
    /// 65,535, `NoRoom` and `Disk` if it does not come into memory, as `vlock` says; `BadChunk` if it
    /// has no such item, `Short` if that has fewer bytes. A refusal does not lock the group. The span
    /// is valid until a call on an item of the group makes it stale, or the last lock is released.
    pub fn ilock(&mut self, group: u16, item: u16, least: u16) -> Result<Span, Refusal>
        ensures gives { LeadsToSpan (D.medium.honest self.old.device) (table.ilock group item least) result self.old.core self.new.core }
        ensures stands { IfOk result (λ span. IsStanding self.new.core span × (least ≤ span.len)) }
        ensures writable { IfOk result (λ span. IsMarked self.new.core group → IsWritable self.new.core span) }
        ensures no_room { result ≡ Err Refusal.NoRoom → ListedHasNoRoom self.new.core group }
        ensures locks { IsThere self.old.core.blocks (vm_slot group)
            → OnOk result (self.new.core.blocks ≡ with_lock_more self.old.core.blocks (vm_slot group)) }
        ensures in_memory { InMemory group result self.old self.new }
        ensures no_group { (IsGroup self.old.core.vm group → ⊥) → self.new ≡ self.old }
        ensures device { ReadsFile D.medium (result ≡ Err Refusal.Disk) self.old self.new }
    {
        // as in `vlock`
        self.vm.is_sure();
        match item_lock_part(&mut self.vm, &mut self.blocks, group, item, least) {
            Ok((at, len)) => Ok(Span {
                at: self.blocks.place(Name::vm(group)) + at as u32,
                len,
            }),
            Err(refusal) => Err(refusal),
        }
    }

    /// Marks a locked group as changed: it stays in memory until a commit has written it.
    pub fn idirty(&mut self, name: Name)
        requires kind { name.owner ≡ owner.Vm }
        requires locked { IsLocked self.old.core name }
        ensures calls { Calls (D.medium.honest self.old.device) (table.idirty name.h) (Ok tt) self.old.core self.new.core }
        ensures marked { IsMarked self.new.core name.h }
        ensures device { AsksNothing self.old self.new }
        ensures remain { Remain self.old.core.blocks self.new.core.blocks 0 }
    {
        self.vdirty(name);
    }

    /// Unlocks a group once. When it is locked no more, references into it are stale.
    pub fn iunlock(&mut self, name: Name)
        requires kind { name.owner ≡ owner.Vm }
        requires locked { IsLocked self.old.core name }
        ensures calls { Calls (D.medium.honest self.old.device) (table.iunlock name.h) (Ok tt) self.old.core self.new.core }
        ensures vm { LeavesVm self.old self.new }
        ensures remain { Remain self.old.core.blocks self.new.core.blocks 0 }
    {
        self.vunlock(name);
    }

    /// The map item: its group, 0 for none, and the item.
    pub fn igetmap(&self) -> (u16, u16)
        ensures { Calls (D.medium.honest self.now.device) table.igetmap (Ok result) self.now.core self.now.core }
    {
        map_item(&self.vm)
    }

    /// Names the map item: a group, and any number for an item of it; or 0 and 0 for none. `BadHandle`
    /// where the group is neither 0 nor a group, `Range` if it is 0 and the item is not.
    pub fn isetmap(&mut self, group: u16, item: u16) -> Result<(), Refusal>
        ensures calls { Calls (D.medium.honest self.old.device) (table.isetmap group item) result self.old.core self.new.core }
        ensures device { AsksNothing self.old self.new }
        ensures remain { Remain self.old.core.blocks self.new.core.blocks 0 }
    {
        set_map_item(&mut self.vm, group, item)
    }
}
