//! The kernel's calls on arrays in chunks, by their names.

ghost use Rattle.std.specs.Prelude.{◌≡◌, ◌≤◌, IfOk, Err};

use crate::kernel::Kernel;
use crate::span::Span;
use geos_calls::{Ask, Change, Make, Refer};
use geos_terms::{Name, Refusal};
use vm_file::Device;

impl<D: Device + Drop> Kernel<D> {
    ghost use Rattle.geos_terms.specs.declared.refusal.Refusal.TheVariants.{NoRoom};
    ghost use Rattle.geos_calls.specs.ArrayCalls as table;
    ghost use Rattle.geos_terms.specs.ArrayEdits.{create_array, append_element, insert_element, resize_element};
    ghost use Rattle.geos_kernel.specs.Kernel.{Calls, GivesSpan, HasNoRoomFor, LeavesVm, Remain, StaysIfRefused};
    ghost use Rattle.geos_kernel.specs.Spans.{IsStanding, IsWritable};
    ghost use Rattle.geos_kernel.specs.View.{chunks_at, IsLocked, MayChange};

    /// Makes an empty array in a new chunk of a locked block, and answers the chunk's handle:
    /// the lowest one of the block that is free. Its elements will have `element_size` bytes
    /// each, or sizes of their own where that is 0. Refused as `lalloc` is. Spans into the
    /// block are stale after it, also where it is refused.
    pub fn canew(&mut self, name: Name, element_size: u16) -> Result<u16, Refusal>
        requires locked { IsLocked self.old.core name }
        requires marked { MayChange self.old.core name }
        ensures calls { Calls (D.medium.honest self.old.device) (table.canew name element_size) result self.old.core self.new.core }
        ensures no_room { result ≡ Err NoRoom
            → HasNoRoomFor self.new.core name (create_array element_size (chunks_at self.old.core.blocks name)).chunks }
        ensures refused { StaysIfRefused result self.old.core.blocks self.new.core.blocks }
        ensures vm { LeavesVm self.old self.new }
    {
        self.make_chunk(name, Make::Canew { element_size })
    }

    /// Appends an element of zeros, of `len` bytes if sizes vary. `BadChunk` if no chunk of the
    /// block has this handle, `BadArray` if its bytes are no array; otherwise refused as `lalloc`
    /// is, by the room that the larger array needs, and makes stale what `canew` does.
    pub fn caadd(&mut self, name: Name, chunk: u16, len: u16) -> Result<(), Refusal>
        requires locked { IsLocked self.old.core name }
        requires marked { MayChange self.old.core name }
        ensures calls { Calls (D.medium.honest self.old.device) (table.caadd name chunk len) result self.old.core self.new.core }
        ensures no_room { result ≡ Err NoRoom → HasNoRoomFor self.new.core name
            (append_element chunk len (chunks_at self.old.core.blocks name)).chunks }
        ensures refused { StaysIfRefused result self.old.core.blocks self.new.core.blocks }
        ensures vm { LeavesVm self.old self.new }
    {
        self.change(name, Change::Caadd { c: chunk, n: len })
    }

    /// Puts an element of zeros at an index, which may be the count, of `len` bytes where sizes
    /// vary. `BadChunk` and `BadArray` as `caadd`, `BadElement` if the index is above the
    /// count; otherwise refused, and makes stale, as `caadd`.
    pub fn cains(&mut self, name: Name, chunk: u16, index: u16, len: u16) -> Result<(), Refusal>
        requires locked { IsLocked self.old.core name }
        requires marked { MayChange self.old.core name }
        ensures calls { Calls (D.medium.honest self.old.device) (table.cains name chunk index len) result self.old.core self.new.core }
        ensures no_room { result ≡ Err NoRoom → HasNoRoomFor self.new.core name
            (insert_element chunk index len (chunks_at self.old.core.blocks name)).chunks }
        ensures refused { StaysIfRefused result self.old.core.blocks self.new.core.blocks }
        ensures vm { LeavesVm self.old self.new }
    {
        self.change(
            name,
            Change::Cains {
                c: chunk,
                i: index,
                n: len,
            },
        )
    }

    /// Takes an element out. `BadChunk` and `BadArray` as `caadd`, `BadElement` if no
    /// element has this index. Makes stale what `canew` does.
    pub fn cadel(&mut self, name: Name, chunk: u16, index: u16) -> Result<(), Refusal>
        requires locked { IsLocked self.old.core name }
        requires marked { MayChange self.old.core name }
        ensures calls { Calls (D.medium.honest self.old.device) (table.cadel name chunk index) result self.old.core self.new.core }
        ensures refused { StaysIfRefused result self.old.core.blocks self.new.core.blocks }
        ensures vm { LeavesVm self.old self.new }
        ensures remain { Remain self.old.core.blocks self.new.core.blocks 0 }
    {
        self.change(name, Change::Cadel { c: chunk, i: index })
    }

    /// The count of an array's elements. `BadChunk` if no chunk of the block has this
    /// handle, `BadArray` if its bytes are no array.
    pub fn cacount(&self, name: Name, chunk: u16) -> Result<u16, Refusal>
        requires { IsLocked self.now.core name }
        ensures { Calls (D.medium.honest self.now.device) (table.cacount name chunk) result self.now.core self.now.core }
    {
        self.ask(name, Ask::Cacount { c: chunk })
    }

    /// The span of an element's bytes, at least `least`. `BadChunk` if no chunk of the block has
    /// this handle, `BadArray` if its bytes are no array, `BadElement` if it has no element of this
    /// index, `Short` if the element has fewer bytes. The span is valid until a call makes the
    /// chunk's references stale.
    pub fn caelt(&self, name: Name, chunk: u16, index: u16, least: u16) -> Result<Span, Refusal>
        requires { IsLocked self.now.core name }
        ensures gives { GivesSpan (D.medium.honest self.now.device) (table.caelt name chunk index least) result self.now.core }
        ensures stands { IfOk result (λ span. IsStanding self.now.core span × (least ≤ span.len)) }
        ensures writable { IfOk result (λ span. MayChange self.now.core name → IsWritable self.now.core span) }
    {
        self.refer(
            name,
            Refer::Caelt {
                c: chunk,
                i: index,
                n: least,
            },
        )
    }

    /// Takes all elements out; their size stays. `BadChunk` and `BadArray` as `caadd`. Makes
    /// stale what `canew` does.
    pub fn cazero(&mut self, name: Name, chunk: u16) -> Result<(), Refusal>
        requires locked { IsLocked self.old.core name }
        requires marked { MayChange self.old.core name }
        ensures calls { Calls (D.medium.honest self.old.device) (table.cazero name chunk) result self.old.core self.new.core }
        ensures refused { StaysIfRefused result self.old.core.blocks self.new.core.blocks }
        ensures vm { LeavesVm self.old self.new }
        ensures remain { Remain self.old.core.blocks self.new.core.blocks 0 }
    {
        self.change(name, Change::Cazero { c: chunk })
    }

    /// Gives an element of an array whose sizes vary `len` bytes: its first ones that fit, and
    /// zeros after them. `BadChunk` as `caadd`, `BadArray` if the chunk's bytes are no
    /// array or its elements have one size, `BadElement` as `cadel`; otherwise refused, and makes
    /// stale, as `caadd`.
    pub fn caresize(&mut self, name: Name, chunk: u16, index: u16, len: u16) -> Result<(), Refusal>
        requires locked { IsLocked self.old.core name }
        requires marked { MayChange self.old.core name }
        ensures calls { Calls (D.medium.honest self.old.device) (table.caresize name chunk index len) result self.old.core self.new.core }
        ensures no_room { result ≡ Err NoRoom → HasNoRoomFor self.new.core name
            (resize_element chunk index len (chunks_at self.old.core.blocks name)).chunks }
        ensures refused { StaysIfRefused result self.old.core.blocks self.new.core.blocks }
        ensures vm { LeavesVm self.old self.new }
    {
        self.change(
            name,
            Change::Caresize {
                c: chunk,
                i: index,
                n: len,
            },
        )
    }
}
