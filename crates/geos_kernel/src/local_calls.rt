//! The kernel's calls on chunks, by their names.

ghost use Rattle.std.specs.Prelude.{◌≡◌, ◌≤◌, IfOk, Err};

use crate::kernel::Kernel;
use crate::span::Span;
use geos_calls::{Ask, Change, Make, Refer};
use geos_terms::{Name, Refusal};
use vm_file::Device;

impl<D: Device + Drop> Kernel<D> {
    ghost use Rattle.geos_terms.specs.declared.refusal.Refusal.TheVariants.{NoRoom};
    ghost use Rattle.geos_terms.specs.Chunks.{with_new, with_resized, with_inserted};
    ghost use Rattle.geos_calls.specs.Calls as table;
    ghost use Rattle.geos_kernel.specs.Kernel.{Calls, GivesSpan, HasNoRoomFor, LeavesVm, Remain, StaysIfRefused};
    ghost use Rattle.geos_kernel.specs.Spans.{IsStanding, IsWritable};
    ghost use Rattle.geos_kernel.specs.View.{chunks_at, IsLocked, MayChange};

    /// Makes a chunk of `len` zero bytes in a locked block, and answers its handle: the lowest
    /// one of the block that is free. `TooBig` if the block would need more than 65,520
    /// bytes, `NoRoom` if it must grow and no stretch of the region has room for it. Spans
    /// into the block are stale after it, also where it is refused.
    pub fn lalloc(&mut self, name: Name, len: u16) -> Result<u16, Refusal>
        requires locked { IsLocked self.old.core name }
        requires marked { MayChange self.old.core name }
        ensures calls { Calls (D.medium.honest self.old.device) (table.lalloc name len) result self.old.core self.new.core }
        ensures no_room { result ≡ Err NoRoom → HasNoRoomFor self.new.core name (with_new (chunks_at self.old.core.blocks name) len) }
        ensures refused { StaysIfRefused result self.old.core.blocks self.new.core.blocks }
        ensures vm { LeavesVm self.old self.new }
    {
        self.make_chunk(name, Make::Lalloc { n: len })
    }

    /// Frees a chunk of a locked block. `BadChunk` if no chunk of the block has this
    /// handle. Spans into the block are stale after it, also where it is refused.
    pub fn lfree(&mut self, name: Name, chunk: u16) -> Result<(), Refusal>
        requires locked { IsLocked self.old.core name }
        requires marked { MayChange self.old.core name }
        ensures calls { Calls (D.medium.honest self.old.device) (table.lfree name chunk) result self.old.core self.new.core }
        ensures refused { StaysIfRefused result self.old.core.blocks self.new.core.blocks }
        ensures vm { LeavesVm self.old self.new }
        ensures remain { Remain self.old.core.blocks self.new.core.blocks 0 }
    {
        self.change(name, Change::Lfree { c: chunk })
    }

    /// Gives a chunk of a locked block `len` bytes: its first ones that fit, and zeros after
    /// them. `BadChunk` if no chunk of the block has this handle; otherwise refused as `lalloc`
    /// is, and makes stale what `lalloc` does.
    pub fn lrealloc(&mut self, name: Name, chunk: u16, len: u16) -> Result<(), Refusal>
        requires locked { IsLocked self.old.core name }
        requires marked { MayChange self.old.core name }
        ensures calls { Calls (D.medium.honest self.old.device) (table.lrealloc name chunk len) result self.old.core self.new.core }
        ensures no_room { result ≡ Err NoRoom → HasNoRoomFor self.new.core name (with_resized (chunks_at self.old.core.blocks name) chunk len) }
        ensures refused { StaysIfRefused result self.old.core.blocks self.new.core.blocks }
        ensures vm { LeavesVm self.old self.new }
    {
        self.change(name, Change::Lrealloc { c: chunk, n: len })
    }

    /// Inserts `len` zero bytes at an offset of a chunk of a locked block. `BadChunk` if no
    /// chunk of the block has this handle, `Range` if the offset is past its length; otherwise
    /// refused as `lalloc` is, and makes stale what `lalloc` does.
    pub fn lins(&mut self, name: Name, chunk: u16, at: u16, len: u16) -> Result<(), Refusal>
        requires locked { IsLocked self.old.core name }
        requires marked { MayChange self.old.core name }
        ensures calls { Calls (D.medium.honest self.old.device) (table.lins name chunk at len) result self.old.core self.new.core }
        ensures no_room { result ≡ Err NoRoom → HasNoRoomFor self.new.core name (with_inserted (chunks_at self.old.core.blocks name) chunk at len) }
        ensures refused { StaysIfRefused result self.old.core.blocks self.new.core.blocks }
        ensures vm { LeavesVm self.old self.new }
    {
        self.change(
            name,
            Change::Lins {
                c: chunk,
                at,
                n: len,
            },
        )
    }

    /// Deletes `len` bytes at an offset of a chunk of a locked block. `BadChunk` if no chunk
    /// of the block has this handle, `Range` if they reach past its length. Makes stale
    /// what `lalloc` does.
    pub fn ldel(&mut self, name: Name, chunk: u16, at: u16, len: u16) -> Result<(), Refusal>
        requires locked { IsLocked self.old.core name }
        requires marked { MayChange self.old.core name }
        ensures calls { Calls (D.medium.honest self.old.device) (table.ldel name chunk at len) result self.old.core self.new.core }
        ensures refused { StaysIfRefused result self.old.core.blocks self.new.core.blocks }
        ensures vm { LeavesVm self.old self.new }
        ensures remain { Remain self.old.core.blocks self.new.core.blocks 0 }
    {
        self.change(
            name,
            Change::Ldel {
                c: chunk,
                at,
                n: len,
            },
        )
    }

    /// The length of a chunk in bytes. `BadChunk` if no chunk of the block has this handle.
    pub fn lsize(&self, name: Name, chunk: u16) -> Result<u16, Refusal>
        requires { IsLocked self.now.core name }
        ensures { Calls (D.medium.honest self.now.device) (table.lsize name chunk) result self.now.core self.now.core }
    {
        self.ask(name, Ask::Lsize { c: chunk })
    }

    /// The span of a chunk's bytes, at least `least`. `BadChunk` if no chunk of the block has this
    /// handle, `Short` if it has fewer bytes. The span is valid until a call makes the chunk's
    /// references stale.
    pub fn deref(&self, name: Name, chunk: u16, least: u16) -> Result<Span, Refusal>
        requires { IsLocked self.now.core name }
        ensures gives { GivesSpan (D.medium.honest self.now.device) (table.deref name chunk least) result self.now.core }
        ensures stands { IfOk result (λ span. IsStanding self.now.core span × (least ≤ span.len)) }
        ensures writable { IfOk result (λ span. MayChange self.now.core name → IsWritable self.now.core span) }
    {
        self.refer(name, Refer::Deref { c: chunk, n: least })
    }
}
