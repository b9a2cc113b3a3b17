//! The kernel: blocks of global memory, each with a heap of chunks, beside those of a VM file.

ghost use Rattle.std.specs.Prelude.{false, ◌≡◌, ◌≤◌, ◌↔◌, IfOk, IfErr, IsTrue, OnOk, OnErr, Ok, Err};
ghost use Rattle.block_handles.specs.Names.{IsHandle, slot_of};
ghost use Rattle.block_handles.specs.Store.{IsThere};
ghost use Rattle.vm_blocks.specs.Listed.{NoneLocked};
ghost use Rattle.vm_blocks.specs.Room.{LacksRoom};
ghost use Rattle.vm_blocks.specs.Tied.{IsTied};
ghost use Rattle.geos_kernel.specs.Kernel.{MakesRoomFor};

use crate::refused::of_handle;
use crate::span::Span;
use block_handles::Blocks;
use chunk_calls::{find, tell};
use geos_calls::{Ask, Change, Make, Refer};
use geos_terms::{Name, Owner, Refusal};
use lmem_heap::init;
use std::alloc::{AllocError, Global};
use std::marker::Model;
use vm_blocks::{NoRoom, VmBlocks};
use vm_file::{Device, VmFile};

/// The size of a new block in bytes.
const NEW_SIZE: u32 = 64;

/// Blocks of global memory in one region, each with a heap of chunks, and a VM file on a device, of
/// which some blocks are in the region too.
#[derive(Drop)]
pub struct Kernel<D: Device + Drop> {
    // The file comes first, here as in `VmBlocks` and in the pair that `new` refuses with: where it lay at two places of one result,
    // the compiler would go over its bytes one by one, for minutes.
    pub(crate) vm: VmBlocks<D>,
    pub(crate) blocks: Blocks,
}

impl<D: Device + Drop> Model for Kernel<D> {
    ghost use Rattle.geos_kernel.specs.View.{KernelOn};

    ghost Value = { KernelOn D };

    ghost use Rattle.geos_kernel.specs.View.{kernel_of};
    ghost use Rattle.geos_kernel.specs.Kernel.{IsKernel};

    ghost view = { λ k. kernel_of D.medium k.vm k.blocks };

    ghost invariant = { λ k. IsKernel D.medium k.vm k.blocks };
}

impl<D: Device + Drop> Kernel<D> {
    ghost use Rattle.std.specs.Prelude.{ℕ, None, replicate};
    ghost use Rattle.block_handles.specs.Layout.{IsEmpty, IsLaidOut};
    ghost use Rattle.block_handles.specs.Stretch.{all_sizes, vm_locks};
    ghost use Rattle.block_handles.specs.Store.{bytes_of, handles_of, most_of};
    ghost use Rattle.block_handles.specs.Store as store;
    ghost use Rattle.geos_calls.specs.Calls as table;
    ghost use Rattle.geos_calls.specs.ChunkCalls.{change_edit, change_row, make_edit, make_row, ask_row, refer_row, least, may_grow};
    ghost use Rattle.geos_terms.specs.Heap.{IsCompact};
    ghost use Rattle.geos_calls.specs.Legal.{IsMemory};
    ghost use Rattle.geos_calls.specs.Memory as model;
    ghost use Rattle.geos_calls.specs.VmFile as model_file;
    ghost use Rattle.geos_terms.specs.Names.{mem, vm};
    ghost use Rattle.vm_blocks.specs.Blocks.{is_marked_in};
    ghost use Rattle.vm_blocks.specs.Listed.{IsListOf};
    ghost use Rattle.vm_blocks.specs.Opened.{opened_file};
    ghost use Rattle.vm_blocks.specs.View.{held_at};
    ghost use Rattle.vm_file.specs.Outcomes.{IsHeapUnder};
    ghost use Rattle.geos_kernel.specs.Files.{LeavesKept};
    ghost use Rattle.geos_kernel.specs.Limits.{with_last_handle, with_room};
    ghost use Rattle.geos_kernel.specs.Kernel.{Calls, GivesSpan, HasNoRoomFor, LeavesVm, NewHasNoRoom, Remain, StaysIfRefused};
    ghost use Rattle.geos_kernel.specs.Spans.{IsStanding, IsWritable};
    ghost use Rattle.geos_kernel.specs.View.{chunks_at, file_over, IsFileOf, IsLocked, MayChange, memory_of, SeesDevice};

    /// No block in memory, in a region of `region` bytes, 65,536 to 16,777,216, and a VM file, which
    /// may be unsure: then it takes no commit. This is the only call but commits that takes memory;
    /// `AllocError` if there is none, and the file comes back.
    pub fn new(
        alloc: Global,
        region: u32,
        file: VmFile<D>,
    ) -> Result<Kernel<D>, (VmFile<D>, AllocError)>
        requires { (65536 ≤ region) × (region ≤ 16777216) }
        ensures store { IfOk result (λ kernel. IsEmpty kernel.core.blocks region) }
        ensures file { IfOk result (λ kernel. file_over kernel.device kernel.core.vm.file ≡ file) }
        ensures lists { IfOk result (λ kernel. IsListOf kernel.core.vm file.current) }
        // The model begins with the file as the device holds it.
        ensures tied { IfOk result (λ kernel. IsFileOf (D.medium.honest kernel.device) kernel.core (opened_file D.medium.image file)) }
        ensures memory { IfOk result (λ kernel. (f : model_file.VmFile)
            → memory_of kernel.core f ≡ record { blocks = replicate 1024 None; file = f; region = region; handles = 1024 }) }
        ensures back { IfErr result (λ e. e.0 ≡ file) }
    {
        let blocks = match Blocks::new(alloc, region) {
            Ok(blocks) => blocks,
            Err(error) => return Err((file, error)),
        };
        match VmBlocks::new(alloc, file) {
            Ok(vm) => Ok(Kernel { blocks, vm }),
            Err(error) => Err(error),
        }
    }

    /// The device of the VM file. Nothing is written: what is marked is lost.
    pub fn close(self) -> D
        ensures { result ≡ self.device }
    {
        let Kernel { blocks: _, vm } = self;
        vm.into_file().into_device()
    }

    /// How often a block is locked; 0 if there is none.
    pub fn locks(&self, name: Name) -> u16
        ensures count { result ≡ store.locks_of self.now.core.blocks (slot_of name) }
        ensures model { (f : model_file.VmFile) → IsFileOf (D.medium.honest self.now.device) self.now.core f
            → result ≡ model.locks_of (memory_of self.now.core f) name }
    {
        self.blocks.locks(name)
    }

    /// How often the blocks of the VM file are locked, all together: the sum of their counts. The
    /// sum is stored, so this takes constant time.
    pub fn vm_locks(&self) -> u32
        ensures sum { result ≡ vm_locks self.now.core.blocks }
        ensures laid { IsLaidOut self.now.core.blocks }
    {
        self.blocks.vm_locks()
    }

    /// How many bytes all blocks in memory have together: never more than they may.
    pub fn taken(&self) -> u32
        ensures taken { result ≡ all_sizes self.now.core.blocks }
        ensures within { result ≤ most_of self.now.core.blocks }
    {
        self.blocks.taken()
    }

    /// Lets all blocks in memory together have `more` bytes more than they have, at most the whole region, until the
    /// next call of `limit`. So a large number removes the limit. A call that needs more evicts all idle blocks, and
    /// is then refused as for lack of room.
    pub fn limit(&mut self, more: u32)
        ensures limited { self.new.core ≡ with_room self.old.core more }
        ensures device { self.new.device ≡ self.old.device }
        // The model has the limit as its region, and knows what it knew.
        ensures file { (f : model_file.VmFile) → IsFileOf (D.medium.honest self.old.device) self.old.core f
            → IsFileOf (D.medium.honest self.new.device) self.new.core f }
    {
        self.blocks.limit(more);
    }

    /// The highest handle that a new block of global memory may get: 1,024, unless `limit_handles` has set another one.
    pub fn handles(&self) -> u16
        ensures { result ≡ handles_of self.now.core.blocks }
    {
        self.blocks.handles()
    }

    /// Sets the highest handle that a new block of global memory may get, until the next call. A routine that requests one more block is
    /// refused as if all handles were in use.
    pub fn limit_handles(&mut self, handles: u16)
        ensures limited { self.new.core ≡ with_last_handle self.old.core handles }
        ensures device { self.new.device ≡ self.old.device }
        // The model has the limit too, and knows what it knew.
        ensures file { (f : model_file.VmFile) → IsFileOf (D.medium.honest self.old.device) self.old.core f
            → IsFileOf (D.medium.honest self.new.device) self.new.core f }
    {
        self.blocks.limit_handles(handles);
    }

    /// Whether a block of the VM file is marked as changed; `false` if there is none.
    pub fn marked(&self, handle: u16) -> bool
        ensures mark { result ≡ is_marked_in (held_at self.now.core.vm handle) }
        ensures model { (f : model_file.VmFile) → IsFileOf (D.medium.honest self.now.device) self.now.core f
            → result ≡ model.is_marked (memory_of self.now.core f) handle }
    {
        self.vm.marked(handle)
    }

    /// Whether no block of the VM file is locked.
    pub fn vm_unlocked(&self) -> bool
        ensures locks { IsTrue result ↔ NoneLocked self.now.core.blocks }
        ensures model { (f : model_file.VmFile) → IsFileOf (D.medium.honest self.now.device) self.now.core f
            → IsTrue result ↔ ((h : ℕ) → model.locks_of (memory_of self.now.core f) (vm h) ≡ 0) }
    {
        none_locked(&self.blocks)
    }

    /// The invariant of the kernel's memory: there is a VM file that the model may have beside it; each block in memory, of either owner,
    /// is a heap under its handle; sizes of blocks are legal and have room for their chunks, chunks are lists of bytes, and no lock count is
    /// above its limit; each lock count is the model's, so no block of the VM file is locked exactly if the model has none locked; the count
    /// of failures is the device's; and after a stop now, `open` finds what the model has committed.
    pub fn memory_is_legal(&self)
        ensures file { (f : model_file.VmFile) × IsFileOf (D.medium.honest self.now.device) self.now.core f }
        ensures legal { (f : model_file.VmFile) → IsFileOf (D.medium.honest self.now.device) self.now.core f → IsMemory (memory_of self.now.core f) }
        ensures heaps { (name : Name) → IsThere self.now.core.blocks (slot_of name)
            → IsHeapUnder name.h (bytes_of self.now.core.blocks (slot_of name)) }
        ensures sees { SeesDevice D.medium self.now }
        ensures kept { LeavesKept D.medium self.now }
        ensures unlocked { (f : model_file.VmFile) → IsFileOf (D.medium.honest self.now.device) self.now.core f
            → NoneLocked self.now.core.blocks ↔ ((h : ℕ) → model.locks_of (memory_of self.now.core f) (vm h) ≡ 0) }
        ensures locks { (f : model_file.VmFile) → IsFileOf (D.medium.honest self.now.device) self.now.core f
            → (name : Name) → model.locks_of (memory_of self.now.core f) name ≡ store.locks_of self.now.core.blocks (slot_of name) }
    {
        // what lies in the region are bytes
        let _region = self.blocks.region();
        // what a stop leaves
        self.vm.is_sure();
    }

    /// Makes a block of 64 bytes with no chunk, under the lowest handle that is free, and
    /// locks it. `NoHandle` if all 1,024 are in use, or all up to the limit; `NoRoom` if no stretch of the
    /// region has room for it, though no block is left that could be discarded.
    pub fn mnew(&mut self) -> Result<u16, Refusal>
        ensures calls { Calls (D.medium.honest self.old.device) table.mnew result self.old.core self.new.core }
        ensures no_room { result ≡ Err Refusal.NoRoom → NewHasNoRoom self.old.core self.new.core }
        ensures locked { IfOk result (λ h. store.locks_of self.new.core.blocks (slot_of (mem h)) ≡ 1) }
        ensures no_handle { result ≡ Err Refusal.NoHandle → self.new.core ≡ self.old.core }
        ensures vm { LeavesVm self.old self.new }
    {
        let Some(h) = self.blocks.lowest(Owner::Mem) else {
            return Err(Refusal::NoHandle);
        };
        if h > self.blocks.handles() {
            return Err(Refusal::NoHandle);
        }
        match make_heap(&self.vm, &mut self.blocks, Name::mem(h)) {
            Ok(()) => Ok(h),
            Err(NoRoom) => Err(Refusal::NoRoom),
        }
    }

    /// Locks a block of global memory once more. `BadHandle` if there is none, `Locked` if
    /// its count is 65,535.
    pub fn mlock(&mut self, handle: u16) -> Result<(), Refusal>
        ensures calls { Calls (D.medium.honest self.old.device) (table.mlock handle) result self.old.core self.new.core }
        ensures vm { LeavesVm self.old self.new }
        ensures remain { Remain self.old.core.blocks self.new.core.blocks 0 }
    {
        let locked = self.blocks.lock(Name::mem(handle));
        of_handle(locked)
    }

    /// Unlocks a block once. When it is locked no more, references into it are stale.
    pub fn munlock(&mut self, name: Name)
        requires { IsLocked self.old.core name }
        ensures calls { Calls (D.medium.honest self.old.device) (table.unlock name) (Ok tt) self.old.core self.new.core }
        ensures vm { LeavesVm self.old self.new }
        ensures remain { Remain self.old.core.blocks self.new.core.blocks 0 }
    {
        self.blocks.unlock(name);
    }

    /// Frees a block of global memory. `BadHandle` if there is none, `Locked` if it is locked.
    pub fn mfree(&mut self, handle: u16) -> Result<(), Refusal>
        ensures calls { Calls (D.medium.honest self.old.device) (table.mfree handle) result self.old.core self.new.core }
        ensures vm { LeavesVm self.old self.new }
        ensures remain { Remain self.old.core.blocks self.new.core.blocks 0 }
    {
        let freed = self.blocks.free(Name::mem(handle));
        of_handle(freed)
    }

    /// Changes the chunks of a locked block, as the value says; one of the VM file is marked.
    /// `BadChunk`, `BadArray`, `BadElement` and `Range` as the named calls say; `TooBig` if the
    /// block would need more than 65,520 bytes, `NoRoom` if it must grow and no stretch of the
    /// region has room for it, though no other block is left that could be discarded. Spans into the
    /// block are stale after it, also where it is refused. After `Lcontract` its free bytes are in one
    /// piece, at its end.
    #[inline(always)]
    pub fn change(&mut self, name: Name, change: Change) -> Result<(), Refusal>
        requires locked { IsLocked self.old.core name }
        requires marked { MayChange self.old.core name }
        ensures calls { Calls (D.medium.honest self.old.device) (change_row name change) result self.old.core self.new.core }
        ensures no_room { result ≡ Err Refusal.NoRoom
            → HasNoRoomFor self.new.core name (change_edit change (chunks_at self.old.core.blocks name)).chunks }
        ensures refused { StaysIfRefused result self.old.core.blocks self.new.core.blocks }
        ensures vm { LeavesVm self.old self.new }
        ensures remain { may_grow change ≡ false → Remain self.old.core.blocks self.new.core.blocks 0 }
        ensures compact { change ≡ Change.Lcontract → IsCompact (bytes_of self.new.core.blocks (slot_of name)) }
    {
        chunk_calls::change(&self.vm, &mut self.blocks, name, change)
    }

    /// Makes a chunk in a locked block, as the value says, and answers its handle: the lowest
    /// one of the block that is free. A block of the VM file is marked. `TooBig` and `NoRoom` as
    /// `change`. Spans into the block are stale after it, also where it is refused.
    #[inline(always)]
    pub fn make_chunk(&mut self, name: Name, make: Make) -> Result<u16, Refusal>
        requires locked { IsLocked self.old.core name }
        requires marked { MayChange self.old.core name }
        ensures calls { Calls (D.medium.honest self.old.device) (make_row name make) result self.old.core self.new.core }
        ensures no_room { result ≡ Err Refusal.NoRoom
            → HasNoRoomFor self.new.core name (make_edit make (chunks_at self.old.core.blocks name)).chunks }
        ensures refused { StaysIfRefused result self.old.core.blocks self.new.core.blocks }
        ensures vm { LeavesVm self.old self.new }
    {
        chunk_calls::make_chunk(&self.vm, &mut self.blocks, name, make)
    }

    /// Tells a number of the chunks of a locked block, as the value says. `BadChunk` if no
    /// chunk of the block has this handle, `BadArray` if its bytes are no array.
    pub fn ask(&self, name: Name, ask: Ask) -> Result<u16, Refusal>
        requires { IsLocked self.now.core name }
        ensures { Calls (D.medium.honest self.now.device) (ask_row name ask) result self.now.core self.now.core }
    {
        tell(self.blocks.bytes(name), ask)
    }

    /// The span of the bytes that the value names, in a chunk of a locked block. `BadChunk`,
    /// `BadArray`, `BadElement` and `Short` as in `deref` and `caelt`. The span is valid until a
    /// call makes the chunk's references stale.
    #[inline(always)]
    pub fn refer(&self, name: Name, refer: Refer) -> Result<Span, Refusal>
        requires { IsLocked self.now.core name }
        ensures gives { GivesSpan (D.medium.honest self.now.device) (refer_row name refer) result self.now.core }
        ensures stands { IfOk result (λ span. IsStanding self.now.core span × (least refer ≤ span.len)) }
        ensures writable { IfOk result (λ span. MayChange self.now.core name → IsWritable self.now.core span) }
    {
        match find(self.blocks.bytes(name), refer) {
            Ok((at, len)) => Ok(Span {
                at: self.blocks.place(name) + at as u32,
                len,
            }),
            Err(refusal) => Err(refusal),
        }
    }

    /// Moves the chunks of a locked block together, so that its free bytes are in one piece,
    /// at its end; one of the VM file is marked. Handles and bytes stay; spans into the block are
    /// stale after it.
    pub fn lcontract(&mut self, name: Name)
        requires locked { IsLocked self.old.core name }
        requires marked { MayChange self.old.core name }
        ensures calls { Calls (D.medium.honest self.old.device) (table.lcontract name) (Ok tt) self.old.core self.new.core }
        ensures compact { IsCompact (bytes_of self.new.core.blocks (slot_of name)) }
        ensures vm { LeavesVm self.old self.new }
        ensures remain { Remain self.old.core.blocks self.new.core.blocks 0 }
    {
        chunk_calls::contract(&mut self.blocks, name);
        // what lies in the region are bytes, as the block is to encode
        let _ = self.blocks.region();
    }
}

/// Whether no block of the VM file is locked.
fn none_locked(blocks: &Blocks) -> bool
    ensures { IsTrue result ↔ NoneLocked blocks.now }
{
    blocks.vm_locks() == 0
}

/// Makes a block of 64 bytes with no chunk, for which others are discarded, and locks it.
fn make_heap<D: Device + Drop>(
    vm: &VmBlocks<D>,
    blocks: &mut Blocks,
    name: Name,
) -> Result<(), NoRoom>
    requires tied { IsTied D.medium vm.now blocks.old }
    requires handle { IsHandle name.h }
    requires free { IsThere blocks.old (slot_of name) → ⊥ }
    ensures ok { OnOk result (MakesRoomFor vm.now blocks.old blocks.new name) }
    ensures err { OnErr result (LacksRoom vm.now blocks.old blocks.new name 64) }
{
    match vm.make_room(blocks, name, NEW_SIZE) {
        Ok(()) => {}
        Err(NoRoom) => return Err(NoRoom),
    }
    init(blocks.bytes_mut(name), name.h);
    let _ = blocks.lock(name);
    Ok(())
}
