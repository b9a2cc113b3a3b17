//! Loading blocks into memory.
ghost use Rattle.std.specs.Prelude.{◌≡◌, ◌↔◌, Some, None, Ok, Err, OnOk, OnErr};
ghost use Rattle.block_handles.specs.Names.{IsHandle};
ghost use Rattle.block_handles.specs.Store.{IsThere, bytes_of, locks_of, size_of};
ghost use Rattle.geos_calls.specs.Legal.{AreBytes};
ghost use Rattle.geos_calls.specs.VmCalls.{bring};
ghost use Rattle.vm_file.specs.State.{HasBlock};
ghost use Rattle.vm_blocks.specs.Bring.{Brought, Drops, Fills};
ghost use Rattle.vm_blocks.specs.Bringing.{BringsBlock, ReadsDevice};
ghost use Rattle.vm_blocks.specs.DoesRow.{DoesRow};
ghost use Rattle.vm_blocks.specs.Refused.{of_bring};
ghost use Rattle.vm_blocks.specs.Tied.{IsTied};
ghost use Rattle.vm_blocks.specs.View.{bytes_read, held_at, vm_slot};

use crate::blocks::VmBlocks;
use crate::entries::Held;
use crate::error::{BringError, NoRoom};
use block_handles::Blocks;
use geos_terms::Name;
use vm_file::{Device, Disk, VmFile};

/// Reads a block of the file directly into the region, and frees it again if the device fails.
fn read_into<D: Device + Drop>(
    file: &mut VmFile<D>,
    blocks: &mut Blocks,
    h: u16,
) -> Result<(), BringError>
    requires there { IsThere blocks.old (vm_slot h) }
    requires free { locks_of blocks.old (vm_slot h) ≡ 0 }
    requires listed { HasBlock file.old.current h (size_of blocks.old (vm_slot h)) }
    ensures ok { OnOk result (Fills blocks.old blocks.new h) }
    ensures bytes { D.medium.honest file.old.device → OnOk result (bytes_of blocks.new (vm_slot h) ≡ bytes_read D.medium.image file.old h) }
    ensures values { OnOk result (AreBytes (bytes_of blocks.new (vm_slot h))) }
    ensures err { OnErr result (Drops blocks.old blocks.new h) }
    ensures disk { OnErr result (result ≡ Err BringError.Disk) }
    ensures same { file.new ≡ record file.old { device = file.new.device } }
    ensures device { ReadsDevice D.medium (result ≡ Err BringError.Disk) file.old file.new }
{
    match file.block(h, blocks.bytes_mut(Name::vm(h))) {
        Ok(()) => {
            // what lies in the region are bytes, as the model's chunks are to be
            let _ = blocks.region();
            Ok(())
        }
        Err(Disk) => {
            let _ = blocks.free(Name::vm(h));
            Err(BringError::Disk)
        }
    }
}

impl<D: Device + Drop> VmBlocks<D> {
    /// Brings a listed block that is not in memory there.
    fn fetch(&mut self, blocks: &mut Blocks, h: u16, held: Held) -> Result<(), BringError>
        requires tied { IsTied D.medium self.old blocks.old }
        requires listed { held_at self.old h ≡ Some held }
        requires handle { IsHandle h }
        requires absent { IsThere blocks.old (vm_slot h) → ⊥ }
        ensures brings { BringsBlock D.medium BringError.NoRoom BringError.Disk h result self.old self.new blocks.old blocks.new }
        ensures known { result ≡ Err BringError.BadHandle → ⊥ }
        ensures ok { OnOk result (Brought blocks.old blocks.new h) }
        ensures row { DoesRow D.medium (bring h) (of_bring result) self.old blocks.old self.new blocks.new }
    {
        match self.make_room(blocks, Name::vm(h), u32::from(held.len)) {
            Ok(()) => {}
            Err(NoRoom) => return Err(BringError::NoRoom),
        }
        read_into(&mut self.file, blocks, h)
    }

    /// Loads a block into memory without locking it; if it is in memory, nothing changes. `BadHandle` if no block has
    /// this handle; `NoRoom` if no stretch of the region has room, although every other idle block of the file was
    /// evicted; `Disk` if the device fails, or returns bytes that are no heap under this handle. Then the block is not
    /// in memory, and others may have been evicted. Cold, so that the usual path is that of calls on blocks in memory.
    #[cold]
    pub fn bring(&mut self, blocks: &mut Blocks, handle: u16) -> Result<(), BringError>
        requires { IsTied D.medium self.old blocks.old }
        ensures brings { BringsBlock D.medium BringError.NoRoom BringError.Disk handle result self.old self.new blocks.old blocks.new }
        ensures bad_handle { (result ≡ Err BringError.BadHandle) ↔ (held_at self.old handle ≡ None) }
        ensures known { IsThere blocks.old (vm_slot handle) → result ≡ Ok tt }
        ensures ok { OnOk result (Brought blocks.old blocks.new handle) }
        // Its row of the table of calls, in each memory that the model may have before it.
        ensures row { DoesRow D.medium (bring handle) (of_bring result) self.old blocks.old self.new blocks.new }
    {
        let Some(held) = self.held(handle) else {
            return Err(BringError::BadHandle);
        };
        if blocks.has(Name::vm(handle)) {
            return Ok(());
        }
        self.fetch(blocks, handle, held)
    }
}
