//! A device in memory.
ghost use Rattle.std.proofs.Common.{inl, inr};
ghost use Rattle.std.specs.Prelude.{◌≡◌, ◌+◌, ◌≤◌, ◌<◌, ◌↔◌, length, replicate, IfOk, IsTrue, OnErr, OnOk, refl};
ghost use Rattle.lmem_raw.specs.Bytes.{part, with_part};
ghost use Rattle.vm_file.specs.Device.{Counts, IsSteady, Only};
ghost use Rattle.vm_file.specs.Outcomes.{ReadsOnly, WritesOnly};

use crate::device::{Device, Disk, count_failure};
use std::alloc::{AllocError, Global};

/// A device in memory. It is honest, each write lasts at once, and it fails only past its
/// length.
#[derive(Drop)]
pub struct MemoryDevice {
    bytes: Vec<u8>,
    failures: u64,
}

impl MemoryDevice {
    ghost use Rattle.vm_file.specs.Memory.{bytes_of, failures_of, medium};

    /// A device of so many zero bytes. `AllocError` if the allocator has no memory.
    #[tactic(auto, using(crate::proofs::SteadyDevices::memory_steady))]
    pub fn new(alloc: Global, len: u64) -> Result<MemoryDevice, AllocError>
        ensures bytes { IfOk result (λ device. bytes_of device ≡ replicate len 0) }
        ensures failures { IfOk result (λ device. failures_of device ≡ 0) }
        // No call of such a device fails that lies within its length.
        ensures steady { IsSteady medium }
    {
        Ok(MemoryDevice {
            bytes: Vec::from_elem(alloc, 0u8, len as usize)?,
            failures: 0,
        })
    }

    /// The bytes.
    pub fn as_slice(&self) -> &[u8]
        ensures { result.now ≡ bytes_of self.now }
    {
        &self.bytes
    }

    /// Whether a range lies within the length.
    fn has(&self, at: u64, n: usize) -> bool
        ensures { IsTrue result ↔ (at + n ≤ length (bytes_of self.now)) }
    {
        let len = self.bytes.len();
        n <= len && at <= (len - n) as u64
    }
}

pub(crate) fn write_part(bytes: &mut [u8], at: usize, from: &[u8])
    requires { at + length from.now ≤ length bytes.old }
    ensures { bytes.new ≡ with_part bytes.old at from.now }
{
    bytes[at..at + from.len()].copy_from_slice(from);
}

impl Device for MemoryDevice {
    ghost use Rattle.vm_file.specs.Memory.{MayLeave, Reads, Syncs, Writes, bytes_of, failures_of, medium};

    ghost medium = { medium };

    fn len(&self) -> u64 {
        let bytes = self.as_slice();
        bytes.len() as u64
    }

    fn failures(&self) -> u64 {
        self.failures
    }

    /// Reads the bytes from an offset on. `Disk` exactly past the length.
    fn read_at(&mut self, at: u64, into: &mut [u8]) -> Result<(), Disk>
        ensures within { OnOk result (at + length into.old ≤ length (bytes_of self.old)) }
        ensures past { OnErr result (length (bytes_of self.old) < at + length into.old) }
        ensures bytes { OnOk result (into.new ≡ part (bytes_of self.old) at (length into.old)) }
        ensures reads { ReadsOnly medium self.old self.new }
        ensures cause { Counts (failures_of self.old) (failures_of self.new) result }
        ensures call { Reads self.old at into.new result self.new }
    {
        if !self.has(at, into.len()) {
            count_failure(&mut self.failures);
            return Err(Disk);
        }
        let at = at as usize;
        into.copy_from_slice(&self.bytes[at..at + into.len()]);
        Ok(())
    }

    /// Writes bytes from an offset on. `Disk` exactly past the length.
    fn write_at(&mut self, at: u64, bytes: &[u8]) -> Result<(), Disk>
        ensures within { OnOk result (at + length bytes.now ≤ length (bytes_of self.old)) }
        ensures past { OnErr result ((length (bytes_of self.old) < at + length bytes.now) × (bytes_of self.new ≡ bytes_of self.old)) }
        ensures written { OnOk result (bytes_of self.new ≡ with_part (bytes_of self.old) at bytes.now) }
        ensures writes { WritesOnly medium at (length bytes.now) self.old self.new }
        ensures cause { Counts (failures_of self.old) (failures_of self.new) result }
        ensures call { Writes self.old at bytes.now result self.new }
    {
        if !self.has(at, bytes.len()) {
            count_failure(&mut self.failures);
            return Err(Disk);
        }
        write_part(&mut self.bytes, at as usize, bytes);
        Ok(())
    }

    /// Nothing is left to be done: each write lasts at once.
    fn sync(&mut self) -> Result<(), Disk>
        ensures never { OnErr result ⊥ }
        ensures durable { OnOk result (Only (bytes_of self.new) (MayLeave self.new)) }
        ensures reads { ReadsOnly medium self.old self.new }
        ensures cause { Counts (failures_of self.old) (failures_of self.new) result }
        ensures call { Syncs self.old result self.new }
    {
        Ok(())
    }

    ghost reads_now = { λ d. refl };

    ghost at_once = { λ d c h. elim h [ inl before ↦ before | inr after ↦ after ] };

    ghost by_now = { λ s d c h. inr h };
}
