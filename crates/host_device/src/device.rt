//! The device.
ghost use Rattle.std.specs.Prelude.{◌≡◌, ◌+◌, ◌<◌, ◌≤◌, ◌↔◌, [], length, replicate, IfOk, IsTrue, OnErr, OnOk, slice_get};
ghost use Rattle.host_device.specs.Notes.{Tells};
ghost use Rattle.lmem_raw.specs.Bytes.{part, with_part};
ghost use Rattle.vm_file.specs.Device.{Counts, Only, one_more};
ghost use Rattle.vm_file.specs.Outcomes.{ReadsOnly, WritesOnly};

use crate::log::{Log, STEPS_OF_A_COMMIT};
use crate::step::Step;
use std::alloc::{AllocError, Global};
use vm_file::{Device, Disk, MemoryDevice, Noting};

/// A device in memory that notes each write and each sync, in order, until the host has performed them. If the host stops while it performs
/// them, its file has what a device may have after a stop at that call. A call fails past the device's length, and if the allocator refuses
/// the memory for a note.
#[derive(Drop)]
pub struct HostDevice {
    /// The bytes that reads return.
    cache: MemoryDevice,
    /// The calls that the host has not performed, in order.
    log: Log,
    failures: u64,
}

impl HostDevice {
    ghost use Rattle.host_device.specs.Journal.{MayLeave, bytes_of, failures_of, journal_of, steps_of};

    /// A device of so many zero bytes, for a host with the same bytes. `AllocError` if the allocator refuses.
    pub fn new(alloc: Global, len: u64) -> Result<HostDevice, AllocError>
        ensures bytes { IfOk result (λ device. bytes_of device ≡ replicate len 0) }
        ensures steps { IfOk result (λ device. journal_of device ≡ []) }
        ensures failures { IfOk result (λ device. failures_of device ≡ 0) }
    {
        Ok(HostDevice {
            cache: MemoryDevice::new(alloc, len)?,
            log: Log::new(alloc),
            failures: 0,
        })
    }

    /// A device of the bytes of a host. `AllocError` if the allocator refuses.
    pub fn holding(alloc: Global, bytes: &[u8]) -> Result<HostDevice, AllocError>
        ensures bytes { IfOk result (λ device. bytes_of device ≡ bytes.now) }
        ensures steps { IfOk result (λ device. journal_of device ≡ []) }
        ensures failures { IfOk result (λ device. failures_of device ≡ 0) }
    {
        let mut device = HostDevice::new(alloc, bytes.len() as u64)?;
        match device.cache.write_at(0, bytes) {
            Ok(()) => Ok(device),
            Err(Disk) => unreachable!(),
        }
    }

    /// Whether the host has performed every noted call.
    pub fn is_performed(&self) -> bool
        ensures { IsTrue result ↔ journal_of self.now ≡ [] }
    {
        self.log.is_empty()
    }

    /// The call with a number, from 0 on, of those that the host has not performed; `None` past the last one.
    pub fn step(&self, number: usize) -> Option<Step<'_>>
        ensures { Tells result (slice_get (journal_of self.now) number) }
    {
        self.log.step(number)
    }

    /// Whether the log has the memory for every note of a commit. A commit writes an area and the selector: with the old bytes these are at
    /// most as many bytes as the device has. `settle` gets this memory if nothing is noted.
    ///
    /// No clause says when the answer is false. After `settle` with no notes, it is false only if the allocator has refused, for which the
    /// kit has no predicate.
    pub fn has_room(&self) -> bool {
        self.log
            .has_room(self.cache.as_slice().len(), STEPS_OF_A_COMMIT)
    }

    /// Whether a range is within the length.
    fn has(&self, at: u64, n: usize) -> bool
        ensures { IsTrue result ↔ (at + n ≤ length (bytes_of self.now)) }
    {
        let len = self.cache.as_slice().len();
        n <= len && at <= (len - n) as u64
    }
}

/// Counts a failed call, up to the greatest number.
fn fail(failures: &mut u64) -> Result<(), Disk>
    ensures fails { OnOk result ⊥ }
    ensures counted { failures.new ≡ one_more failures.old }
{
    *failures = failures.saturating_add(1);
    Err(Disk)
}

impl Device for HostDevice {
    ghost use Rattle.host_device.specs.Journal.{Follows, IsStill, MayLeave, Notes, NotesSync, at_once, bytes_of, by_now, failures_of, medium, reads_now};

    ghost medium = { medium };

    fn len(&self) -> u64 {
        self.cache.len()
    }

    fn failures(&self) -> u64 {
        self.failures
    }

    /// Reads the bytes from an offset on. `Disk` exactly if the range ends past the length.
    fn read_at(&mut self, at: u64, into: &mut [u8]) -> Result<(), Disk>
        ensures within { OnOk result (at + length into.old ≤ length (bytes_of self.old)) }
        ensures past { OnErr result (length (bytes_of self.old) < at + length into.old) }
        ensures bytes { OnOk result (into.new ≡ part (bytes_of self.old) at (length into.old)) }
        ensures reads { ReadsOnly medium self.old self.new }
        ensures still { IsStill self.old self.new }
        ensures cause { Counts (failures_of self.old) (failures_of self.new) result }
    {
        match self.cache.read_at(at, into) {
            Ok(()) => Ok(()),
            Err(Disk) => fail(&mut self.failures),
        }
    }

    /// Writes bytes from an offset on, and notes the write. `Disk` if the range ends past the length, or if the allocator refuses the memory
    /// for the note: then nothing changes.
    fn write_at(&mut self, at: u64, bytes: &[u8]) -> Result<(), Disk>
        ensures within { OnOk result (at + length bytes.now ≤ length (bytes_of self.old)) }
        ensures written { OnOk result (bytes_of self.new ≡ with_part (bytes_of self.old) at bytes.now) }
        ensures writes { WritesOnly medium at (length bytes.now) self.old self.new }
        ensures notes { OnOk result (Notes at bytes.now self.old self.new) }
        ensures follows { Follows self.old self.new }
        ensures still { OnErr result (IsStill self.old self.new) }
        ensures cause { Counts (failures_of self.old) (failures_of self.new) result }
    {
        if !self.has(at, bytes.len()) {
            return fail(&mut self.failures);
        }
        let from = at as usize;
        let all = self.cache.as_slice();
        match self
            .log
            .note_write(at, &all[from..from + bytes.len()], bytes)
        {
            Ok(()) => {}
            Err(_) => return fail(&mut self.failures),
        }
        match self.cache.write_at(at, bytes) {
            Ok(()) => Ok(()),
            Err(Disk) => unreachable!(),
        }
    }

    /// Notes a sync. `Disk` if the allocator refuses the memory for the note: then nothing changes.
    fn sync(&mut self) -> Result<(), Disk>
        ensures durable { OnOk result (Only (bytes_of self.new) (MayLeave self.new)) }
        ensures reads { ReadsOnly medium self.old self.new }
        ensures bytes { bytes_of self.new ≡ bytes_of self.old }
        ensures notes { OnOk result (NotesSync self.old self.new) }
        ensures follows { Follows self.old self.new }
        ensures still { OnErr result (IsStill self.old self.new) }
        ensures cause { Counts (failures_of self.old) (failures_of self.new) result }
    {
        match self.log.note_sync() {
            Ok(()) => {}
            Err(_) => return fail(&mut self.failures),
        }
        Ok(())
    }

    ghost reads_now = { reads_now };

    ghost at_once = { at_once };

    ghost by_now = { by_now };
}

impl Noting for HostDevice {
    ghost use Rattle.vm_file.specs.Noting.{Rests};
    ghost use Rattle.host_device.specs.Journal.{Settles, medium};

    ghost settles = { Settles };

    /// Forgets the noted calls. If there are none, it gets the memory for every note of a commit.
    fn settle(&mut self)
        ensures rests { Rests medium self.old self.new }
        ensures failed { medium.failed self.new ≡ medium.failed self.old }
        ensures settled { Settles self.old self.new }
    {
        if !self.log.is_empty() {
            return self.log.clear();
        }
        let len = self.cache.as_slice().len();
        // If the allocator refuses, `has_room` returns false.
        let _ = self.log.reserve(len, STEPS_OF_A_COMMIT);
    }
}
