//! A device with a cache.
ghost use Rattle.std.specs.Prelude.{◌≡◌, ◌+◌, ◌<◌, ◌≤◌, length, replicate, IfOk, OnErr, OnOk};
ghost use Rattle.lmem_raw.specs.Bytes.{part, with_part};
ghost use Rattle.vm_file.specs.Device.{Counts, Only, one_more};
ghost use Rattle.vm_file.specs.Outcomes.{ReadsOnly, WritesOnly};

use crate::event::Event;
use crate::part::{Part, leave};
use std::alloc::{AllocError, Global};
use vm_file::{Device, Disk, MemoryDevice};

/// A device with a cache. Reads return what was last written; a write is durable once a `sync` has succeeded. The
/// device records its calls, so that it can tell what a stop at any moment may have left. It fails past its length, and
/// if it has no memory for the record.
#[derive(Drop)]
pub struct CachedDevice {
    alloc: Global,
    /// What reads return.
    cache: MemoryDevice,
    /// What lasted at first.
    start: Vec<u8>,
    /// What happened, in order.
    events: Vec<Event>,
    failures: u64,
}

impl CachedDevice {
    ghost use Rattle.cached_device.specs.History.{MayLeave, bytes_of, failures_of};
    ghost use Rattle.cached_device.specs.Stopped.{LeavesBy};

    /// A device of so many zero bytes, which last: a stop leaves nothing else. `AllocError` if the allocator has no memory.
    pub fn new(alloc: Global, len: u64) -> Result<CachedDevice, AllocError>
        ensures bytes { IfOk result (λ device. bytes_of device ≡ replicate len 0) }
        ensures lasts { IfOk result (λ device. Only (replicate len 0) (MayLeave device)) }
        ensures failures { IfOk result (λ device. failures_of device ≡ 0) }
    {
        Ok(CachedDevice {
            alloc,
            cache: MemoryDevice::new(alloc, len)?,
            start: Vec::from_elem(alloc, 0u8, len as usize)?,
            events: Vec::new(alloc),
            failures: 0,
        })
    }

    /// What a stop now leaves, with these choices for the parts of 512 bytes that were written since
    /// the last `sync`, in the order of the device. `AllocError` if the allocator has no memory.
    pub fn after_stop(&self, parts: &[Part]) -> Result<Vec<u8>, AllocError>
        ensures possible { IfOk result (λ bytes. MayLeave self.now bytes.items) }
        ensures chosen { IfOk result (λ bytes. LeavesBy self.now parts.now bytes.items) }
    {
        let mut bytes = self.start.to_vec(self.alloc)?;
        for event in &self.events {
            match event {
                Event::Written(at, n) => leave(&mut bytes, *at, *n, self.cache.as_slice(), parts),
                Event::Synced(lasting) => bytes = lasting.to_vec(self.alloc)?,
            }
        }
        Ok(bytes)
    }
}

/// A call failed: it is counted; at the greatest number the count stays.
fn fail(failures: &mut u64) -> Result<(), Disk>
    ensures fails { OnOk result ⊥ }
    ensures counted { failures.new ≡ one_more failures.old }
{
    *failures = failures.saturating_add(1);
    Err(Disk)
}

impl Device for CachedDevice {
    ghost use Rattle.cached_device.specs.History.{Happens, IsStill, MayLeave, Syncs, at_once, bytes_of, by_now, failures_of, medium, reads_now};
    ghost use Rattle.cached_device.specs.declared.event.Event.TheVariants.{Written};

    ghost medium = { medium };

    fn len(&self) -> u64 {
        self.cache.len()
    }

    fn failures(&self) -> u64 {
        self.failures
    }

    /// Reads the bytes from an offset on. Fails with `Disk` if and only if they reach past the length.
    fn read_at(&mut self, at: u64, into: &mut [u8]) -> Result<(), Disk>
        ensures within { OnOk result (at + length into.old ≤ length (bytes_of self.old)) }
        ensures past { OnErr result (length (bytes_of self.old) < at + length into.old) }
        ensures bytes { OnOk result (into.new ≡ part (bytes_of self.old) at (length into.old)) }
        ensures reads { ReadsOnly medium self.old self.new }
        ensures still { IsStill self.old self.new }
        ensures cause { Counts (failures_of self.old) (failures_of self.new) result }
    {
        match self.cache.read_at(at, into) {
            Ok(()) => Ok(()),
            Err(Disk) => fail(&mut self.failures),
        }
    }

    /// Writes bytes from an offset on. `Disk` past the length, or if there is no memory: then nothing happened.
    fn write_at(&mut self, at: u64, bytes: &[u8]) -> Result<(), Disk>
        ensures within { OnOk result (at + length bytes.now ≤ length (bytes_of self.old)) }
        ensures written { OnOk result (bytes_of self.new ≡ with_part (bytes_of self.old) at bytes.now) }
        ensures writes { WritesOnly medium at (length bytes.now) self.old self.new }
        ensures happened { OnOk result (Happens (Written at (length bytes.now)) self.old self.new) }
        ensures still { OnErr result (IsStill self.old self.new) }
        ensures cause { Counts (failures_of self.old) (failures_of self.new) result }
    {
        match self.events.push(Event::Written(at, bytes.len() as u64)) {
            Ok(()) => {}
            Err(_) => return fail(&mut self.failures),
        }
        match self.cache.write_at(at, bytes) {
            Ok(()) => Ok(()),
            Err(Disk) => {
                self.events.pop();
                fail(&mut self.failures)
            }
        }
    }

    /// Makes last what was written. `Disk` if there is no memory: then nothing happened.
    fn sync(&mut self) -> Result<(), Disk>
        ensures durable { OnOk result (Only (bytes_of self.new) (MayLeave self.new)) }
        ensures reads { ReadsOnly medium self.old self.new }
        ensures bytes { bytes_of self.new ≡ bytes_of self.old }
        ensures happened { OnOk result (Syncs self.old self.new) }
        ensures still { OnErr result (IsStill self.old self.new) }
        ensures cause { Counts (failures_of self.old) (failures_of self.new) result }
    {
        let bytes = match self.cache.as_slice().to_vec(self.alloc) {
            Ok(bytes) => bytes,
            Err(_) => return fail(&mut self.failures),
        };
        match self.events.push(Event::Synced(bytes)) {
            Ok(()) => {}
            Err(_) => return fail(&mut self.failures),
        }
        Ok(())
    }

    ghost reads_now = { reads_now };

    ghost at_once = { at_once };

    ghost by_now = { by_now };
}
