//! Devices: the bytes of a file, which last after a sync.
ghost use Rattle.std.specs.Prelude.{◌≡◌, ◌+◌, ◌≤◌, ℕ, List, length, OnOk};
ghost use Rattle.geos_terms.specs.Bytes.{AreBytes};
ghost use Rattle.lmem_raw.specs.Bytes.{part, with_part};
ghost use Rattle.vm_file.specs.Device.{Counts, FailedOnce, Medium, NoneFails, Only, one_more};
ghost use Rattle.vm_file.specs.Noting.{Rests};
ghost use Rattle.vm_file.specs.Outcomes.{CausesDisk, ReadsOnly, WritesOnly};

use thiserror::Error;

/// The device failed.
#[derive(Clone, Copy, Debug, Drop, PartialEq, Eq, Error)]
#[error("disk")]
pub struct Disk;

/// Bytes of a fixed length that last. A stop, as of the machine, may lose what was written
/// since the last `sync`, in part or whole: what it leaves is an image, a list of bytes.
///
/// The clauses on images hold of a device that is honest: one that returns what was last
/// written to it. The others hold of every device. No device keeps a record of its calls: its
/// clauses only say which images a stop can't leave.
pub trait Device {
    /// The bytes that reads return, whether the device is honest, how often it has failed, what a stop leaves
    /// of it, and what one call of it may do. If nothing else is known of a device, only its calls show this.
    ghost medium: { Medium Self };

    /// The length in bytes. Reads return so many numbers below 256.
    fn len(&self) -> u64
        ensures length { result ≡ length (medium.image self.now) }
        ensures bytes { AreBytes (medium.image self.now) };

    /// How often a call has failed; at the greatest number it stays.
    fn failures(&self) -> u64
        ensures { result ≡ medium.failed self.now };

    /// Reads the bytes from an offset on. `Disk` if the device fails, as
    /// it does past its length; then the contents of `into` are unknown.
    fn read_at(&mut self, at: u64, into: &mut [u8]) -> Result<(), Disk>
        ensures within { OnOk result (at + length into.old ≤ length (medium.image self.old)) }
        ensures bytes { medium.honest self.old → OnOk result (into.new ≡ part (medium.image self.old) at (length into.old)) }
        ensures reads { ReadsOnly medium self.old self.new }
        ensures cause { Counts (medium.failed self.old) (medium.failed self.new) result }
        ensures call { medium.reads self.old at into.new result self.new };

    /// Writes bytes from an offset on. `Disk` if the device fails, as it does past its
    /// length: then that range may have any bytes, and the others stay. They last after a
    /// `sync` has succeeded; a stop before that may leave any bytes in the range.
    fn write_at(&mut self, at: u64, bytes: &[u8]) -> Result<(), Disk>
        ensures within { OnOk result (at + length bytes.now ≤ length (medium.image self.old)) }
        ensures written { medium.honest self.old → OnOk result (medium.image self.new ≡ with_part (medium.image self.old) at bytes.now) }
        ensures writes { WritesOnly medium at (length bytes.now) self.old self.new }
        ensures cause { Counts (medium.failed self.old) (medium.failed self.new) result }
        ensures call { medium.writes self.old at bytes.now result self.new };

    /// Makes durable what was written: after it a stop leaves what reads return. `Disk` if the device fails.
    fn sync(&mut self) -> Result<(), Disk>
        ensures durable { medium.honest self.old → OnOk result (Only (medium.image self.new) (medium.may_leave self.new)) }
        ensures reads { ReadsOnly medium self.old self.new }
        ensures cause { Counts (medium.failed self.old) (medium.failed self.new) result }
        ensures call { medium.syncs self.old result self.new };

    /// A stop may leave what reads return.
    ghost reads_now: { (d : Self) → medium.may_leave d (medium.image d) };

    /// In no time a stop may leave what it may leave now.
    ghost at_once: { (d : Self) (c : List ℕ) → medium.may_have_left d d c → medium.may_leave d c };

    /// What a stop now may leave, a stop at some moment up to now may have left.
    ghost by_now: { (s d : Self) (c : List ℕ) → medium.may_leave d c → medium.may_have_left s d c };
}

/// A device that notes its calls, for another to perform them on bytes that last.
pub trait Noting: Device {
    /// What is noted before and after it was performed.
    ghost settles: { Self → Self → Type 0 };

    /// Takes it that all calls that are noted were performed, and that what they wrote lasts. Nothing is noted from then on.
    fn settle(&mut self)
        ensures rests { Rests Self.medium self.old self.new }
        ensures failed { Self.medium.failed self.new ≡ Self.medium.failed self.old }
        ensures settled { settles self.old self.new };
}

/// One failure more; at the greatest number the count stays.
pub(crate) fn count_failure(failures: &mut u64)
    ensures { failures.new ≡ one_more failures.old }
{
    *failures = failures.saturating_add(1);
}

/// Writes bytes from an offset on, and makes them last.
pub(crate) fn write_durably<D: Device>(device: &mut D, at: u64, bytes: &[u8]) -> Result<(), Disk>
    ensures within { OnOk result (at + length bytes.now ≤ length (D.medium.image device.old)) }
    ensures written { D.medium.honest device.old → OnOk result (D.medium.image device.new ≡ with_part (D.medium.image device.old) at bytes.now) }
    ensures durable { D.medium.honest device.old → OnOk result (Only (D.medium.image device.new) (D.medium.may_leave device.new)) }
    ensures writes { WritesOnly D.medium at (length bytes.now) device.old device.new }
    ensures cause { CausesDisk (D.medium.failed device.old) (D.medium.failed device.new) result }
    ensures once { FailedOnce (D.medium.failed device.old) (D.medium.failed device.new) }
    ensures steady { at + length bytes.now ≤ length (D.medium.image device.old) → NoneFails D.medium device.old device.new }
{
    match device.write_at(at, bytes) {
        Ok(()) => device.sync(),
        Err(Disk) => Err(Disk),
    }
}
