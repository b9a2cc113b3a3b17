//! Writes that leave out what the device has already.
ghost use Rattle.std.specs.Prelude.{◌≡◌, ◌+◌, ◌-◌, ◌<◌, ◌≤◌, ◌^◌, ◌↔◌, length, take, drop, IfOk, IsTrue, OnErr, OnOk};
ghost use Rattle.lmem_raw.specs.Bytes.{part, with_part};
ghost use Rattle.vm_file.specs.Device.{FailedOnce, NoneFails, Only, Rose};
ghost use Rattle.vm_file.specs.Outcomes.{CausesDisk, ReadsToFailure, WritesOnly};

use crate::device::{Device, Disk, write_durably};

/// How many bytes are read at a time and compared.
const PIECE: usize = 16_384;

/// How many bytes are compared at least: fewer are sooner written than read.
const LEAST_COMPARED: usize = 65_536;

/// Whether the device has these bytes from an offset on. It reads them into a buffer.
fn stands<D: Device>(device: &mut D, at: u64, bytes: &[u8], buffer: &mut [u8]) -> Result<bool, Disk>
    requires room { length bytes.now ≤ length buffer.old }
    requires within { at + length bytes.now ≤ length (D.medium.image device.old) }
    ensures long { length buffer.new ≡ length buffer.old }
    ensures exact { D.medium.honest device.old
        → IfOk result (λ same. IsTrue same ↔ part (D.medium.image device.old) at (length bytes.now) ≡ bytes.now) }
    ensures read { ReadsToFailure D.medium device.old device.new result }
    ensures cause { OnErr result (Rose (D.medium.failed device.old) (D.medium.failed device.new)) }
{
    let found = &mut buffer[..bytes.len()];
    match device.read_at(at, found) {
        Ok(()) => Ok(*found == *bytes),
        Err(Disk) => Err(Disk),
    }
}

/// How many of the first bytes the device has from an offset on, in whole pieces.
fn front_that_stands<D: Device>(device: &mut D, at: u64, bytes: &[u8]) -> Result<usize, Disk>
    requires range { at + length bytes.now < 2 ^ 34 }
    requires within { at + length bytes.now ≤ length (D.medium.image device.old) }
    ensures bound { IfOk result (λ n. n ≤ length bytes.now) }
    ensures stands { D.medium.honest device.old → IfOk result (λ n. part (D.medium.image device.old) at n ≡ take n bytes.now) }
    ensures read { ReadsToFailure D.medium device.old device.new result }
    ensures cause { OnErr result (Rose (D.medium.failed device.old) (D.medium.failed device.new)) }
{
    let mut buffer = [0u8; PIECE];
    let mut n = 0;
    while n < bytes.len() {
        let end = bytes.len().min(n + PIECE);
        match stands(device, at + n as u64, &bytes[n..end], &mut buffer) {
            Ok(true) => n = end,
            Ok(false) => return Ok(n),
            Err(Disk) => return Err(Disk),
        }
    }
    Ok(n)
}

/// The start of the last bytes that the device has already, in whole pieces.
fn end_of_change<D: Device>(device: &mut D, at: u64, bytes: &[u8]) -> Result<usize, Disk>
    requires range { at + length bytes.now < 2 ^ 34 }
    requires within { at + length bytes.now ≤ length (D.medium.image device.old) }
    ensures bound { IfOk result (λ n. n ≤ length bytes.now) }
    ensures stands { D.medium.honest device.old
        → IfOk result (λ n. part (D.medium.image device.old) (at + n) (length bytes.now - n) ≡ drop n bytes.now) }
    ensures read { ReadsToFailure D.medium device.old device.new result }
    ensures cause { OnErr result (Rose (D.medium.failed device.old) (D.medium.failed device.new)) }
{
    let mut buffer = [0u8; PIECE];
    let mut n = bytes.len();
    while n > 0 {
        let start = n - n.min(PIECE);
        match stands(device, at + start as u64, &bytes[start..n], &mut buffer) {
            Ok(true) => n = start,
            Ok(false) => return Ok(n),
            Err(Disk) => return Err(Disk),
        }
    }
    Ok(n)
}

/// Writes bytes from an offset on, and makes them last. It reads the device from both ends to the first piece that differs, and writes
/// only the bytes between.
fn write_changes<D: Device>(device: &mut D, at: u64, bytes: &[u8]) -> Result<(), Disk>
    requires range { at + length bytes.now < 2 ^ 34 }
    requires within { at + length bytes.now ≤ length (D.medium.image device.old) }
    ensures written { D.medium.honest device.old → OnOk result (D.medium.image device.new ≡ with_part (D.medium.image device.old) at bytes.now) }
    ensures durable { D.medium.honest device.old → OnOk result (Only (D.medium.image device.new) (D.medium.may_leave device.new)) }
    ensures writes { WritesOnly D.medium at (length bytes.now) device.old device.new }
    ensures cause { CausesDisk (D.medium.failed device.old) (D.medium.failed device.new) result }
    ensures once { FailedOnce (D.medium.failed device.old) (D.medium.failed device.new) }
    ensures steady { NoneFails D.medium device.old device.new }
{
    let from = match front_that_stands(device, at, bytes) {
        Ok(from) => from,
        Err(Disk) => return Err(Disk),
    };
    let base = at + from as u64;
    let rest = &bytes[from..];
    let n = match end_of_change(device, base, rest) {
        Ok(n) => n,
        Err(Disk) => return Err(Disk),
    };
    write_durably(device, base, &rest[..n])
}

/// Writes bytes from an offset on, and makes them durable. If the contents of the device there are known, and there
/// are many bytes, it first reads the bytes at both ends, and does not write those that the device has already.
pub(crate) fn write_area<D: Device>(
    device: &mut D,
    at: u64,
    bytes: &[u8],
    known: bool,
) -> Result<(), Disk>
    requires range { at + length bytes.now < 2 ^ 34 }
    ensures within { OnOk result (at + length bytes.now ≤ length (D.medium.image device.old)) }
    ensures written { D.medium.honest device.old → OnOk result (D.medium.image device.new ≡ with_part (D.medium.image device.old) at bytes.now) }
    ensures durable { D.medium.honest device.old → OnOk result (Only (D.medium.image device.new) (D.medium.may_leave device.new)) }
    ensures writes { WritesOnly D.medium at (length bytes.now) device.old device.new }
    ensures cause { CausesDisk (D.medium.failed device.old) (D.medium.failed device.new) result }
    ensures once { FailedOnce (D.medium.failed device.old) (D.medium.failed device.new) }
    ensures steady { at + length bytes.now ≤ length (D.medium.image device.old) → NoneFails D.medium device.old device.new }
{
    if known && bytes.len() >= LEAST_COMPARED && at + bytes.len() as u64 <= device.len() {
        write_changes(device, at, bytes)
    } else {
        write_durably(device, at, bytes)
    }
}
