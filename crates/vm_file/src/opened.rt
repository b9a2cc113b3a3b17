//! What is read of a device when a file is opened.
ghost use Rattle.std.specs.Prelude.{◌≡◌, ◌+◌, ◌-◌, ◌<◌, ◌≤◌, ◌^◌, true, length, take, Err, IfOk, OnOk};
ghost use Rattle.lmem_raw.specs.Bytes.{part};
ghost use Rattle.vm_file.specs.Device.{Only};
ghost use Rattle.vm_file.specs.Directories.{directory_length, is_directory};
ghost use Rattle.vm_file.specs.Opening.{IsOpened, listed_file, listed_pair};
ghost use Rattle.vm_file.specs.Outcomes.{BeginsWithSync, Causes, ReadsOnly, Tells};
ghost use Rattle.vm_file.specs.Reading.{base_of, file_at, header_at, is_area, pair_at, selector_at};

use crate::device::{Device, Disk};
use crate::directory::Directory;
use crate::entries::directory_length;
use crate::error::OpenError;
use crate::fields::header_at;
use crate::reader::{fill, read_directory};
use geos_terms::MOST_BLOCK_BYTES;
use std::alloc::Global;

/// The file on a device: its area size, whether the second area
/// is selected, and the two directories of the selected area.
#[derive(Drop)]
pub(crate) struct Opened {
    pub(crate) area: u32,
    pub(crate) second: bool,
    pub(crate) current: Directory,
    pub(crate) saved: Directory,
}

/// The offset at which an area begins.
pub(crate) fn base_of(area: u32, second: bool) -> u64
    ensures exact { result ≡ base_of area second }
    ensures small { result ≤ 1024 + area }
{
    if second { 1024 + u64::from(area) } else { 1024 }
}

/// Reads the header, and answers the area size.
fn read_header<D: Device>(device: &mut D) -> Result<u32, OpenError>
    ensures exact { D.medium.honest device.old → Tells (λ n. n) result (header_at (take 512 (D.medium.image device.old))) }
    ensures legal { IfOk result (λ n. (is_area n ≡ true) × (n ≤ 16777216)) }
    ensures reads { ReadsOnly D.medium device.old device.new }
    ensures cause { Causes (D.medium.failed device.old) (D.medium.failed device.new) result }
{
    let end = device.len().min(512);
    let mut header = [0u8; 512];
    let n = match fill(device, 0, end, &mut header) {
        Ok(n) => n,
        Err(Disk) => return Err(OpenError::Disk),
    };
    match header_at(&header[..n]) {
        Ok(area) => Ok(area),
        Err(fault) => Err(OpenError::BadFile(fault)),
    }
}

/// Reads the selector.
fn read_selector<D: Device>(device: &mut D) -> Result<u8, OpenError>
    ensures exact { D.medium.honest device.old → Tells (λ n. n) result (selector_at (D.medium.image device.old)) }
    ensures reads { ReadsOnly D.medium device.old device.new }
    ensures cause { Causes (D.medium.failed device.old) (D.medium.failed device.new) result }
{
    if device.len() <= 512 {
        return Err(OpenError::BadFile(512));
    }
    let mut selector = [0u8; 1];
    match device.read_at(512, &mut selector) {
        Ok(()) => Ok(selector[0]),
        Err(Disk) => Err(OpenError::Disk),
    }
}

/// Reads the current and the saved directory from `base` on, through a buffer of one block.
fn read_pair<D: Device>(
    alloc: Global,
    device: &mut D,
    base: u64,
    end: u64,
) -> Result<(Directory, Directory), OpenError>
    requires range { (base ≤ end) × (end < 2 ^ 29) }
    requires within { end ≤ length (D.medium.image device.old) }
    ensures exact { D.medium.honest device.old → Tells listed_pair result (pair_at base (part (D.medium.image device.old) base (end - base))) }
    ensures legal { IfOk result
        (λ p. (is_directory p.0 ≡ true) × (is_directory p.1 ≡ true) × (base + (directory_length p.0 + directory_length p.1) ≤ end)) }
    ensures reads { ReadsOnly D.medium device.old device.new }
    ensures cause { Causes (D.medium.failed device.old) (D.medium.failed device.new) result }
{
    let mut buffer = match Vec::from_elem(alloc, 0u8, MOST_BLOCK_BYTES) {
        Ok(buffer) => buffer,
        Err(_) => return Err(OpenError::Memory),
    };
    let current = match read_directory(device, base, end, &mut buffer) {
        Ok(current) => current,
        Err(error) => return Err(error),
    };
    let next = base + u64::from(directory_length(&current));
    match read_directory(device, next, end, &mut buffer) {
        Ok(saved) => Ok((current, saved)),
        Err(error) => Err(error),
    }
}

/// Reads the file on a device.
fn read_parts<D: Device>(alloc: Global, device: &mut D) -> Result<Opened, OpenError>
    ensures exact { D.medium.honest device.old → Tells listed_file result (file_at (D.medium.image device.old)) }
    ensures legal { IfOk result (λ f. IsOpened f (length (D.medium.image device.old))) }
    ensures reads { ReadsOnly D.medium device.old device.new }
    ensures cause { Causes (D.medium.failed device.old) (D.medium.failed device.new) result }
{
    let area = match read_header(device) {
        Ok(area) => area,
        Err(error) => return Err(error),
    };
    let selector = match read_selector(device) {
        Ok(selector) => selector,
        Err(error) => return Err(error),
    };
    let second = selector % 2 == 1;
    let base = base_of(area, second);
    let len = device.len();
    if len < base {
        return Err(OpenError::BadFile(base));
    }
    let end = len.min(base + u64::from(area));
    match read_pair(alloc, device, base, end) {
        Ok((current, saved)) => Ok(Opened {
            area,
            second,
            current,
            saved,
        }),
        Err(error) => Err(error),
    }
}

/// Reads the file on a device. It begins with a `sync`, so that a stop from then on leaves what was read.
pub(crate) fn read_file<D: Device>(alloc: Global, device: &mut D) -> Result<Opened, OpenError>
    ensures exact { D.medium.honest device.old → Tells listed_file result (file_at (D.medium.image device.old)) }
    ensures legal { IfOk result (λ f. IsOpened f (length (D.medium.image device.old))) }
    ensures durable { D.medium.honest device.old → OnOk result (Only (D.medium.image device.new) (D.medium.may_leave device.new)) }
    ensures begins { BeginsWithSync D.medium (result ≡ Err OpenError.Disk) device.old device.new }
    ensures reads { ReadsOnly D.medium device.old device.new }
    ensures cause { Causes (D.medium.failed device.old) (D.medium.failed device.new) result }
{
    match device.sync() {
        Ok(()) => read_parts(alloc, device),
        Err(Disk) => Err(OpenError::Disk),
    }
}
