//! VM files of the system: they are made, and opened under their lock.

ghost use Rattle.std.specs.Prelude.{◌≡◌, ◌+◌, ◌*◌, IfOk, true};
ghost use Rattle.geos_shell.specs.Limits.{IsArea};
ghost use Rattle.vm_file.specs.DiskFile.{len_of};

use crate::fault::FileFault;
use geos_shell::{FileLock, Lockable, NewFile, Reason, Sharing, StreamFault};
use std::fs::File;
use vm_file::{Disk, FileDevice, VmFile, device_length};

/// A device for a VM file with areas of so many bytes, on a file that is empty so far.
pub(crate) fn sized<'a>(path: &'a str, file: File, area: u32) -> Result<FileDevice, StreamFault<'a>>
    ensures { IfOk result (λ device. len_of device ≡ 1024 + 2 * area) }
{
    match FileDevice::of_length(file, device_length(area)) {
        Ok(device) => Ok(device),
        Err(Disk) => Err(StreamFault::Write(path, Reason::OTHER)),
    }
}

/// Writes a VM file with areas of so many bytes into a file that is empty so far.
fn fill_new<'a>(rt: &HostRuntime, path: &'a str, file: File, area: u32) -> Result<(), FileFault<'a>>
    requires { IsArea area }
{
    let device = sized(path, file, area)?;
    match VmFile::create(rt.alloc(), device, area) {
        Ok(_file) => Ok(()),
        Err((_device, error)) => Err(FileFault::Create(error)),
    }
}

/// Gives a new file its path if it was filled, and otherwise removes it.
pub(crate) fn finished<'a>(
    rt: &HostRuntime,
    new: NewFile<'a>,
    filled: Result<(), FileFault<'a>>,
) -> Result<(), FileFault<'a>> {
    match filled {
        Ok(()) => Ok(new.finish(rt)?),
        Err(fault) => {
            new.discard(rt);
            Err(fault)
        }
    }
}

/// Makes a VM file with areas of `area` bytes. A file that is already at the path stays as it is. If no file is made, nothing is left at
/// the path. Nobody finds a part of a file there meanwhile.
///
/// `FileFault::Stream` if the path cannot be written, `FileFault::Create` if the file cannot be filled.
pub fn make_file<'a>(rt: &HostRuntime, path: &'a str, area: u32) -> Result<(), FileFault<'a>>
    requires { IsArea area }
{
    let new = NewFile::begin(rt, path)?;
    let filled = match new.file() {
        Ok(file) => fill_new(rt, path, file, area),
        Err(fault) => Err(FileFault::Stream(fault)),
    };
    finished(rt, new, filled)
}

/// A device on the file with a path, and the lock on it.
#[derive(Drop)]
pub struct Locked<'a> {
    /// The device.
    pub device: FileDevice,
    /// The lock.
    pub lock: FileLock<'a>,
}

/// Waits for the lock on the file, and returns it with a device on what the path leads to then. `StreamFault::Read` if the file cannot be
/// locked or its length not be read.
pub fn wait_for<'a>(rt: &HostRuntime, file: Lockable<'a>) -> Result<Locked<'a>, StreamFault<'a>> {
    let lock = file.wait(rt)?;
    match FileDevice::of(lock.file()?) {
        Ok(device) => Ok(Locked { device, lock }),
        Err(Disk) => Err(StreamFault::Read(lock.path(), Reason::OTHER)),
    }
}

/// Opens the file to read it, and waits for its lock, which others that read it share. The faults are those of `Lockable::open` and of
/// `wait_for`.
pub fn lock_to_read<'a>(rt: &HostRuntime, path: &'a str) -> Result<Locked<'a>, StreamFault<'a>> {
    wait_for(rt, Lockable::open(rt, path, Sharing::Shared)?)
}

/// Opens the VM file with the path, which a device holds. `FileFault::Open` if it holds none, or memory or the device fails.
pub fn opened<'a>(
    rt: &HostRuntime,
    path: &'a str,
    device: FileDevice,
) -> Result<VmFile<FileDevice>, FileFault<'a>>
    ensures { IfOk result (λ file. file.sure ≡ true) }
{
    match VmFile::open(rt.alloc(), device) {
        Ok(file) => Ok(file),
        Err((_device, error)) => Err(FileFault::Open(path, error)),
    }
}
