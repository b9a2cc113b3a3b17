//! A device on a file of the system.
ghost use Rattle.std.specs.Prelude.{◌≡◌, ◌+◌, ◌≤◌, true, false, length, IsTrue, IfOk, OnErr, OnOk};
ghost use Rattle.vm_file.specs.Device.{Counts};
ghost use Rattle.vm_file.specs.Outcomes.{ReadsOnly, WritesOnly};

use crate::device::{Device, Disk, count_failure};
use std::alloc::Global;
use std::fs::{self, File, OpenOptions};
use std::io;
use std::os::unix::fs::FileExt;
use std::rt::Files;

/// A device on a file of the system: positioned reads and writes, and `sync_data`. No clause
/// can say what such a file gives, so the clauses on images say nothing of it; tests show
/// them.
///
/// A system may report once that written bytes did not reach the disk, and then answer as if
/// they had. So after a `sync` that failed each one fails, until something is written again.
#[derive(Drop)]
pub struct FileDevice {
    file: File,
    len: u64,
    failures: u64,
    may_lack: bool,
}

impl From<io::Error> for Disk {
    fn from(_: io::Error) -> Disk {
        Disk
    }
}

impl FileDevice {
    ghost use Rattle.vm_file.specs.DiskFile.{failures_of, len_of, may_lack};

    /// Makes a durable file of so many zero bytes, with a durable entry in the folder. `Disk` if the system refuses, as
    /// it does if the path exists already: that file is not touched. If a later step fails, it removes the file that it
    /// made, if the system lets it.
    pub fn create<R: Files<File = File>>(
        rt: &R,
        _alloc: Global,
        path: &str,
        len: u64,
    ) -> Result<FileDevice, Disk>
        ensures len { IfOk result (λ device. len_of device ≡ len) }
        ensures failures { IfOk result (λ device. failures_of device ≡ 0) }
        ensures may_lack { IfOk result (λ device. may_lack device ≡ false) }
    {
        let mut how = OpenOptions::new();
        how.read(true).write(true).create_new(true);
        let file = how.open(rt, path)?;
        if make_last(rt, &file, path, len).is_err() {
            let _ = fs::remove_file(rt, path);
            return Err(Disk);
        }
        Ok(FileDevice::new(file, len))
    }

    /// Opens a file that is there, to read and to write. `Disk` if the system refuses, as
    /// for a path that is missing or a folder.
    pub fn open<R: Files<File = File>>(
        rt: &R,
        _alloc: Global,
        path: &str,
    ) -> Result<FileDevice, Disk>
        ensures failures { IfOk result (λ device. failures_of device ≡ 0) }
        ensures may_lack { IfOk result (λ device. may_lack device ≡ false) }
    {
        let mut how = OpenOptions::new();
        how.read(true).write(true);
        let file = how.open(rt, path)?;
        FileDevice::of(file)
    }

    /// Opens an existing file only to read: each write of it fails. `Disk` if the system refuses,
    /// as for a path that is missing.
    pub fn open_read_only<R: Files<File = File>>(
        rt: &R,
        _alloc: Global,
        path: &str,
    ) -> Result<FileDevice, Disk>
        ensures failures { IfOk result (λ device. failures_of device ≡ 0) }
        ensures may_lack { IfOk result (λ device. may_lack device ≡ false) }
    {
        let file = File::open(rt, path)?;
        FileDevice::of(file)
    }

    /// A device on an open file of this length.
    fn new(file: File, len: u64) -> FileDevice
        ensures len { len_of result ≡ len }
        ensures failures { failures_of result ≡ 0 }
        ensures may_lack { may_lack result ≡ false }
    {
        FileDevice {
            file,
            len,
            failures: 0,
            may_lack: false,
        }
    }

    /// A device on an open file, with the length that the system reports. `Disk` if it reports none.
    pub fn of(file: File) -> Result<FileDevice, Disk>
        ensures failures { IfOk result (λ device. failures_of device ≡ 0) }
        ensures may_lack { IfOk result (λ device. may_lack device ≡ false) }
    {
        let len = file.metadata()?.len();
        Ok(FileDevice::new(file, len))
    }

    /// A device on an open file, which is extended by zeros to this length. `Disk` if the system refuses.
    pub fn of_length(file: File, len: u64) -> Result<FileDevice, Disk>
        ensures len { IfOk result (λ device. len_of device ≡ len) }
        ensures failures { IfOk result (λ device. failures_of device ≡ 0) }
        ensures may_lack { IfOk result (λ device. may_lack device ≡ false) }
    {
        file.set_len(len)?;
        Ok(FileDevice::new(file, len))
    }

    /// Whether a range lies within the length.
    fn has(&self, at: u64, n: usize) -> bool
        ensures { IsTrue result → at + n ≤ len_of self.now }
    {
        n as u64 <= self.len && at <= self.len - n as u64
    }
}

/// Sets the length of a new file, and makes the file and its name durable.
fn make_last<R: Files<File = File>>(rt: &R, file: &File, path: &str, len: u64) -> io::Result<()> {
    file.set_len(len)?;
    file.sync_all()?;
    File::open(rt, folder_of(path))?.sync_all()
}

/// The folder whose entry names a file.
fn folder_of(path: &str) -> &str {
    match path.rsplit_once('/') {
        Some(("", _)) => "/",
        Some((folder, _)) => folder,
        None => ".",
    }
}

/// What the system answered; a failure is counted.
fn counted(failures: &mut u64, outcome: io::Result<()>) -> Result<(), Disk>
    ensures { Counts failures.old failures.new result }
{
    match outcome {
        Ok(()) => Ok(()),
        Err(_) => {
            count_failure(failures);
            Err(Disk)
        }
    }
}

impl Device for FileDevice {
    ghost use Rattle.vm_file.specs.DiskFile.{Reads, Syncs, Writes, bytes_of, failures_of, may_lack, medium};

    ghost medium = { medium };

    fn len(&self) -> u64 {
        self.len
    }

    fn failures(&self) -> u64 {
        self.failures
    }

    /// Reads the bytes from an offset on. `Disk` past the length, or if the system refuses.
    fn read_at(&mut self, at: u64, into: &mut [u8]) -> Result<(), Disk>
        ensures within { OnOk result (at + length into.old ≤ length (bytes_of self.old)) }
        ensures reads { ReadsOnly medium self.old self.new }
        ensures cause { Counts (failures_of self.old) (failures_of self.new) result }
        ensures may_lack { may_lack self.new ≡ may_lack self.old }
        ensures call { Reads self.old at into.new result self.new }
    {
        if !self.has(at, into.len()) {
            count_failure(&mut self.failures);
            return Err(Disk);
        }
        counted(&mut self.failures, self.file.read_exact_at(into, at))
    }

    /// Writes bytes from an offset on. `Disk` past the length, or if the system refuses.
    fn write_at(&mut self, at: u64, bytes: &[u8]) -> Result<(), Disk>
        ensures within { OnOk result (at + length bytes.now ≤ length (bytes_of self.old)) }
        ensures writes { WritesOnly medium at (length bytes.now) self.old self.new }
        ensures cause { Counts (failures_of self.old) (failures_of self.new) result }
        ensures written { OnOk result (may_lack self.new ≡ false) }
        ensures refused { OnErr result (may_lack self.new ≡ may_lack self.old) }
        ensures call { Writes self.old at bytes.now result self.new }
    {
        if !self.has(at, bytes.len()) {
            count_failure(&mut self.failures);
            return Err(Disk);
        }
        counted(&mut self.failures, self.file.write_all_at(bytes, at))?;
        self.may_lack = false;
        Ok(())
    }

    /// Makes last what was written. `Disk` if the system refuses, and from then on until
    /// something is written.
    fn sync(&mut self) -> Result<(), Disk>
        ensures reads { ReadsOnly medium self.old self.new }
        ensures cause { Counts (failures_of self.old) (failures_of self.new) result }
        ensures lacking { may_lack self.old ≡ true → OnOk result ⊥ }
        ensures synced { OnOk result (may_lack self.new ≡ false) }
        ensures refused { OnErr result (may_lack self.new ≡ true) }
        ensures call { Syncs self.old result self.new }
    {
        if self.may_lack {
            count_failure(&mut self.failures);
            return Err(Disk);
        }
        match counted(&mut self.failures, self.file.sync_data()) {
            Ok(()) => Ok(()),
            Err(Disk) => {
                self.may_lack = true;
                Err(Disk)
            }
        }
    }

    ghost reads_now = { λ d. tt };

    ghost at_once = { λ d c h. h };

    ghost by_now = { λ s d c h. h };
}
