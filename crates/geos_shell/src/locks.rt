//! Locks on VM files, so that no two programs work on one at a time.

use crate::one_file::leads_to;
use crate::output::OUTPUT;
use crate::printable::Named;
use crate::reason::Reason;
use crate::streams::{STANDARD, StreamFault};
use std::fs::{self, File, OpenOptions, TryLockError};
use std::io::{self, ErrorKind, IsTerminal};
use std::thread;
use std::time::Duration;

/// Which other programs may lock the file at the same time.
#[derive(Clone, Copy)]
pub enum Sharing {
    /// Nobody.
    Alone,
    /// Others that share it.
    Shared,
}

/// A file that is open, whose lock may be waited for.
#[derive(Drop)]
pub struct Lockable<'a> {
    path: &'a str,
    sharing: Sharing,
    file: File,
}

/// A lock on a file, which is released when it and the other handles of the same open file are dropped. It excludes only programs that
/// request a lock.
#[derive(Drop)]
pub struct FileLock<'a> {
    path: &'a str,
    file: File,
}

/// How often a file is opened anew whose path leads to another one once its lock is had.
const MOST_REPLACED: u32 = 3;

/// Opens the file: for changes if no other program may lock it, otherwise for reading.
/// Only regular files: to open a pipe may wait for a program that writes into it.
fn opened(rt: &HostRuntime, path: &str, sharing: Sharing) -> io::Result<File> {
    if !fs::metadata(rt, path)?.is_file() {
        return Err(io::Error::from(ErrorKind::InvalidInput));
    }
    let mut how = OpenOptions::new();
    how.read(true).write(matches!(sharing, Sharing::Alone));
    how.open(rt, path)
}

/// The most tries to take the lock before the program reports that it waits: for a second.
const MOST_TRIES: u32 = 100;

/// The pause between two tries, in milliseconds.
const PAUSE: u64 = 10;

/// Takes the lock, unless another program has it.
fn tried(file: &File, sharing: Sharing) -> Result<(), TryLockError> {
    match sharing {
        Sharing::Alone => file.try_lock(),
        Sharing::Shared => file.try_lock_shared(),
    }
}

/// Takes the lock; `false` if another program has it at each of so many tries. On a system without locks nobody has it.
pub(crate) fn has_lock_within(rt: &HostRuntime, file: &File, sharing: Sharing, tries: u32) -> bool {
    for _ in 0..tries {
        if !matches!(tried(file, sharing), Err(TryLockError::WouldBlock)) {
            return true;
        }
        thread::sleep(rt, Duration::from_millis(PAUSE));
    }
    false
}

/// Waits until the file is locked. If this takes long, it reports the wait to a user at a terminal.
fn lock(rt: &HostRuntime, file: &File, path: &str, sharing: Sharing) -> io::Result<()> {
    if rt.stderr().is_terminal() && !has_lock_within(rt, file, sharing, MOST_TRIES) {
        let path = Named(path);
        let _ = eprintln!(rt; "waiting for {path}: another program works on it");
    }
    // It stays if it is had.
    match sharing {
        Sharing::Alone => file.lock(),
        Sharing::Shared => file.lock_shared(),
    }
}

/// Why the file with the path was not opened, or not locked.
fn fault<'a>(path: &'a str, error: &io::Error) -> StreamFault<'a> {
    match error.kind() {
        ErrorKind::OutOfMemory => StreamFault::Memory,
        _ => StreamFault::Read(path, Reason::of(error)),
    }
}

impl<'a> Lockable<'a> {
    /// Opens the file with the path, without its lock: for exclusive work, or to read it while other programs read it.
    /// `StreamFault::Read` if there is no such file, if it is a folder, a pipe, a device or a socket, or if it may not
    /// be read, or changed for exclusive work; `StreamFault::Write` of `-` if the standard output goes into it.
    pub fn open(
        rt: &HostRuntime,
        path: &'a str,
        sharing: Sharing,
    ) -> Result<Lockable<'a>, StreamFault<'a>> {
        match opened(rt, path, sharing) {
            Ok(file) if leads_to(rt, OUTPUT, &file) => Err(StreamFault::Write(
                STANDARD,
                Reason::IN_USE,
            )),
            Ok(file) => Ok(Lockable {
                path,
                sharing,
                file,
            }),
            Err(error) => Err(fault(path, &error)),
        }
    }

    /// Locks the file. If this takes long and standard error is a terminal, it reports the wait.
    fn locked(self, rt: &HostRuntime) -> Result<FileLock<'a>, StreamFault<'a>> {
        match lock(rt, &self.file, self.path, self.sharing) {
            Ok(()) => Ok(FileLock {
                path: self.path,
                file: self.file,
            }),
            Err(error) => Err(fault(self.path, &error)),
        }
    }

    /// Waits until the file is locked. If this takes long and standard error is a terminal, it reports the wait. If the
    /// path then leads to another file, as after a rename, it opens that file and waits for its lock instead, at most
    /// three times. `StreamFault::Read` if the system has no locks for the file, or if the path leads to another file
    /// each time; and the faults of `open`.
    pub fn wait(self, rt: &HostRuntime) -> Result<FileLock<'a>, StreamFault<'a>> {
        let path = self.path;
        let sharing = self.sharing;
        let mut lockable = self;
        for _ in 0..=MOST_REPLACED {
            let lock = lockable.locked(rt)?;
            if leads_to(rt, path, &lock.file) {
                return Ok(lock);
            }
            // Its lock is let go first, since another may wait for it who has the next.
            drop(lock);
            lockable = Lockable::open(rt, path, sharing)?;
        }
        Err(StreamFault::Read(path, Reason::IN_USE))
    }
}

impl<'a> FileLock<'a> {
    /// The path that leads to it.
    pub fn path(&self) -> &'a str {
        self.path
    }

    /// The open file, once more.
    pub fn file(&self) -> Result<File, StreamFault<'a>> {
        match self.file.try_clone() {
            Ok(file) => Ok(file),
            Err(error) => Err(fault(self.path, &error)),
        }
    }
}
