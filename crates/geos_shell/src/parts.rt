//! Files that are made under a name of their own, until they are whole.

use crate::locks::{Sharing, has_lock_within};
use crate::one_file::{are_one_file, names};
use std::alloc::{AllocError, Global};
use std::fs::{self, File, OpenOptions};
use std::io::{self, ErrorKind};
use std::os::unix::fs::{MetadataExt, OpenOptionsExt};

/// How many names a part may have in one folder.
const MOST_NAMES: u32 = 100;

/// How many names of parts are searched for files that stopped runs have left. There is
/// more than one such file only if runs were stopped that worked in one folder at once.
const LOOKED_THROUGH: u32 = 16;

/// The most tries to take the lock on a new part.
const MOST_TRIES: u32 = 5;

/// A file that is being made in the folder of the one that it becomes, under a name that no other program uses. It is locked while it
/// is worked on. So one that nobody has locked was left by a run that was stopped, and the next run in the folder removes it.
#[derive(Drop)]
pub(crate) struct Part {
    pub(crate) name: String,
    pub(crate) file: File,
    folder: File,
}

/// The folder of a path.
fn folder_of(path: &str) -> &str {
    match path.rsplit_once('/') {
        Some(("", _)) => "/",
        Some((folder, _)) => folder,
        None => ".",
    }
}

/// The name of a part in a folder.
fn part_name(alloc: Global, folder: &str, n: u32) -> Result<String, AllocError> {
    format!(in alloc; "{folder}/.geos-part-{n}")
}

/// Whether the open file, which was made under the name, has a name still. Not every file system counts the names of a file.
fn has_name(rt: &HostRuntime, name: &str, file: &File) -> io::Result<bool> {
    Ok(file.metadata()?.nlink() > 0 || names(rt, name, file))
}

/// Removes the file of the name, if the system lets it be.
fn remove(rt: &HostRuntime, name: &str) {
    // If it can't be removed, the next run removes it.
    let _ = fs::remove_file(rt, name);
}

/// The file, which was made under the name, if this run can use it. Another run may have taken it for one that was left, before it was
/// locked, and removed it. A file that is not used is removed.
fn own(rt: &HostRuntime, name: &str, file: File) -> io::Result<Option<File>> {
    // A run that removes the file has its lock for a moment.
    let is_locked = has_lock_within(rt, &file, Sharing::Alone, MOST_TRIES);
    match has_name(rt, name, &file) {
        Ok(true) if is_locked => Ok(Some(file)),
        Ok(true) => {
            remove(rt, name);
            Ok(None)
        }
        Ok(false) => Ok(None),
        Err(error) => {
            remove(rt, name);
            Err(error)
        }
    }
}

/// Makes a file under the name, where there is none of that name.
fn made(rt: &HostRuntime, name: &str, mode: u32) -> io::Result<Option<File>> {
    let mut how = OpenOptions::new();
    how.read(true).write(true).create_new(true).mode(mode);
    match how.open(rt, name) {
        Ok(file) => own(rt, name, file),
        Err(error) if error.kind() == ErrorKind::AlreadyExists => Ok(None),
        Err(error) => Err(error),
    }
}

/// Removes the file with this name if a stopped run has left
/// it, and if it is not the file that the path `kept` leads to.
fn remove_left(rt: &HostRuntime, name: &str, kept: &str) {
    if !matches!(fs::symlink_metadata(rt, name), Ok(found) if found.is_file())
        || are_one_file(rt, name, kept)
    {
        return;
    }
    if let Ok(file) = File::open(rt, name)
        && file.try_lock().is_ok()
        && names(rt, name, &file)
    {
        remove(rt, name);
    }
}

/// Removes what stopped runs have left in the folder.
fn remove_all_left(rt: &HostRuntime, folder: &str, kept: &str) {
    for n in 0..LOOKED_THROUGH {
        if let Ok(name) = part_name(rt.alloc(), folder, n) {
            remove_left(rt, &name, kept);
        }
    }
}

/// Gives the file the path, if nothing has that: by a link, which replaces nothing, or on a file system without links by a rename.
/// `true` if it has its own name too then.
fn take_free(rt: &HostRuntime, part: &str, path: &str) -> io::Result<bool> {
    match fs::hard_link(rt, part, path) {
        Ok(()) => Ok(true),
        Err(error) if error.kind() == ErrorKind::AlreadyExists => Err(error),
        Err(_) => {
            rename_to_free(rt, part, path)?;
            Ok(false)
        }
    }
}

/// Gives the file the path by a rename. An empty file takes the path first, since a rename would replace one that has come meanwhile.
fn rename_to_free(rt: &HostRuntime, part: &str, path: &str) -> io::Result<()> {
    File::create_new(rt, path)?;
    let renamed = fs::rename(rt, part, path);
    if renamed.is_err() {
        remove(rt, path);
    }
    renamed
}

impl Part {
    /// Makes an empty part in the folder of the path, with the permissions but those that the user's mask takes away. What stopped runs
    /// have left there is removed first, except for the file that the path `kept` leads to; what can't be removed is left. An error also
    /// if the folder can't be read, since it can't be synced then.
    pub(crate) fn beside(rt: &HostRuntime, path: &str, mode: u32, kept: &str) -> io::Result<Part> {
        let folder = folder_of(path);
        remove_all_left(rt, folder, kept);
        for n in 0..MOST_NAMES {
            let name = part_name(rt.alloc(), folder, n)?;
            if let Some(file) = made(rt, &name, mode)? {
                return Part::new(rt, name, file, folder);
            }
        }
        Err(io::Error::from(ErrorKind::AlreadyExists))
    }

    /// A part with the name and the file, in the folder.
    fn new(rt: &HostRuntime, name: String, file: File, folder: &str) -> io::Result<Part> {
        match File::open(rt, folder) {
            Ok(folder) => Ok(Part { name, file, folder }),
            Err(error) => {
                remove(rt, &name);
                Err(error)
            }
        }
    }

    /// Gives it the path, which lasts then, if nothing has that. It is locked until the path lasts. `false` if the file has its own name
    /// too, which can't be removed. If the system refuses, the part is removed; if the folder can't be synced, the path is.
    pub(crate) fn give_path(&self, rt: &HostRuntime, path: &str) -> io::Result<bool> {
        match take_free(rt, &self.name, path) {
            Ok(has_two_names) => {
                if has_two_names && fs::remove_file(rt, &self.name).is_err() {
                    return Ok(false);
                }
            }
            Err(error) => {
                self.discard(rt);
                return Err(error);
            }
        }
        match self.folder.sync_all() {
            Ok(()) => Ok(true),
            Err(error) => {
                remove(rt, path);
                Err(error)
            }
        }
    }

    /// Gives it the path in the place of the file that has that, and lasts there then. If the system refuses, the part is removed. After
    /// an error of the last step, the sync of the folder, it has the path all the same.
    pub(crate) fn replace(&self, rt: &HostRuntime, path: &str) -> io::Result<()> {
        match fs::rename(rt, &self.name, path) {
            Ok(()) => self.folder.sync_all(),
            Err(error) => {
                self.discard(rt);
                Err(error)
            }
        }
    }

    /// Removes it: it does not become a file.
    pub(crate) fn discard(&self, rt: &HostRuntime) {
        remove(rt, &self.name);
    }
}
