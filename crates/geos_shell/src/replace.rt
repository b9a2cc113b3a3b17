//! A file that is replaced whole, or left as it was.

use crate::kept::is_kept;
use crate::one_file::are_one_file;
use crate::output::{FAULTS, OUTPUT};
use crate::parts::Part;
use crate::streams::put;
use std::fs::{self, File, Metadata, Permissions};
use std::io::{self, ErrorKind, Write};
use std::os::unix::fs::{MetadataExt, PermissionsExt, fchown};
use std::path::PathBuf;

/// The most links that are followed from one to the next, as many as the system follows.
const MOST_LINKS: u32 = 40;

/// Whether the system says that a path names no link: a file, a folder, or nothing that is there.
fn is_of_no_link(error: &io::Error) -> bool {
    matches!(error.kind(), ErrorKind::InvalidInput | ErrorKind::NotFound)
}

/// The path after all links, possibly of a file that does not exist. An error if the system
/// does not resolve the links, because a link might otherwise be replaced instead of its file.
fn behind_links(rt: &HostRuntime, path: &str) -> io::Result<PathBuf> {
    let mut path = PathBuf::from_str(rt.alloc(), path)?;
    // After the last link one more call confirms that there is no further link.
    for _ in 0..=MOST_LINKS {
        match fs::read_link(rt, path.as_path()) {
            Ok(target) => {
                path.pop();
                path.push(target.as_path())?;
            }
            Err(error) if is_of_no_link(&error) => return Ok(path),
            Err(error) => return Err(error),
        }
    }
    Err(io::Error::from(ErrorKind::Other))
}

/// What the system reports of a file, if there is one. An error if it
/// reports nothing, because the file's permissions might otherwise be lost.
fn found(rt: &HostRuntime, path: &str) -> io::Result<Option<Metadata>> {
    match fs::metadata(rt, path) {
        Ok(found) => Ok(Some(found)),
        Err(error) if error.kind() == ErrorKind::NotFound => Ok(None),
        Err(error) => Err(error),
    }
}

/// The permissions of a new file, before the user's mask.
const ANY: u32 = 0o666;

/// The permissions without those that go with who a file belongs to: to run as its owner or its group, and the sticky bit.
const WITHOUT_RIGHTS_OF_OWNER: u32 = 0o777;

/// The permissions of all but the group.
const WITHOUT_GROUP: u32 = 0o707;

/// The permissions of only the owner.
const OWNER: u32 = 0o600;

/// Gives a file the owner and the group of the one that is there, or, where the system does not let it have both, the group. Returns the
/// permissions that the file may have: another group has no right that all others have not.
fn take_owner(file: &File, there: &Metadata) -> io::Result<u32> {
    let own = file.metadata()?;
    let mode = there.permissions().mode();
    let (owner, group) = (there.uid(), there.gid());
    let has_group = own.gid() == group;
    if has_group && own.uid() == owner || fchown(file, Some(owner), Some(group)).is_ok() {
        return Ok(mode);
    }
    let bits = mode & WITHOUT_RIGHTS_OF_OWNER;
    if has_group || fchown(file, None, Some(group)).is_ok() {
        return Ok(bits);
    }
    Ok(bits & (WITHOUT_GROUP | bits << 3))
}

/// Writes the bytes into a file, which then takes owner, group and permissions of the one that is there, as far as the system lets it,
/// since a write takes away bits of them; and waits until all is in the file.
fn fill(mut file: &File, there: Option<&Metadata>, bytes: &[u8]) -> io::Result<()> {
    file.write_all(bytes)?;
    if let Some(there) = there {
        let mode = take_owner(file, there)?;
        file.set_permissions(Permissions::from_mode(mode))?;
    }
    file.sync_all()
}

/// Writes the bytes to a part beside the file with the path, then renames the part. The part takes the permissions of a
/// file that is there. If none is there, the part takes the path, unless another file has taken it since. The bytes are
/// durable then. The file that `source` names is never removed as a part that was left.
fn put_whole(
    rt: &HostRuntime,
    path: &str,
    there: Option<&Metadata>,
    bytes: &[u8],
    source: &str,
) -> io::Result<Option<String>> {
    // Nobody gets a right to it that he has not to the one that is there.
    let mode = match there {
        Some(there) => there.permissions().mode() & OWNER,
        None => ANY,
    };
    let part = Part::beside(rt, path, mode, source)?;
    if let Err(error) = fill(&part.file, there, bytes) {
        part.discard(rt);
        return Err(error);
    }
    if there.is_some() {
        part.replace(rt, path)?;
        return Ok(None);
    }
    if part.give_path(rt, path)? {
        return Ok(None);
    }
    Ok(Some(part.name))
}

/// Writes the bytes into what has the path, or makes a file.
fn write_into(rt: &HostRuntime, path: &str, bytes: &[u8]) -> io::Result<Option<String>> {
    fs::create(rt, path)?.write_all(bytes)?;
    Ok(None)
}

/// Puts the bytes in the place of the file that the path leads to, or makes it where none was. An error where one has come since.
fn put_behind_links(
    rt: &HostRuntime,
    path: &str,
    was_there: bool,
    bytes: &[u8],
    source: &str,
) -> io::Result<Option<String>> {
    let named = behind_links(rt, path)?;
    let there = found(rt, named.as_str())?;
    if there.is_some() == was_there {
        return put_whole(rt, named.as_str(), there.as_ref(), bytes, source);
    }
    if was_there {
        return write_into(rt, path, bytes);
    }
    Err(io::Error::from(ErrorKind::AlreadyExists))
}

/// Puts the bytes into a file that is there, or in its place.
fn put_into_file(
    rt: &HostRuntime,
    path: &str,
    bytes: &[u8],
    source: &str,
) -> io::Result<Option<String>> {
    if is_kept(rt, path, source)? {
        return Err(io::Error::from(ErrorKind::AlreadyExists));
    }
    // A rename would take it from under the standard streams, and what has gone into them would be lost.
    if are_one_file(rt, path, OUTPUT) {
        put(rt, bytes)?;
        return Ok(None);
    }
    if are_one_file(rt, path, FAULTS) {
        return Err(io::Error::from(ErrorKind::AlreadyExists));
    }
    put_behind_links(rt, path, true, bytes, source)
}

/// Puts the bytes, which are made of what `source` names, in the place of the file's, or makes the file: they are written beside it, and
/// the whole file is renamed, and lasts then. A link stays, and the file that it leads to is replaced; the permissions stay, and where the
/// system lets it the owner. After an error the file is as it was, or is the new one if only its folder was not synced; it is an error where
/// the file is the source itself, a VM file, or that of standard error. What is no file, as a device or a pipe, is written into, and so is
/// the file that the standard output goes into, and one that has no name any more. Returns the name of a part, which is a second name of
/// the file, if it can't be removed.
pub(crate) fn replace(
    rt: &HostRuntime,
    path: &str,
    bytes: &[u8],
    source: &str,
) -> io::Result<Option<String>> {
    match found(rt, path)? {
        None => put_behind_links(rt, path, false, bytes, source),
        Some(led_to) if led_to.is_file() => put_into_file(rt, path, bytes, source),
        Some(_) => write_into(rt, path, bytes),
    }
}
