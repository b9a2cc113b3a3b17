//! Why a file or a stream was not read or written.

use std::fmt::{self, Display, Formatter};
use std::io::{self, ErrorKind};

/// Why a file or a stream was not read or written, in words.
#[derive(Clone, Copy)]
pub struct Reason(&'static str);

impl Reason {
    /// Something has the path, and is not replaced.
    pub(crate) const EXISTS: Reason = Reason(
        "there is something of that name, which is not replaced",
    );
    /// The file is read and written at the same time, by two words or streams.
    pub const IN_USE: Reason = Reason("it is read and written at the same time");
    /// The system gave another error.
    pub const OTHER: Reason = Reason("the system reports an error");

    /// The reason that the system gave.
    pub(crate) fn of(error: &io::Error) -> Reason {
        match error.kind() {
            ErrorKind::NotFound => Reason("there is no file or folder of that name"),
            ErrorKind::PermissionDenied => Reason("you have no permission"),
            ErrorKind::AlreadyExists => Reason::EXISTS,
            ErrorKind::InvalidInput | ErrorKind::IsADirectory | ErrorKind::NotADirectory => {
                Reason("it is a folder, a pipe, a device or a socket, or lies in no folder")
            }
            ErrorKind::StorageFull | ErrorKind::QuotaExceeded => {
                Reason("the device has no space left")
            }
            ErrorKind::ReadOnlyFilesystem => Reason("the file system is read-only"),
            _ => Reason::OTHER,
        }
    }
}

impl Display for Reason {
    fn fmt<W: fmt::Write>(&self, f: &mut Formatter<W>) -> fmt::Result {
        f.write_str(self.0)
    }
}
