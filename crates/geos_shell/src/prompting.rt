//! The request of a `shell`.

ghost use Rattle.geos_shell.specs.Limits.{IsRegion};

use crate::given::Given;
use crate::numbers::REGION;

/// To answer lines of the standard input one after another.
#[derive(Clone, Copy)]
pub struct ShellRequest<'a> {
    /// The path of the text or the image with the routines, if there are any.
    pub image: Option<&'a str>,
    /// The path of the VM file; with none, the session has one in memory.
    pub file: Option<&'a str>,
    /// The path of the file that gets the lines since the last commit, if one is required.
    pub journal: Option<&'a str>,
    /// How many bytes blocks in memory have.
    pub region: u32,
}

/// The request of a `shell`.
pub(crate) fn shell_of<'a>(given: &Given<'_, 'a>) -> ShellRequest<'a>
    ensures { IsRegion result.region }
{
    ShellRequest {
        image: given.setting("IN"),
        file: given.setting("file"),
        journal: given.setting("journal"),
        region: given.number(&REGION),
    }
}
