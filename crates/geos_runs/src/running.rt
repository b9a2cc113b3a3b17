//! What runs routines: a session, and a script on a VM file of the system.

ghost use Rattle.geos_shell.specs.Limits.{IsRegion};

use crate::calling::{Routines, Task};
use crate::fault::RunFault;
use crate::manner::{Manner, output};
use geos_cli::{Counted, ScriptFault, run_session};
use geos_shell::{STANDARD, keep_from_output, tell_typist};

/// Runs a session on the standard streams.
fn run_on_streams(rt: &HostRuntime) -> Result<(), ScriptFault> {
    match output(rt) {
        Ok(mut out) => run_session(rt.alloc(), &mut Counted::new(rt.stdin()), &mut out),
        Err(fault) => Err(fault),
    }
}

/// Runs a session on the standard streams, unless it would print into what it reads.
pub fn session<'a>(rt: &HostRuntime) -> Result<(), RunFault<'a>> {
    if let Err(fault) = keep_from_output(rt, STANDARD) {
        return Err(RunFault::Stream(fault));
    }
    tell_typist(rt);
    match run_on_streams(rt) {
        Ok(()) => Ok(()),
        Err(fault) => Err(RunFault::Session(fault)),
    }
}

/// Runs a script of an image on a VM file, with `region` bytes for blocks in memory. In strict mode it ends at the first refused command,
/// which is `RunFault::Refused`.
///
/// It waits for the file's lock after it has read the script. So it keeps the file from nobody who is still writing the script. It reads
/// the file under the lock, and reports a fault of the file before a fault of the script.
pub fn run<'a>(
    rt: &HostRuntime,
    manner: &Manner,
    image: &[u8],
    file: &'a str,
    script: &'a str,
    region: u32,
) -> Result<(), RunFault<'a>>
    requires { IsRegion region }
{
    let routines = Routines { manner, image };
    Task::Script(routines, script).run_on_file(rt, file, region)
}
