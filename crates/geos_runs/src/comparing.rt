//! Scripts that are run, and whose output may be compared with what their lines say.

ghost use Rattle.vm_blocks.specs.Listed.{NoneLocked};

use crate::bad_lines::{Script, printed_path};
use crate::fault::RunFault;
use crate::manner::{Manner, came_to, options_of, output, run_script_on};
use geos_cli::ScriptFault;
use geos_kernel::Kernel;
use geos_shell::tell;
use script_tests::{Compared, Part, TestScript, plain_script, run_comparing};
use std::io::Write;
use vm_file::Device;

/// A script of these bytes that is a whole file. A constant would do, but no reference to it is proved to live as long as several others.
pub(crate) fn whole(_bytes: &[u8]) -> Part<'_> {
    Part {
        name: &[],
        lines: &[],
    }
}

/// Runs a script on a kernel of whose VM file no block is locked, and prints what it outputs.
fn compare_in<D: Device + Drop>(
    rt: &HostRuntime,
    manner: &Manner,
    script: &TestScript<'_>,
    kernel: &mut Kernel<D>,
) -> Result<Compared, ScriptFault>
    requires { NoneLocked kernel.old.core.blocks }
{
    let mut out = match output(rt) {
        Ok(out) => out,
        Err(fault) => return Err(fault),
    };
    let compared = run_comparing(rt.alloc(), options_of(rt, manner), script, kernel, &mut out);
    if compared.is_ok() && out.flush().is_err() {
        return Err(ScriptFault::Write);
    }
    compared
}

/// Writes on standard error a line for each line of a script that printed something else than it says. `RunFault::Failed` if there is one,
/// and the script did not end early.
fn tell_compared<'a>(
    rt: &HostRuntime,
    manner: &Manner,
    compared: Compared,
) -> Result<(), RunFault<'a>> {
    let Compared {
        told,
        passed,
        failed,
        end,
    } = compared;
    if !told.is_empty() {
        tell(rt, manner.reports, &told);
    }
    match came_to(Ok(end)) {
        Ok(()) if failed > 0 => Err(RunFault::Failed(passed, failed)),
        came_to => came_to,
    }
}

/// Runs a script on a kernel of whose VM file no block is locked, and compares what it prints with what its lines say.
fn compare_script_on<'a, D: Device + Drop>(
    rt: &HostRuntime,
    manner: &Manner,
    script: &Script<'_>,
    kernel: &mut Kernel<D>,
) -> Result<(), RunFault<'a>>
    requires { NoneLocked kernel.old.core.blocks }
{
    let Ok(path) = printed_path(rt.alloc(), script.path) else {
        return Err(RunFault::Session(ScriptFault::Memory));
    };
    let test = TestScript {
        path: &path,
        image: script.image,
        bytes: script.bytes,
        names: manner.names,
        part: whole(script.bytes),
    };
    match compare_in(rt, manner, &test, kernel) {
        Ok(compared) => tell_compared(rt, manner, compared),
        Err(fault) => Err(RunFault::Session(fault)),
    }
}

/// The same, with warnings of its calls that are probably not meant, and with diagnostics if its lines are bad.
fn compare_and_warn<'a, D: Device + Drop>(
    rt: &HostRuntime,
    manner: &Manner,
    script: &Script<'_>,
    kernel: &mut Kernel<D>,
) -> Result<(), RunFault<'a>>
    requires { NoneLocked kernel.old.core.blocks }
{
    let Ok(plain) = plain_script(rt.alloc(), script.bytes) else {
        return Err(RunFault::Session(ScriptFault::Memory));
    };
    let commands = Script {
        path: script.path,
        bytes: &plain,
        image: script.image,
    };
    commands.warn(rt, manner);
    let ran = compare_script_on(rt, manner, script, kernel);
    commands.diagnosed(rt.alloc(), manner, ran)
}

/// Runs a script on a kernel of whose VM file no block is locked, and prints what it outputs. If the manner expects it, that is compared with
/// what the lines say. Warnings and diagnostics are as the manner requires.
pub(crate) fn run_script<'a, D: Device + Drop>(
    rt: &HostRuntime,
    manner: &Manner,
    script: &Script<'_>,
    kernel: &mut Kernel<D>,
) -> Result<(), RunFault<'a>>
    requires { NoneLocked kernel.old.core.blocks }
{
    if manner.expects {
        return compare_and_warn(rt, manner, script, kernel);
    }
    script.warn(rt, manner);
    let ran = run_script_on(rt, manner, script, kernel);
    script.diagnosed(rt.alloc(), manner, ran)
}
