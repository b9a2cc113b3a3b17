//! How scripts and calls are run, and what they print.

ghost use Rattle.vm_blocks.specs.Listed.{NoneLocked};

use crate::bad_lines::Script;
use crate::calling::Routines;
use crate::fault::RunFault;
use crate::objects::{print_call_objects, print_script_objects};
use crate::progress::{ProgressLine, is_shown};
use geos_cli::{
    CallFault, Counted, EarlyEnd, Form, Mode, RefusedCommand, RunOptions, ScriptFault, Writing,
    run_call, run_call_in_form, run_script_in_form, run_script_in_mode, run_script_with_names,
};
use geos_kernel::Kernel;
use geos_scripts::NameUse;
use geos_shell::{CallWords, Digits, EndCommit, OutputForm, Reports, Room};
use geos_text::number;
use std::alloc::Global;
use std::io;
use std::io::{BufWriter, Printer, Write};
use vm_file::Device;

/// How a script or a call is run.
#[derive(Clone, Copy)]
pub struct Manner {
    /// What a script does after a refused command.
    pub mode: Mode,
    /// Whether its lines may write names for words that calls output.
    pub names: NameUse,
    /// Whether its lines may end with `=>` and what they are to print.
    pub expects: bool,
    /// What blocks in memory may take.
    pub room: Room,
    /// How outputs are written.
    pub form: OutputForm,
    /// What is committed at the end of a run on a file.
    pub commit: Option<EndCommit>,
    /// What is reported beside outputs: changed blocks of a file that no commit has written, and calls of a script that are probably not
    /// meant.
    pub reports: Reports,
}

/// Standard output through a buffer, which counts its calls. `ScriptFault::Memory` if there is no memory for the buffer.
pub(crate) fn output(
    rt: &HostRuntime,
) -> Result<Counted<BufWriter<Printer<'_, HostRuntime>, Global>>, ScriptFault> {
    match BufWriter::new(rt.alloc(), io::writer(rt)) {
        Ok(writer) => Ok(Counted::new(writer)),
        Err(_) => Err(ScriptFault::Memory),
    }
}

/// The form as scripts and calls take it.
fn form_of(form: &OutputForm) -> Form {
    Form {
        writing: match form.digits {
            Digits::Decimal => Writing::Decimal,
            Digits::Hex => Writing::Hex,
            Digits::Signed => Writing::Signed,
            Digits::Text => Writing::Text,
        },
        label: form.label,
    }
}

/// The options of a run, which a line on a terminal follows.
pub(crate) fn options_of<'r>(rt: &'r HostRuntime, manner: &Manner) -> RunOptions<ProgressLine<'r>> {
    RunOptions {
        form: form_of(&manner.form),
        mode: manner.mode,
        follower: ProgressLine::new(rt),
    }
}

/// Whether outputs are written as they are by default, and nobody looks on.
fn is_plain(rt: &HostRuntime, manner: &Manner) -> bool {
    manner.form.is_plain() && !is_shown(rt)
}

/// Runs a script without names on a kernel of whose VM file no block is locked.
fn run_script_in<W: Write, D: Device + Drop>(
    rt: &HostRuntime,
    manner: &Manner,
    script: &Script<'_>,
    kernel: &mut Kernel<D>,
    out: &mut Counted<W>,
) -> Result<Option<RefusedCommand>, ScriptFault>
    requires { NoneLocked kernel.old.core.blocks }
{
    let alloc = rt.alloc();
    if is_plain(rt, manner) {
        return run_script_in_mode(alloc, manner.mode, script.image, script.bytes, kernel, out);
    }
    let options = options_of(rt, manner);
    run_script_in_form(alloc, options, script.image, script.bytes, kernel, out)
}

/// The same of a script whose lines may write names, if they may.
pub(crate) fn run_lines_in<W: Write, D: Device + Drop>(
    rt: &HostRuntime,
    manner: &Manner,
    script: &Script<'_>,
    kernel: &mut Kernel<D>,
    out: &mut Counted<W>,
) -> Result<Option<EarlyEnd>, ScriptFault>
    requires { NoneLocked kernel.old.core.blocks }
{
    match manner.names {
        NameUse::Allowed => {
            let options = options_of(rt, manner);
            run_script_with_names(rt.alloc(), options, script.image, script.bytes, kernel, out)
        }
        NameUse::Refused => match run_script_in(rt, manner, script, kernel, out) {
            Ok(None) => Ok(None),
            Ok(Some(refused)) => Ok(Some(EarlyEnd::Refused(refused))),
            Err(fault) => Err(fault),
        },
    }
}

/// As `run_lines_in`, on standard output. What was printed is out before the end of the script is a fault.
fn run_lines_on<D: Device + Drop>(
    rt: &HostRuntime,
    manner: &Manner,
    script: &Script<'_>,
    kernel: &mut Kernel<D>,
) -> Result<Option<EarlyEnd>, ScriptFault>
    requires { NoneLocked kernel.old.core.blocks }
{
    let mut out = match output(rt) {
        Ok(out) => out,
        Err(fault) => return Err(fault),
    };
    let end = run_lines_in(rt, manner, script, kernel, &mut out);
    if end.is_ok() && out.flush().is_err() {
        return Err(ScriptFault::Write);
    }
    end
}

/// Runs a script on a kernel of whose VM file no block is locked, and prints what it outputs.
pub(crate) fn run_script_on<'a, D: Device + Drop>(
    rt: &HostRuntime,
    manner: &Manner,
    script: &Script<'_>,
    kernel: &mut Kernel<D>,
) -> Result<(), RunFault<'a>>
    requires { NoneLocked kernel.old.core.blocks }
{
    if manner.reports.json {
        return print_script_objects(rt, manner, script, kernel);
    }
    came_to(run_lines_on(rt, manner, script, kernel))
}

/// What a script came to that ran to its end, or that ended early.
pub(crate) fn came_to<'a>(end: Result<Option<EarlyEnd>, ScriptFault>) -> Result<(), RunFault<'a>> {
    match end {
        Ok(None) => Ok(()),
        Ok(Some(EarlyEnd::Refused(RefusedCommand { line, refusal }))) => {
            Err(RunFault::Refused(line, refusal.number()))
        }
        Ok(Some(EarlyEnd::BadLine(line))) => Err(RunFault::Session(ScriptFault::BadScript(line))),
        Err(fault) => Err(RunFault::Session(fault)),
    }
}

/// Runs a call on a kernel of whose VM file no block is locked.
fn run_call_in<W: Write, D: Device + Drop>(
    rt: &HostRuntime,
    routines: &Routines<'_>,
    call: &CallWords<'_>,
    kernel: &mut Kernel<D>,
    out: &mut Counted<W>,
) -> Result<Option<RefusedCommand>, CallFault>
    requires { NoneLocked kernel.old.core.blocks }
{
    let alloc = rt.alloc();
    let CallWords { name, words } = call;
    if is_plain(rt, routines.manner) {
        return run_call(alloc, routines.image, name, words, kernel, out);
    }
    let options = options_of(rt, routines.manner);
    run_call_in_form(alloc, options, routines.image, name, words, kernel, out)
}

/// As `run_call_in`, on standard output.
fn run_call_printing<D: Device + Drop>(
    rt: &HostRuntime,
    routines: &Routines<'_>,
    call: &CallWords<'_>,
    kernel: &mut Kernel<D>,
) -> Result<Option<RefusedCommand>, CallFault>
    requires { NoneLocked kernel.old.core.blocks }
{
    let mut out = match output(rt) {
        Ok(out) => out,
        Err(fault) => return Err(CallFault::Script(fault)),
    };
    let refused = run_call_in(rt, routines, call, kernel, &mut out);
    if refused.is_ok() && out.flush().is_err() {
        return Err(CallFault::Script(ScriptFault::Write));
    }
    refused
}

/// Whether a word of a call is `@` and a handle.
fn is_block(word: &str) -> bool {
    match word.strip_prefix("@") {
        Some(handle) => number(handle.as_bytes()).is_some(),
        None => false,
    }
}

/// The fault of a call of a routine that borrows so many blocks: the first word in place of a block that is none, or how many blocks there
/// are. The first block begins with `@`.
fn blocks_fault<'a>(call: &CallWords<'a>, borrowed: usize) -> RunFault<'a> {
    let mut given: usize = 0;
    for word in &call.words {
        let begins = word.starts_with('@');
        if (begins || given > 0) && !is_block(*word) {
            return RunFault::BadBlock(*word);
        }
        if begins {
            given = given.saturating_add(1);
        }
    }
    RunFault::BadBlocks(call.name, borrowed, given)
}

/// The fault of a call, by what is wrong.
pub(crate) fn call_fault<'a>(call: &CallWords<'a>, fault: CallFault) -> RunFault<'a> {
    match fault {
        CallFault::Script(fault) => RunFault::Session(fault),
        CallFault::BadBlocks(count) => blocks_fault(call, count),
        CallFault::BadWord(0) => RunFault::NoRoutine(call.name),
        CallFault::BadWord(word) => match call.words.get(word - 1) {
            Some(number) if word <= 8 => RunFault::BadNumber(word - 1, *number),
            _ => RunFault::TooManyNumbers,
        },
    }
}

/// Runs a call on a kernel of whose VM file no block is locked, and prints what it outputs. `RunFault::NotDone` if a block that the routine
/// borrows can't be lent.
pub(crate) fn run_call_on<'a, D: Device + Drop>(
    rt: &HostRuntime,
    routines: &Routines<'_>,
    call: &CallWords<'a>,
    kernel: &mut Kernel<D>,
) -> Result<(), RunFault<'a>>
    requires { NoneLocked kernel.old.core.blocks }
{
    if routines.manner.reports.json {
        return print_call_objects(rt, routines.image, call, kernel);
    }
    match run_call_printing(rt, routines, call, kernel) {
        Ok(None) => Ok(()),
        Ok(Some(refused)) => Err(RunFault::NotDone(refused.refusal.number())),
        Err(fault) => Err(call_fault(call, fault)),
    }
}
