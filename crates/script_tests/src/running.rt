//! Test scripts are run.

ghost use Rattle.std.specs.Prelude.{◌≡◌, ◌+◌, ◌≤◌, true, IfOk};
ghost use Rattle.geos_cli.specs.Begun.{IsBegunOn};
ghost use Rattle.script_commands.specs.Lines.{IsAdmitted, may_ask};
ghost use Rattle.script_tests.specs.Expected.{expecting, expecting_of};
ghost use Rattle.vm_blocks.specs.Listed.{NoneLocked};

use crate::coverage::Coverage;
use crate::lines::{TestLine, count_expecting};
use crate::report::Report;
use crate::script::{Ready, TestScript};
use geos_cli::{Counted, Form, Progress, ScriptFault, Unwatched, Writing, trace_lent};
use geos_kernel::Kernel;
use geos_machine::Trace;
use geos_verify::Checked;
use script_commands::{Call, Command, Kept, command_in, first_put_out, keep, print, print_refusal};
use std::alloc::Global;
use vm_file::Device;

/// How outputs are compared: each word in decimal, on a line.
pub(crate) const PLAIN: Form = Form {
    writing: Writing::Decimal,
    label: false,
};

/// What a test script came to.
#[derive(Drop)]
pub struct Tested {
    /// A line for each line that failed.
    pub told: Vec<u8>,
    /// A suite of JUnit XML, with a case for each line with `=>`, and for each bad line.
    pub suite: Vec<u8>,
    /// How many lines printed what they are to print.
    pub passed: usize,
    /// How many lines did not print what they are to print.
    pub failed: usize,
    /// Whether a line is bad.
    pub is_bad: bool,
    /// How often instructions ran, in this script and those before it.
    pub coverage: Coverage,
}

/// A script that runs: its image, its progress, and the names of its lines so far.
#[derive(Drop)]
struct Run<'a> {
    checked: &'a Checked,
    progress: Progress<Unwatched>,
    names: Vec<Kept<'a>>,
    coverage: Coverage,
}

/// Runs a call, counts how often each instruction ran, and prints what it outputs. Returns the first word of this.
fn count_call<'a, D: Device + Drop>(
    alloc: Global,
    run: &mut Run<'a>,
    call: &Call,
    kernel: &mut Kernel<D>,
    out: &mut Counted<Vec<u8>>,
) -> Result<Option<u16>, ScriptFault>
    requires admitted { may_ask run.old.checked.now call.now ≡ true }
    requires unlocked { NoneLocked kernel.old.core.blocks }
    ensures unlocked { NoneLocked kernel.new.core.blocks }
    ensures begun { (run.new.checked.now ≡ run.old.checked.now) × (run.new.progress.first ≡ run.old.progress.first) }
{
    let mut notes = Trace::new(alloc, 0, 0, 0)?;
    match trace_lent(run.checked, call, kernel, &mut notes, &mut Unwatched) {
        Ok(outcome) => print(outcome.output.as_slice(), out)?,
        Err(refusal) => print_refusal(refusal, out)?,
    }
    run.coverage.add(&notes);
    Ok(first_put_out(&out.stream))
}

/// Carries out a command, prints what it outputs, and returns the first word of this.
fn carry_out_command<'a, D: Device + Drop>(
    alloc: Global,
    run: &mut Run<'a>,
    command: &Command,
    kernel: &mut Kernel<D>,
    out: &mut Counted<Vec<u8>>,
) -> Result<Option<u16>, ScriptFault>
    requires admitted { IsAdmitted run.old.checked.now command.now }
    requires unlocked { NoneLocked kernel.old.core.blocks }
    requires begun { IsBegunOn run.old.checked.now run.old.progress.first }
    ensures unlocked { NoneLocked kernel.new.core.blocks }
    ensures begun { IsBegunOn run.new.checked.now run.new.progress.first }
{
    match command {
        Command::Call(call) if run.coverage.is_wanted() => {
            count_call(alloc, run, call, kernel, out)
        }
        _ => {
            let checked = run.checked;
            let carried = run
                .progress
                .carry_out_next(alloc, PLAIN, checked, command, kernel, out);
            match carried {
                Ok((_done, word)) => Ok(word),
                Err(_) => Err(ScriptFault::Memory),
            }
        }
    }
}

/// Carries out the next line of a script, and returns what it printed. `None` if the line is bad with the words that its names have.
fn carry_out<'a, D: Device + Drop>(
    alloc: Global,
    run: &mut Run<'a>,
    line: &'a [u8],
    kernel: &mut Kernel<D>,
) -> Result<Option<Vec<u8>>, ScriptFault>
    requires unlocked { NoneLocked kernel.old.core.blocks }
    requires begun { IsBegunOn run.old.checked.now run.old.progress.first }
    ensures unlocked { NoneLocked kernel.new.core.blocks }
    ensures begun { IsBegunOn run.new.checked.now run.new.progress.first }
{
    let Some(command) = command_in(alloc, run.checked, &run.names, line)? else {
        return Ok(None);
    };
    let mut out = Counted::new(Vec::new(alloc));
    let word = carry_out_command(alloc, run, &command, kernel, &mut out)?;
    keep(&mut run.names, line, word)?;
    Ok(Some(out.stream))
}

/// Carries out the lines one after another, as those of a script, and returns how many printed what they are to print. The script ends at a
/// line that is bad with the words that its names have.
fn run_lines<'a, D: Device + Drop>(
    alloc: Global,
    run: &mut Run<'a>,
    lines: &'a [TestLine],
    kernel: &mut Kernel<D>,
    report: &mut Report,
) -> Result<usize, ScriptFault>
    requires unlocked { NoneLocked kernel.old.core.blocks }
    requires begun { IsBegunOn run.old.checked.now run.old.progress.first }
    ensures { IfOk result (λ passed. passed ≤ expecting_of lines.now) }
{
    let mut passed: usize = 0;
    for line in lines {
        let Some(printed) = carry_out(alloc, run, line.command, kernel)? else {
            report.end_at(line, lines);
            return Ok(passed);
        };
        if report.note(line, &printed) {
            passed += 1;
        }
    }
    Ok(passed)
}

/// What a script came to, of whose lines so many passed.
fn finished(
    report: Report,
    lines: &[TestLine],
    passed: usize,
    coverage: Coverage,
) -> Result<Tested, ScriptFault>
    requires { passed ≤ expecting_of lines.now }
    ensures { IfOk result (λ tested. tested.passed + tested.failed ≡ expecting_of lines.now) }
{
    let Report {
        told,
        mut suite,
        is_bad,
        ..
    } = report;
    suite.put("</testsuite>\n");
    let failed = count_expecting(lines) - passed;
    Ok(Tested {
        told: told.finish()?,
        suite: suite.finish()?,
        passed,
        failed,
        is_bad,
        coverage,
    })
}

/// Runs a test script, as `geos_cli::run_script_with_names` runs a script, except that its lines may end with `=>` and what they are to
/// print: its words are those that the line prints. A line that does not print them has failed. If a line is bad before anything runs,
/// nothing runs. A line that does not run has failed. The runs of its calls are added to the coverage, if this is required.
///
/// Returns the first of these faults: `TooLong` if the script has more than 1,048,576 bytes; `BadImage`; `Rejected`. `Memory` is possible at
/// any time.
pub fn test_script<D: Device + Drop>(
    alloc: Global,
    script: &TestScript<'_>,
    coverage: Coverage,
    kernel: &mut Kernel<D>,
) -> Result<Tested, ScriptFault>
    // No block of the file is locked by others: `Kernel::vm_unlocked` tells it.
    requires unlocked { NoneLocked kernel.old.core.blocks }
    // Each line with `=>` has passed or has failed.
    ensures counted { IfOk result (λ tested. tested.passed + tested.failed ≡ expecting script.now.bytes.now) }
{
    let Ready {
        checked,
        lines,
        bad,
    } = script.read(alloc)?;
    let mut report = Report::new(alloc, script.path, script.part);
    if bad.first.is_some() {
        report.refuse(&bad.told, &lines);
        return finished(report, &lines, 0, coverage);
    }
    let mut run = Run {
        checked: &checked,
        progress: Progress::new(&checked, Unwatched),
        names: Vec::new(alloc),
        coverage,
    };
    let passed = run_lines(alloc, &mut run, &lines, kernel, &mut report)?;
    let Run { coverage, .. } = run;
    finished(report, &lines, passed, coverage)
}
