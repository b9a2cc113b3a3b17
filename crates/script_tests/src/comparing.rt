//! Scripts whose output is printed, and compared with what their lines say.

ghost use Rattle.std.specs.Prelude.{◌≡◌};
ghost use Rattle.geos_cli.specs.Begun.{IsBegunOn};
ghost use Rattle.vm_blocks.specs.Listed.{NoneLocked};

use crate::lines::TestLine;
use crate::report::Report;
use crate::running::PLAIN;
use crate::script::{Part, Ready, TestScript};
use geos_cli::{
    Counted, EarlyEnd, Follow, Form, Mode, Progress, RefusedCommand, RunOptions, ScriptFault,
};
use geos_kernel::Kernel;
use geos_terms::Refusal;
use geos_verify::Checked;
use script_commands::{
    Kept, command_in, first_commit, give_before, keep, may_commit, shown_in, write,
};
use std::alloc::Global;
use std::io::Write;
use vm_file::Device;

/// What a script came to whose output was compared.
#[derive(Drop)]
pub struct Compared {
    /// A line for each line that printed something else than it says.
    pub told: Vec<u8>,
    /// How many lines printed what they say.
    pub passed: usize,
    /// How many printed something else.
    pub failed: usize,
    /// Why the script ended before its last line, if it did.
    pub end: Option<EarlyEnd>,
}

/// A script that runs.
#[derive(Drop)]
struct Run<'a, F> {
    checked: &'a Checked,
    form: Form,
    mode: Mode,
    progress: Progress<F>,
    /// The names of its lines so far.
    names: Vec<Kept<'a>>,
    /// The first pc of an instruction of the image that commits.
    first: Option<usize>,
    /// Whether the last command may have committed.
    behind: bool,
    report: Report<'a>,
    passed: usize,
    failed: usize,
}

/// What a line printed, in decimal, and whether it was refused.
#[derive(Drop)]
struct Done {
    printed: Vec<u8>,
    result: Result<(), Refusal>,
}

impl<'a, F: Follow + Drop> Run<'a, F> {
    /// Before the first line.
    fn new(alloc: Global, options: RunOptions<F>, checked: &'a Checked, path: &'a str) -> Run<'a, F>
        ensures begun { IsBegunOn result.checked.now result.progress.first }
        ensures first { IsBegunOn result.checked.now result.first }
    {
        let RunOptions {
            form,
            mode,
            follower,
        } = options;
        Run {
            checked,
            form,
            mode,
            progress: Progress::new(checked, follower),
            names: Vec::new(alloc),
            first: first_commit(checked.image().points()),
            behind: false,
            report: Report::new(alloc, path, Part::WHOLE),
            passed: 0,
            failed: 0,
        }
    }

    /// Carries out a line, and prints what it outputs in the form. Output is flushed before a command that may commit, and after it before
    /// the next one. `None` if the line is bad with the words that its names have.
    fn carry_out<W: Write, D: Device + Drop>(
        &mut self,
        alloc: Global,
        line: &'a [u8],
        kernel: &mut Kernel<D>,
        out: &mut Counted<W>,
    ) -> Result<Option<Done>, ScriptFault>
        requires unlocked { NoneLocked kernel.old.core.blocks }
        requires begun { IsBegunOn self.old.checked.now self.old.progress.first }
        requires first { IsBegunOn self.old.checked.now self.old.first }
        ensures unlocked { NoneLocked kernel.new.core.blocks }
        ensures begun { IsBegunOn self.new.checked.now self.new.progress.first }
        ensures first { IsBegunOn self.new.checked.now self.new.first }
    {
        let checked = self.checked;
        let Some(command) = command_in(alloc, checked, &self.names, line)? else {
            return Ok(None);
        };
        let ahead = may_commit(checked, self.first, &command);
        give_before(self.behind, ahead, out)?;
        self.behind = ahead;
        let mut plain = Counted::new(Vec::new(alloc));
        let carried = self
            .progress
            .carry_out_next(alloc, PLAIN, checked, &command, kernel, &mut plain);
        let Ok((result, word)) = carried else {
            return Err(ScriptFault::Memory);
        };
        keep(&mut self.names, line, word)?;
        let text = shown_in(alloc, self.form, checked, &command, &plain.stream)?;
        write(out, &text)?;
        Ok(Some(Done {
            printed: plain.stream,
            result,
        }))
    }

    /// Notes what a line printed.
    fn note(&mut self, line: &TestLine, printed: &[u8])
        ensures begun { (self.new.checked.now ≡ self.old.checked.now) × (self.new.progress.first ≡ self.old.progress.first) }
        ensures first { self.new.first ≡ self.old.first }
    {
        if self.report.note(line, printed) {
            self.passed = self.passed.saturating_add(1);
        } else if line.expected.is_some() {
            self.failed = self.failed.saturating_add(1);
        }
    }

    /// Carries out the lines one after another, to the last one or to one at which the script ends early.
    fn carry_out_all<W: Write, D: Device + Drop>(
        &mut self,
        alloc: Global,
        lines: &'a [TestLine<'a>],
        kernel: &mut Kernel<D>,
        out: &mut Counted<W>,
    ) -> Result<Option<EarlyEnd>, ScriptFault>
        requires unlocked { NoneLocked kernel.old.core.blocks }
        requires begun { IsBegunOn self.old.checked.now self.old.progress.first }
        requires first { IsBegunOn self.old.checked.now self.old.first }
    {
        for line in lines {
            let Some(done) = self.carry_out(alloc, line.command, kernel, out)? else {
                return Ok(Some(EarlyEnd::BadLine(line.number)));
            };
            self.note(line, &done.printed);
            if let (Mode::Strict, Err(refusal)) = (self.mode, done.result) {
                return Ok(Some(EarlyEnd::Refused(RefusedCommand {
                    line: line.number,
                    refusal,
                })));
            }
        }
        Ok(None)
    }
}

/// Runs a script as `geos_cli::run_script_in_form` does, or if its lines may write names, as `run_script_with_names`; but its lines may
/// end with `=>` and what they are to print, in decimal. Each line that prints something else has failed, and the script continues.
///
/// Returns the faults of these, and `BadScript` with the first line that is bad before anything runs, without its `=>`.
pub fn run_comparing<W: Write, D: Device + Drop, F: Follow + Drop>(
    alloc: Global,
    options: RunOptions<F>,
    script: &TestScript<'_>,
    kernel: &mut Kernel<D>,
    out: &mut Counted<W>,
) -> Result<Compared, ScriptFault>
    // No block of the file is locked by others: `Kernel::vm_unlocked` tells it.
    requires unlocked { NoneLocked kernel.old.core.blocks }
{
    let Ready {
        checked,
        lines,
        bad,
    } = script.read(alloc)?;
    if let Some(line) = bad.first {
        return Err(ScriptFault::BadScript(line));
    }
    let mut run = Run::new(alloc, options, &checked, script.path);
    let end = run.carry_out_all(alloc, &lines, kernel, out)?;
    let Run {
        report,
        passed,
        failed,
        ..
    } = run;
    Ok(Compared {
        told: report.told.finish()?,
        passed,
        failed,
        end,
    })
}
