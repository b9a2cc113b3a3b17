//! Scripts whose lines write names for words that earlier calls output.

ghost use Rattle.std.specs.Prelude.{◌≡◌, ◌↔◌, ◌⊎◌, None, map, IfOk, IfErr};
ghost use Rattle.std.specs.Io.KnownBytes.{Keeps};
ghost use Rattle.vm_file.specs.Device.{Rose};
ghost use Rattle.vm_file.specs.State.{Steadily};
ghost use Rattle.geos_input.specs.declared.fault.ScriptFault.TheVariants.{Memory, Write};
ghost use Rattle.geos_input.specs.Fault.{KeptUnless};
ghost use Rattle.geos_cli.specs.InForm.{Leaves};
ghost use Rattle.script_commands.specs.Names.{said_by};
ghost use Rattle.geos_cli.specs.WithNames.{IsGood, IsBadNamed, RanLines, StoppedLines};
ghost use Rattle.geos_cli.specs.WithNames.{RanNamedScript, StoppedNamedScript, NamedScriptEndsBy};
ghost use Rattle.geos_kernel.specs.Files.{vm_file_of};
ghost use Rattle.geos_kernel.specs.View.{SeesDevice};
ghost use Rattle.vm_blocks.specs.Listed.{NoneLocked};

use crate::in_form::RunOptions;
use crate::progress::Progress;
use crate::script::{RefusedCommand, ended_by, load};
use geos_input::{Counted, MOST_BYTES, ScriptFault};
use geos_kernel::Kernel;
use geos_machine::Follow;
use geos_verify::Checked;
use script_commands::{Line, command_in, first_bad, keep, lines_said};
use std::alloc::Global;
use std::io::Write;
use vm_file::Device;

/// Why a script ended before its last command, after commands that are done.
#[derive(Clone, Copy)]
pub enum EarlyEnd {
    /// This command was refused, and the script is strict.
    Refused(RefusedCommand),
    /// The line of this number, counted from 1, is no command with the words that its names stand for: one of them stands for none, or it
    /// is above the bound of the routine's word.
    BadLine(usize),
}

/// Carries out the lines one after another, as `carry_out_all_in_form` does commands, each with numbers in the place of names.
fn carry_out_lines<W: Write, D: Device + Drop, F: Follow + Drop>(
    alloc: Global,
    options: RunOptions<F>,
    checked: &Checked,
    lines: &[Line],
    kernel: &mut Kernel<D>,
    out: &mut Counted<W>,
) -> Result<Option<EarlyEnd>, ScriptFault>
    requires unlocked { NoneLocked kernel.old.core.blocks }
    ensures ran { IfOk result (λ end. RanLines D.medium options.form options.mode checked.now (map said_by lines.now) end kernel.old kernel.new
        (W.contents out.old.stream) (W.contents out.new.stream)) }
    ensures stopped { IfErr result (λ _. StoppedLines D.medium options.form options.mode checked.now (map said_by lines.now) kernel.old kernel.new
        (W.contents out.old.stream) (W.contents out.new.stream)) }
    ensures honest { D.medium.honest kernel.new.device ↔ D.medium.honest kernel.old.device }
    ensures unlocked { NoneLocked kernel.new.core.blocks }
    ensures sees { SeesDevice D.medium kernel.old × SeesDevice D.medium kernel.new }
    ensures steadily { Steadily D.medium (vm_file_of kernel.old) (vm_file_of kernel.new) }
    ensures fault { IfErr result (λ fault. (fault ≡ Write) ⊎ (fault ≡ Memory)) }
    ensures failed { IfErr result (λ fault. fault ≡ Write → Rose out.old.failures out.new.failures) }
    ensures kept { KeptUnless Write result out.old.failures out.new.failures }
{
    let RunOptions {
        form,
        mode,
        follower,
    } = options;
    let mut progress = Progress::new(checked, follower);
    kernel.memory_is_legal();
    let mut names = Vec::new(alloc);
    for line in lines {
        let Some(command) = command_in(alloc, checked, &names, line.text)? else {
            return Ok(Some(EarlyEnd::BadLine(line.number)));
        };
        let (done, word) = progress.carry_out_next(alloc, form, checked, &command, kernel, out)?;
        if let Some(refused) = ended_by(mode, line.number, done) {
            return Ok(Some(EarlyEnd::Refused(refused)));
        }
        keep(&mut names, line.text, word)?;
    }
    Ok(None)
}

/// The lines of a script that say something, if none is bad, whatever numbers its names will stand for.
fn good_lines<'a>(
    alloc: Global,
    checked: &Checked,
    script: &'a [u8],
) -> Result<Vec<Line<'a>>, ScriptFault>
    ensures lines { IfOk result (λ said. IsGood checked.now script.now (map said_by said.items)) }
    ensures bad { IfErr result (IsBadNamed checked.now script.now) }
{
    let lines = lines_said(alloc, script)?;
    match first_bad(alloc, checked, &lines)? {
        None => Ok(lines),
        Some(line) => Err(ScriptFault::BadScript(line)),
    }
}

/// Runs a script as `run_script_in_form` does, whose lines may write names. A call with `-> NAME` after it stores the first word of its output
/// under the name, or nothing if there is no output, in place of the previous value. `$NAME` is that number in a later call, also after `@`.
/// A line does what the same line with the numbers does.
///
/// Before the first command, a line is bad if it is bad with 0 in the place of its names, if no earlier line stores one of them, or if it is
/// the 1,025th that stores a word. During the run, the script ends at a line that is bad with the numbers that its names have: it returns
/// `EarlyEnd::BadLine`, and all earlier lines are done.
///
/// The faults are those of `run_script_in_form`, and `Memory` also if there is no memory for a line or a name.
pub fn run_script_with_names<W: Write, D: Device + Drop, F: Follow + Drop>(
    alloc: Global,
    options: RunOptions<F>,
    image: &[u8],
    script: &[u8],
    kernel: &mut Kernel<D>,
    out: &mut Counted<W>,
) -> Result<Option<EarlyEnd>, ScriptFault>
    requires unlocked { NoneLocked kernel.old.core.blocks }
    // Each line did what the same line with numbers does in the plain form, and the writer got what they printed, in this form. After a stop
    // at any moment, opening the file finds what the model's run of the lines has committed in one of its states.
    ensures ran { IfOk result (λ end. RanNamedScript D.medium options.form options.mode image.now script.now end kernel.old kernel.new
        (W.contents out.old.stream) (W.contents out.new.stream)) }
    ensures due { IfErr result (NamedScriptEndsBy image.now script.now) }
    // Nothing ran and nothing was written, or some lines ran, and the writer got a prefix of their text. A stop then leaves
    // what the model's run of these has committed.
    ensures left { IfErr result (λ fault. Leaves fault
        ((kernel.new ≡ kernel.old) × Keeps (W.contents out.old.stream) (W.contents out.new.stream))
        (StoppedNamedScript D.medium options.form options.mode image.now script.now kernel.old kernel.new (W.contents out.old.stream) (W.contents out.new.stream))) }
    ensures honest { D.medium.honest kernel.new.device ↔ D.medium.honest kernel.old.device }
    ensures unlocked { NoneLocked kernel.new.core.blocks }
    ensures sees { SeesDevice D.medium kernel.old × SeesDevice D.medium kernel.new }
    ensures steadily { Steadily D.medium (vm_file_of kernel.old) (vm_file_of kernel.new) }
    ensures writer_failed { IfErr result (λ fault. fault ≡ Write → Rose out.old.failures out.new.failures) }
    ensures writer_kept { KeptUnless Write result out.old.failures out.new.failures }
{
    kernel.memory_is_legal();
    if script.len() > MOST_BYTES {
        return Err(ScriptFault::TooLong);
    }
    let checked = load(alloc, image)?;
    let lines = good_lines(alloc, &checked, script)?;
    carry_out_lines(alloc, options, &checked, &lines, kernel, out)
}
