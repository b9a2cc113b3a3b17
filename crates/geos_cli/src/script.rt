//! Scripts: commands, read whole before the first one runs.

ghost use Rattle.std.specs.Prelude.{[], ◌∷◌, ◌≡◌, ◌≢◌, ◌↔◌, true, false, All, None, Ok, Err, IfOk, IfErr, MatchOption};
ghost use Rattle.std.specs.Io.KnownBytes.{Keeps};
ghost use Rattle.geos_input.specs.declared.fault.ScriptFault.TheVariants.{Write};
ghost use Rattle.vm_file.specs.Device.{Rose};
ghost use Rattle.vm_file.specs.State.{Steadily};
ghost use Rattle.geos_input.specs.Fault.{KeptUnless};
ghost use Rattle.script_commands.specs.MayCommit.{may_commit};
ghost use Rattle.script_commands.specs.Outputs.{IsGiven};
ghost use Rattle.geos_cli.specs.declared.script.Mode.TheVariants.{Lenient, Strict};
ghost use Rattle.geos_cli.specs.Script.{GoesOn, IsBadImage};
ghost use Rattle.script_commands.specs.Lines.{IsAdmitted};
ghost use Rattle.geos_cli.specs.Script.{RanCommand, StoppedCommand, RanCommands, StoppedCommands, RanScript, StoppedScript, ScriptEndsBy};
ghost use Rattle.geos_kernel.specs.Files.{vm_file_of};
ghost use Rattle.geos_kernel.specs.Kernel.{Calls};
ghost use Rattle.geos_kernel.specs.View.{IsFileOf, SeesDevice};
ghost use Rattle.geos_machine.specs.Runs.{OpensAsOneOf, Throughout};
ghost use Rattle.geos_calls.specs.VmFile.{VmFile};
ghost use Rattle.geos_calls.specs.VmCalls.{commit};
ghost use Rattle.vm_blocks.specs.Listed.{NoneLocked};
ghost use Rattle.vm_blocks.specs.ListedCalls.{keeper_of};
ghost use Rattle.geos_image.specs.Reading.{image_at};
ghost use Rattle.geos_verify.specs.Rules.{Accepted};
ghost use Rattle.geos_text.specs.Words.{words};

use crate::lending::{Runner, run_lent};
use geos_input::{Counted, MOST_BYTES, ScriptFault};
use geos_kernel::Kernel;
use geos_machine::{Follow, Unwatched};
use geos_terms::Refusal;
use geos_verify::{Checked, check};
use script_commands::{
    Command, Numbered, commands_of, first_commit, give_before, may_commit, print, print_refusal,
};
use std::alloc::Global;
use std::io::Write;
use vm_file::{Device, How};

/// What a script does after a refused command.
#[derive(Clone, Copy)]
pub enum Mode {
    /// It continues.
    Lenient,
    /// It ends.
    Strict,
}

/// A command of a script that was refused: a commit, or a call that lends a block which can't be locked.
#[derive(Clone, Copy)]
pub struct RefusedCommand {
    /// The number of its line, counted from 1.
    pub line: usize,
    /// Why it was refused.
    pub refusal: Refusal,
}

/// The VM file keeps one of its pairs of directories; no block of it is locked then, as before.
fn commit_kernel<D: Device + Drop>(kernel: &mut Kernel<D>, how: How) -> Result<(), Refusal>
    requires { NoneLocked kernel.old.core.blocks }
    ensures calls { Calls (D.medium.honest kernel.old.device) (commit (keeper_of how)) result kernel.old.core kernel.new.core }
    ensures honest { D.medium.honest kernel.new.device ↔ D.medium.honest kernel.old.device }
    ensures unlocked { NoneLocked kernel.new.core.blocks }
    ensures sees { SeesDevice D.medium kernel.old × SeesDevice D.medium kernel.new }
    ensures steadily { Steadily D.medium (vm_file_of kernel.old) (vm_file_of kernel.new) }
    ensures stops { (f g : VmFile) → IsFileOf (D.medium.honest kernel.old.device) kernel.old.core f
        → IsFileOf (D.medium.honest kernel.old.device) kernel.new.core g
        → D.medium.honest kernel.old.device → Throughout D.medium kernel.old.device kernel.new.device (OpensAsOneOf (f.kept ∷ g.kept ∷ [])) }
{
    kernel.memory_is_legal();
    let done = kernel.commit(how);
    kernel.memory_is_legal();
    done
}

/// Carries out a command, prints the output of a call or the number of a refusal, and returns the command's result. Output before a
/// command that may commit has been flushed.
pub(crate) fn carry_out<W: Write, D: Device + Drop, F: Follow + Drop>(
    runner: &mut Runner<F>,
    checked: &Checked,
    command: &Command,
    kernel: &mut Kernel<D>,
    out: &mut Counted<W>,
) -> Result<Result<(), Refusal>, ScriptFault>
    requires admitted { IsAdmitted checked.now command.now }
    requires unlocked { NoneLocked kernel.old.core.blocks }
    requires given { may_commit checked.now command.now ≡ true → IsGiven out.old.asked out.old.flushed }
    ensures ok { IfOk result (λ done. RanCommand (D.medium.honest kernel.old.device)
        (Throughout D.medium kernel.old.device kernel.new.device) checked.now command.now done kernel.old.core kernel.new.core
        (W.contents out.old.stream) (W.contents out.new.stream)) }
    ensures stopped { IfErr result (λ _. StoppedCommand (D.medium.honest kernel.old.device)
        (Throughout D.medium kernel.old.device kernel.new.device) checked.now command.now kernel.old.core kernel.new.core
        (W.contents out.old.stream) (W.contents out.new.stream)) }
    ensures honest { D.medium.honest kernel.new.device ↔ D.medium.honest kernel.old.device }
    ensures unlocked { NoneLocked kernel.new.core.blocks }
    ensures sees { SeesDevice D.medium kernel.old × SeesDevice D.medium kernel.new }
    ensures steadily { Steadily D.medium (vm_file_of kernel.old) (vm_file_of kernel.new) }
    ensures kept { IfOk result (λ _. out.new.failures ≡ out.old.failures) }
    ensures failed { IfErr result (λ fault. (fault ≡ Write) × Rose out.old.failures out.new.failures) }
{
    match command {
        Command::Call(call) => match run_lent(runner, checked, call, kernel) {
            Ok(outcome) => {
                print(outcome.output.as_slice(), out)?;
                Ok(Ok(()))
            }
            Err(refusal) => {
                print_refusal(refusal, out)?;
                Ok(Err(refusal))
            }
        },
        Command::Commit(how) => match commit_kernel(kernel, *how) {
            Ok(()) => Ok(Ok(())),
            Err(refusal) => {
                print_refusal(refusal, out)?;
                Ok(Err(refusal))
            }
        },
    }
}

/// The refused command after which the script ends, if the command of the line is one.
pub(crate) fn ended_by(mode: Mode, line: usize, done: Result<(), Refusal>) -> Option<RefusedCommand>
    ensures { MatchOption result (GoesOn mode done) (λ refused. (mode ≡ Strict) × (refused.line ≡ line) × (done ≡ Err refused.refusal)) }
{
    match (mode, done) {
        (Mode::Strict, Err(refusal)) => Some(RefusedCommand { line, refusal }),
        _ => None,
    }
}

/// Carries out the commands one after another, all of them or up to the refused command at which the script ends. Each runs on the kernel
/// that the previous one left. The output is flushed before a command that may commit, and after it before the next one.
pub(crate) fn carry_out_all<W: Write, D: Device + Drop>(
    mode: Mode,
    checked: &Checked,
    commands: &[Numbered],
    kernel: &mut Kernel<D>,
    out: &mut Counted<W>,
) -> Result<Option<RefusedCommand>, ScriptFault>
    requires admitted { All (λ c. IsAdmitted checked.now c.command) commands.now }
    requires unlocked { NoneLocked kernel.old.core.blocks }
    ensures ok { IfOk result (λ refused. RanCommands mode (D.medium.honest kernel.old.device)
        (Throughout D.medium kernel.old.device kernel.new.device) checked.now commands.now refused kernel.old.core kernel.new.core
        (W.contents out.old.stream) (W.contents out.new.stream)) }
    ensures lenient { mode ≡ Lenient → IfOk result (λ refused. refused ≡ None) }
    ensures stopped { IfErr result (λ _. StoppedCommands mode (D.medium.honest kernel.old.device)
        (Throughout D.medium kernel.old.device kernel.new.device) checked.now commands.now kernel.old.core kernel.new.core
        (W.contents out.old.stream) (W.contents out.new.stream)) }
    ensures honest { D.medium.honest kernel.new.device ↔ D.medium.honest kernel.old.device }
    ensures unlocked { NoneLocked kernel.new.core.blocks }
    ensures sees { SeesDevice D.medium kernel.old × SeesDevice D.medium kernel.new }
    ensures steadily { Steadily D.medium (vm_file_of kernel.old) (vm_file_of kernel.new) }
    ensures kept { IfOk result (λ _. out.new.failures ≡ out.old.failures) }
    ensures failed { IfErr result (λ fault. (fault ≡ Write) × Rose out.old.failures out.new.failures) }
{
    let mut runner = Runner::new(Unwatched);
    // what a stop before the first command leaves
    kernel.memory_is_legal();
    let first = first_commit(checked.image().points());
    let mut behind = false;
    for numbered in commands {
        let ahead = may_commit(checked, first, &numbered.command);
        give_before(behind, ahead, out)?;
        behind = ahead;
        let done = carry_out(&mut runner, checked, &numbered.command, kernel, out)?;
        if let Some(refused) = ended_by(mode, numbered.line, done) {
            return Ok(Some(refused));
        }
    }
    Ok(None)
}

/// The image that the bytes encode, checked.
pub(crate) fn load(alloc: Global, image: &[u8]) -> Result<Checked, ScriptFault>
    ensures image { IfOk result (λ checked. (image_at image.now ≡ Ok checked) × Accepted checked) }
    ensures bad { IfErr result (IsBadImage image.now) }
{
    let image = geos_image::read(alloc, image)?;
    match check(image) {
        Ok(checked) => Ok(checked),
        Err((_image, reject)) => Err(ScriptFault::from(reject)),
    }
}

/// Runs a script as `run_script` does, in a mode. A lenient script continues after a refused command, and returns `None`. A strict script
/// prints `refused` and the number, returns the command, and begins no later one; it returns `None` if no command is refused. The results
/// of a routine's own commits are the routine's to handle: they refuse no call. The faults are those of `run_script`.
pub fn run_script_in_mode<W: Write, D: Device + Drop>(
    alloc: Global,
    mode: Mode,
    image: &[u8],
    script: &[u8],
    kernel: &mut Kernel<D>,
    out: &mut Counted<W>,
) -> Result<Option<RefusedCommand>, ScriptFault>
    // No block of the file is locked by others: `Kernel::vm_unlocked` tells it.
    requires unlocked { NoneLocked kernel.old.core.blocks }
    // All commands are done, or those up to the returned one, and no later one began.
    // What it printed. After a stop at any moment, opening the file finds what the model's run of the
    // script has committed in one of its states.
    ensures ran { IfOk result (λ refused. RanScript mode (D.medium.honest kernel.old.device)
        (Throughout D.medium kernel.old.device kernel.new.device) image.now script.now refused kernel.old.core kernel.new.core
        (W.contents out.old.stream) (W.contents out.new.stream)) }
    ensures lenient { mode ≡ Lenient → IfOk result (λ refused. refused ≡ None) }
    ensures due { IfErr result (ScriptEndsBy image.now script.now) }
    ensures stopped { IfErr result (λ fault. fault ≡ Write →
        StoppedScript mode (D.medium.honest kernel.old.device) (Throughout D.medium kernel.old.device kernel.new.device)
        image.now script.now kernel.old.core kernel.new.core
        (W.contents out.old.stream) (W.contents out.new.stream)) }

    // The device is as honest as it was, no block of the file is locked again, and the count of failures
    // that bounds refusal 11 is the device's.
    ensures honest { D.medium.honest kernel.new.device ↔ D.medium.honest kernel.old.device }
    ensures unlocked { NoneLocked kernel.new.core.blocks }
    ensures sees { SeesDevice D.medium kernel.old × SeesDevice D.medium kernel.new }
    // If no call within the device's length fails, and the device has room for the file, none failed.
    ensures steadily { Steadily D.medium (vm_file_of kernel.old) (vm_file_of kernel.new) }

    // Nothing runs before a fault other than `Write`.
    ensures kernel_kept { IfErr result (λ fault. fault ≢ Write → kernel.new ≡ kernel.old) }

    // The writer is not used before the first command, and it failed exactly if `Write` is returned.
    ensures nothing_written { IfErr result (λ fault. fault ≢ Write → Keeps (W.contents out.old.stream) (W.contents out.new.stream)) }
    ensures not_asked { IfErr result (λ fault. fault ≢ Write → out.new.asked ≡ out.old.asked) }
    ensures writer_failed { IfErr result (λ fault. fault ≡ Write → Rose out.old.failures out.new.failures) }
    ensures writer_kept { KeptUnless Write result out.old.failures out.new.failures }
{
    kernel.memory_is_legal();
    if script.len() > MOST_BYTES {
        return Err(ScriptFault::TooLong);
    }
    let checked = load(alloc, image)?;
    let commands = commands_of(alloc, &checked, script)?;
    carry_out_all(mode, &checked, &commands, kernel, out)
}

/// Checks an image and runs a script. Its commands are calls, which print their output, or `refused` and a number if a block that they lend
/// can't be locked, and commits (`update`, `save`, `revert`), which print nothing, or `refused` and a number. Each command runs on the
/// kernel that the previous one left, and the kernel is left as the last command left it. The whole script is read first, and a bad script
/// runs nothing. Output is flushed before each command that may commit, also a call, and after it before the next command; the output of
/// the last command is not flushed.
///
/// Returns the first of these faults: `TooLong` if the script has more than 1,048,576 bytes; `BadImage`; `Rejected`; `BadScript`. `Memory` is
/// possible before the first command. After any of these the writer was not used, and the kernel is unchanged. `Write` if the writer failed:
/// either it got all that the commands before the last one print and a prefix of what the last one prints, and the last one is done; or a
/// flush before a command failed, the writer got all that the earlier commands print, and that command did not begin. No later command
/// began. If `Write` is not returned, no call of the writer failed.
pub fn run_script<W: Write, D: Device + Drop>(
    alloc: Global,
    image: &[u8],
    script: &[u8],
    kernel: &mut Kernel<D>,
    out: &mut Counted<W>,
) -> Result<(), ScriptFault>
    // No block of the file is locked by others: `Kernel::vm_unlocked` tells it.
    requires unlocked { NoneLocked kernel.old.core.blocks }
    // What it printed. After a stop at any moment, opening the file finds what the model's run of the
    // script has committed in one of its states.
    ensures ran { IfOk result (λ _. RanScript Lenient (D.medium.honest kernel.old.device)
        (Throughout D.medium kernel.old.device kernel.new.device) image.now script.now None kernel.old.core kernel.new.core
        (W.contents out.old.stream) (W.contents out.new.stream)) }
    ensures due { IfErr result (ScriptEndsBy image.now script.now) }
    ensures stopped { IfErr result (λ fault. fault ≡ Write →
        StoppedScript Lenient (D.medium.honest kernel.old.device) (Throughout D.medium kernel.old.device kernel.new.device)
        image.now script.now kernel.old.core kernel.new.core
        (W.contents out.old.stream) (W.contents out.new.stream)) }

    // The device is as honest as it was, no block of the file is locked again, and the count of failures
    // that bounds refusal 11 is the device's.
    ensures honest { D.medium.honest kernel.new.device ↔ D.medium.honest kernel.old.device }
    ensures unlocked { NoneLocked kernel.new.core.blocks }
    ensures sees { SeesDevice D.medium kernel.old × SeesDevice D.medium kernel.new }
    // If no call within the device's length fails, and the device has room for the file, none failed.
    ensures steadily { Steadily D.medium (vm_file_of kernel.old) (vm_file_of kernel.new) }

    // Nothing runs before a fault other than `Write`.
    ensures kernel_kept { IfErr result (λ fault. fault ≢ Write → kernel.new ≡ kernel.old) }

    // The writer is not used before the first command, and it failed exactly if `Write` is returned.
    ensures nothing_written { IfErr result (λ fault. fault ≢ Write → Keeps (W.contents out.old.stream) (W.contents out.new.stream)) }
    ensures not_asked { IfErr result (λ fault. fault ≢ Write → out.new.asked ≡ out.old.asked) }
    ensures writer_failed { IfErr result (λ fault. fault ≡ Write → Rose out.old.failures out.new.failures) }
    ensures writer_kept { KeptUnless Write result out.old.failures out.new.failures }
{
    match run_script_in_mode(alloc, Mode::Lenient, image, script, kernel, out) {
        Ok(_) => Ok(()),
        Err(fault) => Err(fault),
    }
}
