//! Scripts and calls whose outputs are printed in a form.

ghost use Rattle.std.specs.Prelude.{◌≡◌, ◌≢◌, ◌↔◌, ◌⊎◌, All, IfOk, IfErr, MatchResult};
ghost use Rattle.std.specs.Io.KnownBytes.{Keeps};
ghost use Rattle.vm_file.specs.Device.{Rose};
ghost use Rattle.vm_file.specs.State.{Steadily};
ghost use Rattle.geos_input.specs.declared.fault.ScriptFault.TheVariants.{Memory, Write};
ghost use Rattle.geos_input.specs.Fault.{KeptUnless};
ghost use Rattle.script_commands.specs.declared.call_fault.CallFault.TheVariants.{Script};
ghost use Rattle.script_commands.specs.Reading.{texts};
ghost use Rattle.geos_cli.specs.Calls.{CallEndsBy};
ghost use Rattle.geos_cli.specs.InForm.{RanInForm, StoppedInForm, RanScriptInForm, StoppedScriptInForm};
ghost use Rattle.geos_cli.specs.InForm.{RanCallInForm, StoppedCallInForm, Leaves, LeavesCall};
ghost use Rattle.script_commands.specs.Lines.{IsAdmitted};
ghost use Rattle.geos_cli.specs.Script.{ScriptEndsBy};
ghost use Rattle.geos_kernel.specs.Files.{vm_file_of};
ghost use Rattle.geos_kernel.specs.View.{SeesDevice};
ghost use Rattle.vm_blocks.specs.Listed.{NoneLocked};

use crate::progress::Progress;
use crate::script::{Mode, RefusedCommand, ended_by, load};
use geos_input::{Counted, MOST_BYTES, ScriptFault};
use geos_kernel::Kernel;
use geos_machine::Follow;
use geos_verify::Checked;
use script_commands::{CallFault, Command, Form, Numbered, call_on, commands_of, why_no_call};
use std::alloc::Global;
use std::io::Write;
use vm_file::Device;

/// How a script or a call runs.
#[derive(Drop)]
pub struct RunOptions<F> {
    /// How output is printed.
    pub form: Form,
    /// What follows a refused command.
    pub mode: Mode,
    /// Learns how far each run is.
    pub follower: F,
}

/// Carries out the commands one after another, as `carry_out_all` does, and prints in a form what they print.
fn carry_out_all_in_form<W: Write, D: Device + Drop, F: Follow + Drop>(
    alloc: Global,
    options: RunOptions<F>,
    checked: &Checked,
    commands: &[Numbered],
    kernel: &mut Kernel<D>,
    out: &mut Counted<W>,
) -> Result<Option<RefusedCommand>, ScriptFault>
    requires admitted { All (λ c. IsAdmitted checked.now c.command) commands.now }
    requires unlocked { NoneLocked kernel.old.core.blocks }
    ensures ran { IfOk result (λ refused. RanInForm D.medium options.form options.mode checked.now commands.now refused kernel.old kernel.new
        (W.contents out.old.stream) (W.contents out.new.stream)) }
    ensures stopped { IfErr result (λ _. StoppedInForm D.medium options.form options.mode checked.now commands.now kernel.old kernel.new
        (W.contents out.old.stream) (W.contents out.new.stream)) }
    ensures honest { D.medium.honest kernel.new.device ↔ D.medium.honest kernel.old.device }
    ensures unlocked { NoneLocked kernel.new.core.blocks }
    ensures sees { SeesDevice D.medium kernel.old × SeesDevice D.medium kernel.new }
    ensures steadily { Steadily D.medium (vm_file_of kernel.old) (vm_file_of kernel.new) }
    ensures fault { IfErr result (λ fault. (fault ≡ Write) ⊎ (fault ≡ Memory)) }
    ensures failed { IfErr result (λ fault. fault ≡ Write → Rose out.old.failures out.new.failures) }
    ensures kept { KeptUnless Write result out.old.failures out.new.failures }
{
    let RunOptions {
        form,
        mode,
        follower,
    } = options;
    let mut progress = Progress::new(checked, follower);
    kernel.memory_is_legal();
    for numbered in commands {
        let command = &numbered.command;
        let (done, _word) = progress.carry_out_next(alloc, form, checked, command, kernel, out)?;
        if let Some(refused) = ended_by(mode, numbered.line, done) {
            return Ok(Some(refused));
        }
    }
    Ok(None)
}

/// Runs a script as `run_script` does, and prints in a form what each of its commands prints.
///
/// The faults are those of `run_script`, and `Memory` also if there is no memory for what a command prints: that command is done, and no
/// other begins.
pub fn run_script_in_form<W: Write, D: Device + Drop, F: Follow + Drop>(
    alloc: Global,
    options: RunOptions<F>,
    image: &[u8],
    script: &[u8],
    kernel: &mut Kernel<D>,
    out: &mut Counted<W>,
) -> Result<Option<RefusedCommand>, ScriptFault>
    requires unlocked { NoneLocked kernel.old.core.blocks }
    // Each command did what it does in the plain form, and the writer got what they printed, in this form. After a stop at any moment,
    // opening the file finds what the model's run of the script has committed in one of its states.
    ensures ran { IfOk result (λ refused. RanScriptInForm D.medium options.form options.mode image.now script.now refused kernel.old kernel.new
        (W.contents out.old.stream) (W.contents out.new.stream)) }
    ensures due { IfErr result (ScriptEndsBy image.now script.now) }
    // Nothing ran and nothing was written, or some commands ran, and the writer got a prefix of their text. A stop then
    // leaves what the model's run of these has committed.
    ensures left { IfErr result (λ fault. Leaves fault
        ((kernel.new ≡ kernel.old) × Keeps (W.contents out.old.stream) (W.contents out.new.stream))
        (StoppedScriptInForm D.medium options.form options.mode image.now script.now kernel.old kernel.new (W.contents out.old.stream) (W.contents out.new.stream))) }
    ensures honest { D.medium.honest kernel.new.device ↔ D.medium.honest kernel.old.device }
    ensures unlocked { NoneLocked kernel.new.core.blocks }
    ensures sees { SeesDevice D.medium kernel.old × SeesDevice D.medium kernel.new }
    ensures steadily { Steadily D.medium (vm_file_of kernel.old) (vm_file_of kernel.new) }
    ensures writer_failed { IfErr result (λ fault. fault ≡ Write → Rose out.old.failures out.new.failures) }
    ensures writer_kept { KeptUnless Write result out.old.failures out.new.failures }
{
    kernel.memory_is_legal();
    if script.len() > MOST_BYTES {
        return Err(ScriptFault::TooLong);
    }
    let checked = load(alloc, image)?;
    let commands = commands_of(alloc, &checked, script)?;
    carry_out_all_in_form(alloc, options, &checked, &commands, kernel, out)
}

/// Runs one call as `run_call` does, which is strict, and prints its output in a form. The faults are those of `run_call`, and `Memory` also if there is no
/// memory for what the call prints: the call is done then.
pub fn run_call_in_form<W: Write, D: Device + Drop, F: Follow + Drop>(
    alloc: Global,
    options: RunOptions<F>,
    image: &[u8],
    name: &str,
    words: &[&str],
    kernel: &mut Kernel<D>,
    out: &mut Counted<W>,
) -> Result<Option<RefusedCommand>, CallFault>
    requires unlocked { NoneLocked kernel.old.core.blocks }
    // The call did what it does in the plain form, and the writer got what it printed, in this form. After a stop at any moment, opening
    // the file finds what the model's run of the call has committed in one of its states.
    ensures ran { IfOk result (λ refused. RanCallInForm D.medium options.form image.now name.now (texts words.now) refused kernel.old kernel.new
        (W.contents out.old.stream) (W.contents out.new.stream)) }
    ensures due { IfErr result (CallEndsBy image.now name.now (texts words.now)) }
    // Nothing ran and nothing was written, or the call ran, and the writer got a prefix of its text. A stop then leaves
    // what the model's run of it has committed.
    ensures left { IfErr result (λ fault. LeavesCall fault
        ((kernel.new ≡ kernel.old) × Keeps (W.contents out.old.stream) (W.contents out.new.stream))
        (StoppedCallInForm D.medium options.form image.now name.now (texts words.now) kernel.old kernel.new (W.contents out.old.stream) (W.contents out.new.stream))) }
    ensures honest { D.medium.honest kernel.new.device ↔ D.medium.honest kernel.old.device }
    ensures unlocked { NoneLocked kernel.new.core.blocks }
    ensures sees { SeesDevice D.medium kernel.old × SeesDevice D.medium kernel.new }
    ensures steadily { Steadily D.medium (vm_file_of kernel.old) (vm_file_of kernel.new) }
    ensures writer_failed { IfErr result (λ fault. fault ≡ Script Write → Rose out.old.failures out.new.failures) }
    ensures writer_kept { MatchResult result (λ _. out.new.failures ≡ out.old.failures) (λ fault. fault ≢ Script Write
        → out.new.failures ≡ out.old.failures) }
{
    kernel.memory_is_legal();
    let checked = load(alloc, image)?;
    let Some(call) = call_on(&checked, name, words) else {
        return Err(why_no_call(&checked, name, words));
    };
    let command = Numbered {
        line: 1,
        command: Command::Call(call),
    };
    let strict = RunOptions {
        mode: Mode::Strict,
        ..options
    };
    match carry_out_all_in_form(alloc, strict, &checked, &[command], kernel, out) {
        Ok(refused) => Ok(refused),
        Err(fault) => Err(CallFault::Script(fault)),
    }
}
