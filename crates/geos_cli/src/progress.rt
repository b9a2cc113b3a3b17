//! The commands of a script, one after another, whose outputs are printed in a form.

ghost use Rattle.std.specs.Prelude.{◌≡◌, ◌↔◌, ◌⊎◌, true, IfOk, IfErr};
ghost use Rattle.vm_file.specs.Device.{Rose};
ghost use Rattle.vm_file.specs.State.{Steadily};
ghost use Rattle.geos_input.specs.declared.fault.ScriptFault.TheVariants.{Memory, Write};
ghost use Rattle.geos_input.specs.Fault.{KeptUnless};
ghost use Rattle.script_commands.specs.MayCommit.{may_commit};
ghost use Rattle.script_commands.specs.Outputs.{IsGiven};
ghost use Rattle.geos_cli.specs.Begun.{IsBegunOn};
ghost use Rattle.geos_cli.specs.InForm.{StoppedNext, StoppedShown};
ghost use Rattle.script_commands.specs.Lines.{IsAdmitted};
ghost use Rattle.geos_cli.specs.WithNames.{RanNoting};
ghost use Rattle.geos_kernel.specs.Files.{vm_file_of};
ghost use Rattle.geos_kernel.specs.View.{SeesDevice};
ghost use Rattle.vm_blocks.specs.Listed.{NoneLocked};

use crate::lending::Runner;
use crate::script::carry_out;
use geos_input::{Counted, ScriptFault};
use geos_kernel::Kernel;
use geos_machine::Follow;
use geos_terms::Refusal;
use geos_verify::Checked;
use script_commands::{
    Command, Form, first_commit, first_put_out, give_before, may_commit, shown_in, write,
};
use std::alloc::Global;
use std::io::Write;
use vm_file::Device;

/// Carries out a command, and prints its output in a form. Returns the command's result, and the first word of its output. Its plain text
/// has at most 1,024 lines of six bytes. `Memory` if there is no memory for that or for the text in the form, `Write` if the writer fails;
/// the command is done in both cases.
fn carry_out_noting<W: Write, D: Device + Drop, F: Follow + Drop>(
    alloc: Global,
    form: Form,
    runner: &mut Runner<F>,
    checked: &Checked,
    command: &Command,
    kernel: &mut Kernel<D>,
    out: &mut Counted<W>,
) -> Result<(Result<(), Refusal>, Option<u16>), ScriptFault>
    requires admitted { IsAdmitted checked.now command.now }
    requires unlocked { NoneLocked kernel.old.core.blocks }
    requires given { may_commit checked.now command.now ≡ true → IsGiven out.old.asked out.old.flushed }
    ensures ok { IfOk result (λ came. RanNoting D.medium form checked.now command.now came.0 came.1 kernel.old kernel.new
        (W.contents out.old.stream) (W.contents out.new.stream)) }
    ensures stopped { IfErr result (λ _. StoppedShown D.medium form checked.now command.now kernel.old kernel.new
        (W.contents out.old.stream) (W.contents out.new.stream)) }
    ensures honest { D.medium.honest kernel.new.device ↔ D.medium.honest kernel.old.device }
    ensures unlocked { NoneLocked kernel.new.core.blocks }
    ensures sees { SeesDevice D.medium kernel.old × SeesDevice D.medium kernel.new }
    ensures steadily { Steadily D.medium (vm_file_of kernel.old) (vm_file_of kernel.new) }
    ensures fault { IfErr result (λ fault. (fault ≡ Write) ⊎ (fault ≡ Memory)) }
    ensures failed { IfErr result (λ fault. fault ≡ Write → Rose out.old.failures out.new.failures) }
    ensures kept { KeptUnless Write result out.old.failures out.new.failures }
{
    let mut plain = Counted::new(Vec::new(alloc));
    match carry_out(runner, checked, command, kernel, &mut plain) {
        Ok(done) => {
            let text = shown_in(alloc, form, checked, command, &plain.stream)?;
            write(out, &text)?;
            Ok((done, first_put_out(&plain.stream)))
        }
        Err(_) => Err(ScriptFault::Memory),
    }
}

/// How far a script is: what lasts from one of its commands to the next.
#[derive(Drop)]
pub struct Progress<F> {
    /// What runs its calls.
    runner: Runner<F>,
    /// The first pc of an instruction of the image that commits.
    first: Option<usize>,
    /// Whether the last command may have committed.
    behind: bool,
}

impl<F: Follow + Drop> Progress<F> {
    /// Before the first command. The follower learns how far each run is.
    pub fn new(checked: &Checked, follower: F) -> Progress<F>
        ensures { IsBegunOn checked.now result.first }
    {
        Progress {
            runner: Runner::new(follower),
            first: first_commit(checked.image().points()),
            behind: false,
        }
    }

    /// Carries out the next command on the image that it was begun on, and prints its output in a form. Returns the command's result, and the
    /// first word of its output. What was printed is flushed before, where this command may commit, or the last one may have; `Write` where
    /// that fails, and the command is not begun then. `Write` also if the writer fails later, and `Memory` if there is no memory for the
    /// output: the command is done in both cases.
    pub fn carry_out_next<W: Write, D: Device + Drop>(
        &mut self,
        alloc: Global,
        form: Form,
        checked: &Checked,
        command: &Command,
        kernel: &mut Kernel<D>,
        out: &mut Counted<W>,
    ) -> Result<(Result<(), Refusal>, Option<u16>), ScriptFault>
        requires admitted { IsAdmitted checked.now command.now }
        requires unlocked { NoneLocked kernel.old.core.blocks }
        requires begun { IsBegunOn checked.now self.old.first }
        ensures ok { IfOk result (λ came. RanNoting D.medium form checked.now command.now came.0 came.1 kernel.old kernel.new
            (W.contents out.old.stream) (W.contents out.new.stream)) }
        ensures stopped { IfErr result (λ _. StoppedNext D.medium form checked.now command.now kernel.old kernel.new
            (W.contents out.old.stream) (W.contents out.new.stream)) }
        ensures begun { IsBegunOn checked.now self.new.first }
        ensures honest { D.medium.honest kernel.new.device ↔ D.medium.honest kernel.old.device }
        ensures unlocked { NoneLocked kernel.new.core.blocks }
        ensures sees { SeesDevice D.medium kernel.old × SeesDevice D.medium kernel.new }
        ensures steadily { Steadily D.medium (vm_file_of kernel.old) (vm_file_of kernel.new) }
        ensures fault { IfErr result (λ fault. (fault ≡ Write) ⊎ (fault ≡ Memory)) }
        ensures failed { IfErr result (λ fault. fault ≡ Write → Rose out.old.failures out.new.failures) }
        ensures kept { KeptUnless Write result out.old.failures out.new.failures }
    {
        // for a device that the kernel sees
        kernel.memory_is_legal();
        let ahead = may_commit(checked, self.first, command);
        give_before(self.behind, ahead, out)?;
        self.behind = ahead;
        carry_out_noting(alloc, form, &mut self.runner, checked, command, kernel, out)
    }
}
