//! One call, which words name.

ghost use Rattle.std.specs.Prelude.{◌≡◌, ◌≢◌, ◌↔◌, IfOk, IfErr, MatchResult};
ghost use Rattle.std.specs.Io.KnownBytes.{Keeps};
ghost use Rattle.vm_file.specs.Device.{Rose};
ghost use Rattle.vm_file.specs.State.{Steadily};
ghost use Rattle.geos_input.specs.declared.fault.ScriptFault.TheVariants.{Write};
ghost use Rattle.script_commands.specs.declared.call_fault.CallFault.TheVariants.{Script};
ghost use Rattle.script_commands.specs.Reading.{texts};
ghost use Rattle.geos_cli.specs.Calls.{RanCall, StoppedCall, CallEndsBy};
ghost use Rattle.geos_kernel.specs.Files.{vm_file_of};
ghost use Rattle.geos_kernel.specs.View.{SeesDevice};
ghost use Rattle.geos_machine.specs.Runs.{Throughout};
ghost use Rattle.vm_blocks.specs.Listed.{NoneLocked};

use crate::script::{Mode, RefusedCommand, carry_out_all, load};
use geos_input::Counted;
use geos_kernel::Kernel;
use script_commands::{CallFault, Command, Numbered, call_on, why_no_call};
use std::alloc::Global;
use std::io::Write;
use vm_file::Device;

/// Checks an image and runs the public routine `name` of it. Prints the words that it outputs, or `refused` and a number if a borrowed block
/// can't be locked, and then returns the refused call, as line 1. `words` has at most eight numbers, each of digits only, at most 65,535 and
/// within the bound of its word, and then `@` with the handle of a block for each slot that the routine borrows. The call runs on the
/// kernel's present memory, and only the routine's own instructions commit. Earlier output is flushed before a call that may commit; the
/// call's own output is not flushed.
///
/// Returns the first of these faults: `BadImage`; `Rejected`; `BadWord`; `BadBlocks`. `Memory` is possible before the call. After any of these
/// the writer was not used, and the kernel is unchanged. `Write` if the writer failed: either it got a prefix of what the call prints, and
/// the call is done; or the flush failed, and the call did not begin.
pub fn run_call<W: Write, D: Device + Drop>(
    alloc: Global,
    image: &[u8],
    name: &str,
    words: &[&str],
    kernel: &mut Kernel<D>,
    out: &mut Counted<W>,
) -> Result<Option<RefusedCommand>, CallFault>
    // No block of the file is locked by others: `Kernel::vm_unlocked` tells it.
    requires unlocked { NoneLocked kernel.old.core.blocks }
    // What it printed. After a stop at any moment, opening the file finds what the model's run of the
    // routine has committed in one of its states. Whatever is granted, if the routine does only that, its run
    // leaves what is not granted as it was.
    ensures ran { IfOk result (λ refused. RanCall (D.medium.honest kernel.old.device)
        (Throughout D.medium kernel.old.device kernel.new.device) image.now name.now (texts words.now) refused kernel.old.core kernel.new.core
        (W.contents out.old.stream) (W.contents out.new.stream)) }
    ensures due { IfErr result (CallEndsBy image.now name.now (texts words.now)) }
    ensures stopped { IfErr result (λ fault. fault ≡ Script Write →
        StoppedCall (D.medium.honest kernel.old.device) (Throughout D.medium kernel.old.device kernel.new.device)
        image.now name.now (texts words.now) kernel.old.core kernel.new.core
        (W.contents out.old.stream) (W.contents out.new.stream)) }

    // The device is as honest as it was, no block of the file is locked again, and the count of failures
    // that bounds refusal 11 is the device's.
    ensures honest { D.medium.honest kernel.new.device ↔ D.medium.honest kernel.old.device }
    ensures unlocked { NoneLocked kernel.new.core.blocks }
    ensures sees { SeesDevice D.medium kernel.old × SeesDevice D.medium kernel.new }
    // If no call within the device's length fails, and the device has room for the file, none failed.
    ensures steadily { Steadily D.medium (vm_file_of kernel.old) (vm_file_of kernel.new) }

    // Nothing runs before a fault other than `Write`.
    ensures kernel_kept { IfErr result (λ fault. fault ≢ Script Write → kernel.new ≡ kernel.old) }

    // The writer is not used before the call, and it failed exactly if `Write` is returned.
    ensures nothing_written { IfErr result (λ fault. fault ≢ Script Write → Keeps (W.contents out.old.stream) (W.contents out.new.stream)) }
    ensures not_asked { IfErr result (λ fault. fault ≢ Script Write → out.new.asked ≡ out.old.asked) }
    ensures writer_failed { IfErr result (λ fault. fault ≡ Script Write → Rose out.old.failures out.new.failures) }
    ensures writer_kept { MatchResult result (λ _. out.new.failures ≡ out.old.failures) (λ fault. fault ≢ Script Write
        → out.new.failures ≡ out.old.failures) }
{
    kernel.memory_is_legal();
    let checked = load(alloc, image)?;
    let Some(call) = call_on(&checked, name, words) else {
        return Err(why_no_call(&checked, name, words));
    };
    let command = Numbered {
        line: 1,
        command: Command::Call(call),
    };
    match carry_out_all(Mode::Strict, &checked, &[command], kernel, out) {
        Ok(refused) => Ok(refused),
        Err(fault) => Err(CallFault::Script(fault)),
    }
}
