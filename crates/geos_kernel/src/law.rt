//! The lemma on lists of calls.

ghost use Rattle.std.specs.Prelude.{◌↔◌};
ghost use Rattle.geos_kernel.specs.Turns.{AnswersAlike, CallsAnswerInTurn};

use vm_file::Device;

/// Let any calls be made, each on the kernel that the previous one left. The results, and the
/// memory that is left, are those of their rows in the table of calls, one after another, under
/// some choice of what comes from outside at each. A span that was valid before the calls is valid
/// after them, if none of them made its reference stale. This covers all calls of the kernel,
/// with loads and stores through spans, since each promises `Calls` of its row, `GivesSpan` or
/// `LeadsToSpan`. The device is the kernel's before the calls.
pub fn calls_answer_in_turn<D: Device>(device: &D)
    ensures { CallsAnswerInTurn (D.medium.honest device.now) }
{
    let _ = device;
}

/// What a call promises of a kernel on a later device it promises of the same on an earlier one, where
/// the one is honest exactly if the other is: a call that asks a device leaves it so (`ReadsFile`,
/// `Commits`). So the lists of the lemma above may have calls that use the device, too.
pub fn later_calls_answer_alike<D: Device>(earlier: &D, later: &D)
    ensures { (D.medium.honest later.now ↔ D.medium.honest earlier.now) → AnswersAlike (D.medium.honest later.now) (D.medium.honest earlier.now) }
{
    let _ = earlier;
    let _ = later;
}
