//! Runs that leave what is not granted as it was.

ghost use Rattle.std.specs.Prelude.{◌≡◌, ◌≤◌, true, IfErr, IfOk};
ghost use Rattle.geos_calls.specs.VmFile.{VmFile};
ghost use Rattle.geos_verify.specs.Entry.{admits, entry_slots};
ghost use Rattle.geos_kernel.specs.View.{IsFileOf};
ghost use Rattle.geos_machine.specs.Lent.{Lends};
ghost use Rattle.geos_machine.specs.Runs.{Gave, Throughout};
ghost use Rattle.geos_semantics.specs.Lists.{Each};
ghost use Rattle.granted_runs.specs.Keeps.{RanWithin};

use geos_kernel::Kernel;
use geos_machine::{Follow, Machine, Outcome, RoutineCall, Trace, Watch};
use std::alloc::{AllocError, Global};
use vm_file::Device;

/// The same words, each of which is at most 65,535.
fn copied(words: &[u16; 8]) -> [u16; 8]
    ensures value { result ≡ words.now }
    ensures small { Each (λ n. n ≤ 65535) result }
{
    let [w0, w1, w2, w3, w4, w5, w6, w7] = *words;
    [w0, w1, w2, w3, w4, w5, w6, w7]
}

/// Runs a routine as `Machine::run_in_place` does. Take any set of granted effects that includes those of the routine,
/// which `geos_grants::grant` tests. Then the run leaves the following unchanged, whatever is refused:
///
/// - without `Output`, the output, which stays empty;
/// - without `Commits`, the committed pair on the device, at each moment of the run, and the saved directory;
/// - without `Map`, the map block and the map item;
/// - without `Memory`, all blocks of global memory, and without `LocksByHandle`, those that the caller has locked;
/// - without `ChangesFile`, on an honest device, the user IDs, chunks and sizes of all blocks and groups of the VM file
///   that the caller does not lend; and on every device, those of each block that the caller lends to slots without
///   `ChangesLent`.
///
/// Whatever is granted, no handle above the limit on handles has a block afterwards that it did not have before, and all blocks in
/// memory together have at most as many bytes as `Kernel::limit` let them have before.
///
/// `follower` learns how far the run is, as `Machine::run_in_place` tells it.
pub fn run_granted<'m, D: Device + Drop, F: Follow>(
    machine: &'m mut Machine,
    call: &RoutineCall<'_>,
    kernel: &mut Kernel<D>,
    follower: &mut F,
) -> &'m Outcome
    requires admitted { admits call.now.checked.now call.now.routine call.now.words.now ≡ true }
    requires lent { Lends kernel.old.core (entry_slots call.now.checked.now call.now.routine) call.now.handles.now }
    ensures gave { Gave D.medium call.now.checked.now call.now.routine call.now.words.now call.now.handles.now kernel.old kernel.new result.now }
    ensures within { (f : VmFile) → IsFileOf (D.medium.honest kernel.old.device) kernel.old.core f
        → RanWithin (D.medium.honest kernel.old.device) (Throughout D.medium kernel.old.device kernel.new.device)
        call.now.checked.now call.now.routine call.now.words.now call.now.handles.now kernel.old.core kernel.new.core result.now f }
{
    kernel.memory_is_legal();
    let _words = copied(call.words);
    let _image = call.checked.image();
    let outcome = machine.run_in_place(call, kernel, follower);
    let _taken = kernel.taken();
    outcome
}

/// Runs a routine as `run_granted` does, and shows a watcher the machine and the kernel before each step. What the run needs for this is
/// allocated here; `AllocError` if the allocator refuses, and then nothing has changed.
pub fn watch_granted<D: Device + Drop, W: Watch>(
    alloc: Global,
    machine: &mut Machine,
    call: &RoutineCall<'_>,
    kernel: &mut Kernel<D>,
    watcher: &mut W,
) -> Result<Outcome, AllocError>
    requires admitted { admits call.now.checked.now call.now.routine call.now.words.now ≡ true }
    requires lent { Lends kernel.old.core (entry_slots call.now.checked.now call.now.routine) call.now.handles.now }
    ensures gave { IfOk result (Gave D.medium call.now.checked.now call.now.routine call.now.words.now call.now.handles.now kernel.old kernel.new) }
    ensures within { IfOk result (λ outcome. (f : VmFile) → IsFileOf (D.medium.honest kernel.old.device) kernel.old.core f
        → RanWithin (D.medium.honest kernel.old.device) (Throughout D.medium kernel.old.device kernel.new.device)
        call.now.checked.now call.now.routine call.now.words.now call.now.handles.now kernel.old.core kernel.new.core outcome f) }
    ensures none { IfErr result (λ _. kernel.new ≡ kernel.old) }
{
    let mut trace = Trace::new(alloc, 0, 0, 0)?;
    kernel.memory_is_legal();
    let _words = copied(call.words);
    let _image = call.checked.image();
    let outcome = machine.trace_watched(call, kernel, &mut trace, watcher);
    let _taken = kernel.taken();
    Ok(outcome)
}
