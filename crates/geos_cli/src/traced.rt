//! One call, of whose steps notes are taken.

ghost use Rattle.std.specs.Prelude.{◌≡◌, ◌↔◌, ℕ, true, option_map, All, IfOk, IfErr};
ghost use Rattle.block_handles.specs.Store.{locks_of};
ghost use Rattle.geos_calls.specs.VmFile.{VmFile};
ghost use Rattle.vm_file.specs.State.{Steadily};
ghost use Rattle.vm_blocks.specs.Listed.{NoneLocked};
ghost use Rattle.vm_blocks.specs.View.{vm_slot};
ghost use Rattle.geos_kernel.specs.Files.{vm_file_of};
ghost use Rattle.geos_kernel.specs.View.{IsFileOf, SeesDevice};
ghost use Rattle.geos_machine.specs.Lent.{has_block};
ghost use Rattle.geos_machine.specs.Runs.{Throughout};
ghost use Rattle.geos_machine.specs.Traces.{IsEmpty, Traced};
ghost use Rattle.script_commands.specs.Reading.{texts};
ghost use Rattle.script_commands.specs.Lent.{lent_by};
ghost use Rattle.script_commands.specs.Lines.{may_ask};
ghost use Rattle.geos_cli.specs.Script.{times, LeadsOn, NotLent};
ghost use Rattle.geos_cli.specs.Traced.{stretch_of, IsMadeAs, IsTraced, TracesLent, WhyNotTraced};

use crate::lending::{lock_lent, unlock_all};
use crate::script::load;
use geos_input::ScriptFault;
use geos_kernel::Kernel;
use geos_machine::{Machine, Outcome, RoutineCall, Trace, Unwatched, Watch};
use geos_terms::Refusal;
use geos_verify::Checked;
use script_commands::{Call, CallFault, call_on, routine_named, why_no_call};
use std::alloc::Global;
use vm_file::Device;

/// A call by its words, and which of its steps are noted.
#[derive(Clone, Copy)]
pub struct NotedCall<'c, 'w> {
    /// The bytes of the image.
    pub image: &'c [u8],
    /// The name of the routine.
    pub name: &'c str,
    /// The numbers and blocks after the name.
    pub words: &'c [&'w str],
    /// The routine whose steps are noted; with none, those of all routines are.
    pub only: Option<&'c str>,
    /// How many steps are noted at most.
    pub most: usize,
}

/// A call that was carried out, and what was noted of it.
#[derive(Drop)]
pub struct TracedCall {
    /// The image of the routine.
    pub checked: Checked,
    /// The routine that was called.
    pub routine: u16,
    /// What the run gave.
    pub outcome: Outcome,
    /// What was noted of it.
    pub trace: Trace,
}

/// Why a call of whose steps notes are to be taken was not carried out.
#[derive(Drop)]
pub enum TraceFault {
    /// It would end so without notes too.
    Call(CallFault),
    /// There is no routine of the name whose steps are to be noted.
    NoRoutine,
}

/// The pcs of the routine of that name, or of all routines: the first one, and the one after the last.
fn stretch_of(checked: &Checked, only: Option<&str>) -> Option<(u16, u16)>
    ensures { result ≡ stretch_of checked.now (option_map (λ word. word.now) only.entry) }
{
    let image = checked.image();
    match only {
        None => Some((0, image.len())),
        Some(name) => {
            let routine = routine_named(image, name.as_bytes())?;
            let start = image.start(routine);
            Some((start, start + image.routine(routine).count))
        }
    }
}

/// Runs the routine of a call on blocks that are locked for it, and notes its steps.
fn trace<D: Device + Drop, W: Watch>(
    checked: &Checked,
    call: &Call,
    kernel: &mut Kernel<D>,
    notes: &mut Trace,
    watcher: &mut W,
) -> Outcome
    requires admitted { may_ask checked.now call.now ≡ true }
    requires there { All (λ h. has_block kernel.old.core h ≡ true) (lent_by checked.now call.now) }
    requires counts { (g : ℕ) → locks_of kernel.old.core.blocks (vm_slot g) ≡ times g (lent_by checked.now call.now) }
    requires empty { IsEmpty notes.old }
    ensures ran { (f : VmFile) → IsFileOf (D.medium.honest kernel.old.device) kernel.old.core f
        → Traced (D.medium.honest kernel.old.device) (Throughout D.medium kernel.old.device kernel.new.device)
        checked.now call.now.routine call.now.words call.now.handles kernel.old.core kernel.new.core result notes.old notes.new f }
    ensures made { IsMadeAs notes.old notes.new }
    ensures counts { (g : ℕ) → locks_of kernel.new.core.blocks (vm_slot g) ≡ locks_of kernel.old.core.blocks (vm_slot g) }
    ensures honest { D.medium.honest kernel.new.device ↔ D.medium.honest kernel.old.device }
    ensures sees { SeesDevice D.medium kernel.old × SeesDevice D.medium kernel.new }
    ensures steadily { Steadily D.medium (vm_file_of kernel.old) (vm_file_of kernel.new) }
{
    // for a file that the model may know
    kernel.memory_is_legal();
    let call = RoutineCall {
        checked,
        routine: call.routine,
        words: &call.words,
        handles: &call.handles,
    };
    Machine::new().trace_watched(&call, kernel, notes, watcher)
}

/// Runs the routine of a call of a script as the script would, and notes its steps. If a block that the call lends can't be locked, it returns
/// that refusal. It prints nothing.
pub fn trace_lent<D: Device + Drop, W: Watch>(
    checked: &Checked,
    call: &Call,
    kernel: &mut Kernel<D>,
    notes: &mut Trace,
    watcher: &mut W,
) -> Result<Outcome, Refusal>
    requires admitted { may_ask checked.now call.now ≡ true }
    requires unlocked { NoneLocked kernel.old.core.blocks }
    requires empty { IsEmpty notes.old }
    ensures ran { IfOk result (λ outcome. LeadsOn D.medium kernel.old kernel.new
        (λ allows. TracesLent allows checked.now call.now outcome notes.new)) }
    ensures refused { IfErr result (λ why. LeadsOn D.medium kernel.old kernel.new
        (λ allows. NotLent allows (lent_by checked.now call.now) why)) }
    ensures made { IfOk result (λ _. IsMadeAs notes.old notes.new) }
    ensures honest { D.medium.honest kernel.new.device ↔ D.medium.honest kernel.old.device }
    ensures unlocked { NoneLocked kernel.new.core.blocks }
    ensures sees { SeesDevice D.medium kernel.old × SeesDevice D.medium kernel.new }
    ensures steadily { Steadily D.medium (vm_file_of kernel.old) (vm_file_of kernel.new) }
{
    let lent = lock_lent(checked, call, kernel)?;
    let outcome = trace(checked, call, kernel, notes, watcher);
    unlock_all(kernel, lent.as_slice());
    Ok(outcome)
}

/// Checks an image and runs one routine of it, as `run_call` does, but prints nothing. It returns the output of the
/// run and a trace: as many steps, of the routines, as the call requests. If a block that the call lends can't be
/// locked, it returns that refusal. It allocates all memory before the run.
///
/// It reports the first fault, and then nothing has run: the faults of `run_call`, except for `Write`; and
/// `NoRoutine` if no routine has the name `only`.
pub fn trace_call<D: Device + Drop>(
    alloc: Global,
    call: &NotedCall<'_, '_>,
    kernel: &mut Kernel<D>,
) -> Result<Result<TracedCall, Refusal>, TraceFault>
    // No block of the file is locked by others: `Kernel::vm_unlocked` tells it.
    requires unlocked { NoneLocked kernel.old.core.blocks }
    // The model's locks, its run of the routine, what was noted of its steps, and the unlocks; or a lock that was refused.
    ensures ran { IfOk result (IsTraced D.medium kernel.old kernel.new call.now.image.now call.now.name.now (texts call.now.words.now)
        (option_map (λ word. word.now) call.now.only) call.now.most) }
    ensures due { IfErr result (WhyNotTraced call.now.image.now call.now.name.now (texts call.now.words.now)
        (option_map (λ word. word.now) call.now.only)) }
    // Nothing runs before a fault.
    ensures kept { IfErr result (λ _. kernel.new ≡ kernel.old) }
    ensures honest { D.medium.honest kernel.new.device ↔ D.medium.honest kernel.old.device }
    ensures unlocked { NoneLocked kernel.new.core.blocks }
    ensures sees { SeesDevice D.medium kernel.old × SeesDevice D.medium kernel.new }
    ensures steadily { Steadily D.medium (vm_file_of kernel.old) (vm_file_of kernel.new) }
{
    let mut nobody = Unwatched;
    trace_call_watched(alloc, call, kernel, &mut nobody)
}

/// Does as `trace_call`. A watcher sees the machine and the kernel before each step.
pub fn trace_call_watched<D: Device + Drop, W: Watch>(
    alloc: Global,
    call: &NotedCall<'_, '_>,
    kernel: &mut Kernel<D>,
    watcher: &mut W,
) -> Result<Result<TracedCall, Refusal>, TraceFault>
    // No block of the file is locked by others: `Kernel::vm_unlocked` tells it.
    requires unlocked { NoneLocked kernel.old.core.blocks }
    // The model's locks, its run of the routine, what was noted of its steps, and the unlocks; or a lock that was refused.
    ensures ran { IfOk result (IsTraced D.medium kernel.old kernel.new call.now.image.now call.now.name.now (texts call.now.words.now)
        (option_map (λ word. word.now) call.now.only) call.now.most) }
    ensures due { IfErr result (WhyNotTraced call.now.image.now call.now.name.now (texts call.now.words.now)
        (option_map (λ word. word.now) call.now.only)) }
    // Nothing runs before a fault.
    ensures kept { IfErr result (λ _. kernel.new ≡ kernel.old) }
    ensures honest { D.medium.honest kernel.new.device ↔ D.medium.honest kernel.old.device }
    ensures unlocked { NoneLocked kernel.new.core.blocks }
    ensures sees { SeesDevice D.medium kernel.old × SeesDevice D.medium kernel.new }
    ensures steadily { Steadily D.medium (vm_file_of kernel.old) (vm_file_of kernel.new) }
{
    kernel.memory_is_legal();
    let checked = match load(alloc, call.image) {
        Ok(checked) => checked,
        Err(fault) => return Err(TraceFault::Call(CallFault::Script(fault))),
    };
    let Some(asked) = call_on(&checked, call.name, call.words) else {
        return Err(TraceFault::Call(why_no_call(&checked, call.name, call.words)));
    };
    let Some((first, end)) = stretch_of(&checked, call.only) else {
        return Err(TraceFault::NoRoutine);
    };
    let Ok(mut notes) = Trace::new(alloc, first, end, call.most) else {
        return Err(TraceFault::Call(CallFault::Script(ScriptFault::Memory)));
    };
    match trace_lent(&checked, &asked, kernel, &mut notes, watcher) {
        Ok(outcome) => Ok(Ok(TracedCall {
            checked,
            routine: asked.routine,
            outcome,
            trace: notes,
        })),
        Err(refusal) => Ok(Err(refusal)),
    }
}
