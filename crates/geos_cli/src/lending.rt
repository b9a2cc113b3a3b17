//! Calls of routines on blocks of the VM file, which are locked before the call and unlocked after it.

ghost use Rattle.std.specs.Prelude.{◌≡◌, ◌↔◌, ◌+◌, ◌≤◌, ◌<◌, ℕ, length, take, get_or, true, All};
ghost use Rattle.std.specs.Prelude.{Ok, Err, OnOk, OnErr, IfOk, IfErr};
ghost use Rattle.geos_terms.specs.Names.{vm};
ghost use Rattle.geos_calls.specs.VmFile.{VmFile};
ghost use Rattle.geos_calls.specs.VmCalls.{vlock};
ghost use Rattle.block_handles.specs.Store.{locks_of};
ghost use Rattle.vm_file.specs.Outcomes.{ReadsOnly};
ghost use Rattle.vm_file.specs.State.{Steadily};
ghost use Rattle.vm_blocks.specs.Listed.{NoneLocked};
ghost use Rattle.vm_blocks.specs.View.{vm_slot};
ghost use Rattle.geos_kernel.specs.Files.{vm_file_of};
ghost use Rattle.geos_kernel.specs.Kernel.{LeavesVm};
ghost use Rattle.geos_kernel.specs.View.{IsFileOf, IsLocked, SeesDevice};
ghost use Rattle.geos_machine.specs.Lent.{has_block};
ghost use Rattle.geos_machine.specs.Runs.{Throughout};
ghost use Rattle.granted_runs.specs.Keeps.{RanWithin};
ghost use Rattle.script_commands.specs.Lent.{lent_by, lent_handles};
ghost use Rattle.script_commands.specs.Lines.{may_ask};
ghost use Rattle.geos_cli.specs.Script.{once, times};
ghost use Rattle.script_commands.specs.Outputs.{printed};
ghost use Rattle.geos_cli.specs.Script.{Comes, LeadsOn, LockedMore, Locks, NotLent, NotLocked, RunsLent, Then, Unlocks, UnlocksOne};

use arrayvec::ArrayVec;
use geos_kernel::Kernel;
use geos_machine::{Follow, Machine, Outcome};
use geos_terms::{Name, Refusal};
use geos_verify::Checked;
use granted_runs::{RoutineCall, run_granted};
use script_commands::{Call, lent_handles};
use vm_file::Device;

/// Locks a block of the file once more.
pub(crate) fn lock<D: Device + Drop>(kernel: &mut Kernel<D>, h: u16) -> Result<(), Refusal>
    ensures leads { LeadsOn D.medium kernel.old kernel.new (λ allows. Comes allows (vlock h) result) }
    ensures counts { OnOk result ((g : ℕ) → locks_of kernel.new.core.blocks (vm_slot g) ≡ locks_of kernel.old.core.blocks (vm_slot g) + once h g) }
    ensures same { OnErr result ((g : ℕ) → locks_of kernel.new.core.blocks (vm_slot g) ≡ locks_of kernel.old.core.blocks (vm_slot g)) }
    ensures there { OnOk result (has_block kernel.new.core h ≡ true) }
    ensures stay { (g : ℕ) → has_block kernel.old.core g ≡ true → has_block kernel.new.core g ≡ true }
    ensures reads { ReadsOnly D.medium kernel.old.device kernel.new.device }
    ensures honest { D.medium.honest kernel.new.device ↔ D.medium.honest kernel.old.device }
    ensures sees { SeesDevice D.medium kernel.old × SeesDevice D.medium kernel.new }
    ensures steadily { Steadily D.medium (vm_file_of kernel.old) (vm_file_of kernel.new) }
{
    kernel.memory_is_legal();
    let locked = kernel.vlock(h);
    kernel.memory_is_legal();
    locked
}

/// Unlocks a block of the file once.
pub(crate) fn unlock<D: Device + Drop>(kernel: &mut Kernel<D>, h: u16)
    requires { IsLocked kernel.old.core (vm h) }
    ensures leads { LeadsOn D.medium kernel.old kernel.new (λ allows. UnlocksOne allows h) }
    ensures counts { (g : ℕ) → locks_of kernel.new.core.blocks (vm_slot g) + once h g ≡ locks_of kernel.old.core.blocks (vm_slot g) }
    ensures vm { LeavesVm kernel.old kernel.new }
    ensures honest { D.medium.honest kernel.new.device ↔ D.medium.honest kernel.old.device }
    ensures sees { SeesDevice D.medium kernel.old × SeesDevice D.medium kernel.new }
    ensures steadily { Steadily D.medium (vm_file_of kernel.old) (vm_file_of kernel.new) }
{
    kernel.memory_is_legal();
    kernel.vunlock(Name::vm(h));
    kernel.memory_is_legal();
}

/// Locks blocks one after another. If a lock is refused, it returns the refusal, and how many blocks are locked.
fn lock_all<D: Device + Drop>(
    kernel: &mut Kernel<D>,
    handles: &[u16],
) -> Result<(), (usize, Refusal)>
    ensures locked { IfOk result (λ _. LeadsOn D.medium kernel.old kernel.new (λ allows. Locks allows handles.now)) }
    ensures refused { IfErr result (λ e. LeadsOn D.medium kernel.old kernel.new
        (λ allows. Then (Locks allows (take e.0 handles.now)) (NotLocked allows (get_or handles.now e.0 0) e.1))) }
    ensures within { IfErr result (λ e. e.0 < length handles.now) }
    ensures counts { IfOk result (λ _. LockedMore kernel.old.core.blocks kernel.new.core.blocks handles.now) }
    ensures fewer { IfErr result (λ e. LockedMore kernel.old.core.blocks kernel.new.core.blocks (take e.0 handles.now)) }
    ensures there { IfOk result (λ _. All (λ h. has_block kernel.new.core h ≡ true) handles.now) }
    ensures honest { D.medium.honest kernel.new.device ↔ D.medium.honest kernel.old.device }
    ensures sees { SeesDevice D.medium kernel.old × SeesDevice D.medium kernel.new }
    ensures steadily { Steadily D.medium (vm_file_of kernel.old) (vm_file_of kernel.new) }
{
    kernel.memory_is_legal();
    for (k, h) in handles.iter().enumerate() {
        if let Err(refusal) = lock(kernel, *h) {
            return Err((k, refusal));
        }
    }
    Ok(())
}

/// Unlocks blocks one after another.
pub(crate) fn unlock_all<D: Device + Drop>(kernel: &mut Kernel<D>, handles: &[u16])
    requires { (g : ℕ) → times g handles.now ≤ locks_of kernel.old.core.blocks (vm_slot g) }
    ensures leads { LeadsOn D.medium kernel.old kernel.new (λ allows. Unlocks allows handles.now) }
    ensures counts { (g : ℕ) → locks_of kernel.new.core.blocks (vm_slot g) + times g handles.now ≡ locks_of kernel.old.core.blocks (vm_slot g) }
    ensures honest { D.medium.honest kernel.new.device ↔ D.medium.honest kernel.old.device }
    ensures sees { SeesDevice D.medium kernel.old × SeesDevice D.medium kernel.new }
    ensures steadily { Steadily D.medium (vm_file_of kernel.old) (vm_file_of kernel.new) }
{
    kernel.memory_is_legal();
    for h in handles {
        unlock(kernel, *h);
    }
}

/// Locks the blocks that a call lends, in the order of slots, and returns their handles. If a lock is refused, it
/// unlocks those that it has locked.
pub(crate) fn lock_lent<D: Device + Drop>(
    checked: &Checked,
    call: &Call,
    kernel: &mut Kernel<D>,
) -> Result<ArrayVec<u16, 4>, Refusal>
    requires admitted { may_ask checked.now call.now ≡ true }
    requires unlocked { NoneLocked kernel.old.core.blocks }
    ensures handles { IfOk result (λ lent. lent.items ≡ lent_by checked.now call.now) }
    ensures locked { IfOk result (λ _. LeadsOn D.medium kernel.old kernel.new (λ allows. Locks allows (lent_by checked.now call.now))) }
    ensures refused { IfErr result (λ why. LeadsOn D.medium kernel.old kernel.new
        (λ allows. NotLent allows (lent_by checked.now call.now) why)) }
    ensures there { IfOk result (λ _. All (λ h. has_block kernel.new.core h ≡ true) (lent_by checked.now call.now)) }
    ensures counts { IfOk result (λ _. (g : ℕ) → locks_of kernel.new.core.blocks (vm_slot g) ≡ times g (lent_by checked.now call.now)) }
    ensures unlocked { IfErr result (λ _. NoneLocked kernel.new.core.blocks) }
    ensures honest { D.medium.honest kernel.new.device ↔ D.medium.honest kernel.old.device }
    ensures sees { SeesDevice D.medium kernel.old × SeesDevice D.medium kernel.new }
    ensures steadily { Steadily D.medium (vm_file_of kernel.old) (vm_file_of kernel.new) }
{
    // for how often blocks are locked
    kernel.memory_is_legal();
    let lent = lent_handles(
        &checked.image().routine(call.routine).entry.slots,
        &call.handles,
    );
    match lock_all(kernel, lent.as_slice()) {
        Ok(()) => Ok(lent),
        Err((locked, refusal)) => {
            unlock_all(kernel, &lent.as_slice()[..locked]);
            Err(refusal)
        }
    }
}

/// What runs the calls of a script: a machine, and a follower of its runs.
#[derive(Drop)]
pub(crate) struct Runner<F> {
    machine: Machine,
    follower: F,
}

impl<F> Runner<F> {
    /// A machine at rest, and its follower.
    pub(crate) fn new(follower: F) -> Runner<F> {
        Runner {
            machine: Machine::new(),
            follower,
        }
    }
}

/// Runs the routine of a call on blocks that are locked for it.
fn run<'m, D: Device + Drop, F: Follow + Drop>(
    runner: &'m mut Runner<F>,
    checked: &Checked,
    call: &Call,
    kernel: &mut Kernel<D>,
) -> &'m Outcome
    requires admitted { may_ask checked.now call.now ≡ true }
    requires there { All (λ h. has_block kernel.old.core h ≡ true) (lent_by checked.now call.now) }
    requires counts { (g : ℕ) → locks_of kernel.old.core.blocks (vm_slot g) ≡ times g (lent_by checked.now call.now) }
    ensures ran { (f : VmFile) → IsFileOf (D.medium.honest kernel.old.device) kernel.old.core f
        → RanWithin (D.medium.honest kernel.old.device) (Throughout D.medium kernel.old.device kernel.new.device)
        checked.now call.now.routine call.now.words call.now.handles kernel.old.core kernel.new.core result.now f }
    ensures counts { (g : ℕ) → locks_of kernel.new.core.blocks (vm_slot g) ≡ locks_of kernel.old.core.blocks (vm_slot g) }
    ensures honest { D.medium.honest kernel.new.device ↔ D.medium.honest kernel.old.device }
    ensures sees { SeesDevice D.medium kernel.old × SeesDevice D.medium kernel.new }
    ensures steadily { Steadily D.medium (vm_file_of kernel.old) (vm_file_of kernel.new) }
{
    let call = RoutineCall {
        checked,
        routine: call.routine,
        words: &call.words,
        handles: &call.handles,
    };
    run_granted(&mut runner.machine, &call, kernel, &mut runner.follower)
}

/// Locks the blocks that a call lends, in the order of slots, runs its routine, and unlocks them. If a lock is
/// refused, it unlocks those that it has locked, and does not run the routine.
pub(crate) fn run_lent<'m, D: Device + Drop, F: Follow + Drop>(
    runner: &'m mut Runner<F>,
    checked: &Checked,
    call: &Call,
    kernel: &mut Kernel<D>,
) -> Result<&'m Outcome, Refusal>
    requires admitted { may_ask checked.now call.now ≡ true }
    requires unlocked { NoneLocked kernel.old.core.blocks }
    ensures ran { IfOk result (λ outcome. LeadsOn D.medium kernel.old kernel.new
        (λ allows. RunsLent allows checked.now call.now (printed outcome.now.output.items))) }
    ensures refused { IfErr result (λ why. LeadsOn D.medium kernel.old kernel.new
        (λ allows. NotLent allows (lent_by checked.now call.now) why)) }
    ensures honest { D.medium.honest kernel.new.device ↔ D.medium.honest kernel.old.device }
    ensures unlocked { NoneLocked kernel.new.core.blocks }
    ensures sees { SeesDevice D.medium kernel.old × SeesDevice D.medium kernel.new }
    ensures steadily { Steadily D.medium (vm_file_of kernel.old) (vm_file_of kernel.new) }
{
    let lent = lock_lent(checked, call, kernel)?;
    let outcome = run(runner, checked, call, kernel);
    unlock_all(kernel, lent.as_slice());
    Ok(outcome)
}
