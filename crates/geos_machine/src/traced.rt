//! Whole runs of which notes are taken.

ghost use Rattle.std.specs.Prelude.{◌≡◌, ◌↔◌, ◌≤◌, true, slice_get, IfSome};
ghost use Rattle.geos_calls.specs.VmFile.{VmFile};
ghost use Rattle.geos_terms.specs.declared.name.Name.{Name};
ghost use Rattle.block_handles.specs.Names.{slot_of};
ghost use Rattle.block_handles.specs.Store.{locks_of};
ghost use Rattle.vm_file.specs.State.{Steadily};
ghost use Rattle.geos_kernel.specs.Files.{vm_file_of};
ghost use Rattle.geos_kernel.specs.View.{IsFileOf, SeesDevice};
ghost use Rattle.geos_machine.specs.Lent.{Lends};
ghost use Rattle.geos_verify.specs.Entry.{admits, entry_slots};
ghost use Rattle.geos_machine.specs.Runs.{Throughout};
ghost use Rattle.geos_machine.specs.Traces.{IsEmpty, Traced};

use crate::call::RoutineCall;
use crate::head::head_of;
use crate::machine::Machine;
use crate::outcome::Outcome;
use crate::step::{Goes, step};
use crate::trace::{Left, Noted, Trace, left_by};
use crate::watch::{Unwatched, Watch};
use arrayvec::ArrayVec;
use geos_kernel::Kernel;
use vm_file::Device;

impl Machine {
    /// What is noted of a step after it.
    fn noted(&self, pc: u16, left: Left) -> Noted
        ensures { result ≡ record { pc = pc; left = left; words = self.now.words; counters = self.now.counters; slots = self.now.slots } }
    {
        Noted {
            pc,
            left,
            words: self.words,
            counters: self.counters,
            slots: self.slots,
        }
    }

    /// Runs a routine as `run` does, and notes its steps.
    pub fn trace<D: Device + Drop>(
        &mut self,
        call: &RoutineCall<'_>,
        kernel: &mut Kernel<D>,
        trace: &mut Trace,
    ) -> Outcome
        requires admitted { admits call.now.checked.now call.now.routine call.now.words.now ≡ true }
        requires lent { Lends kernel.old.core (entry_slots call.now.checked.now call.now.routine) call.now.handles.now }
        requires empty { IsEmpty trace.old }
        // The model's run is one as `run` promises it, and what is noted are its steps.
        ensures ran { (f : VmFile) → IsFileOf (D.medium.honest kernel.old.device) kernel.old.core f
            → Traced (D.medium.honest kernel.old.device) (Throughout D.medium kernel.old.device kernel.new.device)
            call.now.checked.now call.now.routine call.now.words.now call.now.handles.now kernel.old.core kernel.new.core result trace.old trace.new f }
        // The rest is as of `run`.
        ensures budget { IfSome (slice_get call.now.checked.now.routines call.now.routine) (λ r. result.steps ≤ r.budget) }
        ensures sees { SeesDevice D.medium kernel.old × SeesDevice D.medium kernel.new }
        ensures locks { (name : Name) → locks_of kernel.new.core.blocks (slot_of name) ≡ locks_of kernel.old.core.blocks (slot_of name) }
        ensures honest { D.medium.honest kernel.new.device ↔ D.medium.honest kernel.old.device }
        ensures steadily { Steadily D.medium (vm_file_of kernel.old) (vm_file_of kernel.new) }
    {
        self.trace_watched(call, kernel, trace, &mut Unwatched)
    }

    /// Runs a routine as `trace` does. A watcher sees the machine and the kernel before each step.
    // By itself, and apart from `run`, whose loop notes nothing.
    #[inline(never)]
    pub fn trace_watched<D: Device + Drop, W: Watch>(
        &mut self,
        call: &RoutineCall<'_>,
        kernel: &mut Kernel<D>,
        trace: &mut Trace,
        watcher: &mut W,
    ) -> Outcome
        requires admitted { admits call.now.checked.now call.now.routine call.now.words.now ≡ true }
        requires lent { Lends kernel.old.core (entry_slots call.now.checked.now call.now.routine) call.now.handles.now }
        requires empty { IsEmpty trace.old }
        // The model's run is one as `run` promises it, and what is noted are its steps.
        ensures ran { (f : VmFile) → IsFileOf (D.medium.honest kernel.old.device) kernel.old.core f
            → Traced (D.medium.honest kernel.old.device) (Throughout D.medium kernel.old.device kernel.new.device)
            call.now.checked.now call.now.routine call.now.words.now call.now.handles.now kernel.old.core kernel.new.core result trace.old trace.new f }
        // The rest is as of `run`.
        ensures budget { IfSome (slice_get call.now.checked.now.routines call.now.routine) (λ r. result.steps ≤ r.budget) }
        ensures sees { SeesDevice D.medium kernel.old × SeesDevice D.medium kernel.new }
        ensures locks { (name : Name) → locks_of kernel.new.core.blocks (slot_of name) ≡ locks_of kernel.old.core.blocks (slot_of name) }
        ensures honest { D.medium.honest kernel.new.device ↔ D.medium.honest kernel.old.device }
        ensures steadily { Steadily D.medium (vm_file_of kernel.old) (vm_file_of kernel.new) }
    {
        let image = call.checked.image();
        kernel.memory_is_legal();
        self.begin(call.words, call.handles);
        let mut pc = image.start(call.routine);
        let budget = image.routine(call.routine).budget;
        let mut left = budget;
        let mut returns: ArrayVec<u16, 32> = ArrayVec::new();
        'run: loop {
            left -= 1;
            watcher.sees(self, pc, kernel);
            let instr = image.instr(pc);
            let goes = step(self, kernel, instr, head_of(instr));
            trace.note(self.noted(pc, left_by(&goes)));
            pc = match goes {
                Goes::Along => pc + 1,
                Goes::Past => pc + 1,
                Goes::Further => pc + 1,
                Goes::To => instr.target,
                Goes::Back => instr.target,
                Goes::Calls(callee) => {
                    returns.push(pc + 1);
                    image.start(callee)
                }
                Goes::Returns => match returns.pop() {
                    Some(back) => back,
                    None => break,
                },
            };
        }
        kernel.memory_is_legal();
        Outcome {
            words: self.words,
            output: self.outcome.output.take(),
            steps: budget - left,
        }
    }
}
