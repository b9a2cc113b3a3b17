//! Instructions on blocks: which are made, locked, unlocked, freed and compared.

ghost use Rattle.std.specs.Prelude.{◌≡◌};
ghost use Rattle.geos_semantics.specs.State.{same_name};
ghost use Rattle.geos_kernel.specs.Kernel.{LeavesVm};
ghost use Rattle.geos_machine.specs.Machine.{HasOperands, IsInstr, Ready, Works};

use crate::head::{index_a, index_b};
use crate::machine::Machine;
use crate::step::{Goes, refuse, to_if};
use geos_image::{Instr, Opcode};
use geos_kernel::Kernel;
use geos_terms::{Name, Refusal};
use vm_file::Device;

/// Makes a block, and locks it into a slot.
#[inline(never)]
pub(crate) fn mnew<D: Device + Drop>(
    m: &mut Machine,
    kernel: &mut Kernel<D>,
    i: &Instr,
    a: usize,
) -> Goes
    requires instr { IsInstr Opcode.Mnew i.now a }
    requires ready { Ready (D.medium.honest kernel.old.device) i.now kernel.old.core m.old }
    ensures works { Works (D.medium.honest kernel.old.device) i.now kernel.old.core m.old kernel.new.core m.new result }
    ensures vm { LeavesVm kernel.old kernel.new }
{
    match kernel.mnew() {
        Ok(h) => {
            m.words[i.b as usize] = h;
            m.slots[a] = Name::mem(h);
            Goes::Along
        }
        Err(refusal) => refuse(m, i, refusal),
    }
}

/// Locks a block into a slot.
#[inline]
pub(crate) fn mlock<D: Device + Drop>(
    m: &mut Machine,
    kernel: &mut Kernel<D>,
    i: &Instr,
    operands: usize,
) -> Goes
    requires instr { HasOperands Opcode.Mlock i.now operands }
    requires ready { Ready (D.medium.honest kernel.old.device) i.now kernel.old.core m.old }
    ensures works { Works (D.medium.honest kernel.old.device) i.now kernel.old.core m.old kernel.new.core m.new result }
    ensures vm { LeavesVm kernel.old kernel.new }
{
    let (a, b) = (index_a(i, operands), index_b(i, operands));
    let h = m.words[b];
    match kernel.mlock(h) {
        Ok(()) => {
            m.slots[a] = Name::mem(h);
            Goes::Further
        }
        // by itself, or the compiler sets the number before each test
        Err(Refusal::BadHandle) => refuse(m, i, Refusal::BadHandle),
        Err(refusal) => refuse(m, i, refusal),
    }
}

/// Unlocks the block of a slot, which is empty then.
#[inline]
pub(crate) fn munlock<D: Device + Drop>(
    m: &Machine,
    kernel: &mut Kernel<D>,
    i: &Instr,
    a: usize,
) -> Goes
    requires instr { IsInstr Opcode.Munlock i.now a }
    requires ready { Ready (D.medium.honest kernel.old.device) i.now kernel.old.core m.now }
    ensures works { Works (D.medium.honest kernel.old.device) i.now kernel.old.core m.now kernel.new.core m.now result }
    ensures vm { LeavesVm kernel.old kernel.new }
{
    kernel.munlock(Name::mem(m.slots[a].h));
    Goes::Further
}

/// Frees a block.
#[inline(never)]
pub(crate) fn mfree<D: Device + Drop>(
    m: &mut Machine,
    kernel: &mut Kernel<D>,
    i: &Instr,
    a: usize,
) -> Goes
    requires instr { IsInstr Opcode.Mfree i.now a }
    requires ready { Ready (D.medium.honest kernel.old.device) i.now kernel.old.core m.old }
    ensures works { Works (D.medium.honest kernel.old.device) i.now kernel.old.core m.old kernel.new.core m.new result }
    ensures vm { LeavesVm kernel.old kernel.new }
{
    match kernel.mfree(m.words[a]) {
        Ok(()) => Goes::Along,
        Err(refusal) => refuse(m, i, refusal),
    }
}

/// Whether two names are one.
fn are_same(name: Name, other: Name) -> bool
    ensures { result ≡ same_name name other }
{
    name == other
}

/// To the target where two slots hold one block.
#[inline(never)]
pub(crate) fn sne<D: Device + Drop>(m: &Machine, kernel: &Kernel<D>, i: &Instr, a: usize) -> Goes
    requires instr { IsInstr Opcode.Sne i.now a }
    requires ready { Ready (D.medium.honest kernel.now.device) i.now kernel.now.core m.now }
    ensures { Works (D.medium.honest kernel.now.device) i.now kernel.now.core m.now kernel.now.core m.now result }
{
    let (name, other) = (m.slots[a], m.slots[i.b as usize]);
    to_if(are_same(name, other), i)
}
