//! Instructions on blocks of the VM file, on groups and their items, and on the file.

ghost use Rattle.std.specs.Prelude.{◌≡◌, true};
ghost use Rattle.geos_image.specs.Fields.{FieldsFit};
ghost use Rattle.geos_semantics.specs.State.{with_word};
ghost use Rattle.geos_semantics.specs.Model.{nowhere};
ghost use Rattle.geos_kernel.specs.Files.{Between};
ghost use Rattle.geos_kernel.specs.Kernel.{LeavesVm};
ghost use Rattle.geos_machine.specs.Machine.{AnswersTo, changes_file, changes_item, HasOperands, IsInstr, marks_block, Ready, tells_of_file, unlocks_block, Works};

use crate::chunks::change_at;
use crate::head::{index_a, index_b};
use crate::machine::Machine;
use crate::step::{Goes, refuse};
use geos_image::{Instr, Opcode};
use geos_kernel::{Kernel, Make};
use geos_terms::{Name, Refusal};
use vm_file::Device;

/// Makes a block of the file, and locks it into a slot.
#[inline(never)]
pub(crate) fn vnew<D: Device + Drop>(
    m: &mut Machine,
    kernel: &mut Kernel<D>,
    i: &Instr,
    a: usize,
) -> Goes
    requires instr { IsInstr Opcode.Vnew i.now a }
    requires ready { Ready (D.medium.honest kernel.old.device) i.now kernel.old.core m.old }
    ensures works { Works (D.medium.honest kernel.old.device) i.now kernel.old.core m.old kernel.new.core m.new result }
    ensures between { Between D.medium kernel.old kernel.new }
{
    match kernel.vnew(m.words[i.c as usize]) {
        Ok(h) => {
            m.words[i.b as usize] = h;
            m.slots[a] = Name::vm(h);
            Goes::Along
        }
        Err(refusal) => refuse(m, i, refusal),
    }
}

/// Locks a block of the file into a slot.
#[inline]
pub(crate) fn vlock<D: Device + Drop>(
    m: &mut Machine,
    kernel: &mut Kernel<D>,
    i: &Instr,
    operands: usize,
) -> Goes
    requires instr { HasOperands Opcode.Vlock i.now operands }
    requires ready { Ready (D.medium.honest kernel.old.device) i.now kernel.old.core m.old }
    ensures works { Works (D.medium.honest kernel.old.device) i.now kernel.old.core m.old kernel.new.core m.new result }
    ensures between { Between D.medium kernel.old kernel.new }
{
    let (a, b) = (index_a(i, operands), index_b(i, operands));
    let h = m.words[b];
    match kernel.vlock(h) {
        Ok(()) => {
            m.slots[a] = Name::vm(h);
            Goes::Further
        }
        Err(refusal) => refuse(m, i, refusal),
    }
}

/// Locks a group into a slot, and sets a pointer to an item of it.
#[inline(never)]
pub(crate) fn ilock<D: Device + Drop>(
    m: &mut Machine,
    kernel: &mut Kernel<D>,
    i: &Instr,
    a: usize,
) -> Goes
    requires instr { IsInstr Opcode.Ilock i.now a }
    requires ready { Ready (D.medium.honest kernel.old.device) i.now kernel.old.core m.old }
    ensures works { Works (D.medium.honest kernel.old.device) i.now kernel.old.core m.old kernel.new.core m.new result }
    ensures between { Between D.medium kernel.old kernel.new }
{
    let g = m.words[i.c as usize];
    match kernel.ilock(g, m.words[i.d as usize], i.imm) {
        Ok(span) => {
            m.slots[a] = Name::vm(g);
            m.pointers[i.b as usize] = span;
            Goes::Along
        }
        Err(refusal) => refuse(m, i, refusal),
    }
}

/// Unlocks the block of a slot, which is empty then.
#[inline]
pub(crate) fn vunlock<D: Device + Drop>(
    m: &Machine,
    kernel: &mut Kernel<D>,
    i: &Instr,
    a: usize,
) -> Goes
    requires instr { IsInstr Opcode.Vunlock i.now a }
    requires ready { Ready (D.medium.honest kernel.old.device) i.now kernel.old.core m.now }
    ensures works { Works (D.medium.honest kernel.old.device) i.now kernel.old.core m.now kernel.new.core m.now result }
    ensures vm { LeavesVm kernel.old kernel.new }
{
    kernel.munlock(Name::vm(m.slots[a].h));
    Goes::Further
}

/// Unlocks the block or group of a slot, which is empty then.
#[inline]
pub(crate) fn unlock<D: Device + Drop>(
    m: &Machine,
    kernel: &mut Kernel<D>,
    i: &Instr,
    a: usize,
) -> Goes
    requires a { a ≡ i.now.a }
    requires fields { FieldsFit i.now.opcode i.now }
    requires unlocks { unlocks_block i.now.opcode ≡ true }
    requires ready { Ready (D.medium.honest kernel.old.device) i.now kernel.old.core m.now }
    ensures works { Works (D.medium.honest kernel.old.device) i.now kernel.old.core m.now kernel.new.core m.now result }
    ensures vm { LeavesVm kernel.old kernel.new }
{
    kernel.munlock(m.slots[a]);
    Goes::Further
}

/// Marks the block or group of a slot as changed.
#[inline]
pub(crate) fn mark<D: Device + Drop>(
    m: &Machine,
    kernel: &mut Kernel<D>,
    i: &Instr,
    a: usize,
) -> Goes
    requires a { a ≡ i.now.a }
    requires fields { FieldsFit i.now.opcode i.now }
    requires marks { marks_block i.now.opcode ≡ true }
    requires ready { Ready (D.medium.honest kernel.old.device) i.now kernel.old.core m.now }
    ensures works { Works (D.medium.honest kernel.old.device) i.now kernel.old.core m.now kernel.new.core m.now result }
    ensures between { Between D.medium kernel.old kernel.new }
{
    kernel.vdirty(m.slots[a]);
    Goes::Further
}

/// Asks the kernel for a change of the file or its items.
fn carry_out<D: Device + Drop>(
    m: &Machine,
    kernel: &mut Kernel<D>,
    i: &Instr,
    a: usize,
) -> Result<(), Refusal>
    requires a { a ≡ i.now.a }
    requires fields { FieldsFit i.now.opcode i.now }
    requires changes { changes_file i.now.opcode ≡ true }
    requires ready { Ready (D.medium.honest kernel.old.device) i.now kernel.old.core m.now }
    ensures answers { AnswersTo (D.medium.honest kernel.old.device) i.now kernel.old.core m.now kernel.new.core nowhere result }
    ensures between { Between D.medium kernel.old kernel.new }
{
    // that no block of the file is locked where the model has none locked
    kernel.memory_is_legal();
    match i.opcode {
        Opcode::Vfree => kernel.vfree(m.words[a]),
        Opcode::Vsetmap => kernel.vsetmap(m.words[a]),
        Opcode::Vupdate => kernel.vupdate(),
        Opcode::Vsave => kernel.vsave(),
        Opcode::Vrevert => kernel.vrevert(),
        Opcode::Gfree => kernel.gfree(m.words[a]),
        Opcode::Isetmap => kernel.isetmap(m.words[a], m.words[i.b as usize]),
        _ => change_item(m, kernel, i, a),
    }
}

/// Asks the kernel for a change of an item.
fn change_item<D: Device + Drop>(
    m: &Machine,
    kernel: &mut Kernel<D>,
    i: &Instr,
    a: usize,
) -> Result<(), Refusal>
    requires a { a ≡ i.now.a }
    requires fields { FieldsFit i.now.opcode i.now }
    requires changes { changes_item i.now.opcode ≡ true }
    ensures answers { AnswersTo (D.medium.honest kernel.old.device) i.now kernel.old.core m.now kernel.new.core nowhere result }
    ensures between { Between D.medium kernel.old kernel.new }
{
    let change = change_at(m, i);
    kernel.item_change(m.words[a], change)
}

/// Changes the file or its items.
#[inline(never)]
pub(crate) fn settle<D: Device + Drop>(
    m: &mut Machine,
    kernel: &mut Kernel<D>,
    i: &Instr,
    a: usize,
) -> Goes
    requires a { a ≡ i.now.a }
    requires fields { FieldsFit i.now.opcode i.now }
    requires changes { changes_file i.now.opcode ≡ true }
    requires ready { Ready (D.medium.honest kernel.old.device) i.now kernel.old.core m.old }
    ensures works { Works (D.medium.honest kernel.old.device) i.now kernel.old.core m.old kernel.new.core m.new result }
    ensures between { Between D.medium kernel.old kernel.new }
{
    match carry_out(m, kernel, i, a) {
        Ok(()) => Goes::Along,
        Err(refusal) => refuse(m, i, refusal),
    }
}

/// Asks the kernel for a word that tells of the file, or makes a group or an item.
fn told<D: Device + Drop>(m: &Machine, kernel: &mut Kernel<D>, i: &Instr) -> Result<u16, Refusal>
    requires fields { FieldsFit i.now.opcode i.now }
    requires tells { tells_of_file i.now.opcode ≡ true }
    ensures answers { AnswersTo (D.medium.honest kernel.old.device) i.now kernel.old.core m.now kernel.new.core (with_word i.now.a) result }
    ensures between { Between D.medium kernel.old kernel.new }
{
    match i.opcode {
        Opcode::Vfind => kernel.vfind(m.words[i.b as usize], m.words[i.c as usize]),
        Opcode::Vuid => kernel.vuid(m.words[i.b as usize]),
        Opcode::Vgetmap => Ok(kernel.vgetmap()),
        Opcode::Gnew => kernel.gnew(),
        Opcode::Inew => kernel.item_make(
            m.words[i.b as usize],
            Make::Lalloc {
                n: m.words[i.c as usize],
            },
        ),
        _ => unreachable!(),
    }
}

/// Tells a word of the file, or makes a group or an item and tells its handle.
#[inline(never)]
pub(crate) fn tell<D: Device + Drop>(
    m: &mut Machine,
    kernel: &mut Kernel<D>,
    i: &Instr,
    a: usize,
) -> Goes
    requires a { a ≡ i.now.a }
    requires fields { FieldsFit i.now.opcode i.now }
    requires tells { tells_of_file i.now.opcode ≡ true }
    ensures works { Works (D.medium.honest kernel.old.device) i.now kernel.old.core m.old kernel.new.core m.new result }
    ensures between { Between D.medium kernel.old kernel.new }
{
    match told(m, kernel, i) {
        Ok(n) => {
            m.words[a] = n;
            Goes::Along
        }
        Err(refusal) => refuse(m, i, refusal),
    }
}

/// Tells the map item.
#[inline(never)]
pub(crate) fn igetmap<D: Device + Drop>(
    m: &mut Machine,
    kernel: &Kernel<D>,
    i: &Instr,
    a: usize,
) -> Goes
    requires instr { IsInstr Opcode.Igetmap i.now a }
    ensures { Works (D.medium.honest kernel.now.device) i.now kernel.now.core m.old kernel.now.core m.new result }
{
    let (g, item) = kernel.igetmap();
    m.words[a] = g;
    m.words[i.b as usize] = item;
    Goes::Along
}
