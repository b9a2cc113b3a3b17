//! Instructions that go through pointers.

ghost use Rattle.std.specs.Prelude.{◌≡◌, ◌≤◌, ◌+◌, ◌%◌, not, nat_lt};
ghost use Rattle.geos_kernel.specs.Kernel.{LeavesVm};
ghost use Rattle.geos_machine.specs.Machine.{HasOperands, IsInstr, Ready, Works};

use crate::head::{index_a, index_b, index_c};
use crate::machine::Machine;
use crate::step::{Goes, refuse};
use geos_image::{Instr, Opcode};
use geos_kernel::{Kernel, Span};
use geos_terms::Refusal;
use vm_file::Device;

/// The low byte of a word.
fn low_byte(word: u16) -> u8
    ensures { result ≡ word % 256 }
{
    (word % 256) as u8
}

/// Reads a byte.
pub(crate) fn ldb<D: Device + Drop>(
    m: &mut Machine,
    kernel: &Kernel<D>,
    i: &Instr,
    operands: usize,
) -> Goes
    requires instr { HasOperands Opcode.Ldb i.now operands }
    requires ready { Ready (D.medium.honest kernel.now.device) i.now kernel.now.core m.old }
    ensures { Works (D.medium.honest kernel.now.device) i.now kernel.now.core m.old kernel.now.core m.new result }
{
    let (a, b) = (index_a(i, operands), index_b(i, operands));
    let (span, at) = (m.pointers[b], i.imm);
    m.words[a] = u16::from(kernel.load8(span, at));
    Goes::Along
}

/// Reads a word.
pub(crate) fn ldw<D: Device + Drop>(
    m: &mut Machine,
    kernel: &Kernel<D>,
    i: &Instr,
    operands: usize,
) -> Goes
    requires instr { HasOperands Opcode.Ldw i.now operands }
    requires ready { Ready (D.medium.honest kernel.now.device) i.now kernel.now.core m.old }
    ensures { Works (D.medium.honest kernel.now.device) i.now kernel.now.core m.old kernel.now.core m.new result }
{
    let (a, b) = (index_a(i, operands), index_b(i, operands));
    let (span, at) = (m.pointers[b], i.imm);
    m.words[a] = kernel.load16(span, at);
    Goes::Along
}

/// Writes a byte.
pub(crate) fn stb<D: Device + Drop>(
    m: &Machine,
    kernel: &mut Kernel<D>,
    i: &Instr,
    operands: usize,
) -> Goes
    requires instr { HasOperands Opcode.Stb i.now operands }
    requires ready { Ready (D.medium.honest kernel.old.device) i.now kernel.old.core m.now }
    ensures works { Works (D.medium.honest kernel.old.device) i.now kernel.old.core m.now kernel.new.core m.now result }
    ensures vm { LeavesVm kernel.old kernel.new }
{
    let (a, b) = (index_a(i, operands), index_b(i, operands));
    let (span, at) = (m.pointers[b], i.imm);
    kernel.store8(span, at, low_byte(m.words[a]));
    Goes::Along
}

/// Writes a word.
pub(crate) fn stw<D: Device + Drop>(
    m: &Machine,
    kernel: &mut Kernel<D>,
    i: &Instr,
    operands: usize,
) -> Goes
    requires instr { HasOperands Opcode.Stw i.now operands }
    requires ready { Ready (D.medium.honest kernel.old.device) i.now kernel.old.core m.now }
    ensures works { Works (D.medium.honest kernel.old.device) i.now kernel.old.core m.now kernel.new.core m.now result }
    ensures vm { LeavesVm kernel.old kernel.new }
{
    let (a, b) = (index_a(i, operands), index_b(i, operands));
    let (span, at) = (m.pointers[b], i.imm);
    kernel.store16(span, at, m.words[a]);
    Goes::Along
}

/// Reads a byte at an index.
pub(crate) fn ldxb<D: Device + Drop>(
    m: &mut Machine,
    kernel: &Kernel<D>,
    i: &Instr,
    operands: usize,
) -> Goes
    requires instr { HasOperands Opcode.Ldxb i.now operands }
    requires ready { Ready (D.medium.honest kernel.now.device) i.now kernel.now.core m.old }
    ensures { Works (D.medium.honest kernel.now.device) i.now kernel.now.core m.old kernel.now.core m.new result }
{
    let (a, b, c) = (
        index_a(i, operands),
        index_b(i, operands),
        index_c(i, operands),
    );
    let (span, at) = (m.pointers[b], m.words[c]);
    m.words[a] = u16::from(kernel.load8(span, at));
    Goes::Along
}

/// Reads a word at an index.
pub(crate) fn ldxw<D: Device + Drop>(
    m: &mut Machine,
    kernel: &Kernel<D>,
    i: &Instr,
    operands: usize,
) -> Goes
    requires instr { HasOperands Opcode.Ldxw i.now operands }
    requires ready { Ready (D.medium.honest kernel.now.device) i.now kernel.now.core m.old }
    ensures { Works (D.medium.honest kernel.now.device) i.now kernel.now.core m.old kernel.now.core m.new result }
{
    let (a, b, c) = (
        index_a(i, operands),
        index_b(i, operands),
        index_c(i, operands),
    );
    let (span, at) = (m.pointers[b], m.words[c]);
    m.words[a] = kernel.load16(span, at);
    Goes::Along
}

/// Writes a byte at an index.
pub(crate) fn stxb<D: Device + Drop>(
    m: &Machine,
    kernel: &mut Kernel<D>,
    i: &Instr,
    operands: usize,
) -> Goes
    requires instr { HasOperands Opcode.Stxb i.now operands }
    requires ready { Ready (D.medium.honest kernel.old.device) i.now kernel.old.core m.now }
    ensures works { Works (D.medium.honest kernel.old.device) i.now kernel.old.core m.now kernel.new.core m.now result }
    ensures vm { LeavesVm kernel.old kernel.new }
{
    let (a, b, c) = (
        index_a(i, operands),
        index_b(i, operands),
        index_c(i, operands),
    );
    let (span, at) = (m.pointers[b], m.words[c]);
    kernel.store8(span, at, low_byte(m.words[a]));
    Goes::Along
}

/// Writes a word at an index.
pub(crate) fn stxw<D: Device + Drop>(
    m: &Machine,
    kernel: &mut Kernel<D>,
    i: &Instr,
    operands: usize,
) -> Goes
    requires instr { HasOperands Opcode.Stxw i.now operands }
    requires ready { Ready (D.medium.honest kernel.old.device) i.now kernel.old.core m.now }
    ensures works { Works (D.medium.honest kernel.old.device) i.now kernel.old.core m.now kernel.new.core m.now result }
    ensures vm { LeavesVm kernel.old kernel.new }
{
    let (a, b, c) = (
        index_a(i, operands),
        index_b(i, operands),
        index_c(i, operands),
    );
    let (span, at) = (m.pointers[b], m.words[c]);
    kernel.store16(span, at, m.words[a]);
    Goes::Along
}

/// Whether a span of this length has so many bytes at an offset.
// Only the length is passed: of a whole span the compiler makes one number, and takes it apart again.
fn reaches(len: u16, at: u16, n: u32) -> bool
    requires { n ≤ 2 }
    ensures { result ≡ not (nat_lt len (at + n)) }
{
    u32::from(at) + n <= u32::from(len)
}

/// Reads a byte at an index that is tested.
pub(crate) fn ldcb<D: Device + Drop>(
    m: &mut Machine,
    kernel: &Kernel<D>,
    i: &Instr,
    operands: usize,
) -> Goes
    requires instr { HasOperands Opcode.Ldcb i.now operands }
    requires ready { Ready (D.medium.honest kernel.now.device) i.now kernel.now.core m.old }
    ensures { Works (D.medium.honest kernel.now.device) i.now kernel.now.core m.old kernel.now.core m.new result }
{
    let (a, b, c) = (
        index_a(i, operands),
        index_b(i, operands),
        index_c(i, operands),
    );
    let at = m.words[c];
    if !reaches(m.pointers[b].len, at, 1) {
        return refuse(m, i, Refusal::Range);
    }
    m.words[a] = u16::from(kernel.load8(m.pointers[b], at));
    Goes::Along
}

/// Reads a word at an index that is tested.
pub(crate) fn ldcw<D: Device + Drop>(
    m: &mut Machine,
    kernel: &Kernel<D>,
    i: &Instr,
    operands: usize,
) -> Goes
    requires instr { HasOperands Opcode.Ldcw i.now operands }
    requires ready { Ready (D.medium.honest kernel.now.device) i.now kernel.now.core m.old }
    ensures { Works (D.medium.honest kernel.now.device) i.now kernel.now.core m.old kernel.now.core m.new result }
{
    let (a, b, c) = (
        index_a(i, operands),
        index_b(i, operands),
        index_c(i, operands),
    );
    let at = m.words[c];
    if !reaches(m.pointers[b].len, at, 2) {
        return refuse(m, i, Refusal::Range);
    }
    m.words[a] = kernel.load16(m.pointers[b], at);
    Goes::Along
}

/// Writes a byte at an index that is tested.
pub(crate) fn stcb<D: Device + Drop>(
    m: &mut Machine,
    kernel: &mut Kernel<D>,
    i: &Instr,
    operands: usize,
) -> Goes
    requires instr { HasOperands Opcode.Stcb i.now operands }
    requires ready { Ready (D.medium.honest kernel.old.device) i.now kernel.old.core m.old }
    ensures works { Works (D.medium.honest kernel.old.device) i.now kernel.old.core m.old kernel.new.core m.new result }
    ensures vm { LeavesVm kernel.old kernel.new }
{
    let (a, b, c) = (
        index_a(i, operands),
        index_b(i, operands),
        index_c(i, operands),
    );
    let at = m.words[c];
    if !reaches(m.pointers[b].len, at, 1) {
        return refuse(m, i, Refusal::Range);
    }
    kernel.store8(m.pointers[b], at, low_byte(m.words[a]));
    Goes::Along
}

/// Writes a word at an index that is tested.
pub(crate) fn stcw<D: Device + Drop>(
    m: &mut Machine,
    kernel: &mut Kernel<D>,
    i: &Instr,
    operands: usize,
) -> Goes
    requires instr { HasOperands Opcode.Stcw i.now operands }
    requires ready { Ready (D.medium.honest kernel.old.device) i.now kernel.old.core m.old }
    ensures works { Works (D.medium.honest kernel.old.device) i.now kernel.old.core m.old kernel.new.core m.new result }
    ensures vm { LeavesVm kernel.old kernel.new }
{
    let (a, b, c) = (
        index_a(i, operands),
        index_b(i, operands),
        index_c(i, operands),
    );
    let at = m.words[c];
    if !reaches(m.pointers[b].len, at, 2) {
        return refuse(m, i, Refusal::Range);
    }
    kernel.store16(m.pointers[b], at, m.words[a]);
    Goes::Along
}

/// Sets a pointer to what another one is.
pub(crate) fn movp<D: Device + Drop>(
    m: &mut Machine,
    kernel: &Kernel<D>,
    i: &Instr,
    operands: usize,
) -> Goes
    requires instr { HasOperands Opcode.Movp i.now operands }
    requires ready { Ready (D.medium.honest kernel.now.device) i.now kernel.now.core m.old }
    ensures { Works (D.medium.honest kernel.now.device) i.now kernel.now.core m.old kernel.now.core m.new result }
{
    let (a, b) = (index_a(i, operands), index_b(i, operands));
    m.pointers[a] = m.pointers[b];
    Goes::Along
}

/// Copies bytes from one pointer to another.
#[inline(never)]
pub(crate) fn copy<D: Device + Drop>(
    m: &Machine,
    kernel: &mut Kernel<D>,
    i: &Instr,
    a: usize,
) -> Goes
    requires instr { IsInstr Opcode.Copy i.now a }
    requires ready { Ready (D.medium.honest kernel.old.device) i.now kernel.old.core m.now }
    ensures works { Works (D.medium.honest kernel.old.device) i.now kernel.old.core m.now kernel.new.core m.now result }
    ensures vm { LeavesVm kernel.old kernel.new }
{
    kernel.copy(m.pointers[a], m.pointers[i.b as usize], i.imm);
    Goes::Further
}

/// Tells the length of what a pointer leads to.
pub(crate) fn plen<D: Device + Drop>(
    m: &mut Machine,
    kernel: &Kernel<D>,
    i: &Instr,
    operands: usize,
) -> Goes
    requires instr { HasOperands Opcode.Plen i.now operands }
    requires ready { Ready (D.medium.honest kernel.now.device) i.now kernel.now.core m.old }
    ensures { Works (D.medium.honest kernel.now.device) i.now kernel.now.core m.old kernel.now.core m.new result }
{
    let (a, b) = (index_a(i, operands), index_b(i, operands));
    m.words[a] = m.pointers[b].len;
    Goes::Along
}
