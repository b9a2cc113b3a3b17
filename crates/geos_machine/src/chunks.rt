//! Instructions on the chunks of a block that a slot holds.

ghost use Rattle.std.specs.Prelude.{◌≡◌, ◌||◌, slice_index_or, true};
ghost use Rattle.geos_image.specs.Fields.{FieldsFit};
ghost use Rattle.geos_semantics.specs.Model.{changing, changing_items, asking};
ghost use Rattle.geos_kernel.specs.Kernel.{LeavesVm};
ghost use Rattle.geos_machine.specs.Machine.{asks_of_chunks, changes_chunks, changes_item, Does, HasOperands, IsInstr, Ready, Works};

use crate::head::{index_a, index_b, index_c};
use crate::machine::Machine;
use crate::step::{Goes, refuse};
use geos_image::{Instr, Opcode};
use geos_kernel::{Ask, Change, Kernel, Span};
use geos_terms::Refusal;
use vm_file::Device;

/// The change that an instruction makes of chunks, or of items.
// In place, so that the compiler makes one of this match and of that by which the change is made.
#[inline(always)]
pub(crate) fn change_at(m: &Machine, i: &Instr) -> Change
    requires fields { FieldsFit i.now.opcode i.now }
    requires changes { (changes_chunks i.now.opcode || changes_item i.now.opcode) ≡ true }
    ensures chunks { changes_chunks i.now.opcode ≡ true → Does i.now m.now (changing result) }
    ensures items { changes_item i.now.opcode ≡ true → Does i.now m.now (changing_items (slice_index_or m.now.words i.now.a 0) result) }
{
    match i.opcode {
        Opcode::Lfree | Opcode::Ifree => Change::Lfree {
            c: m.words[i.b as usize],
        },
        Opcode::Lrealloc | Opcode::Irealloc => Change::Lrealloc {
            c: m.words[i.b as usize],
            n: m.words[i.c as usize],
        },
        Opcode::Lins | Opcode::Iins => Change::Lins {
            c: m.words[i.b as usize],
            at: m.words[i.c as usize],
            n: m.words[i.d as usize],
        },
        Opcode::Ldel | Opcode::Idel => Change::Ldel {
            c: m.words[i.b as usize],
            at: m.words[i.c as usize],
            n: m.words[i.d as usize],
        },
        Opcode::Lcontract => Change::Lcontract,
        Opcode::Caadd => Change::Caadd {
            c: m.words[i.b as usize],
            n: m.words[i.c as usize],
        },
        Opcode::Cains => Change::Cains {
            c: m.words[i.b as usize],
            i: m.words[i.c as usize],
            n: m.words[i.d as usize],
        },
        Opcode::Cadel => Change::Cadel {
            c: m.words[i.b as usize],
            i: m.words[i.c as usize],
        },
        Opcode::Cazero => Change::Cazero {
            c: m.words[i.b as usize],
        },
        Opcode::Caresize => Change::Caresize {
            c: m.words[i.b as usize],
            i: m.words[i.c as usize],
            n: m.words[i.d as usize],
        },
        _ => unreachable!(),
    }
}

/// The number that an instruction requests.
fn ask_at(m: &Machine, i: &Instr) -> Ask
    requires fields { FieldsFit i.now.opcode i.now }
    requires asks { asks_of_chunks i.now.opcode ≡ true }
    ensures { Does i.now m.now (asking result) }
{
    match i.opcode {
        Opcode::Lsize => Ask::Lsize {
            c: m.words[i.c as usize],
        },
        Opcode::Cacount => Ask::Cacount {
            c: m.words[i.c as usize],
        },
        _ => unreachable!(),
    }
}

/// Changes chunks.
#[inline(never)]
pub(crate) fn change<D: Device + Drop>(
    m: &mut Machine,
    kernel: &mut Kernel<D>,
    i: &Instr,
    a: usize,
) -> Goes
    requires fields { FieldsFit i.now.opcode i.now }
    requires a { a ≡ i.now.a }
    requires changes { changes_chunks i.now.opcode ≡ true }
    requires ready { Ready (D.medium.honest kernel.old.device) i.now kernel.old.core m.old }
    ensures works { Works (D.medium.honest kernel.old.device) i.now kernel.old.core m.old kernel.new.core m.new result }
    ensures vm { LeavesVm kernel.old kernel.new }
{
    let change = change_at(m, i);
    match kernel.change(m.slots[a], change) {
        Ok(()) => Goes::Along,
        Err(refusal) => refuse(m, i, refusal),
    }
}

/// Makes an array in a new chunk.
#[inline(never)]
pub(crate) fn canew<D: Device + Drop>(
    m: &mut Machine,
    kernel: &mut Kernel<D>,
    i: &Instr,
    a: usize,
) -> Goes
    requires instr { IsInstr Opcode.Canew i.now a }
    requires ready { Ready (D.medium.honest kernel.old.device) i.now kernel.old.core m.old }
    ensures works { Works (D.medium.honest kernel.old.device) i.now kernel.old.core m.old kernel.new.core m.new result }
    ensures vm { LeavesVm kernel.old kernel.new }
{
    match kernel.canew(m.slots[a], i.imm) {
        Ok(chunk) => {
            m.words[i.b as usize] = chunk;
            Goes::Along
        }
        Err(refusal) => refuse(m, i, refusal),
    }
}

/// Tells a number.
#[inline(never)]
pub(crate) fn ask<D: Device + Drop>(
    m: &mut Machine,
    kernel: &Kernel<D>,
    i: &Instr,
    a: usize,
) -> Goes
    requires fields { FieldsFit i.now.opcode i.now }
    requires a { a ≡ i.now.a }
    requires asks { asks_of_chunks i.now.opcode ≡ true }
    requires ready { Ready (D.medium.honest kernel.now.device) i.now kernel.now.core m.old }
    ensures { Works (D.medium.honest kernel.now.device) i.now kernel.now.core m.old kernel.now.core m.new result }
{
    let ask = ask_at(m, i);
    match kernel.ask(m.slots[a], ask) {
        Ok(n) => {
            m.words[i.b as usize] = n;
            Goes::Along
        }
        Err(refusal) => refuse(m, i, refusal),
    }
}

/// Makes a chunk of bytes.
#[inline]
pub(crate) fn lalloc<D: Device + Drop>(
    m: &mut Machine,
    kernel: &mut Kernel<D>,
    i: &Instr,
    operands: usize,
) -> Goes
    requires instr { HasOperands Opcode.Lalloc i.now operands }
    requires ready { Ready (D.medium.honest kernel.old.device) i.now kernel.old.core m.old }
    ensures works { Works (D.medium.honest kernel.old.device) i.now kernel.old.core m.old kernel.new.core m.new result }
    ensures vm { LeavesVm kernel.old kernel.new }
{
    let (a, b, c) = (
        index_a(i, operands),
        index_b(i, operands),
        index_c(i, operands),
    );
    match kernel.lalloc(m.slots[a], m.words[c]) {
        Ok(chunk) => {
            m.words[b] = chunk;
            Goes::Further
        }
        Err(refusal) => refuse(m, i, refusal),
    }
}

/// Frees a chunk.
#[inline]
pub(crate) fn lfree<D: Device + Drop>(
    m: &mut Machine,
    kernel: &mut Kernel<D>,
    i: &Instr,
    operands: usize,
) -> Goes
    requires instr { HasOperands Opcode.Lfree i.now operands }
    requires ready { Ready (D.medium.honest kernel.old.device) i.now kernel.old.core m.old }
    ensures works { Works (D.medium.honest kernel.old.device) i.now kernel.old.core m.old kernel.new.core m.new result }
    ensures vm { LeavesVm kernel.old kernel.new }
{
    let (a, b) = (index_a(i, operands), index_b(i, operands));
    match kernel.lfree(m.slots[a], m.words[b]) {
        Ok(()) => Goes::Further,
        Err(refusal) => refuse(m, i, refusal),
    }
}

/// Sets a pointer to a chunk.
#[inline]
pub(crate) fn deref<D: Device + Drop>(
    m: &mut Machine,
    kernel: &Kernel<D>,
    i: &Instr,
    operands: usize,
) -> Goes
    requires instr { HasOperands Opcode.Deref i.now operands }
    requires ready { Ready (D.medium.honest kernel.now.device) i.now kernel.now.core m.old }
    ensures { Works (D.medium.honest kernel.now.device) i.now kernel.now.core m.old kernel.now.core m.new result }
{
    let (a, b, c) = (
        index_a(i, operands),
        index_b(i, operands),
        index_c(i, operands),
    );
    match kernel.deref(m.slots[a], m.words[c], i.imm) {
        // field by field into the register, or the compiler makes one number of a span
        Ok(Span { at, len }) => {
            let pointer = &mut m.pointers[b];
            pointer.at = at;
            pointer.len = len;
            Goes::Further
        }
        // by itself, or the compiler sets the number before each test
        Err(Refusal::BadChunk) => refuse(m, i, Refusal::BadChunk),
        Err(refusal) => refuse(m, i, refusal),
    }
}

/// Sets a pointer to an element.
#[inline(never)]
pub(crate) fn caelt<D: Device + Drop>(
    m: &mut Machine,
    kernel: &Kernel<D>,
    i: &Instr,
    a: usize,
) -> Goes
    requires instr { IsInstr Opcode.Caelt i.now a }
    requires ready { Ready (D.medium.honest kernel.now.device) i.now kernel.now.core m.old }
    ensures { Works (D.medium.honest kernel.now.device) i.now kernel.now.core m.old kernel.now.core m.new result }
{
    let (c, index) = (m.words[i.c as usize], m.words[i.d as usize]);
    match kernel.caelt(m.slots[a], c, index, i.imm) {
        Ok(span) => {
            m.pointers[i.b as usize] = span;
            Goes::Along
        }
        Err(refusal) => refuse(m, i, refusal),
    }
}
