//! What an instruction wrote in a step that was not refused.

use geos_image::Instr;
use geos_machine::{Left, Noted};
use geos_opcodes::{CounterUse, Kind, Offset, Opcode, PointerUse, SlotUse, Width, Yields};
use geos_text::put_numbered;
use std::alloc::AllocError;

/// What a word register has after the step.
fn word(noted: &Noted, a: u8) -> u64 {
    noted.words.get(usize::from(a)).map_or(0, |n| u64::from(*n))
}

/// Appends a register, and what it has.
fn put_set(out: &mut Vec<u8>, letter: &str, a: u8, n: u64) -> Result<(), AllocError> {
    put_numbered(out, letter, u64::from(a))?;
    put_numbered(out, "=", n)
}

/// Appends a word register, and what it has.
fn put_word(out: &mut Vec<u8>, noted: &Noted, a: u8) -> Result<(), AllocError> {
    put_set(out, " w", a, word(noted, a))
}

/// Appends the words that the instruction leaves.
fn put_words(out: &mut Vec<u8>, instr: &Instr, noted: &Noted) -> Result<(), AllocError> {
    match instr.opcode.facts().yields {
        Yields::Nothing => Ok(()),
        // CHK only compares.
        Yields::Computed => {
            if instr.opcode == Opcode::Chk {
                return Ok(());
            }
            put_word(out, noted, instr.a)
        }
        Yields::ByteInA | Yields::WordInA => put_word(out, noted, instr.a),
        Yields::WordInB => put_word(out, noted, instr.b),
        Yields::WordInAAndB => {
            put_word(out, noted, instr.a)?;
            put_word(out, noted, instr.b)
        }
    }
}

/// Whether it wrote counter a: LOOP does not where it continues.
fn writes_counter(counter: CounterUse, left: Left) -> bool {
    match counter {
        CounterUse::Untouched => false,
        CounterUse::SetTo | CounterUse::SetToWord => true,
        CounterUse::CountsDown => left == Left::ToTarget,
    }
}

/// Appends the counter that it leaves.
fn put_counter(out: &mut Vec<u8>, instr: &Instr, noted: &Noted) -> Result<(), AllocError> {
    if !writes_counter(instr.opcode.facts().counter, noted.left) {
        return Ok(());
    }
    let left = noted
        .counters
        .get(usize::from(instr.a))
        .map_or(0, |n| u64::from(*n));
    put_set(out, " k", instr.a, left)
}

/// What a block of a kind is called.
fn kind_word(kind: Kind) -> &'static str {
    match kind {
        Kind::MemBlock => "mem",
        Kind::VmBlock => "vm",
        Kind::DbGroup => "group",
    }
}

/// Appends the slot that it fills or leaves empty.
fn put_slot(out: &mut Vec<u8>, instr: &Instr, noted: &Noted) -> Result<(), AllocError> {
    let slot = u64::from(instr.a);
    match instr.opcode.facts().uses.slot {
        SlotUse::LocksNew(kind) | SlotUse::Locks(kind) => {
            put_numbered(out, " s", slot)?;
            out.extend_from_slice(b"=")?;
            out.extend_from_slice(kind_word(kind).as_bytes())?;
            let handle = noted
                .slots
                .get(usize::from(instr.a))
                .map_or(0, |name| u64::from(name.h));
            put_numbered(out, " ", handle)
        }
        SlotUse::Unlocks(_) => {
            put_numbered(out, " s", slot)?;
            out.extend_from_slice(b"=empty")
        }
        _ => Ok(()),
    }
}

/// Appends the pointer that it sets: to a chunk of the block in a slot, an element of an array, or an item.
fn put_set_pointer(out: &mut Vec<u8>, instr: &Instr, noted: &Noted) -> Result<(), AllocError> {
    put_numbered(out, " p", u64::from(instr.b))?;
    match instr.opcode {
        Opcode::Ilock => put_numbered(out, "=item ", word(noted, instr.d))?,
        Opcode::Caelt => {
            put_numbered(out, "=element ", word(noted, instr.d))?;
            put_numbered(out, " of chunk ", word(noted, instr.c))?;
        }
        _ => put_numbered(out, "=chunk ", word(noted, instr.c))?,
    }
    put_numbered(out, " of s", u64::from(instr.a))
}

/// The offset at which it reads or writes through a pointer.
fn offset_of(instr: &Instr, noted: &Noted, offset: Offset) -> u64 {
    match offset {
        Offset::Fixed => u64::from(instr.imm),
        Offset::Indexed | Offset::Tested => word(noted, instr.c),
    }
}

/// Appends the pointer that it sets, or the bytes that it writes through one.
fn put_pointer(out: &mut Vec<u8>, instr: &Instr, noted: &Noted) -> Result<(), AllocError> {
    match instr.opcode.facts().uses.pointer {
        PointerUse::Sets => put_set_pointer(out, instr, noted),
        PointerUse::Duplicates => {
            put_numbered(out, " p", u64::from(instr.a))?;
            put_numbered(out, "=p", u64::from(instr.b))
        }
        PointerUse::Stores(width, offset) => {
            put_numbered(out, " p", u64::from(instr.b))?;
            put_numbered(out, "+", offset_of(instr, noted, offset))?;
            let stored = match width {
                Width::Byte => word(noted, instr.a) % 256,
                Width::Both => word(noted, instr.a),
            };
            put_numbered(out, "=", stored)
        }
        PointerUse::Copies => {
            put_numbered(out, " p", u64::from(instr.a))?;
            put_numbered(out, "=", u64::from(instr.imm))?;
            put_numbered(out, " bytes of p", u64::from(instr.b))
        }
        PointerUse::NoPointer | PointerUse::Loads(_, _) | PointerUse::Measures => Ok(()),
    }
}

/// Appends all that it wrote: the word that it output, slots, pointers, words and counters.
pub(crate) fn put_writes(
    out: &mut Vec<u8>,
    instr: &Instr,
    noted: &Noted,
) -> Result<(), AllocError> {
    if instr.opcode == Opcode::Out {
        return put_numbered(out, " out ", word(noted, instr.a));
    }
    put_slot(out, instr, noted)?;
    put_pointer(out, instr, noted)?;
    put_words(out, instr, noted)?;
    put_counter(out, instr, noted)
}
