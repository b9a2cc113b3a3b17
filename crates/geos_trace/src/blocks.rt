//! A block that a slot holds, with its chunks.

ghost use Rattle.geos_kernel.specs.View.{IsLocked};
ghost use Rattle.geos_kernel.specs.Spans.{IsStanding};

use crate::json::Json;
use geos_kernel::{Kernel, Name, Owner, Span};
use vm_file::Device;

/// The handle of the first chunk of a block.
pub(crate) const FIRST_CHUNK: u16 = 16;

/// The highest handle that a chunk can have.
pub(crate) const LAST_CHUNK: u16 = 65_534;

/// The most bytes of a chunk that are written.
const MOST_BYTES: u16 = 4_096;

/// Appends the bytes of a span in hexadecimal digits.
fn put_bytes<D: Device + Drop>(out: &mut Json, kernel: &Kernel<D>, span: Span)
    requires { IsStanding kernel.now.core span }
{
    for at in 0..span.len.min(MOST_BYTES) {
        out.put_hex(kernel.load8(span, at));
    }
}

/// Appends a chunk: its handle, where it lies in the region, its length, and its first bytes.
fn put_chunk<D: Device + Drop>(out: &mut Json, kernel: &Kernel<D>, chunk: u16, span: Span)
    requires { IsStanding kernel.now.core span }
{
    out.put(b"[");
    out.put_number(u64::from(chunk));
    out.put(b",");
    out.put_number(u64::from(span.at));
    out.put_numbers(&[span.len]);
    out.put(b",\"");
    put_bytes(out, kernel, span);
    out.put(b"\"]");
}

/// Appends the chunks of a locked block whose handles are at most `last`. Returns the highest handle, or 0 if there is no chunk.
fn put_chunks<D: Device + Drop>(out: &mut Json, kernel: &Kernel<D>, name: Name, last: u16) -> u16
    requires { IsLocked kernel.now.core name }
{
    let mut highest = 0;
    for half in FIRST_CHUNK / 2..=last / 2 {
        let chunk = half * 2;
        if let Ok(span) = kernel.deref(name, chunk, 0) {
            if highest > 0 {
                out.put(b",");
            }
            put_chunk(out, kernel, chunk, span);
            highest = chunk;
        }
    }
    highest
}

/// The number of an owner: 0 for a block of global memory, 1 for one of the VM file.
fn owner_number(name: Name) -> u16 {
    match name.owner {
        Owner::Mem => 0,
        Owner::Vm => 1,
    }
}

/// Appends owner and handle of a block.
pub(crate) fn put_name(out: &mut Json, name: Name) {
    out.put_numbers(&[owner_number(name), name.h]);
}

/// Appends where a block begins in the region, and its size; two zeros if it is not in memory.
fn put_place<D: Device + Drop>(out: &mut Json, kernel: &Kernel<D>, name: Name) {
    let blocks = kernel.blocks();
    let (at, size) = if blocks.has(name) {
        (blocks.place(name), blocks.size(name))
    } else {
        (0, 0)
    };
    out.put(b",");
    out.put_number(u64::from(at));
    out.put(b",");
    out.put_number(u64::from(size));
}

/// Appends a block, and its chunks with handles up to `last`: owner, handle, how often it is locked, whether it is marked as changed, its
/// chunks, and its place. Returns the highest handle of a chunk. A block that is not locked has no chunks here.
pub(crate) fn put_block<D: Device + Drop>(
    out: &mut Json,
    kernel: &Kernel<D>,
    name: Name,
    last: u16,
) -> u16 {
    let locks = kernel.locks(name);
    let marked = matches!(name.owner, Owner::Vm) && kernel.marked(name.h);
    put_name(out, name);
    out.put_numbers(&[locks, u16::from(marked)]);
    out.put(b",[");
    let highest = if locks > 0 {
        put_chunks(out, kernel, name, last)
    } else {
        0
    };
    out.put(b"]");
    put_place(out, kernel, name);
    highest
}
