//! Copying of bytes from and to chunks and elements of arrays.

ghost use Rattle.std.specs.Prelude.{◌≡◌, ◌≢◌, ◌+◌, ◌<◌, ◌≤◌, length, IfNone, IfSome};
ghost use Rattle.geos_calls.specs.ArrayCalls as arrays;
ghost use Rattle.geos_calls.specs.Calls as table;
ghost use Rattle.geos_calls.specs.ChunkCalls.{least, refer_row};
ghost use Rattle.takhvoi.specs.Answers.{ChangesIn, Done, On, Served};
ghost use Rattle.takhvoi.specs.Bytes.{IsCopied, IsMeasured, IsWritten, ServesRead, ServesWrite};
ghost use Rattle.takhvoi.specs.Names.{name_of};
ghost use Rattle.takhvoi.specs.Own.{MayNotRead, MayNotWrite, NotLocked};

use crate::chunks::{is_settled, may_change};
use crate::handle::Handle;
use crate::held::{put, take};
use crate::status::{BAD_SIZE, DONE, NO_KERNEL, NOT_LOCKED, NOT_MARKED, PENDING, name_of, number};
use crate::system::System;
use geos_calls::Refer;
use geos_kernel::Name;
use std::alloc::Global;

/// The end of a range of bytes, if it is at most 65,535.
fn end_of(at: u16, len: usize) -> Option<u16>
    ensures some { IfSome result (λ end. end ≡ at + len) }
    ensures none { IfNone result (65535 < at + len) }
{
    if len <= usize::from(u16::MAX - at) {
        Some(at + len as u16)
    } else {
        None
    }
}

/// The place of bytes: the number of a block, what the value refers to, and an offset there.
#[derive(Clone, Copy)]
struct Place {
    block: u32,
    refer: Refer,
    at: u16,
}

fn read_in(system: &mut System, name: Name, refer: Refer, at: u16, into: &mut [u8]) -> u32
    requires { at + length into.old ≤ least refer }
    ensures done { Done (MayNotRead name at (length into.old)) (IsCopied (refer_row name refer) at into.new) result system.old system.new }
    ensures kept { (result ≡ 0 → ⊥) → into.new ≡ into.old }
{
    if system.kernel.locks(name) == 0 {
        return NOT_LOCKED;
    }
    match system.kernel.refer(name, refer) {
        Ok(span) => {
            system.kernel.read(span, at, into);
            DONE
        }
        Err(refusal) => number(refusal),
    }
}

/// Copies bytes out of what the value refers to, from the offset on.
fn read(alloc: Global, handle: &mut Handle, place: Place, into: &mut [u8]) -> u32
    requires { place.at + length into.old ≤ least place.refer }
    ensures served { Served (MayNotRead (name_of place.block) place.at (length into.old)) (IsCopied (refer_row (name_of place.block) place.refer) place.at into.new)
        result handle.old handle.new }
    ensures kept { (result ≡ 0 → ⊥) → into.new ≡ into.old }
{
    let Some(mut system) = take(alloc, handle) else {
        return NO_KERNEL;
    };
    let status = read_in(
        &mut system,
        name_of(place.block),
        place.refer,
        place.at,
        into,
    );
    put(handle, system);
    status
}

fn write_in(system: &mut System, name: Name, refer: Refer, at: u16, from: &[u8]) -> u32
    requires { at + length from.now ≤ least refer }
    ensures { Done (MayNotWrite name at (length from.now)) (ChangesIn name (IsWritten (refer_row name refer) at from.now)) result system.old system.new }
{
    if system.kernel.locks(name) == 0 {
        return NOT_LOCKED;
    }
    if !may_change(system, name) {
        return NOT_MARKED;
    }
    if !is_settled(system, name) {
        return PENDING;
    }
    match system.kernel.refer(name, refer) {
        Ok(span) => {
            system.kernel.store(span, at, from);
            DONE
        }
        Err(refusal) => number(refusal),
    }
}

/// Stores bytes into what the value refers to, from the offset on.
fn write(alloc: Global, handle: &mut Handle, place: Place, from: &[u8]) -> u32
    requires { place.at + length from.now ≤ least place.refer }
    ensures { Served (MayNotWrite (name_of place.block) place.at (length from.now))
        (ChangesIn (name_of place.block) (IsWritten (refer_row (name_of place.block) place.refer) place.at from.now)) result handle.old handle.new }
{
    let Some(mut system) = take(alloc, handle) else {
        return NO_KERNEL;
    };
    let status = write_in(
        &mut system,
        name_of(place.block),
        place.refer,
        place.at,
        from,
    );
    put(handle, system);
    status
}

/// `BAD_SIZE`, if the handle has a kernel.
fn refuse(alloc: Global, handle: &mut Handle) -> u32
    ensures same { On (λ old new. new ≡ old) result handle.old handle.new }
    ensures own { handle.old.live ≢ 0 → result ≡ 105 }
{
    let Some(system) = take(alloc, handle) else {
        return NO_KERNEL;
    };
    put(handle, system);
    BAD_SIZE
}

/// Copies bytes of a chunk out, from an offset on, as many as `into` has. If it is not done, `into` is as before.
#[unsafe(no_mangle)]
pub extern "C" fn takhvoi_read(
    alloc: Global,
    handle: &mut Handle,
    block: u32,
    chunk: u16,
    at: u16,
    into: &mut [u8],
) -> u32
    ensures served { ServesRead (name_of block) (table.deref (name_of block) chunk) at (length into.old) into.new result handle.old handle.new }
    ensures kept { (result ≡ 0 → ⊥) → into.new ≡ into.old }
{
    match end_of(at, into.len()) {
        Some(end) => read(
            alloc,
            handle,
            Place {
                block,
                refer: Refer::Deref { c: chunk, n: end },
                at,
            },
            into,
        ),
        None => refuse(alloc, handle),
    }
}

/// Copies bytes of an element of an array out, from an offset on, as many as `into` has. If it is not done, `into` is as before.
#[unsafe(no_mangle)]
pub extern "C" fn takhvoi_caread(
    alloc: Global,
    handle: &mut Handle,
    block: u32,
    chunk: u16,
    index: u16,
    at: u16,
    into: &mut [u8],
) -> u32
    ensures served { ServesRead (name_of block) (arrays.caelt (name_of block) chunk index) at (length into.old) into.new result handle.old handle.new }
    ensures kept { (result ≡ 0 → ⊥) → into.new ≡ into.old }
{
    match end_of(at, into.len()) {
        Some(end) => read(
            alloc,
            handle,
            Place {
                block,
                refer: Refer::Caelt {
                    c: chunk,
                    i: index,
                    n: end,
                },
                at,
            },
            into,
        ),
        None => refuse(alloc, handle),
    }
}

fn measure(system: &mut System, name: Name, refer: Refer, told: &mut u16) -> u32
    ensures { Done (NotLocked name) (IsMeasured (refer_row name refer) told.new) result system.old system.new }
{
    if system.kernel.locks(name) == 0 {
        return NOT_LOCKED;
    }
    match system.kernel.refer(name, refer) {
        Ok(span) => {
            *told = span.len;
            DONE
        }
        Err(refusal) => number(refusal),
    }
}

/// Writes to `told` how many bytes the value refers to.
fn tell_length(alloc: Global, handle: &mut Handle, block: u32, refer: Refer, told: &mut u16) -> u32
    ensures { Served (NotLocked (name_of block)) (IsMeasured (refer_row (name_of block) refer) told.new) result handle.old handle.new }
{
    let Some(mut system) = take(alloc, handle) else {
        return NO_KERNEL;
    };
    let status = measure(&mut system, name_of(block), refer, told);
    put(handle, system);
    status
}

/// Writes the length of an element of an array to `told`.
#[unsafe(no_mangle)]
pub extern "C" fn takhvoi_casize(
    alloc: Global,
    handle: &mut Handle,
    block: u32,
    chunk: u16,
    index: u16,
    told: &mut u16,
) -> u32
    ensures { Served (NotLocked (name_of block)) (IsMeasured (arrays.caelt (name_of block) chunk index 0) told.new) result handle.old handle.new }
{
    tell_length(
        alloc,
        handle,
        block,
        Refer::Caelt {
            c: chunk,
            i: index,
            n: 0,
        },
        told,
    )
}

/// Stores bytes into a chunk, from an offset on. A block of the VM file has to be marked.
#[unsafe(no_mangle)]
pub extern "C" fn takhvoi_write(
    alloc: Global,
    handle: &mut Handle,
    block: u32,
    chunk: u16,
    at: u16,
    from: &[u8],
) -> u32
    ensures { ServesWrite (name_of block) (table.deref (name_of block) chunk) at from.now result handle.old handle.new }
{
    match end_of(at, from.len()) {
        Some(end) => write(
            alloc,
            handle,
            Place {
                block,
                refer: Refer::Deref { c: chunk, n: end },
                at,
            },
            from,
        ),
        None => refuse(alloc, handle),
    }
}

/// Stores bytes into an element of an array, from an offset on. A block of the VM file has to be marked.
#[unsafe(no_mangle)]
pub extern "C" fn takhvoi_cawrite(
    alloc: Global,
    handle: &mut Handle,
    block: u32,
    chunk: u16,
    index: u16,
    at: u16,
    from: &[u8],
) -> u32
    ensures { ServesWrite (name_of block) (arrays.caelt (name_of block) chunk index) at from.now result handle.old handle.new }
{
    match end_of(at, from.len()) {
        Some(end) => write(
            alloc,
            handle,
            Place {
                block,
                refer: Refer::Caelt {
                    c: chunk,
                    i: index,
                    n: end,
                },
                at,
            },
            from,
        ),
        None => refuse(alloc, handle),
    }
}
