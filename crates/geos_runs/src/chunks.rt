//! The bytes of a chunk of a VM file are written and read.

ghost use Rattle.vm_blocks.specs.Listed.{NoneLocked};
ghost use Rattle.geos_shell.specs.Limits.{IsRegion};

use crate::calling::Task;
use crate::fault::RunFault;
use crate::making::made;
use crate::printing::{print_bytes, print_made};
use array_rows::{ArrayFault, rows_of, with_rows};
use geos_cli::{Place, ScriptFault, get_bytes, put_bytes};
use geos_files::{Locked, lock_to_read, opened};
use geos_kernel::Kernel;
use geos_shell::{ChunkPath, GetRequest, New, PutRequest, Rows, STANDARD, StreamFault, read};
use sentence_text::Text;
use std::alloc::Global;
use vm_file::{Device, FileDevice, VmFile};

/// The most bytes that are read to be put: one more than a chunk may have.
const MOST_PUT: u64 = 65_536;

/// The most bytes that are read of rows: one more than they may have.
const MOST_ROWS: u64 = 1_048_577;

/// Where the bytes are.
fn place_of(chunk: &ChunkPath<'_>) -> Place {
    if chunk.item {
        Place::Item(chunk.handle, chunk.chunk)
    } else {
        Place::Chunk(chunk.handle, chunk.chunk)
    }
}

/// Prints the handles of a chunk that was made.
fn print_handles<'a>(rt: &HostRuntime, chunk: &ChunkPath<'_>) -> Result<(), RunFault<'a>> {
    let mut handles = Text::new(rt.alloc());
    handles.put_number("", u64::from(chunk.handle));
    handles.put_number(" ", u64::from(chunk.chunk));
    handles.put("\n");
    print_made(rt, handles.finish())
}

/// The word that names the fields of rows.
fn fields_of<'a>(rows: &Rows<'a>) -> &'a str {
    rows.fields.unwrap_or("")
}

/// The fault of rows of a chunk.
fn array_fault<'a>(chunk: &ChunkPath<'a>, rows: &Rows<'a>, fault: ArrayFault) -> RunFault<'a> {
    match fault {
        ArrayFault::NoArray => RunFault::NoArray(chunk.handle, chunk.chunk),
        ArrayFault::OtherSize(has, requested) => RunFault::OtherSize(has, requested),
        ArrayFault::Varying => RunFault::Varying,
        ArrayFault::Row(row, fault) => RunFault::BadRow(rows.path, row, fault),
        ArrayFault::Memory => RunFault::Session(ScriptFault::Memory),
    }
}

/// The bytes of a chunk.
fn get_in<'a, D: Device + Drop>(
    alloc: Global,
    place: Place,
    kernel: &mut Kernel<D>,
) -> Result<Vec<u8>, RunFault<'a>> {
    match get_bytes(alloc, kernel, place) {
        Ok(Ok(bytes)) => Ok(bytes),
        Ok(Err(refusal)) => Err(RunFault::NotDone(refusal.number())),
        Err(_) => Err(RunFault::Session(ScriptFault::Memory)),
    }
}

/// The bytes of a chunk of an array whose elements are made of rows.
fn array_put<'a, D: Device + Drop>(
    alloc: Global,
    chunk: &ChunkPath<'a>,
    rows: &Rows<'a>,
    text: &[u8],
    kernel: &mut Kernel<D>,
) -> Result<Vec<u8>, RunFault<'a>> {
    if text.len() as u64 == MOST_ROWS {
        return Err(RunFault::LongRows(rows.path));
    }
    match get_in(alloc, place_of(chunk), kernel) {
        Ok(old) => match with_rows(alloc, &old, fields_of(rows), text) {
            Ok(new) => Ok(new),
            Err(fault) => Err(array_fault(chunk, rows, fault)),
        },
        Err(fault) => Err(fault),
    }
}

/// Writes bytes into a chunk, and updates the file.
fn put_in<'a, D: Device + Drop>(
    chunk: &ChunkPath<'_>,
    at: Option<u16>,
    bytes: &[u8],
    kernel: &mut Kernel<D>,
) -> Result<(), RunFault<'a>> {
    match put_bytes(kernel, place_of(chunk), at, bytes) {
        Ok(()) => Ok(()),
        Err(refusal) => Err(RunFault::NotDone(refusal.number())),
    }
}

/// Writes bytes into a chunk, or elements that are made of rows, and updates the file.
fn put_into<'a, D: Device + Drop>(
    alloc: Global,
    request: &PutRequest<'a>,
    chunk: &ChunkPath<'a>,
    bytes: &[u8],
    kernel: &mut Kernel<D>,
) -> Result<(), RunFault<'a>> {
    let Some(rows) = &request.array else {
        return put_in(chunk, request.at, bytes, kernel);
    };
    match array_put(alloc, chunk, rows, bytes, kernel) {
        Ok(bytes) => put_in(chunk, request.at, &bytes, kernel),
        Err(fault) => Err(fault),
    }
}

/// Makes a chunk, writes bytes into it, and updates the file. Prints the handles of what was made.
fn put_into_new<'a, D: Device + Drop>(
    rt: &HostRuntime,
    request: &PutRequest<'a>,
    new: New,
    bytes: &[u8],
    kernel: &mut Kernel<D>,
) -> Result<(), RunFault<'a>>
    requires { NoneLocked kernel.old.core.blocks }
{
    let chunk = match made(rt.alloc(), request.chunk.file, new, kernel) {
        Ok(chunk) => chunk,
        Err(fault) => return Err(fault),
    };
    match put_into(rt.alloc(), request, &chunk, bytes, kernel) {
        Ok(()) => print_handles(rt, &chunk),
        Err(fault) => Err(fault),
    }
}

/// Writes bytes into a chunk, which is made if that is required, and updates the file.
pub(crate) fn put_on<'a, D: Device + Drop>(
    rt: &HostRuntime,
    request: &PutRequest<'a>,
    bytes: &[u8],
    kernel: &mut Kernel<D>,
) -> Result<(), RunFault<'a>>
    requires { NoneLocked kernel.old.core.blocks }
{
    match request.new {
        Some(new) => put_into_new(rt, request, new, bytes, kernel),
        None => put_into(rt.alloc(), request, &request.chunk, bytes, kernel),
    }
}

/// What is put: the standard input, or an array of rows.
pub(crate) fn read_for<'a>(
    rt: &HostRuntime,
    request: &PutRequest<'a>,
) -> Result<Vec<u8>, StreamFault<'a>> {
    match request.array {
        Some(rows) => read(rt, rows.path, MOST_ROWS),
        None => read(rt, STANDARD, MOST_PUT),
    }
}

/// Writes the standard input, or an array of rows, into a chunk of a VM file, which is made if that is required, and updates the file once. Prints the handles of
/// what was made. It waits for the file's lock after it has read the input, as `run` does. `RunFault::NotDone` if a call of the kernel is
/// refused; then the file is unchanged.
pub fn put<'a>(rt: &HostRuntime, request: &PutRequest<'a>) -> Result<(), RunFault<'a>>
    requires { IsRegion request.now.region }
{
    Task::Put(request).run_on_file(rt, request.chunk.file, request.region)
}

/// The bytes of a chunk of an open VM file.
fn bytes_in<'a>(
    rt: &HostRuntime,
    place: Place,
    region: u32,
    file: VmFile<FileDevice>,
) -> Result<Vec<u8>, RunFault<'a>>
    requires { IsRegion region }
{
    let Ok(mut kernel) = Kernel::new(rt.alloc(), region, file) else {
        return Err(RunFault::Session(ScriptFault::Memory));
    };
    get_in(rt.alloc(), place, &mut kernel)
}

/// The bytes of a chunk of a VM file. The lock is released before the bytes are printed: their reader may open the file next.
fn bytes_of<'a>(
    rt: &HostRuntime,
    chunk: &ChunkPath<'a>,
    region: u32,
) -> Result<Vec<u8>, RunFault<'a>>
    requires { IsRegion region }
{
    let Locked {
        device,
        lock: _lock,
    } = match lock_to_read(rt, chunk.file) {
        Ok(locked) => locked,
        Err(fault) => return Err(RunFault::Stream(fault)),
    };
    match opened(rt, chunk.file, device) {
        Ok(file) => bytes_in(rt, place_of(chunk), region, file),
        Err(fault) => Err(RunFault::File(fault)),
    }
}

/// Prints the elements of an array of these bytes as rows.
fn print_rows<'a>(
    rt: &HostRuntime,
    chunk: &ChunkPath<'a>,
    rows: &Rows<'a>,
    bytes: &[u8],
    json: bool,
) -> Result<(), RunFault<'a>> {
    match rows_of(rt.alloc(), bytes, fields_of(rows), json) {
        Ok(rows) => print_bytes(rt, &rows),
        Err(fault) => Err(array_fault(chunk, rows, fault)),
    }
}

/// Prints the bytes of a chunk of a VM file, or its elements as rows, or as one JSON object. `RunFault::NotDone` if a call of the kernel is
/// refused.
pub fn get<'a>(rt: &HostRuntime, request: &GetRequest<'a>, json: bool) -> Result<(), RunFault<'a>>
    requires { IsRegion request.now.region }
{
    let chunk = &request.chunk;
    let bytes = match bytes_of(rt, chunk, request.region) {
        Ok(bytes) => bytes,
        Err(fault) => return Err(fault),
    };
    match &request.array {
        Some(rows) => print_rows(rt, chunk, rows, &bytes, json),
        None => print_bytes(rt, &bytes),
    }
}
