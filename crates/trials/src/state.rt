//! What a kernel has, as its calls tell it, and what a device keeps.

ghost use Rattle.std.specs.Prelude.{◌<◌};
ghost use Rattle.geos_kernel.specs.View.{IsLocked};
ghost use Rattle.geos_terms.specs.Heap.{IsHeap};

use crate::Answer;
use crate::spans::bytes_of;
use geos_kernel::Kernel;
use geos_terms::{Name, Refusal};
use lmem_heap::{check, next, size};
use std::alloc::{AllocError, Global};
use std::fmt::Write;
use trial_lines::Runs;
use vm_file::{Device, Directory, Disk, Entry, MOST_BLOCKS, VmFile};

/// The most chunks of a block: so many entries a table has where it is all of the largest block but the header.
const MOST_CHUNKS: u16 = 32_752;

/// The text of what a kernel has, as far as it is written.
#[derive(Drop)]
struct Telling {
    alloc: Global,
    /// Whether the bytes of chunks are printed too.
    with_bytes: bool,
    text: String,
}

/// What a kernel has: whether it is sure of its file, what is mapped, and each block.
pub(crate) fn state<D: Device + Drop>(
    alloc: Global,
    kernel: &mut Kernel<D>,
    with_bytes: bool,
) -> Result<Answer, AllocError> {
    let (group, item) = kernel.igetmap();
    let sure = if kernel.is_sure() { "sure" } else { "unsure" };
    let text = format!(in alloc; "{sure}, map {} item {group} {item}", kernel.vgetmap())?;
    let mut telling = Telling {
        alloc,
        with_bytes,
        text,
    };
    for h in 1..=Name::HANDLES {
        let name = Name::mem(h);
        let locks = kernel.locks(name);
        if let Ok(()) | Err(Refusal::Locked) = kernel.mlock(h) {
            write!(telling.text, "; mem {h} locks {locks} chunks")?;
            telling.put_block(kernel, name, locks)?;
        }
    }
    for h in 1..=Name::HANDLES {
        if let Ok(uid) = kernel.vuid(h) {
            telling.put_file_block(kernel, h, uid)?;
        }
    }
    Ok(Answer::Text(telling.text))
}

impl Telling {
    /// Tells of a block or group of the file.
    fn put_file_block<D: Device + Drop>(
        &mut self,
        kernel: &mut Kernel<D>,
        h: u16,
        uid: u16,
    ) -> Result<(), AllocError> {
        let name = Name::vm(h);
        let locks = kernel.locks(name);
        let mark = if kernel.marked(h) { " marked" } else { "" };
        write!(self.text, "; vm {h} uid {uid}{mark} locks {locks} chunks")?;
        match lock_any(kernel, h) {
            Ok(()) | Err(Refusal::Locked) => self.put_block(kernel, name, locks),
            Err(refusal) => {
                write!(self.text, " unread, {refusal}")?;
                Ok(())
            }
        }
    }

    /// Tells the chunks of a block, where it is locked, and unlocks it where it is locked more often than so.
    fn put_block<D: Device + Drop>(
        &mut self,
        kernel: &mut Kernel<D>,
        name: Name,
        locks: u16,
    ) -> Result<(), AllocError> {
        if kernel.locks(name) == 0 {
            return Ok(());
        }
        self.put_chunks(kernel, name)?;
        if kernel.locks(name) > locks {
            kernel.munlock(name);
        }
        Ok(())
    }

    /// Tells the chunks of a locked block.
    fn put_chunks<D: Device + Drop>(
        &mut self,
        kernel: &Kernel<D>,
        name: Name,
    ) -> Result<(), AllocError>
        requires { IsLocked kernel.now.core name }
    {
        for entry in 0..MOST_CHUNKS {
            let c = chunk_of(entry);
            if let Ok(span) = kernel.deref(name, c, 0) {
                write!(self.text, " {c}:{}", span.len)?;
                if self.with_bytes {
                    let bytes = bytes_of(self.alloc, kernel, span)?;
                    write!(self.text, " ({})", Runs(&bytes))?;
                }
            }
        }
        Ok(())
    }
}

/// Locks a block of the file, or a group that has an item, by the call that serves. A group without one stays as it is.
fn lock_any<D: Device + Drop>(kernel: &mut Kernel<D>, h: u16) -> Result<(), Refusal> {
    match kernel.vlock(h) {
        Err(Refusal::Reserved) => {}
        answer => return answer,
    }
    for entry in 0..MOST_CHUNKS {
        match kernel.ilock(h, chunk_of(entry), 0) {
            Ok(_) => return Ok(()),
            Err(Refusal::BadChunk) => {}
            Err(refusal) => return Err(refusal),
        }
    }
    Ok(())
}

/// The handle of the chunk that an entry of the table is for.
fn chunk_of(entry: u16) -> u16
    requires { entry < 32752 }
{
    16 + 2 * entry
}

/// Both directories of a file, with their blocks; with the bytes of each block where those of chunks are required.
pub(crate) fn kept<D: Device + Drop>(
    alloc: Global,
    file: &mut VmFile<D>,
    with_bytes: bool,
) -> Result<String, AllocError> {
    let mut text = String::new(alloc);
    text.push_str("current")?;
    put_maps(&mut text, file.current())?;
    for h in 1..=MOST_BLOCKS as u16 {
        put_current(alloc, &mut text, file, h, with_bytes)?;
    }
    text.push_str("; saved")?;
    put_maps(&mut text, file.saved())?;
    for h in 1..=MOST_BLOCKS as u16 {
        put_saved(alloc, &mut text, file, h, with_bytes)?;
    }
    Ok(text)
}

/// Tells of the block of the current directory with a handle, where there is one.
fn put_current<D: Device + Drop>(
    alloc: Global,
    text: &mut String,
    file: &mut VmFile<D>,
    h: u16,
    with_bytes: bool,
) -> Result<(), AllocError> {
    let Some(entry) = file.current().entry(h) else {
        return Ok(());
    };
    let mut bytes = vec![in alloc; 0u8; entry.len as usize]?;
    let outcome = file.block(h, &mut bytes);
    put_block(text, entry, &bytes, outcome, with_bytes)
}

/// Tells of the block of the saved directory with a handle, where there is one.
fn put_saved<D: Device + Drop>(
    alloc: Global,
    text: &mut String,
    file: &mut VmFile<D>,
    h: u16,
    with_bytes: bool,
) -> Result<(), AllocError> {
    let Some(entry) = file.saved().entry(h) else {
        return Ok(());
    };
    let mut bytes = vec![in alloc; 0u8; entry.len as usize]?;
    let outcome = file.saved_block(h, &mut bytes);
    put_block(text, entry, &bytes, outcome, with_bytes)
}

/// Tells what a directory maps.
fn put_maps(text: &mut String, directory: &Directory) -> Result<(), AllocError> {
    let (group, item) = directory.map_item;
    write!(text, " map {} item {group} {item}", directory.map_block)?;
    Ok(())
}

/// Tells of a block, and of its chunks, each with its length; then of its bytes where they are required.
fn put_block(
    text: &mut String,
    entry: Entry,
    bytes: &[u8],
    outcome: Result<(), Disk>,
    with_bytes: bool,
) -> Result<(), AllocError> {
    let Entry { h, uid, len } = entry;
    write!(text, "; {h} uid {uid} size {len} chunks")?;
    if outcome.is_ok() && check(bytes) {
        put_heap(text, bytes)?;
    } else {
        write!(text, " unread, {Disk}")?;
    }
    if with_bytes {
        write!(text, " ({})", Runs(bytes))?;
    }
    Ok(())
}

/// Tells the chunks of a heap, each with its length.
fn put_heap(text: &mut String, heap: &[u8]) -> Result<(), AllocError>
    requires { IsHeap heap.now }
{
    let mut last = 0;
    for _ in 0..heap.len() {
        let Some(c) = next(heap, last) else {
            break;
        };
        if let Ok(n) = size(heap, c) {
            write!(text, " {c}:{n}")?;
        }
        last = c;
    }
    Ok(())
}
