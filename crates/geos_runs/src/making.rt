//! Blocks, groups, chunks and items of a VM file are made.

ghost use Rattle.vm_blocks.specs.Listed.{NoneLocked};

use crate::fault::RunFault;
use geos_asm::assemble;
use geos_cli::{Counted, ScriptFault, run_call};
use geos_kernel::Kernel;
use geos_shell::{ChunkPath, New};
use geos_text::{first_line, number};
use sentence_text::Text;
use std::alloc::{AllocError, Global};
use vm_file::Device;

/// The routines that make what is written into. Each outputs the handle of a block or a group, and that of its new chunk or item, which has
/// no byte; or a refusal.
const ROUTINES: &str = "\
routine block public budget 6
        VNEW s0 w1 w0 block_refused
        LALLOC s0 w2 w3 block_unlock
        VUNLOCK s0
        OUT w1 block_end
        OUT w2 block_end
        RET
block_unlock: VUNLOCK s0
block_refused: OUT w7 block_end
block_end: RET

routine group public budget 5
        GNEW w1 group_refused
        INEW w2 w1 w3 group_refused
        OUT w1 group_end
        OUT w2 group_end
        RET
group_refused: OUT w7 group_end
group_end: RET

routine chunk public budget 7
        VLOCK s0 w0 chunk_refused
        VDIRTY s0
        LALLOC s0 w2 w3 chunk_unlock
        VUNLOCK s0
        OUT w0 chunk_end
        OUT w2 chunk_end
        RET
chunk_unlock: VUNLOCK s0
chunk_refused: OUT w7 chunk_end
chunk_end: RET

routine item public budget 4
        INEW w2 w0 w3 item_refused
        OUT w0 item_end
        OUT w2 item_end
        RET
item_refused: OUT w7 item_end
item_end: RET
";

/// The routine that makes something, and its word.
fn call_of(new: New) -> (&'static str, u16) {
    match new {
        New::Block(uid) => ("block", uid),
        New::Group => ("group", 0),
        New::Chunk(h) => ("chunk", h),
        New::Item(g) => ("item", g),
    }
}

/// The bytes of the routines' image. None if there is no memory for it.
fn image_of(alloc: Global) -> Option<Vec<u8>> {
    match assemble(alloc, ROUTINES.as_bytes()) {
        Ok(image) => geos_image::write(alloc, &image).ok(),
        Err(_) => None,
    }
}

/// A word in decimal digits.
fn digits_of(alloc: Global, word: u16) -> Result<Vec<u8>, AllocError> {
    let mut digits = Text::new(alloc);
    digits.put_number("", u64::from(word));
    digits.finish()
}

/// What the routine outputs that makes something. None if there is no memory for it.
fn output_of<D: Device + Drop>(alloc: Global, new: New, kernel: &mut Kernel<D>) -> Option<Vec<u8>>
    requires { NoneLocked kernel.old.core.blocks }
{
    let (name, word) = call_of(new);
    let (Some(image), Ok(digits)) = (image_of(alloc), digits_of(alloc, word)) else {
        return None;
    };
    let Ok(word) = std::str::from_utf8(&digits) else {
        return None;
    };
    let mut out = Counted::new(Vec::new(alloc));
    match run_call(alloc, &image, name, &[word], kernel, &mut out) {
        Ok(None) => Some(out.stream),
        Ok(Some(_)) | Err(_) => None,
    }
}

/// The two handles that a routine outputs, or the refusal.
fn handles_in<'a>(output: &[u8]) -> Result<(u16, u16), RunFault<'a>> {
    let (one, rest) = first_line(output);
    let (other, _) = first_line(rest);
    match (number(one), number(other)) {
        (Some(h), Some(c)) => Ok((h, c)),
        (Some(refusal), None) => Err(RunFault::NotDone(refusal)),
        _ => Err(RunFault::Session(ScriptFault::Memory)),
    }
}

/// Makes a chunk or an item, and a block or a group for it if that is required. Nothing is committed.
pub(crate) fn made<'a, D: Device + Drop>(
    alloc: Global,
    file: &'a str,
    new: New,
    kernel: &mut Kernel<D>,
) -> Result<ChunkPath<'a>, RunFault<'a>>
    requires { NoneLocked kernel.old.core.blocks }
{
    let Some(output) = output_of(alloc, new, kernel) else {
        return Err(RunFault::Session(ScriptFault::Memory));
    };
    match handles_in(&output) {
        Ok((handle, chunk)) => Ok(ChunkPath {
            file,
            handle,
            chunk,
            item: matches!(new, New::Group | New::Item(_)),
        }),
        Err(fault) => Err(fault),
    }
}
