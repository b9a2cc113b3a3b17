//! Calls on moving blocks of one region. Offsets are from the place of a block on; `vm_` before a word is for a block of a VM file.

ghost use Rattle.std.specs.Prelude.{◌+◌, ◌≤◌, IfSome};
ghost use Rattle.block_handles.specs.Names.{slot_of};
ghost use Rattle.block_handles.specs.Store.{IsThere, region_len};

use crate::{Answer, done};
use block_handles::{Blocks, Name, Owner};
use std::alloc::{AllocError, Global};
use trial_lines::{Line, Runs, told};

/// The blocks of a trial, and the place that a line `mark` has seen.
#[derive(Drop)]
pub(crate) struct BlockTrial {
    blocks: Blocks,
    mark: u32,
}

impl BlockTrial {
    /// No block yet.
    pub(crate) fn new(alloc: Global) -> Result<BlockTrial, AllocError> {
        let blocks = Blocks::new(alloc, 65_536)?;
        Ok(BlockTrial { blocks, mark: 0 })
    }

    /// Makes the call of a line.
    pub(crate) fn answer(&mut self, alloc: Global, line: &Line<'_>) -> Result<Answer, AllocError> {
        let h = line.word_at(0);
        let (name, word) = match line.word_behind("vm_") {
            Some(word) => (Name::vm(h), word),
            None => (Name::mem(h), line.word),
        };
        let blocks = &mut self.blocks;
        Ok(match word {
            "blocks" => return self.renew(alloc, line.numbers[0]),
            "lowest" => lowest(blocks, name.owner),
            "has" => blocks.has(name).into(),
            "locks" => Answer::Number(u32::from(blocks.locks(name))),
            "lock" => return done(alloc, blocks.lock(name)),
            "unlock" if blocks.locks(name) == 0 => Answer::NotAsked("not locked"),
            "unlock" => {
                blocks.unlock(name);
                Answer::Done
            }
            "free" => return done(alloc, blocks.free(name)),
            "make" => return make(alloc, blocks, name, line.numbers[1]),
            "make_lowest" => return make_lowest(alloc, blocks, name.owner, line.numbers[0]),
            _ if !blocks.has(name) => Answer::NotAsked("no such block"),
            _ => return self.on_block(alloc, name, word, line),
        })
    }

    /// Makes new blocks, in a region of this size.
    fn renew(&mut self, alloc: Global, size: u32) -> Result<Answer, AllocError> {
        if size < 65_536 || size > 16_777_216 {
            return Ok(Answer::NotAsked("no region of this size"));
        }
        self.blocks = Blocks::new(alloc, size)?;
        Ok(Answer::Done)
    }

    /// Makes a call on a block that is there.
    fn on_block(
        &mut self,
        alloc: Global,
        name: Name,
        word: &str,
        line: &Line<'_>,
    ) -> Result<Answer, AllocError>
        requires { IsThere self.old.blocks (slot_of name) }
    {
        let blocks = &mut self.blocks;
        let size = line.numbers[1];
        Ok(match word {
            "grow" if size % 16 != 0 => Answer::NotAsked("no size of a block"),
            "grow" if blocks.size(name) > size => Answer::NotAsked("the block is larger"),
            "grow" => return done(alloc, blocks.grow(name, size)),
            "place" => Answer::Number(blocks.place(name)),
            "size" => Answer::Number(blocks.size(name)),
            "bytes" => return told(alloc, Runs(blocks.bytes(name))),
            "at_mark" => (blocks.place(name) == self.mark).into(),
            "mark" => {
                self.mark = blocks.place(name);
                Answer::Done
            }
            "fill" => {
                blocks.bytes_mut(name).fill(line.byte_at(1));
                Answer::Done
            }
            "stamp" => {
                blocks.bytes_mut(name).fill((name.h % 251) as u8);
                Answer::Done
            }
            "filler" => filler(blocks.bytes(name)),
            _ => by_offset(blocks, name, word, line).unwrap_or(Answer::NotAsked("past the end")),
        })
    }
}

/// The lowest handle of an owner that no block has.
fn lowest(blocks: &Blocks, owner: Owner) -> Answer {
    match blocks.lowest(owner) {
        Some(h) => Answer::Number(u32::from(h)),
        None => Answer::Said("none"),
    }
}

/// Makes a block under a name that is free.
fn make(alloc: Global, blocks: &mut Blocks, name: Name, size: u32) -> Result<Answer, AllocError> {
    if name.h < 1 || name.h > Name::HANDLES {
        return Ok(Answer::NotAsked("no handle"));
    }
    if blocks.has(name) {
        return Ok(Answer::NotAsked("in use"));
    }
    if size < 64 || size % 16 != 0 {
        return Ok(Answer::NotAsked("no size of a block"));
    }
    done(alloc, blocks.make(name, size))
}

/// Makes a block under the lowest handle of an owner, and tells the handle.
fn make_lowest(
    alloc: Global,
    blocks: &mut Blocks,
    owner: Owner,
    size: u32,
) -> Result<Answer, AllocError> {
    let Some(h) = blocks.lowest(owner) else {
        return Ok(Answer::Said("none"));
    };
    match make(alloc, blocks, Name { owner, h }, size)? {
        Answer::Done => Ok(Answer::Number(u32::from(h))),
        refusal => Ok(refusal),
    }
}

/// The byte that all of these bytes are.
fn filler(bytes: &[u8]) -> Answer {
    match bytes.split_first() {
        Some((first, others)) if others.iter().all(|other| *other == *first) => Answer::Number(
            u32::from(*first),
        ),
        _ => Answer::Said("mixed"),
    }
}

/// Reads, writes or copies by offsets; `None` past the end of the region.
fn by_offset(blocks: &mut Blocks, name: Name, word: &str, line: &Line<'_>) -> Option<Answer>
    requires { IsThere blocks.old (slot_of name) }
{
    let [_, at, to, n, ..] = line.numbers;
    match word {
        "read8" => {
            let at = offset(blocks, name, at, 1)?;
            return Some(Answer::Number(u32::from(blocks.read8(at))));
        }
        "read16" => {
            let at = offset(blocks, name, at, 2)?;
            return Some(Answer::Number(u32::from(blocks.read16(at))));
        }
        "write8" => {
            let at = offset(blocks, name, at, 1)?;
            blocks.write8(at, line.byte_at(2));
        }
        "write16" => {
            let at = offset(blocks, name, at, 2)?;
            blocks.write16(at, line.word_at(2));
        }
        "copy" => {
            let from = offset(blocks, name, at, n)?;
            let to = offset(blocks, name, to, n)?;
            blocks.copy(from, to, n);
        }
        _ => return Some(Answer::NotACall),
    }
    Some(Answer::Done)
}

/// The offset of the region that lies so far after the place of a block, and has `n` bytes from there on.
fn offset(blocks: &Blocks, name: Name, at: u32, n: u32) -> Option<u32>
    requires { IsThere blocks.now (slot_of name) }
    ensures { IfSome result (λ offset. offset + n ≤ region_len blocks.now) }
{
    let offset = blocks.place(name).checked_add(at)?;
    let len = blocks.region().len() as u64;
    if u64::from(offset) + u64::from(n) > len {
        return None;
    }
    Some(offset)
}
