//! What is to be committed to a VM file: a directory, and blocks in memory.
ghost use Rattle.std.specs.Prelude.{◌-◌, nat_le, if◌then◌else◌, slice_get, None};

use crate::Answer;
use lmem_heap::{alloc, init};
use std::alloc::{AllocError, Global};
use trial_lines::Line;
use vm_file::{Directory, Entry, Source};

/// The size of the trial's blocks.
pub(crate) const SIZE: usize = 64;

/// The offset of the byte in which the blocks of the trial differ: the first byte of the first chunk.
pub(crate) const BYTE: usize = 22;

/// The bytes of a block.
pub(crate) type Block = [u8; SIZE];

/// A block with a chunk of two bytes, the first of which is this one.
pub(crate) fn block_with(h: u16, byte: u8) -> Block {
    let mut block = [0; SIZE];
    init(&mut block, h);
    let _ = alloc(&mut block, 2);
    block[BYTE] = byte;
    block
}

/// Blocks in memory, under the handles from one on.
#[derive(Drop)]
pub(crate) struct InMemory {
    first: u16,
    blocks: Vec<Block>,
}

impl Source for InMemory {
    ghost resident_bytes = { λ s h. if nat_le s.first h then slice_get s.blocks.items (h - s.first) else None };

    fn resident(&self, h: u16) -> Option<&[u8]> {
        if h < self.first {
            return None;
        }
        match self.blocks.get((h - self.first) as usize) {
            Some(block) => Some(block),
            None => None,
        }
    }
}

/// What is to be committed.
#[derive(Drop)]
pub(crate) struct Draft {
    pub(crate) directory: Directory,
    pub(crate) memory: InMemory,
}

impl Draft {
    /// No block in the directory, and none in memory.
    pub(crate) fn new(alloc: Global) -> Draft {
        Draft {
            directory: Directory::new(),
            memory: InMemory {
                first: 0,
                blocks: Vec::new(alloc),
            },
        }
    }

    /// Carries out a call on it.
    pub(crate) fn answer(&mut self, alloc: Global, line: &Line<'_>) -> Result<Answer, AllocError> {
        let [first, second, third, ..] = line.words();
        match line.word {
            "no_block" => self.directory = Directory::new(),
            "entry" => self.add(first, second, third),
            "entries" => for h in first..=second {
                self.add(h, third, SIZE as u16);
            },
            "map_block" => self.directory.map_block = first,
            "map_item" => self.directory.map_item = (first, second),
            "resident" => self.fill(alloc, first, first, line.byte_at(1))?,
            "residents" => self.fill(alloc, first, second, line.byte_at(2))?,
            _ => self.memory.blocks = Vec::new(alloc),
        }
        Ok(Answer::Done)
    }

    /// Puts an entry after the others, where there is room for it.
    fn add(&mut self, h: u16, uid: u16, len: u16) {
        let _ = self.directory.entries.try_push(Entry { h, uid, len });
    }

    /// Puts into memory a block for each handle from one to another, with this byte, in the place of those that were there.
    fn fill(&mut self, alloc: Global, first: u16, last: u16, byte: u8) -> Result<(), AllocError> {
        let mut blocks = Vec::new(alloc);
        for h in first..=last {
            blocks.push(block_with(h, byte))?;
        }
        self.memory = InMemory { first, blocks };
        Ok(())
    }
}
