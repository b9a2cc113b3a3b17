//! Which steps of a run change the bytes of a chunk.

ghost use Rattle.geos_kernel.specs.Spans.{IsStanding};

use geos_image::{Image, Instr};
use geos_kernel::{Kernel, Name, Span};
use geos_machine::{Machine, Watch};
use geos_opcodes::{Offset, PointerUse, SlotUse, Width};
use std::alloc::{AllocError, Global};
use vm_file::Device;

/// Which chunks of locked blocks a step may change, or make visible.
#[derive(Clone, Copy)]
enum Reach {
    /// None.
    Nothing,
    /// Those with a byte from one place of the region up to another.
    Stretch(u32, u32),
    /// All.
    All,
}

/// What a chunk was when it was last seen.
#[derive(Clone, Copy)]
enum Seen {
    /// It was never seen.
    Never,
    /// Its block had no such chunk.
    Absent,
    /// It had the bytes that are noted.
    There,
}

/// Notes which steps of a run change the bytes of a chunk. Only a step that may change them has it compare them, and a step that writes
/// bytes only if it writes into the chunk. Bytes that change while the block is not locked change in the step that locks it.
#[derive(Drop)]
pub struct ChunkWatch<'i> {
    alloc: Global,
    image: &'i Image,
    name: Name,
    chunk: u16,
    seen: Seen,
    bytes: Vec<u8>,
    /// What the last step may have changed.
    reach: Reach,
    /// How many steps have begun.
    begun: u32,
    /// How many steps it looks at.
    last: u32,
    /// The numbers of steps, counted from 1, that changed it.
    changing: Vec<u32>,
    refused: bool,
}

/// Where an instruction that writes through a pointer writes.
fn reach_of_store(machine: &Machine, instr: &Instr, width: Width, offset: Offset) -> Reach {
    let Some(span) = machine.pointers().get(usize::from(instr.b)) else {
        return Reach::All;
    };
    let at = match offset {
        Offset::Fixed => instr.imm,
        Offset::Indexed | Offset::Tested => {
            let word = machine.words().get(usize::from(instr.c));
            word.copied().unwrap_or(0)
        }
    };
    let first = span.at.saturating_add(u32::from(at));
    let bytes = match width {
        Width::Byte => 1,
        Width::Both => 2,
    };
    Reach::Stretch(first, first.saturating_add(bytes))
}

/// What an instruction may change that the machine is about to carry out.
fn reach_of(machine: &Machine, instr: &Instr) -> Reach {
    let uses = instr.opcode.facts().uses;
    match (uses.pointer, uses.slot) {
        (PointerUse::Stores(width, offset), _) => reach_of_store(machine, instr, width, offset),
        (PointerUse::Copies, _) => Reach::All,
        (_, SlotUse::NoSlot | SlotUse::Marks(_) | SlotUse::Compares | SlotUse::LooksAt) => {
            Reach::Nothing
        }
        _ => Reach::All,
    }
}

impl Reach {
    /// Whether it has bytes of the span.
    fn meets(self, span: Span) -> bool {
        match self {
            Reach::Nothing => false,
            Reach::Stretch(first, end) => {
                first < span.at.saturating_add(u32::from(span.len)) && span.at < end
            }
            Reach::All => true,
        }
    }
}

impl<'i> ChunkWatch<'i> {
    /// Looks at a chunk in at most `last` steps of a run of the image.
    pub fn new(
        alloc: Global,
        image: &'i Image,
        name: Name,
        chunk: u16,
        last: u32,
    ) -> ChunkWatch<'i> {
        ChunkWatch {
            alloc,
            image,
            name,
            chunk,
            seen: Seen::Never,
            bytes: Vec::new(alloc),
            reach: Reach::All,
            begun: 0,
            last,
            changing: Vec::new(alloc),
            refused: false,
        }
    }

    /// The numbers of the steps that changed it, in ascending order. `AllocError` if an allocation was refused.
    pub fn changing(&self) -> Result<&[u32], AllocError> {
        if self.refused {
            Err(AllocError)
        } else {
            Ok(self.changing.as_slice())
        }
    }

    /// The last step changed it.
    fn note(&mut self) {
        self.refused = self.refused || self.changing.push(self.begun).is_err();
    }

    /// Compares its bytes with those that are noted, and notes them.
    fn compare<D: Device + Drop>(&mut self, kernel: &Kernel<D>, span: Span)
        requires { IsStanding kernel.now.core span }
    {
        let Ok(mut bytes) = vec![in self.alloc; 0; usize::from(span.len)] else {
            self.refused = true;
            return;
        };
        kernel.read(span, 0, &mut bytes);
        let is_changed = match self.seen {
            Seen::Never => false,
            Seen::Absent => true,
            Seen::There => self.bytes.as_slice() != bytes.as_slice(),
        };
        if is_changed {
            self.note();
        }
        self.seen = Seen::There;
        self.bytes = bytes;
    }

    /// Its block has no such chunk.
    fn lose(&mut self) {
        if matches!(self.seen, Seen::There) {
            self.note();
        }
        self.seen = Seen::Absent;
    }

    /// Looks at it after a step.
    fn look<D: Device + Drop>(&mut self, kernel: &Kernel<D>) {
        let is_reached = !matches!(self.reach, Reach::Nothing) && self.name.h != 0;
        if !is_reached || kernel.locks(self.name) == 0 {
            return;
        }
        match kernel.deref(self.name, self.chunk, 0) {
            Ok(span) => {
                if self.reach.meets(span) {
                    self.compare(kernel, span);
                }
            }
            Err(_) => self.lose(),
        }
    }
}

impl Watch for ChunkWatch<'_> {
    fn sees<D: Device + Drop>(&mut self, machine: &Machine, pc: u16, kernel: &Kernel<D>) {
        if self.begun > self.last {
            return;
        }
        self.look(kernel);
        self.reach = if pc < self.image.len() {
            reach_of(machine, self.image.instr(pc))
        } else {
            Reach::All
        };
        self.begun = self.begun.saturating_add(1);
    }
}
