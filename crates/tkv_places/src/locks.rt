//! Locks.

use crate::calls::{argument_count, makes};
use crate::declarations::{is_lock, opcode_named};
use crate::placed::{NOWHERE, PlacedKind, with_registers};
use crate::placer::{Construct, Frame, Held, Meaning, Placer};
use crate::state::{bit, fetched, marked, pair};
use geos_opcodes::Opcode;
use tkv_syntax::{Item, NONE, Why};

/// What a slot holds that the instruction locks a block into, and what gives it back.
fn locked(opcode: Opcode) -> (Held, Opcode) {
    match opcode {
        Opcode::Vnew | Opcode::Vlock => (Held::Vm, Opcode::Vunlock),
        Opcode::Ilock => (Held::Group, Opcode::Iunlock),
        _ => (Held::Mem, Opcode::Munlock),
    }
}

/// A lock that is being placed.
#[derive(Clone, Copy)]
struct Locking {
    opcode: Opcode,
    slot: u8,
    /// How many values it takes.
    count: usize,
    /// Where its refusal goes.
    way: u16,
}

impl Placer {
    /// What is known of a block that was made: it differs from others of its kind, and one of the file is marked.
    fn note_new(&mut self, locking: &Locking, held: Held) {
        if !makes(locking.opcode) {
            return;
        }
        for other in 0..4 {
            let alike = self.held(other).kind() == held.kind();
            if alike && other != locking.slot {
                self.state.facts |= pair(locking.slot, other);
            }
        }
        if matches!(held, Held::Vm) {
            self.state.facts |= marked(locking.slot);
        }
    }

    /// A block is locked for the statements that follow.
    pub(crate) fn lock(&mut self, item: &Item) {
        let at = item.at;
        let Some(opcode) = opcode_named(&self.declared.name(at)) else {
            return self.refuse(Why::ExpectedLock, at);
        };
        let count = (item.c % 256) as usize;
        let fetches = matches!(opcode, Opcode::Ilock);
        if !is_lock(opcode) || fetches != (item.b != NONE) {
            return self.refuse(Why::ExpectedLock, at);
        }
        let takes = argument_count(opcode);
        if count != takes || self.operand_count() != count {
            return self.refuse_for(Why::Arguments, at, at, takes.min(255) as u16);
        }
        let slot = self.free_slot(at);
        // If no `?` follows, its handler gets blocks.
        let (level, way) = if item.c >= 256 {
            (NOWHERE, self.way_out(at))
        } else {
            (self.block(at), self.block(at))
        };
        let locking = Locking {
            opcode,
            slot,
            count,
            way,
        };
        self.place_lock(item, &locking, level);
    }

    fn place_lock(&mut self, item: &Item, locking: &Locking, level: u16) {
        let at = item.at;
        let frame = Frame {
            level,
            register: locking.slot,
            ..self.frame(Construct::Lock, at)
        };
        let mut instr = self.filled(locking.opcode, locking.count, at);
        instr.a = locking.slot;
        let structure = self.operand(0, at).structure_of();
        self.clear();
        let fetches = matches!(locking.opcode, Opcode::Ilock);
        if fetches {
            instr.b = self.take_pointer(locking.slot, at);
        }
        self.act_to(instr, locking.way, at);
        let (held, gives_back) = locked(locking.opcode);
        let unlock = with_registers(gives_back, locking.slot, 0, 0);
        self.enter(PlacedKind::Closing, unlock, locking.slot, at);
        self.begin(frame);
        self.hold(locking.slot, held);
        self.declare(Meaning::Block, item.a, locking.slot, 0, NOWHERE);
        if fetches {
            self.named_pointers = self.pointers;
            self.declare(Meaning::Pointer, item.b, instr.b, instr.imm, structure);
            self.state.facts |= fetched(instr.b);
        }
        self.note_new(locking, held);
        if makes(locking.opcode) {
            self.state.facts |= bit(instr.b);
        }
    }

    /// The statements for which a block is locked are over.
    pub(crate) fn lock_end(&mut self, at: u32) {
        let frame = self.innermost(at);
        self.end(at);
        for k in 0..4 {
            if self.leads[k] == frame.register {
                self.leads[k] = 4;
                self.state.facts &= !fetched(k as u8);
            }
        }
        self.hold(frame.register, Held::Free);
        self.restore(&frame);
        if frame.level != NOWHERE {
            self.leave_if_alive(frame.level, at);
        }
    }
}
