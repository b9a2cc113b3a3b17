//! Placed items: instructions, and the blocks that control leaves.

use crate::calls::result_fields;
use crate::placed::{NOWHERE, Placed, PlacedKind, bare};
use crate::placer::{Bracket, Placer, added};
use crate::state::{DEAD, WHY, bit, fetched, marked, pairs_of};
use geos_image::Instr;
use geos_opcodes::Opcode;
use tkv_syntax::Why;

/// The most items of a placed routine.
const MOST_PLACED: usize = 16_384;

/// The most blocks that are open at once. The comparison of a routine's code goes through no more.
const MOST_OPEN: usize = 256;

impl Placer {
    fn place(&mut self, kind: PlacedKind, instr: Instr, to: u16, at: u32) {
        if self.placed.len() >= MOST_PLACED {
            return self.refuse(Why::TooMany, at);
        }
        self.here = self.said_at(at);
        let placed = Placed {
            kind,
            instr,
            to,
            at: self.here,
        };
        let kept = added(&mut self.placed, placed);
        self.keep(kept, at);
    }

    /// A block, loop or closing begins; its number.
    pub(crate) fn enter(&mut self, kind: PlacedKind, instr: Instr, slot: u8, at: u32) -> u16 {
        let level = self.brackets.len();
        if level >= MOST_OPEN {
            self.refuse(Why::TooMany, at);
            return NOWHERE;
        }
        self.place(kind, instr, NOWHERE, at);
        let kept = added(&mut self.brackets, Bracket { slot, joined: DEAD });
        self.keep(kept, at);
        level as u16
    }

    /// A block begins; its number.
    pub(crate) fn block(&mut self, at: u32) -> u16 {
        self.enter(PlacedKind::Block, bare(Opcode::Jmp), 255, at)
    }

    /// What began last ends. Control comes from its statements, and from all that left to it.
    pub(crate) fn end(&mut self, at: u32) {
        let alive = u16::from(self.state.alive);
        self.place(PlacedKind::End, bare(Opcode::Jmp), alive, at);
        let Some(bracket) = self.brackets.pop() else {
            return self.refuse(Why::Unreached, at);
        };
        self.state.facts &= !self.facts_on(bracket.slot);
        self.state = self.state.meet(bracket.joined);
    }

    /// The facts that end where a slot is unlocked. 255 is none.
    fn facts_on(&self, slot: u8) -> u32 {
        let mut facts = marked(slot) | pairs_of(slot);
        for k in 0..4 {
            if self.leads[k] == slot {
                facts |= fetched(k as u8);
            }
        }
        facts
    }

    /// Control may leave to the end of a block, and releases the locks of the blocks that it leaves.
    fn join(&mut self, level: u16) {
        let mut known = self.state;
        for k in usize::from(level) + 1..self.brackets.len() {
            known.facts &= !self.facts_on(self.brackets[k].slot);
        }
        if let Some(bracket) = self.brackets.get_mut(usize::from(level)) {
            bracket.joined = bracket.joined.meet(known);
        }
    }

    /// Control leaves to the end of a block.
    pub(crate) fn leave(&mut self, level: u16, at: u32) {
        if !self.state.alive {
            return self.refuse(Why::Unreached, at);
        }
        self.join(level);
        self.state = DEAD;
        self.place(PlacedKind::Leave, bare(Opcode::Jmp), level, at);
    }

    /// Control leaves to the end of a block, if it comes here.
    pub(crate) fn leave_if_alive(&mut self, level: u16, at: u32) {
        if self.state.alive {
            self.leave(level, at);
        }
    }

    /// Control leaves to the end of a block, if it comes here, and what began last ends.
    pub(crate) fn leave_and_end(&mut self, level: u16, at: u32) {
        self.leave_if_alive(level, at);
        self.end(at);
    }

    /// The number of what began last.
    pub(crate) fn innermost_level(&self) -> u16 {
        self.brackets.len().saturating_sub(1).min(65_534) as u16
    }

    /// Appends an instruction after which control continues.
    pub(crate) fn act(&mut self, instr: Instr, at: u32) {
        self.test_to(instr, NOWHERE, at);
    }

    /// An instruction, which may leave to the end of a block, unless that is `NOWHERE`.
    pub(crate) fn test_to(&mut self, instr: Instr, level: u16, at: u32) {
        if !self.state.alive {
            return self.refuse(Why::Unreached, at);
        }
        self.spare_taken = false;
        if level != NOWHERE {
            self.join(level);
        }
        self.state.bound_results(&instr);
        self.place(PlacedKind::Do, instr, level, at);
    }

    /// An instruction that may be refused, and leaves to the end of a block then.
    pub(crate) fn act_to(&mut self, instr: Instr, level: u16, at: u32) {
        let facts = self.state.facts;
        self.state.facts |= bit(WHY);
        self.state.bound(WHY, u16::MAX);
        self.test_to(instr, level, at);
        self.state.facts = facts;
    }

    /// The opcode of the last placed item, if that is an instruction; otherwise of one that leaves no result.
    pub(crate) fn last_opcode(&self) -> Opcode {
        match self.placed.last() {
            Some(placed) if matches!(placed.kind, PlacedKind::Do) => placed.instr.opcode,
            _ => Opcode::Jmp,
        }
    }

    /// The last placed instruction, which leaves something in its field `a`, in `b` or in neither, leaves it in another register, if it leaves it
    /// in this one.
    pub(crate) fn redirect(&mut self, fields: (bool, bool), from: u8, to: u8) -> bool {
        let Some(placed) = self.placed.last_mut() else {
            return false;
        };
        match fields {
            (true, false) if placed.instr.a == from => placed.instr.a = to,
            (false, true) if placed.instr.b == from => placed.instr.b = to,
            _ => return false,
        }
        true
    }

    /// The last placed item has its result in another word, if it is an instruction with its result in this one.
    pub(crate) fn retarget(&mut self, from: u8, to: u8) -> bool {
        let opcode = self.last_opcode();
        let leaves = !matches!(opcode, Opcode::Chk);
        if !leaves || !self.redirect(result_fields(opcode), from, to) {
            return false;
        }
        self.state.bound(to, self.state.most_of(from));
        self.state.bound(from, u16::MAX);
        true
    }
}
