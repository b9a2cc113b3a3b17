//! Pointers that calls make stale, in a row of statements and in the turns of a loop.

use crate::declarations::opcode_named;
use crate::placer::{Held, Loss, Meaning, Placer};
use crate::state::{fetched, pair};
use geos_opcodes::SlotUse;
use tkv_syntax::{Item, ItemKind};

/// No slot, and each kind of blocks.
const NO_SLOT: u8 = 255;

const ANY: u32 = 4;

impl Placer {
    /// Makes pointers stale at a place: those into the block of a slot, and those into blocks of this kind that may be the same.
    fn lose(&mut self, slot: u8, kind: u32, at: u32) {
        for k in 0..4 {
            let into = self.leads[k];
            let alike = kind == ANY || self.held(into).kind() == kind;
            let moves = into == slot || alike && !self.state.has(pair(into, slot));
            if moves && self.state.has(fetched(k as u8)) {
                self.lost[k] = Loss { by: at, lost: true };
                self.state.facts &= !fetched(k as u8);
            }
        }
    }

    /// Chunks of blocks may move, at a call of an instruction on the block of a slot.
    pub(crate) fn lose_by(&mut self, uses: SlotUse, slot: u8, at: u32) {
        match uses {
            SlotUse::Moves => self.lose(slot, self.held(slot).kind(), at),
            SlotUse::MovesGroup => self.lose(NO_SLOT, Held::Group.kind(), at),
            _ => {}
        }
    }

    /// Makes the pointers stale that a call in a loop's body makes stale.
    fn lose_by_call(&mut self, call: &Item) {
        let at = call.at;
        let name = self.declared.name(at);
        match opcode_named(&name) {
            Some(opcode) => {
                let uses = opcode.uses().slot;
                let block = self.symbol(&self.declared.name(call.c));
                match block.meaning {
                    // A block that is locked within the loop.
                    Meaning::Nothing if matches!(uses, SlotUse::Moves) => {
                        self.lose(NO_SLOT, ANY, at)
                    }
                    Meaning::Block => self.lose_by(uses, block.register, at),
                    _ => self.lose_by(uses, NO_SLOT, at),
                }
            }
            None => if let Some(routine) = self.declared.find(&name)
                && !routine.quiet
            {
                self.lose(NO_SLOT, ANY, at);
            },
        }
    }

    /// Nothing is known of how great the word of a name is, which a loop's body sets.
    fn lose_bound(&mut self, at: u32) {
        let symbol = self.symbol(&self.declared.name(at));
        if matches!(symbol.meaning, Meaning::Word) {
            self.state.bound(symbol.register, u16::MAX);
        }
    }

    /// Goes over the turns of a loop, whose items follow: pointers are stale that they make stale, and words have no bounds that they set. Whether
    /// they speak of the name.
    pub(crate) fn foresee(&mut self, name_place: u32) -> bool {
        let name = self.declared.name(name_place);
        let mut depth: u32 = 1;
        let mut speaks = false;
        for index in self.next..self.declared.items().len() {
            let Some(item) = self.declared.item(index) else {
                break;
            };
            match item.kind {
                ItemKind::Turns | ItemKind::For => depth = depth.saturating_add(1),
                ItemKind::TurnEnd => depth = depth.saturating_sub(1),
                ItemKind::Named => speaks = speaks || self.declared.name(item.at) == name,
                ItemKind::Call => self.lose_by_call(&item),
                ItemKind::Assign | ItemKind::Handle => self.lose_bound(item.at),
                _ => {}
            }
            if depth == 0 {
                break;
            }
        }
        speaks
    }
}
