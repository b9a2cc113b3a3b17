//! Which places of a routine have yet to go along their edges.

ghost use Rattle.std.specs.Prelude.{◌<◌};

use crate::order::Order;
use crate::widening::Kept;
use geos_code::{Body, Lead};
use geos_image::{MOST_INSTRS, Table, two_tables};
use std::alloc::{AllocError, Global};

/// How often a place went along its edges, and how often an edge that leads back in the order of the places weakened it.
#[derive(Clone, Copy)]
struct Times {
    gone: u8,
    back: u8,
}

impl Times {
    const NONE: Times = Times { gone: 0, back: 0 };
}

/// The number of positions in a group of the worklist.
const GROUP: u16 = 64;

/// The places that have yet to go along their edges, each once, in the order in which rows flow.
#[derive(Drop)]
pub(crate) struct Waiting {
    order: Order,
    /// The routine whose order it is.
    routine: Option<u16>,
    /// Whether the instruction at each position is in the worklist.
    waits: Table<bool>,
    /// Whether some place of each group of turns may wait.
    some: [bool; 64],
    /// Whose turn comes next.
    turn: u16,
    times: Table<Times>,
    /// Whether some row was widened.
    widened: bool,
    ghost inside: { turn < 4096 },
}

impl Waiting {
    ghost use Rattle.std.specs.Prelude.{◌≡◌, ◌<◌, ◌||◌, ℕ, not, IfOk, IfSome};
    ghost use Rattle.geos_rows.specs.Turns.{Waits, NoneWaits};
    ghost use Rattle.geos_rows.specs.Widening.{is_join};

    /// Nothing waits.
    pub(crate) fn new(alloc: Global) -> Result<Waiting, AllocError>
        ensures { IfOk result NoneWaits }
    {
        let order = Order::new(alloc)?;
        let (waits, times) = two_tables(alloc, false, Times::NONE)?;
        Ok(Waiting {
            order,
            routine: None,
            waits,
            some: [false; 64],
            turn: 0,
            times,
            widened: false,
        })
    }

    /// Nothing waits in a routine, and no place was weakened.
    pub(crate) fn clear(&mut self, body: &Body)
        ensures { NoneWaits self.new }
    {
        if self.routine != Some(body.r) {
            self.order.arrange(body);
            self.routine = Some(body.r);
        }
        self.waits.fill_from(0, false);
        // Recalls the lemma.
        self.waits.lengths();
        self.some = [false; 64];
        self.turn = 0;
        self.times.fill_from(body.start, Times::NONE);
        self.widened = false;
    }

    /// A place is to go along its edges.
    pub(crate) fn wait(&mut self, pc: u16)
        requires { pc < 4096 }
        ensures waits { Waits self.new pc }
        ensures others { (at : ℕ) → Waits self.old at → Waits self.new at }
        ensures widened { self.new.widened ≡ self.old.widened }
    {
        // Recalls the lemma.
        self.waits.lengths();
        let turn = self.order.turn(pc);
        self.waits.set(turn, true);
        self.some[usize::from(turn / GROUP)] = true;
    }

    /// The first turn of a group from one on whose place waits, if there is one.
    fn first_in(&self, from: u16) -> Option<u16>
        requires { from < 4096 }
        ensures { IfSome result (λ turn. turn < 4096) }
    {
        for turn in from..MOST_INSTRS {
            if self.waits.at(turn) {
                return Some(turn);
            }
            if turn % GROUP == GROUP - 1 {
                return None;
            }
        }
        None
    }

    /// The first turn from one on whose place waits, if there is one.
    fn first_from(&mut self, from: u16) -> Option<u16>
        requires { from < 4096 }
        ensures { IfSome result (λ turn. turn < 4096) }
    {
        for group in from / GROUP..GROUP {
            if self.some[usize::from(group)] {
                let begin = group * GROUP;
                if let Some(turn) = self.first_in(begin.max(from)) {
                    return Some(turn);
                }
                self.some[usize::from(group)] = begin < from;
            }
        }
        None
    }

    /// The place that goes along its edges next: the next one in the order that waits, and from the last one on again the first. It no
    /// longer waits.
    pub(crate) fn take(&mut self) -> Option<u16>
        ensures { IfSome result (λ pc. pc < 4096) }
    {
        let turn = match self.first_from(self.turn) {
            Some(turn) => turn,
            None => self.first_from(0)?,
        };
        self.waits.set(turn, false);
        self.turn = turn;
        let pc = self.order.place(turn);
        let Times { gone, back } = self.times.at(pc);
        let gone = gone.saturating_add(1);
        self.times.set(pc, Times { gone, back });
        Some(pc)
    }

    /// Adds the target of an edge that weakened its row to the worklist. Returns how much of the join is to be stored there.
    pub(crate) fn weaken(&mut self, lead: Lead) -> Kept
        requires from { lead.edge.from < 4096 }
        requires to { lead.to < 4096 }
        ensures widened { self.new.widened ≡ (self.old.widened || not (is_join result)) }
        ensures others { (at : ℕ) → Waits self.old at → Waits self.new at }
    {
        let leads_back = self.order.leads_back(lead);
        let Times { gone, back } = self.times.at(lead.to);
        let back = back.saturating_add(u8::from(leads_back));
        self.times.set(lead.to, Times { gone, back });
        let kept = Kept::after(gone, leads_back, back);
        self.widened = self.widened || !kept.is_join();
        kept
    }

    /// Whether some row was widened, since it had been weakened too often.
    pub(crate) fn has_widened(&self) -> bool
        ensures { result ≡ self.now.widened }
    {
        self.widened
    }
}
