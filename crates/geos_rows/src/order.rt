//! The order in which rows flow through the places of a routine.

ghost use Rattle.std.specs.Prelude.{◌<◌, ◌≤◌, IfSome};

use geos_code::{Body, Lead, edge_in};
use geos_image::{MOST_INSTRS, Table, two_tables};
use std::alloc::{AllocError, Global};

/// A place on the way that is followed, and how many of its edges were.
#[derive(Clone, Copy)]
struct Step {
    pc: u16,
    followed: u8,
    ghost inside: { pc < 4096 },
}

/// A place.
#[derive(Clone, Copy)]
struct Place {
    pc: u16,
    ghost inside: { pc < 4096 },
}

/// The position of an instruction in the order of visits.
#[derive(Clone, Copy)]
struct Turn {
    turn: u16,
    ghost inside: { turn < 4096 },
}

/// An order of the instructions of a routine, in which each comes after its predecessors, except along back edges. Each cycle has a back
/// edge, and each back edge is on a cycle.
#[derive(Drop)]
pub(crate) struct Order {
    /// The instruction at each position.
    places: Table<Place>,
    /// The turn of each place.
    turns: Table<Turn>,
    /// The way that is followed, from the place where it begins, and how long it is.
    way: Table<Step>,
    length: u16,
    /// Whether a way came to each place.
    seen: Table<bool>,
    /// How many turns are left, the first ones.
    left: u16,
    ghost short: { length ≤ 4096 },
}

/// The target of one of the two edges of a pc, if the edge exists and stays in the routine. The edge with the later target is followed
/// first, so that unrelated instructions keep the order of the text.
fn end_at(body: &Body, pc: u16, followed: u8) -> Option<u16>
    requires { pc < body.now.end }
    ensures { IfSome result (λ to. to < 4096) }
{
    let target_first = pc < body.image.instr(pc).target;
    let branch = target_first == (followed == 0);
    match edge_in(body, pc, branch) {
        Some(lead) => Some(lead.to),
        None => None,
    }
}

impl Order {
    ghost use Rattle.std.specs.Prelude.{◌≡◌, ◌<◌, ◌≤◌, ◌-◌, ℕ, true, false, nat_le, IfOk};
    ghost use Rattle.geos_rows.specs.Turns.{place_at, turn_at, is_seen, StaySeen, TurnsWithin};

    /// An order of no places.
    pub(crate) fn new(alloc: Global) -> Result<Order, AllocError>
        ensures length { IfOk result (λ order. order.length ≡ 0) }
        ensures none { IfOk result (λ order. (pc : ℕ) → is_seen order pc ≡ false) }
    {
        let (places, turns) = two_tables(alloc, Place { pc: 0 }, Turn { turn: 0 })?;
        let none = Step { pc: 0, followed: 0 };
        let (way, seen) = two_tables(alloc, none, false)?;
        Ok(Order {
            places,
            turns,
            way,
            length: 0,
            seen,
            left: 0,
        })
    }

    /// The instruction at a position.
    pub(crate) fn place(&self, turn: u16) -> u16
        requires { turn < 4096 }
        ensures inside { result < 4096 }
        ensures value { result ≡ place_at self.now turn }
    {
        // Recalls the lemma.
        self.places.lengths();
        self.places.at(turn).pc
    }

    /// The position of an instruction.
    pub(crate) fn turn(&self, pc: u16) -> u16
        requires { pc < 4096 }
        ensures inside { result < 4096 }
        ensures value { result ≡ turn_at self.now pc }
    {
        // Recalls the lemma.
        self.turns.lengths();
        self.turns.at(pc).turn
    }

    /// Whether the edge leads back in the order.
    pub(crate) fn leads_back(&self, lead: Lead) -> bool
        requires from { lead.edge.from < 4096 }
        requires to { lead.to < 4096 }
        ensures { result ≡ nat_le (turn_at self.now lead.to) (turn_at self.now lead.edge.from) }
    {
        self.turn(lead.to) <= self.turn(lead.edge.from)
    }

    /// Visits an instruction, unless it was visited before.
    fn come(&mut self, pc: u16)
        requires { pc < 4096 }
        ensures seen { StaySeen self.old self.new }
        ensures comes { self.old.length < 4096 → is_seen self.new pc ≡ true }
        ensures turns { self.new.turns ≡ self.old.turns }
        ensures left { self.new.left ≡ self.old.left }
    {
        // Recalls the lemma.
        self.seen.lengths();
        if self.seen.at(pc) || MOST_INSTRS <= self.length {
            return;
        }
        self.seen.set(pc, true);
        self.way.set(self.length, Step { pc, followed: 0 });
        self.length += 1;
    }

    /// All ways from the last place of the way were followed: of the turns that are left it has the last.
    fn go_back(&mut self, pc: u16)
        requires { pc < 4096 }
        ensures seen { self.new.seen ≡ self.old.seen }
        ensures length { self.new.length ≡ self.old.length - 1 }
        ensures left { self.new.left ≡ self.old.left - 1 }
        ensures turn { self.new.left < 4096 → turn_at self.new pc ≡ self.new.left }
        ensures place { self.new.left < 4096 → place_at self.new self.new.left ≡ pc }
        ensures within { (n : ℕ) → 0 < n → self.old.left ≤ n → TurnsWithin n self.old self.new }
    {
        // Recalls the lemma.
        self.places.lengths();
        self.turns.lengths();
        self.length = self.length.saturating_sub(1);
        self.left = self.left.saturating_sub(1);
        if self.left < MOST_INSTRS {
            self.places.set(self.left, Place { pc });
            self.turns.set(pc, Turn { turn: self.left });
        }
    }

    /// The way is followed on along one more edge of its last place, or back where there is none; `false` if it has no place.
    fn follow(&mut self, body: &Body) -> bool
        ensures ends { result ≡ false → self.old.length ≡ 0 }
        ensures seen { StaySeen self.old self.new }
        ensures within { (n : ℕ) → 0 < n → self.old.left ≤ n → TurnsWithin n self.old self.new }
    {
        let Some(last) = self.length.checked_sub(1) else {
            return false;
        };
        if MOST_INSTRS <= last {
            return false;
        }
        let Step { pc, followed } = self.way.at(last);
        if followed < 2 && pc < body.end {
            let next = Step {
                pc,
                followed: followed + 1,
            };
            self.way.set(last, next);
            if let Some(to) = end_at(body, pc, followed) {
                self.come(to);
            }
        } else {
            self.go_back(pc);
        }
        true
    }

    /// The order of a routine's places: ways are followed from its beginning, and from each place to which none came. There are as many
    /// turns as places.
    pub(crate) fn arrange(&mut self, body: &Body)
        ensures { TurnsWithin (body.now.end - body.now.start) self.old self.new }
    {
        self.seen.fill_from(body.start, false);
        self.length = 0;
        self.left = body.end - body.start;
        for pc in body.start..body.end {
            self.come(pc);
            // Each instruction enters the path once, and leaves it after its two edges.
            for _ in 0..3 * MOST_INSTRS {
                if !self.follow(body) {
                    break;
                }
            }
        }
    }
}
