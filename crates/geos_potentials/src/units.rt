//! Finds the unit of each nest's counter: the shortfall of the cycles through its LOOPs.

ghost use Rattle.std.specs.Prelude.{◌≡◌, ◌≢◌, ◌<◌, ◌≤◌, ◌+◌, ◌-◌, ◌*◌, ℕ, min, true, false, Some};
ghost use Rattle.geos_potentials.specs.Arcs.{IsLink, unit_at, price_of, paid_by};
ghost use Rattle.geos_potentials.specs.Demands.{AreWanted, HaveGrown, StayWanted};
ghost use Rattle.geos_potentials.specs.Least.{StayAtLoops, StayAtMost};
ghost use Rattle.control_graph.specs.declared.arcs.Arc.{Arc};
ghost use Rattle.geos_potentials.specs.declared.nests.Nest.{Nest};

use crate::lengths::{Lengths, Link, Share};
use crate::looks::{LOOKS, Looked};
use crate::nests::{Nest, Splitting, Wait};
use crate::paying::{Paying, Rest};
use crate::ring::find_ring;
use crate::spread::{Spread, go_back, go_back_free, go_back_from, number_of, only, raise};
use control_graph::{Arc, Counting, Graph, Jumps, Order, Piece, Pile};
use geos_image::{MOST_INSTRS, two_tables};
use std::alloc::{AllocError, Global};

/// After so many rounds over the nests it is first looked for some that wait on each other in a ring, and then each time after twice as many.
const ROUNDS: u32 = 64;

/// Why no units are found.
#[derive(Clone, Copy)]
pub enum Lack {
    /// The counter of a nest is set in it, on a cycle, to at least as much as its LOOPs take from it there.
    SetWithin(Piece),
    /// What a unit pays for, or what it costs to set its counter, is past what a potential can say.
    Passes,
    /// Nests wait on each other in a ring, this one among them.
    InTurn(u16),
    /// Too many edges were looked at.
    Looks,
}

/// The units of counters, and the longest ways where these pay.
#[derive(Drop)]
pub struct Units {
    /// What a unit of each counter pays for, at each place.
    pub pay: Spread,
    pub(crate) lengths: Lengths,
    /// 1 of a nest's counter at each instruction from which a path leaves it unchanged up to a LOOP that pays in the nest.
    pub(crate) before: Spread,
    waits: Pile,
    looked: Looked,
}

/// Why a nest was last to be paid for again, where that is for another one, whose counter is set at a place in it.
fn due_by(paying: &Paying, id: u16, nest: &Nest, at: u16, round: u32) -> Option<Wait> {
    if id == paying.id {
        return nest.due_by;
    }
    Some(Wait {
        on: paying.id,
        at,
        round,
    })
}

/// A nest is to be paid for again.
fn set_due(splitting: &mut Splitting, id: u16)
    requires { id < 4096 }
{
    let mut nest = splitting.nests.at(id);
    nest.due = true;
    splitting.nests.set(id, nest);
}

/// Notes that a nest with an unpaid cycle has to be paid for again, after the inner nest whose LOOP takes on that cycle.
fn note_rest(splitting: &mut Splitting, id: u16, rest: &Rest)
    requires { id < 4096 }
{
    let Rest::Inside(inner) = rest else {
        return;
    };
    set_due(splitting, id);
    if let Some(inner) = inner {
        if *inner < MOST_INSTRS {
            set_due(splitting, *inner);
        }
    }
}

impl Units {
    pub(crate) fn new(alloc: Global) -> Result<Units, AllocError> {
        let (pay, before) = two_tables(alloc, [0; 4], [0; 4])?;
        let lengths = Lengths::new(alloc)?;
        let waits = Pile::new(alloc)?;
        Ok(Units {
            pay,
            lengths,
            before,
            waits,
            looked: Looked::new(),
        })
    }

    /// Whether more visits are allowed.
    pub(crate) fn may_look(&self) -> bool {
        self.looked.are_few()
    }

    /// Looks at the edges from the places of a piece, for longer ways.
    pub(crate) fn sweep(&mut self, order: &Order, piece: &Piece) -> bool
        ensures { self.new.pay ≡ self.old.pay }
    {
        self.looked.sweep(&mut self.lengths, order, piece)
    }

    /// The same, and if none is longer, at those from each pc of the piece.
    pub(crate) fn sweep_all(&mut self, order: &Order, piece: &Piece) -> bool
        ensures pay { self.new.pay ≡ self.old.pay }
        ensures links { self.new.lengths.links ≡ self.old.lengths.links }
        ensures below { StayAtMost self.old.lengths.links self.old.lengths.ways self.new.lengths.ways }
    {
        self.looked.sweep_all(&mut self.lengths, order, piece)
    }

    /// The unit of a counter at a place.
    pub(crate) fn unit(&self, pc: u16, counter: u8) -> u32
        requires { pc < 4096 }
        ensures { result ≡ unit_at self.now.pay pc counter }
    {
        number_of(self.pay.get(pc), counter)
    }

    /// What a unit pays for at the LOOP at a pc is at least so much.
    pub(crate) fn raise_at_loop(&mut self, graph: &Graph, pc: u16, unit: u32)
        requires { pc < 4096 }
        ensures lengths { self.new.lengths ≡ self.old.lengths }
        ensures wanted { StayWanted graph.now.arcs self.old.pay self.new.pay }
        ensures more { HaveGrown self.old.pay self.new.pay }
        ensures others { (at k : ℕ) → at ≢ pc → unit_at self.new.pay at k ≡ unit_at self.old.pay at k }
    {
        let Some(arc) = graph.arc(pc, true) else {
            return;
        };
        if let Some(counter) = arc.takes() {
            let units = only(counter, unit);
            raise(&mut self.pay, &mut self.waits, pc, &units);
        }
    }

    /// Propagates the units of LOOPs that are left out to the instructions that need them.
    pub(crate) fn carry_free(&mut self, graph: &Graph, jumps: &Jumps)
        ensures lengths { self.new.lengths ≡ self.old.lengths }
        ensures wanted { StayWanted graph.now.arcs self.old.pay self.new.pay }
        ensures more { HaveGrown self.old.pay self.new.pay }
        ensures stay { StayAtLoops graph.now.arcs jumps.now self.old.pay self.new.pay }
    {
        go_back_free(graph, jumps, &mut self.pay, &mut self.waits);
    }

    /// What an edge costs that sets a counter whose units are needed at its target.
    fn price(&self, to: u16, counting: &Counting) -> u64
        requires { to < 4096 }
        ensures value { result ≡ price_of self.now.pay to counting.now }
        ensures small { result ≤ 281470681677825 }
    {
        match counting {
            Counting::Sets(counter, most) => {
                u64::from(self.unit(to, *counter)).saturating_mul(u64::from(*most))
            }
            _ => 0,
        }
    }

    /// What is paid where a unit is taken from a counter at a place.
    fn paid(&self, pc: u16, counting: &Counting) -> u64
        requires { pc < 4096 }
        ensures value { result ≡ paid_by self.now.pay pc counting.now }
        ensures small { result ≤ 4294967295 }
    {
        match counting {
            Counting::Takes(counter) => u64::from(self.unit(pc, *counter)),
            _ => 0,
        }
    }

    /// An edge with what it costs.
    pub(crate) fn link(&self, pc: u16, arc: &Arc) -> Link
        requires { pc < 4096 }
        ensures { IsLink self.now.pay pc arc.now result }
    {
        Link {
            to: arc.to,
            costs: arc
                .steps()
                .saturating_add(self.price(arc.to, &arc.counting)),
            paid: self.paid(pc, &arc.counting),
            share: Share::Nothing,
        }
    }

    /// Notes the instructions from which a path leaves the counter of a nest unchanged up to its LOOPs.
    fn note_before(&mut self, graph: &Graph, splitting: &Splitting, paying: &Paying)
        ensures { self.new.pay ≡ self.old.pay }
    {
        self.looked.clear(&mut self.before);
        let piece = &paying.nest.piece;
        for x in piece.begin..piece.end {
            let pc = splitting.order.place(x);
            if splitting.jumps.at(pc).pays_in(paying.id) {
                let here = only(paying.nest.counter, 1);
                raise(&mut self.before, &mut self.waits, pc, &here);
            }
        }
        go_back(graph, &mut self.before, &mut self.waits);
    }

    /// Nests around a place where a counter is set are to be paid for, where that has grown dearer while a nest was paid for; those around
    /// one that is left to the next round are left to that, too. It ends at one of which both are noted already, and so of those around it.
    fn note_due(&self, splitting: &mut Splitting, paying: &Paying, round: u32, pc: u16)
        requires { pc < 4096 }
    {
        let mut left = false;
        let mut inner = true;
        let mut around = splitting.nests.inner(pc);
        for _ in 0..MOST_INSTRS {
            let Some(id) = around else {
                return;
            };
            if MOST_INSTRS <= id {
                return;
            }
            let nest = splitting.nests.at(id);
            if nest.is_due_by(paying.id, round) && (!left || nest.put_off == round) {
                return;
            }
            let mut next = nest;
            next.put_off = if left { round } else { nest.put_off };
            next.due = nest.due || !(inner && nest.tight && id == paying.id);
            next.due_by = due_by(paying, id, &nest, pc, round);
            splitting.nests.set(id, next);
            left |= paying.id < id;
            inner = false;
            around = nest.around;
        }
    }

    /// Nests are to be paid for in which a counter is set for the units at a place, which have grown; `false` if what that costs is past
    /// what a potential can say.
    fn note_dearer(
        &self,
        graph: &Graph,
        splitting: &mut Splitting,
        paying: &Paying,
        round: u32,
        to: u16,
    ) -> bool
        requires { to < 4096 }
    {
        let mut lead = graph.first_into(to);
        for _ in 0..2 * u32::from(MOST_INSTRS) {
            let Some(edge) = lead else {
                return true;
            };
            if let Some(arc) = graph.arc(edge.from, edge.branch) {
                if let Some((counter, _)) = arc.sets() {
                    if counter == paying.nest.counter {
                        if u64::from(u32::MAX) < self.price(arc.to, &arc.counting) {
                            return false;
                        }
                        self.note_due(splitting, paying, round, edge.from);
                    }
                }
            }
            lead = graph.next_into(edge);
        }
        true
    }

    /// Propagates units that have grown at the instructions of the worklist to those that need them.
    fn carry(
        &mut self,
        graph: &Graph,
        splitting: &mut Splitting,
        paying: &Paying,
        round: u32,
    ) -> Result<(), Lack>
        ensures { StayWanted graph.now.arcs self.old.pay self.new.pay }
    {
        let mut fits = true;
        while let Some(pc) = self.looked.take(&mut self.waits) {
            fits &= self.note_dearer(graph, splitting, paying, round, pc);
            go_back_from(graph, &mut self.pay, &mut self.waits, pc);
        }
        if fits { Ok(()) } else { Err(Lack::Passes) }
    }

    /// Stores the unit of a nest at its LOOPs, and propagates it to the instructions that need it.
    fn set_unit(
        &mut self,
        graph: &Graph,
        splitting: &mut Splitting,
        paying: &Paying,
        round: u32,
    ) -> Result<(), Lack>
        ensures { StayWanted graph.now.arcs self.old.pay self.new.pay }
    {
        let piece = &paying.nest.piece;
        for x in piece.begin..piece.end {
            let pc = splitting.order.place(x);
            if splitting.jumps.at(pc).pays_in(paying.id) {
                self.raise_at_loop(graph, pc, paying.unit);
            }
        }
        self.carry(graph, splitting, paying, round)
    }

    /// Pays for a nest.
    fn pay(
        &mut self,
        graph: &Graph,
        splitting: &mut Splitting,
        id: u16,
        round: u32,
    ) -> Result<(), Lack>
        requires room { id < 4096 }
        ensures { StayWanted graph.now.arcs self.old.pay self.new.pay }
    {
        let mut nest = splitting.nests.at(id);
        nest.due = false;
        nest.paid = nest.paid.saturating_add(1);
        splitting.nests.set(id, nest);
        let mut paying = Paying::begin(self, splitting, id, nest);
        if nest.tight {
            self.note_before(graph, splitting, &paying);
        }
        let rest = match paying.find_unit(graph, splitting, self) {
            Ok(rest) => rest,
            Err(lack) => return Err(lack),
        };
        note_rest(splitting, id, &rest);
        self.set_unit(graph, splitting, &paying, round)
    }

    /// Pays for the nests that are to be paid for, inner ones first; whether there were any.
    fn pay_round(
        &mut self,
        graph: &Graph,
        splitting: &mut Splitting,
        round: u32,
    ) -> Result<bool, Lack>
        ensures { StayWanted graph.now.arcs self.old.pay self.new.pay }
    {
        let mut some = false;
        for id in (0..splitting.nests.count().min(MOST_INSTRS)).rev() {
            let nest = self.looked.nest(&splitting.nests, id);
            if nest.due {
                some = true;
                if nest.put_off != round {
                    self.pay(graph, splitting, id, round)?;
                }
            }
        }
        Ok(some)
    }

    /// Pays for all nests of a routine, round by round, until none is left, or the nests that are left wait for each other in a ring. Each unit
    /// at an instruction is needed by a LOOP.
    pub(crate) fn pay_all(
        &mut self,
        start: u16,
        graph: &Graph,
        splitting: &mut Splitting,
    ) -> Result<(), Lack>
        requires { start < 4096 }
        ensures { AreWanted graph.now.arcs self.new.pay }
    {
        self.looked = Looked::new();
        self.pay.fill_from(0, [0; 4]);
        // Recalls the lemma.
        self.pay.lengths();
        self.lengths.clear(start);
        let mut round = 1;
        let mut look_at = ROUNDS;
        for _ in 0..LOOKS {
            if !self.may_look() {
                return Err(Lack::Looks);
            }
            if !self.pay_round(graph, splitting, round)? {
                return Ok(());
            }
            if round == look_at {
                let ring = find_ring(graph, splitting, round, &mut self.before, &mut self.waits);
                if let Some(id) = ring {
                    return Err(Lack::InTurn(id));
                }
                look_at = look_at.saturating_mul(2);
            }
            round += 1;
        }
        // Each round looks at a nest at least.
        Err(Lack::Looks)
    }
}
