//! The longest ways among places, as far as they are known, where units of counters pay for so much.

ghost use Rattle.std.specs.Prelude.{◌<◌, IfSome};

use control_graph::{Order, Piece};
use geos_image::{MOST_INSTRS, Table, two_tables};
use std::alloc::{AllocError, Global};

/// What an edge has to do with the unit of the nest that is paid for.
#[derive(Clone, Copy)]
pub(crate) enum Share {
    Nothing,
    /// It is the way to its target of a LOOP that pays in the nest.
    Pays,
    /// The counter is set there to so much, for such a LOOP.
    Costs(u16),
}

/// An edge of the search.
#[derive(Clone, Copy)]
pub(crate) struct Link {
    pub(crate) to: u16,
    /// What it costs.
    pub(crate) costs: u64,
    /// What a unit pays of that.
    pub(crate) paid: u64,
    pub(crate) share: Share,
    ghost inside: { to < 4096 },
}

/// The longest way from a place that is known.
#[derive(Clone, Copy)]
struct Way {
    steps: u64,
    /// Which edge made it so long, since ways were last forgotten; `true` for the one to the target.
    first: Option<bool>,
    /// When it was last followed, and from where.
    passed: u32,
}

impl Way {
    const NOTHING: Way = Way {
        steps: 0,
        first: None,
        passed: 0,
    };
}

/// The edges of the search, and the longest paths along them.
#[derive(Drop)]
pub(crate) struct Lengths {
    links: Table<[Option<Link>; 2]>,
    ways: Table<Way>,
    /// The last mark of a way that was followed.
    mark: u32,
}

impl Lengths {
    ghost use Rattle.std.specs.Prelude.{◌≡◌, ◌<◌, ◌≤◌, ℕ, Bool, None, Some, true, false, length, slice_set, IfSome};
    ghost use Rattle.geos_potentials.specs.Least.{steps_at, link_at, PaysLink, AtMost, StayAtMost};

    /// No edges and no paths.
    pub(crate) fn new(alloc: Global) -> Result<Lengths, AllocError> {
        let (links, ways) = two_tables(alloc, [None, None], Way::NOTHING)?;
        Ok(Lengths {
            links,
            ways,
            mark: 0,
        })
    }

    /// Removes all edges.
    pub(crate) fn clear_links(&mut self)
        ensures links { (pc : ℕ) (branch : Bool) → link_at self.new.links pc branch ≡ None }
        ensures ways { self.new.ways ≡ self.old.ways }
    {
        self.links.fill_from(0, [None, None]);
        // Recalls the lemma.
        self.links.lengths();
    }

    /// The edge of an instruction in the search: to its target if `branch`, otherwise to the next instruction.
    pub(crate) fn link(&self, pc: u16, branch: bool) -> Option<Link>
        requires { pc < 4096 }
        ensures { result ≡ link_at self.now.links pc branch }
    {
        let [along, branching] = self.links.get(pc);
        if branch { *branching } else { *along }
    }

    /// Sets the edges of an instruction in the search.
    pub(crate) fn set_links(&mut self, pc: u16, links: [Option<Link>; 2])
        requires { pc < 4096 }
        ensures links { self.new.links ≡ slice_set self.old.links pc links }
        ensures room { pc < length self.old.links }
        ensures ways { self.new.ways ≡ self.old.ways }
    {
        // Recalls the lemma.
        self.links.lengths();
        self.links.set(pc, links);
    }

    /// How many steps the way from a place takes.
    pub(crate) fn steps(&self, pc: u16) -> u64
        requires { pc < 4096 }
        ensures { result ≡ steps_at self.now.ways pc }
    {
        self.ways.get(pc).steps
    }

    /// A way from a place takes so many steps, and no edge is known to make it so long.
    pub(crate) fn set_steps(&mut self, pc: u16, steps: u64)
        requires { pc < 4096 }
        ensures links { self.new.links ≡ self.old.links }
        ensures ways { self.new.ways ≡ slice_set self.old.ways pc (record { steps = steps; first = None; passed = 0 }) }
        ensures room { pc < length self.old.ways }
    {
        // Recalls the lemma.
        self.ways.lengths();
        let way = Way {
            steps,
            ..Way::NOTHING
        };
        self.ways.set(pc, way);
    }

    /// No edge is known that made ways so long as they are, among the places of a piece.
    pub(crate) fn forget(&mut self, order: &Order, piece: &Piece) {
        for x in piece.begin..piece.end {
            let pc = order.place(x);
            let steps = self.steps(pc);
            self.set_steps(pc, steps);
        }
    }

    /// Which edge made the way from a place so long; `true` for the one to the target.
    pub(crate) fn first(&self, pc: u16) -> Option<bool>
        requires { pc < 4096 }
    {
        self.ways.get(pc).first
    }

    /// The edge that made the way from a place so long.
    fn next(&self, pc: u16) -> Option<Link>
        requires { pc < 4096 }
    {
        let branch = self.first(pc)?;
        self.link(pc, branch)
    }

    /// How many steps a way takes that begins with an edge; 0 if there is none.
    #[inline(always)]
    fn over(&self, link: &Option<Link>) -> u64
        ensures below { (want : ℕ → ℕ) (pc : ℕ) → AtMost self.now.ways want → PaysLink want pc link.now → result ≤ want pc }
    {
        match link {
            Some(link) => self
                .ways
                .get(link.to)
                .steps
                .saturating_add(link.costs)
                .saturating_sub(link.paid),
            None => 0,
        }
    }

    /// The way from a place begins with one of its edges, if that makes it longer; whether one does.
    #[inline(always)]
    fn lengthen(&mut self, pc: u16) -> bool
        requires { pc < 4096 }
        ensures links { self.new.links ≡ self.old.links }
        ensures below { StayAtMost self.old.links self.old.ways self.new.ways }
    {
        let [along, branching] = self.links.get(pc);
        let by_along = self.over(along);
        let by_branching = self.over(branching);
        let steps = self.ways.get(pc).steps;
        if by_along.max(by_branching) <= steps {
            return false;
        }
        // Recalls the lemma.
        self.ways.lengths();
        let way = Way {
            steps: by_along.max(by_branching),
            first: Some(by_along < by_branching),
            passed: 0,
        };
        self.ways.set(pc, way);
        true
    }

    /// The same from each place of a piece; whether some way is longer.
    pub(crate) fn sweep(&mut self, order: &Order, piece: &Piece) -> bool
        ensures links { self.new.links ≡ self.old.links }
        ensures below { StayAtMost self.old.links self.old.ways self.new.ways }
    {
        let mut longer = false;
        for x in piece.begin..piece.end {
            longer |= self.lengthen(order.place(x));
        }
        longer
    }

    /// Of the places from one on up to another, the first gets a longer way whose way is not as long as edges ask; whether there is one.
    pub(crate) fn lengthen_first(&mut self, begin: u16, end: u16) -> bool
        requires { end ≤ 4096 }
        ensures links { self.new.links ≡ self.old.links }
        ensures below { StayAtMost self.old.links self.old.ways self.new.ways }
    {
        for pc in begin..end {
            if self.lengthen(pc) {
                return true;
            }
        }
        false
    }

    /// The same from each instruction of a piece in their order. If none grows, also at each pc from its begin to its end, so that all edges
    /// are tested whatever the order is.
    pub(crate) fn sweep_all(&mut self, order: &Order, piece: &Piece) -> bool
        ensures links { self.new.links ≡ self.old.links }
        ensures below { StayAtMost self.old.links self.old.ways self.new.ways }
    {
        if self.sweep(order, piece) {
            return true;
        }
        self.lengthen_first(piece.begin, piece.end)
    }

    /// Follows the way from a place up to where one was followed since a mark; the place where it comes to what it has itself passed.
    fn round_from(&mut self, from: u16, since: u32) -> Option<u16>
        requires { from < 4096 }
        ensures { IfSome result (λ pc. pc < 4096) }
    {
        self.mark = self.mark.saturating_add(1);
        let mark = self.mark;
        let mut at = from;
        for _ in 0..MOST_INSTRS {
            let way = self.ways.at(at);
            if way.passed == mark {
                return Some(at);
            }
            if since < way.passed {
                return None;
            }
            self.ways.set(
                at,
                Way {
                    passed: mark,
                    ..way
                },
            );
            at = self.next(at)?.to;
        }
        None
    }

    /// An instruction of a piece from which the longest path leads back to it.
    pub(crate) fn find_round(&mut self, order: &Order, piece: &Piece) -> Option<u16>
        ensures { IfSome result (λ pc. pc < 4096) }
    {
        let since = self.mark;
        for x in piece.begin..piece.end {
            if let Some(at) = self.round_from(order.place(x), since) {
                return Some(at);
            }
        }
        None
    }

    /// No way was followed.
    pub(crate) fn clear(&mut self, start: u16)
        requires { start < 4096 }
    {
        self.mark = 0;
        self.ways.fill_from(start, Way::NOTHING);
    }
}
