//! Loop nests: strongly connected instructions, each nest with the LOOPs that pay for its cycles.

ghost use Rattle.std.specs.Prelude.{◌≡◌, ◌<◌, ◌+◌, None, Some, true, false, min, slice_index_or};
ghost use Rattle.geos_potentials.specs.Stuck.{StayNoted};
ghost use Rattle.control_graph.specs.declared.jumps.Jump.TheVariants.{Plain};
ghost use Rattle.geos_potentials.specs.declared.nests.Nest.{Nest};
ghost use Rattle.geos_potentials.specs.declared.nests.Waiting.{Waiting};
ghost use Rattle.control_graph.specs.declared.pieces.Order.{Order};
ghost use Rattle.control_graph.specs.declared.pieces.Piece.{Piece};

use crate::choice::{Choice, Chosen, Tier, choose};
use crate::classes::Classes;
use crate::jumps::{loops_spent, may_pay};
use control_graph::{Components, Graph, Jump, Jumps, Order, Piece, lead_within};
use geos_code::Body;
use geos_image::{MOST_INSTRS, Table, two_tables};
use std::alloc::{AllocError, Global};

/// Why a nest is to be paid for again: the counter of another is set in it, for LOOPs that pay in that one, and a unit of it pays for more.
#[derive(Clone, Copy)]
pub struct Wait {
    /// The other nest.
    pub on: u16,
    /// The place from which an edge sets its counter.
    pub at: u16,
    /// The round over the nests in which this was noted.
    pub(crate) round: u32,
}

/// Strongly connected instructions.
#[derive(Clone, Copy)]
pub struct Nest {
    pub piece: Piece,
    /// The counter whose LOOPs pay.
    pub counter: u8,
    /// The nest around it.
    pub(crate) around: Option<u16>,
    /// How many are around it.
    depth: u16,
    /// Whether some LOOP in it may pay, and each that may has a counter that is set in it, with a path from there that leaves it unchanged up to
    /// the LOOP.
    pub tight: bool,
    /// Whether it is to be paid for.
    pub(crate) due: bool,
    /// The last round over the nests in which one in it was left to the next.
    pub(crate) put_off: u32,
    /// For which other one it was last to be paid for again.
    pub due_by: Option<Wait>,
    /// How often it was paid for.
    pub paid: u16,
}

impl Nest {
    const NOTHING: Nest = Nest {
        piece: Piece { begin: 0, end: 0 },
        counter: 0,
        around: None,
        depth: 0,
        tight: false,
        due: false,
        put_off: 0,
        due_by: None,
        paid: 0,
    };

    /// Whether it was last to be paid for again for another nest, as that is paid for in a round.
    pub(crate) fn is_due_by(&self, on: u16, round: u32) -> bool {
        match self.due_by {
            Some(wait) => wait.on == on && wait.round == round,
            None => false,
        }
    }
}

/// A component that is to be a nest.
#[derive(Clone, Copy)]
struct Waiting {
    piece: Piece,
    around: Option<u16>,
}

/// The nests of a routine, each before those in it.
#[derive(Drop)]
pub struct Nests {
    list: Table<Nest>,
    count: u16,
    /// Components that are to be nests.
    waiting: Table<Waiting>,
    waits: u16,
    /// The innermost nest of the edge from each place to the next.
    inner: Table<Option<u16>>,
}

impl Nests {
    /// There are none.
    pub(crate) fn new(alloc: Global) -> Result<Nests, AllocError> {
        let waiting = Waiting {
            piece: Piece { begin: 0, end: 0 },
            around: None,
        };
        let (list, waiting) = two_tables(alloc, Nest::NOTHING, waiting)?;
        let inner = Table::new(alloc, None)?;
        Ok(Nests {
            list,
            count: 0,
            waiting,
            waits: 0,
            inner,
        })
    }

    /// How many there are.
    pub(crate) fn count(&self) -> u16 {
        self.count
    }

    /// One of them.
    pub fn at(&self, nest: u16) -> Nest
        requires { nest < 4096 }
        ensures { (other : Nest) → result ≡ slice_index_or self.now.list nest other }
    {
        self.list.at(nest)
    }

    pub(crate) fn set(&mut self, id: u16, nest: Nest)
        requires { id < 4096 }
    {
        self.list.set(id, nest);
    }

    /// The innermost nest of the edge from a place to the next.
    pub(crate) fn inner(&self, pc: u16) -> Option<u16>
        requires { pc < 4096 }
    {
        self.inner.at(pc)
    }

    /// A component is to be a nest.
    fn wait(&mut self, piece: Piece, around: Option<u16>) {
        if self.waits < MOST_INSTRS {
            self.waiting.set(self.waits, Waiting { piece, around });
            self.waits += 1;
        }
    }

    /// The last component that is to be a nest.
    fn take(&mut self) -> Option<Waiting> {
        if self.waits == 0 || MOST_INSTRS < self.waits {
            return None;
        }
        self.waits -= 1;
        Some(self.waiting.at(self.waits))
    }

    /// Lists a nest; its number.
    fn list(&mut self, waiting: &Waiting, choice: &Choice) -> u16
        ensures { result < 4096 }
    {
        // There is room: each takes a LOOP.
        let id = self.count.min(MOST_INSTRS - 1);
        let depth = self.depth_in(waiting.around);
        let nest = Nest {
            piece: waiting.piece,
            counter: choice.counter,
            around: waiting.around,
            depth,
            tight: matches!(choice.tier, Tier::Tight),
            due: true,
            ..Nest::NOTHING
        };
        self.list.set(id, nest);
        self.count = id + 1;
        id
    }

    /// How many nests are around one in a nest.
    fn depth_in(&self, around: Option<u16>) -> u16 {
        match around {
            Some(nest) if nest < MOST_INSTRS => self.list.at(nest).depth.saturating_add(1),
            _ => 0,
        }
    }
}

/// What a search for nests goes by.
#[derive(Drop)]
pub struct Splitting {
    pub order: Order,
    pub jumps: Jumps,
    pub nests: Nests,
    components: Components,
}

impl Splitting {
    /// There are no nests, and nothing is found of LOOPs.
    pub(crate) fn new(alloc: Global) -> Result<Splitting, AllocError> {
        let order = Order::new(alloc)?;
        let jumps = Table::new(alloc, Jump::Plain)?;
        let nests = Nests::new(alloc)?;
        let components = Components::new(alloc)?;
        Ok(Splitting {
            order,
            jumps,
            nests,
            components,
        })
    }

    /// Whether a component has a cycle.
    fn goes_round(&self, graph: &Graph, piece: &Piece) -> bool {
        if MOST_INSTRS <= piece.begin || piece.length() == 0 {
            return false;
        }
        if 1 < piece.length() {
            return true;
        }
        let pc = self.order.place(piece.begin);
        lead_within(graph, &self.jumps, &self.order, piece, pc, false).is_some()
            || lead_within(graph, &self.jumps, &self.order, piece, pc, true).is_some()
    }

    /// Splits a piece into its strongly connected components. Those with a cycle become nests.
    fn split(&mut self, graph: &Graph, piece: &Piece, around: Option<u16>) {
        self.components
            .arrange(graph, &self.jumps, &mut self.order, piece);
        let mut begin = piece.begin;
        for component in (0..self.components.count().min(MOST_INSTRS)).rev() {
            let part = self.components.part_of(component, begin);
            if self.goes_round(graph, &part) {
                self.nests.wait(part, around);
            }
            begin = part.end;
        }
    }

    /// A nest is the innermost of the edge from a place to the next, if that stays in its piece.
    fn note_inner(&mut self, graph: &Graph, piece: &Piece, pc: u16, nest: u16)
        requires { pc < 4096 }
    {
        if let Some(arc) = graph.arc(pc, false) {
            if self.order.has(piece, arc.to) {
                self.nests.inner.set(pc, Some(nest));
            }
        }
    }

    /// The LOOPs that are chosen in a nest pay in it.
    fn mark(&mut self, graph: &Graph, classes: &Classes, piece: &Piece, choice: &Chosen) {
        for x in piece.begin..piece.end {
            let pc = self.order.place(x);
            self.note_inner(graph, piece, pc, choice.nest);
            if choice.takes(graph, &self.jumps, &self.order, classes, piece, pc) {
                self.jumps.set(pc, Jump::Pays(choice.nest));
            }
        }
    }

    /// Makes a nest of a component that was taken. Fails with the component if no LOOP in it may pay.
    fn make(
        &mut self,
        body: &Body,
        graph: &Graph,
        classes: &mut Classes,
        waiting: &Waiting,
    ) -> Result<(), Piece>
        ensures { StayNoted classes.old classes.new }
    {
        let piece = &waiting.piece;
        classes.note_set_within(body.start, graph, &self.order, piece);
        let Some(choice) = choose(graph, &self.jumps, &self.order, classes, piece) else {
            return Err(*piece);
        };
        let nest = self.nests.list(waiting, &choice);
        let all = DEEP <= self.nests.at(nest).depth;
        let chosen = Chosen { choice, nest, all };
        self.mark(graph, classes, piece, &chosen);
        self.split(graph, piece, Some(nest));
        Ok(())
    }

    /// Leaves out LOOPs that are reached only with their counters at 0.
    fn free_loops(&mut self, body: &Body, graph: &Graph, classes: &Classes) {
        self.jumps.fill_from(body.start, Jump::Plain);
        for pc in body.start..body.end {
            if loops_spent(graph, classes, pc) {
                self.jumps.set(pc, Jump::Free);
            }
        }
    }

    /// Splits all the places of a routine, in which there are no nests yet.
    fn begin(&mut self, body: &Body, graph: &Graph) {
        self.nests.count = 0;
        self.nests.waits = 0;
        self.nests.inner.fill_from(body.start, None);
        let all = self.order.begin(body.start, body.end);
        self.split(graph, &all, None);
    }

    /// Finds the nests of a routine, such that on each cycle a LOOP of some nest pays or is left out; otherwise returns a component with a cycle
    /// in which no LOOP may pay. The facts on counters are unchanged, except for those that are set in a piece.
    pub(crate) fn find(
        &mut self,
        body: &Body,
        graph: &Graph,
        classes: &mut Classes,
    ) -> Result<(), Piece>
        ensures { StayNoted classes.old classes.new }
    {
        self.free_loops(body, graph, classes);
        self.begin(body, graph);
        // Each nest takes a LOOP.
        for _ in 0..MOST_INSTRS {
            let Some(waiting) = self.nests.take() else {
                return Ok(());
            };
            self.make(body, graph, classes, &waiting)?;
        }
        Ok(())
    }

    /// LOOPs that may pay are left out.
    fn leave_out_paying(&mut self, body: &Body, graph: &Graph, classes: &Classes) {
        self.jumps.fill_from(body.start, Jump::Plain);
        for pc in body.start..body.end {
            if may_pay(graph, classes, pc) {
                self.jumps.set(pc, Jump::Free);
            }
        }
    }

    /// Finds a component with a cycle on which no LOOP may pay, and no nests; `None` if there is no such component.
    pub(crate) fn find_idle(
        &mut self,
        body: &Body,
        graph: &Graph,
        classes: &Classes,
    ) -> Option<Piece> {
        self.leave_out_paying(body, graph, classes);
        self.begin(body, graph);
        match self.nests.take() {
            Some(waiting) => Some(waiting.piece),
            None => None,
        }
    }
}

/// As many nests in one another, from where on LOOPs of all prices are taken at once.
const DEEP: u16 = 8;
