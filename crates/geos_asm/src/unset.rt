//! LOOPs that take from a counter which nothing sets on a way to them: V14 refuses the routine, whatever its budget is.

ghost use Rattle.std.specs.Prelude.{◌≡◌, ◌<◌, ◌&&◌, ℕ, length, IfNone, IfSome};
ghost use Rattle.geos_flow.specs.Marks.{is_marked};
ghost use Rattle.geos_asm.specs.Unset.{takes, sets, owes_at, MarksUnset, NoneUnset, NoneUnsetIn, NoneUnsetOf, TakesUnset};

use geos_flow::{Counting, Edge, Graph, Heading, Marks, follow, is_marked, mark, no_marks};
use geos_image::{Image, Instr};
use geos_opcodes::CounterUse;

/// A LOOP that takes from a counter, by its pc.
#[derive(Clone, Copy)]
pub(crate) struct LoopOn {
    pub counter: u8,
    pub pc: u16,
}

/// Whether the instruction takes from the counter.
fn takes(i: &Instr, k: u8) -> bool
    ensures { result ≡ takes i.now k }
{
    match i.opcode.facts().counter {
        CounterUse::CountsDown => i.a == k,
        _ => false,
    }
}

/// Whether the instruction sets the counter.
fn sets(i: &Instr, k: u8) -> bool
    ensures { result ≡ sets i.now k }
{
    match i.opcode.facts().counter {
        CounterUse::SetTo | CounterUse::SetToWord => i.a == k,
        _ => false,
    }
}

/// Whether the steps that are owed at a pc are the more, the more the counter has.
#[tactic(auto, unfolding(crate::specs::Unset::owes_at))]
fn owes_at(image: &Image, k: u8, pc: u16) -> bool
    requires { k < 4 }
    ensures { result ≡ owes_at image.now k pc }
{
    match image.points().get(usize::from(pc)) {
        Some(point) => point.potential.coefficients[usize::from(k)] != 0,
        None => false,
    }
}

/// The edges of a routine's instructions that leave a counter unchanged, and after which steps are owed for it.
#[derive(Clone, Copy)]
struct Unset<'a> {
    image: &'a Image,
    start: u16,
    count: u16,
    k: u8,
    ghost counter: { k < 4 },
}

impl<'a> Unset<'a> {
    ghost use Rattle.geos_verify.specs.Rules.{has_place};

    /// Whether a pc is one of the routine's.
    fn has(&self, pc: u16) -> bool
        ensures { result ≡ has_place self.now.start self.now.count pc }
    {
        self.start <= pc && usize::from(pc) < usize::from(self.start) + usize::from(self.count)
    }
}

impl<'a> Counting for Unset<'a> {
    ghost use Rattle.geos_asm.specs.Unset.{stays_unset};

    ghost counted = { λ s edge end. stays_unset s.image.now s.start s.count s.k edge end };

    #[tactic(auto, unfolding(crate::specs::Unset::stays_unset))]
    fn counts(&self, edge: Edge, end: u16) -> bool {
        match self.image.points().get(usize::from(edge.from)) {
            Some(point) => {
                self.has(edge.from)
                    && !takes(&point.instr, self.k)
                    && !sets(&point.instr, self.k)
                    && owes_at(self.image, self.k, end)
            }
            None => false,
        }
    }
}

/// The instructions that a path from a routine's first instruction reaches that leaves the counter unchanged, and on which steps are owed
/// for it.
fn unset_from(graph: &Graph, unset: &Unset) -> Marks
    requires same { graph.now.image.now ≡ unset.now.image.now }
    requires within { unset.now.start < 4096 }
    ensures { MarksUnset unset.now.image.now unset.now.start unset.now.count unset.now.k result }
{
    let mut marks = no_marks();
    mark(&mut marks, usize::from(unset.start));
    follow(graph, Heading::Ahead, unset, &mut marks);
    marks
}

/// Whether the instruction at a pc is marked, and takes from the counter.
fn is_taken(marks: &Marks, pc: u16, i: &Instr, k: u8) -> bool
    ensures { result ≡ (is_marked marks.now pc && takes i.now k) }
{
    is_marked(marks, usize::from(pc)) && takes(i, k)
}

/// The first LOOP of routine r that takes from the counter, to which such a way leads.
fn unset_loop(image: &Image, r: u16, k: u8) -> Option<u16>
    requires routine { r < length image.now.routines }
    requires counter { k < 4 }
    ensures some { IfSome result (TakesUnset image.now r k) }
    ensures none { IfNone result (NoneUnsetOf image.now r k) }
{
    let start = image.start(r);
    if !owes_at(image, k, start) {
        return None;
    }
    let count = image.routine(r).count;
    let unset = Unset {
        image,
        start,
        count,
        k,
    };
    let marks = unset_from(&Graph::of(image), &unset);
    for pc in start..start + count {
        if is_taken(&marks, pc, image.instr(pc), k) {
            return Some(pc);
        }
    }
    None
}

/// The same of each counter.
fn unset_loop_in(image: &Image, r: u16) -> Option<LoopOn>
    requires { r < length image.now.routines }
    ensures some { IfSome result (λ found. TakesUnset image.now r found.counter found.pc) }
    ensures none { IfNone result (NoneUnsetIn image.now r) }
{
    for counter in 0..4 {
        if let Some(pc) = unset_loop(image, r, counter) {
            return Some(LoopOn { counter, pc });
        }
    }
    None
}

/// The same of each routine.
pub(crate) fn first_unset_loop(image: &Image) -> Option<LoopOn>
    ensures some { IfSome result (λ found. (r : ℕ) × TakesUnset image.now r found.counter found.pc) }
    ensures none { IfNone result (NoneUnset image.now) }
{
    for r in 0..image.count() {
        if let Some(found) = unset_loop_in(image, r) {
            return Some(found);
        }
    }
    None
}
