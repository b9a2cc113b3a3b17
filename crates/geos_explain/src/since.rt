//! The instructions since which a slot holds a block at a place.

ghost use Rattle.std.specs.Prelude.{◌≡◌, ◌<◌, Some, slice_get};
ghost use Rattle.geos_flow.specs.Marks.{Marking};
ghost use Rattle.geos_explain.specs.Places.{place_of};
ghost use Rattle.geos_explain.specs.Since.{holds, keeps_along, is_held_from, leads_held, leads_on, fills_at, named_of, also, since_entry, held_since};
ghost use Rattle.geos_explain.specs.Since.{WhatIsSaidOfSlotsHolds, stays_held};
ghost use Rattle.geos_verify.specs.Places.{places};

use crate::led::led_from;
use crate::place::Place;
use crate::routines::{comes_alike, is_inside};
use geos_flow::{Counting, Edge, Heading, Marks, end_of, is_marked};
use geos_image::Row;
use geos_verify::{Place as KnownPlace, has_edge, is_empty, slot_state};

/// The instructions since which a slot holds a block at a place, by the paths to it on which the slot holds a block all along.
#[derive(Clone, Copy)]
pub(crate) struct Since {
    /// A path leads from the routine's beginning, in whose entry row the slot holds a block.
    pub entry: bool,
    /// One leads from the instruction at this pc; of several it is the last before the place, and otherwise the first.
    pub from: Option<u16>,
    /// Others lead from another instruction.
    pub again: bool,
}

/// Whether the slot holds a block in the row.
fn holds(row: &Row, a: u8) -> bool
    ensures { result ≡ holds row.now a }
{
    !is_empty(slot_state(row, a))
}

/// Whether control follows the edge of the instruction on a path to the place, and the slot holds a block after it.
fn keeps_along(place: &Place, a: u8, edge: Edge, point: &KnownPlace) -> bool
    requires { slice_get (places place.now.image.now) edge.from ≡ Some point.now }
    ensures { result ≡ keeps_along (place_of place.now) a edge point.now }
{
    comes_alike(place, edge.from)
        && has_edge(&point.instr, edge.branch)
        && holds(&place.image.behind(edge.from, &point.row, edge.branch), a)
}

/// The edges of the place's routine after which a slot holds a block, on paths to the place.
#[derive(Clone, Copy)]
struct Holding<'a> {
    place: &'a Place<'a>,
    a: u8,
}

impl<'a> Counting for Holding<'a> {
    ghost counted = { λ s edge end. stays_held (place_of s.place.now) s.a edge };

    #[tactic(auto, unfolding(crate::specs::Since::stays_held))]
    fn counts(&self, edge: Edge, _end: u16) -> bool {
        match self.place.image.place(edge.from) {
            Some(point) => {
                is_inside(self.place, edge.from)
                    && holds(&point.row, self.a)
                    && keeps_along(self.place, self.a, edge, point)
            }
            None => false,
        }
    }
}

/// The pcs from which a path leads to the place on which the slot holds a block all along.
fn held_from(place: &Place, a: u8) -> Marks
    ensures { Marking result (is_held_from (place_of place.now) a) }
{
    let holding = Holding { place, a };
    led_from(place.image, Heading::Back, &holding, place.pc)
}

/// Whether the pc is one of these.
fn is_held_from(place: &Place, a: u8, marks: &Marks, pc: usize) -> bool
    requires { Marking marks.now (is_held_from (place_of place.now) a) }
    ensures { result ≡ is_held_from (place_of place.now) a pc }
{
    is_marked(marks, pc)
}

/// Whether the edge leads so to one of these. Few do, so that is tested first.
fn leads_held(place: &Place, a: u8, marks: &Marks, edge: Edge, point: &KnownPlace) -> bool
    requires held { Marking marks.now (is_held_from (place_of place.now) a) }
    requires there { slice_get (places place.now.image.now) edge.from ≡ Some point.now }
    ensures { result ≡ leads_held (place_of place.now) a edge point.now }
{
    is_held_from(place, a, marks, end_of(edge, &point.instr)) && keeps_along(place, a, edge, point)
}

/// Whether one of the edges of the instruction at a pc does.
fn leads_on(place: &Place, a: u8, marks: &Marks, from: u16, point: &KnownPlace) -> bool
    requires held { Marking marks.now (is_held_from (place_of place.now) a) }
    requires there { slice_get (places place.now.image.now) from ≡ Some point.now }
    ensures { result ≡ leads_on (place_of place.now) a from point.now }
{
    let along = Edge {
        from,
        branch: false,
    };
    let aside = Edge { from, branch: true };
    leads_held(place, a, marks, along, point) || leads_held(place, a, marks, aside, point)
}

/// Whether the slot is empty before the instruction at a pc, and it leads on so, if there is one.
#[tactic(auto, unfolding(crate::specs::Since::fills_at))]
fn fills_at(place: &Place, a: u8, marks: &Marks, from: u16) -> bool
    requires { Marking marks.now (is_held_from (place_of place.now) a) }
    ensures { result ≡ fills_at (place_of place.now) a from }
{
    match place.image.place(from) {
        Some(point) => !holds(&point.row, a) && leads_on(place, a, marks, from, point),
        None => false,
    }
}

/// Of such an instruction that is named, if one is, and one more, the one that is named: the last before the pc, and otherwise the first.
fn named_of(pc: u16, named: Option<u16>, from: u16) -> u16
    ensures { result ≡ named_of pc named from }
{
    match named {
        Some(last) => if from < pc { from } else { last },
        None => from,
    }
}

/// One more such instruction, if the one at a pc is one.
fn also(pc: u16, since: Since, from: u16, here: bool) -> Since
    ensures { result ≡ also pc since from here }
{
    if !here {
        return since;
    }
    Since {
        entry: since.entry,
        from: Some(named_of(pc, since.from, from)),
        again: since.from.is_some(),
    }
}

/// Whether the slot holds a block at the entry, and such a path leads from the routine's beginning.
fn since_entry(place: &Place, a: u8, marks: &Marks) -> bool
    requires { Marking marks.now (is_held_from (place_of place.now) a) }
    ensures { result ≡ since_entry (place_of place.now) a }
{
    let start = usize::from(place.image.start(place.r));
    holds(&place.routine.entry, a) && is_held_from(place, a, marks, start)
}

/// The instructions since which the slot holds a block at the place.
#[tactic(auto, unfolding(crate::specs::Since::since_below))]
pub(crate) fn held_since(place: &Place, a: u8) -> Since
    ensures { result ≡ held_since (place_of place.now) a }
{
    let marks = held_from(place, a);
    let start = place.image.start(place.r);
    let mut since = Since {
        entry: since_entry(place, a, &marks),
        from: None,
        again: false,
    };
    for k in 0..place.routine.count {
        let from = start + k;
        since = also(place.pc, since, from, fills_at(place, a, &marks, from));
    }
    since
}

/// Lemma: if an instruction is named since which a slot holds a block, the slot is empty before it, and after it a path leads to the place
/// on which the slot holds a block all along. If another one is reported, there is another such instruction. If the `in` line is named, the
/// slot holds a block in the entry row, and such a path leads from the routine's beginning. The converse holds too.
#[tactic(auto, using(crate::proofs::Holding::said_of_slots))]
pub fn what_is_said_of_a_held_slot_holds()
    ensures { WhatIsSaidOfSlotsHolds }
{}
