//! Which call forgets what is to be known at a place, since after it only what its routine's `out` line says is known; and which
//! instruction moves an index going round a loop.

ghost use Rattle.std.specs.Prelude.{◌≡◌, ◌<◌, Some, IfSome};
ghost use Rattle.geos_flow.specs.Marks.{Marking};
ghost use Rattle.geos_explain.specs.Places.{place_of, last_of};
ghost use Rattle.geos_explain.specs.Forgotten.{knows, comes_lacked, is_lacked_from, forgets_at, forgetting_call, WhatIsSaidOfCallsHolds};
ghost use Rattle.geos_explain.specs.Forgotten.{moves, moves_at, if_round, IsMovedRound, WhatIsSaidOfRoundsHolds, stays_lacked};
ghost use Rattle.geos_explain.specs.declared.forgotten.Item.TheVariants.{Bound};

use crate::led::led_from;
use crate::phrases::Phrase;
use crate::place::Place;
use crate::routines::{comes_alike, is_inside};
use crate::saying::{Fact, Saying};
use crate::ways::forgets;
use geos_flow::{Counting, Edge, Heading, Marks, end_of, is_marked};
use geos_image::{Instr, Opcode, Pointer, Row, SlotState};
use geos_verify::{
    Place as KnownPlace, has_edge, is_empty, pointer_at, pointer_fits, slot_fits, slot_state,
};

/// Something that a row may know.
#[derive(Clone, Copy)]
pub(crate) enum Item {
    /// The word is at most so much.
    Bound(u8, u16),
    /// The slot holds this.
    Slot(u8, SlotState),
    /// The slot holds a block.
    Held(u8),
    /// The pointer leads there.
    Leads(u8, Pointer),
    /// The two slots of the pair with this number hold different blocks.
    Apart(u8),
}

/// Whether the row knows the item.
pub(crate) fn knows(row: &Row, item: Item) -> bool
    ensures { result ≡ knows row.now item }
{
    match item {
        Item::Bound(w, most) => w < 8 && row.bounds[usize::from(w)] <= most,
        Item::Slot(a, state) => slot_fits(slot_state(row, a), state),
        Item::Held(a) => !is_empty(slot_state(row, a)),
        Item::Leads(p, pointer) => pointer_fits(pointer_at(row, p), Some(pointer)),
        Item::Apart(pair) => pair < 6 && row.pairs[usize::from(pair)],
    }
}

/// The edges of the place's routine before which an item is not known, where control comes as it comes to the place.
#[derive(Clone, Copy)]
struct Lacking<'a> {
    place: &'a Place<'a>,
    item: Item,
}

impl<'a> Counting for Lacking<'a> {
    ghost counted = { λ s edge end. stays_lacked (place_of s.place.now) s.item edge };

    #[tactic(auto, unfolding(crate::specs::Forgotten::stays_lacked))]
    fn counts(&self, edge: Edge, _end: u16) -> bool {
        match self.place.image.place(edge.from) {
            Some(point) => {
                is_inside(self.place, edge.from)
                    && !knows(&point.row, self.item)
                    && comes_alike(self.place, edge.from)
            }
            None => false,
        }
    }
}

/// The pcs from which a way leads to another on which the item is not known all along.
pub(crate) fn lacked_from(place: &Place, item: Item, to: u16) -> Marks
    requires { to < 4096 }
    ensures { Marking result (is_lacked_from (place_of place.now) item to) }
{
    let lacking = Lacking { place, item };
    led_from(place.image, Heading::Back, &lacking, to)
}

/// Whether the pc is one of those from which such a way leads to the place.
pub(crate) fn is_lacked_from(place: &Place, item: Item, marks: &Marks, pc: usize) -> bool
    requires { Marking marks.now (is_lacked_from (place_of place.now) item place.now.pc) }
    ensures { result ≡ is_lacked_from (place_of place.now) item place.now.pc pc }
{
    is_marked(marks, pc)
}

/// Whether control comes along the edge of the instruction, as it comes to the place, to one of these.
fn comes_lacked(place: &Place, item: Item, marks: &Marks, edge: Edge, point: &KnownPlace) -> bool
    requires { Marking marks.now (is_lacked_from (place_of place.now) item place.now.pc) }
    ensures { result ≡ comes_lacked (place_of place.now) item edge point.now }
{
    is_lacked_from(place, item, marks, end_of(edge, &point.instr))
        && comes_alike(place, edge.from)
        && has_edge(&point.instr, edge.branch)
}

/// Whether the instruction at a pc is a call after which the item is not known, and before which it is, and control comes
/// on from it so.
#[tactic(auto, unfolding(crate::specs::Forgotten::forgets_at))]
fn forgets_at(place: &Place, item: Item, marks: &Marks, from: u16) -> bool
    requires { Marking marks.now (is_lacked_from (place_of place.now) item place.now.pc) }
    ensures { result ≡ forgets_at (place_of place.now) item from }
{
    match place.image.place(from) {
        Some(point) => {
            let along = Edge {
                from,
                branch: false,
            };
            forgets(point.instr.opcode)
                && knows(&point.row, item)
                && comes_lacked(place, item, marks, along, point)
                && !knows(&place.image.behind(from, &point.row, false), item)
        }
        None => false,
    }
}

/// The last call of the routine that forgets the item on a way to the place on which it is not known again.
#[tactic(auto, unfolding(crate::specs::Places::last_of))]
pub(crate) fn forgetting_call(place: &Place, item: Item) -> Option<u16>
    ensures { result ≡ forgetting_call (place_of place.now) item }
{
    let marks = lacked_from(place, item, place.pc);
    let start = place.image.start(place.r);
    let mut last = None;
    for k in 0..place.routine.count {
        let from = start + k;
        if forgets_at(place, item, &marks, from) {
            last = Some(from);
        }
    }
    last
}

/// Lemma: a call that is reported to forget an item is one of the routine; the row before it has the item, the row after it
/// does not, and from there a path leads to the place on which no row has it.
pub fn what_is_said_of_calls_holds()
    ensures { WhatIsSaidOfCallsHolds }
{}

/// Whether the instruction puts into the word what it makes of it.
fn moves(i: &Instr, w: u8) -> bool
    ensures { result ≡ moves i.now i.now.opcode w }
{
    match i.opcode {
        Opcode::Add | Opcode::Sub => i.a == w && (i.b == w || i.c == w),
        Opcode::Muli => i.a == w && i.b == w,
        _ => false,
    }
}

/// Whether the instruction at a pc does, and from there a way leads to the place on which the item is not known all along.
#[tactic(auto, unfolding(crate::specs::Forgotten::moves_at))]
fn moves_at(place: &Place, item: Item, w: u8, marks: &Marks, from: u16) -> bool
    requires { Marking marks.now (is_lacked_from (place_of place.now) item place.now.pc) }
    ensures { result ≡ moves_at (place_of place.now) item w from }
{
    match place.image.place(from) {
        Some(point) => is_lacked_from(place, item, marks, usize::from(from))
            && moves(&point.instr, w),
        None => false,
    }
}

/// The last such instruction of the routine.
#[tactic(auto, unfolding(crate::specs::Places::last_of))]
pub(crate) fn last_moving(place: &Place, item: Item, w: u8) -> Option<u16>
    ensures last { result ≡ last_of (place_of place.now) (moves_at (place_of place.now) item w) place.now.routine.now.count }
    ensures low { IfSome result (λ from. from < 4096) }
{
    let marks = lacked_from(place, item, place.pc);
    let start = place.image.start(place.r);
    let mut last = None;
    for k in 0..place.routine.count {
        let from = start + k;
        if moves_at(place, item, w, &marks, from) {
            last = Some(from);
        }
    }
    last
}

/// The instruction, if a way leads from the place to it on which the item is not known all along.
fn if_round(place: &Place, item: Item, from: Option<u16>) -> Option<u16>
    requires { IfSome from (λ from. from < 4096) }
    ensures { result ≡ if_round (place_of place.now) item from }
{
    match from {
        Some(from) if is_marked(&lacked_from(place, item, from), usize::from(place.pc)) => {
            Some(from)
        }
        _ => None,
    }
}

/// The instruction at a pc changes the word in each iteration, and it is not known then to be at most so much.
fn put_moved(out: &mut Saying, place: &Place, w: u8, most: u16, from: u16)
    requires { IsMovedRound (place_of place.now) (Bound w most) w from }
{
    if let Some(point) = place.image.place(from) {
        let word = Fact::Index(w);
        out.put2(
            Phrase::WordAt,
            Fact::Word(point.instr.opcode),
            Fact::Line(from),
        );
        out.put3(Phrase::ChangesInLoop, word, word, Fact::Count(most))
    }
}

/// Which instruction changes the index in each iteration, if a bound of it is required, and one does.
pub(crate) fn put_moved_round(out: &mut Saying, place: &Place, item: Item) {
    let Item::Bound(w, most) = item else {
        return;
    };
    if let Some(from) = if_round(place, item, last_moving(place, item, w)) {
        put_moved(out, place, w, most, from)
    }
}

/// Lemma: an instruction that is reported to change an index in each iteration does so; paths lead from it to the place and from there back
/// to it, and no row on them has the required bound.
#[tactic(auto, using(crate::proofs::Forgetting::said_of_rounds))]
pub fn what_is_said_of_rounds_holds()
    ensures { WhatIsSaidOfRoundsHolds }
{}
