//! Which budget is enough for a routine, which counters are still to pay at its beginning, from which a LOOP takes though nothing sets them,
//! and which is set to a word that may be any.

ghost use Rattle.std.specs.Prelude.{◌≡◌, ◌<◌};
ghost use Rattle.geos_flow.specs.Marks.{Marking};
ghost use Rattle.geos_explain.specs.Places.{place_of};
ghost use Rattle.geos_explain.specs.Budgets.{takes, gives, pays_at, leaves_alone, stays_unset, is_unset_at, takes_at, unset_loop};
ghost use Rattle.geos_explain.specs.Budgets.{IsTakenUnset, WhatIsSaidOfCountersHolds, calls_on_at, calling_on, IsNeverServed};
ghost use Rattle.geos_explain.specs.Budgets.{WhatIsSaidOfBudgetsHolds, sets_to_any, sets_to_any_at, setting_to_any, IsSetToAny};
ghost use Rattle.geos_explain.specs.Budgets.{WhatIsSaidOfWordsHolds};

use crate::filled::Filled;
use crate::led::led_from;
use crate::notes::{put_budget, put_budget_wish};
use crate::phrases::Phrase;
use crate::place::Place;
use crate::routines::{first_or, is_inside};
use crate::saying::{Fact, Saying};
use geos_flow::{Counting, Edge, Heading, Marks, is_marked};
use geos_image::{Instr, Row};
use geos_opcodes::CounterUse;
use geos_verify::calls;

/// Whether the instruction takes from the counter.
fn takes(counter: CounterUse, i: &Instr, k: u8) -> bool
    ensures { result ≡ takes counter i.now k }
{
    match counter {
        CounterUse::CountsDown => i.a == k,
        _ => false,
    }
}

/// Whether the instruction sets the counter.
fn gives(counter: CounterUse, i: &Instr, k: u8) -> bool
    ensures { result ≡ gives counter i.now k }
{
    match counter {
        CounterUse::SetTo | CounterUse::SetToWord => i.a == k,
        _ => false,
    }
}

/// Whether the counter still pays at a pc.
#[tactic(auto, unfolding(crate::specs::Budgets::pays_at))]
fn pays_at(image: &Filled, k: u8, pc: u16) -> bool
    requires { k < 4 }
    ensures { result ≡ pays_at image.now k pc }
{
    match image.point(pc) {
        Some(point) => point.potential.coefficients[usize::from(k)] != 0,
        None => false,
    }
}

/// Whether the instruction neither takes from the counter nor sets it.
fn leaves_alone(i: &Instr, k: u8) -> bool
    ensures { result ≡ leaves_alone i.now k }
{
    let counter = i.opcode.facts().counter;
    !takes(counter, i, k) && !gives(counter, i, k)
}

/// The edges of the place's routine that do not touch a counter, and after which it still pays.
#[derive(Clone, Copy)]
struct Unset<'a> {
    place: &'a Place<'a>,
    k: u8,
    ghost counter: { k < 4 },
}

impl<'a> Counting for Unset<'a> {
    ghost counted = { λ s edge end. stays_unset (place_of s.place.now) s.k edge end };

    #[tactic(auto, unfolding(crate::specs::Budgets::stays_unset))]
    fn counts(&self, edge: Edge, end: u16) -> bool {
        match self.place.image.point(edge.from) {
            Some(point) => {
                is_inside(self.place, edge.from)
                    && leaves_alone(&point.instr, self.k)
                    && pays_at(self.place.image, self.k, end)
            }
            None => false,
        }
    }
}

/// The pcs to which a way leads from the place that does not touch the counter, and on which it still pays.
fn unset_from(place: &Place, k: u8) -> Marks
    requires { k < 4 }
    ensures { Marking result (is_unset_at (place_of place.now) k) }
{
    let unset = Unset { place, k };
    led_from(place.image, Heading::Ahead, &unset, place.pc)
}

/// Whether the instruction at one of these takes from the counter.
#[tactic(auto, unfolding(crate::specs::Budgets::takes_at))]
fn takes_at(place: &Place, k: u8, marks: &Marks, from: u16) -> bool
    requires { Marking marks.now (is_unset_at (place_of place.now) k) }
    ensures { result ≡ takes_at (place_of place.now) k from }
{
    match place.image.point(from) {
        Some(point) => {
            is_marked(marks, usize::from(from))
                && takes(point.instr.opcode.facts().counter, &point.instr, k)
        }
        None => false,
    }
}

/// The first instruction of the routine that takes from the counter, to which such a way leads.
#[tactic(auto, unfolding(crate::specs::Places::first_of))]
fn unset_loop(place: &Place, k: u8) -> Option<u16>
    requires { k < 4 }
    ensures { result ≡ unset_loop (place_of place.now) k }
{
    let marks = unset_from(place, k);
    let start = place.image.start(place.r);
    let mut first = None;
    for n in 0..place.routine.count {
        let from = start + n;
        first = first_or(first, from, takes_at(place, k, &marks, from));
    }
    first
}

/// The counter is not set on the way to the instruction at a pc that takes from it.
fn put_unset_loop(out: &mut Saying, place: &Place, k: u8, pc: u16)
    requires { IsTakenUnset (place_of place.now) k pc }
{
    out.put2(Phrase::NotSetOnPath, Fact::Index(k), Fact::Line(pc))
}

/// The same of a counter that still pays at a place, if there is such an instruction.
fn put_unset_item(out: &mut Saying, place: &Place, k: u8)
    requires { k < 4 }
{
    if !pays_at(place.image, k, place.pc) {
        return;
    }
    match unset_loop(place, k) {
        Some(pc) => put_unset_loop(out, place, k, pc),
        None => {}
    }
}

/// Lemma: a named instruction takes from the counter, and some path leads from the place to it on which no instruction sets the counter
/// or takes from it, and on which the counter pays all along.
pub fn what_is_said_of_counters_holds()
    ensures { WhatIsSaidOfCountersHolds }
{}

/// Whether the instruction at a pc calls a routine that is not before that of the place.
#[tactic(auto, unfolding(crate::specs::Budgets::calls_on_at))]
fn calls_on_at(place: &Place, from: u16) -> bool
    ensures { result ≡ calls_on_at (place_of place.now) from }
{
    match place.image.point(from) {
        Some(point) => calls(point.instr.opcode) && point.instr.imm >= place.r,
        None => false,
    }
}

/// The first such instruction of the routine.
#[tactic(auto, unfolding(crate::specs::Places::first_of))]
fn calling_on(place: &Place) -> Option<u16>
    ensures { result ≡ calling_on (place_of place.now) }
{
    let start = place.image.start(place.r);
    let mut first = None;
    for n in 0..place.routine.count {
        let from = start + n;
        first = first_or(first, from, calls_on_at(place, from));
    }
    first
}

/// No budget is enough because of the call at a pc.
fn put_never_served(out: &mut Saying, place: &Place, from: u16)
    requires { IsNeverServed (place_of place.now) from }
{
    out.put1(Phrase::NoBudgetIsEnough, Fact::Line(from))
}

/// Which budget is enough: none if there is such a call, and otherwise the least that the potential is within.
fn put_serving(out: &mut Saying, place: &Place) {
    match calling_on(place) {
        Some(from) => put_never_served(out, place, from),
        None => put_budget_wish(out, place.potential),
    }
}

/// Whether the instruction sets a counter to a word that may be any.
fn sets_to_any(counter: CounterUse, i: &Instr, row: &Row) -> bool
    ensures { result ≡ sets_to_any counter i.now row.now }
{
    match counter {
        CounterUse::SetToWord => match row.bounds.get(usize::from(i.b)) {
            Some(bound) => *bound == u16::MAX,
            None => false,
        },
        _ => false,
    }
}

/// The same of the instruction at a pc.
#[tactic(auto, unfolding(crate::specs::Budgets::sets_to_any_at))]
fn sets_to_any_at(place: &Place, from: u16) -> bool
    ensures { result ≡ sets_to_any_at (place_of place.now) from }
{
    match place.image.place(from) {
        Some(known) => sets_to_any(known.instr.opcode.facts().counter, &known.instr, &known.row),
        None => false,
    }
}

/// The first such instruction of the routine.
#[tactic(auto, unfolding(crate::specs::Places::first_of))]
fn setting_to_any(place: &Place) -> Option<u16>
    ensures { result ≡ setting_to_any (place_of place.now) }
{
    let start = place.image.start(place.r);
    let mut first = None;
    for n in 0..place.routine.count {
        let from = start + n;
        first = first_or(first, from, sets_to_any_at(place, from));
    }
    first
}

/// What helps there.
fn put_any(out: &mut Saying, place: &Place, from: u16)
    requires { IsSetToAny (place_of place.now) from }
{
    if let Some(point) = place.image.point(from) {
        let (word, counter) = (Fact::Index(point.instr.b), Fact::Index(point.instr.a));
        out.put3(Phrase::WordMayBeAny, word, Fact::Line(from), counter)
    }
}

/// The same, if there is such an instruction.
fn put_any_item(out: &mut Saying, place: &Place) {
    match setting_to_any(place) {
        Some(from) => put_any(out, place, from),
        None => {}
    }
}

/// Lemma: a named instruction sets a counter to a word of which nothing is known there.
pub fn what_is_said_of_words_holds()
    ensures { WhatIsSaidOfWordsHolds }
{}

/// The potential is above the budget, which budget is enough, which counters are never set, and which is set to a word that may be any.
pub(crate) fn put_over(out: &mut Saying, place: &Place) {
    put_budget(out, place.routine, place.potential);
    put_serving(out, place);
    for k in 0..4 {
        put_unset_item(out, place, k);
    }
    put_any_item(out, place)
}

/// Lemma: a call for which no budget is reported to be enough is one of the routine, and the rule on calls refuses it whatever the
/// budget is.
pub fn what_is_said_of_budgets_holds()
    ensures { WhatIsSaidOfBudgetsHolds }
{}
