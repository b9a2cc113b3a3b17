//! Which refusals are reported once: that a pointer leads into an empty slot is reported where it begins, and not at each later instruction.

ghost use Rattle.std.specs.Prelude.{◌≡◌, ◌<◌, ◌↔◌, true, IfOk, length, not};
ghost use Rattle.geos_explain.specs.Repeated.{brings, names_empty_slot, ComesFromTold, IsRepeated, IsToldOnce, TellsOnce};
ghost use Rattle.geos_explain.specs.Repeated.{RepeatedIsToldBefore, leads_ahead};

use crate::filled::Filled;
use crate::refusals::rule_at;
use crate::uses::leading_nowhere;
use geos_flow::{Counting, Edge};
use geos_image::Row;
use geos_verify::{Rule, fits};
use std::alloc::{AllocError, Global};

/// Whether the rule on empty slots is the one that is reported at a pc.
fn names_empty_slot(refused: &[Option<Rule>], pc: u16) -> bool
    ensures { result ≡ names_empty_slot refused.now pc }
{
    match rule_at(refused, pc) {
        Some(Rule::NamesEmptySlot) => true,
        _ => false,
    }
}

/// Whether the edge comes from an instruction that this rule refuses, of whose pointers into empty slots the row has no other.
#[tactic(auto, unfolding(crate::specs::Repeated::brings))]
fn brings(image: &Filled, refused: &[Option<Rule>], row: &Row, edge: Edge) -> bool
    ensures { result ≡ brings image.now refused.now row.now edge }
{
    match image.place(edge.from) {
        Some(from) => {
            names_empty_slot(refused, edge.from)
                && fits(&leading_nowhere(&from.row), &leading_nowhere(row))
        }
        None => false,
    }
}

/// The edges that do not.
#[derive(Clone, Copy)]
struct Others<'a> {
    image: &'a Filled<'a>,
    refused: &'a [Option<Rule>],
    row: &'a Row,
}

impl<'a> Counting for Others<'a> {
    ghost counted = { λ s edge end. not (brings s.image.now s.refused.now s.row.now edge) };

    fn counts(&self, edge: Edge, _end: u16) -> bool {
        !brings(self.image, self.refused, self.row, edge)
    }
}

/// The edges that lead ahead.
#[derive(Clone, Copy)]
struct Ahead {}

impl Counting for Ahead {
    ghost counted = { λ s edge end. leads_ahead edge end };

    fn counts(&self, edge: Edge, end: u16) -> bool {
        edge.from < end
    }
}

/// Whether a forward edge leads to a pc whose row is known, and each edge to it comes from where the rule is reported of its pointers.
fn comes_from_told(image: &Filled, refused: &[Option<Rule>], row: &Row, pc: u16) -> bool
    requires { pc < length image.now.points }
    ensures { (result ≡ true) ↔ ComesFromTold image.now refused.now row.now pc }
{
    let others = Others {
        image,
        refused,
        row,
    };
    let other = image.graph().first_into(&others, pc);
    let ahead = image.graph().first_into(&Ahead {}, pc);
    other.is_none() && ahead.is_some()
}

/// Whether the rule on empty slots refuses the instruction at a pc only for pointers of which that is reported before.
fn is_repeated(image: &Filled, refused: &[Option<Rule>], pc: u16) -> bool
    requires { pc < length image.now.points }
    ensures { (result ≡ true) ↔ IsRepeated image.now refused.now pc }
{
    match image.place(pc) {
        Some(place) => {
            names_empty_slot(refused, pc) && comes_from_told(image, refused, &place.row, pc)
        }
        None => false,
    }
}

/// The rule that is reported at a pc: the lowest that refuses there, unless it repeats an earlier report.
fn told_at(image: &Filled, refused: &[Option<Rule>], pc: u16) -> Option<Rule>
    requires { pc < length image.now.points }
    ensures { IsToldOnce image.now refused.now pc result }
{
    if is_repeated(image, refused, pc) {
        return None;
    }
    match refused.get(usize::from(pc)) {
        Some(rule) => *rule,
        None => None,
    }
}

/// The same for each pc.
pub(crate) fn told_once(
    alloc: Global,
    image: &Filled,
    refused: &[Option<Rule>],
) -> Result<Vec<Option<Rule>>, AllocError>
    ensures { IfOk result (λ told. TellsOnce image.now refused.now told.items) }
{
    let mut told = Vec::with_capacity(alloc, usize::from(image.len()))?;
    for pc in 0..image.len() {
        told.push(told_at(image, refused, pc))?;
    }
    Ok(told)
}

/// Lemma: each refusal that is not reported again is reported before, of the same pointers.
pub fn repeated_is_told_before()
    ensures { RepeatedIsToldBefore }
{}
