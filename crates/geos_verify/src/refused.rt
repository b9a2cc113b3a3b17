//! Every place that is refused.

ghost use Rattle.std.specs.Prelude.{◌≡◌, ◌<◌, ◌≤◌, ◌+◌, ℕ, None, length, slice_get, slice_index_or};
ghost use Rattle.geos_verify.specs.declared.place.Place.{Place};
ghost use Rattle.geos_verify.specs.Places.{places};
ghost use Rattle.geos_verify.specs.Refused.{AreRefusals, KnowsTouchedWithin};
ghost use Rattle.geos_verify.specs.Rules.{refusal};
ghost use Rattle.geos_verify.specs.Touched.{noted, touches_by};

use crate::body::Body;
use crate::place::row_next;
use crate::refusal::refusal;
use crate::rule::Rule;
use crate::touched::{Touched, touched_in};
use geos_image::Image;

/// For each pc of an image the lowest rule that refuses there, if one does.
pub type Refusals = [Option<Rule>; 4096];

/// Which counters each routine touches, by what a table says of the routines that it calls.
fn touched_once_more(image: &Image, table: &Touched) -> Touched
    ensures { (c k : ℕ) → k < 4 → noted result k c ≡ touches_by image.now table.now k c }
{
    let mut next = [[false; 4]; 32];
    for r in 0..image.count() {
        next[usize::from(r)] = touched_in(image, r, table);
    }
    next
}

/// Which counters each routine touches, wherever its calls lead: as many rounds as there are routines.
fn touched_by_all(image: &Image) -> Touched
    ensures { KnowsTouchedWithin image.now result (length image.now.routines) }
{
    let mut table = [[false; 4]; 32];
    for round in 0..image.count() {
        table = touched_once_more(image, &table);
    }
    table
}

/// The rules that refuse places of a routine are noted.
fn note_refusals(rules: &mut Refusals, body: &Body)
    ensures here { (pc : ℕ) (place : Place) → body.now.start ≤ pc → pc < body.now.start + body.now.routine.now.count
        → slice_get (places body.now.image.now) pc ≡ Some place
        → slice_index_or rules.new pc None ≡ refusal body.now.image.now body.now.r body.now.routine.now body.now.start pc place }
    ensures others { (pc : ℕ) → pc < body.now.start → slice_index_or rules.new pc None ≡ slice_index_or rules.old pc None }
{
    let mut row = *body.image.row(body.start);
    for pc in body.start..body.start + body.routine.count {
        rules[usize::from(pc)] = refusal(body, pc, &row, false);
        row = row_next(body.image, pc, &row);
    }
}

/// For each pc of an image, the lowest rule that refuses there, whatever is refused before it. It visits each instruction once for each
/// routine, and then passes each routine once.
pub fn refused_places(image: &Image) -> Refusals
    ensures { AreRefusals image.now result }
{
    let touched = touched_by_all(image);
    let mut rules = [None; 4096];
    for r in 0..image.count() {
        let body = Body {
            image,
            r,
            routine: image.routine(r),
            start: image.start(r),
            touched: &touched,
        };
        note_refusals(&mut rules, &body);
    }
    rules
}
