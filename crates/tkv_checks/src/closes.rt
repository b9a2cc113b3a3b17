//! Brackets of items: where their bodies begin, and where control comes after them.

ghost use Rattle.std.specs.Prelude.{◌≡◌, ◌⊎◌, IsTrue, IfSome};
ghost use Rattle.geos_image.specs.Parts.{Parts};
ghost use Rattle.tkv_places.specs.declared.placed.PlacedKind.TheVariants as kind;
ghost use Rattle.tkv_meaning.specs.Code.{turn};
ghost use Rattle.tkv_checks.specs.declared.places.Open.TheVariants as opened;
ghost use Rattle.tkv_checks.specs.declared.places.Place.TheVariants as at;
ghost use Rattle.tkv_checks.specs.Walks.{Closes};

use crate::places::{Open, Place, are_one, are_same, joined, turn};
use crate::steps::{Bracket, continues, past, tried};
use geos_image::{Image, Instr};
use tkv_places::{Placed, PlacedKind};

/// A bracket, to whose first item control comes.
pub(crate) fn begun(image: &Image, item: &Placed, here: Place) -> Option<Bracket>
    ensures { IfSome result (λ bracket. (bracket.item ≡ item.now) × (bracket.here ≡ here)) }
{
    let inner = match item.kind {
        PlacedKind::Count => tried(image, &turn(item.instr.a, 0), here)?.target,
        _ => here,
    };
    Some(Bracket {
        item: *item,
        here,
        inner,
    })
}

/// What is open within a bracket.
pub(crate) fn opened(item: &Placed) -> Open {
    match item.kind {
        PlacedKind::Block => Open::Block(Place::Nowhere),
        PlacedKind::Closing => Open::Closing(item.instr),
        _ => Open::Turns,
    }
}

/// Whether control does not come to a place, or two others are one.
fn comes_only_to(place: Place, one: Place, other: Place) -> bool
    ensures { IsTrue result → (place ≡ at.Nowhere) ⊎ (one ≡ other) }
{
    match place {
        Place::Nowhere => true,
        _ => are_one(one, other),
    }
}

/// The place after a loop that tests its counter after each iteration.
fn tested_after(image: &Image, bracket: &Bracket, after: Place) -> Option<Place>
    ensures { bracket.now.item.kind ≡ kind.Loop → bracket.now.item.instr ≡ turn bracket.now.item.instr.a 0
        → IfSome result (λ next. Closes image.now bracket.now opened.Turns after next) }
{
    let found = tried(image, &turn(bracket.item.instr.a, 0), after)?;
    if comes_only_to(after, found.target, bracket.here) && are_one(bracket.inner, bracket.here) {
        Some(found.next)
    } else {
        None
    }
}

/// The place after a loop that tests its counter before each iteration.
fn tested_before(image: &Image, bracket: &Bracket, after: Place) -> Option<Place>
    ensures { bracket.now.item.kind ≡ kind.Count → bracket.now.item.instr ≡ turn bracket.now.item.instr.a 0
        → IfSome result (λ next. Closes image.now bracket.now opened.Turns after next) }
{
    let found = tried(image, &turn(bracket.item.instr.a, 0), bracket.here)?;
    if comes_only_to(after, after, bracket.here) && are_one(bracket.inner, found.target) {
        Some(found.next)
    } else {
        None
    }
}

/// The place after a loop.
fn turned(image: &Image, bracket: &Bracket, after: Place) -> Option<Place>
    ensures { IfSome result (λ next. Closes image.now bracket.now opened.Turns after next) }
{
    let item = &bracket.item;
    if !are_same(&item.instr, &turn(item.instr.a, 0)) {
        return None;
    }
    match item.kind {
        PlacedKind::Loop => tested_after(image, bracket, after),
        PlacedKind::Count => tested_before(image, bracket, after),
        _ => None,
    }
}

/// The place after a block, whose end is at a place.
fn ended(bracket: &Bracket, end: Place, after: Place) -> Option<Place>
    ensures { (image : Parts) → IfSome result (λ next. Closes image bracket.now (opened.Block end) after next) }
{
    match bracket.item.kind {
        PlacedKind::Block => {
            if are_one(bracket.inner, bracket.here) {
                joined(after, end)
            } else {
                None
            }
        }
        _ => None,
    }
}

/// The place after statements with an instruction on each way out.
fn unlocked(image: &Image, bracket: &Bracket, instr: &Instr, after: Place) -> Option<Place>
    ensures { IfSome result (λ next. Closes image.now bracket.now (opened.Closing instr.now) after next) }
{
    let item = &bracket.item;
    match item.kind {
        PlacedKind::Closing => {}
        _ => return None,
    }
    if are_same(&item.instr, instr)
        && are_one(bracket.inner, bracket.here)
        && continues(instr.opcode)
    {
        past(image, instr, after)
    } else {
        None
    }
}

/// The place after a bracket, whose body ends at a place.
pub(crate) fn closed(image: &Image, bracket: &Bracket, around: Open, after: Place) -> Option<Place>
    ensures { IfSome result (λ next. Closes image.now bracket.now around after next) }
{
    match around {
        Open::Block(end) => ended(bracket, end, after),
        Open::Turns => turned(image, bracket, after),
        Open::Closing(instr) => unlocked(image, bracket, &instr, after),
    }
}
