//! Routines of a source, and their placed ones.

ghost use Rattle.std.specs.Prelude.{◌≡◌, ℕ, List, IsTrue, IfSome, Some, slice_get};
ghost use Rattle.tkv_syntax.specs.declared.item.ItemKind.TheVariants as kind;
ghost use Rattle.tkv_names.specs.Named.{parameters};
ghost use Rattle.tkv_names.specs.Seen.{Agrees, IsPlace, Begins, MeansNamed};

use crate::check::Check;
use crate::held::renamed;
use crate::seen::{Known, Seen};
use tkv_places::Placed;
use tkv_syntax::{Item, ItemKind};

/// Where the source says an item.
fn place_at(items: &[Item], index: usize) -> Option<u32>
    ensures { IfSome result (λ at. IsPlace items.now index at) }
{
    match items.get(index) {
        Some(item) => Some(item.at),
        None => None,
    }
}

/// The item at an index, if it declares a routine.
fn head_at(items: &[Item], index: usize) -> Option<Item>
    ensures { IfSome result (λ head. (slice_get items.now index ≡ Some head) × (head.kind ≡ kind.Fn)) }
{
    match items.get(index) {
        Some(item) => match item.kind {
            ItemKind::Fn => Some(*item),
            _ => None,
        },
        None => None,
    }
}

/// Which registers have the words of the first so many parameters, which follow an item.
fn parameters_of(text: &[u8], items: &[Item], first: usize, count: u8) -> Option<[Option<u32>; 8]>
    ensures { IfSome result (λ held. (words : List ℕ) → Agrees text.now held (parameters text.now items.now first words count) words) }
{
    if count == 0 {
        return Some([None; 8]);
    }
    if count > 8 {
        return None;
    }
    let held = parameters_of(text, items, first, count - 1)?;
    let index = first.checked_add(usize::from(count - 1))?;
    let at = place_at(items, index)?;
    Some(renamed(text, held, at, count - 1))
}

/// What is known where a routine begins, by the item that declares it.
fn begun(text: &[u8], items: &[Item], index: usize) -> Option<Seen>
    ensures { IfSome result (λ seen. Begins text.now items.now index seen) }
{
    let head = head_at(items, index)?;
    if head.b > 7 {
        return None;
    }
    let count = head.b as u8;
    let first = index.checked_add(1)?;
    let held = parameters_of(text, items, first, count)?;
    let item = index.checked_add(2 + usize::from(count))?;
    Some(Seen {
        item,
        placed: 0,
        level: 0,
        held,
        first: Known::Nothing,
        second: Known::Nothing,
        third: Known::Nothing,
        fourth: Known::Nothing,
    })
}

/// Whether the placed routine outputs what the source says of the routine that an item declares, whatever words it is called with. The check
/// goes over the items of the routine once.
pub fn means_named(text: &[u8], items: &[Item], index: usize, placed: &[Placed]) -> bool
    ensures { IsTrue result → MeansNamed text.now items.now index placed.now }
{
    let Some(end) = placed.len().checked_sub(1) else {
        return false;
    };
    let check = Check {
        text,
        items,
        placed: &placed[..end],
    };
    match begun(text, items, index) {
        Some(seen) => check.is_sound(seen),
        None => false,
    }
}
