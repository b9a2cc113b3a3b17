//! The routines of a source that are covered.

ghost use Rattle.std.specs.Prelude.{◌≡◌, IfOk};
ghost use Rattle.tkv_names.specs.Seen.{AreNamed, IfNamed};

use crate::routine::means_named;
use std::alloc::{AllocError, Global};
use tkv_places::Placed;
use tkv_syntax::{Item, ItemKind};

/// Whether the item declares a public routine.
fn is_public(item: &Item) -> bool {
    match item.kind {
        ItemKind::Fn => item.a % 2 == 1,
        _ => false,
    }
}

/// The item that declares a routine, if placed routine `r` is known to do what the source says with its names.
fn covering(
    text: &[u8],
    items: &[Item],
    index: usize,
    placed: &[Vec<Placed>],
    r: usize,
) -> Option<usize>
    ensures { IfNamed text.now items.now placed.now r result }
{
    match placed.get(r) {
        Some(one) => {
            if means_named(text, items, index, one) {
                Some(index)
            } else {
                None
            }
        }
        None => None,
    }
}

/// Notes the item that declares the next public routine, if its placed routine is known to do what the source says with its names.
fn note(
    text: &[u8],
    items: &[Item],
    index: usize,
    placed: &[Vec<Placed>],
    named: &mut Vec<Option<usize>>,
) -> Result<(), AllocError>
    ensures { AreNamed text.now items.now placed.now named.old.items → AreNamed text.now items.now placed.now named.new.items }
{
    if index < items.len() && is_public(&items[index]) {
        named.push(covering(text, items, index, placed, named.len()))?;
    }
    Ok(())
}

/// Of each public routine, the item that declares it, if the placed routine of its number is known to do what the source says with its names.
pub fn named_routines(
    alloc: Global,
    text: &[u8],
    items: &[Item],
    placed: &[Vec<Placed>],
) -> Result<Vec<Option<usize>>, AllocError>
    ensures { IfOk result (λ named. AreNamed text.now items.now placed.now named.items) }
{
    let mut named = Vec::new(alloc);
    for index in 0..items.len() {
        note(text, items, index, placed, &mut named)?;
    }
    Ok(named)
}

/// A source with the items that it writes, its placed public routines, and which of them are covered.
#[derive(Drop)]
pub struct NamedSource {
    pub text: Vec<u8>,
    pub items: Vec<Item>,
    pub placed: Vec<Vec<Placed>>,
    /// Of each public routine, the item that declares it, if the placed routine is known to do what the source says with its names.
    pub named: Vec<Option<usize>>,
}

/// A source and its placed public routines, with the routines that are covered.
pub fn named_source(
    alloc: Global,
    text: Vec<u8>,
    items: Vec<Item>,
    placed: Vec<Vec<Placed>>,
) -> Result<NamedSource, AllocError>
    ensures named { IfOk result (λ one. AreNamed one.text.items one.items.items one.placed.items one.named.items) }
    ensures kept { IfOk result (λ one. (one.text.items ≡ text.items) × (one.items.items ≡ items.items) × (one.placed.items ≡ placed.items)) }
{
    let named = named_routines(alloc, &text, &items, &placed)?;
    Ok(NamedSource {
        text,
        items,
        placed,
        named,
    })
}
