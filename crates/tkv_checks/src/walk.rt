//! A walk over the items of a placed routine, and over its code.

ghost use Rattle.std.specs.Prelude.{◌≡◌, suc, length, IsTrue, IfSome};
ghost use Rattle.tkv_places.specs.declared.placed.PlacedKind.TheVariants as kind;
ghost use Rattle.tkv_meaning.specs.Code.{ret};
ghost use Rattle.tkv_checks.specs.Items.{ItemAt};
ghost use Rattle.tkv_checks.specs.Places.{AreGrown, Grows};
ghost use Rattle.tkv_checks.specs.Walks.{IsRead, IsSingle, LeavesTo};

use crate::closes::{begun, closed, opened};
use crate::places::{Open, Place, are_same, joined, ret};
use crate::steps::{continues, is_plain, past, tried};
use geos_image::Image;
use geos_opcodes::Opcode;
use tkv_places::{Placed, PlacedKind};

/// Notes where the end of block `level` is, to which control leaves from a place within the first `depth` that are open. Whether that
/// agrees with what is noted.
fn leaves(image: &Image, around: &mut [Open], depth: usize, level: u16, from: Place) -> bool
    ensures grown { AreGrown around.old around.new }
    ensures leads { IsTrue result → LeavesTo image.now around.new depth level from }
{
    let Some(last) = depth.checked_sub(1) else {
        return false;
    };
    if last >= around.len() {
        return false;
    }
    match around[last] {
        Open::Block(end) => {
            if last != usize::from(level) {
                return leaves(image, around, last, level, from);
            }
            match joined(end, from) {
                Some(place) => {
                    around[last] = Open::Block(place);
                    true
                }
                None => false,
            }
        }
        Open::Turns => leaves(image, around, last, level, from),
        Open::Closing(instr) => match past(image, &instr, from) {
            Some(next) => leaves(image, around, last, level, next),
            None => false,
        },
    }
}

/// The place after an item that is an instruction.
fn instructed(
    image: &Image,
    around: &mut [Open],
    depth: usize,
    item: &Placed,
    from: Place,
) -> Option<Place>
    ensures grown { AreGrown around.old around.new }
    ensures single { item.now.kind ≡ kind.Do → IfSome result (λ after. IsSingle image.now around.new depth item.now from after) }
{
    if item.to == u16::MAX {
        if continues(item.instr.opcode) {
            return past(image, &item.instr, from);
        }
        return None;
    }
    let found = tried(image, &item.instr, from)?;
    if is_plain(item.instr.opcode) && leaves(image, around, depth, item.to, found.target) {
        Some(found.next)
    } else {
        None
    }
}

/// The place after an item that begins no bracket.
fn single(
    image: &Image,
    around: &mut [Open],
    depth: usize,
    item: &Placed,
    from: Place,
) -> Option<Place>
    ensures grown { AreGrown around.old around.new }
    ensures single { IfSome result (λ after. IsSingle image.now around.new depth item.now from after) }
{
    match item.kind {
        PlacedKind::Do => instructed(image, around, depth, item, from),
        PlacedKind::Leave => {
            if leaves(image, around, depth, item.to, from) {
                Some(Place::Nowhere)
            } else {
                None
            }
        }
        _ => None,
    }
}

/// A routine's items, and the image that has its code.
#[derive(Clone, Copy)]
pub(crate) struct Walk<'t> {
    pub image: &'t Image,
    pub items: &'t [Placed],
}

/// Statements with a place after them, and the index of the item that ends them.
#[derive(Clone, Copy)]
pub(crate) struct Read {
    pub end: usize,
    pub after: Place,
}

/// Whether statements end with the item.
fn ends(item: &Placed) -> bool {
    matches!(item.kind, PlacedKind::End) || matches!(item.instr.opcode, Opcode::Ret)
}

/// Whether the item begins a bracket.
fn begins(item: &Placed) -> bool {
    !matches!(item.kind, PlacedKind::Do | PlacedKind::Leave)
}

impl Walk<'_> {
    /// Whether a bracket ends with the item.
    fn ends_bracket(&self, index: usize) -> bool
        ensures { IsTrue result → ItemAt self.now.items.now index (λ item. item.kind ≡ kind.End) }
    {
        match self.items.get(index) {
            Some(item) => match item.kind {
                PlacedKind::End => true,
                _ => false,
            },
            None => false,
        }
    }

    /// Whether a routine ends with the item.
    pub(crate) fn ends_routine(&self, index: usize) -> bool
        ensures returns { IsTrue result → ItemAt self.now.items.now index (λ item. (item.kind ≡ kind.Do) × (item.instr ≡ ret)) }
        ensures last { IsTrue result → length self.now.items.now ≡ suc index }
    {
        match self.items.get(index) {
            Some(item) => match item.kind {
                PlacedKind::Do => { index + 1 == self.items.len() && are_same(&item.instr, &ret()) }
                _ => false,
            },
            None => false,
        }
    }

    /// Reads statements from an item on, to whose code control comes at a place.
    pub(crate) fn statements(
        &self,
        around: &mut [Open],
        depth: usize,
        from: usize,
        place: Place,
    ) -> Option<Read>
        ensures { IfSome result (λ read. Grows depth around.old around.new
            × IsRead self.now.image.now self.now.items.now around.new depth from place read.end read.after) }
    {
        let mut at = from;
        let mut here = place;
        while at < self.items.len() {
            let item = self.items[at];
            if ends(&item) {
                break;
            }
            if !begins(&item) {
                here = single(self.image, around, depth, &item, here)?;
                at += 1;
                continue;
            }
            if depth >= around.len() {
                return None;
            }
            let bracket = begun(self.image, &item, here)?;
            around[depth] = opened(&item);
            let body = self.statements(around, depth + 1, at + 1, bracket.inner)?;
            if !self.ends_bracket(body.end) {
                return None;
            }
            here = closed(self.image, &bracket, around[depth], body.after)?;
            at = body.end.checked_add(1)?;
        }
        Some(Read {
            end: at,
            after: here,
        })
    }
}
