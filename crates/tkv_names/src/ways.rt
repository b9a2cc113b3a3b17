//! Ways of control: past parts of the source, and out of placed blocks.

ghost use Rattle.std.specs.Prelude.{◌≡◌, IsTrue, IfSome, Some, slice_get};
ghost use Rattle.tkv_syntax.specs.declared.item.ItemKind.TheVariants as kind;
ghost use Rattle.tkv_places.specs.declared.placed.PlacedKind.TheVariants as placed_kind;
ghost use Rattle.tkv_checks.specs.Items.{ItemAt};
ghost use Rattle.tkv_names.specs.Named.{passed, Next, Past};
ghost use Rattle.tkv_names.specs.Seen.{Leads, Passes, Reaches, Escapes, IsFork, Opens};

use crate::check::Check;
use crate::seen::Seen;
use geos_image::Instr;
use tkv_places::{Placed, PlacedKind};
use tkv_syntax::ItemKind;

/// A placed item that control comes to, and how many brackets are open around it.
#[derive(Clone, Copy)]
pub(crate) struct Spot {
    pub index: usize,
    pub level: usize,
}

/// A placed instruction, and what control comes to if it goes to its target.
#[derive(Clone, Copy)]
pub(crate) struct Fork {
    pub instr: Instr,
    pub target: Spot,
}

/// Whether an item ends the part that contains it.
fn ends_part(kind: ItemKind) -> bool
    ensures { IsTrue result → passed kind 0 ≡ Next }
{
    match kind {
        ItemKind::AltEnd => true,
        ItemKind::CondEnd => true,
        ItemKind::Else => true,
        ItemKind::IfEnd => true,
        _ => false,
    }
}

/// How many parts are open after an item that is passed over.
fn parts_after(kind: ItemKind, depth: usize) -> Option<usize>
    ensures { IfSome result (λ left. passed kind depth ≡ Past left) }
{
    match kind {
        ItemKind::If => depth.checked_add(1),
        ItemKind::Alt => depth.checked_add(1),
        ItemKind::AltEnd => depth.checked_sub(1),
        ItemKind::IfEnd => depth.checked_sub(1),
        ItemKind::CondEnd => {
            depth.checked_sub(1)?;
            Some(depth)
        }
        ItemKind::Else => {
            depth.checked_sub(1)?;
            Some(depth)
        }
        _ => Some(depth),
    }
}

/// How many brackets are open after a placed item that control passes over on its way to the end of another block.
fn brackets_after(kind: PlacedKind, depth: usize, to: usize) -> Option<usize>
    ensures { IfSome result (λ left. Opens to kind depth left) }
{
    match kind {
        PlacedKind::Do => Some(depth),
        PlacedKind::Leave => Some(depth),
        PlacedKind::End => {
            let left = depth.checked_sub(1)?;
            if left == to { None } else { Some(left) }
        }
        PlacedKind::Block => depth.checked_add(1),
        PlacedKind::Loop => depth.checked_add(1),
        PlacedKind::Count => depth.checked_add(1),
        PlacedKind::Closing => depth.checked_add(1),
    }
}

/// Whether a placed item ends what began last.
fn is_end(kind: PlacedKind) -> bool
    ensures { IsTrue result → kind ≡ placed_kind.End }
{
    match kind {
        PlacedKind::End => true,
        _ => false,
    }
}

impl Check<'_> {
    /// The item past the part of the source that contains an item.
    pub(crate) fn part_end(&self, from: usize) -> Option<usize>
        ensures { IfSome result (λ to. Passes self.now.text.now self.now.items.now from to) }
    {
        let mut depth: usize = 0;
        for index in from..self.items.len() {
            let item = self.item_at(index)?;
            if depth == 0 && ends_part(item.kind) {
                return Some(index + 1);
            }
            depth = parts_after(item.kind, depth)?;
        }
        None
    }

    /// What the placed item at an index is.
    fn kind_at(&self, index: usize) -> Option<PlacedKind>
        ensures { IfSome result (λ kind. ItemAt self.now.placed.now index (λ item. item.kind ≡ kind)) }
    {
        match self.placed.get(index) {
            Some(item) => Some(item.kind),
            None => None,
        }
    }

    /// The placed item at an index.
    fn placed_at(&self, index: usize) -> Option<Placed>
        ensures { IfSome result (λ item. slice_get self.now.placed.now index ≡ Some item) }
    {
        self.placed.get(index).copied()
    }

    /// What control comes to if it leaves to the end of a block, from an item on.
    fn block_end(&self, from: usize, level: usize, to: u16) -> Option<Spot>
        ensures { IfSome result (λ spot. Escapes self.now.placed.now from level to spot.index spot.level) }
    {
        let block = usize::from(to);
        let mut depth = level;
        for index in from..self.placed.len() {
            let kind = self.kind_at(index)?;
            if depth == block + 1 && is_end(kind) {
                return Some(Spot {
                    index: index + 1,
                    level: block,
                });
            }
            depth = brackets_after(kind, depth, block)?;
        }
        None
    }

    /// The next placed item, if it is an instruction that may go to a target.
    pub(crate) fn fork_at(&self, seen: &Seen) -> Option<Fork>
        ensures { IfSome result (λ fork.
            IsFork self.now.placed.now seen.now.placed seen.now.level fork.instr fork.target.index fork.target.level) }
    {
        let item = self.placed_at(seen.placed)?;
        match item.kind {
            PlacedKind::Do => {
                let from = seen.placed.checked_add(1)?;
                let target = self.block_end(from, seen.level, item.to)?;
                Some(Fork {
                    instr: item.instr,
                    target,
                })
            }
            _ => None,
        }
    }

    /// What control comes to after a placed item, if that is no instruction and begins no loop.
    fn onward(&self, spot: Spot) -> Option<Spot>
        ensures { IfSome result (λ next. Reaches self.now.placed.now spot.index spot.level next.index next.level) }
    {
        let from = spot.index.checked_add(1)?;
        let item = self.placed_at(spot.index)?;
        match item.kind {
            PlacedKind::Block => {
                let level = spot.level.checked_add(1)?;
                Some(Spot { index: from, level })
            }
            PlacedKind::End => {
                let level = spot.level.checked_sub(1)?;
                Some(Spot { index: from, level })
            }
            PlacedKind::Leave => self.block_end(from, spot.level, item.to),
            _ => None,
        }
    }

    /// The next instruction that control comes to.
    fn instruction_from(&self, first: Spot) -> Spot
        ensures { Reaches self.now.placed.now first.index first.level result.index result.level }
    {
        let mut spot = first;
        for _ in 0..self.placed.len() {
            match self.onward(spot) {
                Some(next) => spot = next,
                None => return spot,
            }
        }
        spot
    }

    /// The same, but the next placed item is the next instruction that control comes to.
    pub(crate) fn settled(&self, seen: Seen) -> Seen
        ensures same { (result.item ≡ seen.item) × (result.first ≡ seen.first) × (result.second ≡ seen.second) }
        ensures leads { Leads self.now.text.now self.now.items.now self.now.placed.now seen result }
    {
        let spot = self.instruction_from(Spot {
            index: seen.placed,
            level: seen.level,
        });
        Seen {
            placed: spot.index,
            level: spot.level,
            ..seen
        }
    }
}
