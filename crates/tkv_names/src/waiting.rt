//! The items of a source in order, with what is known wherever control may go on.

ghost use Rattle.std.specs.Prelude.{◌≡◌, ℕ, IsTrue, IfSome, Some, None, slice_get};
ghost use Rattle.tkv_names.specs.Seen.{Leads, Sound, AllSound};

use crate::check::Check;
use crate::held::shared;
use crate::seen::{Known, Seen};
use crate::tested::Branches;
use tkv_syntax::ItemKind;

/// Something that waits, and its index.
#[derive(Clone, Copy)]
struct Case {
    place: usize,
    seen: Seen,
}

/// What waits for an item, if anything does.
fn found(waiting: &[Option<Seen>], item: usize) -> Option<Case>
    ensures { IfSome result (λ one. slice_get waiting.now one.place ≡ Some (Some one.seen)) }
{
    for place in 0..waiting.len() {
        match waiting[place] {
            Some(seen) => {
                if seen.item == item {
                    return Some(Case { place, seen });
                }
            }
            None => {}
        }
    }
    None
}

/// An index at which nothing waits.
fn free(waiting: &[Option<Seen>]) -> Option<usize>
    ensures { IfSome result (λ place. slice_get waiting.now place ≡ Some None) }
{
    for place in 0..waiting.len() {
        match waiting[place] {
            Some(_) => {}
            None => return Some(place),
        }
    }
    None
}

/// Whether nothing waits.
fn is_empty(waiting: &[Option<Seen>]) -> bool
    ensures { IsTrue result → (k : ℕ) (seen : Seen) → slice_get waiting.now k ≡ Some (Some seen) → ⊥ }
{
    for place in 0..waiting.len() {
        match waiting[place] {
            Some(_) => return false,
            None => {}
        }
    }
    true
}

impl Check<'_> {
    /// What is known in two cases, if control comes to the same items in both.
    fn merged(&self, one: Seen, other: Seen) -> Option<Seen>
        ensures one { IfSome result (λ both. Leads self.now.text.now self.now.items.now self.now.placed.now one both) }
        ensures other { IfSome result (λ both. Leads self.now.text.now self.now.items.now self.now.placed.now other both) }
    {
        if one.item != other.item || one.placed != other.placed || one.level != other.level {
            return None;
        }
        Some(Seen {
            held: shared(self.text, one.held, &other.held, 8),
            first: Known::Nothing,
            second: Known::Nothing,
            third: Known::Nothing,
            fourth: Known::Nothing,
            ..one
        })
    }

    /// With one more case, for an item for which another one waits.
    fn joined(&self, waiting: [Option<Seen>; 8], old: Case, seen: Seen) -> Option<[Option<Seen>; 8]>
        ensures { slice_get waiting old.place ≡ Some (Some old.seen)
            → IfSome result (λ more. AllSound self.now.text.now self.now.items.now self.now.placed.now more
            → AllSound self.now.text.now self.now.items.now self.now.placed.now waiting
            × Sound self.now.text.now self.now.items.now self.now.placed.now seen) }
    {
        let both = self.merged(old.seen, seen)?;
        if old.place >= 8 {
            return None;
        }
        let mut more = waiting;
        more[old.place] = Some(both);
        Some(more)
    }

    /// With one more case.
    fn added(&self, waiting: [Option<Seen>; 8], seen: Seen) -> Option<[Option<Seen>; 8]>
        ensures { IfSome result (λ more. AllSound self.now.text.now self.now.items.now self.now.placed.now more
            → AllSound self.now.text.now self.now.items.now self.now.placed.now waiting
            × Sound self.now.text.now self.now.items.now self.now.placed.now seen) }
    {
        let place = free(&waiting)?;
        if place >= 8 {
            return None;
        }
        let mut more = waiting;
        more[place] = Some(seen);
        Some(more)
    }

    /// With one more case, whose next placed item is an instruction.
    fn placed_case(&self, waiting: [Option<Seen>; 8], seen: Seen) -> Option<[Option<Seen>; 8]>
        ensures { IfSome result (λ more. AllSound self.now.text.now self.now.items.now self.now.placed.now more
            → AllSound self.now.text.now self.now.items.now self.now.placed.now waiting
            × Sound self.now.text.now self.now.items.now self.now.placed.now seen) }
    {
        match found(&waiting, seen.item) {
            Some(old) => self.joined(waiting, old, seen),
            None => self.added(waiting, seen),
        }
    }

    /// With one more case.
    fn with(&self, waiting: [Option<Seen>; 8], seen: Seen) -> Option<[Option<Seen>; 8]>
        ensures { IfSome result (λ more. AllSound self.now.text.now self.now.items.now self.now.placed.now more
            → AllSound self.now.text.now self.now.items.now self.now.placed.now waiting
            × Sound self.now.text.now self.now.items.now self.now.placed.now seen) }
    {
        self.placed_case(waiting, self.settled(seen))
    }

    /// What is known after the next item, if that is a test.
    fn branches_of(&self, seen: Seen) -> Option<Branches>
        ensures { IfSome result (λ next. Sound self.now.text.now self.now.items.now self.now.placed.now next.stays
            → Sound self.now.text.now self.now.items.now self.now.placed.now next.leaves
            → Sound self.now.text.now self.now.items.now self.now.placed.now seen) }
    {
        let item = self.item_at(seen.item)?;
        match item.kind {
            ItemKind::Test => self.tested(seen, &item),
            _ => None,
        }
    }

    /// After the next item of a case.
    fn stepped(&self, waiting: [Option<Seen>; 8], seen: Seen) -> Option<[Option<Seen>; 8]>
        ensures { IfSome result (λ more. AllSound self.now.text.now self.now.items.now self.now.placed.now more
            → AllSound self.now.text.now self.now.items.now self.now.placed.now waiting
            × Sound self.now.text.now self.now.items.now self.now.placed.now seen) }
    {
        if self.is_ended(seen) {
            return Some(waiting);
        }
        match self.branches_of(seen) {
            Some(next) => {
                let more = self.with(waiting, next.stays)?;
                self.with(more, next.leaves)
            }
            None => {
                let next = self.next(seen)?;
                self.with(waiting, next)
            }
        }
    }

    /// After the next item of a case that waits.
    fn after_one(&self, waiting: [Option<Seen>; 8], one: Case) -> Option<[Option<Seen>; 8]>
        ensures { slice_get waiting one.place ≡ Some (Some one.seen)
            → IfSome result (λ more. AllSound self.now.text.now self.now.items.now self.now.placed.now more
            → AllSound self.now.text.now self.now.items.now self.now.placed.now waiting) }
    {
        if one.place >= 8 {
            return None;
        }
        let mut left = waiting;
        left[one.place] = None;
        self.stepped(left, one.seen)
    }

    /// After the cases that wait for an item.
    fn after_item(&self, waiting: [Option<Seen>; 8], item: usize) -> Option<[Option<Seen>; 8]>
        ensures { IfSome result (λ more. AllSound self.now.text.now self.now.items.now self.now.placed.now more
            → AllSound self.now.text.now self.now.items.now self.now.placed.now waiting) }
    {
        match found(&waiting, item) {
            Some(one) => self.after_one(waiting, one),
            None => Some(waiting),
        }
    }

    /// Whether the placed items do what the items of the source say from here on.
    pub(crate) fn is_sound(&self, first: Seen) -> bool
        ensures { IsTrue result → Sound self.now.text.now self.now.items.now self.now.placed.now first }
    {
        let Some(begun) = self.with([None; 8], first) else {
            return false;
        };
        let mut waiting = begun;
        for index in first.item..self.items.len() {
            if is_empty(&waiting) {
                return true;
            }
            match self.after_item(waiting, index) {
                Some(more) => waiting = more,
                None => return false,
            }
        }
        is_empty(&waiting)
    }
}
