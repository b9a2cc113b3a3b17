//! Places that wait, each once.

ghost use Rattle.std.specs.Prelude.{◌≡◌, ◌≤◌, ◌<◌, ℕ, Bool, false, true, length, slice_index_or};
ghost use Rattle.std.specs.List.{count_by};
ghost use Rattle.control_graph.specs.declared.place.Place.{Place};

use crate::place::Place;
use geos_image::{Table, two_tables};
use std::alloc::{AllocError, Global};

/// Places that wait, the last one on top. There is room for all that there may be, since none waits twice.
#[derive(Drop)]
pub struct Pile {
    places: Table<Place>,
    /// Whether each place is among them.
    has: Table<bool>,
    /// How many there are.
    pub count: u16,
    ghost long: { length has ≡ 4096 },
    ghost few: { count ≤ count_by (λ (waits : Bool). waits) has },
    ghost among: { (pc : ℕ) → slice_index_or has pc false ≡ true
        → ((x : ℕ) (other : Place) → x < count → (slice_index_or places x other).pc ≡ pc → ⊥) → ⊥ },
}

impl Pile {
    ghost use Rattle.std.specs.Prelude.{◌≡◌, ◌≢◌, ◌≤◌, ◌<◌, ◌+◌, ℕ, IfSome, IfNone, IfOk};
    ghost use Rattle.control_graph.specs.Waits.{Waits};

    /// No place waits.
    pub fn new(alloc: Global) -> Result<Pile, AllocError>
        ensures { IfOk result (λ pile. (at : ℕ) → Waits pile at → ⊥) }
    {
        let (places, has) = two_tables(alloc, Place { pc: 0 }, false)?;
        // Recalls the lemma.
        has.lengths();
        Ok(Pile {
            places,
            has,
            count: 0,
        })
    }

    /// A place waits, if it does not already.
    pub fn put(&mut self, pc: u16)
        requires { pc < 4096 }
        ensures count { self.new.count ≤ self.old.count + 1 }
        ensures waits { Waits self.new pc }
        ensures others { (at : ℕ) → Waits self.old at → Waits self.new at }
    {
        if self.has.at(pc) {
            return;
        }
        // Recalls the lemma.
        self.places.lengths();
        self.places.set(self.count, Place { pc });
        self.has.set(pc, true);
        self.count += 1;
    }

    /// The place on top, if there is one; it no longer waits.
    pub fn take(&mut self) -> Option<u16>
        ensures inside { IfSome result (λ pc. pc < 4096) }
        ensures fewer { IfSome result (λ _. self.new.count + 1 ≡ self.old.count) }
        ensures others { IfSome result (λ pc. (at : ℕ) → at ≢ pc → Waits self.old at → Waits self.new at) }
        ensures none { IfNone result ((at : ℕ) → Waits self.old at → ⊥) }
    {
        if self.count == 0 {
            return None;
        }
        let Place { pc } = self.places.at(self.count - 1);
        self.count -= 1;
        self.has.set(pc, false);
        Some(pc)
    }
}
