//! What is known of the ways to each place.

ghost use Rattle.std.specs.Prelude.{◌≡◌, ◌<◌, ◌⊎◌, ◌*◌, min, Some, slice_set};
ghost use Rattle.loop_causes.specs.Turns.{number_in, worth};

use crate::counters::{Counter, number_in};
use geos_image::Table;

/// What is known of a way to a place.
#[derive(Clone, Copy)]
pub(crate) struct Reach {
    /// How many steps it takes at least.
    pub(crate) steps: u64,
    /// What is known of the counters there.
    pub(crate) counters: [Counter; 4],
}

/// What is known of a way to each place.
pub(crate) type Reached = Table<Option<Reach>>;

/// The steps of all the turns that a counter may still take.
fn steps_of_turns(counter: Counter, turn: u64) -> u64
    ensures { result ≡ min (number_in counter * turn) 18446744073709551615 }
{
    u64::from(number_in(counter)).saturating_mul(turn)
}

/// The steps of a way, with those of the turns that its counters may still take, where the longest turns of each take so many.
fn worth(reach: &Reach, longest: &[u64; 4]) -> u64
    ensures { result ≡ min (worth reach.now longest.now) 18446744073709551615 }
{
    let [k0, k1, k2, k3] = reach.counters;
    let [t0, t1, t2, t3] = *longest;
    reach
        .steps
        .saturating_add(steps_of_turns(k0, t0))
        .saturating_add(steps_of_turns(k1, t1))
        .saturating_add(steps_of_turns(k2, t2))
        .saturating_add(steps_of_turns(k3, t3))
}

/// Sets what is known of a way to a place, unless one that is worth as much is known.
pub(crate) fn note(reached: &mut Reached, longest: &[u64; 4], to: u16, reach: &Reach)
    requires { to < 4096 }
    ensures { (reached.new ≡ reached.old) ⊎ (reached.new ≡ slice_set reached.old to (Some reach.now)) }
{
    let better = match reached.at(to) {
        Some(old) => worth(&old, longest) < worth(reach, longest),
        None => true,
    };
    if better {
        reached.set(to, Some(*reach));
    }
}
