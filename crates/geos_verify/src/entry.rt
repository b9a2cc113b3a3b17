//! Which words a routine may be called with.

ghost use Rattle.std.specs.Prelude.{◌≡◌};
ghost use Rattle.geos_verify.specs.Entry.{admits};

use crate::checked::Checked;
use crate::enough::within_bounds;

/// Whether there is such a routine, it is public, and each word is within its entry bound.
pub fn admits_words(checked: &Checked, routine: u16, words: &[u16; 8]) -> bool
    ensures { result ≡ admits checked.now routine words.now }
{
    let image = checked.image();
    if routine >= image.count() {
        return false;
    }
    let routine = image.routine(routine);
    routine.public && within_bounds(words, &routine.entry.bounds)
}
