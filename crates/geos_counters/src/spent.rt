//! Which counters routines touch: after a call nothing is known of those that the called routine does.

ghost use Rattle.std.specs.Prelude.{◌≡◌};
ghost use Rattle.geos_verify.specs.Touched.{noted};
ghost use Rattle.geos_counters.specs.Counters.{touched_by};
ghost use Rattle.geos_counters.specs.Touching.{NotesTouched, NotesOwn, NotesAllTouched, KnowsTouched};

use geos_image::Image;
use geos_verify::{Touched, touched_in};

/// Which counters each routine touches; a routine may call those before it.
pub fn find_touched(image: &Image) -> Touched
    ensures only { NotesTouched image.now result }
    ensures own { NotesOwn image.now result }
{
    let mut table = [[false; 4]; 32];
    for r in 0..image.count() {
        table[usize::from(r)] = touched_in(image, r, &table);
    }
    table
}

/// Which counters each routine may touch: those that the table says, or all, where it says too little, since a routine calls one
/// after it.
fn may_touch(image: &Image, table: &Touched) -> Touched
    ensures { NotesAllTouched image.now result }
{
    for r in 0..image.count() {
        if touched_in(image, r, table) != table[usize::from(r)] {
            return [[true; 4]; 32];
        }
    }
    *table
}

/// Which counters routines touch.
#[derive(Clone, Copy)]
pub struct Touching {
    /// They do touch these.
    pub certain: Touched,
    /// They touch no others.
    pub possible: Touched,
}

/// Which counters the routines of an image touch.
pub fn find_touching(image: &Image) -> Touching
    ensures knows { KnowsTouched image.now result }
    ensures own { NotesOwn image.now result.certain }
{
    let certain = find_touched(image);
    let possible = may_touch(image, &certain);
    Touching { certain, possible }
}

/// Which counters a routine touches, as the table says it.
pub fn touched_by(table: &Touched, r: u16) -> [bool; 4]
    ensures { result ≡ touched_by table.now r }
{
    match table.get(usize::from(r)) {
        Some(touched) => *touched,
        None => [false; 4],
    }
}

/// Whether the table says that a routine touches a counter.
pub fn touches(table: &Touched, r: u16, counter: u8) -> bool
    ensures { result ≡ noted table.now counter r }
{
    match table.get(usize::from(r)) {
        Some(touched) => match touched.get(usize::from(counter)) {
            Some(touches) => *touches,
            None => false,
        },
        None => false,
    }
}
