//! Whether code is that of a placed routine.

ghost use Rattle.std.specs.Prelude.{IsTrue, IfNone};
ghost use Rattle.tkv_checks.specs.Checked.{IsCodeOf, IsWritten};

use crate::places::{Open, Place, settled};
use crate::walk::Walk;
use geos_image::Image;
use tkv_places::Placed;

/// The most blocks, loops and locks within each other.
const MOST_OPEN: usize = 256;

/// Whether the code that begins at a pc of the image is that of the placed routine. If it is, a run from there does what the routine's
/// statement says (`tkv_meaning`). It takes one pass over the items; where control leaves a block, also one over what is open around.
pub fn is_code(image: &Image, start: u16, items: &[Placed]) -> bool
    ensures { IsTrue result → IsCodeOf image.now start items.now }
{
    let walk = Walk { image, items };
    let mut around = [Open::Turns; MOST_OPEN];
    match walk.statements(&mut around, 0, 0, settled(image, start)) {
        Some(read) => match read.after {
            Place::Returned => walk.ends_routine(read.end),
            Place::Nowhere | Place::At(_) => false,
        },
        None => false,
    }
}

/// The number of the first routine of the image whose code is not that of the placed routine of this number, if there is one. If there is
/// none, the image has as many routines as are placed.
pub fn first_other(image: &Image, placed: &[Vec<Placed>]) -> Option<u16>
    ensures { IfNone result (IsWritten image.now placed.now) }
{
    for r in 0..image.count() {
        match placed.get(usize::from(r)) {
            Some(items) => {
                if !is_code(image, image.start(r), items) {
                    return Some(r);
                }
            }
            None => return Some(r),
        }
    }
    if placed.len() == usize::from(image.count()) {
        None
    } else {
        Some(0)
    }
}
