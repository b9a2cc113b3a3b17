//! A routine whose points are checked.

ghost use Rattle.std.specs.Prelude.{◌≡◌, ◌<◌, ◌≤◌, ◌+◌, length, true};
ghost use Rattle.geos_image.specs.Keys.{gives};
ghost use Rattle.geos_verify.specs.Touched.{NotesBelow};

use crate::touched::Touched;
use geos_image::{Image, Routine};

/// Routine r of an image, which begins at `start`, with a table that says which counters the
/// routines below it touch.
#[derive(Clone, Copy)]
pub(crate) struct Body<'a> {
    pub(crate) image: &'a Image,
    pub(crate) r: u16,
    pub(crate) routine: &'a Routine,
    pub(crate) start: u16,
    pub(crate) touched: &'a Touched,
    ghost there: { r < length image.now.routines },
    ghost end: { start + routine.now.count ≤ length image.now.points },
    ghost short: { length image.now.points ≤ 4096 },
    ghost room: { start < length image.now.points },
    ghost given: { gives image.now start ≡ true },
    ghost table: { NotesBelow image.now touched.now r },
}
