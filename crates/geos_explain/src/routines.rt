//! A routine of an image that is explained, and its places.

ghost use Rattle.std.specs.Prelude.{◌≡◌, ◌<◌, length, slice_get, IfSome};
ghost use Rattle.geos_explain.specs.Standing.{HasRoutine};
ghost use Rattle.geos_explain.specs.Places.{agrees, comes_alike, first_or, is_inside, place_at, place_of};
ghost use Rattle.geos_verify.specs.Places.{places};

use crate::explained::Explained;
use crate::led::is_reached;
use crate::place::Place;
use geos_image::Routine;
use geos_verify::has_place;

/// Routine r of an image that is explained.
#[derive(Clone, Copy)]
pub(crate) struct ExplainedRoutine<'a> {
    pub explained: &'a Explained<'a>,
    pub r: u16,
    pub routine: &'a Routine,
    ghost there: { HasRoutine explained.now.image.now r routine.now },
}

/// The instruction at a pc.
pub(crate) fn place_at<'a>(within: &ExplainedRoutine<'a>, pc: u16) -> Place<'a>
    requires { pc < length within.now.explained.now.image.now.points }
    ensures image { result.image.now ≡ within.now.explained.now.image.now }
    ensures known { IfSome (slice_get (places within.now.explained.now.image.now) pc)
        (λ known. place_of result ≡ place_at within.now.explained.now.image.now within.now.r within.now.routine.now pc known) }
{
    let image = within.explained.image;
    Place {
        image,
        r: within.r,
        routine: within.routine,
        pc,
        i: image.instr(pc),
        row: image.row(pc),
        potential: image.potential(pc),
        marks: within.explained.marks,
    }
}

/// Whether something is so if it is to be, and is not so if it is not to be.
pub(crate) fn agrees(wanted: bool, is: bool) -> bool
    ensures { result ≡ agrees wanted is }
{
    if wanted { is } else { !is }
}

/// Whether control reaches both the pc and the place, or neither: to a place that it reaches it comes only from such as it
/// reaches.
pub(crate) fn comes_alike(place: &Place, pc: u16) -> bool
    ensures { result ≡ comes_alike (place_of place.now) pc }
{
    agrees(
        is_reached(place.image, place.marks, place.pc),
        is_reached(place.image, place.marks, pc),
    )
}

/// Whether the pc is that of an instruction of the place's routine.
pub(crate) fn is_inside(place: &Place, pc: u16) -> bool
    ensures { result ≡ is_inside (place_of place.now) pc }
{
    has_place(
        u32::from(place.image.start(place.r)),
        place.routine,
        u32::from(pc),
    )
}

/// The pc that was found before, or otherwise this one if `here`.
pub(crate) fn first_or(first: Option<u16>, pc: u16, here: bool) -> Option<u16>
    ensures { result ≡ first_or first pc here }
{
    match first {
        Some(_) => first,
        None if here => Some(pc),
        None => None,
    }
}
