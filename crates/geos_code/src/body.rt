//! A routine of an image.

ghost use Rattle.std.specs.Prelude.{◌≡◌, ◌<◌, ◌≤◌, ◌+◌, length};
ghost use Rattle.geos_image.specs.Parts.{start_of};

use geos_image::Image;

/// Routine r of an image: its instructions are those from `start` on, up to `end`.
#[derive(Clone, Copy)]
pub struct Body<'a> {
    pub image: &'a Image,
    pub r: u16,
    pub start: u16,
    pub end: u16,
    ghost there: { r < length image.now.routines },
    ghost begins: { start ≡ start_of image.now.routines r },
    ghost ends: { end ≡ start_of image.now.routines (r + 1) },
    ghost some: { start < end },
    ghost room: { end ≤ length image.now.points },
    ghost short: { length image.now.points ≤ 4096 },
}

/// Routine r of an image.
pub fn body_of(image: &Image, r: u16) -> Body
    requires { r < length image.now.routines }
    ensures image { result.image.now ≡ image.now }
    ensures r { result.r ≡ r }
{
    // For what `len` says of the image: it is one that the format allows.
    let _legal = image.len();
    let start = image.start(r);
    let end = start + image.routine(r).count;
    Body {
        image,
        r,
        start,
        end,
    }
}
