//! The image that bytes encode.

ghost use Rattle.std.specs.Prelude.{◌≡◌, ◌<◌, ◌≤◌, ◌^◌, length, true, false, IfOk};
ghost use Rattle.geos_image.specs.Reading.{image_at, whole_at, keyed_at, Gives};
ghost use Rattle.geos_image.specs.Legal.{IsCode};
ghost use Rattle.geos_image.specs.Spelling.{spelling};

mod numbers;
mod points;
mod routines;
mod rows;

use crate::error::ReadError;
use crate::image::Image;
use crate::instr::Instr;
use crate::keys::{first_flags, flag_count, keys_of, no_flags, place_rows, repeats_of};
use crate::legal::{MOST_INSTRS, total_count};
use crate::reader::points::{bare_at, instrs_at, points_at, rows_at};
use crate::reader::routines::{header_at, routines_at};
use crate::routine::Routine;
use std::alloc::Global;

/// The image of version 1 whose rows and potentials begin at an offset.
#[tactic(auto, unfolding(crate::specs::Reading::whole_at))]
fn whole_at(
    alloc: Global,
    bytes: &[u8],
    routines: Vec<Routine>,
    code: &[Instr],
    at: usize,
) -> Result<Image, ReadError>
    requires place { at < 2 ^ 20 }
    requires short { length code.now ≤ MOST_INSTRS }
    requires legal { IsCode false routines.items code.now }
    ensures { Gives (λ image. image) result (whole_at bytes.now routines.items code.now at) }
{
    let mut repeats = no_flags();
    let points = points_at(alloc, bytes, code, at, &mut repeats)?;
    let end = at + 58 * code.len();
    if bytes.len() == end {
        let repeats = first_flags(alloc, &repeats, code.len())?;
        Ok(Image {
            keyed: false,
            routines,
            points,
            repeats: Some(repeats),
        })
    } else {
        Err(ReadError::BadImage(end))
    }
}

/// The image of version 2 whose potentials and rows begin at an offset.
#[tactic(auto, unfolding(crate::specs::Reading::keyed_at))]
fn keyed_at(
    alloc: Global,
    bytes: &[u8],
    routines: Vec<Routine>,
    code: &[Instr],
    at: usize,
) -> Result<Image, ReadError>
    requires place { at < 2 ^ 20 }
    requires short { length code.now ≤ MOST_INSTRS }
    requires legal { IsCode true routines.items code.now }
    ensures { Gives (λ image. image) result (keyed_at bytes.now routines.items code.now at) }
{
    let mut points = bare_at(alloc, bytes, code, at)?;
    let flags = keys_of(&routines, &points);
    let count = flag_count(&flags, &points);
    let rows_from = at + 20 * code.len();
    let mut alike = no_flags();
    let rows = rows_at(alloc, bytes, count, rows_from, &mut alike)?;
    let end = rows_from + 38 * count;
    if bytes.len() == end {
        place_rows(&flags, &mut points, &rows);
        let repeats = repeats_of(&flags, &alike, code.len());
        let repeats = first_flags(alloc, &repeats, code.len())?;
        Ok(Image {
            keyed: true,
            routines,
            points,
            repeats: Some(repeats),
        })
    } else {
        Err(ReadError::BadImage(end))
    }
}

/// The image that the bytes encode; no other bytes do. A fault is named by the offset of the
/// first byte of the first field, in file order, that is cut or breaks its rule.
#[tactic(auto, unfolding(crate::specs::Reading::image_at))]
pub fn read(alloc: Global, bytes: &[u8]) -> Result<Image, ReadError>
    ensures found { IfOk result (λ image. bytes.now ≡ spelling image) }
    ensures exact { Gives (λ image. image) result (image_at bytes.now) }
{
    let (keyed, count) = header_at(bytes)?;
    let routines = routines_at(alloc, keyed, bytes, count)?;
    let instrs = total_count(&routines);
    let start = 8 + 100 * usize::from(count);
    let code = instrs_at(alloc, bytes, u32::from(count), instrs, start)?;
    let at = start + 10 * instrs as usize;
    if keyed {
        keyed_at(alloc, bytes, routines, &code, at)
    } else {
        whole_at(alloc, bytes, routines, &code, at)
    }
}
