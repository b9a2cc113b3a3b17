//! Images of code: one to find rows and numbers of steps for, and the one with its budgets.

ghost use Rattle.std.specs.Prelude.{◌≤◌, length};

use geos_image::{
    Image, Instr, MOST_INSTRS, MOST_ROUTINES, Point, Potential, Routine, Row, Whole, keys_of,
};
use std::alloc::{AllocError, Global};

/// How many places have a row.
fn key_count(routines: &[Routine], points: &[Point]) -> usize
    requires few { length routines.now ≤ MOST_ROUTINES }
    requires short { length points.now ≤ MOST_INSTRS }
{
    let mut count = 0;
    for (k, flag) in keys_of(routines, points).iter().enumerate() {
        if *flag && k < points.len() && count < points.len() {
            count += 1;
        }
    }
    count
}

/// The point of an instruction, without row and potential.
pub(crate) fn bare_point(instr: Instr) -> Point {
    Point {
        instr,
        row: None,
        potential: Potential {
            constant: 0,
            coefficients: [0; 4],
        },
    }
}

/// The image of code, with the open row at its key places; `None` if the format does not allow it.
pub(crate) fn skeleton(
    alloc: Global,
    routines: Vec<Routine>,
    points: Vec<Point>,
) -> Result<Option<Image>, AllocError> {
    if routines.len() > usize::from(MOST_ROUTINES) || points.len() > usize::from(MOST_INSTRS) {
        return Ok(None);
    }
    let mut rows = Vec::new(alloc);
    for _ in 0..key_count(&routines, &points) {
        rows.push(Row::open())?;
    }
    Ok(Image::with_keys(routines, points, rows))
}

/// The routines of an image, each with the steps that it was found to take as its budget.
fn budgeted(alloc: Global, image: &Image) -> Result<Vec<Routine>, AllocError> {
    let mut routines = Vec::new(alloc);
    for r in 0..image.count() {
        let pc = image.start(r);
        let budget = match image.points().get(usize::from(pc)) {
            Some(point) => point.potential.constant,
            None => 0,
        };
        routines.push(Routine {
            budget,
            ..*image.routine(r)
        })?;
    }
    Ok(routines)
}

/// The image of version 2 of what was found, with the least budgets; `None` if the format does not allow it.
pub(crate) fn with_budgets(alloc: Global, whole: Whole) -> Result<Option<Image>, AllocError> {
    let image = whole.into_keyed();
    let routines = budgeted(alloc, &image)?;
    let mut points = Vec::new(alloc);
    let mut rows = Vec::new(alloc);
    for point in image.points() {
        points.push(Point {
            row: None,
            ..*point
        })?;
        if let Some(row) = point.row {
            rows.push(row)?;
        }
    }
    Ok(Image::with_keys(routines, points, rows))
}
