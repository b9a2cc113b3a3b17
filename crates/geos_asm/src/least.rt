//! Budgets that are found routine by routine, each with those of the routines before it.

ghost use Rattle.std.specs.Prelude.{◌<◌, ◌≤◌, length};

use crate::calls::first_calling_on;
use geos_code::{Body, Known, body_of};
use geos_counters::find_touching;
use geos_image::{Image, Potential, Routine, Row};
use geos_potentials::{Potentials, Search};
use geos_rows::{KnownRows, find_rows};
use geos_source::{parse, skeleton};
use geos_verify::{Touched, calls};
use std::alloc::{AllocError, Global};

/// The routines of an image, with these budgets for the first ones.
fn routines_with(
    alloc: Global,
    image: &Image,
    budgets: &[u32],
) -> Result<Vec<Routine>, AllocError> {
    let mut routines = Vec::new(alloc);
    for r in 0..image.count() {
        let mut routine = *image.routine(r);
        if let Some(budget) = budgets.get(usize::from(r)) {
            routine.budget = *budget;
        }
        routines.push(routine)?;
    }
    Ok(routines)
}

/// The rows that an image gives, in their order.
fn rows_of(alloc: Global, image: &Image) -> Result<Vec<Row>, AllocError> {
    let mut rows = Vec::new(alloc);
    for point in image.points() {
        if let Some(row) = point.row {
            rows.push(row)?;
        }
    }
    Ok(rows)
}

/// An image with these budgets for its first routines; `None` if the format allows none.
fn with_budgets(
    alloc: Global,
    image: &Image,
    budgets: &[u32],
) -> Result<Option<Image>, AllocError> {
    let routines = routines_with(alloc, image, budgets)?;
    let points = Vec::from_slice(alloc, image.points())?;
    let rows = rows_of(alloc, image)?;
    Ok(Image::with_keys(routines, points, rows))
}

/// Whether a routine calls another.
fn calls_any(body: &Body) -> bool {
    for pc in body.start..body.end {
        if calls(body.image.instr(pc).opcode) {
            return true;
        }
    }
    false
}

/// What counting the steps of a routine takes.
#[derive(Drop)]
struct Steps {
    known: Known,
    touched: Touched,
    search: Search,
    potentials: Potentials,
}

impl Steps {
    /// How many steps are left at most where a routine begins; `None` if no number is found.
    fn of(&mut self, body: &Body) -> Option<u32> {
        match self
            .search
            .find(body, &self.known, &self.touched, &mut self.potentials)
        {
            Ok(()) => Some(self.potentials.at(body.start).constant),
            Err(_) => None,
        }
    }
}

/// The least budget that is found for routine r, with these budgets for those before it.
fn next_budget(
    alloc: Global,
    image: &Image,
    r: u16,
    budgets: &[u32],
    steps: &mut Steps,
) -> Result<Option<u32>, AllocError>
    requires { r < length image.now.routines }
{
    let body = body_of(image, r);
    if !calls_any(&body) {
        return Ok(steps.of(&body));
    }
    match with_budgets(alloc, image, budgets)? {
        Some(next) => {
            if r < next.count() {
                Ok(steps.of(&body_of(&next, r)))
            } else {
                Ok(None)
            }
        }
        None => Ok(None),
    }
}

/// The least budgets that are found for so many routines, up to the first one for which none is.
fn budgets_of(
    alloc: Global,
    image: &Image,
    routines: u16,
    steps: &mut Steps,
) -> Result<Vec<u32>, AllocError>
    requires { routines ≤ length image.now.routines }
{
    let mut budgets = Vec::new(alloc);
    for r in 0..routines {
        match next_budget(alloc, image, r, &budgets, steps)? {
            Some(budget) => budgets.push(budget)?,
            None => return Ok(budgets),
        }
    }
    Ok(budgets)
}

/// The same of the routines that have rows. Rows do not depend on budgets, and are found once.
fn budgets_with_rows(alloc: Global, image: &Image) -> Result<Vec<u32>, AllocError> {
    let KnownRows {
        known,
        routines,
        ..
    } = find_rows(alloc, image)?;
    let nothing = Potential {
        constant: 0,
        coefficients: [0; 4],
    };
    let potentials = Potentials::new(alloc, nothing)?;
    let Ok(search) = Search::new(alloc) else {
        return Err(AllocError);
    };
    let touched = find_touching(image).certain;
    let mut steps = Steps {
        known,
        touched,
        search,
        potentials,
    };
    let budgets = budgets_of(alloc, image, routines, &mut steps);
    // By a call, so that the check does not go over each table here.
    drop(steps);
    budgets
}

/// The least budgets that are found for the routines of a text, in their order: each routine calls only those before it. Fewer if no rows
/// or no steps are found for a routine, and none if the text has a fault, or a CALL of a routine that does not come before its own.
pub(crate) fn budgets_in_order(alloc: Global, text: &[u8]) -> Result<Vec<u32>, AllocError> {
    let Ok(parsed) = parse(alloc, text) else {
        return Ok(Vec::new(alloc));
    };
    let image = skeleton(alloc, &parsed)?;
    if first_calling_on(&image).is_some() {
        return Ok(Vec::new(alloc));
    }
    budgets_with_rows(alloc, &image)
}
