//! The image of a code of which nothing is found yet.

ghost use Rattle.std.specs.Prelude.{◌≡◌, true, map, IfOk};
ghost use Rattle.geos_image.specs.Legal.{is_formed};
ghost use Rattle.geos_source.specs.Parsing.{code_in};
ghost use Rattle.geos_source.specs.Skeletons.{routine_of, blank_point, bare_whole, skeleton};

use crate::parser::Parsed;
use crate::progress::TextRoutine;
use geos_image::{Image, Instr, Point, Potential, Routine, Row, Whole};
use std::alloc::{AllocError, Global};

/// The routines without their lines.
fn routines_of(alloc: Global, routines: &[TextRoutine]) -> Result<Vec<Routine>, AllocError>
    ensures { IfOk result (λ made. made.items ≡ map routine_of routines.now) }
{
    let mut made = Vec::with_capacity(alloc, routines.len())?;
    for routine in routines {
        made.push(routine.routine)?;
    }
    Ok(made)
}

/// A point for each instruction, with the open row and no potential.
fn points_of(alloc: Global, instrs: &[Instr]) -> Result<Vec<Point>, AllocError>
    ensures { IfOk result (λ points. points.items ≡ map blank_point instrs.now) }
{
    let mut points = Vec::with_capacity(alloc, instrs.len())?;
    for instr in instrs {
        let potential = Potential {
            constant: 0,
            coefficients: [0; 4],
        };
        points.push(Point {
            instr: *instr,
            row: Some(Row::open()),
            potential,
        })?;
    }
    Ok(points)
}

/// The image of version 2 of the code of a text, with the open row at its key places, and no potential: what rows and
/// potentials are to be found for. `AllocError` if the allocator refuses memory.
pub fn skeleton(alloc: Global, parsed: &Parsed) -> Result<Image, AllocError>
    requires { is_formed true (bare_whole (code_in parsed.now)) ≡ true }
    ensures { IfOk result (λ image. image ≡ skeleton (code_in parsed.now)) }
{
    let routines = routines_of(alloc, &parsed.routines)?;
    let points = points_of(alloc, &parsed.instrs)?;
    Ok(Whole::of_formed(routines, points).into_keyed())
}
