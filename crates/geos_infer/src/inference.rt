//! Rows and potentials for the code of an image.

ghost use Rattle.std.specs.Prelude.{◌≡◌, ◌<◌, ℕ, false, length, IfOk, IfErr};
ghost use Rattle.geos_infer.specs.declared.error.InferError.TheVariants.{NoRows};
ghost use Rattle.geos_code.specs.Code.{SameCode};
ghost use Rattle.geos_potentials.specs.Constants.{AreLeastFrom, HasLeastConstants, HasCoefficientsForLoops, PaysForLoops};
ghost use Rattle.geos_potentials.specs.Count.{AreCounted};
ghost use Rattle.geos_potentials.specs.Numbers.{numbers_of};
ghost use Rattle.geos_infer.specs.Points.{PointsOf, RoutinesOf};
ghost use Rattle.geos_rows.specs.Flow.{HaveFlowed};
ghost use Rattle.geos_rows.specs.Reached.{AllHoldWhereReached, FitWhereReached, KeptRowsHold, RowsThatHoldPass};
ghost use Rattle.geos_counters.specs.Steps.{NoStepsHoldIn};
ghost use Rattle.geos_infer.specs.Theorem.{FindsWhatThereIs, NoneIsAccepted, NothingHoldsIn, NamesRoutine, HasReason, IsInferred};
ghost use Rattle.geos_infer.specs.Findings.{IsWhyNone};
ghost use Rattle.geos_rows.specs.Why.{MeetAlike};

use crate::error::InferError;
use crate::finding::{FindError, Finding, Obstacle, Unpaid};
use geos_code::{Known, row_of};
use geos_image::{Image, Point, Potential, Routine, Whole};
use geos_potentials::{Potentials, Unfound, find_potentials};
use geos_rows::{KnownRows, find_rows};
use std::alloc::{AllocError, Global};

/// The instructions of the image, with the rows and potentials that were found.
fn points_of(
    alloc: Global,
    image: &Image,
    known: &Known,
    potentials: &Potentials,
) -> Result<Vec<Point>, AllocError>
    ensures { IfOk result (λ points. PointsOf image.now known.now (numbers_of potentials.now) points.items) }
{
    let mut points = Vec::with_capacity(alloc, image.len() as usize)?;
    for pc in 0..image.len() {
        points.push(Point {
            instr: *image.instr(pc),
            row: Some(row_of(&known.at(pc))),
            potential: potentials.at(pc),
        })?;
    }
    Ok(points)
}

/// A copy of the image's routines.
fn routines_of(alloc: Global, image: &Image) -> Result<Vec<Routine>, AllocError>
    ensures { IfOk result (λ routines. RoutinesOf image.now routines.items) }
{
    let mut routines = Vec::new(alloc);
    for r in 0..image.count() {
        routines.push(*image.routine(r))?;
    }
    Ok(routines)
}

/// Rows, and enough steps with them.
#[derive(Drop)]
struct Solved {
    known: Known,
    potentials: Potentials,
}

/// Finds rows, then numbers of steps for each routine that has rows; otherwise what prevents that. A routine for which no steps are found
/// is reported before the first one that has no rows.
fn solve(alloc: Global, image: &Image) -> Result<Solved, FindError>
    ensures flowed { IfOk result (λ solved. HaveFlowed image.now solved.known (length image.now.routines)) }
    ensures fit { IfOk result (λ solved. (r : ℕ) → r < length image.now.routines → FitWhereReached image.now r solved.known) }
    ensures counted { IfOk result (λ solved. AreCounted image.now 0 (length image.now.routines) (numbers_of solved.potentials)) }
    ensures least { IfOk result (λ solved. AreLeastFrom image.now 0 (length image.now.routines) solved.known (numbers_of solved.potentials)) }
    ensures why { IfErr result (IsWhyNone image.now) }
{
    // For what `len` says of the image: it is one that the format allows.
    let _legal = image.len();
    let nothing = Potential {
        constant: 0,
        coefficients: [0; 4],
    };
    let KnownRows {
        known,
        routines,
        apart,
    } = find_rows(alloc, image)?;
    let mut potentials = Potentials::new(alloc, nothing)?;
    let left = find_potentials(alloc, image, routines, &known, &mut potentials)?;
    if let Some(unfound) = left {
        let Unfound { routine, reason } = unfound;
        return Err(FindError::Stopped(Finding {
            routine,
            obstacle: Obstacle::NoSteps(Unpaid { known, reason }),
        }));
    }
    match apart {
        Some(apart) => Err(FindError::Stopped(Finding {
            routine: routines,
            obstacle: Obstacle::SlotsDiffer(apart),
        })),
        None => Ok(Solved { known, potentials }),
    }
}

/// What `infer` answers, or what stops it: a value that says which routine, and what is in the way there.
pub fn find_image(alloc: Global, skeleton: &Image) -> Result<Whole, FindError>
    ensures found { IfOk result (IsInferred skeleton.now) }
    ensures why { IfErr result (IsWhyNone skeleton.now) }
{
    // For what `len` says of the skeleton: it is one that the format allows.
    let _legal = skeleton.len();
    let points = {
        let Solved { known, potentials } = solve(alloc, skeleton)?;
        points_of(alloc, skeleton, &known, &potentials)?
    };
    let routines = routines_of(alloc, skeleton)?;
    Ok(Whole::of_formed(routines, points))
}

/// The code of the skeleton (its routines, with entry and exit rows and budgets, and its instructions), with a row and a
/// potential at each instruction that are found for it; those of the skeleton are not looked at. `Whole::into_keyed`
/// leaves those rows out that the verifier computes.
///
/// The rows hold at each reachable instruction, in loops too, so that the verifier's rules on rows pass
/// there (`rows_that_hold_pass`).
///
/// In a routine with loops, the potentials pay for its edges and returns, and each constant is the least that does with the returned rows
/// and coefficients. Each coefficient is that of a LOOP that takes from the counter, and some path leads from the coefficient to that LOOP.
///
/// If there is no LOOP and no back edge, and each instruction except a routine's first has an edge into it, the verifier accepts the
/// result, in version 2 too, if it accepts any image with that code. Otherwise the verifier may refuse the result, and
/// `geos_verify::check` says where.
///
/// `NoRows` names a routine for which no rows or no potentials were found; that it is the first one is not proved. If that routine has no
/// LOOP and no back edge, and an edge of its own into each instruction except the first, no rows and numbers of steps hold in it, whatever
/// the other routines are. Without rows, `NoRows` names the first routine in which paths join with slots that differ in more than marks;
/// if some routine has such a join, no image is returned. Otherwise `NoRows` carries a true reason (`reason`), that of `find_potentials`.
pub fn infer(alloc: Global, skeleton: &Image) -> Result<Whole, InferError>
    ensures code { IfOk result (λ whole. SameCode skeleton.now whole) }
    ensures all { IfOk result (λ whole. whole.keyed ≡ false) }
    ensures rows { IfOk result AllHoldWhereReached }
    ensures alike { IfOk result (λ whole. (r : ℕ) → r < length skeleton.now.routines → MeetAlike skeleton.now r) }
    ensures paid { IfOk result PaysForLoops }
    ensures least { IfOk result HasLeastConstants }
    ensures wanted { IfOk result HasCoefficientsForLoops }
    ensures found { IfOk result (λ whole. FindsWhatThereIs skeleton.now whole) }
    ensures none { IfErr result (λ error. (r : ℕ) → error ≡ NoRows r → NoneIsAccepted skeleton.now) }
    ensures stuck { IfErr result (λ error. (r : ℕ) → error ≡ NoRows r → NothingHoldsIn skeleton.now r) }
    ensures steps { IfErr result (λ error. (r : ℕ) → error ≡ NoRows r → MeetAlike skeleton.now r → NoStepsHoldIn skeleton.now r) }
    ensures reason { IfErr result (λ error. (r : ℕ) → error ≡ NoRows r → MeetAlike skeleton.now r → HasReason skeleton.now r) }
    ensures within { IfErr result (NamesRoutine skeleton.now) }
{
    match find_image(alloc, skeleton) {
        Ok(whole) => Ok(whole),
        Err(FindError::Stopped(finding)) => Err(InferError::NoRows(finding.into_routine())),
        Err(FindError::Memory) => Err(InferError::Memory),
    }
}

/// Lemma: if the rows of an image hold, the verifier's rules on rows pass at each reachable instruction. No pointer of a stored row leads
/// into an empty slot, a routine's entry row implies its first row, and the row after an edge implies the row at its target, if no edge
/// leaves the routine.
pub fn rows_that_hold_pass()
    ensures { RowsThatHoldPass }
{}

/// Lemma: if the rows at all instructions hold, they hold in version 2 too (`Whole::into_keyed`).
pub fn kept_rows_hold()
    ensures { KeptRowsHold }
{}
