//! The weakest rows of a routine that hold.

ghost use Rattle.std.specs.Prelude.{◌≡◌, IfOk, IfSome, IfNone};
ghost use Rattle.geos_rows.specs.Flow.{StaysBefore};
ghost use Rattle.geos_rows.specs.Reached.{AllFit};
ghost use Rattle.geos_rows.specs.Weakest.{unmarked, weakest, weakest_of, Weakens};
ghost use Rattle.geos_rows.specs.Why.{AreApart};

use crate::apart::{Comings, find_comings};
use crate::fitted::all_fit;
use geos_code::{Body, Known};
use geos_flow::{Apart, Coming};
use geos_image::{Row, SlotState};
use std::alloc::{AllocError, Global};

fn unmarked(state: SlotState) -> SlotState
    ensures { result ≡ unmarked state }
{
    match state {
        SlotState::Empty => SlotState::Empty,
        SlotState::Mem => SlotState::Mem,
        SlotState::Vm {
            marked: _,
            borrowed,
        } => SlotState::Vm {
            marked: false,
            borrowed,
        },
        SlotState::Db { marked: _ } => SlotState::Db { marked: false },
    }
}

/// The row that says nothing but what a row says of slots, without marks.
fn weakest(row: &Row) -> Row
    ensures { result ≡ weakest row.now }
{
    let [s0, s1, s2, s3] = row.slots;
    Row {
        bounds: [u16::MAX; 8],
        slots: [unmarked(s0), unmarked(s1), unmarked(s2), unmarked(s3)],
        pointers: [None; 4],
        pairs: [false; 6],
    }
}

fn weakest_of(coming: &Option<Coming>) -> Option<Row>
    ensures { result ≡ weakest_of coming.now }
{
    match coming {
        None => None,
        Some(coming) => Some(weakest(&coming.row)),
    }
}

/// The weakest rows of a routine are known wherever control is known to come.
fn fill(body: &Body, comings: &Comings, known: &mut Known)
    ensures { Weakens body.now.start body.now.end comings.now known.old known.new }
{
    // Recalls the lemma.
    known.lengths();
    for pc in body.start..body.end {
        known.set(pc, weakest_of(&comings.at(pc)));
    }
}

/// Finds the weakest rows that hold in a routine. Otherwise returns an instruction where paths join with slots that differ in more than
/// marks.
pub(crate) fn find_weakest(
    alloc: Global,
    body: &Body,
    known: &mut Known,
) -> Result<Option<Apart>, AllocError>
    ensures apart { IfOk result (λ left. IfSome left (AreApart body.now.image.now body.now.r)) }
    ensures fit { IfOk result (λ left. IfNone left (AllFit body.now.image.now body.now.r known.new)) }
    ensures stays { StaysBefore body.now.start known.old known.new }
{
    let comings = match find_comings(alloc, body)? {
        Ok(comings) => comings,
        Err(apart) => return Ok(Some(apart)),
    };
    fill(body, &comings, known);
    // For what it says of rows as weak as these.
    if !all_fit(body, known) {
        unreachable!();
    }
    Ok(None)
}
