//! Where ways of control meet with slots that differ.

ghost use Rattle.std.specs.Prelude.{◌≡◌, ◌<◌, true, false, slice_set, IfSome, IfNone, IfOk, IfErr};
ghost use Rattle.geos_rows.specs.Meeting.{AllCome, BringsAlong, GoesFurther, HasGone, HaveAllGone, IsSpread, NoneWaits, count_unknown};
ghost use Rattle.geos_rows.specs.Why.{ComesBy, AllEmptied, AreApart, MeetAlike};

use crate::common::agree;
use crate::emptied::emptied_along;
use geos_code::{Body, Lead, edge_in};
use geos_flow::{Apart, Coming, Edge, Emptied};
use geos_image::{Row, Table, two_tables};
use geos_verify::after;
use std::alloc::{AllocError, Global};

/// How control was first found to come to each place.
pub(crate) type Comings = Table<Option<Coming>>;

/// An edge, and the row that control brings along it.
#[derive(Clone, Copy)]
struct Brought {
    lead: Lead,
    row: Row,
    emptied: [Option<Emptied>; 4],
}

/// What control brings along an edge, where it is known to come to the edge's beginning.
fn bring(body: &Body, known: &Comings, pc: u16, branch: bool) -> Option<Brought>
    requires here { pc < body.now.end }
    requires come { AllCome body.now.image.now body.now.r known.now }
    ensures by { IfSome result (λ brought. ComesBy body.now.image.now body.now.r brought.lead brought.row) }
    ensures emptied { IfSome result (λ brought. AllEmptied body.now.image.now body.now.r brought.lead.to brought.row brought.emptied) }
    ensures inside { IfSome result (λ brought. brought.lead.to < body.now.end) }
    ensures some { IfSome result (λ brought. BringsAlong body.now.image.now known.now pc branch brought.lead.to brought.row) }
    ensures none { IfNone result (HasGone body.now.image.now body.now.r known.now pc branch) }
{
    let before = known.at(pc)?;
    let lead = edge_in(body, pc, branch)?;
    let row = after(body.image, pc, &before.row, branch);
    Some(Brought {
        lead,
        row,
        emptied: emptied_along(body, &before, lead, &row),
    })
}

/// What is known at a pc goes along an edge: control is known to come to the place where that leads now, and that waits to continue,
/// unless it was known before. Whether that is new; `Err` if slots differ.
fn go(
    body: &Body,
    known: &mut Comings,
    waits: &mut Table<bool>,
    pc: u16,
    branch: bool,
) -> Result<bool, Apart>
    requires here { pc < body.now.end }
    requires come { AllCome body.now.image.now body.now.r known.old }
    ensures come { AllCome body.now.image.now body.now.r known.new }
    ensures ok { IfOk result (GoesFurther known.old known.new waits.old waits.new) }
    ensures gone { IfOk result (λ further. HasGone body.now.image.now body.now.r known.new pc branch) }
    ensures err { IfErr result (AreApart body.now.image.now body.now.r) }
{
    let Some(brought) = bring(body, known, pc, branch) else {
        return Ok(false);
    };
    let to = brought.lead.to;
    let emptied = brought.emptied;
    let coming = Coming {
        from: Some(brought.lead.edge),
        row: brought.row,
        emptied,
    };
    // Recalls the lemma.
    known.lengths();
    waits.lengths();
    match known.at(to) {
        None => {
            known.set(to, Some(coming));
            waits.set(to, true);
            Ok(true)
        }
        Some(first) if agree(&first.row, &coming.row) => Ok(false),
        Some(first) => Err(Apart {
            to,
            first,
            second: coming,
        }),
    }
}

/// Follows both edges of a waiting pc. Returns whether the search found something new.
fn go_on(body: &Body, known: &mut Comings, waits: &mut Table<bool>, pc: u16) -> Result<bool, Apart>
    requires here { pc < body.now.end }
    requires spread { IsSpread body.now.image.now body.now.r known.old waits.old }
    ensures spread { IfOk result (λ further. IsSpread body.now.image.now body.now.r known.new waits.new) }
    ensures ok { IfOk result (GoesFurther known.old known.new (slice_set waits.old pc false) waits.new) }
    ensures err { IfErr result (AreApart body.now.image.now body.now.r) }
{
    waits.set(pc, false);
    let along = go(body, known, waits, pc, false)?;
    let aside = go(body, known, waits, pc, true)?;
    Ok(along || aside)
}

/// Follows the edges of all waiting pcs, each at most once. Returns whether the search found something new.
fn go_all(body: &Body, known: &mut Comings, waits: &mut Table<bool>) -> Result<bool, Apart>
    requires { IsSpread body.now.image.now body.now.r known.old waits.old }
    ensures spread { IfOk result (λ further. IsSpread body.now.image.now body.now.r known.new waits.new) }
    ensures settled { IfOk result (λ further. further ≡ false → NoneWaits body.now.image.now body.now.r waits.new body.now.end) }
    ensures fewer { IfOk result (λ further. further ≡ true → count_unknown known.new < count_unknown known.old) }
    ensures err { IfErr result (AreApart body.now.image.now body.now.r) }
{
    let mut further = false;
    for pc in body.start..body.end {
        if waits.at(pc) {
            further |= go_on(body, known, waits, pc)?;
        }
    }
    Ok(further)
}

/// What is known at first goes along all edges; the first place that is found where slots differ then.
fn first_apart(body: &Body, known: &mut Comings, waits: &mut Table<bool>) -> Option<Apart>
    requires { IsSpread body.now.image.now body.now.r known.old waits.old }
    ensures some { IfSome result (AreApart body.now.image.now body.now.r) }
    ensures none { IfNone result (MeetAlike body.now.image.now body.now.r) }
    ensures gone { IfNone result (HaveAllGone body.now.image.now body.now.r known.new) }
{
    loop {
        match go_all(body, known, waits) {
            Ok(true) => {}
            Ok(false) => return None,
            Err(apart) => return Some(apart),
        }
    }
}

/// How control comes to the places of a routine. `Err` if it comes to one on two ways with slots that differ in more than marks, which
/// is the first such place that is found.
pub(crate) fn find_comings(alloc: Global, body: &Body) -> Result<Result<Comings, Apart>, AllocError>
    ensures err { IfOk result (λ found. IfErr found (AreApart body.now.image.now body.now.r)) }
    ensures ok { IfOk result (λ found. IfOk found (HaveAllGone body.now.image.now body.now.r)) }
    ensures none { IfOk result (λ found. IfOk found (λ _. MeetAlike body.now.image.now body.now.r)) }
{
    let (mut known, mut waits) = two_tables(alloc, None, false)?;
    // Recalls the lemma.
    known.lengths();
    waits.lengths();
    known.set(
        body.start,
        Some(Coming {
            from: None,
            row: body.image.routine(body.r).entry,
            emptied: [None; 4],
        }),
    );
    waits.set(body.start, true);
    match first_apart(body, &mut known, &mut waits) {
        Some(apart) => Ok(Err(apart)),
        None => Ok(Ok(known)),
    }
}
