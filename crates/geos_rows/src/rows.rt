//! What is known at each instruction.

ghost use Rattle.std.specs.Prelude.{◌≡◌, ◌<◌, ◌≤◌, ◌⊎◌, ℕ, true, None, is_none, length, IfOk, IfSome, IfNone};
ghost use Rattle.geos_code.specs.Code.{TargetAhead};
ghost use Rattle.geos_code.specs.Known.{known_at};
ghost use Rattle.geos_rows.specs.Flow.{FlowsAnew, HaveFlowed, StaysBefore};
ghost use Rattle.geos_rows.specs.Reached.{AllFit, FitWhereReached, Keeps};
ghost use Rattle.geos_rows.specs.Solutions.{NoRowsHoldIn};
ghost use Rattle.geos_rows.specs.Turns.{Waits};
ghost use Rattle.geos_rows.specs.Why.{AreApart, MeetAlike};

use crate::descent::descend;
use crate::fitted::{all_fit, back_edges_fit};
use crate::flow::flow;
use crate::rounds::flow_on;
use crate::seeds::{copy_rows, seed_entry};
use crate::waiting::Waiting;
use crate::weakened::weaken;
use crate::weakest::find_weakest;
use geos_code::{Body, Known, body_of, leads_back};
use geos_flow::Apart;
use geos_image::{Image, two_tables};
use std::alloc::{AllocError, Global};

/// What is written anew for each routine in which rows flow back, or that has places that nothing reaches.
#[derive(Drop)]
struct Tables {
    /// Rows that flow on along the edges that lead back.
    flowing: Known,
    /// The rows of the places that nothing reaches.
    others: Known,
    from: Known,
    waiting: Waiting,
}

impl Tables {
    /// Nothing is known.
    fn new(alloc: Global) -> Result<Tables, AllocError>
        ensures { IfOk result (λ tables. (pc : ℕ) → known_at tables.flowing pc ≡ None) }
    {
        let waiting = Waiting::new(alloc)?;
        let flowing = Known::new(alloc, None)?;
        let (others, from) = two_tables(alloc, None, None)?;
        Ok(Tables {
            flowing,
            others,
            from,
            waiting,
        })
    }
}

/// What is known where an edge leads back has yet to go along it; along the others it has gone.
fn wait_to_go_back(body: &Body, waiting: &mut Waiting)
    ensures { (pc : ℕ) → body.now.start ≤ pc → pc < body.now.end → TargetAhead body.now.image.now body.now.r pc ⊎ Waits waiting.new pc }
{
    waiting.clear(body);
    for pc in body.start..body.end {
        if leads_back(body, pc) {
            waiting.wait(pc);
        }
    }
}

/// Rows of a routine flow on along the edges that lead back, and come down again; `false` if two have no join.
fn settle(body: &Body, tables: &mut Tables, known: &mut Known) -> bool
    ensures fit { result ≡ true → AllFit body.now.image.now body.now.r known.new }
    ensures stays { StaysBefore body.now.start known.old known.new }
{
    let Tables {
        flowing,
        from,
        waiting,
        ..
    } = tables;
    copy_rows(body, known, flowing);
    wait_to_go_back(body, waiting);
    if !flow_on(body, waiting, flowing) {
        return false;
    }
    // Rows that were not widened are the strongest that hold: none comes down again.
    if waiting.has_widened() && !descend(body, from, flowing) {
        return false;
    }
    // At a fixed point the rows fit along all edges, also after narrowing. That is not proved of the search, so each edge is tested.
    if !all_fit(body, flowing) {
        return false;
    }
    copy_rows(body, flowing, known);
    true
}

/// Finds what is known in a routine wherever control reaches; `false` if two rows have no join, or do not come to hold.
fn search(body: &Body, tables: &mut Tables, known: &mut Known) -> bool
    ensures flows { FlowsAnew body.now.image.now body.now.r known.new result }
    ensures fit { result ≡ true → AllFit body.now.image.now body.now.r known.new }
    ensures stays { StaysBefore body.now.start known.old known.new }
{
    seed_entry(body, known);
    if !flow(body, known) {
        return false;
    }
    if back_edges_fit(body, known) {
        // Rows have flowed along each edge that leads ahead, and fit along it.
        return true;
    }
    settle(body, tables, known)
}

/// Makes known the rows of the places where nothing is.
fn complete(body: &Body, others: &Known, known: &mut Known)
    ensures { Keeps body.now.start body.now.end known.old known.old known.new }
{
    // Recalls the lemma.
    known.lengths();
    for pc in body.start..body.end {
        if known.get(pc).is_none() {
            known.set(pc, others.at(pc));
        }
    }
}

/// Finds what is known at each instruction of a routine; `false` if two rows have no join, or those that flow do not come to hold.
fn find_rows_in(body: &Body, tables: &mut Tables, known: &mut Known) -> bool
    ensures flows { FlowsAnew body.now.image.now body.now.r known.new result }
    ensures fit { result ≡ true → FitWhereReached body.now.image.now body.now.r known.new }
    ensures stays { StaysBefore body.now.start known.old known.new }
{
    if !search(body, tables, known) {
        return false;
    }
    if weaken(
        body,
        known,
        &mut tables.from,
        &mut tables.waiting,
        &mut tables.others,
    ) {
        copy_rows(body, &tables.from, known);
        return true;
    }
    complete(body, &tables.others, known);
    true
}

/// Finds the row at each instruction of a routine, and falls back to the weakest rows that hold if the stronger ones are not found.
/// Otherwise returns an instruction where paths join with slots that differ in more than marks.
fn find_some_rows(
    alloc: Global,
    body: &Body,
    tables: &mut Tables,
    known: &mut Known,
) -> Result<Option<Apart>, AllocError>
    ensures flows { IfOk result (λ left. FlowsAnew body.now.image.now body.now.r known.new (is_none left)) }
    ensures apart { IfOk result (λ left. IfSome left (AreApart body.now.image.now body.now.r)) }
    ensures fit { IfOk result (λ left. IfNone left (FitWhereReached body.now.image.now body.now.r known.new)) }
    ensures stays { StaysBefore body.now.start known.old known.new }
{
    if find_rows_in(body, tables, known) {
        return Ok(None);
    }
    find_weakest(alloc, body, known)
}

/// What is known of the routines of an image, up to the first one where ways of control meet with slots that differ in more than marks.
#[derive(Drop)]
pub struct KnownRows {
    /// What is known at each instruction of those before that one.
    pub known: Known,
    /// How many these are.
    pub routines: u16,
    /// Where paths of this routine join with different slots; `None` if nowhere.
    pub apart: Option<Apart>,
}

/// Finds what is known at each instruction, up to the first routine where ways of control meet with slots that differ in more than marks;
/// how many routines there are before it, and where they do.
fn find_all_rows(
    alloc: Global,
    image: &Image,
    known: &mut Known,
) -> Result<(u16, Option<Apart>), AllocError>
    ensures few { IfOk result (λ both. both.0 ≤ length image.now.routines) }
    ensures all { IfOk result (λ both. IfNone both.1 (both.0 ≡ length image.now.routines)) }
    ensures within { IfOk result (λ both. IfSome both.1 (λ _. both.0 < length image.now.routines)) }
    ensures found { IfOk result (λ both. both.0 ≡ length image.now.routines → HaveFlowed image.now known.new both.0) }
    ensures none { IfOk result (λ both. both.0 < length image.now.routines → NoRowsHoldIn image.now both.0) }
    ensures apart { IfOk result (λ both. IfSome both.1 (AreApart image.now both.0)) }
    ensures fit { IfOk result (λ both. (r : ℕ) → r < both.0 → FitWhereReached image.now r known.new) }
{
    let mut tables = Tables::new(alloc)?;
    for r in 0..image.count() {
        match find_some_rows(alloc, &body_of(image, r), &mut tables, known)? {
            Some(apart) => return Ok((r, Some(apart))),
            None => {}
        }
    }
    Ok((image.count(), None))
}

/// Finds what is known at each instruction, up to the first routine where ways of control meet with slots that differ in more than marks,
/// and where they do; how many routines there are before it. In these it holds wherever control reaches.
pub fn find_rows(alloc: Global, image: &Image) -> Result<KnownRows, AllocError>
    ensures few { IfOk result (λ rows. rows.routines ≤ length image.now.routines) }
    ensures all { IfOk result (λ rows. IfNone rows.apart (rows.routines ≡ length image.now.routines)) }
    ensures within { IfOk result (λ rows. IfSome rows.apart (λ _. rows.routines < length image.now.routines)) }
    ensures found { IfOk result (λ rows. rows.routines ≡ length image.now.routines → HaveFlowed image.now rows.known rows.routines) }
    ensures none { IfOk result (λ rows. rows.routines < length image.now.routines → NoRowsHoldIn image.now rows.routines) }
    ensures apart { IfOk result (λ rows. IfSome rows.apart (AreApart image.now rows.routines)) }
    ensures fit { IfOk result (λ rows. (r : ℕ) → r < rows.routines → FitWhereReached image.now r rows.known) }
    ensures met { IfOk result (λ rows. (r : ℕ) → r < rows.routines → MeetAlike image.now r) }
{
    let mut known = Known::new(alloc, None)?;
    let (routines, apart) = find_all_rows(alloc, image, &mut known)?;
    Ok(KnownRows {
        known,
        routines,
        apart,
    })
}
