//! Why no numbers of steps are found for a routine.

ghost use Rattle.std.specs.Prelude.{◌≡◌, ◌<◌, true, length, IfSome, IfOk};
ghost use Rattle.geos_counters.specs.Touching.{KnowsTouched};
ghost use Rattle.geos_potentials.specs.Constants.{HasLoops};
ghost use Rattle.geos_potentials.specs.Halts.{IsInTheWay};
ghost use Rattle.geos_potentials.specs.Reasons.{IsReason};
ghost use Rattle.geos_potentials.specs.declared.reason.Reason.TheVariants.{InTheWay};
ghost use Rattle.geos_rows.specs.Reached.{FitWhereReached};
ghost use Rattle.geos_rows.specs.Why.{MeetAlike};
ghost use Rattle.loop_causes.specs.Causes.{LeadsBack, Holds};
ghost use Rattle.loop_causes.specs.Noted.{NoTrails};
ghost use Rattle.loop_causes.specs.Tells.{tells_of_setting, tells_of_waiting, tells_of_ways};
ghost use Rattle.geos_diagnosis.specs.Tells.{TellsOfHalt, TellsOfLack, TellsOfPassing, TellsOfReason};

use crate::in_turn::{find_in_turn, find_own_set};
use crate::ring::find_in_ring;
use geos_code::{Body, Known, body_of};
use geos_counters::{Touching, find_touching};
use geos_flow::{BackWay, Cause};
use geos_image::Image;
use geos_potentials::{Halt, Halted, Lack, Reason, Search, find_dearest, some_always_may_pay};
use geos_rows::Strongest;
use loop_causes::{
    Trails, cause_ahead, cause_of_looks, cause_of_set, cause_of_set_again, cause_of_setting,
    find_back, first_cause, first_idle, least_steps_pass,
};
use std::alloc::{AllocError, Global};

/// Loops that wait on each other, or one on itself, as the cause.
fn cause_in_turn(
    body: &Body,
    touching: &Touching,
    search: &Search,
    trails: &mut Trails,
) -> Option<Cause>
    requires { KnowsTouched body.now.image.now touching.now }
    ensures holds { IfSome result (Holds body.now.image.now body.now.r) }
    ensures tells { IfSome result (λ cause. tells_of_waiting cause ≡ true) }
{
    let graph = &search.graph;
    let splitting = &search.splitting;
    if let Some(pair) = find_in_turn(body, touching, graph, splitting, trails) {
        return Some(Cause::InTurn(pair));
    }
    if let Some(ring) = find_in_ring(body, touching, graph, splitting, trails) {
        return Some(Cause::InRing(ring));
    }
    match find_own_set(body, touching, graph, splitting, trails) {
        Some(within) => Some(Cause::SetWithin(within)),
        None => None,
    }
}

/// How a counter is set for a loop at the greatest price, and whether more steps are taken than a potential can say if words are as much as
/// they may be.
fn find_dear(
    alloc: Global,
    body: &Body,
    touching: &Touching,
    known: &Known,
    search: &Search,
    trails: &mut Trails,
    strongest: &mut Strongest,
) -> Result<Option<Cause>, AllocError>
    requires touched { KnowsTouched body.now.image.now touching.now }
    requires rows { FitWhereReached body.now.image.now body.now.r known.now }
    ensures holds { IfOk result (λ cause. IfSome cause (Holds body.now.image.now body.now.r)) }
    ensures tells { IfOk result (λ found. IfSome found (λ cause. tells_of_setting cause ≡ true)) }
{
    let Some(at) = find_dearest(body, search) else {
        return Ok(None);
    };
    let graph = &search.graph;
    let jumps = &search.splitting.jumps;
    cause_of_setting(
        alloc, body, touching, known, graph, jumps, at, trails, strongest,
    )
}

/// Why a number is past what a potential can say.
fn cause_of_passing(
    alloc: Global,
    body: &Body,
    touching: &Touching,
    known: &Known,
    search: &Search,
    trails: &mut Trails,
    strongest: &mut Strongest,
) -> Result<Option<Cause>, AllocError>
    requires touched { KnowsTouched body.now.image.now touching.now }
    requires rows { FitWhereReached body.now.image.now body.now.r known.now }
    ensures holds { IfOk result (λ cause. IfSome cause (Holds body.now.image.now body.now.r)) }
    ensures tells { IfOk result (λ cause. IfSome cause TellsOfPassing) }
{
    if let Some(cause) = cause_in_turn(body, touching, search, trails) {
        return Ok(Some(cause));
    }
    find_dear(alloc, body, touching, known, search, trails, strongest)
}

/// Why nests are not paid for.
fn cause_of_lack(
    alloc: Global,
    body: &Body,
    touching: &Touching,
    known: &Known,
    search: &Search,
    lack: Lack,
    trails: &mut Trails,
    strongest: &mut Strongest,
) -> Result<Option<Cause>, AllocError>
    requires touched { KnowsTouched body.now.image.now touching.now }
    requires rows { FitWhereReached body.now.image.now body.now.r known.now }
    ensures holds { IfOk result (λ cause. IfSome cause (Holds body.now.image.now body.now.r)) }
    ensures tells { IfOk result (λ cause. IfSome cause (TellsOfLack search.now.splitting.order lack)) }
{
    match lack {
        Lack::SetWithin(piece) => {
            let order = &search.splitting.order;
            Ok(cause_of_set(body, touching, &search.graph, order, &piece, trails))
        }
        Lack::Passes => {
            cause_of_passing(alloc, body, touching, known, search, trails, strongest)
        }
        Lack::InTurn(_) => Ok(cause_in_turn(body, touching, search, trails)),
        Lack::Looks => Ok(cause_of_looks(body)),
    }
}

/// Why no numbers of steps are found, from what was in the way.
fn cause_of_halt(
    alloc: Global,
    body: &Body,
    touching: &Touching,
    known: &Known,
    search: &Search,
    halt: Halt,
    trails: &mut Trails,
    strongest: &mut Strongest,
) -> Result<Option<Cause>, AllocError>
    requires touched { KnowsTouched body.now.image.now touching.now }
    requires rows { FitWhereReached body.now.image.now body.now.r known.now }
    requires way { IsInTheWay body.now.image.now body.now.r halt }
    ensures holds { IfOk result (λ cause. IfSome cause (Holds body.now.image.now body.now.r)) }
    ensures tells { IfOk result (λ cause. IfSome cause (TellsOfHalt search.now.splitting.order halt)) }
{
    match halt {
        Halt::Stuck(piece) => {
            let order = &search.splitting.order;
            Ok(first_cause(body, touching, &search.graph, order, &piece, trails))
        }
        Halt::Unpaid(lack) => cause_of_lack(
            alloc, body, touching, known, search, lack, trails, strongest,
        ),
        Halt::Passes => {
            cause_of_passing(alloc, body, touching, known, search, trails, strongest)
        }
    }
}

/// Why a LOOP may not pay on a cycle on which none may, if there is one.
fn cause_of_idle(
    alloc: Global,
    body: &Body,
    touching: &Touching,
    known: &Known,
    trails: &mut Trails,
) -> Result<Option<Cause>, AllocError>
    requires { KnowsTouched body.now.image.now touching.now }
    ensures holds { IfOk result (λ cause. IfSome cause (Holds body.now.image.now body.now.r)) }
    ensures tells { IfOk result (λ cause. IfSome cause (λ told. tells_of_ways told ≡ true)) }
{
    let mut search = Search::new(alloc)?;
    let cause = match search.find_idle(body, known, &touching.certain) {
        Some(piece) => {
            let order = &search.splitting.order;
            first_idle(body, touching, &search.graph, order, &piece, trails)
        }
        None => None,
    };
    // By a call, so that the check does not go over each table here.
    drop(search);
    Ok(cause)
}

/// The instruction of a component that sets the counter of a LOOP for it, whatever it was at the loop's head, as the cause if nests lack
/// that.
fn cause_of_set_in_turn(
    body: &Body,
    touching: &Touching,
    search: &Search,
    halt: Halt,
    trails: &mut Trails,
) -> Option<Cause>
    requires { KnowsTouched body.now.image.now touching.now }
    ensures holds { IfSome result (Holds body.now.image.now body.now.r) }
    ensures tells { IfSome result (TellsOfHalt search.now.splitting.order halt) }
{
    match halt {
        Halt::Unpaid(Lack::SetWithin(piece)) => {
            let order = &search.splitting.order;
            cause_of_set_again(body, touching, &search.graph, order, &piece, trails)
        }
        _ => None,
    }
}

/// What it takes to say what was in the way of a search.
#[derive(Drop)]
struct Tables {
    trails: Trails,
    strongest: Strongest,
}

impl Tables {
    /// Control is known to come to no place.
    fn new(alloc: Global) -> Result<Tables, AllocError>
        ensures { IfOk result (λ tables. NoTrails tables.trails) }
    {
        let trails = Trails::new(alloc)?;
        let strongest = Strongest::new(alloc)?;
        Ok(Tables { trails, strongest })
    }

    /// What was in the way of a search for potentials, in an author's terms.
    fn cause(
        &mut self,
        alloc: Global,
        body: &Body,
        touching: &Touching,
        known: &Known,
        halted: &Halted,
    ) -> Result<Option<Cause>, AllocError>
        requires touched { KnowsTouched body.now.image.now touching.now }
        requires rows { FitWhereReached body.now.image.now body.now.r known.now }
        requires way { IsInTheWay body.now.image.now body.now.r halted.now.halt }
        ensures holds { IfOk result (λ cause. IfSome cause (Holds body.now.image.now body.now.r)) }
        ensures tells { IfOk result (λ cause. IfSome cause (TellsOfReason (InTheWay halted.now))) }
    {
        let Tables { trails, strongest } = self;
        let Halted { search, halt } = halted;
        let cause = cause_of_halt(
            alloc, body, touching, known, search, *halt, trails, strongest,
        )?;
        if let Some(cause) = cause {
            return Ok(Some(cause));
        }
        if let Some(cause) = cause_of_idle(alloc, body, touching, known, trails)? {
            return Ok(Some(cause));
        }
        Ok(cause_of_set_in_turn(body, touching, search, *halt, trails))
    }
}

/// What was in the way of a search for potentials, in an author's terms.
fn cause_of_halted(
    alloc: Global,
    body: &Body,
    touching: &Touching,
    known: &Known,
    halted: &Halted,
) -> Result<Option<Cause>, AllocError>
    requires touched { KnowsTouched body.now.image.now touching.now }
    requires rows { FitWhereReached body.now.image.now body.now.r known.now }
    requires way { IsInTheWay body.now.image.now body.now.r halted.now.halt }
    ensures holds { IfOk result (λ cause. IfSome cause (Holds body.now.image.now body.now.r)) }
    ensures tells { IfOk result (λ cause. IfSome cause (TellsOfReason (InTheWay halted.now))) }
{
    let mut tables = Tables::new(alloc)?;
    let cause = tables.cause(alloc, body, touching, known, halted);
    // By a call, so that the check does not go over each table where this function ends.
    drop(tables);
    cause
}

/// Why no numbers of steps are found in a routine in which a way leads back, where nothing else is found.
fn cause_of_back(
    alloc: Global,
    body: &Body,
    touching: &Touching,
    known: &Known,
    back: BackWay,
) -> Result<Cause, AllocError>
    requires back { LeadsBack body.now.image.now body.now.r back }
    requires touched { KnowsTouched body.now.image.now touching.now }
    ensures holds { IfOk result (Holds body.now.image.now body.now.r) }
    ensures tells { IfOk result (λ cause. tells_of_ways cause ≡ true) }
{
    if some_always_may_pay(alloc, body, touching, known)? {
        Ok(Cause::NoSteps(back))
    } else {
        // Otherwise a cycle would have been found before; that is not proved.
        Ok(Cause::Unfound(back))
    }
}

/// Why no numbers of steps are found for a routine without loops.
fn cause_of_many(alloc: Global, body: &Body) -> Result<Cause, AllocError>
    requires loops { HasLoops body.now.image.now body.now.r → ⊥ }
    requires alike { MeetAlike body.now.image.now body.now.r }
    ensures holds { IfOk result (Holds body.now.image.now body.now.r) }
    ensures tells { IfOk result (λ cause. tells_of_ways cause ≡ true) }
{
    if least_steps_pass(alloc, body, &find_touching(body.image))? {
        return Ok(Cause::StepsPass);
    }
    cause_ahead(alloc, body)
}

/// Why no numbers of steps are found for a routine with loops, whose search has halted. Steps above the limit are reported first: then no
/// number is enough, whatever other reasons there are.
fn cause_of_loops(
    alloc: Global,
    body: &Body,
    known: &Known,
    halted: &Halted,
) -> Result<Cause, AllocError>
    requires rows { FitWhereReached body.now.image.now body.now.r known.now }
    requires way { IsInTheWay body.now.image.now body.now.r halted.now.halt }
    ensures holds { IfOk result (Holds body.now.image.now body.now.r) }
    ensures tells { IfOk result (TellsOfReason (InTheWay halted.now)) }
{
    let touching = find_touching(body.image);
    if least_steps_pass(alloc, body, &touching)? {
        return Ok(Cause::StepsPass);
    }
    if let Some(cause) = cause_of_halted(alloc, body, &touching, known, halted)? {
        return Ok(cause);
    }
    match find_back(body) {
        Some(back) => cause_of_back(alloc, body, &touching, known, back),
        None => cause_ahead(alloc, body),
    }
}

/// Why no numbers of steps are found with the rows that are.
fn cause_of_steps(
    alloc: Global,
    body: &Body,
    known: &Known,
    reason: &Reason,
) -> Result<Cause, AllocError>
    requires rows { FitWhereReached body.now.image.now body.now.r known.now }
    requires reason { IsReason body.now.image.now body.now.r known.now reason.now }
    ensures holds { IfOk result (Holds body.now.image.now body.now.r) }
    ensures tells { IfOk result (TellsOfReason reason.now) }
{
    match reason {
        Reason::TooMany => cause_of_many(alloc, body),
        Reason::NoLoop(back) => Ok(Cause::NoLoop(*back)),
        Reason::InTheWay(halted) => cause_of_loops(alloc, body, known, halted),
    }
}

/// Why `find_potentials` finds no numbers of steps for a routine with the rows that are known, which hold wherever control reaches in it: of
/// what may be the cause, the first that is found. What the cause says holds of that routine, and tells of the reason (`tells`, by
/// `specs/Tells`). `GivenUp`, `NoSteps`, `Unfound` and `Unknown` say that no reason was found, and what is not one. `AllocError` if the
/// allocator refuses memory.
pub fn find_cause(
    alloc: Global,
    image: &Image,
    routine: u16,
    known: &Known,
    reason: &Reason,
) -> Result<Cause, AllocError>
    requires within { routine < length image.now.routines }
    requires rows { FitWhereReached image.now routine known.now }
    requires reason { IsReason image.now routine known.now reason.now }
    ensures holds { IfOk result (Holds image.now routine) }
    ensures tells { IfOk result (TellsOfReason reason.now) }
{
    cause_of_steps(alloc, &body_of(image, routine), known, reason)
}
