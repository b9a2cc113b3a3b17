//! Loops that wait on each other: each sets the counter of the other, so that what a unit of either pays for grows with that of the
//! other; or a loop that waits on itself.

ghost use Rattle.std.specs.Prelude.{◌≡◌, ◌<◌, true, Some, IfSome, slice_index_or};
ghost use Rattle.geos_counters.specs.Touching.{KnowsTouched};
ghost use Rattle.loop_causes.specs.Causes.{WaitInTurn, SetsWithin};
ghost use Rattle.geos_diagnosis.specs.Nests.{PaysInSuch, WasPaidAgain, IsTightAt};
ghost use Rattle.control_graph.specs.declared.jumps.Jump.TheVariants.{Plain, Pays};

use control_graph::{Graph, Jump, Piece};
use geos_code::Body;
use geos_counters::Touching;
use geos_flow::{LoopPair, Within};
use geos_image::MOST_INSTRS;
use geos_potentials::Splitting;
use loop_causes::{Trails, find_set_within, loop_at, set_for};

/// The most pairs of LOOPs that are tried.
const PAIRS: u16 = 256;

/// The nest that the LOOP at a pc pays in.
pub(crate) fn nest_of(splitting: &Splitting, pc: u16) -> Option<u16>
    requires { pc < 4096 }
    ensures inside { IfSome result (λ nest. nest < 4096) }
    ensures pays { IfSome result (λ nest. slice_index_or splitting.now.jumps pc Plain ≡ Pays nest) }
{
    match splitting.jumps.at(pc) {
        Jump::Pays(nest) if nest < MOST_INSTRS => Some(nest),
        _ => None,
    }
}

/// Whether the loops of two LOOPs that pay wait on each other.
fn find_pair(
    body: &Body,
    touching: &Touching,
    graph: &Graph,
    splitting: &Splitting,
    one: u16,
    two: u16,
    trails: &mut Trails,
) -> Option<LoopPair>
    requires first { one < body.now.end }
    requires second { two < body.now.end }
    requires touched { KnowsTouched body.now.image.now touching.now }
    ensures { IfSome result (WaitInTurn body.now.image.now body.now.r) }
{
    let piece = splitting.nests.at(nest_of(splitting, one)?).piece;
    let other_piece = splitting.nests.at(nest_of(splitting, two)?).piece;
    let (back, counter) = loop_at(body, one)?;
    let (other, other_counter) = loop_at(body, two)?;
    let at = set_for(
        body,
        touching,
        graph,
        &splitting.order,
        &piece,
        &back,
        counter,
        &other,
        other_counter,
        trails,
    )?;
    let other_at = set_for(
        body,
        touching,
        graph,
        &splitting.order,
        &other_piece,
        &other,
        other_counter,
        &back,
        counter,
        trails,
    )?;
    Some(LoopPair {
        back,
        counter,
        at,
        other,
        other_counter,
        other_at,
    })
}

/// Whether the nest that the LOOP at a pc pays in was paid for again and again.
fn was_paid_again(splitting: &Splitting, pc: u16) -> bool
    requires { pc < 4096 }
    ensures { result ≡ true → PaysInSuch splitting.now pc WasPaidAgain }
{
    match nest_of(splitting, pc) {
        Some(nest) => 2 < splitting.nests.at(nest).paid,
        None => false,
    }
}

/// Two loops that wait on each other, among those that were paid for again and again.
pub(crate) fn find_in_turn(
    body: &Body,
    touching: &Touching,
    graph: &Graph,
    splitting: &Splitting,
    trails: &mut Trails,
) -> Option<LoopPair>
    requires { KnowsTouched body.now.image.now touching.now }
    ensures { IfSome result (WaitInTurn body.now.image.now body.now.r) }
{
    let mut pairs: u16 = 0;
    for one in body.start..body.end {
        if was_paid_again(splitting, one) {
            for two in body.start..body.end {
                if two != one && was_paid_again(splitting, two) && pairs < PAIRS {
                    pairs += 1;
                    if let Some(found) = find_pair(
                        body, touching, graph, splitting, one, two, trails,
                    ) {
                        return Some(found);
                    }
                }
            }
        }
    }
    None
}

/// The places of the nest that the LOOP at a pc pays in, if its counter is set there, and it was paid for again and again.
fn tight_piece(splitting: &Splitting, pc: u16) -> Option<Piece>
    requires { pc < 4096 }
    ensures { IfSome result (λ piece. PaysInSuch splitting.now pc (IsTightAt piece)) }
{
    let nest = splitting.nests.at(nest_of(splitting, pc)?);
    if nest.tight && 2 < nest.paid {
        Some(nest.piece)
    } else {
        None
    }
}

/// The instruction that sets the counter of a LOOP within its own loop, among the nests that were paid for again and again.
pub(crate) fn find_own_set(
    body: &Body,
    touching: &Touching,
    graph: &Graph,
    splitting: &Splitting,
    trails: &mut Trails,
) -> Option<Within>
    requires { KnowsTouched body.now.image.now touching.now }
    ensures { IfSome result (SetsWithin body.now.image.now body.now.r) }
{
    let order = &splitting.order;
    for from in body.start..body.end {
        if let Some(piece) = tight_piece(splitting, from) {
            if let Some(within) = find_set_within(
                body, touching, graph, order, &piece, from, trails,
            ) {
                return Some(within);
            }
        }
    }
    None
}
