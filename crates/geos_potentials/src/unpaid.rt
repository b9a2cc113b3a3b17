//! Ways round that no counter pays for.

ghost use Rattle.std.specs.Prelude.{◌≡◌, ◌<◌, true, Some, List, Bool, IfSome};
ghost use Rattle.geos_counters.specs.Idle.{LeadsUnpaid, IsUnpaidWay, GoesRound};

use crate::cycles::has_unpaid_cycle;
use crate::ways::{Came, WaysIn};
use geos_code::{Body, edge_in, is_loop};
use geos_flow::BackWay;
use geos_image::Table;

/// The target of an edge, if the instruction has the edge, it stays in the routine, and it is not the taken edge of a LOOP.
pub(crate) fn lead_unpaid(body: &Body, pc: u16, branch: bool) -> Option<u16>
    requires { pc < body.now.end }
    ensures leads { IfSome result (LeadsUnpaid body.now.image.now body.now.r pc branch) }
    ensures inside { IfSome result (λ to. to < 4096) }
{
    if branch && is_loop(body.image.instr(pc).opcode) {
        return None;
    }
    match edge_in(body, pc, branch) {
        Some(edge) => Some(edge.to),
        None => None,
    }
}

/// Notes where an edge leads, if it is a place into which edges are left, and no edge was noted there before.
fn note(body: &Body, into: &mut Table<WaysIn>, pc: u16, branch: bool)
    requires { pc < body.now.end }
{
    if let Some(to) = lead_unpaid(body, pc, branch) {
        let WaysIn { left, came } = into.at(to);
        if left != 0 && came.is_none() {
            let came = Some(Came { from: pc, branch });
            into.set(to, WaysIn { left, came });
        }
    }
}

/// Notes an edge into each place into which edges are left, from such a place.
fn note_all(body: &Body, into: &mut Table<WaysIn>) {
    for pc in body.start..body.end {
        if into.at(pc).left != 0 {
            note(body, into, pc, false);
            note(body, into, pc, true);
        }
    }
}

/// The first place into which an edge is noted.
fn first_place(body: &Body, into: &Table<WaysIn>) -> Option<u16>
    ensures { IfSome result (λ pc. pc < 4096) }
{
    for pc in body.start..body.end {
        if into.at(pc).came.is_some() {
            return Some(pc);
        }
    }
    None
}

/// An instruction on a cycle, found by a walk backwards along the noted edges that is so long that it visits some instruction twice.
fn place_on_round(body: &Body, into: &Table<WaysIn>) -> Option<u16>
    ensures { IfSome result (λ pc. pc < 4096) }
{
    let mut at = first_place(body, into)?;
    for _ in body.start..body.end {
        at = into.at(at).came?.from;
    }
    Some(at)
}

/// Whether the edge that is noted at a place leads there.
fn came_to(body: &Body, came: Came, to: u16) -> bool
    ensures leads { result ≡ true → LeadsUnpaid body.now.image.now body.now.r came.from came.branch to }
    ensures inside { result ≡ true → came.from < body.now.end }
{
    if body.end <= came.from {
        return false;
    }
    match lead_unpaid(body, came.from, came.branch) {
        Some(there) => there == to,
        None => false,
    }
}

/// Whether the edges that are noted lead from one pc to another.
fn leads_on(body: &Body, into: &Table<WaysIn>, from: u16, to: u16) -> bool
    requires { to < body.now.end }
    ensures { result ≡ true → (branches : List Bool) × IsUnpaidWay body.now.image.now body.now.r from branches to }
{
    let mut at = to;
    for _ in body.start..body.end {
        if at == from {
            return true;
        }
        let Some(edge) = into.at(at).came else {
            return false;
        };
        if !came_to(body, edge, at) {
            return false;
        }
        at = edge.from;
    }
    false
}

/// The back edge of the cycle that an instruction is on.
fn back_on_round(body: &Body, into: &Table<WaysIn>, place: u16) -> Option<BackWay>
    requires { place < 4096 }
    ensures { IfSome result (λ back. GoesRound body.now.image.now body.now.r back.from back.to) }
{
    let mut at = place;
    for _ in body.start..body.end {
        let from = into.at(at).came?.from;
        let back = Came { from, branch: true };
        if at <= from && came_to(body, back, at) && leads_on(body, into, at, from) {
            return Some(BackWay { from, to: at });
        }
        at = from;
    }
    None
}

/// A back edge of a cycle that no counter pays for, from the noted edges.
pub(crate) fn round_by(
    body: &Body,
    into: &mut Table<WaysIn>,
    listed: &mut Table<u16>,
) -> Option<BackWay>
    ensures { IfSome result (λ back. GoesRound body.now.image.now body.now.r back.from back.to) }
{
    if !has_unpaid_cycle(body, into, listed) {
        return None;
    }
    note_all(body, into);
    let place = place_on_round(body, into)?;
    back_on_round(body, into, place)
}
