//! Ways round in a piece on which no LOOP may pay.

ghost use Rattle.std.specs.Prelude.{◌≡◌, ◌≤◌, ◌<◌, true, IfSome};
ghost use Rattle.geos_counters.specs.Idle.{IsNeverPaid};
ghost use Rattle.geos_potentials.specs.Stuck.{NotesIdle, LeadsOnIdle};

use crate::classes::Classes;
use crate::idle::lead_idle;
use control_graph::{Order, Piece};
use geos_code::Body;

/// The target of an edge that stays in a piece, and on which no LOOP may pay according to the notes.
fn lead_in(
    body: &Body,
    classes: &Classes,
    order: &Order,
    piece: &Piece,
    pc: u16,
    branch: bool,
) -> Option<u16>
    requires above { body.now.start ≤ pc }
    requires below { pc < body.now.end }
    ensures leads { NotesIdle body.now.image.now body.now.r classes.now → IfSome result (LeadsOnIdle body.now.image.now body.now.r pc) }
    ensures inside { IfSome result (λ to. to < 4096) }
{
    let to = lead_idle(body, classes, pc, branch)?;
    if order.has(piece, to) { Some(to) } else { None }
}

/// The target of the first of these edges from an instruction, that to the next instruction first.
fn goes_on(body: &Body, classes: &Classes, order: &Order, piece: &Piece, pc: u16) -> Option<u16>
    ensures leads { NotesIdle body.now.image.now body.now.r classes.now → IfSome result (LeadsOnIdle body.now.image.now body.now.r pc) }
    ensures inside { IfSome result (λ to. to < 4096) }
{
    if pc < body.start || body.end <= pc {
        return None;
    }
    match lead_in(body, classes, order, piece, pc, false) {
        Some(to) => Some(to),
        None => lead_in(body, classes, order, piece, pc, true),
    }
}

/// An instruction on a cycle, found by a walk that is so long that it visits some instruction twice.
fn place_on_round(body: &Body, classes: &Classes, order: &Order, piece: &Piece) -> Option<u16> {
    if piece.length() == 0 {
        return None;
    }
    let mut at = order.place(piece.begin);
    for _ in piece.begin..piece.end {
        at = goes_on(body, classes, order, piece, at)?;
    }
    Some(at)
}

/// Whether control comes back so to a place.
fn comes_back(body: &Body, classes: &Classes, order: &Order, piece: &Piece, from: u16) -> bool
    ensures { result ≡ true → NotesIdle body.now.image.now body.now.r classes.now → IsNeverPaid body.now.image.now body.now.r }
{
    let mut at = from;
    for _ in piece.begin..piece.end {
        let Some(to) = goes_on(body, classes, order, piece, at) else {
            return false;
        };
        if to == from {
            return true;
        }
        at = to;
    }
    false
}

/// Whether the piece has a cycle of these edges: it has one if each instruction of the piece has such an edge.
pub(crate) fn goes_round_idle(body: &Body, classes: &Classes, order: &Order, piece: &Piece) -> bool
    ensures { result ≡ true → NotesIdle body.now.image.now body.now.r classes.now → IsNeverPaid body.now.image.now body.now.r }
{
    match place_on_round(body, classes, order, piece) {
        Some(from) => comes_back(body, classes, order, piece, from),
        None => false,
    }
}
