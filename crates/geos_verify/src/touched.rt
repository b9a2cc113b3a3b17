//! Which counters routines touch, by a table that is filled from the lowest routine up.

ghost use Rattle.std.specs.Prelude.{◌≡◌, ◌<◌, ◌||◌, length};
ghost use Rattle.std.specs.List.{list_any};
ghost use Rattle.geos_verify.specs.Touched.{counts, calls, points_of, touches_here, touched_by, noted, noted_by};

use crate::body::Body;
use geos_image::{Image, Instr, Opcode, Point};
use geos_opcodes::CounterUse;

/// For each routine, which of the counters k0 to k3 it touches.
pub type Touched = [[bool; 4]; 32];

/// Whether the instruction calls a routine.
pub fn calls(opcode: Opcode) -> bool
    ensures { result ≡ calls opcode }
{
    match opcode {
        Opcode::Call => true,
        _ => false,
    }
}

/// Whether the instruction sets a counter, or takes from it.
fn counts(opcode: Opcode) -> bool
    ensures { result ≡ counts opcode }
{
    match opcode.facts().counter {
        CounterUse::Untouched => false,
        _ => true,
    }
}

/// What the table says of a routine and counter k; it has no routine past the last.
fn noted(table: &Touched, r: u16, k: u8) -> bool
    requires { k < 4 }
    ensures { result ≡ noted table.now k r }
{
    match table.get(usize::from(r)) {
        Some(touched) => touched[usize::from(k)],
        None => false,
    }
}

/// Which counters a routine touches that is below the body's, as its table says it.
pub(crate) fn touched_by(body: &Body, callee: u16) -> [bool; 4]
    requires { callee < body.now.r }
    ensures { result ≡ touched_by body.now.image.now callee }
{
    let table = body.touched;
    [
        noted(table, callee, 0),
        noted(table, callee, 1),
        noted(table, callee, 2),
        noted(table, callee, 3),
    ]
}

/// Whether the instruction names counter k, or calls a routine that the table says touches it.
fn touches_here(table: &Touched, k: u8, i: &Instr) -> bool
    requires { k < 4 }
    ensures { result ≡ touches_here (noted table.now k) k i.now }
{
    counts(i.opcode) && i.a == k || calls(i.opcode) && noted(table, i.imm, k)
}

/// Whether one of these instructions does.
fn touches(table: &Touched, k: u8, points: &[Point]) -> bool
    requires { k < 4 }
    ensures { result ≡ list_any (λ point. touches_here (noted table.now k) k point.instr) points.now }
{
    points
        .iter()
        .any(|point| touches_here(table, k, &point.instr))
}

/// Whether one of these instructions names a counter, or calls a routine.
fn may_touch(points: &[Point]) -> bool
    ensures { result ≡ list_any (λ point. counts point.instr.opcode || calls point.instr.opcode) points.now }
{
    points.iter().any(|point| counts(point.instr.opcode) | calls(point.instr.opcode))
}

/// The points of a routine.
fn points_of(image: &Image, r: u16) -> &[Point]
    requires { r < length image.now.routines }
    ensures { result.now ≡ points_of image.now r }
{
    let start = usize::from(image.start(r));
    &image.points()[start..][..usize::from(image.routine(r).count)]
}

/// Which counters a routine touches, where the table says it of those that it calls: the ones
/// that its SETK, SETKW and LOOP name, and those that the routines touch that it calls.
pub fn touched_in(image: &Image, routine: u16, table: &Touched) -> [bool; 4]
    requires { routine < length image.now.routines }
    ensures { result ≡ noted_by image.now table.now routine }
{
    let points = points_of(image, routine);
    if !may_touch(points) {
        return [false; 4];
    }
    [
        touches(table, 0, points),
        touches(table, 1, points),
        touches(table, 2, points),
        touches(table, 3, points),
    ]
}
