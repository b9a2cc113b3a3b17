//! Counters that are set, or that a call touches, where their own loops go round.

ghost use Rattle.std.specs.Prelude.{◌≡◌, ◌<◌, ◌≤◌, ℕ, true, false, None, Some, IfSome};
ghost use Rattle.loop_causes.specs.Noted.{comes_to, SetsIn, StayTrails};
ghost use Rattle.control_graph.specs.Arcs.{arc_at, forgets};
ghost use Rattle.control_graph.specs.Orders.{HasPlace, StandsAt};
ghost use Rattle.control_graph.specs.declared.arcs.Arc.{Arc};
ghost use Rattle.geos_counters.specs.Touching.{KnowsTouched};
ghost use Rattle.loop_causes.specs.Causes.{LoopsTo, ComesRound, IsKeptBut, ComesBut, sets_counter, SetsWithin, SetsInTurn, TouchesWithin, TouchesBefore};
ghost use Rattle.geos_counters.specs.Idle.{IsKept, PassesAt, calls_touching};
ghost use Rattle.geos_code.specs.Code.{IsPcOf};

use crate::trails::{Came, Trails};
use control_graph::{Graph, Order, Piece};
use geos_code::{Body, edge_in, is_loop};
use geos_counters::{Touching, touches};
use geos_flow::{BackWay, Within};
use geos_image::{Instr, Opcode};

/// The way of the LOOP at a pc to its target, and its counter.
pub fn loop_at(body: &Body, from: u16) -> Option<(BackWay, u8)>
    requires { from < body.now.end }
    ensures loops { IfSome result (λ both. LoopsTo body.now.image.now body.now.r both.0 both.1) }
    ensures here { IfSome result (λ both. both.0.from ≡ from) }
    ensures inside { IfSome result (λ both. both.0.to < 4096) }
{
    let i = body.image.instr(from);
    if !is_loop(i.opcode) {
        return None;
    }
    if from < body.start {
        return None;
    }
    let edge = edge_in(body, from, true)?;
    Some((BackWay { from, to: edge.to }, i.a))
}

/// Whether the instruction sets the counter.
pub(crate) fn sets_counter(counter: u8, i: &Instr) -> bool
    ensures { result ≡ sets_counter counter i.now i.now.opcode }
{
    match i.opcode {
        Opcode::Setk | Opcode::Setkw => i.a == counter,
        _ => false,
    }
}

/// Whether the instruction at a pc sets the counter.
pub(crate) fn sets_at(body: &Body, counter: u8, pc: u16) -> bool
    requires { pc < body.now.end }
    ensures { result ≡ true → PassesAt body.now.image.now pc (λ i. sets_counter counter i i.opcode) }
{
    sets_counter(counter, body.image.instr(pc))
}

/// Whether the instruction at a pc calls a routine that touches the counter.
fn calls_touching(body: &Body, touching: &Touching, counter: u8, pc: u16) -> bool
    requires here { pc < body.now.end }
    requires touched { KnowsTouched body.now.image.now touching.now }
    ensures { result ≡ true → PassesAt body.now.image.now pc (calls_touching body.now.image.now counter) }
{
    let i = body.image.instr(pc);
    match i.opcode {
        Opcode::Call => touches(&touching.certain, i.imm, counter),
        _ => false,
    }
}

/// Whether some path leads from one instruction to another, and leaves the counter unchanged, if one is given.
pub(crate) fn comes_round(
    body: &Body,
    touching: &Touching,
    graph: &Graph,
    trails: &mut Trails,
    counter: Option<u8>,
    from: u16,
    to: u16,
) -> bool
    requires first { from < 4096 }
    requires second { to < 4096 }
    requires touched { KnowsTouched body.now.image.now touching.now }
    ensures { result ≡ true → ComesRound body.now.image.now body.now.r counter from to }
{
    trails.clear(body);
    trails.note(from, None);
    trails.go(graph, counter, None);
    trails.lead(body, touching, counter, None, from, to)
}

/// Whether control can come from one place to another, by edges of which none is from a third.
fn comes_but(
    body: &Body,
    touching: &Touching,
    graph: &Graph,
    trails: &mut Trails,
    but: u16,
    from: u16,
    to: u16,
) -> bool
    requires first { from < 4096 }
    requires second { to < 4096 }
    requires touched { KnowsTouched body.now.image.now touching.now }
    ensures { result ≡ true → ComesBut body.now.image.now body.now.r (Some but) from to }
{
    trails.clear(body);
    trails.note(from, None);
    trails.go(graph, None, Some(but));
    trails.lead(body, touching, None, Some(but), from, to)
}

/// Whether the noted path to an instruction leaves the counter unchanged after another, and has no edge from a third.
pub(crate) fn is_kept(
    body: &Body,
    touching: &Touching,
    trails: &Trails,
    counter: u8,
    at: u16,
    but: Option<u16>,
    to: u16,
) -> bool
    requires above { body.now.start ≤ at }
    requires below { at < body.now.end }
    requires inside { to < 4096 }
    requires touched { KnowsTouched body.now.image.now touching.now }
    ensures kept { result ≡ true → IsKept body.now.image.now body.now.r counter at to }
    ensures but { result ≡ true → IsKeptBut body.now.image.now body.now.r counter at but to }
{
    at + 1 < body.end && trails.lead(body, touching, Some(counter), but, at + 1, to)
}

/// An instruction on the noted path to another, after which the path leaves the counter unchanged, and has no edge from a third.
pub(crate) fn kept_from(
    body: &Body,
    touching: &Touching,
    trails: &Trails,
    counter: u8,
    but: Option<u16>,
    to: u16,
) -> Option<u16>
    requires here { to < 4096 }
    requires touched { KnowsTouched body.now.image.now touching.now }
    ensures inside { IfSome result (λ at. at < body.now.end) }
    ensures within { IfSome result (λ at. IsPcOf body.now.image.now body.now.r at) }
    ensures kept { IfSome result (λ at. IsKept body.now.image.now body.now.r counter at to) }
    ensures but { IfSome result (λ at. IsKeptBut body.now.image.now body.now.r counter at but to) }
{
    let at = trails.origin(body, to)?;
    if body.start <= at && is_kept(body, touching, trails, counter, at, but, to) {
        Some(at)
    } else {
        None
    }
}

/// Control comes to where the edge of a place leads, if that sets a counter and stays in a piece.
fn note_set_at(
    graph: &Graph,
    order: &Order,
    piece: &Piece,
    counter: u8,
    pc: u16,
    trails: &mut Trails,
)
    requires { pc < 4096 }
    ensures stay { StayTrails trails.old trails.new }
    ensures comes { (arc : Arc) → SetsIn graph.now.arcs order.now piece.now counter pc arc → comes_to trails.new arc.to ≡ true }
{
    let Some(arc) = graph.arc(pc, false) else {
        return;
    };
    let Some((set, _)) = arc.sets() else {
        return;
    };
    if set == counter && order.has(piece, arc.to) {
        let came = Came {
            from: pc,
            branch: false,
            begins: true,
        };
        trails.note(arc.to, Some(came));
    }
}

/// Notes where control comes with a counter as it is set in a piece, on ways that end where they come to a place.
pub fn note_set(
    body: &Body,
    graph: &Graph,
    order: &Order,
    piece: &Piece,
    counter: u8,
    but: Option<u16>,
    trails: &mut Trails,
)
    ensures { (x pc : ℕ) (arc : Arc) → piece.now.begin ≤ x → x < piece.now.end → StandsAt order.now x pc
        → SetsIn graph.now.arcs order.now piece.now counter pc arc → comes_to trails.new arc.to ≡ true }
{
    trails.clear(body);
    for x in piece.begin..piece.end {
        note_set_at(graph, order, piece, counter, order.place(x), trails);
    }
    trails.go(graph, Some(counter), but);
}

/// Control comes to where a call at a place leaves a counter that touches it.
fn note_touched_at(graph: &Graph, counter: u8, pc: u16, trails: &mut Trails)
    requires { pc < 4096 }
    ensures stay { StayTrails trails.old trails.new }
    ensures comes { (arc : Arc) → arc_at graph.now.arcs pc false ≡ Some arc → forgets arc.counting counter ≡ true
        → comes_to trails.new arc.to ≡ true }
{
    let Some(arc) = graph.arc(pc, false) else {
        return;
    };
    if arc.forgets(counter) {
        let came = Came {
            from: pc,
            branch: false,
            begins: true,
        };
        trails.note(arc.to, Some(came));
    }
}

/// Notes where control comes with a counter as calls in a piece leave it that touch it.
fn note_touched_in(
    body: &Body,
    graph: &Graph,
    order: &Order,
    piece: &Piece,
    counter: u8,
    trails: &mut Trails,
)
    ensures { (pc : ℕ) (arc : Arc) → body.now.start ≤ pc → pc < body.now.end → HasPlace order.now piece.now pc
        → arc_at graph.now.arcs pc false ≡ Some arc → forgets arc.counting counter ≡ true → comes_to trails.new arc.to ≡ true }
{
    trails.clear(body);
    for pc in body.start..body.end {
        if order.has(piece, pc) {
            note_touched_at(graph, counter, pc, trails);
        }
    }
    trails.go(graph, Some(counter), None);
}

/// Notes where it comes with it as all calls leave it that touch it.
fn note_touched(body: &Body, graph: &Graph, counter: u8, trails: &mut Trails)
    ensures { (pc : ℕ) (arc : Arc) → body.now.start ≤ pc → pc < body.now.end → arc_at graph.now.arcs pc false ≡ Some arc
        → forgets arc.counting counter ≡ true → comes_to trails.new arc.to ≡ true }
{
    trails.clear(body);
    for pc in body.start..body.end {
        note_touched_at(graph, counter, pc, trails);
    }
    trails.go(graph, Some(counter), None);
}

/// An instruction of a piece that sets the counter of a LOOP within an iteration of its loop, after which a path leaves it unchanged up to
/// the LOOP.
pub fn find_set_within(
    body: &Body,
    touching: &Touching,
    graph: &Graph,
    order: &Order,
    piece: &Piece,
    from: u16,
    trails: &mut Trails,
) -> Option<Within>
    requires here { from < body.now.end }
    requires touched { KnowsTouched body.now.image.now touching.now }
    ensures holds { IfSome result (SetsWithin body.now.image.now body.now.r) }
    ensures at { IfSome result (λ within. within.back.from ≡ from) }
{
    let (back, counter) = loop_at(body, from)?;
    let target = Some(back.to);
    note_set(body, graph, order, piece, counter, target, trails);
    let at = kept_from(body, touching, trails, counter, target, from)?;
    if sets_at(body, counter, at)
        && comes_round(body, touching, graph, trails, Some(counter), back.to, at)
    {
        Some(Within { back, counter, at })
    } else {
        None
    }
}

/// An instruction of a piece that sets the counter of a LOOP within an iteration of its loop, whatever the counter was, after which a path
/// leaves it unchanged up to the LOOP.
pub(crate) fn find_set_again(
    body: &Body,
    touching: &Touching,
    graph: &Graph,
    order: &Order,
    piece: &Piece,
    from: u16,
    trails: &mut Trails,
) -> Option<Within>
    requires here { from < body.now.end }
    requires touched { KnowsTouched body.now.image.now touching.now }
    ensures holds { IfSome result (SetsInTurn body.now.image.now body.now.r) }
    ensures at { IfSome result (λ within. within.back.from ≡ from) }
{
    let (back, counter) = loop_at(body, from)?;
    let target = Some(back.to);
    note_set(body, graph, order, piece, counter, target, trails);
    let at = kept_from(body, touching, trails, counter, target, from)?;
    if sets_at(body, counter, at) && comes_but(body, touching, graph, trails, from, back.to, at) {
        Some(Within { back, counter, at })
    } else {
        None
    }
}

/// A call in a piece that touches the counter of a LOOP, and it is not set from there to the LOOP, and control comes from the LOOP's
/// target.
pub(crate) fn find_touched_within(
    body: &Body,
    touching: &Touching,
    graph: &Graph,
    order: &Order,
    piece: &Piece,
    from: u16,
    trails: &mut Trails,
) -> Option<Within>
    requires here { from < body.now.end }
    requires touched { KnowsTouched body.now.image.now touching.now }
    ensures holds { IfSome result (TouchesWithin body.now.image.now body.now.r) }
    ensures at { IfSome result (λ within. within.back.from ≡ from) }
{
    let (back, counter) = loop_at(body, from)?;
    note_touched_in(body, graph, order, piece, counter, trails);
    let at = kept_from(body, touching, trails, counter, None, from)?;
    if calls_touching(body, touching, counter, at)
        && comes_round(body, touching, graph, trails, None, back.to, at)
    {
        Some(Within { back, counter, at })
    } else {
        None
    }
}

/// A call that touches the counter of a LOOP on a cycle, if some path from the call to the LOOP does not set the counter.
pub(crate) fn find_touched_before(
    body: &Body,
    touching: &Touching,
    graph: &Graph,
    from: u16,
    trails: &mut Trails,
) -> Option<Within>
    requires here { from < body.now.end }
    requires touched { KnowsTouched body.now.image.now touching.now }
    ensures holds { IfSome result (TouchesBefore body.now.image.now body.now.r) }
    ensures at { IfSome result (λ within. within.back.from ≡ from) }
{
    let (back, counter) = loop_at(body, from)?;
    note_touched(body, graph, counter, trails);
    let at = kept_from(body, touching, trails, counter, None, from)?;
    if calls_touching(body, touching, counter, at)
        && comes_round(body, touching, graph, trails, None, back.to, from)
    {
        Some(Within { back, counter, at })
    } else {
        None
    }
}
