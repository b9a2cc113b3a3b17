//! How far a pointer that is not known was followed back: which places were passed, where ways met, and where it was lost.

ghost use Rattle.std.specs.Prelude.{◌≡◌, ◌<◌, ◌⊎◌, Bool, true, false, Some, None, IfSome, length, slice_get};
ghost use Rattle.geos_flow.specs.declared.edge.Edge.{Edge};
ghost use Rattle.geos_flow.specs.Edges.{end_of};
ghost use Rattle.geos_verify.specs.Places.{places};
ghost use Rattle.geos_explain.specs.Places.{comes_alike, place_of};
ghost use Rattle.geos_explain.specs.declared.ways.Way.TheVariants.{Along};
ghost use Rattle.geos_explain.specs.Ways.{empty_on};
ghost use Rattle.geos_explain.specs.Lost.{IsHint, LacksBehind, LacksFrom, IsWay, IsMeeting, IsEnd, CanFollow, AreWays, IsFinding, IsSound};

use crate::arrivals::{Arrivals, all_arrivals, arrival};
use crate::finding::{End, Finding, Loss, Meeting};
use crate::place::Place;
use crate::routines::comes_alike;
use crate::ways::{Followed, Way, bringing, empty_on, is_stale, loses, losing};
use geos_flow::{Edge, Marks, Pending, end_of, is_marked, mark, no_marks};
use geos_verify::{Place as KnownPlace, has_edge, pointer_at};

/// A pointer that is followed back from a place, with what is known of it on some path to each pc.
#[derive(Clone, Copy)]
pub(crate) struct Tracing<'a> {
    pub place: &'a Place<'a>,
    pub p: u8,
    pub arrivals: Arrivals,
}

/// The first ways to a pc: one that brings the pointer, and one that does not.
#[derive(Clone, Copy)]
pub(crate) struct FirstWays {
    pub to: u16,
    pub known: Option<Way>,
    pub lost: Option<Way>,
}

/// How far a pointer was followed back.
#[derive(Clone, Copy)]
pub(crate) struct Trace {
    /// From where it can be lacking.
    pub passed: Marks,
    /// Whether the search has succeeded: it found an instruction that lost the pointer, or a first join.
    pub found: bool,
    /// The first visited join of paths, the first reason on the path that does not bring the pointer, and what lost it.
    pub finding: Finding,
}

/// The path brings the pointer into an empty slot, or ends as given.
fn nowhere_or(tracing: &Tracing, way: Way, to: u16, end: End) -> End
    requires lacks { LacksFrom (place_of tracing.now.place.now) tracing.now.p to }
    requires leads { (known : Bool) × IsWay (place_of tracing.now.place.now) tracing.now.p known way to }
    requires other { empty_on (place_of tracing.now.place.now) tracing.now.p way ≡ None → IsEnd (place_of tracing.now.place.now) tracing.now.p end }
    ensures { IsEnd (place_of tracing.now.place.now) tracing.now.p result }
{
    match empty_on(tracing.place, tracing.p, way) {
        Some(slot) => End::Nowhere(way, slot),
        None => end,
    }
}

/// No instruction that continues to a pc can have lost the pointer: no way to it lacks it, if each brings it or there is none, or
/// the caller does not bring it, or control does not come from where it is lacking.
fn end_at(tracing: &Tracing, ways: FirstWays) -> Option<End>
    requires { AreWays (place_of tracing.now.place.now) tracing.now.p ways }
    ensures end { IfSome result (λ end. IsEnd (place_of tracing.now.place.now) tracing.now.p end) }
    ensures none { result ≡ None → (edge : Edge) × (ways.lost ≡ Some (Along edge)) × (comes_alike (place_of tracing.now.place.now) edge.from ≡ true) }
{
    let to = ways.to;
    match ways.lost {
        Some(Way::Along(edge)) if comes_alike(tracing.place, edge.from) => None,
        Some(Way::Along(edge)) => Some(End::Unreached(edge.from)),
        Some(Way::Entry) => Some(nowhere_or(tracing, Way::Entry, to, End::Unset)),
        None => match ways.known {
            Some(way) => Some(nowhere_or(tracing, way, to, End::Merged(to))),
            None => Some(End::Unreached(to)),
        },
    }
}

/// The join of the paths, if one of them brings the pointer and the other does not.
fn meeting_at(tracing: &Tracing, ways: FirstWays) -> Option<Meeting>
    requires { AreWays (place_of tracing.now.place.now) tracing.now.p ways }
    ensures meets { IfSome result (λ m. IsMeeting (place_of tracing.now.place.now) tracing.now.p m) }
    ensures none { result ≡ None → (ways.known ≡ None) ⊎ (ways.lost ≡ None) }
{
    match ways.known {
        Some(known) => match ways.lost {
            Some(lost) => Some(Meeting {
                to: ways.to,
                known,
                lost,
            }),
            None => None,
        },
        None => None,
    }
}

/// Visits a place, to which these paths lead first. At the first join, earlier visits no longer count.
fn note(trace: &mut Trace, tracing: &Tracing, ways: FirstWays)
    requires ways { AreWays (place_of tracing.now.place.now) tracing.now.p ways }
    requires sound { IsSound (place_of tracing.now.place.now) tracing.now.p trace.old }
    ensures { IsSound (place_of tracing.now.place.now) tracing.now.p trace.new }
{
    let end = end_at(tracing, ways);
    let met = trace.finding.meeting.or(meeting_at(tracing, ways));
    mark(&mut trace.passed, usize::from(ways.to));
    if trace.finding.meeting.is_none() && met.is_some() {
        trace.found = true;
        trace.finding.end = end;
    } else {
        trace.finding.end = trace.finding.end.or(end);
    }
    trace.finding.meeting = met;
}

/// The first ways to a pc, from where the pointer can be lacking; where edges to it begin waits.
fn ways_to(tracing: &Tracing, waits: &mut Pending, to: u16) -> FirstWays
    requires there { to < length tracing.now.place.now.image.now.points }
    requires lacks { LacksFrom (place_of tracing.now.place.now) tracing.now.p to }
    ensures to { result.to ≡ to }
    ensures ways { AreWays (place_of tracing.now.place.now) tracing.now.p result }
{
    let place = tracing.place;
    place.image.graph().put_begins(waits, to);
    FirstWays {
        to,
        known: bringing(place, tracing.p, to),
        lost: losing(place, tracing.p, to),
    }
}

/// The place itself is passed, to which these ways lead first.
fn begun(tracing: &Tracing, ways: FirstWays) -> Trace
    requires here { ways.to ≡ tracing.now.place.now.pc }
    requires ways { AreWays (place_of tracing.now.place.now) tracing.now.p ways }
    ensures { IsSound (place_of tracing.now.place.now) tracing.now.p result }
{
    let mut passed = no_marks();
    mark(&mut passed, usize::from(ways.to));
    let meeting = meeting_at(tracing, ways);
    let end = end_at(tracing, ways);
    Trace {
        passed,
        found: meeting.is_some(),
        finding: Finding {
            meeting,
            end,
            lost: None,
        },
    }
}

/// One more place is passed, and where edges to it begin waits.
fn pass(trace: &mut Trace, tracing: &Tracing, waits: &mut Pending, at: u16)
    requires there { at < length tracing.now.place.now.image.now.points }
    requires lacks { LacksFrom (place_of tracing.now.place.now) tracing.now.p at }
    requires sound { IsSound (place_of tracing.now.place.now) tracing.now.p trace.old }
    ensures { IsSound (place_of tracing.now.place.now) tracing.now.p trace.new }
{
    let ways = ways_to(tracing, waits, at);
    note(trace, tracing, ways);
}

/// The pointer, and what is known of it on some path to the pc.
fn hint_at(tracing: &Tracing, from: u16) -> Followed
    requires { CanFollow tracing.now }
    ensures pointer { result.p ≡ tracing.now.p }
    ensures hint { IsHint (place_of tracing.now.place.now) tracing.now.p from result.hint }
{
    Followed {
        p: tracing.p,
        hint: arrival(&tracing.arrivals, usize::from(from)),
    }
}

/// Whether control comes along the edge of the instruction as it comes to the place, and does not bring the pointer.
fn lacks_on(place: &Place, p: u8, edge: Edge, point: &KnownPlace) -> bool
    requires { slice_get (places place.now.image.now) edge.from ≡ Some point.now }
    ensures { result ≡ true → LacksBehind (place_of place.now) p edge (end_of edge point.now.instr) }
{
    comes_alike(place, edge.from)
        && has_edge(&point.instr, edge.branch)
        && is_stale(pointer_at(&place.image.behind(edge.from, &point.row, edge.branch), p))
}

/// A step back along an edge, if it does not bring the pointer: it was lost there, or the instruction is passed, if it was not yet.
fn step_by(
    trace: &mut Trace,
    tracing: &Tracing,
    waits: &mut Pending,
    edge: Edge,
    point: &KnownPlace,
)
    requires tracing { CanFollow tracing.now }
    requires there { slice_get (places tracing.now.place.now.image.now) edge.from ≡ Some point.now }
    requires lacks { LacksFrom (place_of tracing.now.place.now) tracing.now.p (end_of edge point.now.instr) }
    requires sound { IsSound (place_of tracing.now.place.now) tracing.now.p trace.old }
    ensures { IsSound (place_of tracing.now.place.now) tracing.now.p trace.new }
{
    if !lacks_on(tracing.place, tracing.p, edge, point) {
        return;
    }
    let followed = hint_at(tracing, edge.from);
    if loses(tracing.place.image, followed, edge, point) {
        trace.found = true;
        trace.finding.lost = Some(Loss {
            edge,
            hint: followed.hint,
        });
    } else if !is_marked(&trace.passed, usize::from(edge.from)) {
        pass(trace, tracing, waits, edge.from);
    }
}

/// The same along any edge of the instruction, if it leads to a visited place, unless the search has succeeded.
fn step_along(
    trace: &mut Trace,
    tracing: &Tracing,
    waits: &mut Pending,
    edge: Edge,
    point: &KnownPlace,
)
    requires tracing { CanFollow tracing.now }
    requires there { slice_get (places tracing.now.place.now.image.now) edge.from ≡ Some point.now }
    requires sound { IsSound (place_of tracing.now.place.now) tracing.now.p trace.old }
    ensures { IsSound (place_of tracing.now.place.now) tracing.now.p trace.new }
{
    if !trace.found && is_marked(&trace.passed, end_of(edge, &point.instr)) {
        step_by(trace, tracing, waits, edge, point);
    }
}

/// The same along both edges of the instruction at a pc, which no longer waits.
fn step_from(trace: &mut Trace, tracing: &Tracing, waits: &mut Pending, from: u16)
    requires tracing { CanFollow tracing.now }
    requires low { from < 4096 }
    requires sound { IsSound (place_of tracing.now.place.now) tracing.now.p trace.old }
    ensures { IsSound (place_of tracing.now.place.now) tracing.now.p trace.new }
{
    waits.take(from);
    if let Some(point) = tracing.place.image.place(from) {
        let along = Edge {
            from,
            branch: false,
        };
        let aside = Edge { from, branch: true };
        step_along(trace, tracing, waits, along, point);
        step_along(trace, tracing, waits, aside, point);
    }
}

/// The same of those of the routine's instructions that wait, the last of them first, and whether one of them did.
fn sweep_back(trace: &mut Trace, tracing: &Tracing, waits: &mut Pending) -> bool
    requires tracing { CanFollow tracing.now }
    requires sound { IsSound (place_of tracing.now.place.now) tracing.now.p trace.old }
    ensures { IsSound (place_of tracing.now.place.now) tracing.now.p trace.new }
{
    let place = tracing.place;
    let start = place.image.start(place.r);
    let mut end = start + place.routine.count;
    let mut any = false;
    waits.settle();
    while let Some(from) = waits.last_in(start, end) {
        step_from(trace, tracing, waits, from);
        end = from;
        any = true;
    }
    any
}

/// Steps back until none waits. Each sweep but the last passes one place more at least, so there are at most as many as the
/// routine has instructions.
fn step_back(trace: &mut Trace, tracing: &Tracing, waits: &mut Pending)
    requires tracing { CanFollow tracing.now }
    requires sound { IsSound (place_of tracing.now.place.now) tracing.now.p trace.old }
    ensures { IsSound (place_of tracing.now.place.now) tracing.now.p trace.new }
{
    for _ in 0..tracing.place.routine.count {
        if !sweep_back(trace, tracing, waits) {
            return;
        }
    }
}

/// A step back along the way of a meeting that does not bring the pointer, unless it is known why not; nothing else was passed
/// before.
fn step_aside(trace: &mut Trace, tracing: &Tracing, waits: &mut Pending, meeting: Meeting)
    requires tracing { CanFollow tracing.now }
    requires meets { IsMeeting (place_of tracing.now.place.now) tracing.now.p meeting }
    requires sound { IsSound (place_of tracing.now.place.now) tracing.now.p trace.old }
    ensures { IsSound (place_of tracing.now.place.now) tracing.now.p trace.new }
{
    trace.passed = no_marks();
    trace.found = trace.finding.end.is_some();
    if trace.found {
        return;
    }
    if let Way::Along(edge) = meeting.lost {
        if let Some(point) = tracing.place.image.place(edge.from) {
            step_by(trace, tracing, waits, edge, point);
        }
    }
}

/// What is found of the pointer: it is followed back from the place to an instruction that lost it or to a join, and from there along the
/// path that does not bring it to an instruction that lost it.
pub(crate) fn traced(place: &Place, p: u8) -> Finding
    ensures { IsFinding (place_of place.now) p result }
{
    let tracing = Tracing {
        place,
        p,
        arrivals: all_arrivals(place, p),
    };
    let mut waits = Pending::none();
    let ways = ways_to(&tracing, &mut waits, place.pc);
    let mut trace = begun(&tracing, ways);
    step_back(&mut trace, &tracing, &mut waits);
    if let Some(meeting) = trace.finding.meeting {
        step_aside(&mut trace, &tracing, &mut waits, meeting);
        step_back(&mut trace, &tracing, &mut waits);
    }
    trace.finding
}
