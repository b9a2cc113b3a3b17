//! What is known of a pointer on some path to each instruction of a routine; the rows say only what holds on all paths.

ghost use Rattle.std.specs.Prelude.{◌≡◌, ◌<◌, Some, slice_get};
ghost use Rattle.geos_explain.specs.Places.{place_of};
ghost use Rattle.geos_explain.specs.Lost.{AreHints, arrival};
ghost use Rattle.geos_explain.specs.Ways.{behind};
ghost use Rattle.geos_verify.specs.Places.{places};

use crate::filled::Filled;
use crate::place::Place;
use crate::routines::comes_alike;
use crate::ways::{Followed, entry_pointer, is_stale, with_hint};
use geos_flow::{Edge, Pending, end_of};
use geos_image::Pointer;
use geos_verify::{Place as KnownPlace, has_edge, pointer_at};

/// For each pc what is known of a pointer on the way there that was found first, if there is one.
pub(crate) type Arrivals = [Option<Pointer>; 4096];

/// What is known of the pointer on some path to the pc.
pub(crate) fn arrival(arrivals: &Arrivals, pc: usize) -> Option<Pointer>
    ensures { result ≡ arrival arrivals.now pc }
{
    if pc < 4096 { arrivals[pc] } else { None }
}

/// What is known of the pointer after the instruction, on an edge that it has.
fn behind(image: &Filled, followed: Followed, edge: Edge, point: &KnownPlace) -> Option<Pointer>
    requires { slice_get (places image.now) edge.from ≡ Some point.now }
    ensures { result ≡ behind image.now followed edge point.now }
{
    if has_edge(&point.instr, edge.branch) {
        let row = with_hint(&point.row, followed);
        pointer_at(&image.behind(edge.from, &row, edge.branch), followed.p)
    } else {
        None
    }
}

/// What the edge brings comes to its end, if nothing did yet; the instruction there waits then.
fn arrive_along(
    arrivals: &mut Arrivals,
    waits: &mut Pending,
    place: &Place,
    p: u8,
    edge: Edge,
    point: &KnownPlace,
)
    requires there { slice_get (places place.now.image.now) edge.from ≡ Some point.now }
    requires hints { AreHints (place_of place.now) p arrivals.old }
    ensures { AreHints (place_of place.now) p arrivals.new }
{
    let end = end_of(edge, &point.instr);
    if end < 4096 && is_stale(arrivals[end]) && comes_alike(place, edge.from) {
        let hint = arrival(arrivals, usize::from(edge.from));
        let brought = behind(place.image, Followed { p, hint }, edge, point);
        if !is_stale(brought) {
            arrivals[end] = brought;
            waits.put(end as u16);
        }
    }
}

/// The same of both edges of the instruction at a pc, which no longer waits.
fn arrive_from(arrivals: &mut Arrivals, waits: &mut Pending, place: &Place, p: u8, from: u16)
    requires low { from < 4096 }
    requires hints { AreHints (place_of place.now) p arrivals.old }
    ensures { AreHints (place_of place.now) p arrivals.new }
{
    waits.take(from);
    if let Some(point) = place.image.place(from) {
        let along = Edge {
            from,
            branch: false,
        };
        let aside = Edge { from, branch: true };
        arrive_along(arrivals, waits, place, p, along, point);
        arrive_along(arrivals, waits, place, p, aside, point);
    }
}

/// The same of those of the routine's instructions that wait, the first of them first, and whether one of them did.
fn sweep_ahead(arrivals: &mut Arrivals, waits: &mut Pending, place: &Place, p: u8) -> bool
    requires { AreHints (place_of place.now) p arrivals.old }
    ensures { AreHints (place_of place.now) p arrivals.new }
{
    let mut start = place.image.start(place.r);
    let end = start + place.routine.count;
    let mut any = false;
    waits.settle();
    while let Some(from) = waits.first_in(start, end) {
        arrive_from(arrivals, waits, place, p, from);
        start = from + 1;
        any = true;
    }
    any
}

/// What the caller brings comes to the routine's first instruction, and nothing yet to the others.
fn arrivals_at_entry(place: &Place, p: u8) -> Arrivals
    ensures { AreHints (place_of place.now) p result }
{
    let mut arrivals = [None; 4096];
    let start = usize::from(place.image.start(place.r));
    if start < 4096 {
        arrivals[start] = entry_pointer(place.routine, p);
    }
    arrivals
}

/// What some path to each pc of the routine knows of the pointer, along edges that control takes exactly if it
/// reaches the place. The loop computes what is known after each instruction, and again if more becomes known before
/// it, which happens once. So there are at most as many sweeps as the routine has instructions.
pub(crate) fn all_arrivals(place: &Place, p: u8) -> Arrivals
    ensures { AreHints (place_of place.now) p result }
{
    let mut found = arrivals_at_entry(place, p);
    let mut waits = Pending::all();
    for _ in 0..place.routine.count {
        if !sweep_ahead(&mut found, &mut waits, place, p) {
            break;
        }
    }
    found
}
