//! Which ways bring a pointer to an instruction, the first that does and the first that does not, and which instructions lose it.

ghost use Rattle.std.specs.Prelude.{◌≡◌, Some, slice_get, ◌<◌, false, length};
ghost use Rattle.geos_verify.specs.Rows.{is_stale};
ghost use Rattle.geos_explain.specs.Places.{place_of};
ghost use Rattle.geos_explain.specs.Ways.{is_as, entry_pointer, empty_slot, empty_along, empty_on, is_as_sought, with_hint, sets, forgets};
ghost use Rattle.geos_explain.specs.Ways.{loses, is_sought};
ghost use Rattle.geos_verify.specs.Places.{places};
ghost use Rattle.geos_explain.specs.Lost.{FindsWay, IsBringing, IsSought, IsWay};

use crate::filled::Filled;
use crate::led::is_reached;
use crate::place::Place;
use crate::routines::{agrees, is_inside};
use geos_flow::{Counting, Edge};
use geos_image::{Instr, Opcode, Pointer, Routine, Row};
use geos_opcodes::PointerUse;
use geos_verify::{Place as KnownPlace, has_edge, leads_nowhere, pointer_at};

/// A way to an instruction.
#[derive(Clone, Copy)]
pub(crate) enum Way {
    /// From the routine's caller.
    Entry,
    /// From an instruction.
    Along(Edge),
}

/// Which paths are searched.
#[derive(Clone, Copy)]
pub(crate) struct Sought {
    /// The pointer.
    pub p: u8,
    /// Whether they bring it.
    pub known: bool,
    /// Whether control reaches where they come from.
    pub reached: bool,
}

/// A pointer that is followed to an instruction.
#[derive(Clone, Copy)]
pub(crate) struct Followed {
    pub p: u8,
    /// What is known of it on some path to the place.
    pub hint: Option<Pointer>,
}

/// Whether nothing is known of the pointer.
pub(crate) fn is_stale(pointer: Option<Pointer>) -> bool
    ensures { result ≡ is_stale pointer }
{
    pointer.is_none()
}

/// Whether the pointer is known, or unknown, as `known` says.
pub(crate) fn is_as(known: bool, pointer: Option<Pointer>) -> bool
    ensures { result ≡ is_as known pointer }
{
    if known {
        !is_stale(pointer)
    } else {
        is_stale(pointer)
    }
}

/// What the routine's caller brings of the pointer: what the entry row knows of it, unless it leads into an empty slot, since no
/// row inside the routine may know such a pointer.
pub(crate) fn entry_pointer(routine: &Routine, p: u8) -> Option<Pointer>
    ensures { result ≡ entry_pointer routine.now p }
{
    let pointer = pointer_at(&routine.entry, p);
    if leads_nowhere(&routine.entry.slots, pointer) {
        None
    } else {
        pointer
    }
}

/// The slot that the row's pointer leads into, if that is empty.
fn empty_slot(row: &Row, p: u8) -> Option<u8>
    ensures { result ≡ empty_slot row.now p }
{
    match pointer_at(row, p) {
        Some(pointer) if leads_nowhere(&row.slots, Some(pointer)) => Some(pointer.slot),
        _ => None,
    }
}

/// The same of the pointer after the instruction, on an edge that it has.
fn empty_along(image: &Filled, p: u8, edge: Edge, point: &KnownPlace) -> Option<u8>
    requires { slice_get (places image.now) edge.from ≡ Some point.now }
    ensures { result ≡ empty_along image.now p edge point.now }
{
    if has_edge(&point.instr, edge.branch) {
        empty_slot(&image.behind(edge.from, &point.row, edge.branch), p)
    } else {
        None
    }
}

/// The slot that the pointer leads into as the way brings it, if that is empty there.
#[tactic(auto, unfolding(crate::specs::Ways::empty_from))]
pub(crate) fn empty_on(place: &Place, p: u8, way: Way) -> Option<u8>
    ensures { result ≡ empty_on (place_of place.now) p way }
{
    match way {
        Way::Entry => empty_slot(&place.routine.entry, p),
        Way::Along(edge) => match place.image.place(edge.from) {
            Some(point) => empty_along(place.image, p, edge, point),
            None => None,
        },
    }
}

/// Whether control follows the edge of the instruction, and the pointer is known after it, as the search requires.
pub(crate) fn is_as_sought(place: &Place, sought: Sought, edge: Edge, point: &KnownPlace) -> bool
    requires { slice_get (places place.now.image.now) edge.from ≡ Some point.now }
    ensures { result ≡ is_as_sought (place_of place.now) sought edge point.now }
{
    agrees(
        sought.reached,
        is_reached(place.image, place.marks, edge.from),
    ) && has_edge(&point.instr, edge.branch)
        && is_as(
            sought.known,
            pointer_at(
                &place.image.behind(edge.from, &point.row, edge.branch),
                sought.p,
            ),
        )
}

/// The row; if it knows nothing of the pointer, with what is known of it on some way.
pub(crate) fn with_hint(row: &Row, followed: Followed) -> Row
    ensures { result ≡ with_hint row.now followed }
{
    let mut hinted = *row;
    if followed.p < 4 && is_stale(pointer_at(row, followed.p)) {
        hinted.pointers[usize::from(followed.p)] = followed.hint;
    }
    hinted
}

/// Whether the instruction sets the pointer.
pub(crate) fn sets(i: &Instr, pointer: PointerUse, p: u8) -> bool
    ensures { result ≡ sets i.now pointer p }
{
    match pointer {
        PointerUse::Sets => i.b == p,
        _ => false,
    }
}

/// Whether after the instruction nothing counts of what was known before it.
pub(crate) fn forgets(opcode: Opcode) -> bool
    ensures { result ≡ forgets opcode }
{
    match opcode {
        Opcode::Call => true,
        _ => false,
    }
}

/// Whether the instruction loses the pointer on this edge: it was to set it and was refused, or makes it stale: it is known before, and
/// not after.
pub(crate) fn loses(image: &Filled, followed: Followed, edge: Edge, point: &KnownPlace) -> bool
    requires { slice_get (places image.now) edge.from ≡ Some point.now }
    ensures { result ≡ loses image.now followed edge point.now }
{
    let i = &point.instr;
    if edge.branch && sets(i, i.opcode.uses().pointer, followed.p) {
        return true;
    }
    let row = with_hint(&point.row, followed);
    has_edge(i, edge.branch)
        && !is_stale(pointer_at(&row, followed.p))
        && is_stale(pointer_at(&image.behind(edge.from, &row, edge.branch), followed.p))
}

/// The edges of the place's routine that are sought.
#[derive(Clone, Copy)]
struct Seeking<'a> {
    place: &'a Place<'a>,
    sought: Sought,
}

impl<'a> Counting for Seeking<'a> {
    ghost counted = { λ s edge end. is_sought (place_of s.place.now) s.sought edge };

    #[tactic(auto, unfolding(crate::specs::Ways::is_sought))]
    fn counts(&self, edge: Edge, _end: u16) -> bool {
        match self.place.image.place(edge.from) {
            Some(point) => {
                is_inside(self.place, edge.from)
                    && is_as_sought(self.place, self.sought, edge, point)
            }
            None => false,
        }
    }
}

/// The first edge to the pc that is searched for. If the pc is the routine's first, and the caller brings the pointer
/// or not as required, it is the entry; otherwise an edge from an instruction of the routine.
fn way_to(place: &Place, sought: Sought, to: u16) -> Option<Way>
    requires { to < length place.now.image.now.points }
    ensures { FindsWay (place_of place.now) (λ way. IsSought (place_of place.now) sought to way) result }
{
    if to == place.image.start(place.r)
        && is_as(sought.known, entry_pointer(place.routine, sought.p))
    {
        return Some(Way::Entry);
    }
    match place
        .image
        .graph()
        .first_into(&Seeking { place, sought }, to)
    {
        Some(edge) => Some(Way::Along(edge)),
        None => None,
    }
}

/// The first way to a pc that brings the pointer, from where control comes as it comes to the place.
pub(crate) fn bringing(place: &Place, p: u8, to: u16) -> Option<Way>
    requires { to < length place.now.image.now.points }
    ensures { FindsWay (place_of place.now) (λ way. IsBringing (place_of place.now) p to way) result }
{
    let sought = Sought {
        p,
        known: true,
        reached: is_reached(place.image, place.marks, place.pc),
    };
    way_to(place, sought, to)
}

/// The first way to a pc that does not; if there is none, the first from where control does not come so.
pub(crate) fn losing(place: &Place, p: u8, to: u16) -> Option<Way>
    requires { to < length place.now.image.now.points }
    ensures { FindsWay (place_of place.now) (λ way. IsWay (place_of place.now) p false way to) result }
{
    let sought = Sought {
        p,
        known: false,
        reached: is_reached(place.image, place.marks, place.pc),
    };
    match way_to(place, sought, to) {
        Some(way) => Some(way),
        None => {
            let elsewhere = Sought {
                reached: !sought.reached,
                ..sought
            };
            way_to(place, elsewhere, to)
        }
    }
}
