//! Which pointers may be stale where they are used, and where and by what they became so.

ghost use Rattle.std.specs.Prelude.{◌≡◌};
ghost use Rattle.geos_explain.specs.Places.{place_of};
ghost use Rattle.geos_explain.specs.Lost.{IsFinding, IsLost};
ghost use Rattle.geos_explain.specs.Stale.{refused_on};

use crate::cures::put_kept_wish;
use crate::filled::Filled;
use crate::finding::{End, Finding, Loss, Meeting};
use crate::forgotten::Item;
use crate::phrases::Phrase;
use crate::place::Place;
use crate::saying::{Fact, Saying, choose};
use crate::trace::traced;
use crate::ways::{Followed, Way, forgets, is_stale, sets, with_hint};
use geos_flow::end_of;
use geos_image::{Instr, Opcode, Row};
use geos_opcodes::{PointerUse, SlotUse};
use geos_verify::{pointer_at, uses_at};

/// The pc of the instruction whose refusal the way is, if it is one: it can be refused, and goes to its label then.
#[tactic(auto, unfolding(crate::specs::Stale::is_refusable))]
fn refused_on(image: &Filled, way: Way) -> Option<u16>
    ensures { result ≡ refused_on image.now way }
{
    match way {
        Way::Along(edge) if edge.branch => match image.point(edge.from) {
            Some(point) if point.instr.opcode.operands().refusable => Some(edge.from),
            _ => None,
        },
        _ => None,
    }
}

/// Words, the source of a path, and whether it begins with a refusal.
fn put_way(out: &mut Saying, place: &Place, words: Phrase, way: Way) {
    out.put(words);
    let Way::Along(edge) = way else {
        return out.put(Phrase::TheInLine);
    };
    let refused = refused_on(place.image, way).is_some();
    let from = choose(refused, Phrase::TheRefusalAt, Phrase::Fact);
    out.put1(from, Fact::Line(edge.from))
}

/// The name of a routine, if there is one.
pub(crate) fn name_at<'a>(image: &'a Filled, r: u16) -> &'a [u8] {
    if r < image.count() {
        image.routine(r).name_text()
    } else {
        &[]
    }
}

/// What the instruction did to a pointer by what it does to its slot.
fn put_use_loss(out: &mut Saying, slot: SlotUse, p: u8) {
    let words = match slot {
        SlotUse::Moves => Phrase::MayHaveMoved,
        SlotUse::Unlocks(_) => Phrase::UnlockedItsBlock,
        SlotUse::MovesGroup => Phrase::MovesItems,
        _ => Phrase::LeavesItStale,
    };
    out.put1(words, Fact::Index(p))
}

/// It moved chunks of slot a, and the pointer leads into slot b.
fn put_move_loss(out: &mut Saying, p: u8, a: u8, b: u8) {
    let (p, a, b) = (Fact::Index(p), Fact::Index(a), Fact::Index(b));
    out.put3(Phrase::MayHaveMovedOther, a, b, p);
    out.put2(Phrase::OrTellApart, a, b)
}

/// The instruction was to set the pointer and was refused, and went to a pc; what helps. If other instructions are on the path from there, it
/// is to be fetched after them.
fn put_refusal_cure(out: &mut Saying, place: &Place, to: usize, meeting: Option<Meeting>) {
    let Some(m) = meeting else {
        let here = to == usize::from(place.pc);
        return out.put(choose(here, Phrase::AnotherLabel, Phrase::FetchBefore));
    };
    match m.lost {
        Way::Along(lost) if to != usize::from(m.to) => {
            out.put1(Phrase::FetchAfter, Fact::Line(lost.from))
        }
        _ => out.put(Phrase::AnotherLabel),
    }
}

/// The instruction was to set the pointer and was refused, and went to a pc; and what helps. At a return nothing does but to do without the
/// pointer.
fn put_own_refusal(out: &mut Saying, place: &Place, p: u8, to: usize, meeting: Option<Meeting>) {
    out.put(Phrase::NotSetIfRefused);
    if let Opcode::Ret = place.i.opcode {
        out.put1(Phrase::LeaveOutOfOut, Fact::Index(p))
    } else {
        put_refusal_cure(out, place, to, meeting)
    }
}

/// A CALL lost the pointer, which leads so before it.
fn put_call_loss(out: &mut Saying, place: &Place, item: Item, r: u16, row: &Row) {
    out.put_of(
        Phrase::LeavesOnlyOut,
        name_at(place.image, r),
        Fact::Nothing,
    );
    put_kept_wish(out, place, item, r, row)
}

/// The instruction lost the pointer, of which this row knows.
fn put_loss(out: &mut Saying, place: &Place, p: u8, i: &Instr, row: &Row) {
    let slot = i.opcode.uses().slot;
    match pointer_at(row, p) {
        Some(pointer) if forgets(i.opcode) => {
            put_call_loss(out, place, Item::Leads(p, pointer), i.imm, row)
        }
        Some(pointer) if matches!(slot, SlotUse::Moves) && i.a != pointer.slot => {
            put_move_loss(out, p, i.a, pointer.slot)
        }
        _ => put_use_loss(out, slot, p),
    }
}

/// The instruction lost the pointer on an edge.
fn put_lost_by(out: &mut Saying, place: &Place, p: u8, loss: Loss, meeting: Option<Meeting>)
    requires { IsLost (place_of place.now) p loss }
{
    let edge = loss.edge;
    if let Some(point) = place.image.place(edge.from) {
        let i = &point.instr;
        out.put2(Phrase::WordAt, Fact::Word(i.opcode), Fact::Line(edge.from));
        if edge.branch && sets(i, i.opcode.uses().pointer, p) {
            put_own_refusal(out, place, p, end_of(edge, i), meeting)
        } else {
            let row = with_hint(&point.row, Followed { p, hint: loss.hint });
            put_loss(out, place, p, i, &row)
        }
    }
}

/// Another label for the instruction whose refusal does not bring the pointer, if one does not.
fn put_other_label(out: &mut Saying, place: &Place, meeting: Option<Meeting>) {
    if let Some(m) = meeting
        && let Some(from) = refused_on(place.image, m.lost)
    {
        out.put1(Phrase::OrAnotherLabel, Fact::Line(from))
    }
}

/// The pointer is not known from the routine's beginning on; a caller that is a routine may bring it.
fn put_unset(out: &mut Saying, place: &Place, p: u8, meeting: Option<Meeting>) {
    out.put1(Phrase::NotSetFromStart, Fact::Index(p));
    put_other_label(out, place, meeting);
    if !place.routine.public {
        out.put1(Phrase::OrSayPointer, Fact::Index(p))
    }
}

/// No path leads to a pc, or here.
fn put_unreached(out: &mut Saying, place: &Place, to: u16) {
    let words = choose(
        to == place.pc,
        Phrase::NoPathLeadsHere,
        Phrase::NoPathLeadsTo,
    );
    out.put1(words, Fact::Line(to))
}

/// A way brings the pointer into an empty slot.
fn put_nowhere_by(out: &mut Saying, place: &Place, p: u8, way: Way, slot: u8) {
    put_way(out, place, Phrase::SemicolonFrom, way);
    out.put2(Phrase::LeadsIntoEmpty, Fact::Index(p), Fact::Index(slot));
    let words = match way {
        Way::Entry => Phrase::SayWhatSlotHas,
        Way::Along(_) => Phrase::FetchAgain,
    };
    out.put1(words, Fact::Index(slot))
}

/// Why the pointer is not known, if no instruction is found that lost it.
fn put_end(out: &mut Saying, place: &Place, p: u8, found: Finding)
    requires { IsFinding (place_of place.now) p found }
{
    match found.end {
        None => out.put(Phrase::ColonFetchAgain),
        Some(End::Unset) => put_unset(out, place, p, found.meeting),
        Some(End::Unreached(to)) => put_unreached(out, place, to),
        Some(End::Merged(to)) => out.put2(Phrase::KnownOnEachPath, Fact::Index(p), Fact::Line(to)),
        Some(End::Nowhere(way, slot)) => put_nowhere_by(out, place, p, way, slot),
    }
}

/// Ways meet of which one brings the pointer and another does not.
fn put_meeting(out: &mut Saying, place: &Place, p: u8, m: Meeting) {
    if m.to == place.pc {
        out.put1(Phrase::SemicolonPointer, Fact::Index(p))
    } else {
        out.put2(Phrase::AtPointer, Fact::Line(m.to), Fact::Index(p))
    }
    put_way(out, place, Phrase::IsKnownFrom, m.known);
    put_way(out, place, Phrase::AndNotFrom, m.lost)
}

/// Writes the join at which one path brings the pointer and another does not; then what lost the pointer, or why the
/// row does not know it.
fn put_finding(out: &mut Saying, place: &Place, p: u8, found: Finding)
    requires { IsFinding (place_of place.now) p found }
{
    if let Some(m) = found.meeting {
        put_meeting(out, place, p, m)
    }
    match found.lost {
        Some(loss) => put_lost_by(out, place, p, loss, found.meeting),
        None => put_end(out, place, p, found),
    }
}

/// What is found of the pointer, if there is one.
pub(crate) fn put_traced(out: &mut Saying, place: &Place, pointer: Option<u8>) {
    if let Some(p) = pointer {
        put_finding(out, place, p, traced(place, p))
    }
}

/// The pointers that the instruction uses, each once, of which the row knows nothing.
pub(crate) fn stale_used(place: &Place) -> [Option<u8>; 2] {
    let i = place.i;
    let first = match uses_at(i).pointer {
        PointerUse::Copies if i.a != i.b && is_stale(pointer_at(place.row, i.a)) => Some(i.a),
        _ => None,
    };
    let second = if is_stale(pointer_at(place.row, i.b)) {
        Some(i.b)
    } else {
        None
    };
    [first, second]
}

/// A pointer that the instruction uses may be stale, and where and by what it became so.
pub(crate) fn put_stale(out: &mut Saying, place: &Place) {
    let [first, second] = stale_used(place);
    if let Some(p) = first {
        out.put1(Phrase::Pointer, Fact::Index(p))
    }
    if let Some(p) = second {
        out.put1(Phrase::Pointer, Fact::Index(p))
    }
    out.put(Phrase::MayBeStale);
    put_traced(out, place, first);
    put_traced(out, place, second)
}
