//! What is wrong at a point that is refused, rule by rule.

ghost use Rattle.std.specs.Prelude.{◌≡◌};
ghost use Rattle.geos_verify.specs.RuleText.{rule_number};

use crate::budgets::put_over;
use crate::calls::{calls_to, put_lent_items};
use crate::cures::{put_cures, put_forgotten};
use crate::forgotten::{Item, put_moved_round};
use crate::held::{put_exit, put_written};
use crate::lacks::{as_marked, put_lacking};
use crate::led::is_reached;
use crate::phrases::Phrase;
use crate::place::Place;
use crate::public::put_public;
use crate::saying::{Fact, Saying, choose};
use crate::stale::put_stale;
use crate::steps::put_unpaid;
use crate::uses::{
    changed_slot, past_at, past_item, put_held, put_nowhere, put_past, put_past_wish, put_slot,
    put_unmarked,
};
use geos_image::{Opcode, Routine};
use geos_verify::{Rule, after, falls_through, has_edge, has_place, slot_state};

/// Control leaves the routine.
fn put_leaves(out: &mut Saying, place: &Place) {
    let start = u32::from(place.image.start(place.r));
    let next = u32::from(place.pc) + 1;
    if falls_through(place.i.opcode) && !has_place(start, place.routine, next) {
        out.put(Phrase::PassesEndOfRoutine)
    } else {
        out.put_pc(place.i.target, " L");
        out.put(Phrase::OutsideOfRoutine)
    }
}

/// The row requires more than the routine's entry row says, or the routine is public and requires or leaves what a caller from outside
/// does not have.
fn put_entry(out: &mut Saying, place: &Place) {
    let before = out.len();
    put_lacking(out, &place.routine.entry, place.row);
    if out.len() == before {
        return put_public(out, place.routine);
    }
    out.put_are(before, Phrase::RequiredHere)
}

/// The routine that a CALL names is not before that of the place.
fn put_later(out: &mut Saying, place: &Place, callee: &Routine) {
    let name = callee.name_text();
    if place.i.imm == place.r {
        return out.put_of(Phrase::CallsItself, name, Fact::Nothing);
    }
    out.put_of(Phrase::ComesAfter, name, Fact::Nothing);
    let both = calls_to(place.image, place.i.imm, place.r);
    let cure = choose(both, Phrase::CallEachOther, Phrase::MoveBefore);
    out.put_of(cure, name, Fact::Nothing)
}

/// The entry row of the routine that a CALL names requires more than the row says.
fn put_lacking_at_call(out: &mut Saying, place: &Place, callee: &Routine) {
    let before = out.len();
    put_lacking(out, place.row, &callee.entry);
    out.put_are(before, Phrase::RequiredBy);
    out.put_of(Phrase::NameNotKnownHere, callee.name_text(), Fact::Nothing)
}

/// The routine that a CALL names is not before that of the place, or its entry row requires more than the row says; and what helps.
fn put_call(out: &mut Saying, place: &Place) {
    let Opcode::Call = place.i.opcode else {
        return;
    };
    let callee = place.image.routine(place.i.imm);
    if place.i.imm < place.r {
        put_lacking_at_call(out, place, callee);
        put_lent_items(out, place, callee);
        put_cures(out, place, &callee.entry)
    } else {
        put_later(out, place, callee)
    }
}

/// What the row at the end of an edge requires, and what is known after the edge does not say, if there is such an edge. Whether there is
/// something.
fn put_along(out: &mut Saying, place: &Place, branch: bool, to: u16) -> bool {
    if !has_edge(place.i, branch) {
        return false;
    }
    let Some(next) = place.image.place(to) else {
        return false;
    };
    let before = out.len();
    let row = after(place.image.image(), place.pc, place.row, branch);
    put_lacking(out, &row, &next.row);
    if out.len() == before {
        return false;
    }
    out.put_are(before, Phrase::RequiredAt);
    out.put1(Phrase::LineNotKnownHere, Fact::Line(to));
    true
}

/// A row does not fit that at the end of an edge: the edge to the next instruction is tried first.
fn put_edge(out: &mut Saying, place: &Place) {
    if !put_along(out, place, false, place.pc + 1) {
        put_along(out, place, true, place.i.target);
    }
}

/// A read or a write may pass the end of what its pointer leads to; why that is not known to be wide enough: an instruction moves
/// the index going round, or a CALL forgets it; and what helps.
fn put_past_here(out: &mut Saying, place: &Place) {
    let past = past_at(place.i, place.row);
    let item = past_item(place.i, place.row, past);
    put_past(out, place.i, place.row, past);
    put_moved_round(out, place, item);
    let forgotten = put_forgotten(out, place, item);
    put_past_wish(out, place, past, forgotten)
}

/// A block is changed that may not be marked, what marks it, and which CALL forgets the mark.
fn put_unmarked_here(out: &mut Saying, place: &Place) {
    put_unmarked(out, place.i, place.row);
    let a = changed_slot(place.i, place.row);
    let mark = Item::Slot(a, as_marked(slot_state(place.row, a)));
    put_forgotten(out, place, mark);
}

/// A slot does not have what the instruction requires, and the CALL that forgets what it had, or another cure.
fn put_slot_here(out: &mut Saying, place: &Place) {
    let a = place.i.a;
    if put_slot(out, place.i, place.row) || put_forgotten(out, place, Item::Held(a)) {
        return;
    }
    out.put1(Phrase::LockOneInto, Fact::Index(a));
    if !place.routine.public {
        out.put1(Phrase::OrSaySlot, Fact::Index(a))
    }
}

/// A row does not fit the exit row, and what helps.
fn put_exit_here(out: &mut Saying, place: &Place) {
    put_exit(out, place);
    put_cures(out, place, &place.routine.exit)
}

/// Writes what is wrong at the place, by the rule. If no path leads to the instruction, the advice is to remove it.
pub(crate) fn put_words(out: &mut Saying, place: &Place, rule: Rule) {
    match rule {
        Rule::LeavesRoutine => put_leaves(out, place),
        Rule::NamesEmptySlot => put_nowhere(out, place.row),
        Rule::EntryMisfit => put_entry(out, place),
        Rule::StalePointer => return put_stale(out, place),
        Rule::PassesEnd => put_past_here(out, place),
        Rule::ChangesUnmarked => put_unmarked_here(out, place),
        Rule::LocksIntoHeld => put_held(out, place.i, place.row),
        Rule::WrongSlot => put_slot_here(out, place),
        Rule::CommitsHeld => put_written(out, place),
        Rule::CallMisfit => put_call(out, place),
        Rule::ExitMisfit => put_exit_here(out, place),
        Rule::EdgeMisfit => put_edge(out, place),
        Rule::EdgeUnpaid => put_unpaid(out, place),
        Rule::OverBudget => put_over(out, place),
    }
    if !is_reached(place.image, place.marks, place.pc) {
        out.put(Phrase::NoPathLeadsHere)
    }
}

/// The number of the rule.
pub(crate) fn rule_number(rule: Rule) -> u64
    ensures { result ≡ rule_number rule }
{
    rule as u64
}

/// The line of the refusal by the rule.
pub(crate) fn put_refusal_line(out: &mut Saying, place: &Place, rule: Rule) {
    out.put1(Phrase::RefusedBy, Fact::Number(rule_number(rule)));
    put_words(out, place, rule);
    out.text("\n");
}
