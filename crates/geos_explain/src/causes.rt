//! Why no rows or no numbers of steps are found, in an author's words.

ghost use Rattle.std.specs.Prelude.{◌≡◌};
ghost use Rattle.geos_explain.specs.Causes.{is_refusable};

use crate::phrases::Phrase;
use crate::saying::{Fact, Saying, choose};
use geos_flow::{
    Apart, BackWay, ByNumber, ByWord, Cause, Coming, Emptied, LoopOn, LoopPair, LoopRing, Within,
    slots_agree,
};
use geos_image::{Instr, SlotState};
use geos_opcodes::SlotUse;
use geos_verify::{calls, falls_through, is_empty};
use std::alloc::{AllocError, Global};

/// A routine's name without the zeros after it.
fn name_text(name: &[u8; 16]) -> &[u8] {
    for end in 0..name.len() {
        if name[end] == 0 {
            return &name[..end];
        }
    }
    name
}

/// A CALL requires a slot empty that has a block, and leaves it empty; or it is one of a later routine, and leaves it empty.
fn put_emptied(out: &mut Saying, a: u8, emptied: &Emptied) {
    let name = name_text(&emptied.callee);
    let (at, slot) = (Fact::Line(emptied.at), Fact::Index(a));
    if emptied.stands_before {
        out.put3(Phrase::RequiresEmpty, at, slot, slot);
        out.put_of2(
            Phrase::SayIfPrivate,
            name,
            slot,
            Fact::Slot(a, emptied.state),
        )
    } else {
        out.put_of2(Phrase::LeavesEmpty, name, at, slot)
    }
}

/// The last CALL before a pc, or there, after which no instruction locks or unlocks the slot, or goes elsewhere.
fn last_call(instrs: &[Instr], from: u16, a: u8) -> Option<u16> {
    let mut found = None;
    for n in 0..u32::from(from) + 1 {
        let pc = n as u16;
        if let Some(i) = instrs.get(usize::from(pc)) {
            match i.opcode.uses().slot {
                SlotUse::LocksNew(_) | SlotUse::Locks(_) | SlotUse::Unlocks(_) if i.a == a =>
                    found = None,
                _ if calls(i.opcode) => found = Some(pc),
                _ if !falls_through(i.opcode) => found = None,
                _ => {}
            }
        }
    }
    found
}

/// A CALL left a slot as the `out` line of its routine says, which is to have what it has on another way.
fn put_left(out: &mut Saying, a: u8, call: u16, other: SlotState) {
    out.put2(Phrase::LeavesAsOut, Fact::Line(call), Fact::Index(a));
    if is_empty(other) {
        out.put(Phrase::UnlockAfterCall)
    } else {
        out.put1(Phrase::LetThereSay, Fact::Slot(a, other))
    }
}

/// The CALL that left a slot as it is where control comes so, and what helps, if one is named or comes last. Whether one is.
fn put_call(out: &mut Saying, instrs: &[Instr], a: u8, coming: &Coming, other: SlotState) -> bool {
    if let Some(Some(emptied)) = coming.emptied.get(usize::from(a))
        && slots_agree(emptied.state, other)
    {
        put_emptied(out, a, emptied);
        return true;
    }
    let Some(edge) = coming.from else {
        return false;
    };
    let Some(call) = last_call(instrs, edge.from, a) else {
        return false;
    };
    put_left(out, a, call, other);
    true
}

/// The same of each slot that differs.
fn put_calls(out: &mut Saying, instrs: &[Instr], coming: &Coming, other: &Coming) -> bool {
    let mut any = false;
    for a in 0..4 {
        let (state, other) = (coming.row.slots[a], other.row.slots[a]);
        if !slots_agree(state, other) && put_call(out, instrs, a as u8, coming, other) {
            any = true;
        }
    }
    any
}

/// Whether the instruction at a pc can be refused, and goes to its label then.
fn is_refusable(instrs: &[Instr], from: u16) -> bool
    ensures { result ≡ is_refusable instrs.now from }
{
    match instrs.get(usize::from(from)) {
        Some(i) => i.opcode.operands().refusable,
        None => false,
    }
}

/// Where control comes from.
fn put_from(out: &mut Saying, instrs: &[Instr], coming: &Coming) {
    let Some(edge) = coming.from else {
        return out.put(Phrase::FromEntry);
    };
    let refused = edge.branch && is_refusable(instrs, edge.from);
    let from = choose(refused, Phrase::FromRefusal, Phrase::From);
    out.put1(from, Fact::Line(edge.from))
}

/// What a slot has.
fn put_state(out: &mut Saying, a: u8, state: SlotState) {
    if is_empty(state) {
        out.put1(Phrase::EmptySlot, Fact::Index(a))
    } else {
        out.slot(a, state)
    }
}

/// How control comes to a place, and the slots that differ in more than marks from those of another way.
fn put_coming(out: &mut Saying, instrs: &[Instr], coming: &Coming, other: &Coming) {
    put_from(out, instrs, coming);
    for a in 0..4 {
        let state = coming.row.slots[a];
        if !slots_agree(state, other.row.slots[a]) {
            put_state(out, a as u8, state)
        }
    }
}

/// Another label for the instruction by whose refusal control comes so, if it does.
fn put_label(out: &mut Saying, instrs: &[Instr], coming: &Coming) {
    if let Some(edge) = coming.from {
        if edge.branch && is_refusable(instrs, edge.from) {
            out.put1(Phrase::AnotherLabelOr, Fact::Line(edge.from));
        }
    }
}

/// Slots that differ where paths join, with the CALLs because of which they do, or another cure.
fn put_apart(out: &mut Saying, instrs: &[Instr], apart: &Apart) {
    out.put1(Phrase::AtJoin, Fact::Line(apart.to));
    put_coming(out, instrs, &apart.first, &apart.second);
    out.put(Phrase::Semicolon);
    put_coming(out, instrs, &apart.second, &apart.first);
    let first = put_calls(out, instrs, &apart.first, &apart.second);
    let second = put_calls(out, instrs, &apart.second, &apart.first);
    if !first && !second {
        put_alike(out, instrs, apart)
    }
}

/// What helps if no CALL does.
fn put_alike(out: &mut Saying, instrs: &[Instr], apart: &Apart) {
    out.put(Phrase::Then);
    put_label(out, instrs, &apart.first);
    put_label(out, instrs, &apart.second);
    out.put(Phrase::LockAlike)
}

/// A sentence on an edge that closes a cycle, which may be that of a LOOP to a later target.
fn put_back(out: &mut Saying, phrase: Phrase, back: &BackWay) {
    let leads = choose(back.from < back.to, Phrase::LeadsOnTo, Phrase::GoesBackTo);
    let (from, to) = (Fact::Line(back.from), Fact::Line(back.to));
    out.put3(phrase, from, Fact::Phrase(leads), to)
}

/// A counter is touched by a CALL, within its loop or before it; and what helps.
fn put_touched(out: &mut Saying, phrase: Phrase, within: &Within) {
    let (at, counter) = (Fact::Line(within.at), Fact::Index(within.counter));
    out.put2(Phrase::CallTouches, at, counter);
    put_back(out, phrase, &within.back)
}

/// A counter is set in the loop of a way that leads back.
fn put_set_in(out: &mut Saying, counter: u8, at: u16, back: &BackWay) {
    out.put2(Phrase::CounterAt, Fact::Index(counter), Fact::Line(at));
    put_back(out, Phrase::InLoopWhere, back)
}

/// Two loops set the counters of each other.
fn put_in_turn(out: &mut Saying, both: &LoopPair) {
    out.put(Phrase::TwoLoops);
    put_set_in(out, both.other_counter, both.at, &both.back);
    out.put(Phrase::CommaAnd);
    put_set_in(out, both.counter, both.other_at, &both.other);
    out.put(Phrase::OutsideTheOther)
}

/// Loops set the counters of each other in a ring.
fn put_in_ring(out: &mut Saying, ring: &LoopRing) {
    out.put(Phrase::LoopsInRing);
    put_set_in(out, ring.next_counter, ring.at, &ring.back);
    out.put(Phrase::Comma);
    put_set_in(out, ring.third_counter, ring.next_at, &ring.next);
    out.put(Phrase::OutsideTheOthers)
}

/// Steps may pass the greatest number, or are not found, since a counter is set to a word.
fn put_word(out: &mut Saying, phrase: Phrase, by: &ByWord) {
    let (word, most) = (Fact::Index(by.word), Fact::Count(by.most));
    out.put3(phrase, word, most, Fact::Line(by.at))
}

/// A counter is set to a number that is too high, and what helps.
fn put_number(out: &mut Saying, phrase: Phrase, by: &ByNumber) {
    let (counter, number) = (Fact::Index(by.counter), Fact::Count(by.number));
    out.put3(phrase, counter, number, Fact::Line(by.at))
}

/// Nothing sets the counter of a LOOP on a path to it.
fn put_not_set(out: &mut Saying, own: &LoopOn) {
    out.put1(Phrase::NothingSets, Fact::Index(own.counter));
    put_back(out, Phrase::OnPathToLoop, &own.back)
}

/// The sentence on the counter of a loop, or on no counter.
fn put_counter(out: &mut Saying, cause: &Cause) {
    match cause {
        Cause::SetWithin(within) | Cause::SetAgain(within) => {
            let (counter, at) = (Fact::Index(within.counter), Fact::Line(within.at));
            out.put2(Phrase::CounterSetAt, counter, at);
            put_back(out, Phrase::SetWithinLoop, &within.back)
        }
        Cause::TouchedWithin(within) => put_touched(out, Phrase::TouchedWithinLoop, within),
        Cause::TouchedBefore(within) => put_touched(out, Phrase::TouchedBeforeLoop, within),
        _ => put_loop(out, cause),
    }
}

/// The sentence on a loop for which no steps are found, with a cure, or on no loop.
fn put_loop(out: &mut Saying, cause: &Cause) {
    match cause {
        Cause::NoLoop(back) => put_back(out, Phrase::NoLoop, back),
        Cause::GivenUp(back) => put_back(out, Phrase::GivenUp, back),
        Cause::NoSteps(back) => put_back(out, Phrase::NoSteps, back),
        Cause::Unfound(back) => put_back(out, Phrase::Unfound, back),
        _ => out.put(plain(cause)),
    }
}

/// The sentence if no place is named.
fn plain(cause: &Cause) -> Phrase {
    match cause {
        Cause::StepsPass => Phrase::StepsPass,
        Cause::StepsMayPass => Phrase::StepsMayPass,
        Cause::Unknown => Phrase::NoStepsFound,
        _ => Phrase::Nothing,
    }
}

/// Why no rows or no numbers of steps are found.
fn put_cause(out: &mut Saying, instrs: &[Instr], cause: &Cause) {
    match cause {
        Cause::SlotsDiffer(apart) => put_apart(out, instrs, apart),
        Cause::NotSet(own) => put_not_set(out, own),
        Cause::InTurn(both) => put_in_turn(out, both),
        Cause::InRing(ring) => put_in_ring(out, ring),
        Cause::WordUnbounded(by) => put_word(out, Phrase::WordUnbounded, by),
        Cause::WordDear(by) => {
            put_word(out, Phrase::WordDear, by);
            out.put1(Phrase::WhichSets, Fact::Index(by.counter))
        }
        Cause::NumberHigh(by) => put_number(out, Phrase::NumberHigh, by),
        Cause::NumberDear(by) => put_number(out, Phrase::NumberDear, by),
        _ => put_counter(out, cause),
    }
}

/// The line that says why no rows or no numbers of steps are found for instructions. `lines` has the number of each one's line,
/// as `geos_source::parse` gives them.
pub fn explain_cause(
    alloc: Global,
    lines: &[u32],
    instrs: &[Instr],
    cause: &Cause,
) -> Result<Vec<u8>, AllocError> {
    let mut out = Saying::new(alloc, lines);
    put_cause(&mut out, instrs, cause);
    out.text("\n");
    out.finish()
}
