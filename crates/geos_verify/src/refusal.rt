//! The rules at one point.

ghost use Rattle.std.specs.Prelude.{◌≡◌, ◌<◌, ◌≤◌, ◌+◌, length, true, false, slice_get, IfSome};
ghost use Rattle.geos_image.specs.Fields.{FieldsFit, TargetFits, CalleeFits};
ghost use Rattle.geos_image.specs.Keys.{falls_through, branches, gives};
ghost use Rattle.geos_verify.specs.Places.{places, RowAt};
ghost use Rattle.geos_verify.specs.Rows.{row_along, row_branching};
ghost use Rattle.geos_verify.specs.Rules.{has_place, returns, leaves_routine, entry_misfits, call_misfits, exit_misfits, misfits_at, names_empty_slot};
ghost use Rattle.geos_verify.specs.Rules.{edge_misfits, unpaid_along, unpaid_branching, edge_unpaid, over_budget, refusal, slot_misuse, GoesWithin};
ghost use Rattle.geos_verify.specs.Touched.{calls};
ghost use Rattle.geos_opcodes.specs.Facts.{uses_of};
ghost use Rattle.geos_verify.specs.Uses.{UsesFit};

use crate::body::Body;
use crate::bounds::keeps_bounds;
use crate::edges::{changes_bounds_alone, go_along, go_to_target};
use crate::enough::{fits, names_empty_slot};
use crate::misuse::{
    changes_unmarked, commits_with_held, locks_into_held, passes_end, stale_pointer, wrong_slot,
};
use crate::potentials::{is_within, pays_along, pays_branching};
use crate::public::{may_enter, may_leave};
use crate::rule::Rule;
use crate::touched::calls;
use crate::uses::uses_at;
use geos_image::{Image, Instr, Opcode, Potential, Routine, Row, branches, falls_through};
use geos_opcodes::{SlotUse, Uses};

/// Whether the pc is one of the routine's, which begins at `start`.
pub fn has_place(start: u32, routine: &Routine, pc: u32) -> bool
    requires { start ≤ 4096 }
    ensures { result ≡ has_place start routine.now.count pc }
{
    start <= pc && pc < start + u32::from(routine.count)
}

fn returns(opcode: Opcode) -> bool
    ensures { result ≡ returns opcode }
{
    match opcode {
        Opcode::Ret => true,
        _ => false,
    }
}

#[tactic(auto, unfolding(crate::specs::Rules::leaves_routine))]
fn leaves_routine(start: u16, routine: &Routine, pc: u16, i: &Instr) -> bool
    requires start { start ≤ 4096 }
    requires pc { pc ≤ 4096 }
    ensures value { result ≡ leaves_routine routine.now start pc i.now }
    ensures stays { result ≡ false → falls_through i.now.opcode ≡ true → pc + 1 < start + routine.now.count }
{
    let start = u32::from(start);
    falls_through(i.opcode) && !has_place(start, routine, u32::from(pc) + 1)
        || branches(i.opcode) && !has_place(start, routine, u32::from(i.target))
}

#[tactic(auto, unfolding(crate::specs::Rules::entry_misfits))]
fn entry_misfits(start: u16, routine: &Routine, pc: u16, row: &Row) -> bool
    ensures { result ≡ entry_misfits routine.now start pc row.now }
{
    pc == start
        && (!fits(&routine.entry, row)
            || routine.public
                && !(may_enter(&routine.entry) && may_leave(&routine.entry, &routine.exit)))
}

/// Whether the instruction calls a routine that is not below its own, which is r, or one whose
/// entry row the row does not fit.
#[tactic(auto, unfolding(crate::specs::Rules::call_misfits))]
fn call_misfits(image: &Image, r: u16, i: &Instr, row: &Row) -> bool
    requires { CalleeFits (length image.now.routines) i.now }
    ensures value { result ≡ call_misfits image.now r i.now row.now }
    ensures lower { result ≡ false → calls i.now.opcode ≡ true → i.now.imm < r }
{
    calls(i.opcode) && (r <= i.imm || !fits(row, &image.routine(i.imm).entry))
}

#[tactic(auto, unfolding(crate::specs::Rules::exit_misfits))]
fn exit_misfits(routine: &Routine, i: &Instr, row: &Row) -> bool
    ensures { result ≡ exit_misfits routine.now i.now row.now }
{
    returns(i.opcode) && !fits(row, &routine.exit)
}

/// Whether the row of the next instruction does not follow from what is known there. It follows if the image gives no row.
#[tactic(auto, unfolding(crate::specs::Rules::misfits_at))]
fn misfits_along(image: &Image, pc: u16, i: &Instr, uses: Uses, row: &Row) -> bool
    requires uses { uses ≡ uses_of i.now.opcode }
    requires fit { UsesFit uses i.now }
    requires fields { FieldsFit i.now.opcode i.now }
    requires callee { CalleeFits (length image.now.routines) i.now }
    requires next { pc + 1 < length image.now.points }
    requires pc { pc < 4096 }
    requires here { IfSome (slice_get image.now.points pc) (λ point. i.now ≡ point.instr) }
    requires known { RowAt image.now pc row.now }
    ensures { result ≡ misfits_at image.now (pc + 1) (row_along image.now i.now i.now.opcode row.now) }
{
    // If the image gives the same row here and there, the rest of the row implies itself.
    if image.repeats(pc) && changes_bounds_alone(i, uses) {
        return !keeps_bounds(i, row);
    }
    match image.given(pc + 1) {
        None => false,
        Some(given) => {
            let mut next = *row;
            go_along(image, i, uses, &mut next);
            !fits(&next, given)
        }
    }
}

/// Whether the row where control goes to the target does not fit the row there.
#[tactic(auto, unfolding(crate::specs::Rules::misfits_at))]
fn misfits_branching(image: &Image, i: &Instr, uses: Uses, row: &Row) -> bool
    requires uses { uses ≡ uses_of i.now.opcode }
    requires target { i.now.target < length image.now.points }
    requires given { gives image.now i.now.target ≡ true }
    ensures { result ≡ misfits_at image.now i.now.target (row_branching i.now i.now.opcode row.now) }
{
    let mut next = *row;
    go_to_target(i, uses, &mut next);
    !fits(&next, image.row(i.target))
}

/// Whether the row after an edge does not fit the row there.
#[tactic(auto, unfolding(crate::specs::Rules::edge_misfits))]
fn edge_misfits(body: &Body, pc: u16, i: &Instr, uses: Uses, row: &Row) -> bool
    requires uses { uses ≡ uses_of i.now.opcode }
    requires fit { UsesFit uses i.now }
    requires within { GoesWithin body.now.image.now body.now.r pc i.now }
    requires here { IfSome (slice_get body.now.image.now.points pc) (λ point. i.now ≡ point.instr) }
    requires known { RowAt body.now.image.now pc row.now }
    requires led { branches i.now.opcode ≡ true → gives body.now.image.now i.now.target ≡ true }
    ensures { result ≡ edge_misfits body.now.image.now pc i.now row.now }
{
    falls_through(i.opcode) && misfits_along(body.image, pc, i, uses, row)
        || branches(i.opcode) && misfits_branching(body.image, i, uses, row)
}

#[tactic(auto, unfolding(crate::specs::Rules::unpaid_along))]
fn unpaid_along(body: &Body, pc: u16, i: &Instr, row: &Row, potential: &Potential) -> bool
    requires within { GoesWithin body.now.image.now body.now.r pc i.now }
    requires next { pc + 1 < length body.now.image.now.points }
    ensures { result ≡ unpaid_along body.now.image.now pc i.now row.now potential.now }
{
    !pays_along(body, i, row, potential, body.image.potential(pc + 1))
}

#[tactic(auto, unfolding(crate::specs::Rules::unpaid_branching))]
fn unpaid_branching(image: &Image, i: &Instr, potential: &Potential) -> bool
    requires fields { FieldsFit i.now.opcode i.now }
    requires target { i.now.target < length image.now.points }
    ensures { result ≡ unpaid_branching image.now i.now potential.now }
{
    !pays_branching(i, potential, image.potential(i.target))
}

/// Whether the potential does not pay for an edge or for the return.
#[tactic(auto, unfolding(crate::specs::Rules::edge_unpaid))]
fn edge_unpaid(body: &Body, pc: u16, i: &Instr, row: &Row, potential: &Potential) -> bool
    requires { GoesWithin body.now.image.now body.now.r pc i.now }
    ensures { result ≡ edge_unpaid body.now.image.now pc i.now row.now potential.now }
{
    falls_through(i.opcode) && unpaid_along(body, pc, i, row, potential)
        || branches(i.opcode) && unpaid_branching(body.image, i, potential)
        || returns(i.opcode) && potential.constant == 0
}

/// Whether the potential at the first pc of a routine, which begins at `start`, is above the budget.
#[tactic(auto, unfolding(crate::specs::Rules::over_budget))]
pub fn over_budget(start: u16, routine: &Routine, pc: u16, potential: &Potential) -> bool
    ensures { result ≡ over_budget routine.now start pc potential.now }
{
    pc == start && !is_within(routine.budget, potential)
}

/// The lowest of the rules on locks into a slot, on the slot that is named and on commits that refuses the instruction, if one does.
// One look at the use for the three of them: most instructions do nothing with slots.
#[tactic(auto, unfolding(crate::specs::Rules::locks_into_held, crate::specs::Rules::wrong_slot, crate::specs::Rules::commits_with_held))]
fn slot_misuse(i: &Instr, slot: SlotUse, row: &Row) -> Option<Rule>
    requires { slot ≡ (uses_of i.now.opcode).slot }
    ensures { result ≡ slot_misuse i.now row.now }
{
    match slot {
        SlotUse::NoSlot => None,
        _ => {
            if locks_into_held(i, slot, row) {
                Some(Rule::LocksIntoHeld)
            } else if wrong_slot(i, slot, row) {
                Some(Rule::WrongSlot)
            } else if commits_with_held(i, slot, row) {
                Some(Rule::CommitsHeld)
            } else {
                None
            }
        }
    }
}

/// Whether a pointer of the row names an empty slot. The test is skipped if the caller knows that none does.
fn may_name_empty(row: &Row, names_none: bool) -> bool
    requires { names_none ≡ true → names_empty_slot row.now ≡ false }
    ensures { result ≡ names_empty_slot row.now }
{
    !names_none && names_empty_slot(row)
}

/// The lowest rule that refuses an instruction at `pc` of a routine, with what is known there. `names_none` says that the row is known
/// to name no empty slot.
fn refusal_of(
    body: &Body,
    pc: u16,
    i: &Instr,
    row: &Row,
    potential: &Potential,
    names_none: bool,
) -> Option<Rule>
    requires names { names_none ≡ true → names_empty_slot row.now ≡ false }
    requires there { pc < length body.now.image.now.points }
    requires fields { FieldsFit i.now.opcode i.now }
    requires target { TargetFits (length body.now.image.now.points) i.now }
    requires callee { CalleeFits (length body.now.image.now.routines) i.now }
    requires here { IfSome (slice_get body.now.image.now.points pc) (λ point. i.now ≡ point.instr) }
    requires known { RowAt body.now.image.now pc row.now }
    requires led { branches i.now.opcode ≡ true → gives body.now.image.now i.now.target ≡ true }
    ensures { result ≡ refusal body.now.image.now body.now.r body.now.routine.now body.now.start pc
        (record { instr = i.now; row = row.now; potential = potential.now }) }
{
    let routine = body.routine;
    let start = body.start;
    let uses = uses_at(i);
    if leaves_routine(start, routine, pc, i) {
        Some(Rule::LeavesRoutine)
    } else if may_name_empty(row, names_none) {
        Some(Rule::NamesEmptySlot)
    } else if entry_misfits(start, routine, pc, row) {
        Some(Rule::EntryMisfit)
    } else if stale_pointer(i, uses.pointer, row) {
        Some(Rule::StalePointer)
    } else if passes_end(i, uses.pointer, row) {
        Some(Rule::PassesEnd)
    } else if changes_unmarked(i, uses, row) {
        Some(Rule::ChangesUnmarked)
    } else if let Some(rule) = slot_misuse(i, uses.slot, row) {
        Some(rule)
    } else if call_misfits(body.image, body.r, i, row) {
        Some(Rule::CallMisfit)
    } else if exit_misfits(routine, i, row) {
        Some(Rule::ExitMisfit)
    } else if edge_misfits(body, pc, i, uses, row) {
        Some(Rule::EdgeMisfit)
    } else if edge_unpaid(body, pc, i, row, potential) {
        Some(Rule::EdgeUnpaid)
    } else if over_budget(start, routine, pc, potential) {
        Some(Rule::OverBudget)
    } else {
        None
    }
}

/// The lowest rule that refuses the place at `pc` of a routine, where `row` is known. `names_none` says that it is known to name no
/// empty slot.
pub(crate) fn refusal(body: &Body, pc: u16, row: &Row, names_none: bool) -> Option<Rule>
    requires there { pc < length body.now.image.now.points }
    requires names { names_none ≡ true → names_empty_slot row.now ≡ false }
    requires known { RowAt body.now.image.now pc row.now }
    ensures { IfSome (slice_get (places body.now.image.now) pc)
        (λ place. result ≡ refusal body.now.image.now body.now.r body.now.routine.now body.now.start pc place) }
{
    let image = body.image;
    refusal_of(
        body,
        pc,
        image.instr(pc),
        row,
        image.potential(pc),
        names_none,
    )
}
