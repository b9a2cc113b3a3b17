//! The turns of loops, and ways on which more steps are taken than a potential can say. On all of them words are as much as rows say.

ghost use Rattle.std.specs.Prelude.{◌≡◌, ◌<◌, ◌≤◌, ◌-◌, ℕ, true, false, max, slice_index, slice_set, IfSome, IfOk};
ghost use Rattle.loop_causes.specs.Turns.{begin_at, begin_from, AlwaysComesTo, GoOn, AreReached, StayReached, IsTurn, AreTurns};
ghost use Rattle.loop_causes.specs.Taken.{StepsPassBy, word_at};
ghost use Rattle.geos_code.specs.Edges.{LeadsTo};

use crate::counters::{
    Counter, counter_at, counters_after, number_in, unless_all_changed, untouched, with_counter,
};
use crate::reach::{Reach, Reached, note};
use geos_code::{Body, Known, Lead, edge_in, is_loop};
use geos_counters::{taken_at, touched_by};
use geos_image::two_tables;
use geos_verify::Touched;
use std::alloc::{AllocError, Global};

/// A routine, and what is known of its loops.
#[derive(Clone, Copy)]
struct Loops<'body, 'touched, 'rows, 'turns> {
    body: Body<'body>,
    /// The counters that each routine touches.
    touched: &'touched Touched,
    /// What is known of words.
    rows: &'rows Known,
    /// The turn of each loop, at its LOOP, as far as it is known.
    turns: &'turns Reached,
    /// Whether edges that lead back are followed too, in the whole routine.
    far: bool,
    /// How many steps the longest turn takes that a unit of each counter may pay for, to tell which of two ways to keep.
    longest: [u64; 4],
}

/// The number of steps, at most one above the greatest potential.
fn capped(steps: u64) -> u64
    ensures less { result ≤ steps }
    ensures small { result ≤ 4294967296 }
    ensures past { 4294967295 < steps → 4294967295 < result }
{
    steps.min(u64::from(u32::MAX) + 1)
}

/// How much a word is taken for at a pc: as much as it may be by the row that is known there; 0, the least, where none is.
fn word_at(rows: &Known, pc: u16, word: u8) -> u16
    requires { pc < 4096 }
    ensures { result ≡ word_at rows.now pc word }
{
    match rows.at(pc) {
        Some(row) => match row.bounds.get(usize::from(word)) {
            Some(bound) => *bound,
            None => 0,
        },
        None => 0,
    }
}

/// Extends a path to a pc by an edge, if the edge can be taken.
fn go_on(
    body: &Body,
    touched: &Touched,
    rows: &Known,
    pc: u16,
    branch: bool,
    reach: &Reach,
) -> Option<Reach>
    requires above { body.now.start ≤ pc }
    requires below { pc < body.now.end }
    ensures { IfSome result (λ next. (to : ℕ) → LeadsTo body.now.image.now pc branch to
        → GoOn rows.now body.now.image.now body.now.r pc reach.now to next) }
{
    let i = body.image.instr(pc);
    let called = untouched(&touched_by(touched, i.imm));
    let word = word_at(rows, pc, i.b);
    let counters = counters_after(i, branch, word, &called, &reach.counters)?;
    Some(Reach {
        steps: capped(reach.steps) + taken_at(body, pc),
        counters,
    })
}

/// Extends a path to a LOOP by all remaining iterations, if the longest iteration is known.
fn go_on_behind(body: &Body, rows: &Known, turns: &Reached, pc: u16, reach: &Reach) -> Option<Reach>
    requires below { pc < body.now.end }
    requires turns { AreTurns rows.now body.now.image.now body.now.r turns.now }
    ensures { IfSome result (λ next. (to : ℕ) → LeadsTo body.now.image.now pc false to
        → GoOn rows.now body.now.image.now body.now.r pc reach.now to next) }
{
    let turn = turns.at(pc)?;
    let counter = body.image.instr(pc).a;
    let left = u64::from(number_in(counter_at(&reach.counters, counter)));
    let spent = with_counter(&reach.counters, counter, Counter::Is(0));
    Some(Reach {
        steps: capped(reach.steps) + left * (capped(turn.steps) + 1) + 1,
        counters: unless_all_changed(&turn.counters, &spent),
    })
}

/// The same along an edge, where the instruction may be a LOOP.
fn go_along(loops: &Loops, pc: u16, branch: bool, reach: &Reach) -> Option<Reach>
    requires above { loops.now.body.start ≤ pc }
    requires below { pc < loops.now.body.end }
    requires turns { AreTurns loops.now.rows.now loops.now.body.image.now loops.now.body.r loops.now.turns.now }
    ensures { IfSome result (λ next. (to : ℕ) → LeadsTo loops.now.body.image.now pc branch to
        → GoOn loops.now.rows.now loops.now.body.image.now loops.now.body.r pc reach.now to next) }
{
    if !branch {
        if let Some(next) = go_on_behind(&loops.body, loops.rows, loops.turns, pc, reach) {
            return Some(next);
        }
    }
    go_on(&loops.body, loops.touched, loops.rows, pc, branch, reach)
}

/// Whether ways go along an edge from a pc: one that leads ahead, no further than to another; or of far ways each that is no LOOP's way to its
/// target.
fn is_followed(loops: &Loops, pc: u16, lead: Lead, high: u16) -> bool
    requires { pc < loops.now.body.end }
    ensures ahead { result ≡ true → loops.now.far ≡ false → pc < lead.to }
    ensures within { result ≡ true → loops.now.far ≡ false → lead.to ≤ high }
    ensures all { loops.now.far ≡ false → pc < lead.to → lead.to ≤ high → result ≡ true }
    ensures far { loops.now.far ≡ true → lead.edge.branch ≡ false → result ≡ true }
{
    if loops.far {
        !lead.edge.branch || !is_loop(loops.body.image.instr(pc).opcode)
    } else {
        pc < lead.to && lead.to <= high
    }
}

/// What is known of a way to a pc goes along an edge, if ways do.
fn go(loops: &Loops, reached: &mut Reached, pc: u16, branch: bool, high: u16)
    requires above { loops.now.body.start ≤ pc }
    requires below { pc < loops.now.body.end }
    requires turns { AreTurns loops.now.rows.now loops.now.body.image.now loops.now.body.r loops.now.turns.now }
    ensures { (low : ℕ) → low ≤ pc → pc ≤ high
        → StayReached loops.now.rows.now loops.now.body.image.now loops.now.body.r low high reached.old reached.new }
{
    let Some(reach) = reached.at(pc) else {
        return;
    };
    let Some(lead) = edge_in(&loops.body, pc, branch) else {
        return;
    };
    if !is_followed(loops, pc, lead, high) {
        return;
    }
    if let Some(next) = go_along(loops, pc, branch, &reach) {
        note(reached, &loops.longest, lead.to, &next);
    }
}

/// The same along each edge from a pc up to another, in this order.
fn go_all(loops: &Loops, reached: &mut Reached, low: u16, high: u16)
    requires above { loops.now.body.start ≤ low }
    requires below { high < loops.now.body.end }
    requires turns { AreTurns loops.now.rows.now loops.now.body.image.now loops.now.body.r loops.now.turns.now }
    ensures { StayReached loops.now.rows.now loops.now.body.image.now loops.now.body.r low high reached.old reached.new }
{
    for pc in low..high + 1 {
        go(loops, reached, pc, false, high);
        go(loops, reached, pc, true, high);
    }
}

/// How often far ways go along the edges of a routine, for edges that lead back.
const SWEEPS: u8 = 2;

/// The same along each edge from a pc up to another, in this order; of far ways again, for edges that lead back.
fn sweep(loops: &Loops, reached: &mut Reached, low: u16, high: u16)
    requires above { loops.now.body.start ≤ low }
    requires below { high < loops.now.body.end }
    requires turns { AreTurns loops.now.rows.now loops.now.body.image.now loops.now.body.r loops.now.turns.now }
    ensures { StayReached loops.now.rows.now loops.now.body.image.now loops.now.body.r low high reached.old reached.new }
{
    let times = if loops.far { SWEEPS } else { 1 };
    for _ in 0..times {
        go_all(loops, reached, low, high);
    }
}

/// A way from a place to another, by those from one up to a further.
fn way_to(
    loops: &Loops,
    reached: &mut Reached,
    from: u16,
    to: u16,
    low: u16,
    high: u16,
) -> Option<Reach>
    requires above { loops.now.body.start ≤ low }
    requires below { high < loops.now.body.end }
    requires begins { (low ≤ from) × (from ≤ high) }
    requires ends { (low ≤ to) × (to ≤ high) }
    requires turns { AreTurns loops.now.rows.now loops.now.body.image.now loops.now.body.r loops.now.turns.now }
    ensures { IfSome result (AlwaysComesTo loops.now.rows.now loops.now.body.image.now loops.now.body.r (begin_at from) to) }
{
    reached.fill_from(low, None);
    let begin = Reach {
        steps: 0,
        counters: [Counter::Kept; 4],
    };
    reached.set(from, Some(begin));
    sweep(loops, reached, low, high);
    let way = reached.at(to)?;
    Some(way)
}

/// A way from the target of a LOOP at a pc to that again.
fn way_round(loops: &Loops, reached: &mut Reached, target: u16, pc: u16) -> Option<Reach>
    requires above { loops.now.body.start ≤ pc }
    requires below { pc < loops.now.body.end }
    requires target { (loops.now.body.start ≤ target) × (target < loops.now.body.end) }
    requires turns { AreTurns loops.now.rows.now loops.now.body.image.now loops.now.body.r loops.now.turns.now }
    ensures { IfSome result (AlwaysComesTo loops.now.rows.now loops.now.body.image.now loops.now.body.r (begin_at target) pc) }
{
    if loops.far {
        way_to(
            loops,
            reached,
            target,
            pc,
            loops.body.start,
            loops.body.end - 1,
        )
    } else if target <= pc {
        way_to(loops, reached, target, pc, target, pc)
    } else {
        None
    }
}

/// The longest iteration found of the loop that the LOOP at a pc closes, if the iteration leaves its counter unchanged.
fn find_turn(loops: &Loops, reached: &mut Reached, pc: u16) -> Option<Reach>
    requires above { loops.now.body.start ≤ pc }
    requires below { pc < loops.now.body.end }
    requires turns { AreTurns loops.now.rows.now loops.now.body.image.now loops.now.body.r loops.now.turns.now }
    ensures { IfSome result (IsTurn loops.now.rows.now loops.now.body.image.now loops.now.body.r pc) }
{
    let body = &loops.body;
    let i = body.image.instr(pc);
    if !is_loop(i.opcode) || i.target < body.start || body.end <= i.target {
        return None;
    }
    let turn = way_round(loops, reached, i.target, pc)?;
    match counter_at(&turn.counters, i.a) {
        Counter::Kept => Some(turn),
        _ => None,
    }
}

/// The longest turns, where a loop on a counter has one of so many steps.
fn with_turn(longest: &[u64; 4], counter: u8, steps: u64) -> [u64; 4]
    ensures { result ≡ slice_set longest.now counter (max (slice_index longest.now counter) steps) }
{
    let mut next = *longest;
    if counter < 4 {
        next[usize::from(counter)] = next[usize::from(counter)].max(steps);
    }
    next
}

/// Notes the turns of the loops of a routine, those within a loop before its own; how many steps the longest of them take, with
/// the LOOP's own.
fn note_turns(
    body: &Body,
    touched: &Touched,
    rows: &Known,
    far: bool,
    turns: &mut Reached,
    reached: &mut Reached,
) -> [u64; 4]
    requires { AreTurns rows.now body.now.image.now body.now.r turns.old }
    ensures { AreTurns rows.now body.now.image.now body.now.r turns.new }
{
    let mut longest = [0; 4];
    for pc in body.start..body.end {
        let loops = Loops {
            body: *body,
            touched,
            rows,
            turns,
            far,
            longest,
        };
        if let Some(turn) = find_turn(&loops, reached, pc) {
            turns.set(pc, Some(turn));
            let counter = body.image.instr(pc).a;
            longest = with_turn(&longest, counter, turn.steps.saturating_add(1));
        }
    }
    longest
}

/// The same, twice for far paths, since the code of a loop may come after that of the loop around it.
fn note_all_turns(
    body: &Body,
    touched: &Touched,
    rows: &Known,
    far: bool,
    turns: &mut Reached,
    reached: &mut Reached,
) -> [u64; 4]
    requires { AreTurns rows.now body.now.image.now body.now.r turns.old }
    ensures { AreTurns rows.now body.now.image.now body.now.r turns.new }
{
    if far {
        note_turns(body, touched, rows, far, turns, reached);
        note_turns(body, touched, rows, far, turns, reached)
    } else {
        note_turns(body, touched, rows, far, turns, reached)
    }
}

/// Whether some way that is known takes more steps, with those where it comes to, than a potential can say.
fn some_pass(body: &Body, rows: &Known, reached: &Reached) -> bool
    requires { AreReached rows.now body.now.image.now body.now.r (begin_from body.now.start (body.now.end - 1)) body.now.start
        (body.now.end - 1) reached.now }
    ensures { result ≡ true → StepsPassBy rows.now body.now.image.now body.now.r }
{
    for pc in body.start..body.end {
        if let Some(reach) = reached.at(pc) {
            if u64::from(u32::MAX) < capped(reach.steps) + taken_at(body, pc) {
                return true;
            }
        }
    }
    false
}

/// Whether on some way in a routine more steps are taken than a potential can say, by tables of which nothing is known.
fn pass_by(
    body: &Body,
    touched: &Touched,
    rows: &Known,
    far: bool,
    turns: &mut Reached,
    reached: &mut Reached,
) -> bool
    requires { AreTurns rows.now body.now.image.now body.now.r turns.old }
    ensures { result ≡ true → StepsPassBy rows.now body.now.image.now body.now.r }
{
    let longest = note_all_turns(body, touched, rows, far, turns, reached);
    let last = body.end - 1;
    let nothing = Reach {
        steps: 0,
        counters: [Counter::Is(0); 4],
    };
    reached.fill_from(body.start, Some(nothing));
    let loops = Loops {
        body: *body,
        touched,
        rows,
        turns,
        far,
        longest,
    };
    sweep(&loops, reached, body.start, last);
    some_pass(body, rows, reached)
}

/// Whether some path in a routine takes more steps than the greatest potential. Far paths may go through loops whose bodies are elsewhere.
pub(crate) fn steps_pass(
    alloc: Global,
    body: &Body,
    touched: &Touched,
    rows: &Known,
    far: bool,
) -> Result<bool, AllocError>
    ensures { IfOk result (λ passes. passes ≡ true → StepsPassBy rows.now body.now.image.now body.now.r) }
{
    let (mut turns, mut reached) = two_tables(alloc, None, None)?;
    Ok(pass_by(body, touched, rows, far, &mut turns, &mut reached))
}
