//! Counters that are set for loops at a price past what a potential can say.

ghost use Rattle.std.specs.Prelude.{◌≡◌, ◌<◌, ◌≤◌, ◌-◌, ◌*◌, true, IfSome, IfOk};
ghost use Rattle.loop_causes.specs.Noted.{loops_in};
ghost use Rattle.geos_counters.specs.Touching.{KnowsTouched};
ghost use Rattle.loop_causes.specs.Causes.{LoopsTo, PaysForLoop, IsAtMost, Holds};
ghost use Rattle.geos_counters.specs.Idle.{IsKept};
ghost use Rattle.geos_rows.specs.Reached.{FitWhereReached, AreAtMostAny};
ghost use Rattle.loop_causes.specs.Taken.{WordsPass};
ghost use Rattle.loop_causes.specs.Tells.{tells_of_setting};

use crate::trails::Trails;
use crate::turns::steps_pass;
use crate::within::{comes_round, is_kept, loop_at};
use control_graph::{Graph, Jump, Jumps};
use geos_code::{Body, Known, bound_of, is_loop, row_of};
use geos_counters::Touching;
use geos_flow::{BackWay, ByNumber, ByWord, Cause};
use geos_image::Opcode;
use geos_rows::Strongest;
use std::alloc::{AllocError, Global};

/// The LOOP at a pc, if it takes from the counter, and some path from the given instruction to it leaves the counter unchanged.
fn kept_at(
    body: &Body,
    touching: &Touching,
    trails: &Trails,
    counter: u8,
    at: u16,
    from: u16,
) -> Option<BackWay>
    requires above { body.now.start ≤ at }
    requires below { at < body.now.end }
    requires from { from < body.now.end }
    requires touched { KnowsTouched body.now.image.now touching.now }
    ensures loops { IfSome result (λ back. LoopsTo body.now.image.now body.now.r back counter) }
    ensures kept { IfSome result (λ back. IsKept body.now.image.now body.now.r counter at back.from) }
    ensures begins { IfSome result (λ back. back.from < 4096) }
    ensures ends { IfSome result (λ back. back.to < 4096) }
{
    let (back, other) = loop_at(body, from)?;
    if other == counter && is_kept(body, touching, trails, counter, at, None, from) {
        Some(back)
    } else {
        None
    }
}

/// The first LOOP that pays in a nest, and to which some path from an instruction leaves a counter unchanged.
fn find_kept(
    body: &Body,
    touching: &Touching,
    graph: &Graph,
    jumps: &Jumps,
    counter: u8,
    at: u16,
    trails: &mut Trails,
) -> Option<BackWay>
    requires above { body.now.start ≤ at }
    requires below { at < body.now.end }
    requires touched { KnowsTouched body.now.image.now touching.now }
    ensures loops { IfSome result (λ back. LoopsTo body.now.image.now body.now.r back counter) }
    ensures kept { IfSome result (λ back. IsKept body.now.image.now body.now.r counter at back.from) }
    ensures begins { IfSome result (λ back. back.from < 4096) }
    ensures ends { IfSome result (λ back. back.to < 4096) }
{
    let behind = graph.arc(at, false)?.to;
    trails.clear(body);
    trails.note(behind, None);
    trails.go(graph, Some(counter), None);
    for from in body.start..body.end {
        if let Jump::Pays(_) = jumps.at(from) {
            if let Some(back) = kept_at(body, touching, trails, counter, at, from) {
                return Some(back);
            }
        }
    }
    None
}

/// Whether some path from an instruction leaves a counter unchanged up to a LOOP that takes from it and is on a cycle.
fn pays_for_loop(
    body: &Body,
    touching: &Touching,
    graph: &Graph,
    jumps: &Jumps,
    counter: u8,
    at: u16,
    trails: &mut Trails,
) -> bool
    requires above { body.now.start ≤ at }
    requires below { at < body.now.end }
    requires touched { KnowsTouched body.now.image.now touching.now }
    ensures { result ≡ true → PaysForLoop body.now.image.now body.now.r counter at }
{
    match find_kept(body, touching, graph, jumps, counter, at, trails) {
        Some(back) => comes_round(body, touching, graph, trails, None, back.to, back.from),
        None => false,
    }
}

/// How much a word is at a place at most by the rows that are known, if no rows that hold are found to say less.
fn most_at(body: &Body, known: &Known, strongest: &Strongest, word: u8, at: u16) -> Option<u16>
    requires above { body.now.start ≤ at }
    requires below { at < body.now.end }
    requires word { word < 8 }
    requires rows { FitWhereReached body.now.image.now body.now.r known.now }
    requires least { AreAtMostAny body.now.image.now body.now.r strongest.now.rows }
    ensures { IfSome result (IsAtMost body.now.image.now body.now.r at word) }
{
    let row = strongest.at(at)?;
    let most = bound_of(&row_of(&known.at(at)), word);
    if bound_of(&row, word) == most {
        Some(most)
    } else {
        None
    }
}

/// How the instruction at a pc sets a counter, which pays for a loop; and whether more steps are taken than a potential can say.
fn setting_at(
    body: &Body,
    known: &Known,
    strongest: &Strongest,
    counter: u8,
    at: u16,
    passes: bool,
) -> Option<Cause>
    requires above { body.now.start ≤ at }
    requires below { at < body.now.end }
    requires rows { FitWhereReached body.now.image.now body.now.r known.now }
    requires least { AreAtMostAny body.now.image.now body.now.r strongest.now.rows }
    requires pays { PaysForLoop body.now.image.now body.now.r counter at }
    requires passes { passes ≡ true → WordsPass body.now.image.now body.now.r }
    ensures holds { IfSome result (Holds body.now.image.now body.now.r) }
    ensures tells { IfSome result (λ cause. tells_of_setting cause ≡ true) }
{
    let i = body.image.instr(at);
    match i.opcode {
        Opcode::Setkw if i.a == counter => {
            let most = most_at(body, known, strongest, i.b, at)?;
            let by_word = ByWord {
                at,
                counter,
                word: i.b,
                most,
            };
            Some(if passes {
                Cause::WordUnbounded(by_word)
            } else {
                Cause::WordDear(by_word)
            })
        }
        Opcode::Setk if i.a == counter => {
            let by_number = ByNumber {
                at,
                counter,
                number: i.imm,
            };
            Some(if passes {
                Cause::NumberHigh(by_number)
            } else {
                Cause::NumberDear(by_number)
            })
        }
        _ => None,
    }
}

/// The most visits in a round of the search along far paths.
const MOST_LOOKS: usize = 1 << 21;

/// Whether far paths are searched, which visits all instructions of a routine for each of its LOOPs.
fn may_go_far(body: &Body) -> bool
    ensures { result ≡ true → loops_in body.now.image.now body.now.start (body.now.end - body.now.start) * (body.now.end - body.now.start)
        ≤ 2097152 }
{
    let length = usize::from(body.end.saturating_sub(body.start));
    let mut loops: usize = 0;
    for pc in body.start..body.end {
        loops += usize::from(is_loop(body.image.instr(pc).opcode));
    }
    loops * length <= MOST_LOOKS
}

/// Whether on some way more steps are taken than a potential can say, if words are as much as they may be by the strongest rows, which are
/// known then.
fn words_pass(
    alloc: Global,
    body: &Body,
    touching: &Touching,
    strongest: &mut Strongest,
) -> Result<bool, AllocError>
    ensures least { AreAtMostAny body.now.image.now body.now.r strongest.new.rows }
    ensures passes { IfOk result (λ passes. passes ≡ true → WordsPass body.now.image.now body.now.r) }
{
    strongest.find(body);
    let passes = steps_pass(
        alloc,
        body,
        &touching.certain,
        &strongest.rows,
        may_go_far(body),
    )?;
    Ok(passes)
}

/// How the instruction at a pc sets a counter for a loop, and whether more steps are taken than a potential can say if words are as much as
/// they may be; `None` if it sets no counter for a loop. `AllocError` if the allocator refuses memory.
pub fn cause_of_setting(
    alloc: Global,
    body: &Body,
    touching: &Touching,
    known: &Known,
    graph: &Graph,
    jumps: &Jumps,
    at: u16,
    trails: &mut Trails,
    strongest: &mut Strongest,
) -> Result<Option<Cause>, AllocError>
    requires here { at < body.now.end }
    requires touched { KnowsTouched body.now.image.now touching.now }
    requires rows { FitWhereReached body.now.image.now body.now.r known.now }
    ensures holds { IfOk result (λ cause. IfSome cause (Holds body.now.image.now body.now.r)) }
    ensures tells { IfOk result (λ found. IfSome found (λ cause. tells_of_setting cause ≡ true)) }
{
    let counter = body.image.instr(at).a;
    if at < body.start || !pays_for_loop(body, touching, graph, jumps, counter, at, trails) {
        return Ok(None);
    }
    let passes = words_pass(alloc, body, touching, strongest)?;
    Ok(setting_at(body, known, strongest, counter, at, passes))
}
