//! Rows at places that are reached, weakened by what flows into them from places that nothing reaches.

ghost use Rattle.std.specs.Prelude.{◌≡◌, ◌<◌, true, slice_get, IfSome};
ghost use Rattle.geos_rows.specs.Flow.{AllKnown};
ghost use Rattle.geos_rows.specs.Reached.{AllFit};
ghost use Rattle.geos_rows.specs.Unreached.{is_refused, CountsAlike, IsAsGood, AreAsGood};

use crate::fitted::all_fit;
use crate::rounds::flow_on;
use crate::unreached::fill;
use crate::waiting::Waiting;
use geos_code::{Body, Known, bound_of, clean, row_of};
use geos_image::{Instr, Opcode, Row};
use geos_verify::{fits, misuses};

/// Whether the instruction at a pc is refused where the row is known: by a rule on what it does with slots and pointers, on the
/// routine that it calls, or on its return.
fn is_refused(body: &Body, pc: u16, row: &Row) -> bool
    requires { pc < body.now.end }
    ensures { IfSome (slice_get body.now.image.now.points pc)
        (λ point. result ≡ is_refused body.now.image.now body.now.r point.instr point.instr.opcode row.now) }
{
    let i = body.image.instr(pc);
    match i.opcode {
        Opcode::Call => !fits(row, &body.image.routine(i.imm).entry),
        Opcode::Ret => !fits(row, &body.image.routine(body.r).exit),
        _ => misuses(i, row),
    }
}

/// Whether what the instruction sets a counter to has one bound in both rows.
fn counts_alike(i: &Instr, row: &Row, weaker: &Row) -> bool
    ensures { result ≡ true → CountsAlike i.now row.now weaker.now }
{
    match i.opcode {
        Opcode::Setkw => bound_of(row, i.b) == bound_of(weaker, i.b),
        _ => true,
    }
}

/// Whether a weaker row is as good for the instruction at a pc.
fn is_as_good(body: &Body, pc: u16, row: &Row, weaker: &Row) -> bool
    requires { pc < body.now.end }
    ensures { result ≡ true → IfSome (slice_get body.now.image.now.points pc)
        (λ point. IsAsGood body.now.image.now body.now.r row.now weaker.now point.instr) }
{
    if !counts_alike(body.image.instr(pc), row, weaker) {
        return false;
    }
    is_refused(body, pc, row) || !is_refused(body, pc, weaker)
}

/// Whether the weaker rows are as good at each place that is reached: what is refused there is refused with both, and a counter is
/// set to as much.
fn all_as_good(body: &Body, found: &Known, weaker: &Known) -> bool
    ensures { result ≡ true → AreAsGood body.now.image.now body.now.r found.now weaker.now }
{
    for pc in body.start..body.end {
        if let Some(row) = found.at(pc) {
            let row = clean(&row);
            let weaker = row_of(&weaker.at(pc));
            if !is_as_good(body, pc, &row, &weaker) {
                return false;
            }
        }
    }
    true
}

/// Finds rows for unreachable instructions, and stores in `weaker` the rows of the routine after these have been propagated into reachable
/// ones. Returns whether there are unreachable instructions, and the rows in `weaker` fit along all edges and are as good at each
/// reachable instruction. Otherwise the caller has to use the rows that it has.
pub(crate) fn weaken(
    body: &Body,
    found: &Known,
    weaker: &mut Known,
    waiting: &mut Waiting,
    others: &mut Known,
) -> bool
    ensures some { result ≡ true → AllKnown body.now.image.now body.now.r found.now → ⊥ }
    ensures good { result ≡ true → AreAsGood body.now.image.now body.now.r found.now weaker.new }
    ensures fit { result ≡ true → AllFit body.now.image.now body.now.r weaker.new }
{
    if !fill(body, found, weaker, waiting, others) {
        return false;
    }
    waiting.clear(body);
    for pc in body.start..body.end {
        weaker.set(pc, found.at(pc).or(others.at(pc)));
        waiting.wait(pc);
    }
    if !flow_on(body, waiting, weaker) {
        return false;
    }
    all_as_good(body, found, weaker) && all_fit(body, weaker)
}
