//! Which refusals are reported at a place.

ghost use Rattle.std.specs.Prelude.{◌≡◌, ◌<◌, length};
ghost use Rattle.geos_explain.specs.Told.{is_of_budget, told_rule, is_told, rule_at, most_told, IsFirstUntold};
ghost use Rattle.geos_explain.specs.Refusals.{is_last, ToldWhereRefused};

use crate::explained::Explained;
use crate::place::Place;
use crate::routines::{ExplainedRoutine, place_at};
use crate::saying::Saying;
use crate::words::put_refusal_line;
use geos_image::Routine;
use geos_verify::{Rule, over_budget};

/// Whether the rule is the one on the budget.
fn is_of_budget(rule: Rule) -> bool
    ensures { result ≡ is_of_budget rule }
{
    match rule {
        Rule::OverBudget => true,
        _ => false,
    }
}

/// The rule that is reported at the place that it refuses: not that on the budget, which is reported of the routine.
fn told_rule(rule: Option<Rule>) -> Option<Rule>
    ensures { result ≡ told_rule rule }
{
    match rule {
        Some(rule) if !is_of_budget(rule) => Some(rule),
        _ => None,
    }
}

/// Whether there is such a rule.
fn is_told(rule: &Option<Rule>) -> bool
    ensures { result ≡ is_told rule.now }
{
    told_rule(*rule).is_some()
}

/// The rule that is reported at a pc.
pub(crate) fn rule_at(refused: &[Option<Rule>], pc: u16) -> Option<Rule>
    ensures { result ≡ rule_at refused.now pc }
{
    match refused.get(usize::from(pc)) {
        Some(rule) => told_rule(*rule),
        None => None,
    }
}

/// The number of pcs at which a rule is reported.
fn count_all(refused: &[Option<Rule>]) -> usize {
    let mut count: usize = 0;
    for rule in refused {
        if is_told(rule) {
            count = count.saturating_add(1);
        }
    }
    count
}

/// The most refusals that are reported of an image of so many instructions, such that any image takes at most the time of the longest one:
/// the report of one may take time in proportion to the square of that number.
pub(crate) fn most_told(len: u16) -> usize
    ensures { result ≡ most_told len }
{
    32_768 / (usize::from(len) + 1)
}

/// The pc at which a rule would be reported after `most` others; if there is none, the number of pcs.
pub(crate) fn first_untold(refused: &[Option<Rule>], most: usize) -> usize
    ensures { IsFirstUntold refused.now most result }
{
    let mut before = 0;
    for pc in 0..refused.len() {
        if is_told(&refused[pc]) {
            if before == most {
                return pc;
            }
            before += 1;
        }
    }
    refused.len()
}

/// The report if a rule refuses the place: what is wrong, or how many others are not reported.
pub(crate) fn put_refusal(out: &mut Saying, explained: &Explained, place: &Place) {
    let Some(rule) = rule_at(explained.refused, place.pc) else {
        return;
    };
    let pc = usize::from(place.pc);
    if pc < explained.untold {
        put_refusal_line(out, place, rule)
    } else if pc == explained.untold {
        let told = most_told(place.image.len());
        let more = count_all(explained.refused).saturating_sub(told);
        out.number("; .. and ", more as u64)
            .text(" more from here on\n");
    }
}

/// Whether the pc is that of the last instruction of a routine that begins at `start`.
fn is_last(start: u16, routine: &Routine, pc: u16) -> bool
    ensures { result ≡ is_last start routine.now pc }
{
    start <= pc && u32::from(pc) + 1 == u32::from(start) + u32::from(routine.count)
}

/// After the last instruction of the routine the line of the refusal by the rule on the budget, if it refuses the first one.
pub(crate) fn put_over_budget(out: &mut Saying, within: &ExplainedRoutine, pc: u16) {
    let start = within.explained.image.start(within.r);
    if is_last(start, within.routine, pc) {
        let first = place_at(within, start);
        if over_budget(first.pc, first.routine, first.pc, first.potential) {
            put_refusal_line(out, &first, Rule::OverBudget)
        }
    }
}

/// Lemma: a rule is reported at a place exactly if it is the lowest that refuses it, except for the rule on the budget, and for that on
/// empty slots if it is reported before.
pub fn told_where_refused()
    ensures { ToldWhereRefused }
{}
