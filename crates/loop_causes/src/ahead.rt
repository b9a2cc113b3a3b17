//! Routines in which no way leads back: how many steps are taken on the longest way.

ghost use Rattle.std.specs.Prelude.{◌≡◌, ◌<◌, ◌≤◌, ℕ, true, false, slice_index, IfOk};
ghost use Rattle.loop_causes.specs.Ahead.{OnlyAhead, MayPass, NonePasses, IsLongestOver, IsLongestFrom};

use geos_code::{Body, edge_in};
use geos_counters::taken_at;
use geos_image::Table;
use std::alloc::{AllocError, Global};

/// The number of steps after an edge; 0 if the instruction at the pc has no such edge, or the edge leaves the routine.
fn longest_over(body: &Body, longest: &Table<u64>, pc: u16, branch: bool) -> u64
    requires here { pc < body.now.end }
    requires few { (to : ℕ) → slice_index longest.now to ≤ 4294967295 }
    ensures value { IsLongestOver body.now.image.now body.now.r pc branch longest.now result }
    ensures few { result ≤ 4294967295 }
{
    match edge_in(body, pc, branch) {
        Some(edge) => longest.at(edge.to),
        None => 0,
    }
}

/// The number of steps on the longest path from a pc, whether LOOPs are taken or not, from those after its edges.
fn longest_from(body: &Body, longest: &Table<u64>, pc: u16) -> u64
    requires here { pc < body.now.end }
    requires few { (to : ℕ) → slice_index longest.now to ≤ 4294967295 }
    ensures { IsLongestFrom body.now.image.now body.now.r pc longest.now result }
{
    let along = longest_over(body, longest, pc, false);
    let branching = longest_over(body, longest, pc, true);
    taken_at(body, pc) + along.max(branching)
}

/// Whether more steps are taken on some way than a potential can say, by a table of which nothing is known but that it is new.
fn pass_by(body: &Body, longest: &mut Table<u64>) -> bool
    requires ahead { OnlyAhead body.now.image.now body.now.r }
    requires new { (pc : ℕ) → slice_index longest.old pc ≡ 0 }
    ensures some { result ≡ true → MayPass body.now.image.now body.now.r }
    ensures none { result ≡ false → NonePasses body.now.image.now body.now.r }
{
    // Recalls the lemma.
    longest.lengths();
    for pc in (body.start..body.end).rev() {
        let steps = longest_from(body, longest, pc);
        if u64::from(u32::MAX) < steps {
            return true;
        }
        longest.set(pc, steps);
    }
    false
}

/// Whether more steps are taken on some way than a potential can say, whichever way LOOPs go.
pub(crate) fn may_pass(alloc: Global, body: &Body) -> Result<bool, AllocError>
    requires { OnlyAhead body.now.image.now body.now.r }
    ensures some { IfOk result (λ passes. passes ≡ true → MayPass body.now.image.now body.now.r) }
    ensures none { IfOk result (λ passes. passes ≡ false → NonePasses body.now.image.now body.now.r) }
{
    let mut longest = Table::new(alloc, 0)?;
    Ok(pass_by(body, &mut longest))
}
