//! Edges that lead back.

ghost use Rattle.std.specs.Prelude.{◌≡◌, ◌<◌, ◌≤◌, true, IfSome, IfNone};
ghost use Rattle.geos_code.specs.Code.{TargetAhead};
ghost use Rattle.loop_causes.specs.Ahead.{OnlyAhead};
ghost use Rattle.loop_causes.specs.Causes.{LeadsBack, Holds};
ghost use Rattle.loop_causes.specs.Tells.{tells_of_looks};

use geos_code::{Body, edge_in};
use geos_flow::{BackWay, Cause};

/// The edge of the instruction to its target, if that leads back.
fn back_at(body: &Body, from: u16) -> Option<BackWay>
    requires above { body.now.start ≤ from }
    requires below { from < body.now.end }
    ensures some { IfSome result (LeadsBack body.now.image.now body.now.r) }
    ensures none { IfNone result (TargetAhead body.now.image.now body.now.r from) }
{
    match edge_in(body, from, true) {
        Some(edge) if edge.to <= from => Some(BackWay { from, to: edge.to }),
        _ => None,
    }
}

/// The first way that leads back.
pub fn find_back(body: &Body) -> Option<BackWay>
    ensures some { IfSome result (LeadsBack body.now.image.now body.now.r) }
    ensures none { IfNone result (OnlyAhead body.now.image.now body.now.r) }
{
    for from in body.start..body.end {
        if let Some(back) = back_at(body, from) {
            return Some(back);
        }
    }
    None
}

/// The first way that leads back, as the cause where the search took too long.
pub fn cause_of_looks(body: &Body) -> Option<Cause>
    ensures holds { IfSome result (Holds body.now.image.now body.now.r) }
    ensures tells { IfSome result (λ cause. tells_of_looks cause ≡ true) }
{
    match find_back(body) {
        Some(back) => Some(Cause::GivenUp(back)),
        None => None,
    }
}
