//! Causes that are only about steps.

ghost use Rattle.std.specs.Prelude.{◌≡◌, true, IfOk};
ghost use Rattle.geos_rows.specs.Why.{MeetAlike};
ghost use Rattle.loop_causes.specs.Ahead.{OnlyAhead};
ghost use Rattle.loop_causes.specs.Causes.{Holds};
ghost use Rattle.loop_causes.specs.Taken.{StepsPass};
ghost use Rattle.loop_causes.specs.Tells.{tells_of_ways};

use crate::ahead::may_pass;
use crate::turns::steps_pass;
use geos_code::Body;
use geos_counters::Touching;
use geos_flow::Cause;
use geos_image::Table;
use std::alloc::{AllocError, Global};

/// Whether some path takes more steps than the greatest potential, if each word is 0. `AllocError` if the allocator refuses memory.
pub fn least_steps_pass(alloc: Global, body: &Body, touching: &Touching) -> Result<bool, AllocError>
    ensures { IfOk result (λ passes. passes ≡ true → StepsPass body.now.image.now body.now.r) }
{
    let nothing = Table::new(alloc, None)?;
    let passes = steps_pass(alloc, body, &touching.certain, &nothing, false)?;
    Ok(passes)
}

/// Why nothing is found for a routine in which no way leads back, and in which slots of rows that meet differ in marks at most. `AllocError`
/// where the allocator refuses memory.
pub fn cause_ahead(alloc: Global, body: &Body) -> Result<Cause, AllocError>
    requires ahead { OnlyAhead body.now.image.now body.now.r }
    requires alike { MeetAlike body.now.image.now body.now.r }
    ensures holds { IfOk result (Holds body.now.image.now body.now.r) }
    ensures tells { IfOk result (λ cause. tells_of_ways cause ≡ true) }
{
    if may_pass(alloc, body)? {
        Ok(Cause::StepsMayPass)
    } else {
        Ok(Cause::Unknown)
    }
}
