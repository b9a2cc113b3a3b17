//! Routines that keep to limits.

ghost use Rattle.std.specs.Prelude.{◌≡◌, ℕ, Some, IfOk, option_copied};
ghost use Rattle.geos_grants.specs.declared.effects.Effects.{Effects};
ghost use Rattle.geos_texts.specs.Keeping.{KeepsToGrants, KeepsToSteps};

use crate::fault::TextFault;
use crate::grants::{grants_in, keep_to_grants, keep_to_steps};
use crate::runnable::Runnable;
use geos_grants::Effects;
use geos_shell::{Room, RunLimits};
use std::alloc::Global;

/// What public routines may do, and what they may take.
#[derive(Clone, Copy)]
pub struct Limits<'a> {
    /// What they may do, if that is limited.
    pub grants: Option<Effects>,
    /// The highest budget that each may have, if that is limited.
    pub most_steps: Option<u32>,
    /// What blocks in memory may take.
    pub room: Room,
    /// The name of the only routine that is called; none if any may be.
    pub called: Option<&'a [u8]>,
}

impl<'a> Limits<'a> {
    /// The limits of a command that calls the routine of this name, or any. `TextFault::BadGrants` if a word of the grants is none.
    pub fn of(
        limits: &RunLimits<'a>,
        called: Option<&'a str>,
    ) -> Result<Limits<'a>, TextFault<'a>> {
        let grants = match limits.grants {
            Some(list) => Some(grants_in(list)?),
            None => None,
        };
        let most_steps = if limits.most_steps < u32::MAX {
            Some(limits.most_steps)
        } else {
            None
        };
        let called = match called {
            Some(name) => Some(name.as_bytes()),
            None => None,
        };
        Ok(Limits {
            grants,
            most_steps,
            room: limits.room,
            called,
        })
    }
}

/// Tests that routines do only what is granted, if that is limited.
fn test_grants<'a>(
    alloc: Global,
    routines: &Runnable<'a>,
    grants: Option<Effects>,
) -> Result<(), TextFault<'a>>
    ensures { IfOk result (λ _. (granted : Effects) → grants ≡ Some granted → KeepsToGrants routines.now.image.items granted) }
{
    match grants {
        Some(grants) => keep_to_grants(alloc, routines, &grants),
        None => Ok(()),
    }
}

/// Tests that routines have budgets within the highest one, if there is one.
fn test_steps<'a>(
    alloc: Global,
    routines: &Runnable<'a>,
    called: Option<&[u8]>,
    most: Option<u32>,
) -> Result<(), TextFault<'a>>
    ensures { IfOk result (λ _. (steps : ℕ) → most ≡ Some steps → KeepsToSteps routines.now.image.items (option_copied called.entry) steps) }
{
    match most {
        Some(most) => keep_to_steps(alloc, routines, called, most),
        None => Ok(()),
    }
}

/// Routines that keep to limits.
#[derive(Drop)]
pub struct Limited<'a> {
    /// The routines.
    pub routines: Runnable<'a>,
    /// The limits.
    pub limits: Limits<'a>,
    ghost granted: { (grants : Effects) → limits.grants ≡ Some grants → KeepsToGrants routines.image.items grants },
    ghost paid: { (most : ℕ) → limits.most_steps ≡ Some most
        → KeepsToSteps routines.image.items (option_copied limits.called) most },
}

impl<'a> Limited<'a> {
    /// Tests that routines keep to limits. `TextFault::NotGranted` if a public routine does more than is granted, `TextFault::OverLimit` if one
    /// that may be called has a higher budget, and `TextFault::Read` if the bytes encode no image or there is no memory.
    pub fn new(
        alloc: Global,
        routines: Runnable<'a>,
        limits: Limits<'a>,
    ) -> Result<Limited<'a>, TextFault<'a>>
        ensures { IfOk result (λ limited. limited.limits ≡ limits.entry) }
    {
        match test_grants(alloc, &routines, limits.grants) {
            Ok(()) => {}
            Err(fault) => return Err(fault),
        }
        match test_steps(alloc, &routines, limits.called, limits.most_steps) {
            Ok(()) => Ok(Limited { routines, limits }),
            Err(fault) => Err(fault),
        }
    }
}
