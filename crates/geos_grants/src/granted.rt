//! Whether an image does only what is granted.

ghost use Rattle.std.specs.Prelude.{◌≡◌, ℕ, true, false, slice_index_or, IfSome, IfNone, IfOk, IfErr};
ghost use Rattle.geos_grants.specs.Grants.{plain_beyond, IsGranted, IsGrantedBelow, IsExcess};
ghost use Rattle.geos_verify.specs.Rules.{IsChecked};
ghost use Rattle.geos_grants.specs.Routines.{NotesAll};
ghost use Rattle.geos_grants.specs.Sets.{has};

use crate::effect::Effect;
use crate::effects::Effects;
use crate::routines::{EffectTable, effects_of, find_source};
use geos_image::Image;
use geos_verify::Checked;

/// An effect of a public routine that is not granted.
#[derive(Clone, Copy)]
pub struct Excess {
    /// The index of the public routine.
    pub routine: u16,
    /// The pc of an instruction with the effect, in that routine or in one that it calls.
    pub pc: u16,
    /// The effect.
    pub effect: Effect,
}

/// An accepted image whose public routines do only what is granted.
#[derive(Clone, Copy)]
pub struct Granted<'a> {
    /// The image.
    pub checked: &'a Checked,
    /// What is granted.
    pub grants: Effects,
    ghost only: { IsGranted checked.now grants },
}

/// The first slot that has a flag in one list and none in the other.
fn slot_beyond(found: &[bool; 4], grants: &[bool; 4]) -> Option<u8>
    ensures none { IfNone result ((k : ℕ) → slice_index_or found.now k false ≡ true → slice_index_or grants.now k false ≡ true) }
    ensures some { IfSome result (λ k. (slice_index_or found.now k false ≡ true) × (slice_index_or grants.now k false ≡ false)) }
{
    for k in 0..4 {
        if found[k] && !grants[k] {
            return Some(k as u8);
        }
    }
    None
}

/// An effect that is found and not granted, on nothing lent.
fn plain_beyond(found: &Effects, grants: &Effects) -> Option<Effect>
    ensures { result ≡ plain_beyond found.now grants.now }
{
    if found.output && !grants.output {
        Some(Effect::Output)
    } else if found.memory && !grants.memory {
        Some(Effect::Memory)
    } else if found.locks_by_handle && !grants.locks_by_handle {
        Some(Effect::LocksByHandle)
    } else if found.reads_file && !grants.reads_file {
        Some(Effect::ReadsFile)
    } else if found.changes_file && !grants.changes_file {
        Some(Effect::ChangesFile)
    } else if found.map && !grants.map {
        Some(Effect::Map)
    } else if found.commits && !grants.commits {
        Some(Effect::Commits)
    } else {
        None
    }
}

/// An effect that is found and not granted.
fn beyond(found: &Effects, grants: &Effects) -> Option<Effect>
    ensures none { IfNone result ((effect : Effect) → has found.now effect ≡ true → has grants.now effect ≡ true) }
    ensures some { IfSome result (λ effect. (has found.now effect ≡ true) × (has grants.now effect ≡ false)) }
{
    if let Some(effect) = plain_beyond(found, grants) {
        return Some(effect);
    }
    if let Some(slot) = slot_beyond(&found.reads_lent, &grants.reads_lent) {
        return Some(Effect::ReadsLent(slot));
    }
    match slot_beyond(&found.changes_lent, &grants.changes_lent) {
        Some(slot) => Some(Effect::ChangesLent(slot)),
        None => None,
    }
}

/// The first public routine that does more than is granted, an effect that is not granted, and an instruction that has it.
fn first_excess(image: &Image, table: &EffectTable, grants: &Effects) -> Option<Excess>
    requires checked { IsChecked image.now }
    requires notes { NotesAll image.now table.now }
    ensures none { IfNone result (IsGranted image.now grants.now) }
    ensures some { IfSome result (IsExcess image.now grants.now) }
    ensures first { IfSome result (λ excess. IsGrantedBelow image.now grants.now excess.routine) }
{
    for r in 0..image.count() {
        if image.routine(r).public {
            if let Some(effect) = beyond(&table[usize::from(r)], grants) {
                return Some(Excess {
                    routine: r,
                    pc: find_source(image, r, table, effect),
                    effect,
                });
            }
        }
    }
    None
}

/// Whether each public routine of an accepted image does only what is granted, with the routines that it calls; otherwise the first public
/// routine that does more, an effect that is not granted, and an instruction that has it.
pub fn grant<'a>(checked: &'a Checked, grants: &Effects) -> Result<Granted<'a>, Excess>
    ensures image { IfOk result (λ granted. granted.checked.now ≡ checked.now) }
    ensures grants { IfOk result (λ granted. granted.grants ≡ grants.now) }
    ensures only { IfOk result (λ granted. IsGranted checked.now grants.now) }
    ensures excess { IfErr result (IsExcess checked.now grants.now) }
    ensures first { IfErr result (λ excess. IsGrantedBelow checked.now grants.now excess.routine) }
{
    match first_excess(checked.image(), &effects_of(checked), grants) {
        None => Ok(Granted {
            checked,
            grants: *grants,
        }),
        Some(excess) => Err(excess),
    }
}
