//! What routines do to what is not their own, as bits, and images that do only what is granted.

ghost use Rattle.std.specs.Prelude.{◌≡◌, ◌≤◌, ◌<◌, Err, IfNone, IfSome};
ghost use Rattle.geos_grants.specs.Grants.{IsExcess, IsGranted, IsGrantedBelow};
ghost use Rattle.takhvoi.specs.Answers.{On};
ghost use Rattle.takhvoi.specs.Bits.{bit_of, bit_of_slot, bits_of, effects_in, flag_bit, has_bit, slot_bits, slots_in};
ghost use Rattle.takhvoi.specs.Images.{IsDenied, IsLoadedGranted, IsRejected, TellsBudget, TellsEffects};
ghost use Rattle.geos_image.specs.Reading.{image_at};
ghost use Rattle.geos_verify.specs.Rules.{IsChecked};

use crate::handle::Handle;
use crate::held::{put, take};
use crate::images::{accepted, image_of, keep};
use crate::status::{DONE, NO_KERNEL, NOT_ADMITTED, NOT_GRANTED};
use crate::system::System;
use geos_grants::{Effect, Effects, Excess, effects_of, grant};
use geos_verify::Checked;
use std::alloc::Global;

/// A bit, if the flag is set.
fn flag_bit(flag: bool, bit: u32) -> u32
    ensures exact { result ≡ flag_bit flag bit }
    ensures small { result ≤ bit }
{
    if flag { bit } else { 0 }
}

/// The bits of the flags of four slots.
fn slot_bits(flags: &[bool; 4]) -> u32
    ensures exact { result ≡ slot_bits flags.now }
    ensures small { result ≤ 15 }
{
    let [s0, s1, s2, s3] = *flags;
    flag_bit(s0, 1) + flag_bit(s1, 2) + flag_bit(s2, 4) + flag_bit(s3, 8)
}

/// The bits of a set of effects.
fn bits_of(effects: &Effects) -> u32
    ensures { result ≡ bits_of effects.now }
{
    flag_bit(effects.output, 1)
        + flag_bit(effects.memory, 2)
        + flag_bit(effects.locks_by_handle, 4)
        + flag_bit(effects.reads_file, 8)
        + flag_bit(effects.changes_file, 16)
        + flag_bit(effects.map, 32)
        + flag_bit(effects.commits, 64)
        + 256 * slot_bits(&effects.reads_lent)
        + 4096 * slot_bits(&effects.changes_lent)
}

/// The bit of a slot, of those that begin with a bit.
fn slot_bit(first: u32, slot: u8) -> u32
    requires { first ≤ 4096 }
    ensures { result ≡ bit_of_slot first slot }
{
    match slot {
        0 => first,
        1 => 2 * first,
        2 => 4 * first,
        _ => 8 * first,
    }
}

/// The bit of an effect.
fn bit_of(effect: Effect) -> u32
    ensures { result ≡ bit_of effect }
{
    match effect {
        Effect::Output => 1,
        Effect::Memory => 2,
        Effect::LocksByHandle => 4,
        Effect::ReadsFile => 8,
        Effect::ChangesFile => 16,
        Effect::Map => 32,
        Effect::Commits => 64,
        Effect::ReadsLent(slot) => slot_bit(256, slot),
        Effect::ChangesLent(slot) => slot_bit(4096, slot),
    }
}

/// Whether a bit is set.
fn has_bit(bits: u32, bit: u32) -> bool
    requires { 0 < bit }
    ensures { result ≡ has_bit bits bit }
{
    bits / bit % 2 == 1
}

/// The flags of the four slots whose bits begin with one.
fn slots_in(bits: u32, first: u32) -> [bool; 4]
    requires { (0 < first) × (first ≤ 4096) }
    ensures { result ≡ slots_in bits first }
{
    [
        has_bit(bits, first),
        has_bit(bits, 2 * first),
        has_bit(bits, 4 * first),
        has_bit(bits, 8 * first),
    ]
}

/// The effects of which the bits are set.
fn effects_in(bits: u32) -> Effects
    ensures { result ≡ effects_in bits }
{
    Effects {
        output: has_bit(bits, 1),
        reads_lent: slots_in(bits, 256),
        changes_lent: slots_in(bits, 4096),
        memory: has_bit(bits, 2),
        locks_by_handle: has_bit(bits, 4),
        reads_file: has_bit(bits, 8),
        changes_file: has_bit(bits, 16),
        map: has_bit(bits, 32),
        commits: has_bit(bits, 64),
    }
}

/// The first public routine that does more than is granted, with an effect that is not granted and an instruction that has it.
fn excess_of(checked: &Checked, grants: u32) -> Option<Excess>
    ensures accepted { IsChecked checked.now }
    ensures none { IfNone result (IsGranted checked.now (effects_in grants)) }
    ensures some { IfSome result (IsExcess checked.now (effects_in grants)) }
    ensures first { IfSome result (λ excess. IsGrantedBelow checked.now (effects_in grants) excess.routine) }
{
    // the verifier accepts it
    let _image = checked.image();
    match grant(checked, &effects_in(grants)) {
        Ok(_) => None,
        Err(excess) => Some(excess),
    }
}

fn load_granted_in(
    alloc: Global,
    system: &mut System,
    bytes: &[u8],
    grants: u32,
    number: &mut u32,
    place: &mut u64,
    rule: &mut u32,
    routine: &mut u16,
    effect: &mut u32,
) -> u32
    ensures loaded { IsLoadedGranted bytes.now grants number.new result system.old system.new }
    ensures bad { result ≡ 112 → image_at bytes.now ≡ Err place.new }
    ensures refused { result ≡ 113 → IsRejected bytes.now place.new rule.new }
    ensures denied { result ≡ 116 → IsDenied bytes.now grants place.new routine.new effect.new }
{
    let checked = match accepted(alloc, bytes, place, rule) {
        Ok(checked) => checked,
        Err(status) => return status,
    };
    match excess_of(&checked, grants) {
        None => keep(&mut system.images, checked, number),
        Some(excess) => {
            *place = u64::from(excess.pc);
            *routine = excess.routine;
            *effect = bit_of(excess.effect);
            NOT_GRANTED
        }
    }
}

/// Loads an image as `takhvoi_load` does, if each effect of its public routines, and of those that they call, has its bit in `grants`.
/// Otherwise it returns `NOT_GRANTED`, and writes the first public routine that does more, the pc of an instruction with an effect that is
/// not granted, and the bit of that effect.
#[unsafe(no_mangle)]
pub extern "C" fn takhvoi_load_granted(
    alloc: Global,
    handle: &mut Handle,
    bytes: &[u8],
    grants: u32,
    number: &mut u32,
    place: &mut u64,
    rule: &mut u32,
    routine: &mut u16,
    effect: &mut u32,
) -> u32
    ensures loaded { On (IsLoadedGranted bytes.now grants number.new result) result handle.old handle.new }
    ensures bad { result ≡ 112 → image_at bytes.now ≡ Err place.new }
    ensures refused { result ≡ 113 → IsRejected bytes.now place.new rule.new }
    ensures denied { result ≡ 116 → IsDenied bytes.now grants place.new routine.new effect.new }
{
    let Some(mut system) = take(alloc, handle) else {
        return NO_KERNEL;
    };
    let status = load_granted_in(
        alloc,
        &mut system,
        bytes,
        grants,
        number,
        place,
        rule,
        routine,
        effect,
    );
    put(handle, system);
    status
}

fn effects_in_image(system: &System, number: u32, routine: u16, effects: &mut u32) -> u32
    ensures { TellsEffects number routine effects.new result system.now system.now }
{
    let Some(checked) = image_of(&system.images, number) else {
        return NOT_ADMITTED;
    };
    if routine >= checked.image().count() {
        return NOT_ADMITTED;
    }
    let table = effects_of(checked);
    *effects = bits_of(&table[usize::from(routine)]);
    DONE
}

/// Writes the effects of a routine of an image, with those of the routines that it calls, as bits. `NOT_ADMITTED` if there is no such image
/// or routine.
#[unsafe(no_mangle)]
pub extern "C" fn takhvoi_effects(
    alloc: Global,
    handle: &mut Handle,
    number: u32,
    routine: u16,
    effects: &mut u32,
) -> u32
    ensures { On (TellsEffects number routine effects.new result) result handle.old handle.new }
{
    let Some(system) = take(alloc, handle) else {
        return NO_KERNEL;
    };
    let status = effects_in_image(&system, number, routine, effects);
    put(handle, system);
    status
}

fn budget_in_image(system: &System, number: u32, routine: u16, budget: &mut u32) -> u32
    ensures { TellsBudget number routine budget.new result system.now system.now }
{
    let Some(checked) = image_of(&system.images, number) else {
        return NOT_ADMITTED;
    };
    let image = checked.image();
    if routine >= image.count() {
        return NOT_ADMITTED;
    }
    *budget = image.routine(routine).budget;
    DONE
}

/// Writes the budget of a routine of an image: a run of it takes at most so many steps. `NOT_ADMITTED` if there is no such image or routine.
#[unsafe(no_mangle)]
pub extern "C" fn takhvoi_budget(
    alloc: Global,
    handle: &mut Handle,
    number: u32,
    routine: u16,
    budget: &mut u32,
) -> u32
    ensures { On (TellsBudget number routine budget.new result) result handle.old handle.new }
{
    let Some(system) = take(alloc, handle) else {
        return NO_KERNEL;
    };
    let status = budget_in_image(&system, number, routine, budget);
    put(handle, system);
    status
}
