//! Whether routines do only what is granted, and take only so many steps.

ghost use Rattle.std.specs.Prelude.{◌≡◌, IfOk, IfErr, List, Option, ℕ, option_copied};
ghost use Rattle.geos_grants.specs.declared.effects.Effects.{Effects};
ghost use Rattle.geos_texts.specs.Keeping.{KeepsToGrants, KeepsToSteps, IsDenied, IsWhyDenied, IsOverIn, IsWhyOver};

use crate::budgets::first_over;
use crate::commands::effect_comments;
use crate::fault::TextFault;
use crate::runnable::{Runnable, accepted};
use effect_texts::{grants_of, put_excess};
use geos_grants::{Effects, Excess, grant};
use geos_image::{Image, ReadError, Routine};
use geos_verify::check;
use std::alloc::{AllocError, Global};

/// The text about an effect that is not granted.
fn excess_text(
    alloc: Global,
    image: &Image,
    routines: &Runnable<'_>,
    excess: &Excess,
) -> Result<String, AllocError> {
    let mut out = Vec::new(alloc);
    put_excess(&mut out, image, routines.lines(), excess)?;
    if !routines.marks.is_empty() {
        out = routines.marks.sentences(alloc, None, &out)?;
    }
    match String::from_utf8(out) {
        Ok(text) => Ok(text),
        Err(_) => Ok(String::new(alloc)),
    }
}

/// The comments with the effects of each routine of an image; none of one that the verifier refuses. `ReadError::BadImage` if the bytes
/// encode no image.
pub(crate) fn effect_lines(alloc: Global, bytes: &[u8]) -> Result<Vec<u8>, ReadError> {
    match accepted(alloc, bytes)? {
        Some(checked) => Ok(effect_comments(alloc, &checked)?),
        None => Ok(Vec::new(alloc)),
    }
}

/// The fault of an image with a public routine that does what is not granted.
fn denied<'a>(
    alloc: Global,
    image: &Image,
    routines: &Runnable<'_>,
    excess: &Excess,
) -> TextFault<'a>
    ensures { (bytes : List ℕ) (grants : Effects) → IsDenied bytes grants → IsWhyDenied bytes grants result }
{
    match excess_text(alloc, image, routines, excess) {
        Ok(text) => TextFault::NotGranted(text),
        Err(_) => TextFault::Read(ReadError::Memory),
    }
}

/// What a list of words grants, as `output,changes-lent`. `TextFault::BadGrants` if a word of the list is none.
pub(crate) fn grants_in<'a>(list: &'a str) -> Result<Effects, TextFault<'a>> {
    match grants_of(list) {
        Some(grants) => Ok(grants),
        None => Err(TextFault::BadGrants(list)),
    }
}

/// Tests that the public routines do only what is granted. `TextFault::NotGranted` if a public routine does more, and `TextFault::Read` if the
/// bytes encode no image. Of an image that the verifier refuses nothing is tested: it does not run.
#[tactic(auto, using(crate::proofs::Keeping::keeps_granted, crate::proofs::Keeping::keeps_refused))]
pub(crate) fn keep_to_grants<'a>(
    alloc: Global,
    routines: &Runnable<'a>,
    grants: &Effects,
) -> Result<(), TextFault<'a>>
    ensures kept { IfOk result (λ _. KeepsToGrants routines.now.image.items grants.now) }
    ensures denied { IfErr result (IsWhyDenied routines.now.image.items grants.now) }
{
    let image = match geos_image::read(alloc, &routines.image) {
        Ok(image) => image,
        Err(fault) => return Err(TextFault::Read(fault)),
    };
    let checked = match check(image) {
        Ok(checked) => checked,
        Err(_) => return Ok(()),
    };
    match grant(&checked, grants) {
        Ok(_granted) => Ok(()),
        Err(excess) => Err(denied(alloc, checked.image(), routines, &excess)),
    }
}

/// The fault of a public routine with too high a budget.
fn over<'a>(alloc: Global, routine: &Routine) -> TextFault<'a>
    ensures { (bytes : List ℕ) (called : Option (List ℕ)) (most : ℕ) → IsOverIn bytes called most routine.now → IsWhyOver bytes called most result }
{
    let Ok(name) = Vec::from_slice(alloc, routine.name_text()) else {
        return TextFault::Read(ReadError::Memory);
    };
    match String::from_utf8(name) {
        Ok(name) => TextFault::OverLimit(name, routine.budget),
        Err(_) => TextFault::OverLimit(String::new(alloc), routine.budget),
    }
}

/// Tests that no public routine has a budget above a number; of a call, only the routine that it names is tested. `TextFault::OverLimit`
/// names the first that has, and `TextFault::Read` reports bytes that encode no image.
#[tactic(auto, using(crate::proofs::Keeping::keeps_within))]
pub(crate) fn keep_to_steps<'a>(
    alloc: Global,
    routines: &Runnable<'a>,
    called: Option<&[u8]>,
    most: u32,
) -> Result<(), TextFault<'a>>
    ensures kept { IfOk result (λ _. KeepsToSteps routines.now.image.items (option_copied called.entry) most) }
    ensures over { IfErr result (IsWhyOver routines.now.image.items (option_copied called.entry) most) }
{
    let image = match geos_image::read(alloc, &routines.image) {
        Ok(image) => image,
        Err(fault) => return Err(TextFault::Read(fault)),
    };
    match first_over(&image, called, most) {
        None => Ok(()),
        Some(r) => Err(over(alloc, image.routine(r))),
    }
}
