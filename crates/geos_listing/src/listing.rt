//! The text of an image.

ghost use Rattle.std.specs.Prelude.{◌≡◌, ◌<◌, ◌≤◌, ◌+◌, ◌++◌, true, OnOk, IfOk, IfSome, length, slice_get};
ghost use Rattle.std.specs.List.{All};
ghost use Rattle.geos_image.specs.Legal.{is_image};
ghost use Rattle.geos_image.specs.Ranges.{IsLong, RoutineFits};
ghost use Rattle.geos_listing.specs.Rows.{texts_below};
ghost use Rattle.geos_listing.specs.Instrs.{MarksTargets, label_line};
ghost use Rattle.geos_listing.specs.Listing.{public_text, routine_line, place_text, listed_routine, listing};

use crate::instrs::put_instr;
use crate::rows::put_row;
use crate::targets::{Targets, targets_of};
use geos_image::{Image, Routine};
use geos_text::put_numbered;
use std::alloc::{AllocError, Global};

/// Appends the line of a label, where one names the pc.
pub fn put_label_line(
    out: &mut Vec<u8>,
    image: &Image,
    targets: &Targets,
    pc: u16,
) -> Result<(), AllocError>
    requires short { pc < 4096 }
    requires targets { MarksTargets image.now.points targets.now }
    ensures { OnOk result (out.new.items ≡ out.old.items ++ label_line image.now.points pc) }
{
    if !targets[usize::from(pc)] {
        return Ok(());
    }
    put_numbered(out, "L", u64::from(pc))?;
    out.extend_from_slice(b":\n")
}

/// The instruction at a pc, after its label where another leads to it.
fn put_place(out: &mut Vec<u8>, image: &Image, targets: &Targets, pc: u16) -> Result<(), AllocError>
    requires within { pc < length image.now.points }
    requires legal { is_image image.now ≡ true }
    requires targets { MarksTargets image.now.points targets.now }
    ensures { OnOk result (out.new.items ≡ out.old.items ++ place_text image.now pc) }
{
    put_label_line(out, image, targets, pc)?;
    put_instr(out, image, image.instr(pc))
}

/// So many instructions from a pc.
#[tactic(auto, unfolding(crate::specs::Rows::texts_below))]
fn put_places(
    out: &mut Vec<u8>,
    image: &Image,
    targets: &Targets,
    start: u16,
    count: u16,
) -> Result<(), AllocError>
    requires within { start + count ≤ length image.now.points }
    requires legal { is_image image.now ≡ true }
    requires targets { MarksTargets image.now.points targets.now }
    ensures { OnOk result (out.new.items ≡ out.old.items ++ texts_below count (λ k. place_text image.now (start + k))) }
{
    for k in 0..count {
        put_place(out, image, targets, start + k)?;
    }
    Ok(())
}

fn put_public(out: &mut Vec<u8>, public: bool) -> Result<(), AllocError>
    ensures { OnOk result (out.new.items ≡ out.old.items ++ public_text public) }
{
    if public {
        out.extend_from_slice(b" public")
    } else {
        Ok(())
    }
}

/// Appends the line with the routine's name, whether it is public, and its budget.
pub fn put_routine_line(out: &mut Vec<u8>, routine: &Routine) -> Result<(), AllocError>
    ensures value { OnOk result (out.new.items ≡ out.old.items ++ routine_line routine.now) }
    ensures name { OnOk result (length routine.now.name ≡ 16) }
    ensures budget { OnOk result (IsLong routine.now.budget) }
{
    out.extend_from_slice(b"routine ")?;
    out.extend_from_slice(routine.name_text())?;
    put_public(out, routine.public)?;
    let budget = routine.budget;
    put_numbered(out, " budget ", u64::from(budget))?;
    out.extend_from_slice(b"\n")
}

fn put_routine(
    out: &mut Vec<u8>,
    image: &Image,
    targets: &Targets,
    r: u16,
) -> Result<(), AllocError>
    requires within { r < length image.now.routines }
    requires legal { is_image image.now ≡ true }
    requires targets { MarksTargets image.now.points targets.now }
    ensures value { OnOk result (out.new.items ≡ out.old.items ++ listed_routine image.now r) }
    ensures fits { OnOk result (IfSome (slice_get image.now.routines r) RoutineFits) }
{
    let routine = image.routine(r);
    put_routine_line(out, routine)?;
    put_row(out, "in", &routine.entry)?;
    put_row(out, "out", &routine.exit)?;
    put_places(out, image, targets, image.start(r), routine.count)
}

/// The text of the image. It takes time in proportion to the image.
#[tactic(auto, unfolding(crate::specs::Rows::texts_below))]
pub fn list(alloc: Global, image: &Image) -> Result<Vec<u8>, AllocError>
    ensures value { IfOk result (λ text. text.items ≡ listing image.now) }
    ensures legal { is_image image.now ≡ true }
    ensures fits { OnOk result (All RoutineFits image.now.routines) }
{
    let targets = targets_of(image);
    let mut out = Vec::new(alloc);
    for r in 0..image.count() {
        put_routine(&mut out, image, &targets, r)?;
    }
    Ok(out)
}
