//! The lines of instructions with how often each ran, and the line at the end.

ghost use Rattle.std.specs.Prelude.{[], ◌∷◌, ◌≡◌, ◌<◌, ◌++◌, codes, decimal, length, OnOk};

use geos_image::Image;
use geos_listing::put_code;
use geos_machine::{Outcome, Trace};
use geos_text::{first_word, put_numbered};
use line_marks::Origin;
use std::alloc::AllocError;

/// What a text has for the instruction at a pc, if there is one.
pub fn origin_of<'o>(origins: Option<&'o [Origin<'o>]>, pc: u16) -> Option<&'o Origin<'o>> {
    match origins {
        Some(origins) => origins.get(usize::from(pc)),
        None => None,
    }
}

/// Appends where an instruction comes from: the number of its line in a text, and the file that a line mark names; or its pc.
fn put_place(out: &mut Vec<u8>, origin: Option<&Origin<'_>>, pc: u16) -> Result<(), AllocError> {
    let Some(origin) = origin else {
        return put_numbered(out, "", u64::from(pc));
    };
    put_numbered(out, "", origin.place.line)?;
    match origin.place.file {
        Some(file) => {
            out.extend_from_slice(b" of ")?;
            out.extend_from_slice(file.as_bytes())
        }
        None => Ok(()),
    }
}

/// Appends the words of an instruction, each after a space.
fn put_words(out: &mut Vec<u8>, code: &[u8]) -> Result<(), AllocError> {
    let mut rest = code;
    // Each word takes at least a byte.
    for _ in 0..code.len() {
        let Some((word, behind)) = first_word(rest) else {
            break;
        };
        out.push(b' ')?;
        out.extend_from_slice(word)?;
        rest = behind;
    }
    Ok(())
}

/// Appends an instruction as the listing has it.
fn put_listed(out: &mut Vec<u8>, image: &Image, pc: u16) -> Result<(), AllocError>
    requires { pc < length image.now.points }
{
    // for what it says of the image
    image.len();
    put_code(out, image, image.instr(pc))
}

/// Appends an instruction, as its text writes it, or as the listing does. It begins after four spaces.
pub fn put_instruction(
    out: &mut Vec<u8>,
    image: &Image,
    origin: Option<&Origin<'_>>,
    pc: u16,
) -> Result<(), AllocError>
    requires { pc < length image.now.points }
{
    if let Some(origin) = origin
        && !origin.code.is_empty()
    {
        out.extend_from_slice(b"   ")?;
        return put_words(out, origin.code);
    }
    put_listed(out, image, pc)
}

/// Appends the place of an instruction, its labels in its text, and the instruction.
pub(crate) fn put_placed(
    out: &mut Vec<u8>,
    image: &Image,
    origins: Option<&[Origin<'_>]>,
    pc: u16,
) -> Result<(), AllocError>
    requires { pc < length image.now.points }
{
    let origin = origin_of(origins, pc);
    put_place(out, origin, pc)?;
    if let Some(origin) = origin
        && !origin.code.is_empty()
    {
        out.extend_from_slice(b"   ")?;
        origin.put_labels(out)?;
        return put_words(out, origin.code);
    }
    put_listed(out, image, pc)
}

/// Appends a line for each instruction of the image: how often it ran, its place, and the instruction.
pub fn put_counts(
    out: &mut Vec<u8>,
    image: &Image,
    origins: Option<&[Origin<'_>]>,
    trace: &Trace,
) -> Result<(), AllocError> {
    for pc in 0..image.len() {
        put_numbered(out, "", u64::from(trace.count(pc)))?;
        out.extend_from_slice(b"  ")?;
        put_placed(out, image, origins, pc)?;
        out.extend_from_slice(b"\n")?;
    }
    Ok(())
}

/// Appends the last line: how many steps the run took, and how many are left of the budget.
pub fn put_end(out: &mut Vec<u8>, outcome: &Outcome, budget: u32) -> Result<(), AllocError> {
    put_numbered(out, "steps ", u64::from(outcome.steps))?;
    put_numbered(
        out,
        ", left ",
        u64::from(budget.saturating_sub(outcome.steps)),
    )?;
    out.extend_from_slice(b"\n")
}

/// Appends what a call printed of which a block could not be locked, so that no routine ran: the number of the refusal, as a script has it.
pub fn put_refused(out: &mut Vec<u8>, refusal: u16) -> Result<(), AllocError>
    ensures { OnOk result (out.new.items ≡ out.old.items ++ codes "refused " ++ decimal refusal ++ 10 ∷ []) }
{
    put_numbered(out, "refused ", u64::from(refusal))?;
    out.extend_from_slice(b"\n")
}
