//! A sentence on each bad line of a script.

ghost use Rattle.std.specs.Prelude.{◌≡◌, Ok, IfOk};
ghost use Rattle.geos_image.specs.Parts.{Parts};
ghost use Rattle.geos_image.specs.Reading.{image_at};
ghost use Rattle.geos_verify.specs.Rules.{Accepted};
ghost use Rattle.script_commands.specs.BadLines.{first_of, numbers};
ghost use Rattle.geos_scripts.specs.Bad.{bad_ones, named_by_run};

use crate::keeping::fault_of;
use crate::names::{NameUse, Names};
use crate::sentences::put_fault;
use geos_image::Image;
use geos_input::{MOST_BYTES, ScriptFault};
use geos_lines::{MOST_TOLD, put_line_number, put_more};
use geos_verify::{Checked, check};
use script_commands::{Line, bad_lines, bad_lines_with_names};
use sentence_text::Text;
use std::alloc::{AllocError, Global};

/// The report on the bad lines of a script.
#[derive(Drop)]
pub struct BadLines {
    /// A line on each of the first 1,000 of them, in their order, and how many more there are.
    pub told: Vec<u8>,
    /// The number of the first one, from 1.
    pub first: Option<usize>,
}

/// A line on each of some bad lines: its number, and a sentence on its fault.
fn sentences<'a>(
    alloc: Global,
    image: &Image,
    bad: &[Line<'a>],
    mut names: Names<'a>,
) -> Result<Text, AllocError> {
    let mut told = Text::new(alloc);
    for line in bad {
        names.come_to(line)?;
        put_line_number(&mut told, line.number);
        put_fault(&mut told, image, fault_of(image, &names, line.text));
        told.put("\n");
    }
    Ok(told)
}

/// How many bad lines have a diagnostic.
const MOST_DIAGNOSED: usize = 20;

/// Diagnostics on some bad lines of the script FILE: `FILE:LINE:COLUMN: error: SENTENCE`, without a column if no word is wrong.
fn diagnostics<'a>(
    alloc: Global,
    file: &str,
    image: &Image,
    bad: &[Line<'a>],
    mut names: Names<'a>,
) -> Result<Text, AllocError> {
    let mut told = Text::new(alloc);
    for line in bad {
        names.come_to(line)?;
        let fault = fault_of(image, &names, line.text);
        told.put(file);
        told.put_number(":", line.number as u64);
        if let Some(fault) = fault
            && let Some(word) = fault.word()
        {
            told.put_number(":", (word.start as u64).saturating_add(1));
        }
        told.put(": error: ");
        put_fault(&mut told, image, fault);
        told.put("\n");
    }
    Ok(told)
}

/// Appends how many more bad lines a script has, if there are more.
fn put_more_bad(told: &mut Text, file: &str, more: usize) {
    if more > 0 {
        told.put(file);
        told.put_number(": note: and ", more as u64);
        told.put(" more bad lines\n")
    }
}

/// The bad lines of a script whose lines may write names, or may not.
fn bad_ones<'a>(
    alloc: Global,
    checked: &Checked,
    script: &'a [u8],
    names: NameUse,
) -> Result<Vec<Line<'a>>, AllocError>
    ensures { IfOk result (λ bad. numbers bad.items ≡ bad_ones names checked.now script.now) }
{
    match names {
        NameUse::Allowed => bad_lines_with_names(alloc, checked, script),
        NameUse::Refused => bad_lines(alloc, checked, script),
    }
}

/// The number of the first of some lines.
fn first_number(lines: &[Line]) -> Option<usize>
    ensures { result ≡ first_of (numbers lines.now) }
{
    match lines.split_first() {
        Some((line, _)) => Some(line.number),
        None => None,
    }
}

/// The report on the bad lines of a script for a checked image. Its lines may use names, or may not.
fn told_of(
    alloc: Global,
    checked: &Checked,
    script: &[u8],
    names: NameUse,
) -> Result<BadLines, AllocError>
    ensures { IfOk result (λ bad. bad.first ≡ named_by_run names checked.now script.now) }
{
    let bad = bad_ones(alloc, checked, script, names)?;
    let kept = Names::new(alloc, script, names);
    let lines: &[Line] = &bad;
    let few = lines.len().min(MOST_TOLD);
    let mut told = sentences(alloc, checked.image(), &lines[..few], kept)?;
    put_more(&mut told, lines.len() - few);
    let first = first_number(lines);
    let told = told.finish()?;
    Ok(BadLines { told, first })
}

/// The report on the bad lines of a script, for the image that the bytes encode. Its lines may use names for words that
/// calls output, or may not. Nothing runs. The faults are those of a script that are found before it runs, except for
/// its bad lines.
pub fn tell_bad_lines(
    alloc: Global,
    image: &[u8],
    script: &[u8],
    names: NameUse,
) -> Result<BadLines, ScriptFault>
    ensures first { IfOk result (λ bad. (parts : Parts) × (image_at image.now ≡ Ok parts) × Accepted parts
        × (bad.first ≡ named_by_run names parts script.now)) }
{
    if script.len() > MOST_BYTES {
        return Err(ScriptFault::TooLong);
    }
    let image = geos_image::read(alloc, image)?;
    match check(image) {
        Ok(checked) => Ok(told_of(alloc, &checked, script, names)?),
        Err((_image, reject)) => Err(ScriptFault::from(reject)),
    }
}

/// The bad lines of the script FILE as diagnostics: `FILE:LINE:COLUMN: error: SENTENCE` for each of the first 20, and how many more there are.
/// Empty if there are none. Columns count bytes from 1. The faults are those of `tell_bad_lines`.
pub fn diagnose_bad_lines(
    alloc: Global,
    file: &str,
    image: &[u8],
    script: &[u8],
    names: NameUse,
) -> Result<Vec<u8>, ScriptFault> {
    if script.len() > MOST_BYTES {
        return Err(ScriptFault::TooLong);
    }
    let checked = match check(geos_image::read(alloc, image)?) {
        Ok(checked) => checked,
        Err((_image, reject)) => return Err(ScriptFault::from(reject)),
    };
    let bad = bad_ones(alloc, &checked, script, names)?;
    let kept = Names::new(alloc, script, names);
    let lines: &[Line] = &bad;
    let few = lines.len().min(MOST_DIAGNOSED);
    let mut told = diagnostics(alloc, file, checked.image(), &lines[..few], kept)?;
    put_more_bad(&mut told, file, lines.len() - few);
    Ok(told.finish()?)
}
