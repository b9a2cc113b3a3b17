//! Which steps of a run are printed, by what they do.

use crate::fault::RunFault;
use geos_cli::ScriptFault;
use geos_image::Image;
use geos_machine::Noted;
use geos_shell::{Line, StepChoice};
use line_marks::Origin;
use std::alloc::{AllocError, Global};

/// The steps that are printed.
#[derive(Drop)]
pub(crate) struct Chosen {
    /// The pcs at which they are; without them, at any pc.
    pcs: Option<Vec<u16>>,
    /// Their numbers, in ascending order; without them, any.
    numbers: Option<Vec<u32>>,
}

/// What a text has for the instruction at a pc.
fn origin_at<'o>(origins: Option<&'o [Origin<'o>]>, pc: u16) -> Option<&'o Origin<'o>> {
    match origins {
        Some(origins) => origins.get(usize::from(pc)),
        None => None,
    }
}

/// Whether an instruction is at the line of the number, or of an image has this pc.
fn has_number(origin: Option<&Origin<'_>>, pc: u16, number: u64) -> bool {
    match origin {
        Some(origin) => origin.place.line == number,
        None => u64::from(pc) == number,
    }
}

/// Whether an instruction has the label of its text, or `L` and its pc without a text.
fn has_label(origin: Option<&Origin<'_>>, pc: u16, label: &str) -> bool {
    if let Some(origin) = origin
        && !origin.code.is_empty()
    {
        return origin.has_label(label.as_bytes());
    }
    match label.strip_prefix("L") {
        Some(digits) => matches!(digits.parse::<u16>(), Ok(number) if number == pc),
        None => false,
    }
}

/// Whether a text has no other characters than decimal digits.
fn has_only_digits(text: &str) -> bool {
    let mut has_only_digits = true;
    for byte in text.as_bytes() {
        has_only_digits = has_only_digits && byte.is_ascii_digit();
    }
    has_only_digits
}

/// Whether an instruction is at a line, which has a number or a label.
fn is_at(origins: Option<&[Origin<'_>]>, pc: u16, line: &str) -> bool {
    let origin = origin_at(origins, pc);
    if has_only_digits(line) {
        has_number(origin, pc, line.parse().unwrap_or(u64::MAX))
    } else {
        has_label(origin, pc, line)
    }
}

/// The pcs of a routine: the first one, and the one after the last.
fn stretch_of(image: &Image, name: &str) -> Option<(u16, u16)> {
    for r in 0..image.count() {
        let routine = image.routine(r);
        if routine.name_text() == name.as_bytes() {
            let first = image.start(r);
            return Some((first, first.saturating_add(routine.count)));
        }
    }
    None
}

/// The pcs of these at a line.
fn pcs_at(
    alloc: Global,
    (first, end): (u16, u16),
    origins: Option<&[Origin<'_>]>,
    line: &str,
) -> Result<Vec<u16>, AllocError> {
    let mut pcs = Vec::new(alloc);
    for pc in first..end {
        if is_at(origins, pc, line) {
            pcs.push(pc)?;
        }
    }
    Ok(pcs)
}

/// The pcs of a line, at least one.
fn pcs_of<'a>(
    alloc: Global,
    image: &Image,
    origins: Option<&[Origin<'_>]>,
    line: &Line<'a>,
) -> Result<Vec<u16>, RunFault<'a>> {
    let Some(stretch) = stretch_of(image, line.routine) else {
        return Err(RunFault::NoSuchRoutine(line.routine));
    };
    let Ok(pcs) = pcs_at(alloc, stretch, origins, line.line) else {
        return Err(RunFault::Session(ScriptFault::Memory));
    };
    if pcs.is_empty() {
        return Err(RunFault::NoLine(line.routine, line.line));
    }
    Ok(pcs)
}

impl Chosen {
    /// All steps.
    pub(crate) fn all() -> Chosen {
        Chosen {
            pcs: None,
            numbers: None,
        }
    }

    /// Steps at the lines of a choice. `RunFault::NoSuchRoutine` and `RunFault::NoLine` if there is no such line.
    pub(crate) fn at_lines<'a>(
        alloc: Global,
        image: &Image,
        origins: Option<&[Origin<'_>]>,
        choice: &StepChoice<'a>,
    ) -> Result<Chosen, RunFault<'a>> {
        if choice.lines.is_empty() {
            return Ok(Chosen::all());
        }
        let mut pcs = Vec::new(alloc);
        for line in &choice.lines {
            let more = pcs_of(alloc, image, origins, line)?;
            if pcs.extend_from_slice(more.as_slice()).is_err() {
                return Err(RunFault::Session(ScriptFault::Memory));
            }
        }
        Ok(Chosen {
            pcs: Some(pcs),
            numbers: None,
        })
    }

    /// Only those of them that have these numbers, in ascending order.
    pub(crate) fn limit(&mut self, numbers: Vec<u32>) {
        self.numbers = Some(numbers);
    }

    /// Whether a step is one of them, after which the conditions of a choice are true.
    pub(crate) fn has(&self, choice: &StepChoice<'_>, number: u64, noted: &Noted) -> bool {
        let is_at_line = match &self.pcs {
            Some(pcs) => pcs.contains(&noted.pc),
            None => true,
        };
        let is_numbered = match (&self.numbers, u32::try_from(number)) {
            (Some(numbers), Ok(number)) => numbers.binary_search(&number).is_ok(),
            (Some(_), Err(_)) => false,
            (None, _) => true,
        };
        let mut is_chosen = is_at_line && is_numbered;
        for condition in &choice.conditions {
            is_chosen = is_chosen && condition.is_true(&noted.words, &noted.counters);
        }
        is_chosen
    }
}
