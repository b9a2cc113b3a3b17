//! What is wrong with images.

use crate::finding::{At, Finding, Severity, put_finding, put_more};
use effect_texts::put_effects;
use geos_explain::{Refusal, RefusalList, Register, find_refusals};
use geos_grants::{Effects, effects_of};
use geos_image::{Image, ReadError};
use geos_json::JsonLines;
use geos_lints::{Doubled, Lint, advice_on, advice_on_doubled, doubled_items, lints};
use geos_verify::{Checked, Reject, check, refused_places};
use line_marks::LineMarks;
use std::alloc::{AllocError, Global};

/// An image, and where it comes from.
#[derive(Clone, Copy)]
struct Judged<'i, 'f, 'l> {
    image: &'i Image,
    source: Source<'f, 'l>,
}

impl<'i> Judged<'i, '_, '_> {
    /// The line of an instruction.
    fn line(&self, pc: u16) -> Option<u64> {
        self.source
            .lines
            .get(usize::from(pc))
            .map(|line| u64::from(*line))
    }

    /// The name of a routine.
    fn routine(&self, index: u16) -> &'i [u8] {
        if index < self.image.count() {
            self.image.routine(index).name_text()
        } else {
            &[]
        }
    }

    /// The routine that an instruction is in.
    fn routine_of(&self, pc: u16) -> u16 {
        let mut found = 0;
        for index in 0..self.image.count() {
            if self.image.start(index) <= pc {
                found = index;
            }
        }
        found
    }

    fn put_refusal(
        &self,
        alloc: Global,
        out: &mut JsonLines,
        refusal: &Refusal,
    ) -> Result<(), AllocError> {
        put_finding(
            alloc,
            out,
            &Finding {
                marks: self.source.marks,
                severity: Severity::Error,
                file: self.source.file,
                line: self.line(refusal.pc),
                column: None,
                at: Some(At {
                    routine: self.routine(refusal.routine),
                    pc: refusal.pc,
                    rule: Some(refusal.rule),
                    register: refusal.register,
                }),
                cause: None,
                cure: None,
                message: &refusal.sentence,
            },
        )
    }

    fn put_warning(
        &self,
        alloc: Global,
        out: &mut JsonLines,
        pc: usize,
        lint: Lint,
    ) -> Result<(), AllocError> {
        let Some(point) = self.image.points().get(pc) else {
            return Ok(());
        };
        let advice = advice_on(alloc, lint, &point.instr)?;
        let Ok(pc) = u16::try_from(pc) else {
            return Ok(());
        };
        let register = match lint {
            Lint::LostInWord7 => Some(Register::Word(7)),
            _ => None,
        };
        put_finding(
            alloc,
            out,
            &Finding {
                marks: self.source.marks,
                severity: Severity::Warning,
                file: self.source.file,
                line: self.line(pc),
                column: None,
                at: Some(At {
                    routine: self.routine(self.routine_of(pc)),
                    pc,
                    rule: None,
                    register,
                }),
                cause: None,
                cure: Some(&advice.cure),
                message: &advice.sentence(alloc)?,
            },
        )
    }

    /// A warning about a line of the text, and no instruction.
    fn put_doubled(
        &self,
        alloc: Global,
        out: &mut JsonLines,
        doubled: &Doubled,
    ) -> Result<(), AllocError> {
        let advice = advice_on_doubled(alloc, doubled)?;
        put_finding(
            alloc,
            out,
            &Finding {
                marks: self.source.marks,
                severity: Severity::Warning,
                file: self.source.file,
                line: Some(u64::from(doubled.line)),
                column: Some(u64::from(doubled.column)),
                at: None,
                cause: None,
                cure: Some(&advice.cure),
                message: &advice.sentence(alloc)?,
            },
        )
    }

    fn put_warnings(&self, alloc: Global, out: &mut JsonLines) -> Result<(), AllocError> {
        for doubled in &doubled_items(alloc, self.source.text)? {
            self.put_doubled(alloc, out, doubled)?;
        }
        for (pc, lint) in &lints(alloc, self.image)? {
            self.put_warning(alloc, out, *pc, *lint)?;
        }
        Ok(())
    }

    fn put_refusals(&self, alloc: Global, out: &mut JsonLines) -> Result<(), AllocError> {
        let image = self.image;
        // As many as `geos explain` prints, so that it takes no longer.
        let most = 32_768 / (usize::from(image.len()) + 1);
        let RefusalList { list, more } = find_refusals(
            alloc,
            self.source.lines,
            image,
            &refused_places(image),
            most,
        )?;
        for refusal in &list {
            self.put_refusal(alloc, out, refusal)?;
        }
        put_more(out, self.source.file, u64::from(more));
        Ok(())
    }
}

/// What is searched in an image.
#[derive(Clone, Copy)]
pub struct Source<'f, 'l> {
    /// The path of the image, or of its text.
    pub file: &'f str,
    /// The text, in which line marks are comments; empty without one.
    pub text: &'f [u8],
    /// The line of each instruction in the text; empty without one.
    pub lines: &'l [u32],
    /// The line marks of the text, if it has some.
    pub marks: Option<&'f LineMarks>,
    /// Whether the author is warned.
    pub warns: bool,
    /// Whether the effects of each routine are listed, if the image is accepted.
    pub effects: bool,
}

/// A set of effects in the words that `--grant` takes, as `output,changes-s0`.
fn grant_list(alloc: Global, effects: &Effects) -> Result<Vec<u8>, AllocError> {
    let mut words = Vec::new(alloc);
    put_effects(&mut words, effects)?;
    let mut list = Vec::new(alloc);
    let mut after_comma = false;
    for byte in &words {
        if *byte != b' ' {
            list.push(*byte)?;
        } else if !after_comma {
            list.push(b'-')?;
        }
        after_comma = *byte == b',';
    }
    Ok(list)
}

/// Writes an object for each routine, with its effects.
fn put_routine_effects(
    alloc: Global,
    out: &mut JsonLines,
    file: &str,
    checked: &Checked,
) -> Result<(), AllocError> {
    let image = checked.image();
    let table = effects_of(checked);
    for r in 0..image.count() {
        let list = grant_list(alloc, &table[usize::from(r)])?;
        out.begin("effects");
        out.text("file", file.as_bytes());
        out.text("routine", image.routine(r).name_text());
        out.text("effects", &list);
        out.end();
    }
    Ok(())
}

/// Writes each refusal of an image, or warnings about an image that is accepted, and its effects. The first refusal, if there is one.
/// `ReadError::BadImage` if the bytes encode no image.
pub fn put_judged(
    alloc: Global,
    out: &mut JsonLines,
    source: &Source<'_, '_>,
    bytes: &[u8],
) -> Result<Option<Reject>, ReadError> {
    let source = *source;
    match check(geos_image::read(alloc, bytes)?) {
        Ok(checked) => {
            let image = checked.image();
            if source.warns {
                Judged { image, source }.put_warnings(alloc, out)?;
            }
            if source.effects {
                put_routine_effects(alloc, out, source.file, &checked)?;
            }
            Ok(None)
        }
        Err((image, reject)) => {
            let judged = Judged {
                image: &image,
                source,
            };
            judged.put_refusals(alloc, out)?;
            Ok(Some(reject))
        }
    }
}
