//! The lines of a text, and what is wrong with it.

ghost use Rattle.std.specs.Prelude.{◌≡◌, ◌<◌, ◌⊎◌, IfOk, length};
ghost use Rattle.geos_source.specs.InstrLines.{instr_lines};
ghost use Rattle.geos_verify.specs.Rules.{IsChecked};
ghost use Rattle.takhvoi.specs.Records.{overwritten};
ghost use Rattle.takhvoi.specs.Texts.{FailsAt, IsAccepted};

use crate::explains::{column_in, line_of, why_no_rows};
use crate::records::{put_records, show};
use crate::status::{BAD_IMAGE, DONE, NO_MEMORY, SHORT_BUFFER};
use geos_asm::{Assembled, Unassembled, assemble_or_tell};
use geos_explain::{Refusal, find_refusals};
use geos_image::Image;
use geos_lines::{FaultyLine, faulty_lines, put_saying};
use geos_source::{ParseError, parse};
use geos_verify::{check, refused_places};
use sentence_text::Text;
use std::alloc::{AllocError, Global};

/// The line of each instruction of a text. `told` is how many instructions there are, or the first faulty line.
#[unsafe(no_mangle)]
pub extern "C" fn takhvoi_lines(alloc: Global, text: &[u8], into: &mut [u32], told: &mut u64) -> u32
    ensures lines { result ≡ 0 → (told.new ≡ length (instr_lines text.now)) × (into.new ≡ overwritten into.old (instr_lines text.now)) }
    ensures fault { result ≡ 112 → FailsAt text.now told.new }
    ensures kept { (result ≡ 0 → ⊥) → into.new ≡ into.old }
    ensures own { (result ≡ 0) ⊎ ((result ≡ 111) ⊎ (result ≡ 112)) }
{
    match parse(alloc, text) {
        Ok(parsed) => {
            *told = parsed.lines.len() as u64;
            put_records(&parsed.lines, into);
            DONE
        }
        Err(ParseError::BadLine(fault)) => {
            *told = fault.line as u64;
            BAD_IMAGE
        }
        Err(ParseError::Memory) => NO_MEMORY,
    }
}

/// A finding about a text, with the place of its sentence among the others.
#[repr(C)]
#[derive(Clone, Copy)]
pub struct Finding {
    pub(crate) kind: u32,
    pub(crate) line: u32,
    pub(crate) column: u32,
    pub(crate) rule: u32,
    pub(crate) routine: u32,
    pub(crate) instruction: u32,
    pub(crate) from: u32,
    pub(crate) len: u32,
}

/// A faulty line.
const FAULTY_LINE: u32 = 1;
/// A routine for which no rows are found.
const NO_ROWS: u32 = 2;
/// An instruction that the verifier refuses.
const REFUSAL: u32 = 3;

/// Findings, and their sentences one after another.
#[derive(Drop)]
struct Findings {
    list: Vec<Finding>,
    said: Vec<u8>,
}

/// A number that fits 32 bits, as each does here.
fn short(n: u64) -> u32 {
    n.min(u64::from(u32::MAX)) as u32
}

impl Findings {
    /// Appends a finding with its sentence.
    fn put(&mut self, finding: Finding, sentence: &[u8]) -> Result<(), AllocError> {
        let sentence = sentence.trim_ascii();
        let from = short(self.said.len() as u64);
        self.said.extend_from_slice(sentence)?;
        self.list.push(Finding {
            column: short(column_in(sentence)),
            from,
            len: short(sentence.len() as u64),
            ..finding
        })?;
        Ok(())
    }

    /// Appends a finding about a line.
    fn put_line(&mut self, kind: u32, line: usize, sentence: &[u8]) -> Result<(), AllocError> {
        self.put(
            Finding {
                kind,
                line: short(line as u64),
                column: 0,
                rule: 0,
                routine: 0,
                instruction: 0,
                from: 0,
                len: 0,
            },
            sentence,
        )
    }

    fn put_faulty_line(&mut self, alloc: Global, line: &FaultyLine<'_>) -> Result<(), AllocError> {
        let mut sentence = Text::new(alloc);
        put_saying(&mut sentence, line);
        let sentence = sentence.finish()?;
        self.put_line(FAULTY_LINE, line.fault.line, &sentence)
    }

    fn put_refusal(&mut self, lines: &[u32], refusal: &Refusal) -> Result<(), AllocError> {
        self.put(
            Finding {
                kind: REFUSAL,
                line: short(line_of(lines, refusal.pc)),
                column: 0,
                rule: short(refusal.rule),
                routine: u32::from(refusal.routine),
                instruction: u32::from(refusal.pc),
                from: 0,
                len: 0,
            },
            &refusal.sentence,
        )
    }

    /// What the verifier refuses of an image: as much as `geos asm` prints, so that it takes no longer.
    fn put_refusals(
        &mut self,
        alloc: Global,
        lines: &[u32],
        image: &Image,
    ) -> Result<(), AllocError> {
        let most = 32_768 / (usize::from(image.len()) + 1);
        let refusals = find_refusals(alloc, lines, image, &refused_places(image), most)?;
        for refusal in &refusals.list {
            self.put_refusal(lines, refusal)?;
        }
        Ok(())
    }

    /// Why a text has no image.
    fn put_why_none(
        &mut self,
        alloc: Global,
        text: &[u8],
        why: &Unassembled,
    ) -> Result<(), AllocError> {
        match why {
            Unassembled::BadLine(_) => {
                for line in &faulty_lines(alloc, text)?.lines {
                    self.put_faulty_line(alloc, line)?;
                }
                Ok(())
            }
            Unassembled::NoRows(line, cause, parsed) => {
                let sentence = why_no_rows(alloc, *line, cause, parsed)?;
                self.put_line(NO_ROWS, *line, &sentence)
            }
            Unassembled::Memory => Err(AllocError),
        }
    }

    /// The findings, of which there is one at least.
    fn not_none(self) -> Result<Findings, AllocError>
        ensures { IfOk result (λ findings. 0 < length findings.list.items) }
    {
        if self.list.is_empty() {
            return Err(AllocError);
        }
        Ok(self)
    }
}

/// The findings about a text that has an image.
fn of_assembled(
    alloc: Global,
    mut findings: Findings,
    assembled: Assembled,
) -> Result<Findings, AllocError>
    requires { length findings.list.items ≡ 0 }
    ensures { IfOk result (λ findings. length findings.list.items ≡ 0 → IsChecked assembled.image) }
{
    let Assembled { image, lines } = assembled;
    match check(image) {
        Ok(_) => Ok(findings),
        Err((image, _reject)) => {
            findings.put_refusals(alloc, &lines, &image)?;
            findings.not_none()
        }
    }
}

/// The findings about a text.
fn of_text(alloc: Global, text: &[u8]) -> Result<Findings, AllocError>
    ensures { IfOk result (λ findings. length findings.list.items ≡ 0 → IsAccepted text.now) }
{
    let mut findings = Findings {
        list: Vec::new(alloc),
        said: Vec::new(alloc),
    };
    match assemble_or_tell(alloc, text) {
        Ok(assembled) => of_assembled(alloc, findings, assembled),
        Err(why) => {
            findings.put_why_none(alloc, text, &why)?;
            findings.not_none()
        }
    }
}

/// Writes the findings about a text to `into`, and their sentences to `said`. `count` is the number of findings, `told` that of the bytes of
/// sentences, also if a buffer is too short; then both are as before. There is none if the verifier accepts the text's image.
#[unsafe(no_mangle)]
pub extern "C" fn takhvoi_findings(
    alloc: Global,
    text: &[u8],
    into: &mut [Finding],
    count: &mut u32,
    said: &mut [u8],
    told: &mut u64,
) -> u32
    ensures accepted { result ≡ 0 → count.new ≡ 0 → IsAccepted text.now }
    ensures kept { (result ≡ 0 → ⊥) → (into.new ≡ into.old) × (said.new ≡ said.old) }
    ensures own { (result ≡ 0) ⊎ ((result ≡ 111) ⊎ (result ≡ 115)) }
{
    let Ok(findings) = of_text(alloc, text) else {
        return NO_MEMORY;
    };
    let (n, bytes) = (findings.list.len(), findings.said.len());
    if n > 65_535 {
        return NO_MEMORY;
    }
    *count = n as u32;
    *told = bytes as u64;
    if n > into.len() || bytes > said.len() {
        return SHORT_BUFFER;
    }
    show(&findings.list, into, count);
    put_records(&findings.said, said);
    DONE
}
