//! The image of a text, or why there is none, with the cause.

ghost use Rattle.std.specs.Prelude.{◌≡◌, true, false, IfOk, IfErr};
ghost use Rattle.geos_infer.specs.Findings.{Stops};
ghost use Rattle.geos_rows.specs.Why.{MeetAlike};
ghost use Rattle.geos_source.specs.InstrLines.{instr_lines};
ghost use Rattle.loop_causes.specs.Causes.{Holds, tells_of_slots};
ghost use Rattle.geos_asm.specs.Assembling.{IsAssembled, RunsIfAnyDoes, IsWhyUnassembled, TellsOf, unassembled_by};
ghost use Rattle.geos_asm.specs.declared.cause.Unassembled.TheVariants.{Memory};

use crate::assembler::Assembled;
use geos_diagnosis::find_cause;
use geos_flow::Cause;
use geos_image::Image;
use geos_infer::{FindError, Finding, Obstacle, find_image};
use geos_source::{BadLine, ParseError, Parsed, parse, skeleton};
use std::alloc::{AllocError, Global};

/// Why a text is not assembled, in an author's terms.
#[derive(Drop)]
pub enum Unassembled {
    /// The text has a fault: its first faulty line, and why.
    BadLine(BadLine),
    /// The text has no fault. For the routine that begins at this line no rows or no numbers of steps are found, for this cause. The parsed
    /// text follows.
    NoRows(usize, Cause, Parsed),
    /// An allocation was refused.
    Memory,
}

impl From<AllocError> for Unassembled {
    ghost from_gives = { λ _ why. why ≡ Memory };

    fn from(_: AllocError) -> Unassembled {
        Unassembled::Memory
    }
}

impl From<ParseError> for Unassembled {
    ghost from_gives = { λ fault why. why ≡ unassembled_by fault };

    fn from(fault: ParseError) -> Unassembled {
        match fault {
            ParseError::BadLine(line) => Unassembled::BadLine(line),
            ParseError::Memory => Unassembled::Memory,
        }
    }
}

/// Why no rows or no numbers of steps are found for the routine of a finding. If paths meet with slots that differ in more than marks, that
/// is the cause.
fn cause_of(alloc: Global, image: &Image, finding: &Finding) -> Result<Cause, AllocError>
    requires { Stops image.now finding.now }
    ensures holds { IfOk result (Holds image.now finding.now.routine) }
    ensures tells { IfOk result (TellsOf finding.now.obstacle) }
    ensures slots { IfOk result (λ cause. tells_of_slots cause ≡ false → MeetAlike image.now finding.now.routine) }
{
    match &finding.obstacle {
        Obstacle::SlotsDiffer(apart) => Ok(Cause::SlotsDiffer(*apart)),
        Obstacle::NoSteps(unpaid) => find_cause(
            alloc,
            image,
            finding.routine,
            &unpaid.known,
            &unpaid.reason,
        ),
    }
}

/// The image of an assembly text, with the line of each instruction, if `assemble` returns one; otherwise why there is none. If no rows
/// are found, that is a cause that holds for the routine, and says what stopped the search for rows and numbers of steps there.
pub fn assemble_or_tell(alloc: Global, text: &[u8]) -> Result<Assembled, Unassembled>
    ensures image { IfOk result (λ made. IsAssembled text.now made.image) }
    ensures version { IfOk result (λ made. made.image.keyed ≡ true) }
    ensures accepted { IfOk result (λ made. RunsIfAnyDoes text.now made.image) }
    ensures lines { IfOk result (λ made. made.lines.items ≡ instr_lines text.now) }
    ensures why { IfErr result (IsWhyUnassembled text.now) }
{
    let parsed = parse(alloc, text)?;
    let blank = skeleton(alloc, &parsed)?;
    match find_image(alloc, &blank) {
        Ok(whole) => Ok(Assembled {
            image: whole.into_keyed(),
            lines: parsed.lines,
        }),
        Err(FindError::Stopped(finding)) => {
            let routine = &parsed.routines[usize::from(finding.routine)];
            let line = routine.line;
            let cause = cause_of(alloc, &blank, &finding);
            // By a call, so that the check does not go over each table here.
            drop(finding);
            Err(Unassembled::NoRows(line, cause?, parsed))
        }
        Err(FindError::Memory) => Err(Unassembled::Memory),
    }
}
