//! What is found in an image.

use crate::liveness::Liveness;
use crate::reaching::Reaching;
use crate::words::{ALL, REFUSAL, can_be_refused, only_computes, read, written};
use geos_image::{Image, Instr, Point, falls_through};
use geos_opcodes::Opcode;
use std::alloc::{AllocError, Global};

/// What is probably not meant.
#[derive(Clone, Copy)]
pub enum Lint {
    /// Control never comes to the instruction.
    NeverReached,
    /// Nothing reads the word that the instruction computes or loads.
    NeverRead,
    /// A value in word 7 is read after the instruction, and also if it is refused, when the number of the refusal is there.
    LostInWord7,
    /// Control runs from the instruction into a label of refusals, from which word 7 is output.
    RunsIntoRefusals,
    /// The counter is set to 0, so that its LOOP does not turn.
    NeverTurns,
    /// The counter of the LOOP is 0 on each way, so that it never jumps.
    NeverJumps,
}

/// Whether word 7 is output from a pc on, before another refusal leads there, and before anything else reads or sets the word.
fn outputs_word_7(reaching: &Reaching, points: &[Point], start: usize) -> bool {
    for (pc, point) in points.iter().enumerate().skip(start) {
        let i = &point.instr;
        if pc > start && reaching.is_after_refusal(pc) {
            return false;
        }
        if (read(i, ALL) | written(i)) & REFUSAL != 0 {
            return i.opcode == Opcode::Out;
        }
        if !falls_through(i.opcode) {
            return false;
        }
    }
    false
}

/// What is known of the words of an image.
#[derive(Drop)]
struct Known {
    /// A word that a CALL may read, or a caller, is live.
    live: Liveness,
    /// The same, except for word 7, which is seldom passed.
    live_here: Liveness,
    reaching: Reaching,
}

impl Known {
    fn of(alloc: Global, image: &Image) -> Result<Known, AllocError> {
        Ok(Known {
            live: Liveness::of(alloc, image, ALL)?,
            live_here: Liveness::of(alloc, image, ALL & !REFUSAL)?,
            reaching: Reaching::of(alloc, image)?,
        })
    }

    /// Whether a value in word 7 is read after an instruction, and at another place also if the instruction is refused.
    fn loses_word_7(&self, pc: usize, i: &Instr) -> bool {
        let target = usize::from(i.target);
        can_be_refused(i)
            && target != pc.saturating_add(1)
            && self.reaching.has_value(pc)
            && self.live_here.after(pc, i) & self.live_here.before(target) & REFUSAL != 0
    }

    /// Whether control runs from an instruction, without a refusal, to a place where refusals jump to and word 7 is
    /// output.
    fn runs_into_refusals(&self, points: &[Point], pc: usize, i: &Instr) -> bool {
        let next = pc.saturating_add(1);
        self.reaching.is_after_refusal(next)
            && self.reaching.leaves_unset(pc, i)
            && outputs_word_7(&self.reaching, points, next)
    }

    /// What is found at an instruction.
    fn lint_at(&self, points: &[Point], pc: usize, i: &Instr) -> Option<Lint> {
        if !self.reaching.is_reached(pc) {
            Some(Lint::NeverReached)
        } else if only_computes(i) && self.live.before(pc.saturating_add(1)) & written(i) == 0 {
            Some(Lint::NeverRead)
        } else if self.runs_into_refusals(points, pc, i) {
            Some(Lint::RunsIntoRefusals)
        } else if self.loses_word_7(pc, i) {
            Some(Lint::LostInWord7)
        } else if i.opcode == Opcode::Setk && i.imm == 0 {
            Some(Lint::NeverTurns)
        } else if self.reaching.is_at_zero(pc, i) {
            Some(Lint::NeverJumps)
        } else {
            None
        }
    }
}

/// What is found in an image, by pc in ascending order. Of instructions that are never reached the first of several in a row is named.
pub fn lints(alloc: Global, image: &Image) -> Result<Vec<(usize, Lint)>, AllocError> {
    let known = Known::of(alloc, image)?;
    let mut found = Vec::new(alloc);
    let mut was_reached = true;
    for (pc, point) in image.points().iter().enumerate() {
        let lint = known.lint_at(image.points(), pc, &point.instr);
        let is_reached = !matches!(lint, Some(Lint::NeverReached));
        if let Some(lint) = lint
            && (is_reached || was_reached)
        {
            found.push((pc, lint))?;
        }
        was_reached = is_reached;
    }
    Ok(found)
}
