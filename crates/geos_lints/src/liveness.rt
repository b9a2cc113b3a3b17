//! Which words may be read later: a backward analysis to its least fixed point.

use crate::words::{REFUSAL, Words, can_be_refused, read, written};
use geos_image::{Image, Instr, Point, branches, falls_through};
use geos_opcodes::Flow;
use std::alloc::{AllocError, Global};

/// For each pc the words that may be read before they are written, from that instruction on.
#[derive(Drop)]
pub(crate) struct Liveness {
    before: Vec<Words>,
    /// The words that a CALL is taken to read, and who calls a private routine to read after it.
    passed: Words,
}

impl Liveness {
    /// The words that are live before an instruction; none past the end.
    pub(crate) fn before(&self, pc: usize) -> Words {
        self.before.get(pc).copied().unwrap_or(0)
    }

    /// The words that are live on the way to the next instruction.
    pub(crate) fn after(&self, pc: usize, i: &Instr) -> Words {
        if falls_through(i.opcode) {
            self.before(pc.saturating_add(1)) & !written(i)
        } else {
            0
        }
    }

    /// The words that are live on the way to the target. A refusal writes one word.
    fn at_target(&self, i: &Instr) -> Words {
        if !branches(i.opcode) {
            return 0;
        }
        let live = self.before(usize::from(i.target));
        if can_be_refused(i) {
            live & !REFUSAL
        } else {
            live
        }
    }

    /// Takes an instruction into account, and returns whether more is live before it.
    fn add(&mut self, pc: usize, i: &Instr, returned: Words) -> bool {
        let left = if i.opcode.facts().flow == Flow::Returns {
            returned
        } else {
            read(i, self.passed)
        };
        let live = left | self.after(pc, i) | self.at_target(i);
        match self.before.get_mut(pc) {
            Some(before) if *before != live => {
                *before = live;
                true
            }
            _ => false,
        }
    }

    /// Goes once over the instructions of a routine, from the last to the first.
    fn sweep(&mut self, points: &[Point], start: usize, end: usize, returned: Words) -> bool {
        let mut is_new = false;
        for pc in (start..end).rev() {
            if let Some(point) = points.get(pc)
                && self.add(pc, &point.instr, returned)
            {
                is_new = true;
            }
        }
        is_new
    }

    /// The liveness of an image. A CALL reads the words `passed`, and they are live at the end of a private routine; none is at the end of a
    /// public one. A sweep adds a word at one instruction at least, so that the sweeps of a routine are at most eight times its
    /// instructions, and one more.
    pub(crate) fn of(alloc: Global, image: &Image, passed: Words) -> Result<Liveness, AllocError> {
        let points = image.points();
        let mut before = Vec::new(alloc);
        for _ in points {
            before.push(0)?;
        }
        let mut live = Liveness { before, passed };
        let mut start: usize = 0;
        for r in 0..image.count() {
            let routine = image.routine(r);
            let end = start.saturating_add(usize::from(routine.count));
            let returned = if routine.public { 0 } else { passed };
            for _ in 0..=8 * usize::from(routine.count) {
                if !live.sweep(points, start, end, returned) {
                    break;
                }
            }
            start = end;
        }
        Ok(live)
    }
}
