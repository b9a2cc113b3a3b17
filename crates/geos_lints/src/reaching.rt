//! Which instructions control may reach, where word 7 may have what the routine put there, and which counters are 0: a forward analysis to
//! its least fixed point.

use crate::words::{REFUSAL, can_be_refused, read, written};
use geos_image::{Image, Instr, Point, branches, falls_through};
use geos_opcodes::{Flow, Opcode};
use std::alloc::{AllocError, Global};

/// A set of counters: bit n stands for counter n.
type Counters = u8;

/// What is known of control at an instruction.
#[derive(Clone, Copy, PartialEq, Eq)]
struct Arrival {
    /// Control may reach it.
    is_reached: bool,
    /// On some way word 7 has a value that an instruction of the routine put there, and not the number of a refusal.
    has_value: bool,
    /// On some way word 7 has neither, and nothing read it. A jump to a target of refusals is taken to be meant, and counts as a refusal.
    is_unset: bool,
    /// It is the target of an instruction that may be refused.
    after_refusal: bool,
    /// On each way these counters are 0.
    zeros: Counters,
}

/// Before any way to an instruction is known.
const NO_ARRIVAL: Arrival = Arrival {
    is_reached: false,
    has_value: false,
    is_unset: false,
    after_refusal: false,
    zeros: 0,
};

/// The way to the first instruction of a routine.
const AT_ENTRY: Arrival = Arrival {
    is_unset: true,
    ..NO_ARRIVAL
};

/// The set of the counter that an instruction names first.
fn counter_of(i: &Instr) -> Counters {
    if i.a < 8 { 1 << i.a } else { 0 }
}

/// Whether an instruction reads word 7, so that what is there is meant.
fn reads_word_7(i: &Instr) -> bool {
    read(i, 0) & REFUSAL != 0
}

/// Whether an instruction puts a value into word 7. A CALL seldom does.
fn puts_into_word_7(i: &Instr) -> bool {
    written(i) & REFUSAL != 0 && i.opcode.facts().flow != Flow::Calls
}

/// The counters that are 0 when control passes from an instruction to the next one. A CALL may change all.
fn zeros_after(i: &Instr, zeros: Counters) -> Counters {
    match i.opcode {
        Opcode::Loop => zeros | counter_of(i),
        Opcode::Setk if i.imm == 0 => zeros | counter_of(i),
        Opcode::Setk | Opcode::Setkw => zeros & !counter_of(i),
        _ if i.opcode.facts().flow == Flow::Calls => 0,
        _ => zeros,
    }
}

/// The counters that are 0 when an instruction goes to its target. A LOOP does so only if its counter is above 0, and it may become 0.
fn zeros_at_target(i: &Instr, zeros: Counters) -> Counters {
    match i.opcode {
        Opcode::Loop => zeros & !counter_of(i),
        _ => zeros,
    }
}

/// For each pc what is known of control there.
#[derive(Drop)]
pub(crate) struct Reaching {
    arrivals: Vec<Arrival>,
}

impl Reaching {
    fn at(&self, pc: usize) -> Arrival {
        self.arrivals.get(pc).copied().unwrap_or(NO_ARRIVAL)
    }

    /// Whether control may reach an instruction.
    pub(crate) fn is_reached(&self, pc: usize) -> bool {
        self.at(pc).is_reached
    }

    /// Whether word 7 may have a value at an instruction that another one put there, and no number of a refusal.
    pub(crate) fn has_value(&self, pc: usize) -> bool {
        self.at(pc).has_value
    }

    /// Whether the counter of a LOOP is 0 on each path to it.
    pub(crate) fn is_at_zero(&self, pc: usize, i: &Instr) -> bool {
        i.opcode == Opcode::Loop && self.at(pc).zeros & counter_of(i) != 0
    }

    /// Whether an instruction is the target of one that may be refused.
    pub(crate) fn is_after_refusal(&self, pc: usize) -> bool {
        self.at(pc).after_refusal
    }

    /// Whether control passes from an instruction to the next one, and word 7 may then have neither a value nor the
    /// number of a refusal.
    pub(crate) fn leaves_unset(&self, pc: usize, i: &Instr) -> bool {
        self.at(pc).is_unset && falls_through(i.opcode) && !puts_into_word_7(i) && !reads_word_7(i)
    }

    /// Notes a way to an instruction, and returns whether that is new.
    fn arrive(&mut self, pc: usize, way: Arrival) -> bool {
        match self.arrivals.get_mut(pc) {
            Some(arrival) => {
                let kept = if arrival.is_reached {
                    arrival.zeros
                } else {
                    way.zeros
                };
                let new = Arrival {
                    is_reached: true,
                    has_value: arrival.has_value | way.has_value,
                    is_unset: arrival.is_unset | way.is_unset,
                    after_refusal: arrival.after_refusal,
                    zeros: kept & way.zeros,
                };
                let is_new = *arrival != new;
                *arrival = new;
                is_new
            }
            None => false,
        }
    }

    /// Takes the ways from an instruction into account, and returns whether one is new.
    fn leave(&mut self, pc: usize, i: &Instr) -> bool {
        let here = self.at(pc);
        if !here.is_reached {
            return false;
        }
        let mut is_new = false;
        if falls_through(i.opcode) {
            let puts = puts_into_word_7(i);
            let way = Arrival {
                has_value: puts | here.has_value,
                is_unset: here.is_unset & !puts & !reads_word_7(i),
                zeros: zeros_after(i, here.zeros),
                ..here
            };
            is_new = self.arrive(pc.saturating_add(1), way);
        }
        if branches(i.opcode) {
            let is_refusal = can_be_refused(i);
            let target = usize::from(i.target);
            let to_refusals = self.is_after_refusal(target);
            let way = Arrival {
                has_value: here.has_value & !is_refusal,
                is_unset: here.is_unset & !to_refusals & !reads_word_7(i),
                zeros: zeros_at_target(i, here.zeros),
                ..here
            };
            is_new = self.arrive(target, way) || is_new;
        }
        is_new
    }

    /// Marks the targets of instructions that may be refused.
    fn mark_targets(&mut self, points: &[Point]) {
        for point in points {
            let i = &point.instr;
            if can_be_refused(i)
                && let Some(arrival) = self.arrivals.get_mut(usize::from(i.target))
            {
                arrival.after_refusal = true;
            }
        }
    }

    /// Goes once over the instructions of a routine, from the first to the last.
    fn sweep(&mut self, points: &[Point], start: usize, end: usize) -> bool {
        let mut is_new = false;
        for pc in start..end {
            if let Some(point) = points.get(pc)
                && self.leave(pc, &point.instr)
            {
                is_new = true;
            }
        }
        is_new
    }

    /// The analysis of an image. A sweep changes what is known at one instruction at least, and this changes at most seven times, so that the
    /// sweeps of a routine are at most seven times its instructions, and one more.
    pub(crate) fn of(alloc: Global, image: &Image) -> Result<Reaching, AllocError> {
        let points = image.points();
        let mut arrivals = Vec::new(alloc);
        for _ in points {
            arrivals.push(NO_ARRIVAL)?;
        }
        let mut reaching = Reaching { arrivals };
        reaching.mark_targets(points);
        let mut start: usize = 0;
        for r in 0..image.count() {
            let count = usize::from(image.routine(r).count);
            let end = start.saturating_add(count);
            reaching.arrive(start, AT_ENTRY);
            for _ in 0..=7 * count {
                if !reaching.sweep(points, start, end) {
                    break;
                }
            }
            start = end;
        }
        Ok(reaching)
    }
}
