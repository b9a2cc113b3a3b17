//! An instruction of a routine, with what is known there.

ghost use Rattle.std.proofs.Props.{props};
ghost use Rattle.geos_flow.specs.Marks.{Marking};
ghost use Rattle.geos_explain.specs.Led.{is_reached};
ghost use Rattle.geos_explain.specs.Standing.{IsPlace, OperandFits-prop};

use crate::filled::Filled;
use geos_flow::Marks;
use geos_image::{Instr, Potential, Routine, Row};

/// The instruction at a pc of routine r, its row and its potential.
#[derive(Clone, Copy)]
pub(crate) struct Place<'a> {
    pub image: &'a Filled<'a>,
    pub r: u16,
    pub routine: &'a Routine,
    pub pc: u16,
    pub i: &'a Instr,
    pub row: &'a Row,
    pub potential: &'a Potential,
    /// What control reaches.
    pub marks: &'a Marks,
    ghost marked: { Marking marks.now (is_reached image.now) },
    ghost is: { IsPlace image.now r routine.now pc i.now } by { Prim.hlevel (props, OperandFits-prop) },
}
