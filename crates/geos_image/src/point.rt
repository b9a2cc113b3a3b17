//! Program points.

use crate::instr::Instr;
use crate::potential::Potential;
use crate::row::Row;

/// A program point: an instruction with its row and its potential.
#[derive(Clone, Copy)]
pub struct Point {
    pub instr: Instr,
    /// What is known of the registers before the instruction, where an image gives that.
    pub row: Option<Row>,
    /// A bound on the steps that are left before the instruction.
    pub potential: Potential,
}
