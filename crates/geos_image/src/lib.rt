//! Images of routines: their instructions with rows and potentials for the verifier, and their
//! bytes.
//!
//! docs/FORMATS.md has the format, docs/INSTRUCTIONS.md the instructions.
#![tactic(auto)]

mod error;
mod image;
mod instr;
mod keys;
mod legal;
mod point;
mod potential;
mod reader;
mod routine;
mod row;
mod table;
mod whole;
mod writer;

pub use error::ReadError;
pub use geos_opcodes::{Opcode, Operand, Operands};
pub use image::Image;
pub use instr::{Instr, value_at};
pub use keys::{Flags, branches, falls_through, keys_of};
pub use legal::{MOST_INSTRS, MOST_ROUTINES, are_name_bytes};
pub use point::Point;
pub use potential::Potential;
pub use reader::read;
pub use routine::Routine;
pub use row::{Pointer, Row, SlotState};
pub use table::{Table, two_tables};
pub use whole::Whole;
pub use writer::write;
