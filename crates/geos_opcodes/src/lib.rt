//! The opcodes: one table of what there is to know of each, their words, and how operands are
//! written in a text.
//!
//! docs/INSTRUCTIONS.md says what instructions do.
#![tactic(auto)]

mod facts;
mod fields;
mod names;
mod opcode;
mod uses;

pub use facts::{CounterUse, Facts, Flow, Yields};
pub use fields::{FIELDS, Field, operand_at};
pub use names::OPCODES;
pub use opcode::{Opcode, Operand, Operands};
pub use uses::{Kind, Offset, PointerUse, SlotUse, Uses, Width};
