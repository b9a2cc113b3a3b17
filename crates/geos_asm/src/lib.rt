//! The assembler: the image of an assembly text.
//!
//! docs/FORMATS.md has the form of texts, docs/VERIFIER.md how rows and potentials are found.
#![tactic(auto)]

mod assembler;
mod budgets;
mod calls;
mod cause;
mod error;
mod least;
mod unset;

pub use assembler::{Assembled, assemble, assemble_all_rows, assemble_with_lines};
pub use budgets::{Budgeted, completed, find_budgets, with_least_budgets};
pub use cause::{Unassembled, assemble_or_tell};
pub use error::{AssembleError, BudgetError};
pub use geos_source::{BadLine, Parsed, Why};
