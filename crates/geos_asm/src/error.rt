//! Why a text is not assembled, or has no budgets.

ghost use Rattle.std.specs.Prelude.{◌≡◌};
ghost use Rattle.geos_asm.specs.Assembling.{of_parse};
ghost use Rattle.geos_asm.specs.declared.error.AssembleError.TheVariants.{Memory};
ghost use Rattle.geos_asm.specs.declared.error.BudgetError.TheVariants.{Assemble};

use geos_source::{BadLine, ParseError};
use std::alloc::AllocError;
use thiserror::Error;

/// Why a text is not assembled.
#[derive(Debug, Drop, Error)]
pub enum AssembleError {
    /// The text has a fault: its first faulty line, and why.
    #[error("{0}")]
    BadLine(BadLine),
    /// The text has no fault. In the routine that begins at this line slots differ in more than
    /// marks where paths meet, or no potential was found for it.
    #[error("no rows: line {0}")]
    NoRows(usize),
    /// An allocation was refused.
    #[error("memory")]
    Memory,
}

impl From<AllocError> for AssembleError {
    ghost from_gives = { λ _ e. e ≡ Memory };

    fn from(_: AllocError) -> AssembleError {
        AssembleError::Memory
    }
}

impl From<ParseError> for AssembleError {
    ghost from_gives = { λ fault e. e ≡ of_parse fault };

    fn from(fault: ParseError) -> AssembleError {
        match fault {
            ParseError::BadLine(line) => AssembleError::BadLine(line),
            ParseError::Memory => AssembleError::Memory,
        }
    }
}

/// Why a text has no budgets that serve.
#[derive(Debug, Drop, Error)]
pub enum BudgetError {
    /// It is not assembled.
    #[error("{0}")]
    Assemble(AssembleError),
    /// The CALL on this line names a routine that does not come before its own. The verifier refuses it, whatever the budgets are.
    #[error("no budget: the CALL on line {0} names no earlier routine: move the routine before it, or use a loop")]
    CallsOn(u32),
    /// Nothing sets this counter on a path to the LOOP on this line, for which steps are owed where its routine begins. The verifier refuses
    /// that, whatever the budgets are.
    #[error("no budget: k{0} is not set on a path to the LOOP on line {1}: set it first by SETK or SETKW")]
    NotSet(u8, u32),
}

impl From<AllocError> for BudgetError {
    ghost from_gives = { λ _ e. e ≡ Assemble Memory };

    fn from(_: AllocError) -> BudgetError {
        BudgetError::Assemble(AssembleError::Memory)
    }
}

impl From<AssembleError> for BudgetError {
    ghost from_gives = { λ fault e. e ≡ Assemble fault };

    fn from(fault: AssembleError) -> BudgetError {
        BudgetError::Assemble(fault)
    }
}
