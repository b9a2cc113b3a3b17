//! Why a session or a script ends early.

ghost use Rattle.std.specs.Prelude.{◌≡◌};
ghost use Rattle.geos_input.specs.declared.fault.ScriptFault.TheVariants.{Memory};

use geos_image::ReadError;
use geos_verify::{Reject, Rule};
use std::alloc::{AllocError, AllocFailed};
use thiserror::Error;

/// Why a script or a session ended early. Each except `Write` is reported before the first
/// command runs.
#[derive(Debug, Drop, Error)]
pub enum ScriptFault {
    /// The input, or the script, has more than 1,048,576 bytes.
    #[error("too long")]
    TooLong,
    /// A line before `end` has another character than hexadecimal digits, spaces and tabs; 0
    /// where `end` is missing; the `end` line where the digits are odd in number. Lines are
    /// counted from 1.
    #[error("bad hex line {0}")]
    BadHex(usize),
    /// The image has a fault at this offset.
    #[error("bad image at {0}")]
    BadImage(usize),
    /// The verifier refuses the image at this pc by this rule.
    #[error("rejected at {0} by {1}")]
    Rejected(u16, Rule),
    /// The line of the script, counted from 1, is no command, names no public routine, or has
    /// a word past its bound.
    #[error("bad script line {0}")]
    BadScript(usize),
    /// The reader failed.
    #[error("cannot read -")]
    Read,
    /// The writer failed: the commands so far are done, also the one that was being printed, and
    /// no other is begun.
    #[error("cannot write -")]
    Write,
    /// An allocation was refused.
    #[error("memory")]
    Memory,
}

impl From<AllocError> for ScriptFault {
    ghost from_gives = { λ _ e. e ≡ Memory };

    fn from(_: AllocError) -> ScriptFault {
        ScriptFault::Memory
    }
}

impl<T: Drop> From<AllocFailed<T>> for ScriptFault {
    ghost from_gives = { λ _ e. e ≡ Memory };

    fn from(_: AllocFailed<T>) -> ScriptFault {
        ScriptFault::Memory
    }
}

impl From<ReadError> for ScriptFault {
    ghost use Rattle.geos_input.specs.Fault.{of_read};

    ghost from_gives = { λ error fault. fault ≡ of_read error };

    fn from(error: ReadError) -> ScriptFault {
        match error {
            ReadError::BadImage(at) => ScriptFault::BadImage(at),
            ReadError::Memory => ScriptFault::Memory,
        }
    }
}

impl From<Reject> for ScriptFault {
    ghost use Rattle.geos_input.specs.declared.fault.ScriptFault.TheVariants.{Rejected};

    ghost from_gives = { λ reject fault. fault ≡ Rejected reject.pc reject.rule };

    fn from(reject: Reject) -> ScriptFault {
        ScriptFault::Rejected(reject.pc, reject.rule)
    }
}
