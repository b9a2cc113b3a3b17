//! Why one call ends early.

use geos_input::ScriptFault;
use std::fmt::{self, Display, Formatter};
use thiserror::Error;

/// Why one call ended early.
#[derive(Drop, Error)]
pub enum CallFault {
    /// This word of the call is wrong. 0 is the name: no public routine has it. Any other is a number, counted from 1: it is the ninth, has
    /// other characters than digits, or is above 65,535 or the bound of its word in the routine's entry row.
    #[error("bad call at word {0}")]
    BadWord(usize),
    /// The routine borrows so many blocks, and more or fewer follow the numbers, or a word that is no `@` with a handle.
    #[error("bad call: {0} blocks are borrowed")]
    BadBlocks(usize),
    /// It ended as a script does.
    #[error(transparent)]
    Script(ScriptFault),
}

impl fmt::Debug for CallFault {
    fn fmt<W: fmt::Write>(&self, f: &mut Formatter<W>) -> fmt::Result {
        Display::fmt(self, f)
    }
}

impl From<ScriptFault> for CallFault {
    ghost use Rattle.std.specs.Prelude.{◌≡◌};
    ghost use Rattle.script_commands.specs.declared.call_fault.CallFault.TheVariants.{Script};

    ghost from_gives = { λ fault e. e ≡ Script fault };

    fn from(fault: ScriptFault) -> CallFault {
        CallFault::Script(fault)
    }
}
