//! Which commands may commit.

ghost use Rattle.std.specs.Prelude.{◌≡◌};
ghost use Rattle.script_commands.specs.Lines.{IsAdmitted};
ghost use Rattle.script_commands.specs.MayCommit.{commits, first_commit, may_commit};

use crate::command::Command;
use geos_image::{Opcode, Point};
use geos_verify::Checked;

/// Whether the instruction commits.
fn commits(opcode: Opcode) -> bool
    ensures { result ≡ commits opcode }
{
    matches!(opcode, Opcode::Vupdate | Opcode::Vsave | Opcode::Vrevert)
}

/// The first pc of an instruction that commits.
pub fn first_commit(points: &[Point]) -> Option<usize>
    ensures { result ≡ first_commit points.now }
{
    points.iter().position(|point| commits(point.instr.opcode))
}

/// Whether the command may commit: it is a commit, or a call, and the first instruction that commits is before the end of the routine.
pub fn may_commit(checked: &Checked, first: Option<usize>, command: &Command) -> bool
    requires admitted { IsAdmitted checked.now command.now }
    requires first { first ≡ first_commit checked.now.points }
    ensures { result ≡ may_commit checked.now command.now }
{
    match command {
        Command::Commit(_) => true,
        Command::Call(call) => {
            let image = checked.image();
            let end = image.start(call.routine) + image.routine(call.routine).count;
            match first {
                Some(pc) => pc < usize::from(end),
                None => false,
            }
        }
    }
}
