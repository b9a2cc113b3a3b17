//! Laws of calls and scripts.

ghost use Rattle.geos_cli.specs.Commits.{OtherCallsKeep};
ghost use Rattle.script_commands.specs.Plain.{PlainLinesSay, PlainScriptsAreBad};
ghost use Rattle.geos_cli.specs.Plain.{PlainScriptsRun};

use vm_file::Device;

/// A call of an accepted image that may not commit, according to its first instruction that commits, leaves the contents of the device
/// unchanged, in each state of its run and after it, whatever is refused from outside. So only commands before which the output is
/// flushed change what a stop leaves.
pub fn other_calls_keep()
    ensures { OtherCallsKeep }
{}

/// A script whose lines write no name does with names what it does without: each line is the same command, the same line is the first
/// bad one, and where all lines run they do what the commands do.
pub fn plain_scripts_do_the_same<D: Device + Drop>()
    ensures say { PlainLinesSay }
    ensures bad { PlainScriptsAreBad }
    ensures run { PlainScriptsRun D.medium }
{}
