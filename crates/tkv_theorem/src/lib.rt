//! What runs is what was written: from a source that the compiler accepts to the machine's memory, output and file. `specs/` has the statements,
//! and there is no code.
#![tactic(auto)]

ghost use Rattle.tkv_theorem.specs.Named.{CoveredRunsAsNamed};
ghost use Rattle.tkv_theorem.specs.Theorem.{CompiledRunsAsWritten, HonestDriftsStay};

use vm_file::Device;

/// On any device: a run of a compiled source, as `Machine::run_in_place` gives it, has done what the placed routine says, and a stop within the
/// run leaves what the file keeps in one of its scopes.
pub fn compiled_runs_as_written<D: Device>()
    ensures written { CompiledRunsAsWritten D.medium }
    ensures honest { HonestDriftsStay D.medium }
{}

/// On any device: a run of a compiled source outputs what the source says with its names, if `tkv_names::means_named` covers the routine.
pub fn covered_runs_as_named<D: Device>()
    ensures { CoveredRunsAsNamed D.medium }
{}
