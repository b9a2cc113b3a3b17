//! What a placed program of the structured language means, and that its code does what is written: `specs/` has the definitions, and there
//! is no code.
#![tactic(auto)]

ghost use Rattle.tkv_meaning.specs.Written.{RoutinesDoWhatIsWritten};

/// A run of a routine that returns has done what the routine's statement says, however its code is laid out.
pub fn routines_do_what_is_written()
    ensures { RoutinesDoWhatIsWritten }
{}
