//! Causes for which no image is accepted.

ghost use Rattle.geos_infer.specs.Refusals.{NoneIsAcceptedFor, NoneIsAcceptedPast};

/// Lemma: if some path in a routine takes more steps than the greatest potential, with words as large as each image allows there, no image
/// with that code is accepted.
pub fn none_is_accepted_past()
    ensures { NoneIsAcceptedPast }
{}

/// Lemma: if nothing pays for a back edge, a call touches the counter of a LOOP, or the steps exceed the greatest potential, no image with
/// that code is accepted.
pub fn none_is_accepted_for()
    ensures { NoneIsAcceptedFor }
{}
