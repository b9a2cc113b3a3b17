//! What it means to run an image, and the theorem that accepted images run well.
//!
//! docs/MODEL.md has the definitions in words.
#![tactic(auto)]

ghost use Rattle.geos_semantics.specs.Theorem.{AcceptedImagesRunWell};

/// Whatever image the verifier accepts, a run of a routine from a sound state that is as its
/// entry row says meets no fault, whatever is refused from outside; it returns within the
/// routine's budget, in a sound state that is as the exit row says.
pub fn accepted_images_run_well()
    ensures { AcceptedImagesRunWell }
{}
