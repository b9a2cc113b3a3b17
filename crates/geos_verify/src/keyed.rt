//! Images in version 2, with rows only at key places.

ghost use Rattle.geos_verify.specs.Kept.{KeptIsAccepted};

/// Lemma: what is accepted with its rows at each place is accepted in version 2 too (`Whole::into_keyed`).
pub fn accepted_images_are_accepted_in_version_2()
    ensures { KeptIsAccepted }
{}
