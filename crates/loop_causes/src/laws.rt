//! A lemma about causes.

ghost use Rattle.loop_causes.specs.Causes.{NoOtherHolds};

/// Lemma: if the cause is unknown, no other cause holds.
pub fn no_other_cause_holds()
    ensures { NoOtherHolds }
{}
