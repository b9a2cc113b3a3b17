//! What is known in a routine before rows flow.

ghost use Rattle.geos_rows.specs.Flow.{Seeded, StaysBefore};
ghost use Rattle.geos_rows.specs.Reached.{Copies};

use geos_code::{Body, Known};

/// The entry row of a routine where it begins, and nothing at its other instructions.
pub(crate) fn seed_entry(body: &Body, known: &mut Known)
    ensures seeded { Seeded body.now.image.now body.now.r known.new }
    ensures stays { StaysBefore body.now.start known.old known.new }
{
    known.fill_from(body.start, None);
    known.set(body.start, Some(body.image.routine(body.r).entry));
    // Recalls the lemma.
    known.lengths();
}

/// What is known at the instructions of a routine is what another table has of them.
pub(crate) fn copy_rows(body: &Body, from: &Known, known: &mut Known)
    ensures { Copies body.now.start body.now.end from.now known.old known.new }
{
    // Recalls the lemma.
    known.lengths();
    for pc in body.start..body.end {
        known.set(pc, from.at(pc));
    }
}
