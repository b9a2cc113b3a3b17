//! Rows that were widened come down again.

ghost use Rattle.std.specs.Prelude.{◌≡◌, true};
ghost use Rattle.geos_rows.specs.Alike.{AllComeAlike, StaysAlike};
ghost use Rattle.geos_rows.specs.Why.{MeetAlike};

use crate::flow::{flow, spread};
use crate::seeds::{copy_rows, seed_entry};
use geos_code::{Body, Known, edge_in};

/// What was given up may come back one loop further in at each descent.
const DESCENTS: u16 = 2;

/// Makes what is known at first in a routine its entry row, and what edges to targets that lead back say of
/// the rows that are known; `false` if two of them have no join.
fn seed(body: &Body, known: &Known, from: &mut Known) -> bool
    ensures { MeetAlike body.now.image.now body.now.r → AllComeAlike body.now.image.now body.now.r known.now
        → (result ≡ true) × AllComeAlike body.now.image.now body.now.r from.new }
{
    seed_entry(body, from);
    for pc in body.start..body.end {
        let Some(row) = known.at(pc) else {
            continue;
        };
        let Some(lead) = edge_in(body, pc, true) else {
            continue;
        };
        if lead.to <= pc && !spread(body, lead, &row, from).has_joined() {
            return false;
        }
    }
    true
}

/// Rows flow again, from what the edges that lead back say of the rows that are known: they fit what is
/// known, and still hold. `false` if two have no join.
pub(crate) fn descend(body: &Body, from: &mut Known, known: &mut Known) -> bool
    ensures { StaysAlike body.now.image.now body.now.r known.old known.new result }
{
    for _ in 0..DESCENTS {
        if !seed(body, known, from) {
            return false;
        }
        copy_rows(body, from, known);
        if !flow(body, known) {
            return false;
        }
    }
    true
}
