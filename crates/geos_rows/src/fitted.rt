//! Whether what was found in a routine holds.

ghost use Rattle.std.specs.Prelude.{◌≡◌, ◌<◌, ◌↔◌, true, nat_le};
ghost use Rattle.geos_verify.specs.Lists.{all2};
ghost use Rattle.geos_code.specs.Code.{ForwardIn};
ghost use Rattle.geos_rows.specs.Flow.{fits_known};
ghost use Rattle.geos_rows.specs.Reached.{EdgeFits, BackFit, AllFit};
ghost use Rattle.geos_rows.specs.Weakest.{any_words, FitsWeakest, EdgeIsWeak, AllWeak};

use geos_code::{Body, Known, clean, edge_end, leads_back, shape};
use geos_image::Row;
use geos_verify::{after, fits, has_edge};

/// Lemma: a word is at most 65,535.
fn word(bound: u16)
    ensures { nat_le bound 65535 ≡ true }
{}

/// Lemma: each bound is at most 65,535.
fn words(bounds: &[u16; 8])
    ensures { all2 nat_le bounds.now any_words ≡ true }
{
    let [b0, b1, b2, b3, b4, b5, b6, b7] = *bounds;
    word(b0);
    word(b1);
    word(b2);
    word(b3);
    word(b4);
    word(b5);
    word(b6);
    word(b7);
}

/// Whether something is known at a place that the row fits.
fn fits_known(known: &Option<Row>, row: &Row) -> bool
    ensures value { result ≡ fits_known known.now row.now }
    ensures weak { FitsWeakest known.now row.now result }
{
    shape(row);
    words(&row.bounds);
    match known {
        None => false,
        Some(known) => fits(row, known),
    }
}

/// Whether the row after an edge of the instruction at a pc implies the row at the edge's target. True if the instruction has no such
/// edge, or the edge leaves the routine.
fn edge_fits(body: &Body, pc: u16, branch: bool, known: &Known) -> bool
    requires { pc < body.now.end }
    ensures fits { (result ≡ true) ↔ EdgeFits body.now.image.now body.now.r known.now pc branch }
    ensures weak { EdgeIsWeak body.now.image.now body.now.r known.now pc branch → result ≡ true }
{
    let Some(row) = known.at(pc) else {
        return true;
    };
    let i = body.image.instr(pc);
    let to = edge_end(pc, i, branch);
    if has_edge(i, branch) && body.start <= to && to < body.end {
        let next = after(body.image, pc, &clean(&row), branch);
        fits_known(&known.at(to), &next)
    } else {
        true
    }
}

/// Whether the row after each back edge of a routine implies the row at the edge's target.
pub(crate) fn back_edges_fit(body: &Body, known: &Known) -> bool
    ensures none { ForwardIn body.now.image.now body.now.r → result ≡ true }
    ensures fit { result ≡ true → BackFit body.now.image.now body.now.r known.now }
{
    for pc in body.start..body.end {
        if leads_back(body, pc) && !edge_fits(body, pc, true, known) {
            return false;
        }
    }
    true
}

/// Whether the entry row of a routine implies the row of its first instruction, and the row after each edge implies the row at the
/// edge's target.
pub(crate) fn all_fit(body: &Body, known: &Known) -> bool
    ensures fit { result ≡ true → AllFit body.now.image.now body.now.r known.now }
    ensures weak { AllWeak body.now.image.now body.now.r known.now → result ≡ true }
{
    let entry = body.image.routine(body.r).entry;
    if !fits_known(&known.at(body.start), &entry) {
        return false;
    }
    for pc in body.start..body.end {
        if !edge_fits(body, pc, false, known) {
            return false;
        }
        if !edge_fits(body, pc, true, known) {
            return false;
        }
    }
    true
}
