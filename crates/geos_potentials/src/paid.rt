//! Whether potentials pay for the edges and returns of a routine.

ghost use Rattle.std.specs.Prelude.{◌≡◌, ◌≤◌, ◌<◌, true};
ghost use Rattle.geos_verify.specs.Potentials.{is_paid};
ghost use Rattle.geos_potentials.specs.Constants.{ArePaidIn, IsPaidOver, IsPaidAt};
ghost use Rattle.geos_potentials.specs.Numbers.{numbers_of};

use crate::asked::{Potentials, asked_over, return_steps};
use geos_code::{Body, Known};

/// Whether the potential at a pc pays for one of its edges, if it has that.
fn is_paid_over(body: &Body, known: &Known, potentials: &Potentials, pc: u16, branch: bool) -> bool
    requires above { body.now.start ≤ pc }
    requires below { pc < body.now.end }
    ensures { result ≡ true → IsPaidOver body.now.image.now body.now.r known.now (numbers_of potentials.now) pc branch }
{
    match asked_over(body, known, potentials, pc, branch) {
        Some(asked) => asked.is_paid(&potentials.at(pc)),
        None => true,
    }
}

/// Whether it pays for both, and for a return.
fn is_paid_at(body: &Body, known: &Known, potentials: &Potentials, pc: u16) -> bool
    requires above { body.now.start ≤ pc }
    requires below { pc < body.now.end }
    ensures { result ≡ true → IsPaidAt body.now.image.now body.now.r known.now (numbers_of potentials.now) pc }
{
    if !is_paid_over(body, known, potentials, pc, false)
        || !is_paid_over(body, known, potentials, pc, true)
    {
        return false;
    }
    return_steps(body.image.instr(pc)) <= u64::from(potentials.get(pc).constant)
}

/// Whether they do so at each pc.
pub(crate) fn are_paid(body: &Body, known: &Known, potentials: &Potentials) -> bool
    ensures { result ≡ true → ArePaidIn body.now.image.now body.now.r known.now (numbers_of potentials.now) }
{
    for pc in body.start..body.end {
        if !is_paid_at(body, known, potentials, pc) {
            return false;
        }
    }
    true
}
