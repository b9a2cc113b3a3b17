//! Whether a potential pays for an edge.

ghost use Rattle.std.specs.Prelude.{◌≡◌, ◌<◌, true, length};
ghost use Rattle.geos_image.specs.Fields.{FieldsFit, CalleeFits};
ghost use Rattle.geos_verify.specs.Potentials.{are_spent, pays_along, pays_branching, is_within};
ghost use Rattle.geos_verify.specs.Touched.{calls};

use crate::asked::{asked_along, asked_branching};
use crate::body::Body;
use crate::touched::touched_by;
use geos_image::{Instr, Opcode, Potential, Row};

/// Whether no coefficient is left on a counter that is touched.
pub fn are_spent(touched: &[bool; 4], potential: &Potential) -> bool
    ensures { result ≡ are_spent touched.now potential.now }
{
    let [k0, k1, k2, k3] = potential.coefficients;
    (!touched[0] | (k0 == 0))
        & (!touched[1] | (k1 == 0))
        & (!touched[2] | (k2 == 0))
        & (!touched[3] | (k3 == 0))
}

/// Whether the potential p at an instruction of a routine pays for the edge to the next one, where
/// the potential is q.
pub(crate) fn pays_along(body: &Body, i: &Instr, row: &Row, p: &Potential, q: &Potential) -> bool
    requires fields { FieldsFit i.now.opcode i.now }
    requires callee { CalleeFits (length body.now.image.now.routines) i.now }
    requires lower { calls i.now.opcode ≡ true → i.now.imm < body.now.r }
    ensures { result ≡ pays_along body.now.image.now i.now i.now.opcode row.now p.now q.now }
{
    let is_paid = asked_along(body.image, i, row, q).is_paid(p);
    match i.opcode {
        Opcode::Call => is_paid && are_spent(&touched_by(body, i.imm), q),
        _ => is_paid,
    }
}

/// Whether it pays for the edge to the target.
pub(crate) fn pays_branching(i: &Instr, p: &Potential, q: &Potential) -> bool
    requires { FieldsFit i.now.opcode i.now }
    ensures { result ≡ pays_branching i.now i.now.opcode p.now q.now }
{
    asked_branching(i, q).is_paid(p)
}

/// Whether the potential is within the budget, whatever the counters are.
pub(crate) fn is_within(budget: u32, p: &Potential) -> bool
    ensures { result ≡ is_within budget p.now }
{
    p.constant <= budget && !p.coefficients.iter().any(|k| 0 < *k)
}
