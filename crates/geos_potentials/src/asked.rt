//! What the instruction at a pc asks of the potential there.

ghost use Rattle.std.specs.Prelude.{◌≡◌, ◌<◌, ◌≤◌, max};
ghost use Rattle.geos_verify.specs.Lists.{zip2};
ghost use Rattle.geos_potentials.specs.Constants.{IsAsked};
ghost use Rattle.geos_potentials.specs.Numbers.{numbers_of};
ghost use Rattle.geos_counters.specs.Counters.{zeros};
ghost use Rattle.geos_potentials.specs.Count.{asked_steps, asked_coefficients, return_steps, AsksSteps, IsFound};

use geos_code::{Body, Known, edge_in, row_of};
use geos_image::{Instr, Opcode, Potential, Table};
use geos_verify::{Asked, asked_along, asked_branching};

/// The potential at each pc.
pub type Potentials = Table<Potential>;

/// What an edge asks, if the instruction at the pc has it and it stays in the routine.
pub(crate) fn asked_over(
    body: &Body,
    known: &Known,
    potentials: &Potentials,
    pc: u16,
    branch: bool,
) -> Option<Asked>
    requires above { body.now.start ≤ pc }
    requires below { pc < body.now.end }
    ensures steps { AsksSteps body.now.image.now body.now.r body.now.end pc branch (numbers_of potentials.now) result }
    ensures asks { IsAsked body.now.image.now body.now.r known.now (numbers_of potentials.now) pc branch result }
{
    let edge = edge_in(body, pc, branch)?;
    let i = body.image.instr(pc);
    let next = potentials.at(edge.to);
    if branch {
        Some(asked_branching(i, &next))
    } else {
        let row = row_of(&known.at(pc));
        Some(asked_along(body.image, i, &row, &next))
    }
}

/// The coefficients that an edge asks; none if there is no edge.
fn asked_coefficients(asked: &Option<Asked>) -> [u32; 4]
    ensures { result ≡ asked_coefficients asked.now }
{
    match asked {
        None => [0; 4],
        Some(asked) => asked.coefficients,
    }
}

/// What an edge asks of the constant, where these are the coefficients.
fn owed(asked: &Option<Asked>, coefficients: &[u32; 4]) -> u64
    ensures { coefficients.now ≡ zeros → result ≡ asked_steps asked.now }
{
    match asked {
        None => 0,
        Some(asked) => asked.steps.saturating_sub(asked.left(&Potential {
            constant: 0,
            coefficients: *coefficients,
        })),
    }
}

fn larger(a: u32, b: u32) -> u32
    ensures { result ≡ max a b }
{
    a.max(b)
}

pub(crate) fn coefficients_join(p: &[u32; 4], q: &[u32; 4]) -> [u32; 4]
    ensures { result ≡ zip2 max p.now q.now }
{
    let [p0, p1, p2, p3] = *p;
    let [q0, q1, q2, q3] = *q;
    [
        larger(p0, q0),
        larger(p1, q1),
        larger(p2, q2),
        larger(p3, q3),
    ]
}

/// The steps that a return requires.
pub(crate) fn return_steps(i: &Instr) -> u64
    ensures { result ≡ return_steps i.now }
{
    match i.opcode {
        Opcode::Ret => 1,
        _ => 0,
    }
}

fn larger64(a: u64, b: u64) -> u64
    ensures { result ≡ max a b }
{
    a.max(b)
}

/// The least potential that pays for what the instruction at a pc asks; `None` if its constant is
/// past what a potential can say.
pub(crate) fn potential_at(
    body: &Body,
    known: &Known,
    potentials: &Potentials,
    pc: u16,
) -> Option<Potential>
    requires above { body.now.start ≤ pc }
    requires below { pc < body.now.end }
    ensures { IsFound body.now.image.now body.now.r body.now.end pc (numbers_of potentials.now) result }
{
    let i = body.image.instr(pc);
    let along = asked_over(body, known, potentials, pc, false);
    let branching = asked_over(body, known, potentials, pc, true);
    let coefficients = coefficients_join(
        &asked_coefficients(&along),
        &asked_coefficients(&branching),
    );
    let edges = larger64(owed(&along, &coefficients), owed(&branching, &coefficients));
    match u32::try_from(larger64(return_steps(i), edges)) {
        Ok(constant) => Some(Potential {
            constant,
            coefficients,
        }),
        Err(_) => None,
    }
}
