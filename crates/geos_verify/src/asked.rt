//! What an edge asks of the potential before it.

ghost use Rattle.std.specs.Prelude.{◌≡◌, ◌<◌, ◌*◌, ◌^◌, length, nat_le};
ghost use Rattle.geos_image.specs.Fields.{FieldsFit, CalleeFits};
ghost use Rattle.geos_verify.specs.Lists.{all2};
ghost use Rattle.geos_verify.specs.Potentials.{asks, asks_setting, asks_taking, asks_calling, asked_along, asked_branching, left_with, is_paid};

use geos_image::{Image, Instr, Opcode, Potential, Row};

/// What an edge asks of the potential before it (docs/VERIFIER.md, paid edges).
#[derive(Clone, Copy)]
pub struct Asked {
    /// The steps that must be left.
    pub steps: u64,
    /// The counter from which 1 is taken, if one is: its coefficient helps to pay for the steps.
    pub counter: Option<u8>,
    /// The coefficients that must be left, at least.
    pub coefficients: [u32; 4],
}

/// Whether each required coefficient is left.
fn coefficients_pay(asked: &[u32; 4], left: &[u32; 4]) -> bool
    ensures { result ≡ all2 nat_le asked.now left.now }
{
    (asked[0] <= left[0]) & (asked[1] <= left[1]) & (asked[2] <= left[2]) & (asked[3] <= left[3])
}

impl Asked {
    /// What the potential has to pay for the steps with: its constant, and the coefficient of the
    /// counter that helps.
    pub fn left(&self, potential: &Potential) -> u64
        ensures { result ≡ left_with self.now.counter potential.now }
    {
        let helps = match self.counter {
            Some(k) => match potential.coefficients.get(usize::from(k)) {
                Some(coefficient) => *coefficient,
                None => 0,
            },
            None => 0,
        };
        u64::from(potential.constant) + u64::from(helps)
    }

    /// Whether the potential pays for the edge.
    pub fn is_paid(&self, potential: &Potential) -> bool
        ensures { result ≡ is_paid self.now potential.now }
    {
        self.steps <= self.left(potential)
            && coefficients_pay(&self.coefficients, &potential.coefficients)
    }
}

/// What a coefficient costs where its counter is set to n.
fn price(coefficient: u32, n: u16) -> u64
    ensures value { result ≡ coefficient * n }
    ensures small { result < 2 ^ 48 }
{
    u64::from(coefficient) * u64::from(n)
}

/// One step, and what is left at the end of the edge.
fn asks(q: &Potential) -> Asked
    ensures { result ≡ asks q.now }
{
    Asked {
        steps: u64::from(q.constant) + 1,
        counter: None,
        coefficients: q.coefficients,
    }
}

/// The same where counter k is set to at most n; its own coefficient may be anything.
fn asks_setting(k: u8, n: u16, q: &Potential) -> Asked
    requires { k < 4 }
    ensures { result ≡ asks_setting k n q.now }
{
    let price = price(q.coefficients[k as usize], n);
    let mut coefficients = q.coefficients;
    coefficients[k as usize] = 0;
    Asked {
        steps: u64::from(q.constant) + 1 + price,
        counter: None,
        coefficients,
    }
}

/// The same where 1 is taken from counter k.
fn asks_taking(k: u8, q: &Potential) -> Asked
    ensures { result ≡ asks_taking k q.now }
{
    Asked {
        steps: u64::from(q.constant) + 1,
        counter: Some(k),
        coefficients: q.coefficients,
    }
}

/// The same where a routine with this budget is called.
fn asks_calling(budget: u32, q: &Potential) -> Asked
    ensures { result ≡ asks_calling budget q.now }
{
    Asked {
        steps: u64::from(q.constant) + 1 + u64::from(budget),
        counter: None,
        coefficients: q.coefficients,
    }
}

/// What the edge to the next instruction requires if `row` is known before it and `next` is the potential there. A call also requires
/// that no counter that the routine touches has a coefficient there.
pub fn asked_along(image: &Image, instr: &Instr, row: &Row, next: &Potential) -> Asked
    requires fields { FieldsFit instr.now.opcode instr.now }
    requires callee { CalleeFits (length image.now.routines) instr.now }
    ensures { result ≡ asked_along image.now instr.now instr.now.opcode row.now next.now }
{
    match instr.opcode {
        Opcode::Setk => asks_setting(instr.a, instr.imm, next),
        Opcode::Setkw => asks_setting(instr.a, row.bounds[instr.b as usize], next),
        Opcode::Loop => asks_setting(instr.a, 0, next),
        Opcode::Call => asks_calling(image.routine(instr.imm).budget, next),
        _ => asks(next),
    }
}

/// What the edge to the target asks, where `next` is the potential there.
pub fn asked_branching(instr: &Instr, next: &Potential) -> Asked
    requires { FieldsFit instr.now.opcode instr.now }
    ensures { result ≡ asked_branching instr.now instr.now.opcode next.now }
{
    match instr.opcode {
        Opcode::Loop => asks_taking(instr.a, next),
        _ => asks(next),
    }
}
