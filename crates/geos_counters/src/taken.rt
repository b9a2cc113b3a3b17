//! How many steps an instruction takes.

ghost use Rattle.std.specs.Prelude.{◌≡◌, ◌<◌, ◌≤◌, ◌+◌};
ghost use Rattle.geos_counters.specs.Steps.{taken_at};

use geos_code::Body;
use geos_image::Opcode;

/// The budget of the routine that the instruction at a pc calls; 0 if it calls none.
pub fn called_at(body: &Body, pc: u16) -> u32
    requires { pc < body.now.end }
    ensures { 1 + result ≡ taken_at body.now.image.now pc }
{
    let i = body.image.instr(pc);
    match i.opcode {
        Opcode::Call => body.image.routine(i.imm).budget,
        _ => 0,
    }
}

/// What the instruction at a pc takes: a step, and the budget of the routine that it calls.
pub fn taken_at(body: &Body, pc: u16) -> u64
    requires { pc < body.now.end }
    ensures value { result ≡ taken_at body.now.image.now pc }
    ensures small { result ≤ 4294967296 }
{
    1 + u64::from(called_at(body, pc))
}
