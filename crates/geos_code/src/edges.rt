//! The edges of an instruction within its routine.

ghost use Rattle.std.specs.Prelude.{◌≡◌, ◌<◌, ◌≤◌, false, slice_get, IfSome};
ghost use Rattle.geos_code.specs.Code.{is_loop, ForwardIn, IsPcOf, TargetAhead, edge_end};
ghost use Rattle.geos_code.specs.Edges.{edge_within, IsInside, LeadsTo};

use crate::body::Body;
use geos_flow::Edge;
use geos_image::{Instr, Opcode};
use geos_verify::has_edge;

/// An edge, and the pc that it leads to.
#[derive(Clone, Copy)]
pub struct Lead {
    pub edge: Edge,
    pub to: u16,
}

/// Whether the instruction is a LOOP.
pub fn is_loop(opcode: Opcode) -> bool
    ensures { result ≡ is_loop opcode }
{
    match opcode {
        Opcode::Loop => true,
        _ => false,
    }
}

/// The pc that the edge leads to.
pub fn edge_end(pc: u16, i: &Instr, branch: bool) -> u16
    requires { pc < 4096 }
    ensures { result ≡ edge_end pc i.now branch }
{
    if branch { i.target } else { pc + 1 }
}

/// The edge of the instruction at a pc, if it has it and it stays in the routine.
pub fn edge_in(body: &Body, pc: u16, branch: bool) -> Option<Lead>
    requires { pc < body.now.end }
    ensures value { IfSome (slice_get body.now.image.now.points pc)
        (λ point. result ≡ edge_within body.now.start body.now.end pc point.instr branch) }
    ensures inside { IfSome result (IsInside body.now.image.now body.now.end pc branch) }
    ensures leads { IfSome result (λ lead. LeadsTo body.now.image.now pc branch lead.to) }
    ensures stays { IfSome result (λ lead. IsPcOf body.now.image.now body.now.r lead.to) }
{
    let i = body.image.instr(pc);
    let to = edge_end(pc, i, branch);
    if has_edge(i, branch) && body.start <= to && to < body.end {
        let edge = Edge { from: pc, branch };
        Some(Lead { edge, to })
    } else {
        None
    }
}

/// Whether the edge to the target leads back in the routine, or to the instruction itself.
pub fn leads_back(body: &Body, pc: u16) -> bool
    requires above { body.now.start ≤ pc }
    requires below { pc < body.now.end }
    ensures none { ForwardIn body.now.image.now body.now.r → result ≡ false }
    ensures ahead { result ≡ false → TargetAhead body.now.image.now body.now.r pc }
{
    match edge_in(body, pc, true) {
        Some(lead) => lead.to <= pc,
        None => false,
    }
}
