//! What the edges of an instruction cost, and what they do to counters.

ghost use Rattle.std.specs.Prelude.{◌≡◌, ◌<◌, Some, true, false};
ghost use Rattle.geos_image.specs.Fields.{FieldsFit};
ghost use Rattle.geos_potentials.specs.Arcs.{counting_of, IsArcIf, AreArcs};
ghost use Rattle.geos_code.specs.Known.{row_of, known_at};

use control_graph::{Arc, Counting, Graph};
use geos_code::{Body, Known, bound_of, edge_in, row_of};
use geos_counters::{called_at, touched_by};
use geos_image::{Instr, Opcode};
use geos_verify::Touched;

/// What the edge of the instruction at a pc to the next one does to counters.
fn counting_along(i: &Instr, known: &Known, touched: &Touched, pc: u16) -> Counting
    requires fields { FieldsFit i.now.opcode i.now }
    requires inside { pc < 4096 }
    ensures { result ≡ counting_of (row_of (known_at known.now pc)) touched.now i.now i.now.opcode false }
{
    match i.opcode {
        Opcode::Setk => Counting::Sets(i.a, i.imm),
        Opcode::Setkw => Counting::Sets(i.a, bound_of(&row_of(&known.at(pc)), i.b)),
        Opcode::Loop => Counting::Sets(i.a, 0),
        Opcode::Call => Counting::Forgets(touched_by(touched, i.imm)),
        _ => Counting::Nothing,
    }
}

/// What an edge of the instruction at a pc does to counters.
fn counting_over(i: &Instr, known: &Known, touched: &Touched, pc: u16, branch: bool) -> Counting
    requires fields { FieldsFit i.now.opcode i.now }
    requires inside { pc < 4096 }
    ensures { result ≡ counting_of (row_of (known_at known.now pc)) touched.now i.now i.now.opcode branch }
{
    if !branch {
        return counting_along(i, known, touched, pc);
    }
    match i.opcode {
        Opcode::Loop => Counting::Takes(i.a),
        _ => Counting::Nothing,
    }
}

/// The edge of the instruction at a pc, if it stays in the routine.
pub(crate) fn arc_of(
    body: &Body,
    known: &Known,
    touched: &Touched,
    pc: u16,
    branch: bool,
) -> Option<Arc>
    requires { pc < body.now.end }
    ensures { IsArcIf body.now.image.now body.now.r known.now touched.now pc branch result }
{
    let edge = edge_in(body, pc, branch)?;
    Some(Arc {
        to: edge.to,
        called: called_at(body, pc),
        counting: counting_over(body.image.instr(pc), known, touched, pc, branch),
    })
}

/// Notes the edges of a routine, in the place of those of another.
pub(crate) fn note_edges(graph: &mut Graph, body: &Body, known: &Known, touched: &Touched)
    ensures { AreArcs body.now.image.now body.now.r known.now touched.now graph.new.arcs }
{
    graph.clear_from(body.start);
    for pc in body.start..body.end {
        let along = arc_of(body, known, touched, pc, false);
        let branching = arc_of(body, known, touched, pc, true);
        graph.add(pc, along, branching);
    }
}
