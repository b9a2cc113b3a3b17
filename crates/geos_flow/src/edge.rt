//! The edges along which control goes from an instruction.

ghost use Rattle.std.specs.Prelude.{◌≡◌, ◌<◌};
ghost use Rattle.geos_flow.specs.Edges.{end_of, end_in, number_of};

use geos_image::{Image, Instr};
use geos_verify::has_edge;

/// An edge of the instruction at a pc: to its target, or on to the next instruction.
#[derive(Clone, Copy)]
pub struct Edge {
    /// The pc.
    pub from: u16,
    /// Whether it leads to the target.
    pub branch: bool,
}

/// The pc that the edge of the instruction leads to.
pub fn end_of(edge: Edge, i: &Instr) -> usize
    ensures { result ≡ end_of edge i.now }
{
    if edge.branch {
        usize::from(i.target)
    } else {
        usize::from(edge.from) + 1
    }
}

/// The target of the edge, if the image has the edge and an instruction there.
pub(crate) fn end_in(image: &Image, edge: Edge) -> Option<u16>
    ensures { result ≡ end_in image.now edge }
{
    let point = image.points().get(usize::from(edge.from))?;
    let end = end_of(edge, &point.instr);
    if has_edge(&point.instr, edge.branch) && end < usize::from(image.len()) {
        Some(end as u16)
    } else {
        None
    }
}

/// The place of an edge in a table: those of the first instruction come first.
pub(crate) fn number_of(edge: Edge) -> usize
    requires { edge.from < 4096 }
    ensures { result ≡ number_of edge }
{
    2 * usize::from(edge.from) + usize::from(edge.branch)
}
