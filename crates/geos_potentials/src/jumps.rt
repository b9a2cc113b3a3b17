//! LOOPs whose counters are 0, and LOOPs that may pay, by what is noted.

ghost use Rattle.std.specs.Prelude.{◌<◌, true};

use crate::classes::Classes;
use control_graph::Graph;

/// Whether the LOOP at a pc takes from a counter that is 0 there.
pub(crate) fn loops_spent(graph: &Graph, classes: &Classes, pc: u16) -> bool
    requires { pc < 4096 }
{
    let Some(arc) = graph.arc(pc, true) else {
        return false;
    };
    match arc.takes() {
        Some(counter) if counter < 4 => classes.is_spent(pc, counter),
        _ => false,
    }
}

/// Whether the LOOP at a pc may pay, by what is noted.
pub(crate) fn may_pay(graph: &Graph, classes: &Classes, pc: u16) -> bool
    requires { pc < 4096 }
{
    let Some(arc) = graph.arc(pc, true) else {
        return false;
    };
    match arc.takes() {
        Some(counter) => !classes.is_idle(pc, counter),
        None => false,
    }
}
