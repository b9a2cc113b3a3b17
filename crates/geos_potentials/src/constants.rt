//! Constants: the longest ways from each place, where units of counters pay for so much.

ghost use Rattle.std.specs.Prelude.{◌≡◌, ◌≢◌, ◌<◌, ◌+◌, ◌-◌, ◌&&◌, ℕ, true, false, slice_index_or};
ghost use Rattle.geos_image.specs.Parts.{start_of};
ghost use Rattle.geos_potentials.specs.Arcs.{unit_at};
ghost use Rattle.geos_potentials.specs.Count.{StaysFrom};
ghost use Rattle.geos_potentials.specs.Demands.{HaveGrown, StayWanted};
ghost use Rattle.geos_potentials.specs.Least.{AreEnds, AreLeast, StayAtMost, is_free, IsLookedAt, AreLookedAt, StayAtLoops, NoneOutside, ArePut};
ghost use Rattle.geos_potentials.specs.Numbers.{numbers_of};
ghost use Rattle.control_graph.specs.declared.jumps.Jump.TheVariants.{Plain};
ghost use Rattle.geos_potentials.specs.declared.units.Lack.TheVariants.{Looks, Passes};

use crate::asked::{Potentials, return_steps};
use crate::lengths::Link;
use crate::looks::LOOKS;
use crate::nests::Splitting;
use crate::units::{Lack, Units};
use control_graph::{Graph, Jump, Order, Piece};
use geos_code::Body;
use geos_image::Potential;

/// Whether an edge is the way to its target of a LOOP that is left out.
fn is_left_out(splitting: &Splitting, pc: u16, branch: bool) -> bool
    requires { pc < 4096 }
    ensures { result ≡ branch && is_free (slice_index_or splitting.now.jumps pc Plain) }
{
    branch && matches!(splitting.jumps.at(pc), Jump::Free)
}

/// The edge of an instruction in the search: all edges except those of LOOPs that are left out.
fn link_at(
    graph: &Graph,
    splitting: &Splitting,
    units: &Units,
    pc: u16,
    branch: bool,
) -> Option<Link>
    requires { pc < 4096 }
    ensures { IsLookedAt graph.now.arcs splitting.now.jumps units.now.pay pc branch result }
{
    if is_left_out(splitting, pc, branch) {
        return None;
    }
    let arc = graph.arc(pc, branch)?;
    Some(units.link(pc, &arc))
}

/// Notes what the edges of a routine cost, and that a way from a place takes what a return does there, if anything.
fn begin(body: &Body, graph: &Graph, splitting: &Splitting, units: &mut Units)
    ensures ends { AreEnds body.now.image.now body.now.r units.old.lengths.ways units.new.lengths.ways }
    ensures outside { NoneOutside body.now.image.now body.now.r units.new.lengths.links }
    ensures looked { AreLookedAt body.now.image.now body.now.r graph.now.arcs splitting.now.jumps units.new.pay units.new.lengths.links }
    ensures pay { units.new.pay ≡ units.old.pay }
{
    units.lengths.clear_links();
    for pc in body.start..body.end {
        let along = link_at(graph, splitting, units, pc, false);
        let branching = link_at(graph, splitting, units, pc, true);
        units.lengths.set_links(pc, [along, branching]);
        let steps = return_steps(body.image.instr(pc));
        units.lengths.set_steps(pc, steps);
    }
}

/// From so many steps on the sum of a way and an edge may be cut off at 64 bits, and a way not be as long as edges ask.
const LONG: u64 = 1 << 63;

/// Whether no way from the pcs of a piece is so long.
fn are_short(all: &Piece, units: &Units) -> bool {
    for pc in all.begin..all.end {
        if LONG <= units.lengths.steps(pc) {
            return false;
        }
    }
    true
}

/// Makes ways longer; whether none grows, nor would if no sum were cut off. It goes by pc at the end, and so over each of them.
fn are_longest(order: &Order, all: &Piece, units: &mut Units) -> bool
    ensures links { units.new.lengths.links ≡ units.old.lengths.links }
    ensures below { StayAtMost units.old.lengths.links units.old.lengths.ways units.new.lengths.ways }
    ensures pay { units.new.pay ≡ units.old.pay }
{
    if units.sweep_all(order, all) {
        return false;
    }
    are_short(all, units)
}

/// Makes ways longer until none grows.
fn lengthen(order: &Order, all: &Piece, units: &mut Units) -> Result<(), Lack>
    ensures links { units.new.lengths.links ≡ units.old.lengths.links }
    ensures below { StayAtMost units.old.lengths.links units.old.lengths.ways units.new.lengths.ways }
    ensures pay { units.new.pay ≡ units.old.pay }
{
    // A way that passes no place twice is found by as many sweeps as it has edges, and in the last one nothing is longer. That there is none
    // longer where nests are paid for is not proved: so the looks are the bound.
    for _ in 0..LOOKS {
        if !units.may_look() {
            return Err(Lack::Looks);
        }
        if are_longest(order, all, units) {
            return Ok(());
        }
    }
    // Each sweep looks at an edge at least.
    Err(Lack::Looks)
}

/// Finds the longest way from each place.
pub(crate) fn find_constants(
    body: &Body,
    graph: &Graph,
    splitting: &Splitting,
    units: &mut Units,
) -> Result<(), Lack>
    ensures least { AreLeast body.now.image.now body.now.r units.new.lengths.links units.old.lengths.ways units.new.lengths.ways }
    ensures outside { NoneOutside body.now.image.now body.now.r units.new.lengths.links }
    ensures looked { AreLookedAt body.now.image.now body.now.r graph.now.arcs splitting.now.jumps units.new.pay units.new.lengths.links }
    ensures pay { units.new.pay ≡ units.old.pay }
{
    begin(body, graph, splitting, units);
    let all = Piece {
        begin: body.start,
        end: body.end,
    };
    lengthen(&splitting.order, &all, units)
}

/// Sets what a unit has to pay for at the LOOP at a pc, whose counter is 0.
fn free_loop(graph: &Graph, units: &mut Units, pc: u16) -> Result<(), Lack>
    requires { pc < 4096 }
    ensures lengths { units.new.lengths ≡ units.old.lengths }
    ensures wanted { StayWanted graph.now.arcs units.old.pay units.new.pay }
    ensures more { HaveGrown units.old.pay units.new.pay }
    ensures others { (at k : ℕ) → at ≢ pc → unit_at units.new.pay at k ≡ unit_at units.old.pay at k }
{
    let Some(arc) = graph.arc(pc, true) else {
        return Ok(());
    };
    let asked = units.lengths.steps(arc.to).saturating_add(arc.steps());
    match u32::try_from(asked.saturating_sub(units.lengths.steps(pc))) {
        Ok(unit) => {
            units.raise_at_loop(graph, pc, unit);
            Ok(())
        }
        Err(_) => Err(Lack::Passes),
    }
}

/// The same, if the LOOP at the pc is left out.
fn free_at(graph: &Graph, splitting: &Splitting, units: &mut Units, pc: u16) -> Result<(), Lack>
    requires { pc < 4096 }
    ensures lengths { units.new.lengths ≡ units.old.lengths }
    ensures wanted { StayWanted graph.now.arcs units.old.pay units.new.pay }
    ensures more { HaveGrown units.old.pay units.new.pay }
    ensures stay { StayAtLoops graph.now.arcs splitting.now.jumps units.old.pay units.new.pay }
{
    if is_left_out(splitting, pc, true) {
        free_loop(graph, units, pc)
    } else {
        Ok(())
    }
}

/// The same for each LOOP of a routine whose counter is 0. With these units no edge of the search requires more: units have only grown, and
/// not at LOOPs of the search.
pub(crate) fn free_loops(
    body: &Body,
    graph: &Graph,
    splitting: &Splitting,
    units: &mut Units,
) -> Result<(), Lack>
    ensures lengths { units.new.lengths ≡ units.old.lengths }
    ensures wanted { StayWanted graph.now.arcs units.old.pay units.new.pay }
    ensures more { HaveGrown units.old.pay units.new.pay }
    ensures stay { StayAtLoops graph.now.arcs splitting.now.jumps units.old.pay units.new.pay }
{
    for pc in body.start..body.end {
        free_at(graph, splitting, units, pc)?;
    }
    units.carry_free(graph, &splitting.jumps);
    Ok(())
}

/// The potentials of a routine are what was found; `false` if a constant is past what a potential can say.
pub(crate) fn put_potentials(body: &Body, units: &Units, potentials: &mut Potentials) -> bool
    ensures put { result ≡ true → ArePut body.now.image.now body.now.r units.now.pay units.now.lengths.ways (numbers_of potentials.new) }
    ensures stays { StaysFrom (start_of body.now.image.now.routines (body.now.r + 1)) (numbers_of potentials.old) (numbers_of potentials.new) }
{
    // Recalls the lemma.
    potentials.lengths();
    for pc in body.start..body.end {
        let length = units.lengths.steps(pc);
        if u64::from(u32::MAX) < length {
            return false;
        }
        let potential = Potential {
            constant: length as u32,
            coefficients: units.pay.at(pc),
        };
        potentials.set(pc, potential);
    }
    true
}
