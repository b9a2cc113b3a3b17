//! Pays for a nest: finds the least unit with which no cycle in it has a shortfall.

ghost use Rattle.std.specs.Prelude.{◌≡◌, ◌<◌, ◌-◌, Option, None, Some, true};
ghost use Rattle.control_graph.specs.declared.arcs.Arc.{Arc};
ghost use Rattle.geos_potentials.specs.declared.nests.Nest.{Nest};
ghost use Rattle.geos_potentials.specs.declared.nests.Splitting.{Splitting};
ghost use Rattle.geos_potentials.specs.declared.units.Units.{Units};

use crate::inside::arc_in;
use crate::lengths::{Link, Share};
use crate::looks::LOOKS;
use crate::nests::{Nest, Splitting};
use crate::spread::number_of;
use crate::units::{Lack, Units};
use control_graph::{Arc, Graph, Jump};
use geos_image::MOST_INSTRS;

/// How often the unit of a nest is raised by exactly the shortfall of a cycle, before it is doubled each time.
const RAISES: u32 = 32;

/// So many sweeps over a nest are each followed by a look for ways that come round, then every so many: such a way grows with each sweep, and is
/// found at last.
const EACH: u32 = 4;

/// A cycle with a shortfall.
#[derive(Clone, Copy)]
struct Round {
    costs: u64,
    paid: u64,
    /// How many units the nest's LOOPs take whose unit is the nest's, and how many are set for these.
    takes: u64,
    sets: u64,
    /// The same, whatever the unit is.
    all_takes: u64,
    all_sets: u64,
    /// The least unit at its LOOPs; none if it has none.
    least: Option<u32>,
    /// The least of those that are more than the nest's; the most there can be, where none is.
    above: u32,
    /// The least number of another nest of which a LOOP takes on it; none if none does.
    inner: Option<u16>,
}

impl Round {
    ghost use Rattle.std.specs.Prelude.{None};

    const NOTHING: Round = Round {
        costs: 0,
        paid: 0,
        takes: 0,
        sets: 0,
        all_takes: 0,
        all_sets: 0,
        least: None,
        above: u32::MAX,
        inner: None,
    };

    /// The same with what one more edge costs, on which a LOOP of another nest takes, if one does; none if that is past 64 bits.
    fn with_cost(&self, link: &Link, other: Option<u16>) -> Option<Round> {
        let costs = self.costs.checked_add(link.costs)?;
        let paid = self.paid.checked_add(link.paid)?;
        Some(Round {
            costs,
            paid,
            inner: lesser_of(self.inner, other),
            ..*self
        })
    }

    /// The same with one more LOOP, where a unit at it is so much, and is so much in the nest.
    fn with_take(&self, here: u32, unit: u32) -> Option<Round> {
        let all_takes = self.all_takes.checked_add(1)?;
        let least = match self.least {
            Some(least) => least.min(here),
            None => here,
        };
        let is_low = here <= unit;
        Some(Round {
            all_takes,
            takes: self.takes.saturating_add(u64::from(is_low)),
            least: Some(least),
            above: if is_low {
                self.above
            } else {
                self.above.min(here)
            },
            ..*self
        })
    }

    /// The same where the counter is once more set to so much, where a unit is so much, and is so much in the nest.
    fn with_set(&self, most: u16, here: u32, unit: u32) -> Option<Round> {
        let all_sets = self.all_sets.checked_add(u64::from(most))?;
        let low = low_set(most, here, unit);
        let sets = self.sets.checked_add(low)?;
        Some(Round {
            all_sets,
            sets,
            ..*self
        })
    }
}

/// The lesser of two numbers of nests, or the one that there is.
fn lesser_of(first: Option<u16>, second: Option<u16>) -> Option<u16> {
    match (first, second) {
        (Some(one), Some(other)) => Some(one.min(other)),
        (None, _) => second,
        (_, None) => first,
    }
}

/// The other nest whose LOOP takes on the edge of an instruction, if there is one.
fn other_nest(splitting: &Splitting, id: u16, pc: u16, branch: bool) -> Option<u16>
    requires { pc < 4096 }
{
    if !branch {
        return None;
    }
    match splitting.jumps.at(pc) {
        Jump::Pays(other) if other != id => Some(other),
        _ => None,
    }
}

/// What is still to be paid for with the unit that is found for a nest.
#[derive(Clone, Copy)]
pub(crate) enum Rest {
    /// No cycle in it has a shortfall.
    Nothing,
    /// A cycle on which none of its LOOPs takes has a shortfall. The outermost nest in it whose LOOP takes on the cycle, if there is one.
    Inside(Option<u16>),
}

/// A nest that is paid for.
#[derive(Clone, Copy)]
pub(crate) struct Paying {
    pub(crate) nest: Nest,
    pub(crate) id: u16,
    pub(crate) unit: u32,
}

/// To how much the counter is set for units that are no more than the nest's.
fn low_set(most: u16, here: u32, unit: u32) -> u64 {
    if here <= unit { u64::from(most) } else { 0 }
}

/// The most that a unit can pay for.
const MOST: u64 = u32::MAX as u64;

/// The unit that pays for a cycle with a shortfall, if its LOOPs take `takes` units more than are set; above the limit if none pays for it.
fn paying_unit(unit: u32, round: &Round, takes: u64, raises: u32) -> u64
    requires some { 0 < takes }
{
    let lacks = round.costs.saturating_sub(round.paid);
    let next = u64::from(unit).saturating_add(lacks.div_ceil(takes));
    if next <= MOST {
        return if RAISES < raises {
            next.saturating_mul(2).min(MOST)
        } else {
            next
        };
    }
    // LOOPs whose unit is more may yet pay.
    if round.takes < round.all_takes {
        u64::from(round.above)
    } else {
        next
    }
}

/// The next unit of a nest, which pays for a cycle with a shortfall; `least` is the least unit at the LOOPs of the cycle. `None` if no unit
/// pays.
fn next_unit(unit: u32, round: &Round, least: u32, raises: u32) -> Option<u64> {
    if round.takes == 0 && round.sets == 0 {
        return Some(u64::from(least));
    }
    let takes = round.takes.saturating_sub(round.sets);
    if takes != 0 {
        return Some(paying_unit(unit, round, takes, raises));
    }
    // If LOOPs take more in all than is set, some unit that one of them has is enough.
    if round.all_takes <= round.all_sets {
        None
    } else {
        Some(u64::from(round.above))
    }
}

impl Paying {
    /// A nest, with the least unit at the LOOPs that pay in it.
    pub(crate) fn begin(units: &Units, splitting: &Splitting, id: u16, nest: Nest) -> Paying {
        let mut unit = u32::MAX;
        for x in nest.piece.begin..nest.piece.end {
            let pc = splitting.order.place(x);
            if splitting.jumps.at(pc).pays_in(id) {
                unit = unit.min(units.unit(pc, nest.counter));
            }
        }
        Paying { nest, id, unit }
    }

    /// To how much an edge sets the counter for the nest's LOOPs.
    fn set_for_it(&self, units: &Units, arc: &Arc) -> Option<u16> {
        if !self.nest.tight {
            return None;
        }
        let (counter, most) = arc.sets()?;
        if counter != self.nest.counter || number_of(units.before.get(arc.to), counter) == 0 {
            return None;
        }
        Some(most)
    }

    /// An edge with what it costs; `pays` if it is the way to its target of one of the nest's LOOPs.
    fn link(&self, units: &Units, pc: u16, arc: &Arc, pays: bool) -> Link
        requires { pc < 4096 }
    {
        let Link {
            to,
            costs,
            paid,
            ..
        } = units.link(pc, arc);
        if pays {
            return Link {
                to,
                costs,
                paid: paid.max(u64::from(self.unit)),
                share: Share::Pays,
            };
        }
        let Some(most) = self.set_for_it(units, arc) else {
            return Link {
                to,
                costs,
                paid,
                share: Share::Nothing,
            };
        };
        let unit = units.unit(to, self.nest.counter).max(self.unit);
        Link {
            to,
            costs: arc
                .steps()
                .saturating_add(u64::from(unit).saturating_mul(u64::from(most))),
            paid,
            share: Share::Costs(most),
        }
    }

    /// The edge of an instruction in the search.
    fn link_at(
        &self,
        graph: &Graph,
        splitting: &Splitting,
        units: &Units,
        pc: u16,
        branch: bool,
    ) -> Option<Link>
        requires { pc < 4096 }
    {
        let arc = arc_in(graph, splitting, self.id, &self.nest.piece, pc, branch)?;
        let pays = branch && splitting.jumps.at(pc).pays_in(self.id);
        Some(self.link(units, pc, &arc, pays))
    }

    /// Notes what each edge costs, and forgets which edges made ways long.
    fn weigh(&self, graph: &Graph, splitting: &Splitting, units: &mut Units)
        ensures { units.new.pay ≡ units.old.pay }
    {
        let piece = &self.nest.piece;
        for x in piece.begin..piece.end {
            let pc = splitting.order.place(x);
            let along = self.link_at(graph, splitting, units, pc, false);
            let branching = self.link_at(graph, splitting, units, pc, true);
            units.lengths.set_links(pc, [along, branching]);
        }
        units.lengths.forget(&splitting.order, piece);
    }

    /// A cycle extended by an edge, with the nest of the other LOOP that takes on the edge, if one does.
    fn with_link(
        &self,
        units: &Units,
        round: &Round,
        pc: u16,
        link: &Link,
        other: Option<u16>,
    ) -> Option<Round>
        requires { pc < 4096 }
    {
        let counter = self.nest.counter;
        let next = round.with_cost(link, other)?;
        match link.share {
            Share::Nothing => Some(next),
            Share::Pays => next.with_take(units.unit(pc, counter), self.unit),
            Share::Costs(most) => next.with_set(most, units.unit(link.to, counter), self.unit),
        }
    }

    /// The cycle from an instruction along the edges of the longest paths, if it has a shortfall.
    fn round_at(
        &self,
        graph: &Graph,
        splitting: &Splitting,
        units: &Units,
        from: u16,
    ) -> Option<Round>
        requires { from < 4096 }
    {
        let mut round = Round::NOTHING;
        let mut at = from;
        for _ in 0..MOST_INSTRS {
            let branch = units.lengths.first(at)?;
            let link = self.link_at(graph, splitting, units, at, branch)?;
            let other = other_nest(splitting, self.id, at, branch);
            round = self.with_link(units, &round, at, &link, other)?;
            at = link.to;
            if at == from {
                return if round.paid < round.costs {
                    Some(round)
                } else {
                    None
                };
            }
        }
        None
    }

    /// The unit raised to pay for a cycle too; `least` is the least unit at its LOOPs.
    fn raised(&self, round: &Round, least: u32, raises: u32) -> Result<u32, Lack>
        requires { round.now.least ≡ Some least }
    {
        let Some(unit) = next_unit(self.unit, round, least, raises) else {
            return Err(Lack::SetWithin(self.nest.piece));
        };
        match u32::try_from(unit) {
            Ok(unit) => Ok(unit),
            Err(_) => Err(Lack::Passes),
        }
    }

    /// A cycle with a shortfall, if one is found.
    fn find_round(&self, graph: &Graph, splitting: &Splitting, units: &mut Units) -> Option<Round>
        ensures { units.new.pay ≡ units.old.pay }
    {
        let at = units
            .lengths
            .find_round(&splitting.order, &self.nest.piece)?;
        self.round_at(graph, splitting, units, at)
    }

    /// The least unit with which no cycle has a shortfall. Cycles on which none of the nest's LOOPs takes are paid for by inner nests; the search
    /// ends at the first of these that has a shortfall.
    pub(crate) fn find_unit(
        &mut self,
        graph: &Graph,
        splitting: &Splitting,
        units: &mut Units,
    ) -> Result<Rest, Lack>
        ensures { units.new.pay ≡ units.old.pay }
    {
        let piece = self.nest.piece;
        let mut raises = 0;
        self.weigh(graph, splitting, units);
        for sweep in 0..LOOKS {
            if !units.may_look() {
                return Err(Lack::Looks);
            }
            if !units.sweep(&splitting.order, &piece) {
                return Ok(Rest::Nothing);
            }
            if EACH < sweep && sweep % EACH != 0 {
                continue;
            }
            if let Some(round) = self.find_round(graph, splitting, units) {
                let Some(least) = round.least else {
                    return Ok(Rest::Inside(round.inner));
                };
                match self.raised(&round, least, raises) {
                    Ok(unit) => self.unit = unit,
                    Err(lack) => return Err(lack),
                }
                raises = raises.saturating_add(1);
                self.weigh(graph, splitting, units);
            }
        }
        // Each sweep looks at an edge at least.
        Err(Lack::Looks)
    }
}
