//! Chooses the LOOPs that pay for the cycles of a component.

ghost use Rattle.std.specs.Prelude.{◌<◌, ◌==◌, true, false, not, min, None, Some};
ghost use Rattle.geos_potentials.specs.declared.choice.Tier.TheVariants.{Clean, Tight, Unset};

use crate::classes::Classes;
use control_graph::{Graph, Jumps, Order, Piece, lead_within};

/// Which LOOPs may pay, beside that no call has touched their counter.
#[derive(Clone, Copy)]
pub(crate) enum Tier {
    /// The counter is set on each path to the LOOP, and not in the component.
    Clean,
    /// The counter is set on each path to the LOOP.
    Tight,
    /// It is not set in the component: what it is where the routine begins is not known.
    Unset,
}

/// LOOPs of a counter.
#[derive(Clone, Copy)]
pub(crate) struct Choice {
    pub(crate) counter: u8,
    pub(crate) tier: Tier,
    /// The least price of a unit at them.
    price: u32,
}

/// LOOPs that pay in a nest.
#[derive(Clone, Copy)]
pub(crate) struct Chosen {
    pub(crate) choice: Choice,
    pub(crate) nest: u16,
    /// Whether those of all prices do.
    pub(crate) all: bool,
}

/// The counter of the LOOP at a place, whose way to its target stays in a piece, is not left out and pays in no nest.
fn counter_at(graph: &Graph, jumps: &Jumps, order: &Order, piece: &Piece, pc: u16) -> Option<u8>
    requires { pc < 4096 }
{
    let counter = graph.arc(pc, true)?.takes()?;
    lead_within(graph, jumps, order, piece, pc, true)?;
    Some(counter)
}

impl Tier {
    /// Whether the LOOP of a counter at a place of a component may pay, where it is noted from where its counters are set.
    fn may_pay(self, classes: &Classes, pc: u16, counter: u8) -> bool
        requires { pc < 4096 }
    {
        if classes.is_touched(pc, counter) {
            return false;
        }
        match self {
            Tier::Clean => { !classes.is_unset(pc, counter) && !classes.is_set_within(pc, counter) }
            Tier::Tight => !classes.is_unset(pc, counter),
            Tier::Unset => !classes.is_set_within(pc, counter),
        }
    }
}

impl Chosen {
    /// Whether the LOOP at a place is one of them.
    pub(crate) fn takes(
        &self,
        graph: &Graph,
        jumps: &Jumps,
        order: &Order,
        classes: &Classes,
        piece: &Piece,
        pc: u16,
    ) -> bool
        requires { pc < 4096 }
    {
        let Choice {
            counter,
            tier,
            price,
        } = self.choice;
        let Some(here) = counter_at(graph, jumps, order, piece, pc) else {
            return false;
        };
        if here != counter {
            return false;
        }
        tier.may_pay(classes, pc, counter)
            && (self.all || matches!(tier, Tier::Tight) || classes.price(pc, counter) == price)
    }
}

/// The less of two prices, where there may be no first one.
fn least(a: Option<u32>, b: u32) -> Option<u32> {
    match a {
        Some(a) => Some(a.min(b)),
        None => Some(b),
    }
}

/// The prices, with that of the LOOP at a place of a component, if it may pay.
fn add_price(
    graph: &Graph,
    jumps: &Jumps,
    order: &Order,
    classes: &Classes,
    piece: &Piece,
    tier: Tier,
    x: u16,
    prices: &mut [Option<u32>; 4],
)
    requires { x < 4096 }
{
    let pc = order.place(x);
    let Some(counter) = counter_at(graph, jumps, order, piece, pc) else {
        return;
    };
    if 4 <= counter {
        return;
    }
    if !tier.may_pay(classes, pc, counter) {
        return;
    }
    let at = usize::from(counter);
    prices[at] = least(prices[at], classes.price(pc, counter));
}

/// The least price of a unit of each counter at the LOOPs of a component that may pay.
fn prices(
    graph: &Graph,
    jumps: &Jumps,
    order: &Order,
    classes: &Classes,
    piece: &Piece,
    tier: Tier,
) -> [Option<u32>; 4] {
    let mut prices = [None; 4];
    for x in piece.begin..piece.end {
        add_price(graph, jumps, order, classes, piece, tier, x, &mut prices);
    }
    prices
}

/// The number that the edge to the next instruction sets a counter to, if the edge stays in a component; otherwise 0.
fn set_at(graph: &Graph, order: &Order, piece: &Piece, counter: u8, pc: u16) -> u16
    requires { pc < 4096 }
{
    let Some(arc) = graph.arc(pc, false) else {
        return 0;
    };
    if !order.has(piece, arc.to) {
        return 0;
    }
    match arc.sets() {
        Some((set, most)) if set == counter => most,
        _ => 0,
    }
}

/// How much a counter is set to in all in a component.
fn sum_set(graph: &Graph, order: &Order, piece: &Piece, counter: u8) -> u32 {
    let mut sum: u32 = 0;
    for x in piece.begin..piece.end {
        let set = set_at(graph, order, piece, counter, order.place(x));
        sum = sum.saturating_add(u32::from(set));
    }
    sum
}

/// The cheaper choice; the first one where both are as cheap.
fn cheaper(found: Option<Choice>, choice: Choice) -> Choice {
    match found {
        Some(other) if other.price <= choice.price => other,
        _ => choice,
    }
}

/// The counter of the least price, of which there is one.
fn cheapest(prices: &[Option<u32>; 4], tier: Tier) -> Option<Choice> {
    let mut found: Option<Choice> = None;
    for counter in 0..4u8 {
        if let Some(price) = prices[usize::from(counter)] {
            let choice = Choice {
                counter,
                tier,
                price,
            };
            found = Some(cheaper(found, choice));
        }
    }
    found
}

/// The price of a unit of a counter that is set in a component: how much it is set to there.
fn set_price(
    graph: &Graph,
    order: &Order,
    piece: &Piece,
    counter: u8,
    price: Option<u32>,
) -> Option<u32> {
    match price {
        Some(_) => Some(sum_set(graph, order, piece, counter)),
        None => None,
    }
}

/// The same of each counter that has a price.
fn set_prices(
    graph: &Graph,
    order: &Order,
    piece: &Piece,
    prices: &[Option<u32>; 4],
) -> [Option<u32>; 4] {
    let [p0, p1, p2, p3] = *prices;
    [
        set_price(graph, order, piece, 0, p0),
        set_price(graph, order, piece, 1, p1),
        set_price(graph, order, piece, 2, p2),
        set_price(graph, order, piece, 3, p3),
    ]
}

/// The LOOPs that are to pay in a component; none if none may. Clean ones come first, and then those of a counter that is set in it; those
/// of one that may not be set before it are chosen only where no others may pay.
pub(crate) fn choose(
    graph: &Graph,
    jumps: &Jumps,
    order: &Order,
    classes: &Classes,
    piece: &Piece,
) -> Option<Choice> {
    let clean = prices(graph, jumps, order, classes, piece, Tier::Clean);
    if let Some(choice) = cheapest(&clean, Tier::Clean) {
        return Some(choice);
    }
    let tight = prices(graph, jumps, order, classes, piece, Tier::Tight);
    let sums = set_prices(graph, order, piece, &tight);
    if let Some(choice) = cheapest(&sums, Tier::Tight) {
        return Some(choice);
    }
    let unset = prices(graph, jumps, order, classes, piece, Tier::Unset);
    cheapest(&unset, Tier::Unset)
}
