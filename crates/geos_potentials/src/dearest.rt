//! Where a counter is set at the greatest price.

ghost use Rattle.std.specs.Prelude.{◌<◌, IfSome};

use crate::search::Search;
use geos_code::Body;

/// What it costs that the instruction at a pc sets a counter; 0 if it sets none, or to 0.
fn price_at(search: &Search, pc: u16) -> u64
    requires { pc < 4096 }
{
    match search.graph.arc(pc, false) {
        Some(arc) => match arc.sets() {
            Some(_) => search.units.link(pc, &arc).costs,
            None => 0,
        },
        None => 0,
    }
}

/// The place where a counter is set at the greatest price, if a unit of one costs something.
pub fn find_dearest(body: &Body, search: &Search) -> Option<u16>
    ensures { IfSome result (λ at. at < body.now.end) }
{
    let mut dearest = None;
    let mut most = 1;
    for pc in body.start..body.end {
        let price = price_at(search, pc);
        if most < price {
            most = price;
            dearest = Some(pc);
        }
    }
    dearest
}
