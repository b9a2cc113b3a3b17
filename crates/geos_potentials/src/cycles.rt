//! Cycles that no counter pays for.

ghost use Rattle.std.specs.Prelude.{◌<◌, ◌+◌, false};

use crate::unpaid::lead_unpaid;
use crate::ways::WaysIn;
use geos_code::{Body, is_loop, leads_back};
use geos_image::{MOST_INSTRS, Table};

/// Whether an edge leads back in a routine that is no LOOP's way to its target.
fn leads_back_unpaid(body: &Body) -> bool {
    for pc in body.start..body.end {
        if !is_loop(body.image.instr(pc).opcode) && leads_back(body, pc) {
            return true;
        }
    }
    false
}

/// One more edge leads to where one does.
fn count_edge(body: &Body, into: &mut Table<WaysIn>, pc: u16, branch: bool)
    requires { pc < body.now.end }
{
    if let Some(to) = lead_unpaid(body, pc, branch) {
        into.set(to, WaysIn::with_left(into.at(to).left.saturating_add(1)));
    }
}

/// Counts the edges into each place of a routine: there are some where one leads.
fn count_edges(body: &Body, into: &mut Table<WaysIn>) {
    into.fill_from(body.start, WaysIn::with_left(0));
    for pc in body.start..body.end {
        count_edge(body, into, pc, false);
        count_edge(body, into, pc, true);
    }
}

/// Appends a pc to the list. Returns the new length.
fn list(listed: &mut Table<u16>, count: u16, pc: u16) -> u16 {
    if MOST_INSTRS <= count {
        return count;
    }
    listed.set(count, pc);
    count + 1
}

/// Takes an edge from a listed place away, and lists the place where it leads, if no edge is left into
/// that; how many are listed then.
fn take_edge(
    body: &Body,
    pc: u16,
    branch: bool,
    into: &mut Table<WaysIn>,
    listed: &mut Table<u16>,
    count: u16,
) -> u16
    requires { pc < body.now.end }
{
    let Some(to) = lead_unpaid(body, pc, branch) else {
        return count;
    };
    let left = into.at(to).left.saturating_sub(1);
    into.set(to, WaysIn::with_left(left));
    if left == 0 {
        list(listed, count, to)
    } else {
        count
    }
}

/// Takes the edges from a listed place away, and lists the places that no edge is left into; how
/// many are listed then.
fn take_edges(
    body: &Body,
    pc: u16,
    into: &mut Table<WaysIn>,
    listed: &mut Table<u16>,
    count: u16,
) -> u16
    requires { pc < body.now.end }
{
    let count = take_edge(body, pc, false, into, listed, count);
    take_edge(body, pc, true, into, listed, count)
}

/// Whether control can go round in a routine and never take a LOOP's way to its target: no number
/// of steps is enough for that. It looks at each edge twice. The tables are only written.
pub(crate) fn has_unpaid_cycle(
    body: &Body,
    into: &mut Table<WaysIn>,
    listed: &mut Table<u16>,
) -> bool {
    if !leads_back_unpaid(body) {
        return false;
    }
    count_edges(body, into);
    let mut count = 0;
    for pc in body.start..body.end {
        if into.at(pc).left == 0 {
            count = list(listed, count, pc);
        }
    }
    // Instructions that are on no cycle and after none are listed one after another.
    for at in 0..body.end - body.start {
        if count <= at {
            return true;
        }
        let pc = listed.at(at);
        if pc < body.end {
            count = take_edges(body, pc, into, listed, count);
        }
    }
    false
}
