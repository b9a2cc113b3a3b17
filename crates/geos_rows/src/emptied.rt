//! Slots that are empty after a CALL, since the `in` and `out` lines of the called routine do not name them.

ghost use Rattle.std.specs.Prelude.{◌≡◌, ◌<◌, IfSome};
ghost use Rattle.geos_verify.specs.Rows.{after};
ghost use Rattle.geos_code.specs.Code.{IsPcOf};
ghost use Rattle.geos_code.specs.Edges.{LeadsTo};
ghost use Rattle.geos_rows.specs.Why.{CallsBeside, IsEmptied, AllEmptied, IsComing};

use geos_code::{Body, Lead};
use geos_flow::{Coming, Emptied};
use geos_image::{Opcode, Row};
use geos_verify::{is_empty, slot_state};

/// The instruction at a pc, if it is a CALL, the slot is locked before it, and the `in` line of the called routine does not name the slot.
fn call_beside(body: &Body, pc: u16, before: &Row, a: u8) -> Option<Emptied>
    requires { pc < body.now.end }
    ensures at { IfSome result (λ emptied. emptied.at ≡ pc) }
    ensures calls { IfSome result (CallsBeside body.now.image.now body.now.r a before.now) }
{
    let i = body.image.instr(pc);
    let Opcode::Call = i.opcode else {
        return None;
    };
    let state = slot_state(before, a);
    let callee = body.image.routine(i.imm);
    if is_empty(state) || !is_empty(slot_state(&callee.entry, a)) {
        return None;
    }
    Some(Emptied {
        at: pc,
        state,
        callee: callee.name,
        stands_before: i.imm < body.r,
    })
}

/// By which CALL a slot was left empty, where control came to the beginning of an edge and goes along it, and the row is known then:
/// by that at the beginning, or, where it was empty there, by the one that left it so.
fn emptied_by(body: &Body, before: &Coming, lead: Lead, row: &Row, a: u8) -> Option<Emptied>
    requires here { lead.edge.from < body.now.end }
    requires few { a < 4 }
    requires came { IsComing body.now.image.now body.now.r lead.edge.from before.now }
    requires leads { LeadsTo body.now.image.now lead.edge.from lead.edge.branch lead.to }
    requires stays { IsPcOf body.now.image.now body.now.r lead.to }
    requires row { row.now ≡ after body.now.image.now lead.edge.from before.now.row lead.edge.branch }
    ensures { IfSome result (IsEmptied body.now.image.now body.now.r a lead.to row.now) }
{
    if !is_empty(slot_state(row, a)) {
        return None;
    }
    if is_empty(slot_state(&before.row, a)) {
        return before.emptied[usize::from(a)];
    }
    if lead.edge.branch {
        return None;
    }
    call_beside(body, lead.edge.from, &before.row, a)
}

/// The same of each slot.
pub(crate) fn emptied_along(
    body: &Body,
    before: &Coming,
    lead: Lead,
    row: &Row,
) -> [Option<Emptied>; 4]
    requires here { lead.edge.from < body.now.end }
    requires came { IsComing body.now.image.now body.now.r lead.edge.from before.now }
    requires leads { LeadsTo body.now.image.now lead.edge.from lead.edge.branch lead.to }
    requires stays { IsPcOf body.now.image.now body.now.r lead.to }
    requires row { row.now ≡ after body.now.image.now lead.edge.from before.now.row lead.edge.branch }
    ensures { AllEmptied body.now.image.now body.now.r lead.to row.now result }
{
    [
        emptied_by(body, before, lead, row, 0),
        emptied_by(body, before, lead, row, 1),
        emptied_by(body, before, lead, row, 2),
        emptied_by(body, before, lead, row, 3),
    ]
}
