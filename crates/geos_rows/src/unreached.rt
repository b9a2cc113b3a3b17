//! Rows at places that nothing reaches: the rules are tried there too.

ghost use Rattle.std.specs.Prelude.{◌≡◌, ◌<◌, ℕ, true, false, Some, IfSome, IfNone, MatchOption, slice_index_or};
ghost use Rattle.geos_image.specs.Fields.{FieldsFit};
ghost use Rattle.geos_image.specs.declared.row.SlotState.TheVariants.{Empty};
ghost use Rattle.geos_opcodes.specs.Facts.{uses_of};
ghost use Rattle.geos_verify.specs.Lists.{all2};
ghost use Rattle.geos_verify.specs.Rows.{fits, pointer_fits};
ghost use Rattle.geos_rows.specs.Flow.{AllKnown};
ghost use Rattle.geos_rows.specs.Unreached.{IsFirstHeld, AreBefore, IsWantedBehind, StaysKnown, IsGuess};

use crate::rounds::{PASSES, pass};
use crate::waiting::Waiting;
use geos_code::{Body, Known, clean, edge_in, shape};
use geos_image::{Instr, Opcode, Pointer, Row, SlotState};
use geos_opcodes::{Kind, SlotUse};
use geos_verify::uses_at;

/// Whether something is known at each instruction of a routine.
fn all_known(body: &Body, known: &Known) -> bool
    ensures { result ≡ false → AllKnown body.now.image.now body.now.r known.now → ⊥ }
{
    for pc in body.start..body.end {
        let Some(_row) = known.at(pc) else {
            return false;
        };
    }
    true
}

/// A pointer into the first locked slot, with the greatest number of bytes.
fn first_held(slots: &[SlotState; 4]) -> Option<Pointer>
    ensures some { IfSome result (IsFirstHeld slots.now) }
    ensures none { IfNone result ((k : ℕ) → k < 4 → slice_index_or slots.now k Empty ≡ Empty) }
{
    for slot in 0..4 {
        match slots[usize::from(slot)] {
            SlotState::Empty => (),
            _ => {
                return Some(Pointer {
                    slot,
                    least: u16::MAX,
                });
            }
        }
    }
    None
}

/// The required pointer with the greatest number of bytes; `any` if none is required.
fn strongest_pointer(wanted: Option<Pointer>, any: Option<Pointer>) -> Option<Pointer>
    ensures value { MatchOption wanted (result ≡ any) (λ pointer. result ≡ Some (record { slot = pointer.slot; least = 65535 })) }
    ensures fits { pointer_fits result wanted ≡ true }
{
    match wanted {
        Some(pointer) => Some(Pointer {
            slot: pointer.slot,
            least: u16::MAX,
        }),
        None => any,
    }
}

/// The same for each of the four pointers.
fn strongest_pointers(wanted: &[Option<Pointer>; 4], any: Option<Pointer>) -> [Option<Pointer>; 4]
    ensures { all2 pointer_fits result wanted.now ≡ true }
{
    let [p0, p1, p2, p3] = *wanted;
    [
        strongest_pointer(p0, any),
        strongest_pointer(p1, any),
        strongest_pointer(p2, any),
        strongest_pointer(p3, any),
    ]
}

/// The strongest row that implies another, except for marks.
fn strongest(row: &Row) -> Row
    ensures slots { result.slots ≡ row.now.slots }
    ensures fits { fits result row.now ≡ true }
{
    // Recalls the lemma.
    shape(row);
    let any = first_held(&row.slots);
    Row {
        bounds: [0; 8],
        slots: row.slots,
        pointers: strongest_pointers(&row.pointers, any),
        pairs: [true; 6],
    }
}

/// The slots before an instruction, from those after it.
fn slots_before(i: &Instr, behind: &[SlotState; 4]) -> [SlotState; 4]
    requires { FieldsFit i.now.opcode i.now }
    ensures { AreBefore (uses_of i.now.opcode).slot i.now.a behind.now result }
{
    let mut slots = *behind;
    match uses_at(i).slot {
        SlotUse::LocksNew(_) | SlotUse::Locks(_) => slots[i.a as usize] = SlotState::Empty,
        SlotUse::Unlocks(kind) => {
            slots[i.a as usize] = match kind {
                Kind::MemBlock => SlotState::Mem,
                Kind::VmBlock => SlotState::Vm {
                    marked: true,
                    borrowed: false,
                },
                Kind::DbGroup => SlotState::Db { marked: true },
            };
        }
        _ => (),
    }
    slots
}

/// The row that an instruction has to establish: the entry row of the called routine, the row of the next instruction or of the target,
/// if it is known, and otherwise the exit row.
fn wanted_behind(body: &Body, pc: u16, from: &Known) -> Row
    requires { pc < body.now.end }
    ensures { IsWantedBehind body.now.image.now body.now.r pc from.now result }
{
    let i = body.image.instr(pc);
    if let Opcode::Call = i.opcode {
        return body.image.routine(i.imm).entry;
    }
    for branch in [false, true] {
        if let Some(lead) = edge_in(body, pc, branch) {
            if let Some(row) = from.at(lead.to) {
                return Row {
                    bounds: row.bounds,
                    slots: slots_before(i, &row.slots),
                    pointers: row.pointers,
                    pairs: row.pairs,
                };
            }
        }
    }
    body.image.routine(body.r).exit
}

/// Finds the strongest rows backwards, at instructions without a row.
fn guess(body: &Body, known: &Known, from: &mut Known)
    ensures { IsGuess body.now.image.now body.now.r known.now from.new }
{
    // Recalls the lemma.
    from.lengths();
    for pc in body.start..body.end {
        from.set(pc, known.at(pc));
    }
    for pc in (body.start..body.end).rev() {
        if from.at(pc).is_none() {
            from.set(pc, Some(strongest(&wanted_behind(body, pc, from))));
        }
    }
}

/// What is known at a place goes along the edges to places that nothing reaches.
fn pass_lone(body: &Body, pc: u16, known: &Known, waiting: &mut Waiting, others: &mut Known)
    requires { pc < body.now.end }
    ensures { StaysKnown others.old others.new }
{
    let Some(row) = others.at(pc) else {
        return;
    };
    for branch in [false, true] {
        if let Some(lead) = edge_in(body, pc, branch) {
            if known.at(lead.to).is_none() {
                pass(body, lead, &row, waiting, others);
            }
        }
    }
}

/// What waits of the places that nothing reaches goes along its edges, until nothing new comes to any of them.
fn flow_lone(body: &Body, known: &Known, from: &Known, waiting: &mut Waiting, others: &mut Known)
    ensures { StaysKnown others.old others.new }
{
    for _ in 0..PASSES {
        let Some(pc) = waiting.take() else {
            return;
        };
        if body.end <= pc {
            return;
        }
        if let Some(row) = others.at(pc).or(from.at(pc)) {
            others.set(pc, Some(clean(&row)));
            pass_lone(body, pc, known, waiting, others);
        }
    }
}

/// Finds rows at the instructions of a routine where nothing is known; whether there are such. Where two
/// rows that come to a place have no join the first stays.
pub(crate) fn fill(
    body: &Body,
    known: &Known,
    from: &mut Known,
    waiting: &mut Waiting,
    others: &mut Known,
) -> bool
    ensures { result ≡ true → AllKnown body.now.image.now body.now.r known.now → ⊥ }
{
    if all_known(body, known) {
        return false;
    }
    waiting.clear(body);
    for pc in body.start..body.end {
        if known.at(pc).is_none() {
            waiting.wait(pc);
        }
        others.set(pc, None);
    }
    guess(body, known, from);
    flow_lone(body, known, from, waiting, others);
    true
}
