//! What two rows have in common.

ghost use Rattle.std.specs.Prelude.{◌≡◌, max, IfSome, IfNone};
ghost use Rattle.geos_verify.specs.Lists.{zip2};
ghost use Rattle.geos_flow.specs.Slots.{slots_agree};
ghost use Rattle.geos_rows.specs.Joins.{slot_join, pointer_join, pair_join, agree, joined, join, IsLeastAbove, FitNothing};

use geos_code::shape;
use geos_flow::slots_agree;
use geos_image::{Pointer, Row, SlotState};
use geos_verify::slot_fits;

/// Whether the slots of the rows differ in marks at most.
pub(crate) fn agree(r: &Row, s: &Row) -> bool
    ensures { result ≡ agree r.now s.now }
{
    let [r0, r1, r2, r3] = r.slots;
    let [s0, s1, s2, s3] = s.slots;
    slots_agree(r0, s0) & slots_agree(r1, s1) & slots_agree(r2, s2) & slots_agree(r3, s3)
}

fn slot_join(r: SlotState, s: SlotState) -> SlotState
    ensures { result ≡ slot_join r s }
{
    if slot_fits(r, s) { s } else { r }
}

fn slots_join(r: &[SlotState; 4], s: &[SlotState; 4]) -> [SlotState; 4]
    ensures { result ≡ zip2 slot_join r.now s.now }
{
    let [r0, r1, r2, r3] = *r;
    let [s0, s1, s2, s3] = *s;
    [
        slot_join(r0, s0),
        slot_join(r1, s1),
        slot_join(r2, s2),
        slot_join(r3, s3),
    ]
}

fn higher(a: u16, b: u16) -> u16
    ensures { result ≡ max a b }
{
    a.max(b)
}

fn bounds_join(r: &[u16; 8], s: &[u16; 8]) -> [u16; 8]
    ensures { result ≡ zip2 max r.now s.now }
{
    let [r0, r1, r2, r3, r4, r5, r6, r7] = *r;
    let [s0, s1, s2, s3, s4, s5, s6, s7] = *s;
    [
        higher(r0, s0),
        higher(r1, s1),
        higher(r2, s2),
        higher(r3, s3),
        higher(r4, s4),
        higher(r5, s5),
        higher(r6, s6),
        higher(r7, s7),
    ]
}

fn pointer_join(p: Option<Pointer>, q: Option<Pointer>) -> Option<Pointer>
    ensures { result ≡ pointer_join p q }
{
    match (p, q) {
        (Some(p), Some(q)) => {
            if p.slot == q.slot {
                Some(Pointer {
                    slot: p.slot,
                    least: p.least.min(q.least),
                })
            } else {
                None
            }
        }
        _ => None,
    }
}

fn pointers_join(r: &[Option<Pointer>; 4], s: &[Option<Pointer>; 4]) -> [Option<Pointer>; 4]
    ensures { result ≡ zip2 pointer_join r.now s.now }
{
    let [r0, r1, r2, r3] = *r;
    let [s0, s1, s2, s3] = *s;
    [
        pointer_join(r0, s0),
        pointer_join(r1, s1),
        pointer_join(r2, s2),
        pointer_join(r3, s3),
    ]
}

fn pairs_join(r: &[bool; 6], s: &[bool; 6]) -> [bool; 6]
    ensures { result ≡ zip2 pair_join r.now s.now }
{
    let [r0, r1, r2, r3, r4, r5] = *r;
    let [s0, s1, s2, s3, s4, s5] = *s;
    [r0 & s0, r1 & s1, r2 & s2, r3 & s3, r4 & s4, r5 & s5]
}

fn joined(r: &Row, s: &Row) -> Row
    ensures { result ≡ joined r.now s.now }
{
    Row {
        bounds: bounds_join(&r.bounds, &s.bounds),
        slots: slots_join(&r.slots, &s.slots),
        pointers: pointers_join(&r.pointers, &s.pointers),
        pairs: pairs_join(&r.pairs, &s.pairs),
    }
}

/// The least of the rows that both fit: what is known where control may come with either.
/// `None` if there is no such row, since a slot is in states that differ in more than a mark.
pub fn join(one: &Row, other: &Row) -> Option<Row>
    ensures value { result ≡ join one.now other.now }
    ensures some { IfSome result (IsLeastAbove one.now other.now) }
    ensures none { IfNone result (FitNothing one.now other.now) }
{
    shape(one);
    shape(other);
    if agree(one, other) {
        Some(joined(one, other))
    } else {
        None
    }
}
