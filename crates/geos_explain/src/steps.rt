//! The sentences on an edge that is not paid for.

use crate::notes::put_steps;
use crate::phrases::Phrase;
use crate::place::Place;
use crate::saying::{Fact, Saying, choose};
use geos_image::{Opcode, Potential};
use geos_verify::{Asked, asked_along, asked_branching, branches, falls_through};

/// What is required and not left: steps, or the payments of counters, with what each must pay, and pays.
fn put_asked(out: &mut Saying, asked: &Asked, p: &Potential) {
    let left = asked.left(p);
    if asked.steps <= left {
        put_steps(out, asked.steps, &asked.coefficients);
        out.put(Phrase::StepsRequiredAnd);
        put_steps(out, left, &p.coefficients);
        return out.put(Phrase::AreLeft);
    }
    let verb = choose(asked.steps == 1, Phrase::StepIs, Phrase::StepsAre);
    let (steps, left_steps) = (Fact::Number(asked.steps), Fact::Number(left));
    out.put3(Phrase::StepsRequired, steps, Fact::Phrase(verb), left_steps);
    out.put(choose(left == 1, Phrase::IsLeft, Phrase::AreLeft))
}

/// The sentence if both edges are paid for: a return takes a step; after a call no counter may pay that the routine touches.
fn put_last(out: &mut Saying, place: &Place) {
    match place.i.opcode {
        Opcode::Ret => out.put(Phrase::ReturnTakesStep),
        Opcode::Call => if let Some(next) = place.image.point(place.pc + 1) {
            let callee = place.image.routine(place.i.imm);
            out.put_of(Phrase::TouchesPaying, callee.name_text(), Fact::Nothing);
            for k in 0..4 {
                if next.potential.coefficients[k] != 0 {
                    out.number(" k", k as u64);
                }
            }
        },
        _ => {}
    }
}

/// An edge, or the return, is not paid for: the edge to the next instruction is tried first.
pub(crate) fn put_unpaid(out: &mut Saying, place: &Place) {
    let p = place.potential;
    if falls_through(place.i.opcode) {
        if let Some(next) = place.image.point(place.pc + 1) {
            let asked = asked_along(place.image.image(), place.i, place.row, &next.potential);
            if !asked.is_paid(p) {
                return put_asked(out, &asked, p);
            }
        }
    }
    if branches(place.i.opcode) {
        if let Some(next) = place.image.point(place.i.target) {
            let asked = asked_branching(place.i, &next.potential);
            if !asked.is_paid(p) {
                return put_asked(out, &asked, p);
            }
        }
    }
    put_last(out, place)
}
