//! What is known at an instruction, and the steps of potentials.

use crate::led::is_reached;
use crate::place::Place;
use crate::saying::{Saying, either};
use geos_image::{Potential, Routine};

/// So many steps, and so many for each that is on a counter.
pub(crate) fn put_steps(out: &mut Saying, n: u64, coefficients: &[u32; 4]) {
    out.number(" ", n);
    for k in 0..coefficients.len() {
        if coefficients[k] != 0 {
            out.say2(" + # k#", coefficients[k] as u64, k as u64);
        }
    }
}

/// Whether the potential has no coefficient above 0.
fn has_no_coefficient(potential: &Potential) -> bool {
    potential.coefficients == [0, 0, 0, 0]
}

/// The steps of the potential. Whether that is one step.
fn put_potential(out: &mut Saying, potential: &Potential) -> bool {
    let one = potential.constant == 1 && has_no_coefficient(potential);
    put_steps(out, u64::from(potential.constant), &potential.coefficients);
    out.text(either(one, " step", " steps"));
    one
}

/// What the row of the place knows beyond the open row, and its potential, after the routine and the pc if there is no text. If control
/// does not reach the place, the row may say all that can be said.
pub(crate) fn put_note(out: &mut Saying, place: &Place) {
    match out.lines.get(usize::from(place.pc)) {
        Some(_) => {
            out.text(" ;");
        },
        None => {
            out.say_of(" ; % #:", place.routine.name_text(), place.pc as u64);
        },
    }
    let before = out.len();
    if is_reached(place.image, place.marks, place.pc) {
        out.put_items(place.row);
    } else {
        out.text(" no path leads here");
    }
    if before < out.len() {
        out.text(",");
    }
    put_potential(out, place.potential);
}

/// The potential is above the budget.
pub(crate) fn put_budget(out: &mut Saying, routine: &Routine, potential: &Potential) {
    let one = put_potential(out, potential);
    out.text(either(one, " is", " are")).say_of(
        " required from the start of %, and the budget is #",
        routine.name_text(),
        routine.budget as u64,
    );
}

/// The least budget that is enough, if one is.
pub(crate) fn put_budget_wish(out: &mut Saying, potential: &Potential) {
    if has_no_coefficient(potential) {
        out.number(": the least budget is ", potential.constant as u64);
    }
}
