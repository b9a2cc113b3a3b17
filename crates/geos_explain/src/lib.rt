//! Explanations: the listing of an image with what is known at each instruction, and, if the
//! verifier refuses it, what is wrong at each such place, in plain words; and why no rows are found.
//!
//! docs/FORMATS.md has the form.
#![tactic(auto)]

/// The array of what a function gives of the items of two arrays, pair by pair.
macro_rules! zipped {
    ($f:ident; $left:expr, $right:expr; $($a:ident $b:ident),+) => {{
        let [$($a),+] = $left;
        let [$($b),+] = $right;
        [$($f($a, $b)),+]
    }};
}

mod arrivals;
mod budgets;
mod calls;
mod causes;
mod cures;
mod diagnostics;
mod explained;
mod explanation;
mod filled;
mod finding;
mod forgotten;
mod held;
mod lacks;
mod led;
mod notes;
mod phrases;
mod place;
mod public;
mod refusals;
mod refused;
mod repeated;
mod routines;
mod saying;
mod since;
mod stale;
mod steps;
mod trace;
mod uses;
mod ways;
mod words;

pub use budgets::{
    what_is_said_of_budgets_holds, what_is_said_of_counters_holds, what_is_said_of_words_holds,
};
pub use causes::explain_cause;
pub use diagnostics::diagnose;
pub use explanation::{explain, explain_text};
pub use forgotten::{what_is_said_of_calls_holds, what_is_said_of_rounds_holds};
pub use lacks::rows_that_fit_lack_nothing;
pub use public::rows_without_faults_may_be_public;
pub use refusals::told_where_refused;
pub use refused::{Refusal, RefusalList, Register, find_refusals};
pub use repeated::repeated_is_told_before;
pub use since::what_is_said_of_a_held_slot_holds;
