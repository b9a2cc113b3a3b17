//! The verifier: which images may run.
//!
//! docs/VERIFIER.md says the rules and what they promise.
#![tactic(auto)]

mod asked;
mod body;
mod bounds;
mod checked;
mod edges;
mod enough;
mod entry;
mod keyed;
mod misuse;
mod pairs;
mod place;
mod pointers;
mod potentials;
mod public;
mod refusal;
mod refused;
mod rule;
mod slots;
mod touched;
mod uses;

pub use asked::{Asked, asked_along, asked_branching};
pub use checked::{Checked, check};
pub use edges::{after, has_edge};
pub use enough::{fits, is_empty, leads_nowhere, pointer_fits, slot_fits, within_bounds};
pub use entry::admits_words;
pub use geos_image::{branches, falls_through};
pub use keyed::accepted_images_are_accepted_in_version_2;
pub use misuse::{bytes_in, is_of_file, least_at, misuses, reach};
pub use place::{Place, places_of, row_next};
pub use pointers::pointer_at;
pub use potentials::are_spent;
pub use refusal::{has_place, over_budget};
pub use refused::{Refusals, refused_places};
pub use rule::{Reject, Rule};
pub use slots::{are_alike, slot_state};
pub use touched::{Touched, calls, touched_in};
pub use uses::uses_at;
