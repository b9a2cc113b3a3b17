//! Whether the code of an image is that of a placed routine.
#![tactic(auto)]

mod checked;
mod closes;
mod places;
mod steps;
mod walk;

pub use checked::{first_other, is_code};
