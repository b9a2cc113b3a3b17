//! Effects in texts: how they are listed, granted and refused.
//!
//! docs/GRANTS.md has the words.
#![tactic(auto)]

mod grants;
mod listed;
mod refused;

pub use grants::grants_of;
pub use listed::put_effects;
pub use refused::{put_effect_lines, put_excess};
