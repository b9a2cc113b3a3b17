//! The code of an image by routines: where control goes in it, and what is known of registers at a place.
#![tactic(auto)]

mod body;
mod edges;
mod known;

pub use body::{Body, body_of};
pub use edges::{Lead, edge_end, edge_in, is_loop, leads_back};
pub use known::{Known, bound_of, clean, row_of, shape};
