//! The graph of control of a routine: its edges, orders of its places, pieces of these, and the components of a piece.
#![tactic(auto)]

mod arcs;
mod components;
mod depth;
mod graph;
mod jumps;
mod leads;
mod lists;
mod pieces;
mod pile;
mod place;

pub use arcs::{Arc, Counting};
pub use components::Components;
pub use graph::Graph;
pub use jumps::{Jump, Jumps, lead_within};
pub use leads::{Lead, Leads};
pub use pieces::{Order, Piece};
pub use pile::Pile;
pub use place::Place;
