//! The control flow of an image: the edges into each pc, a search along those that count, whose time is linear, and values that say why
//! a routine has no rows or no numbers of steps.
#![tactic(auto)]

mod apart;
mod back_way;
mod cause;
mod edge;
mod graph;
mod marks;
mod pending;
mod search;
mod waiting;

pub use apart::{Apart, Coming, Emptied, slots_agree};
pub use back_way::BackWay;
pub use cause::{ByNumber, ByWord, Cause, LoopOn, LoopPair, LoopRing, Within};
pub use edge::{Edge, end_of};
pub use graph::Graph;
pub use marks::{Marks, is_marked, mark, no_marks};
pub use pending::Pending;
pub use search::{Counting, Heading, follow};
