//! The text of what is noted of a run: its steps, or how often each line ran. And the page of a run: what a machine and its kernel have
//! before each step, as JSON in one HTML file.
#![tactic(auto)]

mod blocks;
mod json;
mod lines;
mod notes;
mod page;
mod page_begin;
mod page_panels;
mod page_run;
mod steps;
mod watched;
mod writes;

pub use lines::{origin_of, put_counts, put_end, put_instruction, put_refused};
pub use notes::{MOST_STEPS, Notes};
pub use page::{Told, html};
pub use steps::{put_done, put_step};
pub use watched::ChunkWatch;
