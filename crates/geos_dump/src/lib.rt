//! What a VM file keeps: its two directories with their blocks and chunks, as text, as a picture of how full the blocks are, and in a copy;
//! and what differs between two such texts.
//!
//! A copy is written, opened, and compared with the file: no other copy is returned.
#![tactic(auto)]

mod areas;
mod bars;
mod chunks;
mod compare;
mod copy_error;
mod duplicate;
mod error;
mod hex;
mod lengths;
mod lines;
mod merging;
mod objects;
mod picture;
mod places;
mod sides;
mod spelling;
mod telling;
mod text;
mod view;

pub use areas::{Areas, read_areas};
pub use copy_error::CopyError;
pub use duplicate::copy;
pub use error::DumpError;
pub use lines::saved_part;
pub use merging::differences;
pub use picture::{LEAST_WIDTH, map};
pub use sides::Side;
pub use text::dump;
pub use view::{Detail, View};
