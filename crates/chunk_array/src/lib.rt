//! Arrays in the chunks of a heap: lists of elements of one size, or of varying sizes.
//!
//! An array has a header of four words. Elements of one size follow side by side; elements of
//! varying sizes follow a table of their offsets. docs/ARRAYS.md has a picture. Every call works
//! within the block, allocates nothing, and leaves the block a heap with its handle; a refused
//! call leaves every byte unchanged. (GEOS SDK Concepts Book, chapter Local Memory.)
//!
//! Each call reads the array's shape first. That takes constant time if elements have one size.
//! If sizes vary, it is one pass over the table of offsets, since the chunk's bytes are no array
//! if one offset is wrong.
#![tactic(auto)]

mod change;
mod error;
mod grow;
mod law;
mod look;
mod make;
mod resize;
mod shape;
mod shrink;
mod table;

pub use error::{AppendError, ArrayError, ElementError, GrowthError};
pub use grow::{append, insert};
pub use law::{arrays_are_read_back, edits_change_arrays, edits_keep_sizes};
pub use look::{count, element};
pub use make::{clear, create};
pub use resize::resize_element;
pub use shrink::remove;
