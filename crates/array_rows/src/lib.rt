//! The elements of an array, in the bytes of a chunk, as rows of CSV or of a JSON object; and such rows as elements.
#![tactic(auto)]

mod array;
mod elements;
mod escapes;
mod fault;
mod json_rows;
mod new_elements;
mod printed;
mod row;

pub use array::{rows_of, with_rows};
pub use fault::{ArrayFault, RowFault};
