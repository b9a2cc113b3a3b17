//! Groups and items of a VM file.
//!
//! A group is a block of the file with a user ID of its own, and its items are the chunks of the heap
//! that it holds. A call on an item brings its group into memory, and marks it after each change.
//! (GEOS SDK Concepts Book, chapter Database Library.)
#![tactic(auto)]

mod changes;
mod groups;
mod items;
mod locks;
mod maps;

pub use changes::{item_change, item_make};
pub use groups::{group_free, group_new, is_group};
pub use items::{item_delete, item_free, item_insert, item_new, item_realloc};
pub use locks::{item_dirty, item_lock, item_lock_part, item_unlock};
pub use maps::{map_item, set_map_item};
