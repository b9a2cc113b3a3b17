//! The request of a `put` that makes what it writes into.

use crate::given::Given;

/// What a `put` makes.
#[derive(Clone, Copy)]
pub enum New {
    /// A block with the user ID, and a chunk in it.
    Block(u16),
    /// A group, and an item in it.
    Group,
    /// A chunk in the block with the handle.
    Chunk(u16),
    /// An item in the group with the handle.
    Item(u16),
}

impl New {
    /// What is made, if anything is.
    pub(crate) fn of(given: &Given<'_, '_>) -> Option<New> {
        if given.has("new-block") {
            Some(New::Block(given.short("new-block")))
        } else if given.flag("new-group") {
            Some(New::Group)
        } else if given.has("new-chunk") {
            Some(New::Chunk(given.short("new-chunk")))
        } else if given.has("new-item") {
            Some(New::Item(given.short("new-item")))
        } else {
            None
        }
    }
}
