//! The request of a `diff`.

use crate::given::Given;

/// To print what differs between two VM files.
#[derive(Clone, Copy)]
pub struct DiffRequest<'a> {
    /// The paths of the files.
    pub one: &'a str,
    pub other: &'a str,
    /// Whether only their saved directories are compared.
    pub saved: bool,
}

/// The request of a `diff`.
pub(crate) fn diff_of<'a>(given: &Given<'_, 'a>) -> DiffRequest<'a> {
    DiffRequest {
        one: given.word("A"),
        other: given.word("B"),
        saved: given.flag("saved"),
    }
}
