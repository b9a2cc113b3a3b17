//! The edges into a place of a routine that are left.

ghost use Rattle.std.specs.Prelude.{◌≡◌, ◌<◌, None};

/// An edge by which control comes to a place.
#[derive(Clone, Copy)]
pub(crate) struct Came {
    pub(crate) from: u16,
    pub(crate) branch: bool,
    ghost inside: { from < 4096 },
}

/// The edges into a place.
#[derive(Clone, Copy)]
pub(crate) struct WaysIn {
    /// How many are left; those from a place into which none is are taken away.
    pub(crate) left: u16,
    /// One of those that are left, once such are noted.
    pub(crate) came: Option<Came>,
}

impl WaysIn {
    /// So many are left, and none is noted.
    pub(crate) fn with_left(left: u16) -> WaysIn
        ensures left { result.left ≡ left }
        ensures came { result.came ≡ None }
    {
        WaysIn { left, came: None }
    }
}
