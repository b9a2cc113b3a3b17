//! Lists of what a search in depth has left: one for each component.

ghost use Rattle.std.specs.Prelude.{◌<◌};

use geos_image::{MOST_INSTRS, Table, two_tables};
use std::alloc::{AllocError, Global};

/// A place that a search in depth has left, by its number.
#[derive(Clone, Copy)]
pub(crate) struct Left {
    pub(crate) n: u16,
    ghost inside: { n < 4096 },
}

/// The instructions of each component, as a linked list in the order in which the search left them.
#[derive(Drop)]
pub(crate) struct Lists {
    first: Table<Option<Left>>,
    behind: Table<Option<Left>>,
}

impl Lists {
    ghost use Rattle.std.specs.Prelude.{◌<◌, None};

    /// They are empty.
    pub(crate) fn new(alloc: Global) -> Result<Lists, AllocError> {
        let (first, behind) = two_tables(alloc, None, None)?;
        Ok(Lists { first, behind })
    }

    /// They are empty next.
    pub(crate) fn clear(&mut self) {
        self.first.fill_from(0, None);
    }

    /// The place of a number comes first next among those of its component.
    pub(crate) fn put(&mut self, component: u16, n: u16)
        requires { n < 4096 }
    {
        if component < MOST_INSTRS {
            self.behind.set(n, self.first.at(component));
            self.first.set(component, Some(Left { n }));
        }
    }

    /// The first place of a component.
    pub(crate) fn first(&self, component: u16) -> Option<Left>
        requires { component < 4096 }
    {
        self.first.at(component)
    }

    /// The next one after an instruction.
    pub(crate) fn next(&self, place: Left) -> Option<Left> {
        self.behind.at(place.n)
    }
}
