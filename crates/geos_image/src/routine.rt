//! Routines.

ghost use Rattle.std.specs.Prelude.{◌≡◌, take, unwrap_or};
ghost use Rattle.geos_image.specs.Legal.{text_end};

use crate::legal::text_end;
use crate::row::Row;

/// A routine of an image. Its instructions follow those of the routine before it.
#[derive(Clone, Copy)]
pub struct Routine {
    /// 1 to 16 letters, digits and underscores, the first a letter; then zeros.
    pub name: [u8; 16],
    /// A public routine may be called from outside.
    pub public: bool,
    /// How many instructions it has, at least 1.
    pub count: u16,
    /// A call takes at most so many steps.
    pub budget: u32,
    /// What it needs of the registers where it begins.
    pub entry: Row,
    /// What it promises of the registers where it returns.
    pub exit: Row,
}

impl Routine {
    /// The name without the zeros after it.
    pub fn name_text(&self) -> &[u8]
        ensures { result.now ≡ take (unwrap_or (text_end self.now.name) 16) self.now.name }
    {
        let end = text_end(&self.name).unwrap_or(16);
        &self.name[..end]
    }
}
