//! The request of a `copy`.

ghost use Rattle.std.specs.Prelude.{IfSome};
ghost use Rattle.geos_shell.specs.Limits.{IsArea};

use crate::given::Given;
use crate::numbers::AREA;

/// To copy a VM file to a new one.
#[derive(Clone, Copy)]
pub struct CopyRequest<'a> {
    /// The path of the file that is copied.
    pub file: &'a str,
    /// The path of the new file.
    pub new: &'a str,
    /// The size of its areas, a legal one; with none, it is that of the file that is copied.
    pub area: Option<u32>,
    /// Whether the saved directory is the current one of the new file too.
    pub saved: bool,
}

/// The size of an area, if one is given.
fn area_of(given: &Given<'_, '_>) -> Option<u32>
    ensures { IfSome result IsArea }
{
    match given.setting("area") {
        Some(_) => Some(given.number(&AREA)),
        None => None,
    }
}

/// The request of a `copy`.
pub(crate) fn copy_of<'a>(given: &Given<'_, 'a>) -> CopyRequest<'a>
    ensures { IfSome result.area IsArea }
{
    CopyRequest {
        area: area_of(given),
        file: given.word("FILE"),
        new: given.word("NEW"),
        saved: given.flag("saved"),
    }
}
