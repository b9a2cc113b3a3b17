//! Whether routines have budgets within a limit.

ghost use Rattle.std.specs.Prelude.{◌≡◌, ◌<◌, IfSome, IfNone, option_copied, length};
ghost use Rattle.geos_texts.specs.Budgets.{is_meant, IsWithin, IsOver};
ghost use Rattle.geos_image.specs.declared.routine.Routine.{Routine};

use geos_image::{Image, Routine};

/// Whether the routine has the name that is called; without a name, each is meant.
fn is_meant(called: Option<&[u8]>, routine: &Routine) -> bool
    ensures { result ≡ is_meant (option_copied called.entry) routine.now }
{
    match called {
        Some(name) => routine.name_text() == name,
        None => true,
    }
}

/// The first public routine with a budget of more than `most` steps; with a name, only the routine that has it is tested. `None` if there is no
/// such routine.
pub(crate) fn first_over(image: &Image, called: Option<&[u8]>, most: u32) -> Option<u16>
    ensures none { IfNone result (IsWithin image.now (option_copied called.entry) most) }
    ensures within { IfSome result (λ r. r < length image.now.routines) }
    ensures over { IfSome result (λ r. (routine : Routine) × IsOver image.now (option_copied called.entry) most r routine) }
{
    for r in 0..image.count() {
        let routine = image.routine(r);
        if routine.public && is_meant(called, routine) && routine.budget > most {
            return Some(r);
        }
    }
    None
}
