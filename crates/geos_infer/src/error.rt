//! Why no image was found.

ghost use Rattle.std.specs.Prelude.{◌≡◌};
ghost use Rattle.geos_infer.specs.declared.error.InferError.TheVariants.{Memory};

use std::alloc::AllocError;

/// Why no rows and potentials were found for the code of an image.
#[derive(Drop)]
pub enum InferError {
    /// None were found for the routine with this index: slots differ in more than marks where ways
    /// of control meet, or no potential was found. That it is the first such one is not proved.
    NoRows(u16),
    /// An allocation was refused.
    Memory,
}

impl From<AllocError> for InferError {
    ghost from_gives = { λ _ e. e ≡ Memory };

    fn from(_: AllocError) -> InferError {
        InferError::Memory
    }
}
