//! The listing of an image is a text that gives the image's routines and instructions again.
//!
//! docs/FORMATS.md has the form of texts and listings.
#![tactic(auto)]

ghost use Rattle.std.specs.Prelude.{◌≡◌, IfOk};
ghost use Rattle.geos_listing.specs.Listing.{listing};
ghost use Rattle.geos_source.specs.Coded.{IsTextOf};

use geos_image::Image;
use std::alloc::{AllocError, Global};

/// The text of the image. It has no fault, and what is assembled from it has the image's routines
/// and instructions. An error says that an allocation was refused.
pub fn list(alloc: Global, image: &Image) -> Result<Vec<u8>, AllocError>
    ensures listing { IfOk result (λ text. text.items ≡ listing image.now) }
    ensures again { IfOk result (λ text. IsTextOf image.now text.items) }
{
    geos_listing::list(alloc, image)
}
