//! Texts and images, as bytes.

ghost use Rattle.std.specs.Prelude.{◌≡◌, ◌<◌, ◌⊎◌, Err, length};
ghost use Rattle.geos_asm.specs.Assembling.{HasNoRows};
ghost use Rattle.geos_image.specs.Reading.{image_at};
ghost use Rattle.takhvoi.specs.Texts.{Gives, GivesOrTells, HasFaultAt, IsImageOf, IsListedAs, IsLonger, IsPutInto};

use crate::status::{BAD_IMAGE, DONE, NO_MEMORY, REFUSED, SHORT_BUFFER};
use geos_asm::{AssembleError, assemble};
use geos_image::ReadError;
use round_trip::list;
use std::alloc::Global;

/// Copies bytes to the beginning of a buffer, if they fit, and writes their number to `told`.
pub(crate) fn give(bytes: &[u8], into: &mut [u8], told: &mut u64) -> u32
    ensures told { told.new ≡ length bytes.now }
    ensures given { result ≡ 0 → IsPutInto bytes.now told.new into.old into.new }
    ensures short { (result ≡ 0 → ⊥) → (result ≡ 115) × (into.new ≡ into.old) × (length into.old < length bytes.now) }
{
    let n = bytes.len();
    *told = n as u64;
    if n > into.len() {
        return SHORT_BUFFER;
    }
    into[..n].copy_from_slice(bytes);
    DONE
}

/// The image of an assembly text, with rows at its key places. `told` is the number of its bytes, also if the buffer is too short; or the
/// line of the text's first fault; or the line of a routine for which no rows are found.
#[unsafe(no_mangle)]
pub extern "C" fn takhvoi_assemble(
    alloc: Global,
    text: &[u8],
    into: &mut [u8],
    told: &mut u64,
) -> u32
    ensures image { result ≡ 0 → Gives (IsImageOf text.now) told.new into.old into.new }
    ensures kept { (result ≡ 0 → ⊥) → into.new ≡ into.old }
    ensures fault { result ≡ 112 → HasFaultAt text.now told.new }
    ensures no_rows { result ≡ 113 → HasNoRows text.now told.new }
    ensures short { result ≡ 115 → IsLonger (IsImageOf text.now) told.new (length into.old) }
    ensures own { (result ≡ 113) ⊎ GivesOrTells result }
{
    match assemble(alloc, text) {
        Ok(image) => match geos_image::write(alloc, &image) {
            Ok(bytes) => give(&bytes, into, told),
            Err(_) => NO_MEMORY,
        },
        Err(AssembleError::BadLine(fault)) => {
            *told = fault.line as u64;
            BAD_IMAGE
        }
        Err(AssembleError::NoRows(line)) => {
            *told = line as u64;
            REFUSED
        }
        Err(AssembleError::Memory) => NO_MEMORY,
    }
}

/// The listing of an image, a text. `told` is the number of its bytes, also if the buffer is too short; or the offset of the first faulty
/// byte.
#[unsafe(no_mangle)]
pub extern "C" fn takhvoi_list(alloc: Global, bytes: &[u8], into: &mut [u8], told: &mut u64) -> u32
    ensures listed { result ≡ 0 → Gives (IsListedAs bytes.now) told.new into.old into.new }
    ensures kept { (result ≡ 0 → ⊥) → into.new ≡ into.old }
    ensures bad { result ≡ 112 → image_at bytes.now ≡ Err told.new }
    ensures short { result ≡ 115 → IsLonger (IsListedAs bytes.now) told.new (length into.old) }
    ensures own { GivesOrTells result }
{
    let image = match geos_image::read(alloc, bytes) {
        Ok(image) => image,
        Err(ReadError::BadImage(at)) => {
            *told = at as u64;
            return BAD_IMAGE;
        }
        Err(ReadError::Memory) => return NO_MEMORY,
    };
    match list(alloc, &image) {
        Ok(text) => give(&text, into, told),
        Err(_) => NO_MEMORY,
    }
}
