//! Sources of the structured language.

ghost use Rattle.std.specs.Prelude.{◌≡◌, ◌⊎◌, IfOk, length};
ghost use Rattle.takhvoi.specs.Texts.{Gives, GivesOrTells, HasLine, IsAcceptedImage, IsLonger};

use crate::status::{BAD_IMAGE, DONE, NO_MEMORY};
use crate::texts::give;
use std::alloc::{AllocError, Global};
use tkv_code::{Fault, Why, compile, place_of, put_sentence};

/// The bytes of a source's image, or its first fault.
fn image_bytes(alloc: Global, text: &[u8]) -> Result<Vec<u8>, Fault>
    ensures { IfOk result (λ bytes. IsAcceptedImage bytes.items) }
{
    let compiled = compile(alloc, text)?;
    match geos_image::write(alloc, compiled.checked.image()) {
        Ok(bytes) => Ok(bytes),
        Err(AllocError) => Err(Fault::new(Why::Memory, 0)),
    }
}

/// The image of a source of the structured language: the verifier accepts it. `told` is the number of its bytes, also if the buffer is too
/// short; or the line of the source's first fault.
#[unsafe(no_mangle)]
pub extern "C" fn takhvoi_compile(
    alloc: Global,
    text: &[u8],
    into: &mut [u8],
    told: &mut u64,
) -> u32
    ensures image { result ≡ 0 → Gives IsAcceptedImage told.new into.old into.new }
    ensures kept { (result ≡ 0 → ⊥) → into.new ≡ into.old }
    ensures fault { result ≡ 112 → HasLine text.now told.new }
    ensures short { result ≡ 115 → IsLonger IsAcceptedImage told.new (length into.old) }
    ensures own { GivesOrTells result }
{
    let fault = match image_bytes(alloc, text) {
        Ok(bytes) => return give(&bytes, into, told),
        Err(fault) => fault,
    };
    if matches!(fault.why, Why::Memory) {
        return NO_MEMORY;
    }
    *told = place_of(text, fault.at).line as u64;
    BAD_IMAGE
}

/// The sentence of a fault, as a line.
fn sentence_of(alloc: Global, text: &[u8], fault: &Fault) -> Result<Vec<u8>, AllocError> {
    let mut sentence = Vec::new(alloc);
    put_sentence(&mut sentence, text, fault)?;
    sentence.push(b'\n')?;
    Ok(sentence)
}

/// The first fault of a source as a sentence, with its line and its column; 0 bytes, line 0 and column 0 if the source has an image. `told` is
/// the number of bytes, also if the buffer is too short.
#[unsafe(no_mangle)]
pub extern "C" fn takhvoi_explain_source(
    alloc: Global,
    text: &[u8],
    into: &mut [u8],
    told: &mut u64,
    line: &mut u64,
    column: &mut u64,
) -> u32
    ensures kept { (result ≡ 0 → ⊥) → into.new ≡ into.old }
    ensures line { (result ≡ 111 → ⊥) → (line.new ≡ 0) ⊎ HasLine text.now line.new }
    ensures own { (result ≡ 0) ⊎ ((result ≡ 111) ⊎ (result ≡ 115)) }
{
    let Err(fault) = image_bytes(alloc, text) else {
        (*told, *line, *column) = (0, 0, 0);
        return DONE;
    };
    if matches!(fault.why, Why::Memory) {
        return NO_MEMORY;
    }
    let place = place_of(text, fault.at);
    (*line, *column) = (place.line as u64, place.column as u64);
    match sentence_of(alloc, text, &fault) {
        Ok(sentence) => give(&sentence, into, told),
        Err(AllocError) => NO_MEMORY,
    }
}
