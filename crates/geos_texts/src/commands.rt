//! The commands.

ghost use Rattle.std.specs.Prelude.{◌≡◌, true, false, IfOk, IfErr, IfSome, IfNone};
ghost use Rattle.geos_asm.specs.Assembling.{IsAssembled, IsWhyNoImage};
ghost use Rattle.geos_image.specs.Reading.{image_at, Fails};
ghost use Rattle.geos_texts.specs.Commands.{IsAssembledAs, TakesVersion2, IsImageOf, IsWhyNoneOf, IsListed};
ghost use Rattle.geos_texts.specs.Commands.{IsJudged, IsJudgedText, IsFaultTold, begins_as_image};

use crate::no_rows::why_no_rows;
use effect_texts::put_effect_lines;
use geos_asm::{
    AssembleError, Assembled, Unassembled, assemble_all_rows, assemble_or_tell, assemble_with_lines,
};
use geos_explain::{explain, explain_text};
use geos_image::ReadError;
use geos_lines::tell_faults;
use geos_verify::{Checked, Reject, check, refused_places};
use round_trip::list;
use std::alloc::{AllocError, Global};

/// The bytes of the image of an assembly text with all rows, of version 1. `None` if a slot is borrowed, which takes
/// version 2. Its faults are those of `geos_asm::assemble`.
pub(crate) fn assemble_all_rows_bytes(
    alloc: Global,
    text: &[u8],
) -> Result<Option<Vec<u8>>, AssembleError>
    ensures assembled { IfOk result (λ made. IfSome made (λ bytes. IsAssembledAs text.now true bytes.items)) }
    ensures none { IfOk result (λ made. IfNone made (TakesVersion2 text.now)) }
    ensures fault { IfErr result (IsWhyNoImage text.now) }
{
    let whole = assemble_all_rows(alloc, text)?;
    // Recalls the facts of `len`: only slots can prevent that it is an image of version 1.
    let _formed = whole.len();
    match whole.into_image() {
        Some(image) => Ok(Some(geos_image::write(alloc, &image)?)),
        None => Ok(None),
    }
}

/// The listing of the image that the bytes encode. `ReadError::BadImage` if they encode none.
pub(crate) fn list_bytes(alloc: Global, bytes: &[u8]) -> Result<Vec<u8>, ReadError>
    ensures listed { IfOk result (λ text. IsListed bytes.now text.items) }
    ensures fault { IfErr result (λ fault. Fails fault (image_at bytes.now)) }
{
    let image = geos_image::read(alloc, bytes)?;
    Ok(list(alloc, &image)?)
}

/// The first refusal of the image that the bytes encode, if the verifier refuses it.
/// `ReadError::BadImage` if they encode none.
pub(crate) fn check_bytes(alloc: Global, bytes: &[u8]) -> Result<Option<Reject>, ReadError>
    ensures judged { IfOk result (IsJudged bytes.now) }
    ensures fault { IfErr result (λ fault. Fails fault (image_at bytes.now)) }
{
    let image = geos_image::read(alloc, bytes)?;
    match check(image) {
        Ok(_checked) => Ok(None),
        Err((_image, reject)) => Ok(Some(reject)),
    }
}

/// What there is to say of an image, or of a text.
#[derive(Drop)]
pub(crate) struct Explained {
    /// The listing or the text with what is known at each instruction, and what is wrong at each that is refused.
    pub(crate) text: Vec<u8>,
    /// Comments with the effects of each routine, if the verifier accepts the image.
    pub(crate) effects: Vec<u8>,
    /// The first refusal, if the verifier refuses the image.
    pub(crate) reject: Option<Reject>,
}

/// The comments with the effects of each routine.
pub(crate) fn effect_comments(alloc: Global, checked: &Checked) -> Result<Vec<u8>, AllocError> {
    let mut out = Vec::new(alloc);
    put_effect_lines(&mut out, checked)?;
    Ok(out)
}

/// The listing of the image that the bytes encode, with what is known at each instruction; and
/// whether the verifier accepts it. `ReadError::BadImage` if they encode none.
pub(crate) fn explain_bytes(alloc: Global, bytes: &[u8]) -> Result<Explained, ReadError>
    ensures explained { IfOk result (λ explained. IsJudged bytes.now explained.reject) }
    ensures fault { IfErr result (λ fault. Fails fault (image_at bytes.now)) }
{
    let image = geos_image::read(alloc, bytes)?;
    match check(image) {
        Ok(checked) => Ok(Explained {
            text: explain(alloc, checked.image(), &[])?,
            effects: effect_comments(alloc, &checked)?,
            reject: None,
        }),
        Err((image, reject)) => Ok(Explained {
            text: explain(alloc, &image, &refused_places(&image))?,
            effects: Vec::new(alloc),
            reject: Some(reject),
        }),
    }
}

/// Whether bytes are read as an image: they begin as one does.
pub(crate) fn begins_as_image(bytes: &[u8]) -> bool
    ensures { result ≡ begins_as_image bytes.now }
{
    bytes.starts_with(b"GRT1")
}

/// The bytes of an image, and of a text the line of each instruction.
#[derive(Drop)]
pub(crate) struct Made {
    pub(crate) image: Vec<u8>,
    pub(crate) lines: Option<Vec<u32>>,
    /// The text, if it is still needed.
    pub(crate) text: Vec<u8>,
}

/// A text without an image, and its fault of `geos_asm::assemble`.
#[derive(Drop)]
pub(crate) struct NotMade {
    pub(crate) text: Vec<u8>,
    pub(crate) fault: AssembleError,
}

/// The image of a text, as bytes, with rows at its key places and with the line of each instruction. Its faults are those of `geos_asm::assemble`.
pub(crate) fn made_of_text(alloc: Global, text: &[u8]) -> Result<Made, AssembleError>
    ensures image { IfOk result (λ made. IsAssembledAs text.now false made.image.items) }
    ensures fault { IfErr result (IsWhyNoImage text.now) }
{
    let Assembled { image, lines } = assemble_with_lines(alloc, text)?;
    Ok(Made {
        image: geos_image::write(alloc, &image)?,
        lines: Some(lines),
        text: Vec::new(alloc),
    })
}

/// The image that bytes are, if they begin as an image does, and otherwise the image of the text that they are.
pub(crate) fn image_of(alloc: Global, bytes: Vec<u8>) -> Result<Made, NotMade>
    ensures image { IfOk result (λ made. IsImageOf bytes.items made.image.items) }
    ensures fault { IfErr result (λ not_made. IsWhyNoneOf bytes.items not_made.fault) }
    ensures text { IfErr result (λ not_made. not_made.text.items ≡ bytes.items) }
{
    if begins_as_image(&bytes) {
        return Ok(Made {
            image: bytes,
            lines: None,
            text: Vec::new(alloc),
        });
    }
    match made_of_text(alloc, &bytes) {
        Ok(Made { image, lines, .. }) => Ok(Made {
            image,
            lines,
            text: bytes,
        }),
        Err(fault) => Err(NotMade { text: bytes, fault }),
    }
}

/// The lines of a text that has this image, with what is known at each instruction; and whether the verifier accepts the image.
fn explain_assembled(
    alloc: Global,
    text: &[u8],
    assembled: Assembled,
) -> Result<Explained, AllocError>
    requires { IsAssembled text.now assembled.image }
    ensures { IfOk result (λ explained. IsJudgedText text.now explained.reject) }
{
    let Assembled { image, lines } = assembled;
    match check(image) {
        Ok(checked) => Ok(Explained {
            text: explain_text(alloc, text, &lines, checked.image(), &[])?,
            effects: effect_comments(alloc, &checked)?,
            reject: None,
        }),
        Err((image, reject)) => Ok(Explained {
            text: explain_text(alloc, text, &lines, &image, &refused_places(&image))?,
            effects: Vec::new(alloc),
            reject: Some(reject),
        }),
    }
}

/// What there is to say of a text that is not assembled.
#[derive(Drop)]
pub(crate) struct Faulty {
    /// A line on each faulty line of the text; or why no rows are found for it.
    pub(crate) told: Vec<u8>,
    /// The fault of `geos_asm::assemble`.
    pub(crate) fault: AssembleError,
}

/// The lines of a text that assembles, with what is known at each instruction; and whether the verifier accepts its
/// image. Otherwise why there is none.
pub(crate) fn explain_text_bytes(
    alloc: Global,
    text: &[u8],
) -> Result<Result<Explained, Faulty>, AllocError>
    ensures explained { IfOk result (λ said. IfOk said (λ explained. IsJudgedText text.now explained.reject)) }
    ensures told { IfOk result (λ said. IfErr said (λ faulty. IsFaultTold text.now faulty.fault)) }
{
    match assemble_or_tell(alloc, text) {
        Ok(assembled) => Ok(Ok(explain_assembled(alloc, text, assembled)?)),
        Err(Unassembled::BadLine(line)) => Ok(Err(Faulty {
            told: tell_faults(alloc, text)?,
            fault: AssembleError::BadLine(line),
        })),
        Err(Unassembled::NoRows(line, cause, parsed)) => Ok(Err(Faulty {
            told: why_no_rows(alloc, line, &cause, &parsed)?,
            fault: AssembleError::NoRows(line),
        })),
        Err(Unassembled::Memory) => Err(AllocError),
    }
}
