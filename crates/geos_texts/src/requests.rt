//! The requests on texts and images that a path names.

use crate::commands::{
    Explained, assemble_all_rows_bytes, begins_as_image, check_bytes, explain_bytes,
    explain_text_bytes, list_bytes, made_of_text,
};
use crate::fault::{FaultyText, Refused, TextFault};
use crate::grants::effect_lines;
use crate::runnable::{Runnable, Unmarked, read_completed, read_unmarked};
use crate::source_lines::with_source_lines;
use crate::sources::formatted_source;
use geos_asm::{AssembleError, Assembled, BudgetError, Budgeted, completed, find_budgets};
use geos_input::{MOST_BYTES, ScriptFault};
use geos_lints::Advice;
use geos_scripts::{BadLines, NameUse, tell_bad_lines};
use geos_shell::{
    Language, Named, NewText, Reports, STANDARD, StreamFault, TextPath, print, print_lines, read,
    tell, write,
};
use geos_verify::{Reject, check as check_image};
use line_marks::{LineMarks, formatted};
use std::alloc::{AllocError, Global};

/// The most bytes that are read of a file: one more than a text may have, and more than any image has.
pub const MOST_READ: u64 = MOST_BYTES as u64 + 1;

/// Writes the image of an assembly text with all rows to the path `image`. `TextFault::TakesVersion2` if the text borrows a slot, and
/// `TextFault::AllRowsOfSource` if `text` names a source; otherwise the faults of `assemble`.
pub fn assemble_all<'a>(
    rt: &HostRuntime,
    from: TextPath<'a>,
    image: &'a str,
) -> Result<(), TextFault<'a>> {
    if from.is_source() {
        return Err(TextFault::AllRowsOfSource);
    }
    let text = from.path;
    let Unmarked { bytes, marks } = read_unmarked(rt, text)?;
    match assemble_all_rows_bytes(rt.alloc(), &bytes) {
        Ok(Some(made)) => Ok(write(rt, image, &made, text)?),
        Ok(None) => Err(TextFault::TakesVersion2),
        Err(fault) => Err(not_assembled(rt.alloc(), text, bytes, marks, fault)),
    }
}

/// Writes the image of a text to the path `image`, with rows at its key places, and reports warnings, if they are required. Returns what was
/// written. The faults are those of `geos_asm::assemble` and of the two streams.
pub fn assemble<'a>(
    rt: &HostRuntime,
    reports: Reports,
    from: TextPath<'a>,
    image: &'a str,
) -> Result<Runnable<'a>, TextFault<'a>> {
    let text = from.path;
    if from.is_source() {
        let made = read_and_warn(rt, reports, from)?;
        write(rt, image, &made.image, text)?;
        return Ok(made);
    }
    let Unmarked { bytes, marks } = read_unmarked(rt, text)?;
    match made_of_text(rt.alloc(), &bytes) {
        Ok(made) => {
            let made = Runnable {
                path: text,
                image: made.image,
                lines: made.lines,
                text: bytes,
                marks,
                told: Vec::new(rt.alloc()),
                source: Vec::new(rt.alloc()),
            };
            warn(rt, reports, &made);
            write(rt, image, &made.image, text)?;
            Ok(made)
        }
        Err(fault) => Err(not_assembled(rt.alloc(), text, bytes, marks, fault)),
    }
}

/// Reports the warnings about a text, if they are required.
fn warn(rt: &HostRuntime, reports: Reports, image: &Runnable<'_>) {
    if reports.warnings && !reports.json {
        tell(rt, reports, &image.warnings(rt.alloc()));
    }
}

/// Reports a warning about the file with the path.
pub fn tell_warning(rt: &HostRuntime, reports: Reports, path: &str, advice: &Advice) {
    if let Ok(line) = warning_line(rt.alloc(), path, advice) {
        tell(rt, reports, &line);
    }
}

/// The line of a warning about the file with the path.
fn warning_line(alloc: Global, path: &str, advice: &Advice) -> Result<Vec<u8>, AllocError> {
    let path = Named(path);
    let mut line = format!(in alloc; "{path}: warning: ")?.into_bytes();
    line.extend_from_slice(&advice.sentence(alloc)?)?;
    line.push(b'\n')?;
    Ok(line)
}

/// The fault of a text that is not assembled.
fn not_assembled<'a>(
    alloc: Global,
    path: &'a str,
    text: Vec<u8>,
    marks: LineMarks,
    fault: AssembleError,
) -> TextFault<'a> {
    TextFault::Assemble(FaultyText::new(alloc, path, text, marks, fault))
}

/// The fault of a text with the least budgets that the verifier refuses.
fn refused<'a>(
    alloc: Global,
    path: &'a str,
    made: Assembled,
    marks: LineMarks,
    reject: Reject,
) -> TextFault<'a> {
    match geos_image::write(alloc, &made.image) {
        Ok(bytes) => TextFault::Refused(Refused {
            image: Runnable {
                path,
                image: bytes,
                lines: Some(made.lines),
                text: Vec::new(alloc),
                marks,
                told: Vec::new(alloc),
                source: Vec::new(alloc),
            },
            reject,
        }),
        Err(_) => TextFault::Stream(StreamFault::Memory),
    }
}

/// The text of the path with the least budgets, if the verifier accepts it.
fn accepted_with_least<'a>(
    alloc: Global,
    path: &'a str,
    unmarked: Unmarked,
) -> Result<Vec<u8>, TextFault<'a>> {
    let Unmarked { bytes: text, marks } = unmarked;
    match find_budgets(alloc, &text) {
        Ok(
            Budgeted {
                text: mut new,
                made: Assembled { image, lines },
            },
        ) => match check_image(image) {
            Ok(_checked) => {
                marks.restore(&mut new);
                Ok(new)
            }
            Err((image, reject)) => {
                let made = Assembled { image, lines };
                Err(refused(alloc, path, made, marks, reject))
            }
        },
        Err(BudgetError::Assemble(fault)) => match completed(alloc, text) {
            Ok(text) => Err(not_assembled(alloc, path, text, marks, fault)),
            Err(_) => Err(TextFault::Stream(StreamFault::Memory)),
        },
        Err(fault) => Err(TextFault::Budget(fault).by_marks(alloc, &marks)),
    }
}

/// Writes a text that was made of another one. A text in whose place it goes does not have to stay.
fn write_new<'a>(rt: &HostRuntime, paths: NewText<'a>, made: &[u8]) -> Result<(), TextFault<'a>> {
    let source = if paths.in_place { "" } else { paths.text };
    Ok(write(rt, paths.new, made, source)?)
}

/// Writes a text with its labels, instructions and comments in columns, or a source in one layout. `TextFault::NoText` of an image,
/// `TextFault::LongText` of more than 1,048,576 bytes, and `TextFault::Source` if a word of a source is none; then nothing is written.
pub fn format<'a>(
    rt: &HostRuntime,
    paths: NewText<'a>,
    language: Language,
) -> Result<(), TextFault<'a>> {
    let text = read(rt, paths.text, MOST_READ)?;
    if begins_as_image(&text) {
        return Err(TextFault::NoText);
    }
    // What is read of a longer text is not all of it.
    if text.len() > MOST_BYTES {
        return Err(TextFault::LongText);
    }
    if language.at(paths.text).is_source() {
        let made = formatted_source(rt.alloc(), paths.text, &text)?;
        return write_new(rt, paths, &made);
    }
    match formatted(rt.alloc(), &text) {
        Ok(made) => write_new(rt, paths, &made),
        Err(_) => Err(TextFault::Stream(StreamFault::Memory)),
    }
}

/// Writes a text with the least budget of each routine. `TextFault::BudgetOfSource` of a source, `TextFault::Budget` if no budgets are enough, and `TextFault::Refused` if the verifier refuses the text with them; then nothing is
/// written.
pub fn budget<'a>(
    rt: &HostRuntime,
    paths: NewText<'a>,
    language: Language,
) -> Result<(), TextFault<'a>> {
    if language.at(paths.text).is_source() {
        return Err(TextFault::BudgetOfSource);
    }
    let unmarked = read_unmarked(rt, paths.text)?;
    let made = accepted_with_least(rt.alloc(), paths.text, unmarked)?;
    write_new(rt, paths, &made)
}

/// Reads what a path names, as `Runnable::read`, and reports the warnings about a text, if they are required.
pub fn read_and_warn<'a>(
    rt: &HostRuntime,
    reports: Reports,
    from: TextPath<'a>,
) -> Result<Runnable<'a>, TextFault<'a>> {
    let image = Runnable::read(rt, from)?;
    warn(rt, reports, &image);
    Ok(image)
}

/// Prints the listing of an image, or of the image of a text, and comments with the effects of each routine. `with_source` puts the lines of a
/// source before the instructions that were made of them. `TextFault::Read` if the bytes begin as an image does and are none.
pub fn list<'a>(
    rt: &HostRuntime,
    from: TextPath<'a>,
    with_source: bool,
) -> Result<(), TextFault<'a>> {
    let made = Runnable::read(rt, from)?;
    let listing = list_bytes(rt.alloc(), &made.image)?;
    let text = if with_source && made.is_of_source() {
        with_source_lines(rt.alloc(), &listing, &made)?
    } else {
        listing
    };
    let effects = effect_lines(rt.alloc(), &made.image)?;
    print(rt, &text)?;
    Ok(print(rt, &effects)?)
}

/// Prints `accepted` if the image, or the image of a text, may run, and reports warnings about a text, if they are required. `TextFault::Refused` if the verifier refuses it, and `TextFault::Read` if
/// the bytes begin as an image does and are none.
pub fn check<'a>(
    rt: &HostRuntime,
    reports: Reports,
    from: TextPath<'a>,
) -> Result<(), TextFault<'a>> {
    let image = read_and_warn(rt, reports, from)?;
    match check_bytes(rt.alloc(), &image.image)? {
        None => Ok(print(rt, b"accepted\n")?),
        Some(reject) => Err(TextFault::Refused(Refused { image, reject })),
    }
}

/// Prints why a text is not assembled. Of a VM file it says that it is one, since lines of it mean nothing.
fn print_why<'a>(rt: &HostRuntime, text: &[u8], told: &[u8]) -> Result<(), StreamFault<'a>> {
    if text.starts_with(b"GVM1") {
        print(
            rt,
            b"line 1: the file begins with GVM1, as a VM file does: geos dump shows it\n",
        )
    } else {
        print_lines(rt, told)
    }
}

/// Replaces the lines in a message by those that line marks name. Without marks the message stays as it is.
fn told_by_marks<'a>(
    alloc: Global,
    marks: &LineMarks,
    told: Vec<u8>,
) -> Result<Vec<u8>, StreamFault<'a>> {
    if marks.is_empty() {
        return Ok(told);
    }
    match marks.sentences(alloc, None, &told) {
        Ok(told) => Ok(told),
        Err(_) => Err(StreamFault::Memory),
    }
}

/// What there is to say of a text. If the text is not assembled, it prints why.
fn explained_text<'a>(
    rt: &HostRuntime,
    text: &[u8],
    marks: &LineMarks,
) -> Result<Explained, TextFault<'a>> {
    match explain_text_bytes(rt.alloc(), text) {
        Ok(Ok(explained)) => Ok(explained),
        Ok(Err(faulty)) => {
            let told = told_by_marks(rt.alloc(), marks, faulty.told)?;
            print_why(rt, text, &told)?;
            Err(TextFault::Unexplained(faulty.fault).by_marks(rt.alloc(), marks))
        }
        Err(_) => Err(TextFault::Unexplained(AssembleError::Memory)),
    }
}

/// What there is to say of an image, or of a text.
fn explained<'a>(rt: &HostRuntime, unmarked: &Unmarked) -> Result<Explained, TextFault<'a>> {
    let bytes = unmarked.bytes.as_slice();
    if begins_as_image(bytes) {
        Ok(explain_bytes(rt.alloc(), bytes)?)
    } else {
        explained_text(rt, bytes, &unmarked.marks)
    }
}

/// Lines with what is known at each instruction.
#[derive(Drop)]
pub struct KnownLines {
    /// The lines, as `explain` prints them.
    pub lines: Vec<u8>,
    /// Whether they are lines of a text, and not of the listing of an image.
    pub of_text: bool,
}

/// What is known at each line of the text of an image, which is read again; or at each line of the listing, if the image was not made of a
/// text with a path.
pub fn known_lines<'a>(
    rt: &HostRuntime,
    routines: &Runnable<'a>,
) -> Result<KnownLines, TextFault<'a>> {
    let path = routines.path;
    if routines.lines.is_none() || path == STANDARD || routines.is_of_source() {
        return Ok(KnownLines {
            lines: explain_bytes(rt.alloc(), &routines.image)?.text,
            of_text: false,
        });
    }
    let Unmarked { bytes, marks } = read_completed(rt, path)?;
    Ok(KnownLines {
        lines: explained_text(rt, &bytes, &marks)?.text,
        of_text: true,
    })
}

/// The lines of an assembly text with what is known at each instruction, as `explain` prints them. Empty if the text has no image.
pub fn known_at_lines(alloc: Global, text: &[u8]) -> Result<Vec<u8>, AllocError> {
    let Unmarked { bytes, .. } = Unmarked::completed(alloc, Vec::from_slice(alloc, text)?)?;
    match explain_text_bytes(alloc, &bytes)? {
        Ok(explained) => Ok(explained.text),
        Err(_faulty) => Ok(Vec::new(alloc)),
    }
}

/// Prints the listing of an image, or the lines of a text, with what is known at each instruction, and comments with the effects of each
/// routine. After that, `TextFault::Explained` if the verifier refuses the image, and `TextFault::Unexplained` if the text is not assembled.
pub fn explain<'a>(rt: &HostRuntime, from: TextPath<'a>) -> Result<(), TextFault<'a>> {
    let unmarked = if from.is_source() {
        Unmarked {
            bytes: Runnable::read(rt, from)?.image,
            marks: LineMarks::new(rt.alloc()),
        }
    } else {
        read_completed(rt, from.path)?
    };
    let explained = explained(rt, &unmarked)?;
    print_lines(rt, &explained.text)?;
    print_lines(rt, &explained.effects)?;
    match explained.reject {
        Some(reject) => Err(TextFault::Explained(reject)),
        None => Ok(()),
    }
}

/// Prints what is wrong with each bad line of a script, for an image or a text. After that, `TextFault::Script` names the first such line.
/// `names` says whether lines may write names for words.
pub fn explain_script<'a>(
    rt: &HostRuntime,
    image: TextPath<'a>,
    script: &'a str,
    names: NameUse,
) -> Result<(), TextFault<'a>> {
    let image = Runnable::read(rt, image)?.image;
    let script = read(rt, script, MOST_READ)?;
    let BadLines { told, first } = tell_bad_lines(rt.alloc(), &image, &script, names)?;
    print_lines(rt, &told)?;
    match first {
        Some(line) => Err(TextFault::Script(ScriptFault::BadScript(line))),
        None => Ok(()),
    }
}
