//! The parser.

ghost use Rattle.std.specs.Prelude.{◌≡◌, true, length, Ok, IfOk, IfErr};
ghost use Rattle.geos_image.specs.Legal.{is_formed};
ghost use Rattle.geos_source.specs.Faults.{first};
ghost use Rattle.geos_source.specs.InstrLines.{instr_lines};
ghost use Rattle.geos_source.specs.Texts.{too_long, without_routine, code_of};
ghost use Rattle.geos_source.specs.declared.parser.ParseError.TheVariants.{Memory};
ghost use Rattle.geos_source.specs.Parsing.{code_in, IsWhyNot};
ghost use Rattle.geos_source.specs.Skeletons.{bare_whole};

use crate::declarations::declare;
use crate::draft::draft_of;
use crate::fault::{BadLine, Why, first};
use crate::progress::{Progress, TextRoutine};
use geos_image::Instr;
use geos_text::MOST_BYTES;
use std::alloc::{AllocError, Global};

/// The code of a text.
#[derive(Drop)]
pub struct Parsed {
    /// The routines, each with the line that begins it.
    pub routines: Vec<TextRoutine>,
    /// The instructions of all routines, one after another.
    pub instrs: Vec<Instr>,
    /// The number of each one's line, from 1.
    pub lines: Vec<u32>,
}

/// Why a text is not parsed.
#[derive(Drop)]
pub enum ParseError {
    /// The first faulty line.
    BadLine(BadLine),
    /// The allocator refused memory.
    Memory,
}

impl From<AllocError> for ParseError {
    ghost from_gives = { λ _ e. e ≡ Memory };

    fn from(_: AllocError) -> ParseError {
        ParseError::Memory
    }
}

pub(crate) fn too_long(text: &[u8]) -> Option<BadLine>
    ensures { result ≡ too_long text.now }
{
    if text.len() > MOST_BYTES {
        Some(BadLine {
            line: 1,
            why: Why::TooMany,
        })
    } else {
        None
    }
}

/// The first fault of a text, of which this is known.
fn first_fault(text: &[u8], twice: Option<BadLine>, progress: Progress) -> Option<BadLine>
    ensures { result ≡ first (first (too_long text.now) twice) (first progress.fault (without_routine progress.part)) }
{
    let declared = first(too_long(text), twice);
    first(
        declared,
        first(progress.fault, progress.part.without_routine()),
    )
}

/// The code of an assembly text: its routines, with their rows at entry and exit, and their
/// instructions, each with its line. `BadLine` exactly if the text has a fault, and names the first one: the
/// least line, and there the least number. `Memory` may come at any text.
pub fn parse(alloc: Global, text: &[u8]) -> Result<Parsed, ParseError>
    ensures parsed { IfOk result (λ parsed. code_of text.now ≡ Ok (code_in parsed)) }
    // An image of version 2 may have the code: its names are legal, each names something that exists, each routine has
    // instructions, and there are no more than an image may have.
    ensures formed { IfOk result (λ parsed. is_formed true (bare_whole (code_in parsed)) ≡ true) }
    ensures lines { IfOk result (λ parsed. parsed.lines.items ≡ instr_lines text.now) }
    ensures each { IfOk result (λ parsed. length parsed.lines.items ≡ length parsed.instrs.items) }
    ensures bad { IfErr result (IsWhyNot text.now) }
{
    let declarations = declare(alloc, text)?;
    let draft = draft_of(alloc, &declarations, text)?;
    match first_fault(text, declarations.fault, draft.progress) {
        Some(fault) => Err(ParseError::BadLine(fault)),
        None => Ok(Parsed {
            routines: draft.routines,
            instrs: draft.code,
            lines: draft.lines,
        }),
    }
}
