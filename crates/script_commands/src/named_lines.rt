//! The lines of a script that writes names.

ghost use Rattle.std.specs.Prelude.{◌≡◌, [], map, IfOk, None};
ghost use Rattle.geos_text.specs.Words.{words};
ghost use Rattle.script_commands.specs.Names.{names_of, said_by, lines_said, is_bad_in, first_bad_in};

use crate::kept::Kept;
use crate::names::{command_in, keep, kept_name};
use geos_text::{first_line, first_word, without_comment};
use geos_verify::Checked;
use std::alloc::{AllocError, Global};

/// The maximum number of lines of a script that store a word;
/// there is a maximum because the search for a name is linear.
pub const MOST_KEPT: usize = 1_024;

/// A line that is not empty: its number, counted from 1, and its text without the comment.
#[derive(Clone, Copy)]
pub struct Line<'a> {
    pub number: usize,
    pub text: &'a [u8],
}

/// The lines of a script that are not empty.
pub fn lines_said<'a>(alloc: Global, script: &'a [u8]) -> Result<Vec<Line<'a>>, AllocError>
    ensures { IfOk result (λ said. map said_by said.items ≡ lines_said script.now) }
{
    let mut said = Vec::new(alloc);
    let mut rest = script;
    let mut number: usize = 0;
    while !rest.is_empty() {
        let (line, behind) = first_line(rest);
        rest = behind;
        number += 1;
        let text = without_comment(line);
        if first_word(text).is_some() {
            said.push(Line { number, text })?;
        }
    }
    Ok(said)
}

/// Whether a line is bad after lines that store these names, whatever numbers the names will have.
pub(crate) fn is_bad(
    alloc: Global,
    checked: &Checked,
    names: &[Kept],
    line: &[u8],
) -> Result<bool, AllocError>
    ensures { IfOk result (λ bad. bad ≡ is_bad_in checked.now (names_of names.now) (words line.now)) }
{
    let command = command_in(alloc, checked, names, line)?;
    Ok(command.is_none() || (kept_name(line).is_some() && names.len() >= MOST_KEPT))
}

/// The number of the first bad line.
pub fn first_bad(
    alloc: Global,
    checked: &Checked,
    lines: &[Line],
) -> Result<Option<usize>, AllocError>
    ensures { IfOk result (λ bad. bad ≡ first_bad_in checked.now [] (map said_by lines.now)) }
{
    let mut names = Vec::new(alloc);
    for line in lines {
        if is_bad(alloc, checked, &names, line.text)? {
            return Ok(Some(line.number));
        }
        // the least number is within any bound
        keep(&mut names, line.text, Some(0))?;
    }
    Ok(None)
}
