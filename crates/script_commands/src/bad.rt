//! All bad lines of a script.

ghost use Rattle.std.specs.Prelude.{◌≡◌, [], map, IfOk};
ghost use Rattle.script_commands.specs.Names.{said_by};
ghost use Rattle.script_commands.specs.BadLines.{bad_behind, bad_lines, bad_lines_with_names, numbers};

use crate::lines::command_of;
use crate::named_lines::{Line, MOST_KEPT, is_bad, lines_said};
use crate::names::keep;
use geos_text::{first_line, first_word, without_comment};
use geos_verify::Checked;
use std::alloc::{AllocError, Global};

/// The bad lines of a script, in order: each that is not blank, and is no command that is admitted. `AllocError` if the allocator refuses
/// memory.
pub fn bad_lines<'a>(
    alloc: Global,
    checked: &Checked,
    script: &'a [u8],
) -> Result<Vec<Line<'a>>, AllocError>
    ensures { IfOk result (λ bad. numbers bad.items ≡ bad_lines checked.now script.now) }
{
    let mut bad = Vec::new(alloc);
    let mut rest = script;
    let mut number: usize = 0;
    while !rest.is_empty() {
        let (line, behind) = first_line(rest);
        rest = behind;
        number += 1;
        let text = without_comment(line);
        if first_word(text).is_some() && command_of(checked, text).is_none() {
            bad.push(Line { number, text })?;
        }
    }
    Ok(bad)
}

/// The bad ones of these lines, none of which is blank: those that are
/// bad after all earlier lines, whatever words their names will have.
fn bad_of<'a>(
    alloc: Global,
    checked: &Checked,
    lines: &[Line<'a>],
) -> Result<Vec<Line<'a>>, AllocError>
    ensures { IfOk result (λ bad. numbers bad.items ≡ bad_behind checked.now [] (map said_by lines.now)) }
{
    let mut bad = Vec::new(alloc);
    let mut names = Vec::new(alloc);
    for line in lines {
        if is_bad(alloc, checked, &names, line.text)? {
            bad.push(*line)?;
        }
        if names.len() < MOST_KEPT {
            keep(&mut names, line.text, Some(0))?;
        }
    }
    Ok(bad)
}

/// The bad lines of a script whose lines may write names, in order: each that is bad after all earlier lines, whatever numbers their names
/// will have. `AllocError` if the allocator refuses memory.
pub fn bad_lines_with_names<'a>(
    alloc: Global,
    checked: &Checked,
    script: &'a [u8],
) -> Result<Vec<Line<'a>>, AllocError>
    ensures { IfOk result (λ bad. numbers bad.items ≡ bad_lines_with_names checked.now script.now) }
{
    let lines = lines_said(alloc, script)?;
    bad_of(alloc, checked, &lines)
}
