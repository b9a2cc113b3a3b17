//! Names for words that calls output, and lines of a script that write them.

ghost use Rattle.std.specs.Prelude.{◌≡◌, ◌++◌, IfOk, IfNone, IfSome, OnOk, None, Some, MatchBool, MatchOption, option_map};
ghost use Rattle.geos_text.specs.Words.{words};
ghost use Rattle.script_commands.specs.Names.{names_of, word_of, number_in_place, word_in_place, is_arrow, in_place, behind_arrow, is_name_byte, is_name, one_name, kept_name};
ghost use Rattle.script_commands.specs.Names.{may_keep, command_in, names_behind};

use crate::command::Command;
use crate::kept::{Kept, mark_of};
use crate::lines::command_of;
use geos_text::{first_word, put_numbered};
use geos_verify::Checked;
use std::alloc::{AllocError, Global};

/// The word stored under the name, if there is one: the later of two.
fn word_of(name: &[u8], names: &[Kept]) -> Option<u16>
    ensures { result ≡ word_of name.now (names_of names.now) }
{
    let mark = mark_of(name);
    for at in (0..names.len()).rev() {
        if names[at].is_under(name, mark) {
            return names[at].word;
        }
    }
    None
}

/// Writes the number of `$name`, and any other word unchanged. `false` if the name has no number.
fn put_number(out: &mut Vec<u8>, names: &[Kept], word: &[u8]) -> Result<bool, AllocError>
    ensures { IfOk result (λ put. MatchBool put
        (option_map (λ number. out.old.items ++ number) (number_in_place (names_of names.now) word.now) ≡ Some out.new.items)
        (number_in_place (names_of names.now) word.now ≡ None)) }
{
    match word.split_first() {
        Some((b'$', name)) => match word_of(name, names) {
            Some(number) => {
                put_numbered(out, "", u64::from(number))?;
                Ok(true)
            }
            None => Ok(false),
        },
        _ => {
            out.extend_from_slice(word)?;
            Ok(true)
        }
    }
}

/// Writes a word with the number of its name, which may follow an `@`. `false` if the name has no number.
fn put_in_place(out: &mut Vec<u8>, names: &[Kept], word: &[u8]) -> Result<bool, AllocError>
    ensures { IfOk result (λ put. MatchBool put
        (option_map (λ own. out.old.items ++ own) (word_in_place (names_of names.now) word.now) ≡ Some out.new.items)
        (word_in_place (names_of names.now) word.now ≡ None)) }
{
    match word.split_first() {
        Some((b'@', rest)) => {
            out.push(b'@')?;
            put_number(out, names, rest)
        }
        _ => put_number(out, names, word),
    }
}

fn is_arrow(word: &[u8]) -> bool
    ensures { result ≡ is_arrow word.now }
{
    word == b"->".as_slice()
}

/// The line up to `->`, with numbers instead of names. `None` if a name has none.
fn in_place(alloc: Global, names: &[Kept], line: &[u8]) -> Result<Option<Vec<u8>>, AllocError>
    ensures { IfOk result (λ text. MatchOption text
        (in_place (names_of names.now) (words line.now) ≡ None)
        (λ text. in_place (names_of names.now) (words line.now) ≡ Some text.items)) }
{
    let mut text = Vec::new(alloc);
    let mut rest = line;
    while let Some((word, behind)) = first_word(rest) {
        if is_arrow(word) {
            return Ok(Some(text));
        }
        text.push(b' ')?;
        if !put_in_place(&mut text, names, word)? {
            return Ok(None);
        }
        rest = behind;
    }
    Ok(Some(text))
}

/// The part of a line after `->`, if there is one.
fn behind_arrow(line: &[u8]) -> Option<&[u8]>
    ensures none { IfNone result (behind_arrow (words line.now) ≡ None) }
    ensures some { IfSome result (λ rest. behind_arrow (words line.now) ≡ Some (words rest.now)) }
{
    let mut rest = line;
    while let Some((word, behind)) = first_word(rest) {
        if is_arrow(word) {
            return Some(behind);
        }
        rest = behind;
    }
    None
}

fn is_name_byte(byte: u8) -> bool
    ensures { result ≡ is_name_byte byte }
{
    byte.is_ascii_alphanumeric() || byte == b'_'
}

/// Whether a word may be a name: it has only letters, digits and underscores.
pub fn is_name(word: &[u8]) -> bool
    ensures { result ≡ is_name word.now }
{
    word.iter().all(|byte| is_name_byte(*byte))
}

/// The name that is all of a line.
fn one_name(line: &[u8]) -> Option<&[u8]>
    ensures none { IfNone result (one_name (words line.now) ≡ None) }
    ensures some { IfSome result (λ name. one_name (words line.now) ≡ Some name.now) }
{
    let (name, behind) = first_word(line)?;
    if is_name(name) && first_word(behind).is_none() {
        Some(name)
    } else {
        None
    }
}

/// The name under which a line without its comment stores a word: letters, digits and underscores after `->`. `None` if there is nothing
/// or something different.
pub fn kept_name(line: &[u8]) -> Option<&[u8]>
    ensures none { IfNone result (kept_name (words line.now) ≡ None) }
    ensures some { IfSome result (λ name. kept_name (words line.now) ≡ Some name.now) }
{
    one_name(behind_arrow(line)?)
}

/// Whether the line may have the command: only a call may have a `->`, and one name follows that.
fn may_keep(line: &[u8], command: &Command) -> bool
    ensures { result ≡ may_keep (words line.now) command.now }
{
    match command {
        Command::Call(_) => behind_arrow(line).is_none() || kept_name(line).is_some(),
        Command::Commit(_) => behind_arrow(line).is_none(),
    }
}

/// The command of a line without its comment, if it is admitted: the command of the line with numbers instead of names.
pub fn command_in(
    alloc: Global,
    checked: &Checked,
    names: &[Kept],
    line: &[u8],
) -> Result<Option<Command>, AllocError>
    ensures { IfOk result (λ command. command ≡ command_in checked.now (names_of names.now) (words line.now)) }
{
    let Some(text) = in_place(alloc, names, line)? else {
        return Ok(None);
    };
    match command_of(checked, &text) {
        Some(command) if may_keep(line, &command) => Ok(Some(command)),
        _ => Ok(None),
    }
}

/// Keeps a word, if there is one, under the name that the line has for it, if it has one.
pub fn keep<'a>(
    names: &mut Vec<Kept<'a>>,
    line: &'a [u8],
    word: Option<u16>,
) -> Result<(), AllocError>
    ensures { OnOk result (names_of names.new.items ≡ names_behind (names_of names.old.items) (words line.now) word) }
{
    if let Some(name) = kept_name(line) {
        names.push(Kept::new(name, word))?;
    }
    Ok(())
}
