//! The commands that the lines of a script encode.

ghost use Rattle.std.specs.Prelude.{◌≡◌, ◌<◌, length, None, IfNone, IfOk, IfErr, IfSome, Some};
ghost use Rattle.std.specs.Str.Lines.{lines};
ghost use Rattle.script_commands.specs.Reading.{words_of};
ghost use Rattle.script_commands.specs.Lines.{names_block, handle_of, before_blocks, from_blocks, next_handle, placed, routine_named, registers_of};
ghost use Rattle.script_commands.specs.Lines.{call_named, how_named, command_of, commands_of, first_bad, IsBadLine};
ghost use Rattle.geos_text.specs.Words.{words};

use crate::asked::if_admitted;
use crate::command::{Call, Command, Numbered};
use crate::words::{Words, first_of};
use geos_image::{Image, SlotState};
use geos_input::ScriptFault;
use geos_text::{first_line, first_word, number, without_comment};
use geos_verify::Checked;
use std::alloc::Global;
use vm_file::How;

/// The routine of that name; `None` if the image has none.
pub fn routine_named(image: &Image, name: &[u8]) -> Option<u16>
    ensures named { result ≡ routine_named image.now name.now }
    ensures within { IfSome result (λ r. r < length image.now.routines) }
{
    for r in 0..image.count() {
        if image.routine(r).name_text() == name {
            return Some(r);
        }
    }
    None
}

/// Whether the word names a block that is passed: it begins with `@`.
pub(crate) fn names_block(word: &[u8]) -> bool
    ensures { result ≡ names_block word.now }
{
    match word.first() {
        Some(byte) => *byte == b'@',
        None => false,
    }
}

/// The handle after the `@` of a word.
fn handle_of(word: &[u8]) -> Option<u16>
    ensures { result ≡ handle_of word.now }
{
    if names_block(word) {
        number(&word[1..])
    } else {
        None
    }
}

/// The registers w0 to w7 from the numbers before the first word
/// that names a block: at most eight of them. Missing ones are 0.
pub(crate) fn registers_of(numbers: Words) -> Option<[u16; 8]>
    ensures { result ≡ registers_of (before_blocks (words_of numbers.entry)) }
{
    let mut registers = [0; 8];
    let mut rest = numbers;
    for i in 0..registers.len() {
        let Some((word, behind)) = first_of(rest) else {
            return Some(registers);
        };
        if names_block(word) {
            return Some(registers);
        }
        registers[i] = number(word)?;
        rest = behind;
    }
    match first_of(rest) {
        None => Some(registers),
        Some((word, _behind)) => {
            if names_block(word) {
                Some(registers)
            } else {
                None
            }
        }
    }
}

/// The words from the first one on that names a block.
fn from_blocks<'a>(numbers: Words<'a>) -> Words<'a>
    ensures { words_of result ≡ from_blocks (words_of numbers.entry) }
{
    let mut rest = numbers;
    while let Some((word, behind)) = first_of(rest) {
        if names_block(word) {
            return rest;
        }
        rest = behind;
    }
    rest
}

/// The handle for a slot, and the words after it. A borrowed slot takes the first word; the handle of any other slot is 0.
fn next_handle<'a>(state: SlotState, blocks: Words<'a>) -> Option<(u16, Words<'a>)>
    ensures none { IfNone result (next_handle state (words_of blocks.entry) ≡ None) }
    ensures some { IfSome result (λ next. next_handle state (words_of blocks.entry) ≡ Some (next.0, words_of next.1)) }
{
    if state.is_own() {
        return Some((0, blocks));
    }
    let (word, behind) = first_of(blocks)?;
    let handle = handle_of(word)?;
    Some((handle, behind))
}

/// The handles that words write, one for each slot that is borrowed, in order, with 0 for the others; `None` if there are
/// fewer or more.
fn placed(states: &[SlotState; 4], blocks: Words) -> Option<[u16; 4]>
    ensures { result ≡ placed states.now (words_of blocks.entry) }
{
    let [s0, s1, s2, s3] = *states;
    let (h0, rest) = next_handle(s0, blocks)?;
    let (h1, rest) = next_handle(s1, rest)?;
    let (h2, rest) = next_handle(s2, rest)?;
    let (h3, rest) = next_handle(s3, rest)?;
    match first_of(rest) {
        None => Some([h0, h1, h2, h3]),
        Some(_) => None,
    }
}

/// The call of the routine of that name on these numbers and the blocks after them, if the machine admits it.
pub(crate) fn call_named(checked: &Checked, name: &[u8], numbers: Words) -> Option<Call>
    ensures { result ≡ call_named checked.now name.now (words_of numbers.entry) }
{
    let routine = routine_named(checked.image(), name)?;
    let words = registers_of(numbers)?;
    let handles = placed(
        &checked.image().routine(routine).entry.slots,
        from_blocks(numbers),
    )?;
    if_admitted(
        checked,
        Call {
            routine,
            words,
            handles,
        },
    )
}

/// Which pair of directories a word has the VM file keep.
fn how_named(word: &[u8]) -> Option<How>
    ensures { result ≡ how_named word.now }
{
    if word == b"update".as_slice() {
        Some(How::Update)
    } else if word == b"save".as_slice() {
        Some(How::Save)
    } else if word == b"revert".as_slice() {
        Some(How::Revert)
    } else {
        None
    }
}

/// The command of a line without its comment, if it is admitted.
pub(crate) fn command_of(checked: &Checked, line: &[u8]) -> Option<Command>
    ensures { result ≡ command_of checked.now (words line.now) }
{
    let (word, rest) = first_word(line)?;
    match first_word(rest) {
        None => Some(Command::Commit(how_named(word)?)),
        Some((name, numbers)) => {
            if word == b"call".as_slice() {
                Some(Command::Call(call_named(checked, name, Words::Line(numbers))?))
            } else {
                None
            }
        }
    }
}

/// The commands of a script with the numbers of their lines, or the number of its first bad line.
pub fn commands_of(
    alloc: Global,
    checked: &Checked,
    script: &[u8],
) -> Result<Vec<Numbered>, ScriptFault>
    ensures commands { IfOk result (λ commands. (first_bad checked.now (lines script.now) ≡ None)
        × (commands.items ≡ commands_of checked.now (lines script.now))) }
    ensures bad { IfErr result (IsBadLine checked.now (lines script.now)) }
{
    let mut commands = Vec::new(alloc);
    let mut rest = script;
    let mut line_number: usize = 0;
    while !rest.is_empty() {
        let (line, behind) = first_line(rest);
        rest = behind;
        line_number += 1;
        let line = without_comment(line);
        if first_word(line).is_some() {
            match command_of(checked, line) {
                Some(command) => commands.push(Numbered {
                    line: line_number,
                    command,
                })?,
                None => return Err(ScriptFault::BadScript(line_number)),
            }
        }
    }
    Ok(commands)
}
