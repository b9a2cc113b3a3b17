//! What is wrong with a line of a script: with its command, or with the name under which it stores a word.

ghost use Rattle.std.specs.Prelude.{◌≡◌, ◌≤◌, All, true, false, length, drop, IfNone, IfSome};
ghost use Rattle.geos_image.specs.Parts.{Parts};
ghost use Rattle.geos_text.specs.Words.{words};
ghost use Rattle.script_commands.specs.Names.{is_arrow};
ghost use Rattle.geos_scripts.specs.declared.names.NameUse.TheVariants.{Allowed};
ghost use Rattle.geos_scripts.specs.Faults.{IsFound};
ghost use Rattle.geos_scripts.specs.Walks.{HasArrow, IsFoundBehindArrow, IsFoundOfKeeping, begins_as_call};

use crate::calls::command_fault;
use crate::fault::Fault;
use crate::names::{NameUse, Names};
use crate::numbers::is_arrow;
use geos_image::Image;
use geos_lines::{Word, word_from};
use script_commands::is_name;

/// The word `->` of a line.
fn arrow_of(line: &[u8]) -> Option<Word>
    ensures within { IfSome result (λ word. word.end ≤ length line.now) }
    ensures arrow { IfSome result (λ word. HasArrow (words line.now) word.bytes.now (words (drop word.end line.now))) }
    ensures none { IfNone result (All (λ w. is_arrow w ≡ false) (words line.now)) }
{
    let mut at = 0;
    while let Some(word) = word_from(line, at) {
        if is_arrow(word.bytes) {
            return Some(word);
        }
        at = word.end;
    }
    None
}

/// Whether the line is a call.
fn is_call(line: &[u8]) -> bool
    ensures { result ≡ begins_as_call (words line.now) }
{
    match word_from(line, 0) {
        Some(word) => word.bytes == b"call".as_slice(),
        None => false,
    }
}

/// What is wrong with the words after `->`.
fn kept_fault<'a>(names: &Names, line: &'a [u8], arrow: Word<'a>) -> Option<Fault<'a>>
    requires within { arrow.end ≤ length line.now }
    requires arrow { is_arrow arrow.bytes.now ≡ true }
    ensures { (image : Parts) → IsFoundBehindArrow image (words (drop arrow.entry.end line.now)) result }
{
    let Some(name) = word_from(line, arrow.end) else {
        return Some(Fault::NothingKept(arrow));
    };
    if !is_name(name.bytes) {
        return Some(Fault::BadName(name));
    }
    if let Some(second) = word_from(line, name.end) {
        return Some(Fault::SecondName(second));
    }
    if names.are_full() {
        Some(Fault::NameTooMany(name))
    } else {
        None
    }
}

/// What is wrong with `->` on a line, and with the words after it.
fn arrow_fault<'a>(names: &Names, line: &'a [u8]) -> Option<Fault<'a>>
    ensures { (image : Parts) → IsFoundOfKeeping Allowed image (words line.now) result }
{
    let arrow = arrow_of(line)?;
    if is_call(line) {
        kept_fault(names, line, arrow)
    } else {
        Some(Fault::ArrowAlone(arrow))
    }
}

/// The same, if names may be written.
fn keeping_fault<'a>(names: &Names, line: &'a [u8]) -> Option<Fault<'a>>
    ensures { (image : Parts) → IsFoundOfKeeping names.now.uses image (words line.now) result }
{
    match names.uses {
        NameUse::Allowed => arrow_fault(names, line),
        NameUse::Refused => None,
    }
}

/// What is wrong with a line of a script, without its comment. `None` if nothing is found.
pub(crate) fn fault_of<'a>(image: &Image, names: &Names, line: &'a [u8]) -> Option<Fault<'a>>
    ensures { IsFound names.now.uses image.now (words line.now) result }
{
    match command_fault(image, names, line) {
        Some(fault) => Some(fault),
        None => keeping_fault(names, line),
    }
}
