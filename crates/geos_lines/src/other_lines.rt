//! What is wrong with the line that begins a routine, and with the lines `in` and `out`.

ghost use Rattle.std.specs.Prelude.{◌≤◌, length, IfSome};

use crate::instr_lines::{Misfit, name_misfit, number_misfit, put_misfit, put_missing};
use crate::sentences::{Wrong, hint, put_too_much, put_word};
use crate::words::{Word, word_from};
use geos_text::register;
use sentence_text::Text;

/// The form of a line that begins a routine.
const ROUTINE: &str =
    "routine requires a name, perhaps public, and a budget, as routine add public budget 3";

/// Why a word does not fit after `routine`.
#[derive(Clone, Copy)]
enum HeadStop<'a> {
    At(Word<'a>, Misfit),
    Missing(&'static str),
    TooMuch(Word<'a>),
    Nowhere,
}

/// Why a word is no budget.
fn budget_misfit(word: &[u8]) -> Option<Misfit> {
    if word == b"?".as_slice() {
        Some(Misfit::Form(Wrong::OpenBudget))
    } else {
        number_misfit(u32::MAX, word)
    }
}

/// The first word of a line, from an index on and after `routine NAME`, that is not part of a budget.
fn budget_stop(line: &[u8], from: usize) -> HeadStop
    requires { from ≤ length line.now }
{
    let Some(word) = word_from(line, from) else {
        return HeadStop::Missing("the word budget");
    };
    if word.bytes != b"budget".as_slice() {
        return HeadStop::At(word, Misfit::Form(Wrong::NoBudget));
    }
    let Some(number) = word_from(line, word.end) else {
        return HeadStop::Missing("the number of steps");
    };
    if let Some(misfit) = budget_misfit(number.bytes) {
        return HeadStop::At(number, misfit);
    }
    match word_from(line, number.end) {
        Some(word) => HeadStop::TooMuch(word),
        None => HeadStop::Nowhere,
    }
}

/// The first word of a line, from an index on and after `routine`, that is not as required.
fn head_stop(line: &[u8], from: usize) -> HeadStop
    requires { from ≤ length line.now }
{
    let Some(name) = word_from(line, from) else {
        return HeadStop::Missing("the name");
    };
    if let Some(misfit) = name_misfit(name.bytes) {
        return HeadStop::At(name, misfit);
    }
    match word_from(line, name.end) {
        Some(word) => {
            if word.bytes == b"public".as_slice() {
                budget_stop(line, word.end)
            } else {
                budget_stop(line, name.end)
            }
        }
        None => HeadStop::Missing("the word budget"),
    }
}

/// Appends what is wrong with a line that begins a routine, whose words after `routine` begin at an index.
pub(crate) fn put_routine(out: &mut Text, line: &[u8], from: usize)
    requires { from ≤ length line.now }
{
    out.put(ROUTINE);
    match head_stop(line, from) {
        HeadStop::At(word, misfit) => {
            out.put("; ");
            put_misfit(out, word, misfit)
        }
        HeadStop::Missing(what) => put_missing(out, what),
        HeadStop::TooMuch(word) => {
            out.put("; ");
            put_too_much(out, word)
        }
        HeadStop::Nowhere => {}
    }
}

/// A number at the end of an item, if its front is right: after `w0<=`, and after `p0=s0:`.
fn number_of_item(item: &[u8]) -> Option<&[u8]> {
    let (front, rest) = item.split_at(item.len().min(2));
    if register(b'w', 8, front).is_some() {
        return rest.strip_prefix(b"<=");
    }
    register(b'p', 4, front)?;
    let held = rest.strip_prefix(b"=")?;
    let (slot, back) = held.split_at(held.len().min(2));
    register(b's', 4, slot)?;
    back.strip_prefix(b":")
}

/// What a slot may have in an item.
fn is_held(word: &[u8]) -> bool {
    matches!(
        word,
        b"mem" | b"vm" | b"vm!" | b"vm@" | b"vm@!" | b"db" | b"db!"
    )
}

/// Whether a word is an item on a slot: what it holds, or one that holds another block.
fn is_slot_item(item: &[u8]) -> bool {
    let (front, rest) = item.split_at(item.len().min(2));
    let Some(slot) = register(b's', 4, front) else {
        return false;
    };
    if let Some(held) = rest.strip_prefix(b"=") {
        return is_held(held);
    }
    match rest.strip_prefix(b"#") {
        Some(other) => match register(b's', 4, other) {
            Some(other) => other != slot,
            None => false,
        },
        None => false,
    }
}

/// Why a word is no item.
fn item_misfit(item: &[u8]) -> Option<Misfit> {
    match number_of_item(item) {
        Some(digits) => match number_misfit(65_535, digits) {
            Some(Misfit::Form(_)) => Some(Misfit::Form(Wrong::NoItem)),
            other => other,
        },
        None => {
            if is_slot_item(item) {
                None
            } else {
                Some(Misfit::Form(Wrong::NoItem))
            }
        }
    }
}

/// The number of registers with the letter, and the text about them.
fn registers(letter: u8) -> Option<(u8, &'static str)>
    ensures { IfSome result (λ found. found.0 ≤ 10) }
{
    match letter {
        b'w' => Some((8, ": words are w0 to w7")),
        b's' => Some((4, ": slots are s0 to s3")),
        b'p' => Some((4, ": pointers are p0 to p3")),
        _ => None,
    }
}

/// The text about a word that begins like a register, if no register has its number.
fn misnamed(text: &[u8]) -> Option<&'static str> {
    let (count, saying) = registers(*text.first()?)?;
    if !text.get(1)?.is_ascii_digit() {
        return None;
    }
    let (name, rest) = text.split_at(2);
    let goes_on = match rest.first() {
        Some(byte) => byte.is_ascii_digit(),
        None => false,
    };
    if goes_on || register(text[0], count, name).is_none() {
        Some(saying)
    } else {
        None
    }
}

/// The form of an item that begins as this word does, or which registers there are, if it names one that there is not: in front, or
/// after `p0=` or `s0#`.
fn form_of_item(item: &[u8]) -> &'static str {
    let (_, behind) = item.split_at(item.len().min(3));
    if let Some(saying) = misnamed(item).or(misnamed(behind)) {
        return saying;
    }
    match item.first() {
        Some(b'w') => ": a bound is as w0<=9",
        Some(b's') => ": a slot is as s0=mem, with mem, vm, vm!, vm@, vm@!, db or db!, or as s0#s1",
        Some(b'p') => ": a pointer is as p0=s0:8",
        _ => ": items are as w0<=9, s0=mem, p0=s0:8 and s0#s1",
    }
}

/// Appends why a word is no item.
fn put_item(out: &mut Text, item: Word, misfit: Misfit) {
    put_word(out, item);
    match misfit {
        Misfit::Form(_) => {
            let reason = match hint(item.bytes, usize::MAX) {
                Some(hint) => hint,
                None => form_of_item(item.bytes),
            };
            out.put(" is no item");
            out.put(reason)
        }
        Misfit::Above(bound) => out.put_number(" has a number above ", u64::from(bound)),
    }
}

/// Appends which of the items of a line `out` is none, and that another word is the instruction, if the first one is a word: they begin at
/// an index.
pub(crate) fn put_out(out: &mut Text, line: &[u8], from: usize)
    requires { from ≤ length line.now }
{
    put_items(out, line, from);
    if let Some(word) = word_from(line, from)
        && register(b'w', 8, word.bytes).is_some()
    {
        out.put("; the instruction is OUT")
    }
}

/// Appends which of the items of a line is none, the first one: they begin at an index.
pub(crate) fn put_items(out: &mut Text, line: &[u8], from: usize)
    requires { from ≤ length line.now }
{
    let mut at = from;
    while let Some(word) = word_from(line, at) {
        if let Some(misfit) = item_misfit(word.bytes) {
            return put_item(out, word, misfit);
        }
        at = word.end;
    }
}
