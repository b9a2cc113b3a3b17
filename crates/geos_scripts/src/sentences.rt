//! The sentences on what is wrong with lines of scripts.

use crate::fault::Fault;
use geos_image::Image;
use geos_lines::{Word, put_word};
use script_commands::routine_named;
use sentence_text::Text;

/// The text about a word that is no command.
fn text_of_command(image: &Image, word: Word) -> &'static str {
    if word.bytes.starts_with(b"\xef\xbb\xbf") {
        " is no command: the script begins with a byte order mark, which must go"
    } else if word.bytes.starts_with(b"#") || word.bytes.starts_with(b"//") {
        " is no command: a comment begins with ;"
    } else if routine_named(image, word.bytes).is_some() {
        " is no command but a routine: write call before it"
    } else {
        " is no command: commands are call, update, save and revert"
    }
}

/// The text about `=>` in a script that is no test.
const TEXT_OF_TEST: &str = " belongs to a test: use geos test, or omit it and what follows";

/// The text about a word that is no number.
fn text_of_number(word: Word) -> &'static str {
    if word.bytes.starts_with(b"->") {
        " is no number: write -> and the name as two words, as -> h"
    } else if word.bytes == b"=>".as_slice() {
        TEXT_OF_TEST
    } else if word.bytes.starts_with(b"=>") {
        " is no number: write => and the output as two words, as => 55"
    } else if word.bytes.starts_with(b"=") {
        " is no number: a test has => and the output, as => 55"
    } else if word.bytes.starts_with(b"#") || word.bytes.starts_with(b"//") {
        " is no number: a comment begins with ;"
    } else if word.bytes.contains(&b',') {
        " is no number: separate words by spaces, without commas"
    } else if word.bytes.starts_with(b"-") {
        " is no number: add 65536 to a negative number, as 65535 for -1"
    } else if word.bytes.starts_with(b"0x") || word.bytes.starts_with(b"0X") {
        " is no number: write it in decimal digits, as 31 for 0x1f"
    } else {
        " is no number: a number has only decimal digits"
    }
}

/// The text about a word after a block.
fn text_of_number_behind(word: Word) -> &'static str {
    if word.bytes == b"=>".as_slice() {
        TEXT_OF_TEST
    } else {
        " comes after a block: numbers come first"
    }
}

/// The text about a word that comes after update, save or revert.
fn text_of_behind(word: Word) -> &'static str {
    if word.bytes == b"=>".as_slice() {
        TEXT_OF_TEST
    } else {
        " is too much: nothing comes after this command"
    }
}

/// The text about a name that no earlier line stores.
fn text_of_unkept(word: Word) -> &'static str {
    if word.bytes.starts_with(b"$@") {
        " names no word: the block that a name stands for is as @$h"
    } else {
        " is a name that no earlier line keeps: end an earlier call by -> and the name"
    }
}

/// Writes a word, and the text about it.
fn put_said(out: &mut Text, word: &Word, text: &str) {
    put_word(out, *word);
    out.put(text)
}

/// A number is above the bound of a word.
fn put_past(out: &mut Text, word: &Word, bound: u16, index: usize) {
    put_word(out, *word);
    out.put_number(" is above ", u64::from(bound));
    out.put_number(", the bound of w", index as u64);
    out.put(": use a lower number, or raise the bound in the in line of the routine")
}

/// How many names of routines a sentence has.
const MOST_NAMES: u32 = 8;

/// Writes the names of the first public routines.
fn put_names(out: &mut Text, image: &Image) {
    let mut before: u32 = 0;
    for r in 0..image.count() {
        let routine = image.routine(r);
        if routine.public && before < MOST_NAMES {
            out.put(if before == 0 {
                ": public routines are "
            } else {
                ", "
            });
            out.put_bytes(routine.name_text());
            before = before.saturating_add(1);
        } else if routine.public && before == MOST_NAMES {
            out.put(", ..");
            before = before.saturating_add(1);
        }
    }
}

/// A call passes so many blocks, and the routine borrows another number of them.
fn put_lent(out: &mut Text, given: usize, wanted: usize) {
    out.put_number("blocks that are lent, as by @1: ", given as u64);
    out.put_number("; that the routine borrows: ", wanted as u64);
    out.put(if wanted == 0 {
        ": omit the blocks"
    } else {
        ": write @ and a handle for each, after the numbers"
    })
}

/// Writes what is wrong with a call.
fn put_call(out: &mut Text, image: &Image, fault: &Fault) {
    match fault {
        Fault::NoName => out.put("call requires a routine, as call add 2 3; its name is missing"),
        Fault::NoRoutine(word) => {
            put_said(out, word, " is the name of no routine");
            put_names(out, image)
        }
        Fault::NotPublic(word) => put_said(
            out,
            word,
            " is a routine that is not public: write public after its name in the text",
        ),
        Fault::Ninth(word) => put_said(
            out,
            word,
            " is one number too many: a call has at most eight",
        ),
        Fault::NoNumber(word) => put_said(out, word, text_of_number(*word)),
        Fault::TooHigh(word) => put_said(out, word, " is above 65535: use a lower number"),
        Fault::PastBound(word, bound, index) => put_past(out, word, *bound, *index),
        Fault::NumberBehind(word) => put_said(out, word, text_of_number_behind(*word)),
        Fault::NoHandle(word) => put_said(
            out,
            word,
            " is no block: a block is @ and its handle, in one word, as @1",
        ),
        Fault::HighHandle(word) => put_said(
            out,
            word,
            " has a number above 65535: handles of blocks are 1 to 1024",
        ),
        Fault::Lent(given, wanted) => put_lent(out, *given, *wanted),
        _ => put_naming(out, fault),
    }
}

/// Writes what is wrong with a name, or with what keeps one.
fn put_naming(out: &mut Text, fault: &Fault) {
    match fault {
        Fault::NotAllowed(word) => put_said(
            out,
            word,
            " is for names: run and explain take them with --vars",
        ),
        Fault::NotKept(word) => put_said(out, word, text_of_unkept(*word)),
        Fault::ArrowAlone(word) => put_said(out, word, " comes only after a call"),
        Fault::NothingKept(word) => put_said(
            out,
            word,
            " requires a name after it, as call make -> h",
        ),
        Fault::BadName(word) => put_said(
            out,
            word,
            " is no name: a name has letters, digits and underscores",
        ),
        Fault::SecondName(word) => put_said(
            out,
            word,
            " is too much: only one name comes after ->",
        ),
        Fault::NameTooMany(word) => put_said(
            out,
            word,
            " is one name too many: at most 1024 lines keep a word",
        ),
        _ => {}
    }
}

/// Writes the sentence on what is wrong with a line; if nothing is found, that the machine does not admit the call.
pub(crate) fn put_fault(out: &mut Text, image: &Image, fault: Option<Fault>) {
    match fault {
        None => out.put("it is no command that may be asked for"),
        Some(Fault::NoCommand(word)) => put_said(out, &word, text_of_command(image, word)),
        Some(Fault::Behind(word)) => put_said(out, &word, text_of_behind(word)),
        Some(fault) => put_call(out, image, &fault),
    }
}
