//! The answers to words that request no work.

use crate::command_line::matches_of;
use crate::faults::are_in_words;
use crate::printable::Printable;
use crate::streams::StreamFault;
use crate::wrapping::print_text;
use clap::Error;
use clap::error::ErrorKind;
use std::alloc::{AllocError, Global};
use std::process::ExitCode;

/// The status where the words on the command line are wrong.
const USAGE: u8 = 2;

/// The answer to words that request no work.
#[derive(Drop)]
pub enum Answer {
    /// The help, or the version, that they request.
    Text(String),
    /// What is wrong with them.
    Misuse(String),
    /// One of them is no text.
    NotText,
    /// An allocation was refused.
    Memory,
}

/// What precedes and follows the tip to write `--` before a word that begins with `-`: no command takes such a word.
fn without_tip(text: &str) -> (&str, &str) {
    match text.split_once("\n  tip: to pass '") {
        Some((before, tip)) => match tip.split_once('\n') {
            Some((_, after)) => (before, after),
            None => (before, ""),
        },
        None => (text, ""),
    }
}

impl Answer {
    /// What `clap` says of the words.
    pub(crate) fn of(alloc: Global, error: &Error) -> Answer {
        if error.kind() == ErrorKind::OutOfMemory {
            return Answer::Memory;
        }
        match format!(in alloc; "{error}") {
            Ok(text) if error.use_stderr() => Answer::Misuse(text),
            Ok(text) => Answer::Text(text),
            Err(AllocError) => Answer::Memory,
        }
    }

    /// Prints it, on standard error if something is wrong with the words, and returns the program's status. It prints nothing if standard error
    /// goes into a file that they name, or into the standard input. An error if the requested text is not printed, and for `Answer::Memory`.
    pub fn print<'a>(
        &self,
        rt: &HostRuntime,
        words: &[String],
    ) -> Result<ExitCode, StreamFault<'a>> {
        match self {
            Answer::Text(text) => {
                print_text(rt, text)?;
                return Ok(ExitCode::SUCCESS);
            }
            Answer::Misuse(text) => {
                if !are_in_words(rt, words) {
                    let (before, after) = without_tip(text);
                    // If standard error fails, only the status reports it.
                    let _ = eprint!(rt; "{before}{after}");
                }
            }
            Answer::NotText => {
                let _ = eprintln!(rt;
                    "error: a word on the command line is no text: it is not UTF-8"
                );
            }
            Answer::Memory => return Err(StreamFault::Memory),
        }
        Ok(ExitCode::from(USAGE))
    }
}

/// Appends an item that was made, at any type: a proof at a type of many fields is longer.
pub(crate) fn add<T: Drop>(
    items: &mut Vec<T>,
    made: Result<T, AllocError>,
) -> Result<(), AllocError> {
    items.push(made?)?;
    Ok(())
}

/// The words with their control characters by their bytes.
fn printable(alloc: Global, words: &[String]) -> Result<Vec<String>, AllocError> {
    let mut shown = Vec::new(alloc);
    for word in words {
        let word = Printable {
            text: word,
            has_lines: false,
        };
        add(&mut shown, format!(in alloc; "{word}"))?;
    }
    Ok(shown)
}

/// What words are answered in which `clap` finds no request: what it finds in them when their control characters are written by their
/// bytes, so that none of these gets into a line of what it says. If it finds nothing wrong then, the answer is what it says of the words.
pub(crate) fn answer_to(alloc: Global, words: &[String], said: Answer) -> Answer {
    match printable(alloc, words) {
        Ok(shown) => said_of(alloc, &shown, said),
        Err(AllocError) => Answer::Memory,
    }
}

/// What is wrong with the words, or what was said, if nothing is.
fn said_of(alloc: Global, words: &[String], said: Answer) -> Answer {
    let mut is_whole = true;
    match matches_of(alloc, words, &mut is_whole) {
        Ok(_) if is_whole => said,
        Ok(_) => Answer::Memory,
        Err(answer) => answer,
    }
}
