//! Requests on files that standard error goes into.

use crate::given::Given;
use crate::kept::may_be_saved;
use crate::one_file::are_one_file;
use crate::output::{FAULTS, written_name};
use crate::streams::{STANDARD, name_of};
use crate::texts::new_text_of;

/// The arguments that are paths: after `<` of what is read, where `-` is the standard input, after `>` of what is written, where `-` is the
/// standard output, and after `=` of VM files.
const PATHS: &str =
    "=FILE =NEW =A =B =file <IN <TEXT <IMAGE <SCRIPT <script >OUT >html >junit =journal";

/// Whether standard error goes into the file with the path.
fn are_in(rt: &HostRuntime, path: &str) -> bool {
    are_one_file(rt, path, FAULTS)
}

/// Whether it goes into what is read of the path, the standard input where that is `-`.
fn are_in_read(rt: &HostRuntime, path: &str) -> bool {
    are_in(rt, name_of(path))
}

/// Whether it goes into a VM file or an image that is to be written for the path, the standard output where that is `-`. Any other file
/// there may take faults.
fn are_in_kept(rt: &HostRuntime, path: &str) -> bool {
    let name = written_name(path);
    are_in(rt, name) && may_be_saved(rt, name)
}

/// Whether it goes into the standard input, or into a file that one of the words on the command line names, also after an option's `=`.
pub(crate) fn are_in_words(rt: &HostRuntime, words: &[String]) -> bool {
    for word in words {
        if is_in_word(rt, word.as_str()) {
            return true;
        }
    }
    are_in_read(rt, STANDARD)
}

fn is_in_word(rt: &HostRuntime, word: &str) -> bool {
    match word.split_once('=') {
        Some((_, path)) => are_in(rt, path) || are_in(rt, word),
        None => are_in(rt, word),
    }
}

/// Whether it goes into a stream that the command reads or writes though no word is `-`.
fn are_in_stream(rt: &HostRuntime, given: &Given<'_, '_>, command: &str) -> bool {
    match command {
        "" | "shell" => are_in_read(rt, STANDARD),
        "call" => given.setting("NAME").is_none() && are_in_read(rt, STANDARD),
        "put" => are_in_read(rt, given.setting("array").unwrap_or(STANDARD)),
        "budget" | "fmt" => are_in_kept(rt, new_text_of(given).new),
        _ => false,
    }
}

/// Whether the argument, one of `PATHS`, has a path of a file that standard error goes into.
fn are_in_argument(rt: &HostRuntime, given: &Given<'_, '_>, argument: &str) -> bool {
    let mut name = argument.chars();
    let kind = name.next().unwrap_or('=');
    for path in given.words(name.as_str()) {
        let has_faults = match kind {
            '<' => are_in_read(rt, path),
            '>' => are_in_kept(rt, path),
            _ => are_in(rt, path),
        };
        if has_faults {
            return true;
        }
    }
    false
}

/// Whether standard error goes into a file that the command with these words reads or works on, or into a VM file or an image that it is
/// to write: a message would become part of the file.
pub(crate) fn has_faults(rt: &HostRuntime, given: &Given<'_, '_>, command: &str) -> bool {
    for argument in PATHS.split(' ') {
        if are_in_argument(rt, given, argument) {
            return true;
        }
    }
    are_in_stream(rt, given, command)
}
