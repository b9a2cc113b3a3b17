//! The command line, as `clap` takes it.

use crate::answer::Answer;
use crate::commands::{COMMANDS, END, PROGRAM};
use crate::help::USAGES;
use clap::{Arg, ArgAction, ArgMatches, Command};
use std::alloc::{AllocError, Global};
use std::{env, io};

/// The parts of a text before and after the first such byte.
pub(crate) fn parts_of(text: &str, at: char) -> (&str, &str) {
    text.split_once(at).unwrap_or((text, ""))
}

/// When something is done, as a word says it.
const WHENS: [&str; 3] = ["auto", "always", "never"];

/// The argument of a line of `commands`. Several words may have a negative number among them: their reader reports whether that is wrong.
fn arg_of<'a>(alloc: Global, line: &'a str) -> Arg<'a> {
    let mut rest = line.chars();
    let kind = rest.next().unwrap_or('?');
    let (argument, about) = parts_of(rest.as_str(), ' ');
    let (name, value) = parts_of(argument, '=');
    let arg = Arg::new(alloc, name)
        .help(about)
        .required(matches!(kind, '!' | '+'));
    match kind {
        '!' | '?' => arg,
        '*' | '+' => arg
            .num_args(usize::from(kind == '+')..)
            .allow_negative_numbers(kind == '*'),
        _ => option_of(
            arg.long(name).global(matches!(kind, '=' | '~')),
            kind,
            value,
        ),
    }
}

/// An option, whose name has been added.
fn option_of<'a>(arg: Arg<'a>, kind: char, value: &'a str) -> Arg<'a> {
    if matches!(kind, '-' | '=') {
        return arg.action(ArgAction::SetTrue);
    }
    let arg = arg.value_name(if kind == '#' { "N" } else { value });
    match kind {
        '&' => arg.action(ArgAction::Append),
        '#' => arg.allow_hyphen_values(true).default_value(value),
        '~' => arg.value_parser(WHENS.as_slice()),
        _ => arg,
    }
}

/// A command with one more argument. No list of arguments is made: a proof that one may be dropped takes long.
fn with_arg<'a>(
    alloc: Global,
    command: Result<Command<'a>, AllocError>,
    line: &'a str,
) -> Result<Command<'a>, AllocError> {
    match command {
        Ok(command) => command.arg(arg_of(alloc, line)),
        Err(AllocError) => Err(AllocError),
    }
}

/// The command of a text of `commands`, without its arguments.
fn bare_command<'a>(alloc: Global, first: &'a str, note: &'a str) -> Command<'a> {
    let (name, about) = parts_of(first, ' ');
    Command::new(alloc, name).about(about).after_help(note)
}

/// The command of a text of `commands`.
fn command_of<'a>(alloc: Global, text: &'a str) -> Result<Command<'a>, AllocError> {
    let (lines, note) = text.split_once("\n\n").unwrap_or((text, ""));
    let (first, args) = parts_of(lines, '\n');
    let mut command = Ok(bare_command(alloc, first, note));
    for line in args.lines() {
        command = with_arg(alloc, command, line);
    }
    command
}

/// The program without its commands.
fn bare_program<'a>(alloc: Global) -> Result<Command<'a>, AllocError> {
    match command_of(alloc, PROGRAM) {
        Ok(program) => program
            .no_binary_name(true)
            .version("0.1.0")
            .override_usage(USAGES)
            .bin_name("geos"),
        Err(AllocError) => Err(AllocError),
    }
}

/// The program with one more command. If an allocation is refused, `is_whole` becomes false, and the command is missing. So no command is
/// dropped: a proof that one may be dropped takes twenty seconds.
fn with_command<'a>(
    alloc: Global,
    program: Result<Command<'a>, AllocError>,
    text: &'a str,
    is_whole: &mut bool,
) -> Result<Command<'a>, AllocError> {
    match program {
        Ok(program) => match command_of(alloc, text) {
            Ok(command) => program.subcommand(command),
            Err(AllocError) => {
                *is_whole = false;
                Ok(program)
            }
        },
        Err(AllocError) => Err(AllocError),
    }
}

/// The program with its commands, or with some of them.
fn program<'a>(alloc: Global, is_whole: &mut bool) -> Result<Command<'a>, AllocError> {
    let mut program = bare_program(alloc);
    for text in COMMANDS.split(END) {
        program = with_command(alloc, program, text, is_whole);
    }
    program
}

/// The words after the program's name. An error is what they are answered where one of them is no text.
pub fn words(rt: &HostRuntime) -> Result<Vec<String>, Answer> {
    match env::args(rt) {
        Ok(args) => match args.skip(1).collect(rt.alloc()) {
            Ok(words) => Ok(words),
            Err(AllocError) => Err(Answer::Memory),
        },
        Err(error) if error.kind() == io::ErrorKind::InvalidData => Err(Answer::NotText),
        Err(_) => Err(Answer::Memory),
    }
}

/// What `clap` finds in the words after the program's name, or what it says of them. If an allocation is refused, `is_whole` may become
/// false, and then what it finds does not count.
pub(crate) fn matches_of<'a>(
    alloc: Global,
    words: &'a [String],
    is_whole: &mut bool,
) -> Result<ArgMatches<'a>, Answer> {
    match program(alloc, is_whole) {
        Ok(program) => match program.try_get_matches_from(words) {
            Ok(matches) => Ok(matches),
            Err(error) if *is_whole => Err(Answer::of(alloc, &error)),
            Err(_) => Err(Answer::Memory),
        },
        Err(AllocError) => Err(Answer::Memory),
    }
}
