//! The request that the words on the command line make.

ghost use Rattle.std.specs.Prelude.{IfOk};
ghost use Rattle.geos_shell.specs.Limits.{KeepsLimits};

use crate::answer::{Answer, answer_to};
use crate::command_line::matches_of;
use crate::faults::has_faults;
use crate::given::{Given, entries_of};
use crate::help::misuse;
use crate::language::Language;
use crate::prompting::shell_of;
use crate::request::{Asked, Reports, Request, RoutineRequest};
use crate::routines::{call_of, run_of, test_of, trace_of};
use crate::rules::misuse_of;
use crate::run_limits::RunLimits;
use crate::texts::text_request;
use crate::vm_files::file_request;
use crate::wrapping::columns;
use clap::ArgMatches;
use std::alloc::{AllocError, Global};

/// The request of the words after the name of a command that takes a fixed number of words, or of no command.
fn plain_request<'a>(name: &str, given: &Given<'_, 'a>) -> Request<'a>
    ensures { KeepsLimits result }
{
    if let Some(request) = text_request(name, given) {
        return Request::Text(request);
    }
    if let Some(request) = file_request(name, given) {
        return Request::File(request);
    }
    match name {
        "shell" => Request::Shell(shell_of(given)),
        "lsp" => Request::Serve,
        "run" => Request::Routines(run_of(given)),
        _ => Request::Routines(RoutineRequest::Session),
    }
}

/// The request of the words after the name of a command.
fn command_request<'a>(
    alloc: Global,
    name: &str,
    given: &Given<'_, 'a>,
) -> Result<Request<'a>, AllocError>
    ensures { IfOk result KeepsLimits }
{
    match name {
        "call" => match call_of(alloc, given) {
            Ok(request) => Ok(Request::Routines(request)),
            Err(AllocError) => Err(AllocError),
        },
        "trace" => match trace_of(alloc, given) {
            Ok(request) => Ok(Request::Routines(request)),
            Err(AllocError) => Err(AllocError),
        },
        "test" => match test_of(alloc, given) {
            Ok(request) => Ok(Request::Test(request)),
            Err(AllocError) => Err(AllocError),
        },
        _ => Ok(plain_request(name, given)),
    }
}

/// The request of the command's words, and what is reported beside its faults. An error is what they are answered if something is wrong with
/// them.
fn asked_by<'a>(rt: &HostRuntime, name: &str, given: &Given<'_, 'a>) -> Result<Asked<'a>, Answer>
    ensures { IfOk result (λ asked. KeepsLimits asked.request) }
{
    if let Some(message) = misuse_of(given, name) {
        return Err(misuse(rt.alloc(), message, name));
    }
    // The request is made last, since a proof goes over all its parts at each step after it.
    let limits = RunLimits::of(given);
    let reports = Reports::of(rt, given);
    let language = Language::of(given);
    let has_faults = has_faults(rt, given, name);
    match command_request(rt.alloc(), name, given) {
        Ok(request) => Ok(Asked {
            request,
            limits,
            reports,
            language,
            has_faults,
        }),
        Err(AllocError) => Err(Answer::Memory),
    }
}

/// The request of what `clap` found, which does not count if not all of the commands were there.
fn asked_of<'a>(
    rt: &HostRuntime,
    matches: &ArgMatches<'a>,
    is_whole: bool,
) -> Result<Asked<'a>, Answer>
    ensures { IfOk result (λ asked. KeepsLimits asked.request) }
{
    let (name, matches) = match matches.subcommand() {
        Some(command) => command,
        None => ("", matches),
    };
    match entries_of(rt.alloc(), matches) {
        Ok(entries) if is_whole => {
            let given = Given {
                entries: entries.as_slice(),
                columns: columns(rt),
            };
            asked_by(rt, name, &given)
        }
        _ => Err(Answer::Memory),
    }
}

/// The request of the words after the program's name. An error is the answer to words that request no work.
pub fn requested<'a>(rt: &HostRuntime, words: &'a [String]) -> Result<Asked<'a>, Answer>
    ensures { IfOk result (λ asked. KeepsLimits asked.request) }
{
    let mut is_whole = true;
    match matches_of(rt.alloc(), words, &mut is_whole) {
        Ok(matches) => asked_of(rt, &matches, is_whole),
        Err(said) => Err(answer_to(rt.alloc(), words, said)),
    }
}
