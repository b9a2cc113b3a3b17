//! The program `geos`: runs a session on its standard input, or a command on a text or an image in a file.
#![tactic(auto)]

ghost use Rattle.geos_shell.specs.Limits.{KeepsLimits};

mod json;
mod pages;
mod prompting;
mod requests;
mod testing;

use geos_shell::{Answer, Asked, Reported, keep_stream_numbers, report, requested, words};
use geos_topics::topic_of;
use json::print_end;
use requests::carry_out;
use std::fmt::Display;
use std::process::ExitCode;

/// Reports a fault, and returns the status of the program.
fn fail<F: Display + Drop>(rt: &HostRuntime, fault: F) -> ExitCode {
    report(rt, &fault);
    ExitCode::FAILURE
}

/// Prints what the words on the command line are answered.
fn answered(rt: &HostRuntime, words: &[String], answer: &Answer) -> ExitCode {
    match answer.print(rt, words) {
        Ok(status) => status,
        Err(fault) => fail(rt, fault),
    }
}

/// Prints the last JSON object, and returns the program's status.
fn ended(rt: &HostRuntime, done: Result<(), Reported>) -> ExitCode {
    match done {
        Ok(()) => match print_end(rt, 0) {
            Ok(()) => ExitCode::SUCCESS,
            Err(fault) => fail(rt, fault),
        },
        Err(Reported) => {
            // Standard error has the fault.
            let _ = print_end(rt, 1);
            ExitCode::FAILURE
        }
    }
}

/// Carries out a request, and returns the program's status.
fn run_request(rt: &HostRuntime, asked: Asked) -> ExitCode
    requires { KeepsLimits asked.request }
{
    // A fault would be written over what the file has, so only the status tells.
    if asked.has_faults {
        return ExitCode::FAILURE;
    }
    let reports = asked.reports;
    let done = carry_out(rt, asked);
    if reports.json {
        return ended(rt, done);
    }
    match done {
        Ok(()) => ExitCode::SUCCESS,
        Err(Reported) => ExitCode::FAILURE,
    }
}

/// The answer to words that request no work: the text on a topic, if they name one that is no command.
fn topic_or(rt: &HostRuntime, words: &[String], answer: Answer) -> Answer {
    if !matches!(answer, Answer::Misuse(_)) {
        return answer;
    }
    match topic_of(rt.alloc(), words) {
        Ok(Some(text)) => Answer::Text(text),
        Ok(None) => answer,
        Err(_) => Answer::Memory,
    }
}

/// Carries out the request of the words, and returns the program's status.
fn run(rt: &HostRuntime, words: &[String]) -> ExitCode {
    match requested(rt, words) {
        Ok(asked) => run_request(rt, asked),
        Err(answer) => answered(rt, words, &topic_or(rt, words, answer)),
    }
}

/// Carries out the request of the words on the command line.
fn start(rt: &HostRuntime) -> ExitCode {
    match words(rt) {
        Ok(words) => run(rt, words.as_slice()),
        Err(answer) => answered(rt, &[], &answer),
    }
}

fn main(rt: HostRuntime) -> ExitCode {
    match keep_stream_numbers(&rt) {
        Ok(()) => start(&rt),
        Err(fault) => fail(&rt, fault),
    }
}
