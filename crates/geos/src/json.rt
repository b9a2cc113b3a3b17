//! Findings and faults as JSON objects on the standard output.

use geos_json::JsonLines;
use geos_lints::Advice;
use geos_shell::{Diagnosed, Reported, Reports, StreamFault, TextPath, done_or_reported, print};
use geos_texts::{Runnable, TextFault, Wanted, assemble, assemble_all, put_advice, put_read};
use geos_verify::Reject;
use std::fmt::Display;

/// Prints objects.
fn print_objects<'a>(rt: &HostRuntime, objects: JsonLines) -> Result<(), StreamFault<'a>> {
    match objects.finish() {
        Ok(lines) => print(rt, &lines),
        Err(_) => Err(StreamFault::Memory),
    }
}

/// Prints the line of a fault as an object.
fn print_fault<F: Display>(rt: &HostRuntime, fault: &F) {
    let mut objects = JsonLines::new(rt.alloc());
    objects.begin("fault");
    match format!(in rt.alloc(); "{fault}") {
        Ok(message) => objects.text("message", message.as_bytes()),
        Err(_) => objects.null("message"),
    }
    objects.end();
    // If the standard output fails, standard error tells.
    let _ = print_objects(rt, objects);
}

/// The result of a request. A fault is reported instead, as an object if JSON is requested.
pub(crate) fn done<T: Drop, F: Diagnosed + Display + Drop>(
    rt: &HostRuntime,
    reports: Reports,
    done: Result<T, F>,
) -> Result<T, Reported> {
    if reports.json
        && let Err(fault) = &done
    {
        print_fault(rt, fault);
    }
    done_or_reported(rt, reports, done)
}

/// Prints that all is done, and with which status.
pub(crate) fn print_end(rt: &HostRuntime, status: u64) -> Result<(), StreamFault<'static>> {
    let mut objects = JsonLines::new(rt.alloc());
    objects.begin("end");
    objects.number("status", status);
    objects.end();
    print_objects(rt, objects)
}

/// Prints a warning about the file with the path.
pub(crate) fn print_warning(rt: &HostRuntime, path: &str, advice: &Advice) {
    let mut out = JsonLines::new(rt.alloc());
    if put_advice(rt.alloc(), &mut out, path, advice).is_ok() {
        // If the standard output fails, what follows reports it.
        let _ = print_objects(rt, out);
    }
}

/// Prints what is found in an image that was read, or why none was, and returns the first refusal of the image.
fn told<'a>(
    rt: &HostRuntime,
    reports: Reports,
    read: &Result<Runnable<'a>, TextFault<'a>>,
    effects: bool,
) -> Result<Option<Reject>, TextFault<'a>> {
    let wanted = Wanted {
        warnings: reports.warnings,
        effects,
    };
    let mut out = JsonLines::new(rt.alloc());
    let judged = put_read(rt.alloc(), &mut out, read, wanted);
    print_objects(rt, out)?;
    Ok(judged?)
}

/// Prints what is found in an image that was read, or why none was, and returns what was read.
fn read_told<'a>(
    rt: &HostRuntime,
    reports: Reports,
    read: Result<Runnable<'a>, TextFault<'a>>,
) -> Result<Runnable<'a>, TextFault<'a>> {
    told(rt, reports, &read, false)?;
    read
}

/// Reads what a path names, as `Runnable::read`, and prints what is found in it.
pub(crate) fn read_and_tell<'a>(
    rt: &HostRuntime,
    reports: Reports,
    from: TextPath<'a>,
) -> Result<Runnable<'a>, TextFault<'a>> {
    read_told(rt, reports, Runnable::read(rt, from))
}

/// The same, and `TextFault::Explained` if the verifier refuses the image. `effects` says whether those of each routine are printed.
pub(crate) fn check_and_tell<'a>(
    rt: &HostRuntime,
    reports: Reports,
    from: TextPath<'a>,
    effects: bool,
) -> Result<(), TextFault<'a>> {
    let read = Runnable::read(rt, from);
    match (told(rt, reports, &read, effects)?, read) {
        (_, Err(fault)) => Err(fault),
        (Some(reject), Ok(_)) => Err(TextFault::Explained(reject)),
        (None, Ok(_)) => Ok(()),
    }
}

/// Writes the image of a text, as `assemble` and `assemble_all` do, and prints what is found in it.
pub(crate) fn assemble_and_tell<'a>(
    rt: &HostRuntime,
    reports: Reports,
    text: TextPath<'a>,
    image: &'a str,
    all_rows: bool,
) -> Result<(), TextFault<'a>> {
    let made = if all_rows {
        match assemble_all(rt, text, image) {
            Ok(()) => return Ok(()),
            Err(fault) => Err(fault),
        }
    } else {
        assemble(rt, reports, text, image)
    };
    read_told(rt, reports, made)?;
    Ok(())
}
