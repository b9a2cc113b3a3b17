//! What calls and scripts output, as JSON objects.

ghost use Rattle.vm_blocks.specs.Listed.{NoneLocked};

use crate::bad_lines::Script;
use crate::fault::RunFault;
use crate::manner::{Manner, came_to, run_lines_in};
use crate::printing::print_made;
use crate::tracing::{budget_of, trace_fault};
use geos_cli::{Counted, NotedCall, TracedCall, trace_call};
use geos_json::JsonLines;
use geos_kernel::Kernel;
use geos_shell::CallWords;
use std::alloc::{AllocError, Global};
use vm_file::Device;

/// A word that was output.
fn put_output(objects: &mut JsonLines, value: u64) {
    objects.begin("output");
    objects.number("value", value);
    objects.end()
}

/// A command that was refused.
fn put_refused(objects: &mut JsonLines, number: u64) {
    objects.begin("refused");
    objects.number("number", number);
    objects.end()
}

/// A call of which a block could not be locked, so that no routine ran.
pub(crate) fn refused_object(alloc: Global, number: u16) -> Result<Vec<u8>, AllocError> {
    let mut objects = JsonLines::new(alloc);
    put_refused(&mut objects, u64::from(number));
    objects.finish()
}

/// The words that a call output, and its steps.
pub(crate) fn put_outcome(objects: &mut JsonLines, traced: &TracedCall) {
    for value in traced.outcome.output.as_slice() {
        put_output(objects, u64::from(*value));
    }
    objects.begin("steps");
    objects.number("taken", u64::from(traced.outcome.steps));
    let budget = budget_of(traced.checked.image(), traced.routine);
    objects.number("budget", u64::from(budget));
    objects.end()
}

fn call_objects(alloc: Global, traced: &TracedCall) -> Result<Vec<u8>, AllocError> {
    let mut objects = JsonLines::new(alloc);
    put_outcome(&mut objects, traced);
    objects.finish()
}

/// A call, of whose steps none is noted.
fn unnoted_call<'c, 'a>(image: &'c [u8], call: &'c CallWords<'a>) -> NotedCall<'c, 'a> {
    NotedCall {
        image,
        name: call.name,
        words: call.words.as_slice(),
        only: None,
        most: 0,
    }
}

/// Runs a call with an image on a kernel of whose VM file no block is locked, and prints objects.
pub(crate) fn print_call_objects<'a, D: Device + Drop>(
    rt: &HostRuntime,
    image: &[u8],
    call: &CallWords<'a>,
    kernel: &mut Kernel<D>,
) -> Result<(), RunFault<'a>>
    requires { NoneLocked kernel.old.core.blocks }
{
    let alloc = rt.alloc();
    match trace_call(alloc, &unnoted_call(image, call), kernel) {
        Ok(Ok(traced)) => print_made(rt, call_objects(alloc, &traced)),
        Ok(Err(refusal)) => print_made(rt, refused_object(alloc, refusal.number())),
        Err(fault) => Err(trace_fault(call, None, fault)),
    }
}

/// The number that a text is in decimal digits.
fn number_in(text: &str) -> u64 {
    text.parse().unwrap_or(0)
}

/// The lines that a script printed, as objects.
fn objects_of_lines(alloc: Global, printed: &[u8]) -> Result<Vec<u8>, AllocError> {
    let mut objects = JsonLines::new(alloc);
    for line in std::str::from_utf8(printed).unwrap_or("").lines() {
        match line.strip_prefix("refused ") {
            Some(number) => put_refused(&mut objects, number_in(number)),
            None => put_output(&mut objects, number_in(line)),
        }
    }
    objects.finish()
}

/// Runs a script on a kernel of whose VM file no block is locked, and then prints objects.
pub(crate) fn print_script_objects<'a, D: Device + Drop>(
    rt: &HostRuntime,
    manner: &Manner,
    script: &Script<'_>,
    kernel: &mut Kernel<D>,
) -> Result<(), RunFault<'a>>
    requires { NoneLocked kernel.old.core.blocks }
{
    let alloc = rt.alloc();
    let mut out = Counted::new(Vec::new(alloc));
    let end = run_lines_in(rt, manner, script, kernel, &mut out);
    match print_made(rt, objects_of_lines(alloc, &out.stream)) {
        Ok(()) => came_to(end),
        Err(fault) => Err(fault),
    }
}

/// Prints how many changed blocks of a file no commit has written.
pub(crate) fn print_lost(rt: &HostRuntime, path: &str, changed: usize) {
    let mut objects = JsonLines::new(rt.alloc());
    objects.begin("lost");
    objects.text("file", path.as_bytes());
    objects.number("blocks", changed as u64);
    objects.end();
    // If the standard output fails, what follows reports it.
    let _ = print_made(rt, objects.finish());
}
