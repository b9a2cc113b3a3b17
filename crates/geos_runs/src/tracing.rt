//! One routine is run with a text or an image, and its steps are printed, or how often each line ran.

ghost use Rattle.vm_blocks.specs.Listed.{NoneLocked};
ghost use Rattle.geos_shell.specs.Limits.{IsRegion};

use crate::calling::Task;
use crate::choosing::Chosen;
use crate::fault::RunFault;
use crate::manner::call_fault;
use crate::objects::refused_object;
use crate::paging::{Shown, page_on};
use crate::printing::print_made;
use crate::step_objects::trace_objects;
use geos_cli::{
    CallFault, NotedCall, ScriptFault, TraceFault, TracedCall, trace_call, trace_call_watched,
};
use geos_image::Image;
use geos_kernel::{Kernel, Name};
use geos_machine::Noted;
use geos_shell::{CallWords, Chunk, Room, TraceWords};
use geos_terms::Refusal;
use geos_trace::{ChunkWatch, put_counts, put_end, put_refused, put_step};
use line_marks::Origin;
use std::alloc::{AllocError, Global};
use vm_file::Device;

/// What is traced: an image, and what its text has for each instruction.
#[derive(Clone, Copy)]
pub struct Traceable<'a> {
    /// The bytes of the image.
    pub image: &'a [u8],
    /// For each pc what the text has for it, if the image was made from a text.
    pub origins: Option<&'a [Origin<'a>]>,
    /// What a page shows of them, if one is required.
    pub shown: Option<Shown<'a>>,
    /// What blocks in memory may take.
    pub room: Room,
    /// Whether JSON objects are printed.
    pub json: bool,
}

/// The budget of the routine that was called.
pub(crate) fn budget_of(image: &Image, routine: u16) -> u32 {
    if routine < image.count() {
        image.routine(routine).budget
    } else {
        0
    }
}

/// The steps that may be shown of those that were noted.
pub(crate) fn steps_shown<'t>(words: &TraceWords<'_>, traced: &'t TracedCall) -> &'t [Noted] {
    traced
        .trace
        .steps()
        .get(words.skipped as usize..)
        .unwrap_or(&[])
}

/// What is printed of a call that was traced.
pub(crate) fn text_of(
    alloc: Global,
    words: &TraceWords<'_>,
    origins: Option<&[Origin<'_>]>,
    traced: &TracedCall,
    chosen: &Chosen,
) -> Result<Vec<u8>, AllocError> {
    let image = traced.checked.image();
    let mut out = Vec::new(alloc);
    if words.count {
        put_counts(&mut out, image, origins, &traced.trace)?;
    } else {
        let mut number = u64::from(words.skipped);
        for noted in steps_shown(words, traced) {
            number = number.saturating_add(1);
            if chosen.has(&words.choice, number, noted) {
                put_step(&mut out, image, origins, noted)?;
            }
        }
    }
    put_end(&mut out, &traced.outcome, budget_of(image, traced.routine))?;
    Ok(out)
}

/// What is printed of a call of which a block could not be locked.
pub(crate) fn refused_text(alloc: Global, refusal: u16) -> Result<Vec<u8>, AllocError> {
    let mut out = Vec::new(alloc);
    put_refused(&mut out, refusal)?;
    Ok(out)
}

/// The fault of a traced call, by what is wrong. The steps of the routine `only` are requested, if there is one.
pub(crate) fn trace_fault<'a>(
    call: &CallWords<'a>,
    only: Option<&'a str>,
    fault: TraceFault,
) -> RunFault<'a> {
    match fault {
        TraceFault::Call(fault) => call_fault(call, fault),
        TraceFault::NoRoutine => RunFault::NoSuchRoutine(only.unwrap_or("")),
    }
}

/// The call with an image, of which so many steps are noted at most.
pub(crate) fn noted_call<'w, 'a>(
    words: &'w TraceWords<'a>,
    image: &'w [u8],
    most: usize,
) -> NotedCall<'w, 'a> {
    NotedCall {
        image,
        name: words.call.name,
        words: words.call.words.as_slice(),
        only: words.only,
        most,
    }
}

/// The name of the block with a chunk.
fn name_of(chunk: &Chunk) -> Name {
    if chunk.in_memory {
        Name::mem(chunk.block)
    } else {
        Name::vm(chunk.block)
    }
}

/// The numbers of the steps that change the chunk.
fn changing(alloc: Global, watch: &ChunkWatch) -> Result<Vec<u32>, AllocError> {
    Vec::from_slice(alloc, watch.changing()?)
}

/// Runs it on a kernel of whose VM file no block is locked, and chooses the steps that change the chunk of the watch.
fn run_watched<D: Device + Drop>(
    alloc: Global,
    noted: &NotedCall<'_, '_>,
    watch: &mut ChunkWatch<'_>,
    kernel: &mut Kernel<D>,
    chosen: &mut Chosen,
) -> Result<Result<TracedCall, Refusal>, TraceFault>
    requires { NoneLocked kernel.old.core.blocks }
{
    match trace_call_watched(alloc, noted, kernel, watch) {
        Ok(traced) => match changing(alloc, watch) {
            Ok(numbers) => {
                chosen.limit(numbers);
                Ok(traced)
            }
            Err(_) => Err(TraceFault::Call(CallFault::Script(ScriptFault::Memory))),
        },
        Err(fault) => Err(fault),
    }
}

/// Runs it on a kernel of whose VM file no block is locked, and chooses the steps that change a chunk, if that is requested.
fn run_on<D: Device + Drop>(
    alloc: Global,
    words: &TraceWords<'_>,
    image: &[u8],
    kernel: &mut Kernel<D>,
    chosen: &mut Chosen,
) -> Result<Result<TracedCall, Refusal>, TraceFault>
    requires { NoneLocked kernel.old.core.blocks }
{
    let most = if words.count { 0 } else { words.steps as usize };
    let noted = noted_call(words, image, most);
    let Some(chunk) = &words.choice.chunk else {
        return trace_call(alloc, &noted, kernel);
    };
    match image_of(alloc, image) {
        Ok(image) => {
            let name = name_of(chunk);
            let mut watch = ChunkWatch::new(alloc, &image, name, chunk.chunk, words.steps);
            run_watched(alloc, &noted, &mut watch, kernel, chosen)
        }
        Err(fault) => Err(TraceFault::Call(CallFault::Script(fault))),
    }
}

/// The image that bytes encode.
fn image_of(alloc: Global, bytes: &[u8]) -> Result<Image, ScriptFault> {
    match geos_image::read(alloc, bytes) {
        Ok(image) => Ok(image),
        Err(error) => Err(ScriptFault::from(error)),
    }
}

/// The steps at the lines that are requested.
fn chosen_lines<'a>(
    alloc: Global,
    words: &TraceWords<'a>,
    traceable: &Traceable<'_>,
) -> Result<Chosen, RunFault<'a>> {
    if words.choice.lines.is_empty() {
        return Ok(Chosen::all());
    }
    match image_of(alloc, traceable.image) {
        Ok(image) => Chosen::at_lines(alloc, &image, traceable.origins, &words.choice),
        Err(fault) => Err(RunFault::Session(fault)),
    }
}

/// What is printed of a call that was traced, as a text or as JSON objects.
fn told_of(
    alloc: Global,
    words: &TraceWords<'_>,
    traceable: &Traceable<'_>,
    traced: &TracedCall,
    chosen: &Chosen,
) -> Result<Vec<u8>, AllocError> {
    if traceable.json {
        trace_objects(alloc, words, traceable.origins, traced, chosen)
    } else {
        text_of(alloc, words, traceable.origins, traced, chosen)
    }
}

/// The same of a call of which a block could not be locked.
fn told_of_refused(alloc: Global, json: bool, refusal: Refusal) -> Result<Vec<u8>, AllocError> {
    if json {
        refused_object(alloc, refusal.number())
    } else {
        refused_text(alloc, refusal.number())
    }
}

/// Runs it on a kernel of whose VM file no block is locked, and prints what was noted.
pub(crate) fn trace_on<'a, D: Device + Drop>(
    rt: &HostRuntime,
    words: &TraceWords<'a>,
    traceable: &Traceable<'_>,
    kernel: &mut Kernel<D>,
) -> Result<(), RunFault<'a>>
    requires { NoneLocked kernel.old.core.blocks }
{
    if let (Some(shown), Some(path)) = (&traceable.shown, words.page) {
        return page_on(rt, words, traceable, shown, path, kernel);
    }
    let alloc = rt.alloc();
    let mut chosen = match chosen_lines(alloc, words, traceable) {
        Ok(chosen) => chosen,
        Err(fault) => return Err(fault),
    };
    match run_on(alloc, words, traceable.image, kernel, &mut chosen) {
        Ok(Ok(traced)) => print_made(rt, told_of(alloc, words, traceable, &traced, &chosen)),
        Ok(Err(refusal)) => print_made(rt, told_of_refused(alloc, traceable.json, refusal)),
        Err(fault) => Err(trace_fault(&words.call, words.only, fault)),
    }
}

/// Runs one call of the routines of an image, on the VM file with the path `file`, or without a path on a new one in memory. `region` is
/// the number of bytes for blocks in memory. It prints the steps, or how often each line ran, and then what is left of the budget.
pub fn trace<'a>(
    rt: &HostRuntime,
    traceable: &Traceable<'_>,
    words: &TraceWords<'a>,
    file: Option<&'a str>,
    region: u32,
) -> Result<(), RunFault<'a>>
    requires { IsRegion region }
{
    Task::Trace(words, traceable).run(rt, file, region)
}
