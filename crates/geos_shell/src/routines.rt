//! Requests that run routines.

ghost use Rattle.std.specs.Prelude.{IfOk};
ghost use Rattle.geos_shell.specs.Limits.{IsRegion, RunsWithinLimits};

use crate::forms::{EndCommit, OutputForm};
use crate::given::Given;
use crate::numbers::{REGION, StepRange};
use crate::request::{CallWords, RoutineRequest, TestRequest, TraceWords};
use crate::step_choice::StepChoice;
use std::alloc::{AllocError, Global};

/// The requested call of a routine.
fn call_words<'a>(
    alloc: Global,
    name: &'a str,
    given: &Given<'_, 'a>,
) -> Result<CallWords<'a>, AllocError> {
    match Vec::from_slice(alloc, given.words("N")) {
        Ok(words) => Ok(CallWords { name, words }),
        Err(AllocError) => Err(AllocError),
    }
}

/// The requested call, if a routine is named.
fn call_if_any<'a>(
    alloc: Global,
    given: &Given<'_, 'a>,
) -> Result<Option<CallWords<'a>>, AllocError> {
    let Some(name) = given.setting("NAME") else {
        return Ok(None);
    };
    match call_words(alloc, name, given) {
        Ok(call) => Ok(Some(call)),
        Err(AllocError) => Err(AllocError),
    }
}

/// The request of a `call`. What may be refused is made last, so that nothing is dropped then.
pub(crate) fn call_of<'a>(
    alloc: Global,
    given: &Given<'_, 'a>,
) -> Result<RoutineRequest<'a>, AllocError>
    ensures { IfOk result RunsWithinLimits }
{
    let (image, file) = (given.word("IN"), given.setting("file"));
    let region = given.number(&REGION);
    let (strict, expect) = (given.flag("strict"), given.flag("expect"));
    let (form, commit) = (OutputForm::of(given), EndCommit::of(given));
    match call_if_any(alloc, given) {
        Ok(call) => Ok(RoutineRequest::Call {
            image,
            call,
            file,
            region,
            strict,
            expect,
            form,
            commit,
        }),
        Err(AllocError) => Err(AllocError),
    }
}

/// The traced call, and what is printed of it.
fn trace_words<'a>(alloc: Global, given: &Given<'_, 'a>) -> Result<TraceWords<'a>, AllocError> {
    let (only, page) = (given.setting("only"), given.setting("html"));
    let StepRange { skipped, last } = given.steps();
    let count = given.flag("count");
    match StepChoice::of(alloc, given) {
        Ok(choice) => match call_words(alloc, given.word("NAME"), given) {
            Ok(call) => Ok(TraceWords {
                call,
                only,
                skipped,
                steps: last,
                choice,
                count,
                page,
            }),
            Err(AllocError) => Err(AllocError),
        },
        Err(AllocError) => Err(AllocError),
    }
}

/// The request of a `trace`.
pub(crate) fn trace_of<'a>(
    alloc: Global,
    given: &Given<'_, 'a>,
) -> Result<RoutineRequest<'a>, AllocError>
    ensures { IfOk result RunsWithinLimits }
{
    let (image, file) = (given.word("IN"), given.setting("file"));
    let region = given.number(&REGION);
    match trace_words(alloc, given) {
        Ok(words) => Ok(RoutineRequest::Trace {
            image,
            words,
            file,
            region,
        }),
        Err(AllocError) => Err(AllocError),
    }
}

/// The request of a `test`.
pub(crate) fn test_of<'a>(
    alloc: Global,
    given: &Given<'_, 'a>,
) -> Result<TestRequest<'a>, AllocError>
    ensures { IfOk result (λ test. IsRegion test.region) }
{
    let (image, file) = (given.word("IN"), given.setting("file"));
    let region = given.number(&REGION);
    let (junit, coverage) = (given.setting("junit"), given.flag("coverage"));
    match Vec::from_slice(alloc, given.words("SCRIPT")) {
        Ok(scripts) => Ok(TestRequest {
            image,
            scripts,
            file,
            region,
            junit,
            coverage,
        }),
        Err(AllocError) => Err(AllocError),
    }
}

/// The request of a `run`.
pub(crate) fn run_of<'a>(given: &Given<'_, 'a>) -> RoutineRequest<'a>
    ensures { RunsWithinLimits result }
{
    RoutineRequest::Run {
        image: given.word("IMAGE"),
        file: given.word("FILE"),
        script: given.word("SCRIPT"),
        region: given.number(&REGION),
        strict: given.flag("strict"),
        expect: given.flag("expect"),
        names: given.flag("vars"),
        form: OutputForm::of(given),
        commit: EndCommit::of(given),
    }
}
