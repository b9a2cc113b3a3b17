//! Carries out the requests of the command line.

ghost use Rattle.geos_shell.specs.Limits.{KeepsLimits, RunsWithinLimits, WorksWithinLimits};

use crate::json::{assemble_and_tell, check_and_tell, done, print_warning, read_and_tell};
use crate::pages::explain_on_page;
use crate::prompting::answer_lines;
use crate::testing::run_tests;
use geos_cli::Mode;
use geos_dump::{Detail, Side, View};
use geos_files::{
    check_file, compare_files, copy_file, draw_file, is_vm_file, make_file, make_page, print_file,
};
use geos_runs::{
    Manner, RunFault, Shown, Traceable, call as run_call, get, put, run, session, trace,
};
use geos_scripts::NameUse;
use geos_shell::{
    Asked, CallWords, Diagnosed, DumpRequest, EndCommit, FileRequest, Language, OutputForm,
    Reported, Reports, Request, Room, RoutineRequest, RunLimits, TextPath, TextRequest, report,
    tell,
};
use geos_texts::{
    KnownLines, Limited, Limits, Runnable, TextFault, assemble, assemble_all, budget, check,
    explain, explain_script, format, known_lines, list, read_and_warn, tell_warning,
};
use language_server::{ServeFault, serve};
use line_marks::Origin;
use std::fmt::Display;
use std::io::{self, BufReader};

/// What a script does after a refused command.
fn mode_of(strict: bool) -> Mode {
    if strict { Mode::Strict } else { Mode::Lenient }
}

/// Whether lines of a script may write names.
fn use_of(names: bool) -> NameUse {
    if names {
        NameUse::Allowed
    } else {
        NameUse::Refused
    }
}

/// How much is printed of the blocks of a VM file, and in which form.
fn detail_of(dump: &DumpRequest<'_>, json: bool) -> Detail {
    if dump.arrays {
        return Detail::Elements;
    }
    match (dump.chunks || dump.block.is_some(), json) {
        (false, false) => Detail::Lines,
        (true, false) => Detail::Bytes,
        (false, true) => Detail::Objects,
        (true, true) => Detail::WholeObjects,
    }
}

/// Which part of a VM file is printed, and how. A block is one of the current directory, if the saved one is not required.
fn view_of(dump: &DumpRequest<'_>, json: bool) -> View {
    let side = match dump.block {
        _ if dump.saved => Some(Side::Saved),
        Some(_) => Some(Side::Current),
        None => None,
    };
    View {
        detail: detail_of(dump, json),
        short: dump.short,
        side,
        block: dump.block,
        chunk: dump.chunk,
    }
}

/// The end of a run of routines. If the verifier refuses their image, its refusals are among the diagnostics.
pub(crate) fn ran<T: Drop, F: Diagnosed + Display + Drop>(
    rt: &HostRuntime,
    reports: Reports,
    ran: Result<T, F>,
    routines: &Runnable<'_>,
) -> Result<T, Reported> {
    let ended = done(rt, reports, ran);
    if ended.is_err() && reports.diagnostics {
        tell(rt, reports, &routines.told(rt.alloc()));
    }
    ended
}

/// Reads an image, or assembles it from a text.
pub(crate) fn runnable<'a>(
    rt: &HostRuntime,
    reports: Reports,
    image: TextPath<'a>,
) -> Result<Runnable<'a>, Reported> {
    let read = if reports.json {
        read_and_tell(rt, reports, image)
    } else {
        read_and_warn(rt, reports, image)
    };
    done(rt, reports, read)
}

/// Reads an image, or assembles it from a text. Its public routines, or of a call the one that is named, keep to the limits.
fn limited<'a>(
    rt: &HostRuntime,
    reports: Reports,
    named: &Named<'a>,
    limits: &RunLimits<'a>,
) -> Result<Limited<'a>, Reported> {
    let routines = runnable(rt, reports, named.image)?;
    let limits = done(rt, reports, Limits::of(limits, named.called))?;
    done(rt, reports, Limited::new(rt.alloc(), routines, limits))
}

/// No limit on what blocks take.
const ALL: Room = Room {
    bytes: u32::MAX,
    handles: 1_024,
};

/// How a script or a call runs, without a limit on what blocks take.
fn manner_of(
    reports: Reports,
    strict: bool,
    names: NameUse,
    form: OutputForm,
    commit: Option<EndCommit>,
) -> Manner {
    Manner {
        mode: mode_of(strict),
        names,
        expects: false,
        room: ALL,
        form,
        commit,
        reports,
    }
}

/// What is known of the text of routines that are traced.
#[derive(Drop)]
struct Known<'t> {
    /// What a page shows of them, if a page is required.
    page: Option<KnownLines>,
    /// What the text has for each instruction, if there is one.
    origins: Option<Vec<Origin<'t>>>,
}

/// What is known of the text of routines, if they are traced. A page has the lines of the text itself, and not those that line marks name.
fn known_of<'t>(
    rt: &HostRuntime,
    reports: Reports,
    routines: &'t Runnable<'_>,
    named: &Named<'_>,
) -> Result<Known<'t>, Reported> {
    if !named.traces {
        return Ok(Known {
            page: None,
            origins: None,
        });
    }
    let by_marks = named.page.is_none();
    let origins = done(rt, reports, routines.origins(rt.alloc(), by_marks))?;
    let page = match named.page {
        Some(_) => Some(done(rt, reports, known_lines(rt, routines))?),
        None => None,
    };
    Ok(Known { page, origins })
}

/// Routines that keep to limits, as they run. A proof about them does not go over what `Limited` promises.
#[derive(Clone, Copy)]
struct Ready<'t, 'a> {
    routines: &'t Runnable<'a>,
    /// What blocks in memory may take.
    room: Room,
}

/// What is traced of routines, and what a page shows of them, if their lines are known for one.
fn traceable_of<'t>(reports: Reports, ready: Ready<'t, '_>, known: &'t Known<'_>) -> Traceable<'t> {
    let routines = ready.routines;
    let shown = match &known.page {
        Some(known) => Some(Shown {
            path: routines.path,
            explained: &known.lines,
            of_text: known.of_text,
        }),
        None => None,
    };
    let origins = match &known.origins {
        Some(origins) => Some(origins.as_slice()),
        None => None,
    };
    Traceable {
        image: &routines.image,
        origins,
        shown,
        room: ready.room,
        json: reports.json,
    }
}

/// What is read of a request before its routines run.
#[derive(Clone, Copy)]
struct Named<'a> {
    /// The path of the image or the text, and its language.
    image: TextPath<'a>,
    /// The routine that a call names.
    called: Option<&'a str>,
    /// How many numbers it has.
    numbers: usize,
    /// Whether it is traced.
    traces: bool,
    /// The path of a page, if one is required.
    page: Option<&'a str>,
}

/// How many numbers a call has. Words that begin with `@` are blocks.
fn count_numbers(call: &CallWords<'_>) -> usize {
    call.words
        .iter()
        .filter(|word| !word.starts_with('@'))
        .count()
}

/// What a request names. A session names no image.
fn named_in<'a>(request: &RoutineRequest<'a>, language: Language) -> Option<Named<'a>> {
    match request {
        RoutineRequest::Session => None,
        RoutineRequest::Call { image, call, .. } => Some(Named {
            image: language.at(image),
            called: match call {
                Some(call) => Some(call.name),
                None => None,
            },
            numbers: match call {
                Some(call) => count_numbers(call),
                None => 0,
            },
            traces: false,
            page: None,
        }),
        RoutineRequest::Trace { image, words, .. } => Some(Named {
            image: language.at(image),
            called: Some(words.call.name),
            numbers: count_numbers(&words.call),
            traces: true,
            page: words.page,
        }),
        RoutineRequest::Run { image, .. } => Some(Named {
            image: language.at(image),
            called: None,
            numbers: 0,
            traces: false,
            page: None,
        }),
    }
}

/// Reports the warning about a call, if there is one and warnings are required.
fn warn_of(rt: &HostRuntime, reports: Reports, routines: &Runnable<'_>, named: &Named<'_>) {
    let Some(name) = named.called else {
        return;
    };
    if !reports.warnings {
        return;
    }
    match routines.advice_on_call(rt.alloc(), name, named.numbers) {
        Ok(Some(advice)) if reports.json => print_warning(rt, routines.path, &advice),
        Ok(Some(advice)) => tell_warning(rt, reports, routines.path, &advice),
        _ => {}
    }
}

/// Runs routines as the request asks. Words are taken from left to right: the image is read, or assembled from a text, before the VM file
/// is opened.
fn run_routines<'a>(
    rt: &HostRuntime,
    reports: Reports,
    request: RoutineRequest<'a>,
    limits: &RunLimits<'a>,
    language: Language,
) -> Result<(), Reported>
    requires { RunsWithinLimits request }
{
    let Some(named) = named_in(&request, language) else {
        return done(rt, reports, session(rt));
    };
    let kept = limited(rt, reports, &named, limits)?;
    let ready = Ready {
        routines: &kept.routines,
        room: kept.limits.room,
    };
    run_ready(rt, reports, request, &named, ready)
}

/// Runs routines that keep to the limits.
fn run_ready<'a>(
    rt: &HostRuntime,
    reports: Reports,
    request: RoutineRequest<'a>,
    named: &Named<'a>,
    ready: Ready<'_, '_>,
) -> Result<(), Reported>
    requires { RunsWithinLimits request }
{
    warn_of(rt, reports, ready.routines, named);
    let known = known_of(rt, reports, ready.routines, named)?;
    let end = run_on(rt, reports, request, ready, &known);
    ran(rt, reports, end, ready.routines)
}

/// Runs routines that were read.
fn run_on<'a, 't>(
    rt: &HostRuntime,
    reports: Reports,
    request: RoutineRequest<'a>,
    ready: Ready<'t, '_>,
    known: &'t Known<'_>,
) -> Result<(), RunFault<'a>>
    requires { RunsWithinLimits request }
{
    let image = &ready.routines.image;
    let room = ready.room;
    match request {
        RoutineRequest::Session => session(rt),
        RoutineRequest::Call {
            call,
            file,
            region,
            strict,
            expect: expects,
            form,
            commit,
            ..
        } => {
            let manner = Manner {
                room,
                expects,
                ..manner_of(reports, strict, NameUse::Allowed, form, commit)
            };
            run_call(rt, &manner, image, call, file, region)
        }
        RoutineRequest::Trace {
            words,
            file,
            region,
            ..
        } => {
            let traceable = traceable_of(reports, ready, known);
            trace(rt, &traceable, &words, file, region)
        }
        RoutineRequest::Run {
            file,
            script,
            region,
            strict,
            expect: expects,
            names,
            form,
            commit,
            ..
        } => {
            let manner = Manner {
                room,
                expects,
                ..manner_of(reports, strict, use_of(names), form, commit)
            };
            run(rt, &manner, image, file, script, region)
        }
    }
}

/// Works on a text or an image as the request asks.
fn work_on_text<'a>(
    rt: &HostRuntime,
    reports: Reports,
    request: TextRequest<'a>,
    language: Language,
) -> Result<(), TextFault<'a>> {
    match request {
        TextRequest::Assemble {
            text,
            image,
            all_rows,
        } if reports.json => assemble_and_tell(rt, reports, language.at(text), image, all_rows),
        TextRequest::Check(path) if reports.json => {
            check_and_tell(rt, reports, language.at(path), false)
        }
        TextRequest::Explain(path) if reports.json => {
            check_and_tell(rt, reports, language.at(path), true)
        }
        TextRequest::Assemble {
            text,
            image,
            all_rows: false,
        } => {
            assemble(rt, reports, language.at(text), image)?;
            Ok(())
        }
        TextRequest::Assemble {
            text,
            image,
            all_rows: true,
        } => assemble_all(rt, language.at(text), image),
        TextRequest::Budget(paths) => budget(rt, paths, language),
        TextRequest::Format(paths) => format(rt, paths, language),
        TextRequest::List { image, assembly } => list(rt, language.at(image), assembly),
        TextRequest::Check(path) => check(rt, reports, language.at(path)),
        TextRequest::Explain(path) => explain(rt, language.at(path)),
        TextRequest::Page(paths) => explain_on_page(rt, paths, language),
        TextRequest::ExplainScript {
            image,
            script,
            names,
        } => explain_script(rt, language.at(image), script, use_of(names)),
    }
}

/// Works on a VM file as the request asks.
fn work_on_file(
    rt: &HostRuntime,
    reports: Reports,
    request: FileRequest<'_>,
) -> Result<(), Reported>
    requires { WorksWithinLimits request }
{
    match request {
        FileRequest::New { file, area } => done(rt, reports, make_file(rt, file, area)),
        FileRequest::Copy(copy) => done(rt, reports, copy_file(rt, &copy)),
        FileRequest::Put(request) => done(rt, reports, put(rt, &request)),
        FileRequest::Get(request) => done(rt, reports, get(rt, &request, reports.json)),
        FileRequest::Dump(dump) => {
            let view = view_of(&dump, reports.json);
            done(rt, reports, print_file(rt, dump.file, view))
        }
        FileRequest::Diff(files) => done(rt, reports, compare_files(rt, &files)),
        FileRequest::Page(paths) => done(rt, reports, make_page(rt, paths)),
        FileRequest::Map { file, width } => done(rt, reports, draw_file(rt, file, width)),
    }
}

/// Serves an editor on the standard streams.
fn serve_editor(rt: &HostRuntime) -> Result<(), Reported> {
    let served = match BufReader::new(rt.alloc(), rt.stdin()) {
        Ok(mut input) => serve(rt.alloc(), &mut input, &mut io::writer(rt)),
        Err(error) => Err(ServeFault::Stream(error)),
    };
    match served {
        // The protocol requires status 1 if an editor ends the server without `shutdown`.
        Ok(true) => Ok(()),
        Ok(false) => Err(Reported),
        Err(fault) => Err(report_served(rt, &fault)),
    }
}

/// Reports why the server ended.
fn report_served(rt: &HostRuntime, fault: &ServeFault) -> Reported {
    match fault {
        ServeFault::Malformed => report(rt, &"no message of the protocol"),
        ServeFault::Stream(error) => report(rt, error),
        ServeFault::Memory => report(rt, &"memory"),
    }
}

/// Carries out a request. A fault is reported on standard error, with diagnostics if they are required. The limits are tested before `call`,
/// `run` and `trace` run anything.
pub(crate) fn carry_out(rt: &HostRuntime, asked: Asked<'_>) -> Result<(), Reported>
    requires { KeepsLimits asked.request }
{
    let Asked {
        request,
        limits,
        reports,
        language,
        ..
    } = asked;
    match request {
        Request::Routines(request) => run_routines(rt, reports, request, &limits, language),
        Request::Test(request) => run_tests(rt, reports, request, language),
        Request::Text(TextRequest::Check(path)) if is_vm_file(rt, path) => {
            done(rt, reports, check_file(rt, path, reports.json))
        }
        Request::Text(request) => {
            done(rt, reports, work_on_text(rt, reports, request, language))
        }
        Request::File(request) => work_on_file(rt, reports, request),
        Request::Shell(request) => answer_lines(rt, reports, &request, language),
        Request::Serve => serve_editor(rt),
    }
}
