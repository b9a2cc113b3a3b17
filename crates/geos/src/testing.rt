//! Carries out the command `test`.

ghost use Rattle.geos_shell.specs.Limits.{IsRegion};

use crate::json::done;
use crate::requests::{ran, runnable};
use geos_runs::{OwnTest, Testable, test};
use geos_shell::{Language, Reported, Reports, StreamFault, TestRequest};
use geos_texts::{Runnable, ScriptOfTest};
use script_tests::Part;
use std::alloc::{AllocError, Global};

/// The tests of a source, as they are run.
fn own_tests<'t>(
    alloc: Global,
    scripts: &'t [ScriptOfTest],
) -> Result<Vec<OwnTest<'t>>, AllocError> {
    let mut tests = Vec::new(alloc);
    for test in scripts {
        tests.push(OwnTest {
            script: &test.script,
            part: Part {
                name: &test.name,
                lines: &test.lines,
            },
        })?;
    }
    Ok(tests)
}

/// The result of an allocation. A refusal is reported.
fn kept<T: Drop>(
    rt: &HostRuntime,
    reports: Reports,
    made: Result<T, AllocError>,
) -> Result<T, Reported> {
    match made {
        Ok(made) => Ok(made),
        Err(AllocError) => done(rt, reports, Err(StreamFault::Memory)),
    }
}

/// Runs the tests of a source.
fn run_on(
    rt: &HostRuntime,
    reports: Reports,
    request: &TestRequest<'_>,
    routines: &Runnable<'_>,
) -> Result<bool, Reported>
    requires { IsRegion request.now.region }
{
    let scripts = kept(rt, reports, routines.tests(rt.alloc()))?;
    let tests = kept(rt, reports, own_tests(rt.alloc(), &scripts))?;
    let testable = Testable {
        image: &routines.image,
        text: routines.written(),
        lines: routines.lines(),
        tests: &tests,
    };
    ran(rt, reports, test(rt, &testable, request), routines)
}

/// Runs the tests of a source and test scripts as the request asks. Lines that failed are printed, so standard error has nothing of them.
pub(crate) fn run_tests(
    rt: &HostRuntime,
    reports: Reports,
    request: TestRequest<'_>,
    language: Language,
) -> Result<(), Reported>
    requires { IsRegion request.region }
{
    let routines = runnable(rt, reports, language.at(request.image))?;
    if run_on(rt, reports, &request, &routines)? {
        Ok(())
    } else {
        Err(Reported)
    }
}
