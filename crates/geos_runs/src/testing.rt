//! Scripts whose lines say what they are to print are run, each on a VM file of its own in memory.

ghost use Rattle.vm_blocks.specs.Listed.{NoneLocked};
ghost use Rattle.geos_shell.specs.Limits.{IsRegion};

use crate::MOST_READ;
use crate::bad_lines::printed_path;
use crate::comparing::whole;
use crate::coverage::coverage_text;
use crate::fault::RunFault;
use crate::printing::{print_made, write_made};
use geos_cli::ScriptFault;
use geos_files::{FileFault, Locked, lock_to_read, opened};
use geos_kernel::{Kernel, kernel_in_memory};
use geos_scripts::NameUse;
use geos_shell::{Reason, StreamFault, TestRequest, are_one_file_read, print_lines, read};
use script_tests::{Coverage, Part, TestScript, Tested, test_script};
use sentence_text::Text;
use std::alloc::{AllocError, Global};
use vm_file::{Device, Disk, FileDevice, MemoryDevice, OpenError, VmFile};

/// What is tested: an image, and the text or the source that it was made of.
#[derive(Clone, Copy)]
pub struct Testable<'t> {
    /// The bytes of the image.
    pub image: &'t [u8],
    /// The text or the source; empty without one.
    pub text: &'t [u8],
    /// For each pc the number of its line in the text, if there is one.
    pub lines: Option<&'t [u32]>,
    /// The tests of the source.
    pub tests: &'t [OwnTest<'t>],
}

/// A test of a source.
#[derive(Clone, Copy)]
pub struct OwnTest<'t> {
    /// Its calls, as the lines of a script.
    pub script: &'t [u8],
    pub part: Part<'t>,
}

/// The bytes of a VM file.
#[derive(Drop)]
struct Contents<'a> {
    path: &'a str,
    bytes: Vec<u8>,
}

impl<'a> Contents<'a> {
    /// Those of an open VM file with the path.
    fn of_open(
        alloc: Global,
        path: &'a str,
        file: VmFile<FileDevice>,
    ) -> Result<Contents<'a>, RunFault<'a>> {
        let mut device = file.into_device();
        let Ok(mut bytes) = Vec::from_elem(alloc, 0u8, device.len() as usize) else {
            return Err(RunFault::Session(ScriptFault::Memory));
        };
        match device.read_at(0, &mut bytes) {
            Ok(()) => Ok(Contents { path, bytes }),
            Err(Disk) => Err(RunFault::File(FileFault::Open(path, OpenError::Disk))),
        }
    }

    /// Those of the VM file with the path. Its lock is released before anything runs.
    fn of_file(rt: &HostRuntime, path: &'a str) -> Result<Contents<'a>, RunFault<'a>> {
        let Locked {
            device,
            lock: _lock,
        } = match lock_to_read(rt, path) {
            Ok(locked) => locked,
            Err(fault) => return Err(RunFault::Stream(fault)),
        };
        match opened(rt, path, device) {
            Ok(file) => Contents::of_open(rt.alloc(), path, file),
            Err(fault) => Err(RunFault::File(fault)),
        }
    }

    /// A VM file of these bytes in memory.
    fn file(&self, alloc: Global) -> Result<VmFile<MemoryDevice>, OpenError> {
        let Ok(mut device) = MemoryDevice::new(alloc, self.bytes.len() as u64) else {
            return Err(OpenError::Memory);
        };
        match device.write_at(0, &self.bytes) {
            Ok(()) => {}
            Err(Disk) => return Err(OpenError::Disk),
        }
        match VmFile::open(alloc, device) {
            Ok(file) => Ok(file),
            Err((_device, error)) => Err(error),
        }
    }
}

/// A fault if the file with the path `out` is the script.
fn keep_script<'a>(
    rt: &HostRuntime,
    out: Option<&'a str>,
    script: &str,
) -> Result<(), RunFault<'a>> {
    match out {
        Some(out) if are_one_file_read(rt, out, script) => {
            Err(RunFault::Stream(StreamFault::Write(out, Reason::IN_USE)))
        }
        _ => Ok(()),
    }
}

/// A test script of a file.
#[derive(Drop)]
struct ScriptFile {
    /// Its path, as it is printed.
    path: String,
    bytes: Vec<u8>,
}

impl ScriptFile {
    /// That with the path. A fault if it is the file with the path `out`.
    fn read<'a>(
        rt: &HostRuntime,
        path: &'a str,
        out: Option<&'a str>,
    ) -> Result<ScriptFile, RunFault<'a>> {
        if let Err(fault) = keep_script(rt, out, path) {
            return Err(fault);
        }
        let bytes = match read(rt, path, MOST_READ) {
            Ok(bytes) => bytes,
            Err(fault) => return Err(RunFault::Stream(fault)),
        };
        match printed_path(rt.alloc(), path) {
            Ok(path) => Ok(ScriptFile { path, bytes }),
            Err(_) => Err(RunFault::Session(ScriptFault::Memory)),
        }
    }

    /// The script, for an image of these bytes.
    fn script<'s>(&'s self, image: &'s [u8]) -> TestScript<'s> {
        TestScript {
            path: &self.path,
            image,
            bytes: &self.bytes,
            names: NameUse::Allowed,
            part: whole(&self.bytes),
        }
    }
}

/// Runs a test script on a kernel of whose VM file no block is locked.
fn test_on<D: Device + Drop>(
    alloc: Global,
    script: &TestScript<'_>,
    coverage: Coverage,
    kernel: &mut Kernel<D>,
) -> Result<Tested, ScriptFault>
    requires { NoneLocked kernel.old.core.blocks }
{
    test_script(alloc, script, coverage, kernel)
}

/// Runs it on a new VM file in memory, with so many bytes for blocks in memory.
fn test_in_memory(
    alloc: Global,
    script: &TestScript<'_>,
    coverage: Coverage,
    region: u32,
) -> Result<Tested, ScriptFault>
    requires { IsRegion region }
{
    match kernel_in_memory(alloc, region) {
        Ok(mut kernel) => test_on(alloc, script, coverage, &mut kernel),
        Err(_) => Err(ScriptFault::Memory),
    }
}

/// Runs it on a VM file in memory.
fn test_on_copy(
    alloc: Global,
    script: &TestScript<'_>,
    coverage: Coverage,
    region: u32,
    file: VmFile<MemoryDevice>,
) -> Result<Tested, ScriptFault>
    requires { IsRegion region }
{
    match Kernel::new(alloc, region, file) {
        Ok(mut kernel) => test_on(alloc, script, coverage, &mut kernel),
        Err(_) => Err(ScriptFault::Memory),
    }
}

/// Runs a test script on a copy of a VM file, or on a new one.
fn test_one<'a>(
    alloc: Global,
    script: &TestScript<'_>,
    coverage: Coverage,
    copied: &Option<Contents<'a>>,
    region: u32,
) -> Result<Tested, RunFault<'a>>
    requires { IsRegion region }
{
    let tested = match copied {
        None => test_in_memory(alloc, script, coverage, region),
        Some(copied) => match copied.file(alloc) {
            Ok(file) => test_on_copy(alloc, script, coverage, region, file),
            Err(error) => return Err(RunFault::File(FileFault::Open(copied.path, error))),
        },
    };
    match tested {
        Ok(tested) => Ok(tested),
        Err(fault) => Err(RunFault::Session(fault)),
    }
}

/// What test scripts came to.
#[derive(Drop)]
struct Results {
    passed: usize,
    failed: usize,
    /// Whether a line is bad.
    is_bad: bool,
    /// The suites of JUnit XML.
    suites: Text,
    coverage: Coverage,
}

impl Results {
    /// No script has run. `ScriptFault::Memory` if there is no memory for what is counted, if that is required.
    fn new(alloc: Global, counts: bool) -> Result<Results, ScriptFault> {
        let mut suites = Text::new(alloc);
        suites.put("<?xml version=\"1.0\" encoding=\"UTF-8\"?>\n<testsuites>\n");
        let coverage = if counts {
            Coverage::new(alloc)?
        } else {
            Coverage::unwanted(alloc)
        };
        Ok(Results {
            passed: 0,
            failed: 0,
            is_bad: false,
            suites,
            coverage,
        })
    }

    /// Adds those of another script, which began with the coverage.
    fn add(&mut self, tested: Tested) {
        let Tested {
            suite,
            passed,
            failed,
            is_bad,
            coverage,
            ..
        } = tested;
        self.suites.put_bytes(&suite);
        self.passed = self.passed.saturating_add(passed);
        self.failed = self.failed.saturating_add(failed);
        self.is_bad = self.is_bad || is_bad;
        self.coverage = coverage;
    }

    /// Runs another script, on a copy of a VM file or on a new one, and prints a line for each line that failed.
    fn run<'a>(
        &mut self,
        rt: &HostRuntime,
        script: &TestScript<'_>,
        copied: &Option<Contents<'a>>,
        region: u32,
    ) -> Result<(), RunFault<'a>>
        requires { IsRegion region }
    {
        let coverage = self.coverage.take(rt.alloc());
        let tested = match test_one(rt.alloc(), script, coverage, copied, region) {
            Ok(tested) => tested,
            Err(fault) => return Err(fault),
        };
        if let Err(fault) = print_lines(rt, &tested.told) {
            return Err(RunFault::Stream(fault));
        }
        self.add(tested);
        Ok(())
    }

    /// Runs the tests of a source.
    fn run_own<'a>(
        &mut self,
        rt: &HostRuntime,
        testable: &Testable<'_>,
        request: &TestRequest<'a>,
        copied: &Option<Contents<'a>>,
    ) -> Result<(), RunFault<'a>>
        requires { IsRegion request.now.region }
    {
        let Ok(path) = printed_path(rt.alloc(), request.image) else {
            return Err(RunFault::Session(ScriptFault::Memory));
        };
        for test in testable.tests {
            let script = TestScript {
                path: &path,
                image: testable.image,
                bytes: test.script,
                names: NameUse::Allowed,
                part: test.part,
            };
            self.run(rt, &script, copied, request.region)?;
        }
        Ok(())
    }

    /// The suites as a file of JUnit XML, if there is memory for it.
    fn suites(self) -> Result<Vec<u8>, AllocError> {
        let mut suites = self.suites;
        suites.put("</testsuites>\n");
        suites.finish()
    }

    /// How many lines passed and failed, in a line.
    fn counts(&self, alloc: Global) -> Result<Vec<u8>, AllocError> {
        let mut counts = Text::new(alloc);
        counts.put_number("", self.passed as u64);
        counts.put_number(" passed, ", self.failed as u64);
        counts.put(" failed\n");
        counts.finish()
    }
}

/// The bytes of the VM file with the path, if there is one.
fn copied_of<'a>(
    rt: &HostRuntime,
    file: Option<&'a str>,
) -> Result<Option<Contents<'a>>, RunFault<'a>> {
    match file {
        Some(path) => match Contents::of_file(rt, path) {
            Ok(copied) => Ok(Some(copied)),
            Err(fault) => Err(fault),
        },
        None => Ok(None),
    }
}

/// Runs the tests of a source and test scripts one after another, and prints a line for each line that failed.
fn test_all<'a>(
    rt: &HostRuntime,
    testable: &Testable<'_>,
    request: &TestRequest<'a>,
) -> Result<Results, RunFault<'a>>
    requires { IsRegion request.now.region }
{
    let copied = copied_of(rt, request.file)?;
    let mut results = match Results::new(rt.alloc(), request.coverage) {
        Ok(results) => results,
        Err(fault) => return Err(RunFault::Session(fault)),
    };
    results.run_own(rt, testable, request, &copied)?;
    for path in &request.scripts {
        let file = ScriptFile::read(rt, *path, request.junit)?;
        let script = file.script(testable.image);
        results.run(rt, &script, &copied, request.region)?;
    }
    Ok(results)
}

/// Prints how often each line of what was tested ran.
fn print_coverage<'a>(
    rt: &HostRuntime,
    testable: &Testable<'_>,
    coverage: &Coverage,
) -> Result<(), RunFault<'a>> {
    let text = match coverage_text(rt.alloc(), testable, coverage) {
        Ok(text) => text,
        Err(error) => return Err(RunFault::Session(ScriptFault::from(error))),
    };
    match print_lines(rt, &text) {
        Ok(()) => Ok(()),
        Err(fault) => Err(RunFault::Stream(fault)),
    }
}

/// Prints what test scripts came to: if required, how often each line of the text ran, and then how many lines passed and failed. Writes
/// JUnit XML if a path is given for it.
fn report_results<'a>(
    rt: &HostRuntime,
    testable: &Testable<'_>,
    request: &TestRequest<'a>,
    results: Results,
) -> Result<(), RunFault<'a>> {
    if request.coverage
        && let Err(fault) = print_coverage(rt, testable, &results.coverage)
    {
        return Err(fault);
    }
    if let Err(fault) = print_made(rt, results.counts(rt.alloc())) {
        return Err(fault);
    }
    match request.junit {
        Some(out) => write_made(rt, out, results.suites(), request.image),
        None => Ok(()),
    }
}

/// Runs the tests of a source and then test scripts, each on a new VM file in memory, or on a copy of a VM file. Prints a line for each line that failed;
/// then, if required, how often each line of the text ran; and then how many passed and failed. Writes JUnit XML if a path is given for it.
/// Returns whether none failed, and none is bad.
///
/// `RunFault::NoTests` if there is neither a test nor a script, and `StreamFault::Write` if the path leads to one of the scripts.
pub fn test<'a>(
    rt: &HostRuntime,
    testable: &Testable<'_>,
    request: &TestRequest<'a>,
) -> Result<bool, RunFault<'a>>
    requires { IsRegion request.now.region }
{
    if testable.tests.is_empty() && request.scripts.is_empty() {
        return Err(RunFault::NoTests);
    }
    let results = match test_all(rt, testable, request) {
        Ok(results) => results,
        Err(fault) => return Err(fault),
    };
    let all_passed = results.failed == 0 && !results.is_bad;
    match report_results(rt, testable, request, results) {
        Ok(()) => Ok(all_passed),
        Err(fault) => Err(fault),
    }
}
