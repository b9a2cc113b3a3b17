//! What the words on the command line request.

use crate::colours::are_wanted;
use crate::copying::CopyRequest;
use crate::diffing::DiffRequest;
use crate::dumping::DumpRequest;
use crate::forms::{EndCommit, OutputForm};
use crate::given::Given;
use crate::language::Language;
use crate::making::New;
use crate::prompting::ShellRequest;
use crate::run_limits::RunLimits;
use crate::step_choice::StepChoice;
use std::io::IsTerminal;

/// A call of the routine with the name, on these numbers, and on the blocks after them.
#[derive(Drop)]
pub struct CallWords<'a> {
    pub name: &'a str,
    pub words: Vec<&'a str>,
}

/// A call of which notes are taken, and what is printed of it.
#[derive(Drop)]
pub struct TraceWords<'a> {
    pub call: CallWords<'a>,
    /// The routine whose steps are printed; with none, those of all are.
    pub only: Option<&'a str>,
    /// How many steps precede the first one that is printed.
    pub skipped: u32,
    /// The number of the last step that is printed.
    pub steps: u32,
    /// Which of these steps are printed, by what they do.
    pub choice: StepChoice<'a>,
    /// Whether it is printed how often each line ran, in place of steps.
    pub count: bool,
    /// The path that a page goes to, if one is made in place of lines.
    pub page: Option<&'a str>,
}

/// A chunk of a block of a VM file, or an item of a group.
#[derive(Clone, Copy)]
pub struct ChunkPath<'a> {
    pub file: &'a str,
    /// The handle of the block or group.
    pub handle: u16,
    /// The handle of the chunk or item.
    pub chunk: u16,
    /// Whether it is an item.
    pub item: bool,
}

/// Rows of fields.
#[derive(Clone, Copy)]
pub struct Rows<'a> {
    /// The path that they are read of; empty if they are printed.
    pub path: &'a str,
    /// The fields of each; without them, a row has any bytes.
    pub fields: Option<&'a str>,
}

/// To write bytes into a chunk of a VM file, and to update that.
#[derive(Clone, Copy)]
pub struct PutRequest<'a> {
    /// The chunk, of which only the file is known if it is made.
    pub chunk: ChunkPath<'a>,
    /// The offset from which bytes are overwritten; with none, all are replaced.
    pub at: Option<u16>,
    /// What is made.
    pub new: Option<New>,
    /// The rows that become the elements of the chunk, an array, in place of bytes.
    pub array: Option<Rows<'a>>,
    /// How many bytes blocks in memory have.
    pub region: u32,
}

/// To print the bytes of a chunk of a VM file.
#[derive(Clone, Copy)]
pub struct GetRequest<'a> {
    pub chunk: ChunkPath<'a>,
    /// The rows that the elements of the chunk, an array, are printed as, in place of its bytes.
    pub array: Option<Rows<'a>>,
    /// How many bytes blocks in memory have.
    pub region: u32,
}

/// To run routines of a text or an image.
#[derive(Drop)]
pub enum RoutineRequest<'a> {
    /// To run the session on the standard input.
    Session,
    /// To run one call of a text's or an image's routines, or with none the script on the standard input; on a VM file, or with none on
    /// one in memory, with so many bytes for blocks in memory; a script to its end, or, strictly, to its first refused command. Its lines may
    /// say what they are to print, or may not.
    Call {
        image: &'a str,
        call: Option<CallWords<'a>>,
        file: Option<&'a str>,
        region: u32,
        strict: bool,
        expect: bool,
        form: OutputForm,
        commit: Option<EndCommit>,
    },
    /// To run one call, and to print its steps, or how often each line ran; on a VM file, or with none on one in memory, with so many
    /// bytes for blocks in memory.
    Trace {
        image: &'a str,
        words: TraceWords<'a>,
        file: Option<&'a str>,
        region: u32,
    },
    /// To run a script on a VM file, with so many bytes for blocks in memory; to its end, or, strictly, to
    /// its first refused command. Its lines may write names for words, or may not, and may say what they are to print, or may not.
    Run {
        image: &'a str,
        file: &'a str,
        script: &'a str,
        region: u32,
        strict: bool,
        expect: bool,
        names: bool,
        form: OutputForm,
        commit: Option<EndCommit>,
    },
}

/// To run scripts whose lines say what they are to print, with a text or an image; each on a copy of a VM file in memory, or with none on a
/// new one, with so many bytes for blocks in memory.
#[derive(Drop)]
pub struct TestRequest<'a> {
    pub image: &'a str,
    pub scripts: Vec<&'a str>,
    pub file: Option<&'a str>,
    pub region: u32,
    /// The path that what they came to goes to as JUnit XML, if that is required.
    pub junit: Option<&'a str>,
    /// Whether it is printed how often each line of the text or the image ran.
    pub coverage: bool,
}

/// To make something of a text or an image, or to say something of it. Nothing runs.
#[derive(Drop)]
pub enum TextRequest<'a> {
    /// To make the image of a text, with all rows or with those at its key places.
    Assemble {
        text: &'a str,
        image: &'a str,
        all_rows: bool,
    },
    /// To write a text with the least budgets.
    Budget(NewText<'a>),
    /// To write a text with its words in columns.
    Format(NewText<'a>),
    /// To print the listing of an image, perhaps with the lines of its source.
    List {
        image: &'a str,
        assembly: bool,
    },
    /// To say whether an image may run.
    Check(&'a str),
    /// To print the explanation of an image.
    Explain(&'a str),
    /// To make a page of the explanation.
    Page(PagePaths<'a>),
    /// To print what is wrong with the bad lines of a script, for an image. Its lines may write names for words, or may not.
    ExplainScript {
        image: &'a str,
        script: &'a str,
        names: bool,
    },
}

/// A page, and what it is made of.
#[derive(Clone, Copy)]
pub struct PagePaths<'a> {
    /// The path that is read.
    pub shown: &'a str,
    /// The path that the page goes to.
    pub page: &'a str,
}

/// A text that is made of another one, with another path, or in its own place.
#[derive(Clone, Copy)]
pub struct NewText<'a> {
    /// The path of the text that is read.
    pub text: &'a str,
    /// The path that is written, which is `text` if it is made in its place.
    pub new: &'a str,
    /// Whether it takes the place of what it is made of.
    pub in_place: bool,
}

/// To make or copy a VM file, to write into it, or to show it.
#[derive(Drop)]
pub enum FileRequest<'a> {
    /// To make a VM file with areas of so many bytes, a legal area size.
    New { file: &'a str, area: u32 },
    /// To copy a VM file.
    Copy(CopyRequest<'a>),
    /// To write bytes into a chunk of a VM file, and to update that.
    Put(PutRequest<'a>),
    /// To print the bytes of a chunk.
    Get(GetRequest<'a>),
    /// To print a VM file.
    Dump(DumpRequest<'a>),
    /// To print what differs between two VM files.
    Diff(DiffRequest<'a>),
    /// To draw a VM file in so many columns.
    Map { file: &'a str, width: u32 },
    /// To make a page of a VM file.
    Page(PagePaths<'a>),
}

/// The request that the words on the command line make. A path of `-` is a standard stream, except that of a VM
/// file.
#[derive(Drop)]
pub enum Request<'a> {
    /// To run routines.
    Routines(RoutineRequest<'a>),
    /// To run test scripts.
    Test(TestRequest<'a>),
    /// To work on a text or an image.
    Text(TextRequest<'a>),
    /// To work on a VM file.
    File(FileRequest<'a>),
    /// To answer lines one after another.
    Shell(ShellRequest<'a>),
    /// To serve an editor by the Language Server Protocol, on the standard streams.
    Serve,
}

/// A request, and what is reported on standard error beside its faults.
#[derive(Drop)]
pub struct Asked<'a> {
    /// What is to be done.
    pub request: Request<'a>,
    /// What is tested of routines before they run.
    pub limits: RunLimits<'a>,
    /// What is reported on standard error.
    pub reports: Reports,
    /// The language of the text that is read.
    pub language: Language,
    /// Whether standard error goes into a file that the request reads or works on, or into a VM file or an image that it is to write: a
    /// message would become part of the file.
    pub has_faults: bool,
}

/// What is reported on standard error beside the line of a fault.
#[derive(Clone, Copy)]
pub struct Reports {
    /// Lines that say more of a fault, and of changes that are lost.
    pub diagnostics: bool,
    /// Warnings about texts.
    pub warnings: bool,
    /// Whether all these are coloured.
    pub colours: bool,
    /// Whether results, findings and warnings are JSON objects on the standard output, in place of diagnostics.
    pub json: bool,
}

impl Reports {
    /// Which reports are printed: JSON, or diagnostics if `--diagnostics` is given or standard
    /// error is a terminal; with either of them warnings, unless `--no-warnings` is given.
    pub(crate) fn of(rt: &HostRuntime, given: &Given<'_, '_>) -> Reports {
        let json = given.flag("json");
        let diagnostics = !json && (given.flag("diagnostics") || rt.stderr().is_terminal());
        Reports {
            diagnostics,
            warnings: (json || diagnostics) && !given.flag("no-warnings"),
            colours: are_wanted(rt, given.word("color")),
            json,
        }
    }
}
