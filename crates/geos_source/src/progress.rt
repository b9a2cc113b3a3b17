//! What is known of a text where its next line begins.

ghost use Rattle.std.specs.Prelude.{◌≡◌};
ghost use Rattle.geos_source.specs.Faults.{least};
ghost use Rattle.geos_source.specs.Texts.{blank, unfollowed, unfilled, drop_labels, closed, why_of, begun_by, begun};
ghost use Rattle.geos_source.specs.Texts.{misplaced_in, misplaced_out, with_in, with_out, with_entry, with_exit, take_in};
ghost use Rattle.geos_source.specs.Texts.{take_out, outside, in_body, counted, with_instr_at, take_labels, without_routine};

use crate::declarations::one_more;
use crate::fault::{BadLine, Why, at_line, first, least};
use geos_image::{Instr, MOST_INSTRS, Routine, Row};

/// A routine of a text.
#[derive(Clone, Copy)]
pub struct TextRoutine {
    /// The number of the line that begins it, from 1.
    pub line: usize,
    pub routine: Routine,
}

/// The place of the next line in the text.
#[derive(Clone, Copy)]
pub(crate) enum Part {
    /// Before the first routine.
    Outside,
    /// After the line that begins a routine, which has no instruction yet: the number of this
    /// line, and whether lines `in` and `out` have come.
    Head {
        line: usize,
        has_in: bool,
        has_out: bool,
    },
    /// After an instruction of a routine.
    Body,
}

/// What is known of the lines so far, beside the routines that are complete and the code.
#[derive(Clone, Copy)]
pub(crate) struct Progress {
    pub part: Part,
    /// The routine that has begun, where the line that begins it has no fault.
    pub current: Option<TextRoutine>,
    /// The line of the first label that no instruction follows so far.
    pub waiting: Option<usize>,
    /// The first fault so far.
    pub fault: Option<BadLine>,
}

/// Why a line is faulty, if it is.
pub(crate) fn why_of<T: Copy>(read: Result<T, Why>) -> Option<Why>
    ensures { result ≡ why_of read }
{
    match read {
        Ok(_) => None,
        Err(why) => Some(why),
    }
}

impl Part {
    /// A fault where the routine has no instruction.
    fn unfilled(self) -> Option<BadLine>
        ensures { result ≡ unfilled self }
    {
        match self {
            Part::Head { line, .. } => Some(BadLine {
                line,
                why: Why::OutOfPlace,
            }),
            Part::Outside | Part::Body => None,
        }
    }

    /// The fault of a line `in` here, if it is not allowed.
    fn misplaced_in(self) -> Option<Why>
        ensures { result ≡ misplaced_in self }
    {
        match self {
            Part::Head { has_in: false, .. } => None,
            _ => Some(Why::OutOfPlace),
        }
    }

    /// The fault of a line `out` here, if it is not allowed.
    fn misplaced_out(self) -> Option<Why>
        ensures { result ≡ misplaced_out self }
    {
        match self {
            Part::Head { has_out: false, .. } => None,
            _ => Some(Why::OutOfPlace),
        }
    }

    fn with_in(self) -> Part
        ensures { result ≡ with_in self }
    {
        match self {
            Part::Head { line, has_out, .. } => Part::Head {
                line,
                has_in: true,
                has_out,
            },
            other => other,
        }
    }

    fn with_out(self) -> Part
        ensures { result ≡ with_out self }
    {
        match self {
            Part::Head { line, has_in, .. } => Part::Head {
                line,
                has_in,
                has_out: true,
            },
            other => other,
        }
    }

    /// The fault of an instruction here, if it is not allowed.
    fn outside(self) -> Option<Why>
        ensures { result ≡ outside self }
    {
        match self {
            Part::Outside => Some(Why::OutOfPlace),
            _ => None,
        }
    }

    fn in_body(self) -> Part
        ensures { result ≡ in_body self }
    {
        match self {
            Part::Outside => Part::Outside,
            _ => Part::Body,
        }
    }

    /// A fault where the text has no routine.
    pub(crate) fn without_routine(self) -> Option<BadLine>
        ensures { result ≡ without_routine self }
    {
        match self {
            Part::Outside => Some(BadLine {
                line: 1,
                why: Why::OutOfPlace,
            }),
            _ => None,
        }
    }
}

fn unfollowed(waiting: Option<usize>) -> Option<BadLine>
    ensures { result ≡ unfollowed waiting }
{
    match waiting {
        None => None,
        Some(line) => Some(BadLine {
            line,
            why: Why::OutOfPlace,
        }),
    }
}

fn begun_by(line: usize, read: Result<Routine, Why>, why: Option<Why>) -> Option<TextRoutine>
    ensures { result ≡ begun_by line read why }
{
    match (read, why) {
        (Ok(routine), None) => Some(TextRoutine { line, routine }),
        _ => None,
    }
}

fn with_entry(read: Result<Row, Why>, current: Option<TextRoutine>) -> Option<TextRoutine>
    ensures { result ≡ with_entry read current }
{
    match (read, current) {
        (Ok(entry), Some(TextRoutine { line, routine })) => Some(TextRoutine {
            line,
            routine: Routine { entry, ..routine },
        }),
        (_, current) => current,
    }
}

fn with_exit(read: Result<Row, Why>, current: Option<TextRoutine>) -> Option<TextRoutine>
    ensures { result ≡ with_exit read current }
{
    match (read, current) {
        (Ok(exit), Some(TextRoutine { line, routine })) => Some(TextRoutine {
            line,
            routine: Routine { exit, ..routine },
        }),
        (_, current) => current,
    }
}

/// The routine with one more instruction, where the instruction has no fault.
fn counted(why: Option<Why>, current: Option<TextRoutine>) -> Option<TextRoutine>
    ensures { result ≡ counted why current }
{
    match (why, current) {
        (None, Some(TextRoutine { line, routine })) => Some(TextRoutine {
            line,
            routine: Routine {
                count: one_more(routine.count, MOST_INSTRS),
                ..routine
            },
        }),
        (_, current) => current,
    }
}

impl Progress {
    /// Before the first line.
    pub(crate) fn new() -> Progress
        ensures { result ≡ blank.progress }
    {
        Progress {
            part: Part::Outside,
            current: None,
            waiting: None,
            fault: None,
        }
    }

    /// The labels so far are followed by no instruction.
    pub(crate) fn drop_labels(self) -> Progress
        ensures { result ≡ drop_labels self }
    {
        Progress {
            waiting: None,
            fault: first(self.fault, unfollowed(self.waiting)),
            ..self
        }
    }

    /// The routine that has begun is complete.
    pub(crate) fn close(self) -> Progress
        ensures { result ≡ closed self }
    {
        let dropped = self.drop_labels();
        Progress {
            current: None,
            fault: first(dropped.fault, dropped.part.unfilled()),
            ..dropped
        }
    }

    /// A routine begins, faulty or not.
    pub(crate) fn begin(
        self,
        line: usize,
        read: Result<Routine, Why>,
        full: Option<Why>,
    ) -> Progress
        ensures { result ≡ begun line read full self }
    {
        let why = least(why_of(read), full);
        Progress {
            part: Part::Head {
                line,
                has_in: false,
                has_out: false,
            },
            current: begun_by(line, read, why),
            fault: first(self.fault, at_line(line, why)),
            ..self
        }
    }

    /// A line `in`.
    pub(crate) fn take_in(self, line: usize, read: Result<Row, Why>) -> Progress
        ensures { result ≡ take_in line read self }
    {
        let why = least(why_of(read), self.part.misplaced_in());
        Progress {
            part: self.part.with_in(),
            current: with_entry(read, self.current),
            fault: first(self.fault, at_line(line, why)),
            ..self
        }
    }

    /// A line `out`.
    pub(crate) fn take_out(self, line: usize, read: Result<Row, Why>) -> Progress
        ensures { result ≡ take_out line read self }
    {
        let why = least(why_of(read), self.part.misplaced_out());
        Progress {
            part: self.part.with_out(),
            current: with_exit(read, self.current),
            fault: first(self.fault, at_line(line, why)),
            ..self
        }
    }

    /// The fault of an instruction here; the code may be full.
    pub(crate) fn why_of_instr(self, read: Result<Instr, Why>, full: Option<Why>) -> Option<Why>
        ensures { result ≡ least (why_of read) (least full (outside self.part)) }
    {
        least(why_of(read), least(full, self.part.outside()))
    }

    /// An instruction, faulty or not.
    pub(crate) fn take_instr(self, line: usize, why: Option<Why>) -> Progress
        ensures { result ≡ with_instr_at line why self }
    {
        Progress {
            part: self.part.in_body(),
            current: counted(why, self.current),
            waiting: None,
            fault: first(self.fault, at_line(line, why)),
        }
    }

    /// Labels, if there are some, wait for an instruction.
    pub(crate) fn take_labels(self, line: usize, has_labels: bool) -> Progress
        ensures { result ≡ take_labels line has_labels self }
    {
        if !has_labels || self.waiting.is_some() {
            return self;
        }
        Progress {
            waiting: Some(line),
            ..self
        }
    }
}
