//! A finding as an object.

use crate::parts::{cause_line, column, cure};
use geos_explain::Register;
use geos_json::JsonLines;
use line_marks::{LineMarks, Place};
use std::alloc::{AllocError, Global};

/// Whether something is refused, or only doubtful.
#[derive(Clone, Copy)]
pub enum Severity {
    Error,
    Warning,
    Note,
}

impl Severity {
    fn word(self) -> &'static str {
        match self {
            Severity::Error => "error",
            Severity::Warning => "warning",
            Severity::Note => "note",
        }
    }
}

/// The instruction that a finding is about.
#[derive(Clone, Copy)]
pub struct At<'a> {
    /// The name of its routine.
    pub routine: &'a [u8],
    /// Its pc.
    pub pc: u16,
    /// The number of the rule that refuses it, if a rule does.
    pub rule: Option<u64>,
    /// The register that the refusal is about, if it is about one.
    pub register: Option<Register>,
}

/// A message about a file, or about a line or an instruction there.
#[derive(Clone, Copy)]
pub struct Finding<'f, 'i, 'm> {
    /// The line marks of the file, if it has some.
    pub marks: Option<&'f LineMarks>,
    /// How bad it is.
    pub severity: Severity,
    /// The file.
    pub file: &'f str,
    /// The line, counted from 1.
    pub line: Option<u64>,
    /// The column in the line, counted from 1 in bytes. Otherwise the message may name it.
    pub column: Option<u64>,
    /// The instruction.
    pub at: Option<At<'i>>,
    /// The number in the text of another line that is the cause. Otherwise the message may name it.
    pub cause: Option<u64>,
    /// What helps, empty if nothing does. Otherwise the message may say it.
    pub cure: Option<&'m [u8]>,
    /// The sentence.
    pub message: &'m [u8],
}

/// The register's letter and number.
fn register_text(register: Register) -> [u8; 2] {
    let (letter, number) = match register {
        Register::Word(n) => (b'w', n),
        Register::Slot(n) => (b's', n),
        Register::Pointer(n) => (b'p', n),
    };
    [letter, b'0' + number % 8]
}

/// The rule, as V4.
fn put_rule(out: &mut JsonLines, rule: Option<u64>) {
    match rule {
        Some(rule) if rule < 10 => out.text("rule", &[b'V', b'0' + (rule % 10) as u8]),
        Some(rule) => out.text("rule", &[b'V', b'1', b'0' + (rule % 10) as u8]),
        None => out.null("rule"),
    }
}

/// The instruction, if there is one.
fn put_at(out: &mut JsonLines, at: Option<At<'_>>) {
    let Some(at) = at else {
        out.null("rule");
        out.null("routine");
        out.null("pc");
        return out.null("register");
    };
    put_rule(out, at.rule);
    out.text("routine", at.routine);
    out.number("pc", u64::from(at.pc));
    match at.register {
        Some(register) => out.text("register", &register_text(register)),
        None => out.null("register"),
    }
}

/// The file and line of a finding, by the line marks of its file.
fn place_of<'f>(finding: &Finding<'f, '_, '_>) -> Place<'f> {
    let line = finding.line.unwrap_or(0);
    match finding.marks {
        Some(marks) => marks.place(line),
        None => Place { file: None, line },
    }
}

/// The line of the cause, if it is in the file `here`.
fn cause_in(finding: &Finding<'_, '_, '_>, here: Option<&str>, message: &str) -> Option<u64> {
    match (finding.cause, finding.marks) {
        (Some(line), Some(marks)) => {
            let place = marks.place(line);
            if place.file == here {
                Some(place.line)
            } else {
                None
            }
        }
        (Some(line), None) => Some(line),
        (None, _) => cause_line(message),
    }
}

/// Writes what helps, if that is known.
fn put_cure(
    alloc: Global,
    out: &mut JsonLines,
    known: Option<&[u8]>,
    message: &str,
) -> Result<(), AllocError> {
    let told = match known {
        Some(known) => String::from_utf8_lossy(alloc, known)?,
        None => cure(alloc, message)?,
    };
    if told.is_empty() {
        out.null("cure")
    } else {
        out.text("cure", told.as_bytes())
    }
    Ok(())
}

/// The sentence of a finding in the file `here`, in which line marks name other lines.
fn said_by_marks(
    alloc: Global,
    finding: &Finding<'_, '_, '_>,
    here: Option<&str>,
) -> Result<Vec<u8>, AllocError> {
    match finding.marks {
        Some(marks) => marks.sentences(alloc, here, finding.message),
        None => Vec::from_slice(alloc, finding.message),
    }
}

/// Writes a finding. If the file has line marks, it is about the file and the line that they name.
pub fn put_finding(
    alloc: Global,
    out: &mut JsonLines,
    finding: &Finding<'_, '_, '_>,
) -> Result<(), AllocError> {
    let place = place_of(finding);
    let said = said_by_marks(alloc, finding, place.file)?;
    let message = String::from_utf8_lossy(alloc, said.trim_ascii())?;
    out.begin(finding.severity.word());
    out.text("file", place.file.unwrap_or(finding.file).as_bytes());
    out.number_or_null("line", finding.line.map(|_| place.line));
    out.number_or_null("column", finding.column.or(column(&message)));
    put_at(out, finding.at);
    out.text("message", message.as_bytes());
    out.number_or_null("cause_line", cause_in(finding, place.file, &message));
    put_cure(alloc, out, finding.cure, &message)?;
    out.end();
    Ok(())
}

/// Writes that so many more findings about a file are left out, if there are any.
pub fn put_more(out: &mut JsonLines, file: &str, more: u64) {
    if more > 0 {
        out.begin("more");
        out.text("file", file.as_bytes());
        out.number("count", more);
        out.end()
    }
}
