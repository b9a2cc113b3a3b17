//! What is wrong with the bad lines of a script that was not run, and which of its calls are probably not meant.

use crate::fault::RunFault;
use crate::manner::Manner;
use geos_cli::ScriptFault;
use geos_json::JsonLines;
use geos_lints::{DoubtfulCall, DoubtfulCalls, doubtful_calls};
use geos_scripts::diagnose_bad_lines;
use geos_shell::{Named, print, tell};
use geos_verify::check;
use json_findings::{Finding, Severity, put_finding, put_more};
use sentence_text::Text;
use std::alloc::{AllocError, Global};

/// A path as messages have it.
pub(crate) fn printed_path(alloc: Global, path: &str) -> Result<String, AllocError> {
    let path = Named(path);
    format!(in alloc; "{path}")
}

/// Writes the warning about a call of the script with the path as an object.
fn put_doubtful(
    alloc: Global,
    out: &mut JsonLines,
    path: &str,
    call: &DoubtfulCall,
) -> Result<(), AllocError> {
    put_finding(
        alloc,
        out,
        &Finding {
            marks: None,
            severity: Severity::Warning,
            file: path,
            line: Some(call.line as u64),
            column: None,
            at: None,
            cause: None,
            cure: Some(&call.advice.cure),
            message: &call.advice.sentence(alloc)?,
        },
    )
}

/// Warnings about calls of the script with the path, as objects.
fn warning_objects(
    alloc: Global,
    path: &str,
    calls: &DoubtfulCalls,
) -> Result<Vec<u8>, AllocError> {
    let mut out = JsonLines::new(alloc);
    for call in &calls.list {
        put_doubtful(alloc, &mut out, path, call)?;
    }
    put_more(&mut out, path, calls.more as u64);
    out.finish()
}

/// Writes the warning about a call of a script as a line.
fn put_warning(told: &mut Text, file: &str, call: &DoubtfulCall) {
    let DoubtfulCall { line, advice } = call;
    told.put(file);
    told.put_number(":", *line as u64);
    told.put(": warning: ");
    told.put_bytes(&advice.fact);
    if !advice.cure.is_empty() {
        told.put(": ");
        told.put_bytes(&advice.cure);
    }
    told.put("\n")
}

/// The same as lines `FILE:LINE: warning: ..`.
fn warning_lines(alloc: Global, path: &str, calls: &DoubtfulCalls) -> Result<Vec<u8>, AllocError> {
    let file = printed_path(alloc, path)?;
    let mut told = Text::new(alloc);
    for call in &calls.list {
        put_warning(&mut told, &file, call);
    }
    if calls.more > 0 {
        told.put(&file);
        told.put_number(": note: and ", calls.more as u64);
        told.put(" more warnings\n");
    }
    told.finish()
}

/// A script that is run with an image.
#[derive(Clone, Copy)]
pub(crate) struct Script<'s> {
    /// The path of the script.
    pub(crate) path: &'s str,
    pub(crate) bytes: &'s [u8],
    /// The bytes of the image.
    pub(crate) image: &'s [u8],
}

impl Script<'_> {
    /// Its calls that are probably not meant. `None` if the verifier refuses the image, or if there is no memory.
    fn doubtful_calls(&self, alloc: Global) -> Option<DoubtfulCalls> {
        let Ok(image) = geos_image::read(alloc, self.image) else {
            return None;
        };
        let Ok(checked) = check(image) else {
            return None;
        };
        match doubtful_calls(alloc, checked.image(), self.bytes) {
            Ok(calls) => Some(calls),
            Err(AllocError) => None,
        }
    }

    /// Warns of its calls that are probably not meant, if that is required. Nothing if there is no memory for it.
    pub(crate) fn warn(&self, rt: &HostRuntime, manner: &Manner) {
        if !manner.reports.warnings {
            return;
        }
        let alloc = rt.alloc();
        let Some(calls) = self.doubtful_calls(alloc) else {
            return;
        };
        if !manner.reports.json {
            if let Ok(told) = warning_lines(alloc, self.path, &calls) {
                tell(rt, manner.reports, &told);
            }
        } else if let Ok(objects) = warning_objects(alloc, self.path, &calls) {
            // If the standard output fails, what follows reports it.
            let _ = print(rt, &objects);
        }
    }

    /// Diagnostics on its bad lines. If a line is bad only with the words that its names have in the run, only this line is named.
    fn diagnostics(
        &self,
        alloc: Global,
        manner: &Manner,
        line: usize,
    ) -> Result<Vec<u8>, AllocError> {
        let file = printed_path(alloc, self.path)?;
        let told = diagnose_bad_lines(alloc, &file, self.image, self.bytes, manner.names);
        let Ok(told) = told else {
            return Err(AllocError);
        };
        if !told.is_empty() {
            return Ok(told);
        }
        let mut told = Text::new(alloc);
        told.put(&file);
        told.put_number(":", line as u64);
        told.put(
            ": error: a name in this line has no word, or one that the routine does not admit: no earlier call outputs the right word\n",
        );
        told.finish()
    }

    /// What the script came to, with diagnostics if lines of it are bad and these are required.
    pub(crate) fn diagnosed<'a>(
        &self,
        alloc: Global,
        manner: &Manner,
        ran: Result<(), RunFault<'a>>,
    ) -> Result<(), RunFault<'a>> {
        match ran {
            Err(RunFault::Session(ScriptFault::BadScript(line))) if manner.reports.diagnostics => {
                let told = match self.diagnostics(alloc, manner, line) {
                    Ok(told) => told,
                    Err(_) => Vec::new(alloc),
                };
                Err(RunFault::BadLines(ScriptFault::BadScript(line), told))
            }
            ran => ran,
        }
    }
}
