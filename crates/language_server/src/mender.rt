//! Edits are offered only if a trial shows that they mend a finding.

use crate::documents::Page;
use crate::edits::Mend;
use crate::findings::{Finding, Found, findings_in, found_in, lines_in, object_in};
use crate::reply::Reply;
use std::alloc::{AllocError, Global};

/// The most trials for a request.
const MOST_TRIALS: usize = 48;

/// Errors of a text.
#[derive(Clone, Copy)]
struct Errors {
    /// How many there are, beside budgets that are too low, which another edit mends.
    count: usize,
    /// Whether one of them has no rule: there is no image then.
    has_faulty: bool,
    /// Whether one has the rule and the line that were asked for.
    has_asked: bool,
    /// The most bytes of a pointer that are to be said in a line `in`.
    bytes: u64,
}

/// The bytes of a pointer that a cure says for a line `in`: 8 in `say p0=s0:8 in the in line`. Otherwise 0.
fn bytes_said(cure: &str) -> u64 {
    match cure.split_once(" in the in line") {
        Some((said, _)) if said.starts_with("say p") => match said.split_once(":") {
            Some((_, digits)) => digits.parse().unwrap_or(0),
            None => 0,
        },
        _ => 0,
    }
}

impl Errors {
    /// Takes what an object that `geos explain --json` prints says.
    fn take(&mut self, found: &Found<'_>, rule: &str, line: usize) {
        if found.kind != "error" || found.rule == "V14" {
            return;
        }
        self.count = self.count.saturating_add(1);
        self.has_faulty = self.has_faulty || found.rule.is_empty();
        let is_asked = found.line == Some(line) && found.rule == rule;
        self.has_asked = self.has_asked || is_asked;
        let said = bytes_said(found.cure);
        if said > self.bytes {
            self.bytes = said;
        }
    }
}

/// The errors among objects. They are searched for one of a rule at a line.
fn errors_in(alloc: Global, objects: &[u8], rule: &str, line: usize) -> Errors {
    let mut errors = Errors {
        count: 0,
        has_faulty: false,
        has_asked: false,
        bytes: 0,
    };
    for object in lines_in(objects).split("\n") {
        if let Some(object) = object_in(alloc, object) {
            errors.take(&found_in(&object), rule, line)
        }
    }
    errors
}

/// Tries edits of a document.
#[derive(Drop)]
pub(crate) struct Mender<'d> {
    alloc: Global,
    pub(crate) document: Page<'d>,
    /// The edits that are tried.
    pub(crate) mend: Mend,
    /// How many errors the document has.
    errors: usize,
    /// How many more edits are tried.
    left: usize,
    /// The most bytes of a pointer that are to be said in a line `in` after the last trial.
    pub(crate) bytes: u64,
}

impl<'d> Mender<'d> {
    /// Of a document with these objects.
    pub(crate) fn new(alloc: Global, document: Page<'d>, objects: &[u8]) -> Mender<'d> {
        Mender {
            alloc,
            document,
            mend: Mend::new(alloc),
            errors: errors_in(alloc, objects, "", 0).count,
            left: MOST_TRIALS,
            bytes: 0,
        }
    }

    /// The errors of the text after the edits. They are searched for one of a rule at a line.
    fn errors_after(&self, rule: &str, line: usize) -> Result<Errors, AllocError> {
        let text = self.mend.applied(self.alloc, self.document.text).finish()?;
        let objects = findings_in(self.alloc, self.document.uri, text)?;
        Ok(errors_in(self.alloc, &objects, rule, line))
    }

    /// Whether the edits mend the finding: it is gone, there is an image, and fewer errors are left.
    pub(crate) fn mends(&mut self, finding: &Finding<'_, '_>) -> bool {
        if self.left == 0 {
            return false;
        }
        self.left -= 1;
        let line = self.mend.line_after(finding.span.line).saturating_add(1);
        match self.errors_after(finding.rule, line) {
            Ok(errors) => {
                self.bytes = errors.bytes;
                !errors.has_faulty && !errors.has_asked && errors.count < self.errors
            }
            Err(AllocError) => {
                self.mend.title.fail();
                false
            }
        }
    }

    /// Writes an action that makes the edits.
    pub(crate) fn put(&self, out: &mut Reply, finding: &Finding<'_, '_>) {
        self.mend.put(out, self.document, finding)
    }
}
