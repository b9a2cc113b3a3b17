//! Edits that mend a finding.

use crate::asked::Asked;
use crate::documents::Page;
use crate::edits::Mend;
use crate::findings::{Finding, findings_of, found_in, lines_in, object_in};
use crate::insertions::mends_by_insertion;
use crate::mender::Mender;
use crate::positions::Span;
use crate::reply::Reply;
use crate::rows::put_rows;
use std::alloc::AllocError;

/// Replaces a part of a line by a word, which ends the title.
fn replace(mend: &mut Mend, title: &str, span: &Span<'_>, new: &str) {
    mend.begin(title);
    mend.title.raw(new);
    mend.first.begin(span.line, span.start, span.end);
    mend.first.new.raw(new)
}

/// Writes an action for the word that a cure says in place of the one at the column of the finding.
fn put_other_word(out: &mut Reply, mender: &mut Mender<'_>, finding: &Finding<'_, '_>) {
    if let Some(new) = finding.cure.strip_prefix("say ")
        && finding.message.contains(" is no instruction")
        && !new.contains(" ")
    {
        replace(&mut mender.mend, "Replace by ", &finding.span, new);
        mender.put(out, finding)
    }
}

/// How many digits a text begins with.
fn digits_in(text: &str) -> usize {
    let mut digits: usize = 0;
    for byte in text.bytes() {
        if !byte.is_ascii_digit() {
            break;
        }
        digits = digits.saturating_add(1);
    }
    digits
}

/// The budget in the last line `routine` at this line or before it.
fn budget_at(text: &str, line: usize) -> Option<Span<'_>> {
    let mut found = None;
    for (number, text) in text.split("\n").enumerate() {
        if number > line {
            break;
        }
        if text.trim_start().starts_with("routine ")
            && let Some((_, after)) = text.split_once("budget ")
        {
            let start = text.len().saturating_sub(after.len());
            found = Some(Span {
                line: number,
                text,
                start,
                end: start.saturating_add(digits_in(after)),
            })
        }
    }
    found
}

/// Writes an action for the least budget in the line of the routine.
fn put_least_budget(out: &mut Reply, mender: &mut Mender<'_>, finding: &Finding<'_, '_>) {
    if let Some((_, least)) = finding.message.split_once("the least budget is ")
        && let Some(budget) = budget_at(mender.document.text, finding.span.line)
    {
        replace(&mut mender.mend, "Set the budget ", &budget, least);
        mender.put(out, finding)
    }
}

/// Writes the actions that mend a finding.
fn put_mends(out: &mut Reply, mender: &mut Mender<'_>, finding: &Finding<'_, '_>) {
    put_other_word(out, mender, finding);
    put_least_budget(out, mender, finding);
    if !mender.document.is_source() {
        if mends_by_insertion(mender, finding) {
            mender.put(out, finding)
        }
        put_rows(out, mender, finding)
    }
}

/// Writes the actions that mend the finding that an object of `geos explain --json` is, if it is one about a line from the first to the last.
fn put_mends_of(out: &mut Reply, mender: &mut Mender<'_>, line: &str, first: usize, last: usize) {
    if let Some(object) = object_in(out.alloc, line)
        && let Some(finding) = Finding::of(mender.document, &found_in(&object))
        && first <= finding.span.line
        && finding.span.line <= last
    {
        put_mends(out, mender, &finding)
    }
}

/// `textDocument/codeAction`: actions for the findings within the lines of the request that edits mend.
pub(crate) fn put_actions(out: &mut Reply, document: Page<'_>, asked: &Asked<'_>) {
    out.begin_items("");
    match findings_of(out.alloc, document) {
        Ok(objects) => {
            let mut mender = Mender::new(out.alloc, document, &objects);
            for line in lines_in(&objects).split("\n") {
                put_mends_of(out, &mut mender, line, asked.first, asked.last)
            }
            if mender.mend.has_failed() {
                out.fail()
            }
        }
        Err(AllocError) => out.fail(),
    }
    out.raw("]")
}
