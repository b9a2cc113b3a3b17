//! Instructions that are inserted before a line.

use crate::edits::Mend;
use crate::findings::Finding;
use crate::heads::{end_label, head_at, instruction_in};
use crate::mender::Mender;
use crate::names::code_of;
use crate::positions::Span;
use crate::reply::Reply;

/// How an instruction begins that a cure says to insert.
const INSERTED: [&str; 4] = ["VDIRTY s", "IDIRTY s", "CHK w", "SNE s"];

/// The instruction that a part of a cure says to insert: `CHK w2 7 L` in `CHK w2 7 L before this bounds it`. Empty if it says none.
fn inserted_by(part: &str) -> &str {
    if let Some((code, _)) = part.split_once(" before this ") {
        for begin in &INSERTED {
            if code.starts_with(*begin) {
                return code;
            }
        }
    }
    ""
}

/// Whether a cure says to insert an instruction that ends so.
fn cure_has(cure: &str, end: &str) -> bool {
    for part in cure.split("; ") {
        let code = inserted_by(part);
        if !code.is_empty() && code.ends_with(end) {
            return true;
        }
    }
    false
}

/// Writes an instruction, with a label in the place of its `L`.
fn put_code(out: &mut Reply, code: &str, label: &str) {
    match code.strip_suffix(" L") {
        Some(operands) => {
            out.raw(operands);
            out.raw(" ");
            out.raw(label)
        }
        None => out.raw(code),
    }
}

/// Writes what puts the code after this at the same column.
fn put_indentation(out: &mut Reply, before: &str) {
    for byte in before.bytes() {
        out.raw(if byte == b'\t' { "\t" } else { " " })
    }
}

/// Writes the instructions that a cure says to insert before another one.
fn put_insertion(mend: &mut Mend, before: &Span<'_>, cure: &str, label: &str) {
    mend.begin("Insert");
    mend.first.begin(before.line, before.start, before.start);
    let indentation = before.text.get(..before.start).unwrap_or("");
    let mut is_first = true;
    for part in cure.split("; ") {
        let code = inserted_by(part);
        if !code.is_empty() {
            mend.title.raw(if is_first { " " } else { ", " });
            put_code(&mut mend.title, code, label);
            put_code(&mut mend.first.new, code, label);
            mend.first.new.raw("\n");
            put_indentation(&mut mend.first.new, indentation);
            is_first = false;
        }
    }
}

/// The most labels that are tried.
const MOST_LABELS: usize = 8;

/// Whether a finding is mended if the instructions of its cure are inserted before its own. A label is one after which the routine only
/// unlocks and returns.
pub(crate) fn mends_by_insertion(mender: &mut Mender<'_>, finding: &Finding<'_, '_>) -> bool {
    let document = mender.document;
    let line = finding.span.line;
    let cure = finding.cure;
    let text = document.text;
    let code = code_of(false, document.line(line));
    let (Some(head), Some(before)) = (head_at(text, line), instruction_in(line, code)) else {
        return false;
    };
    if !cure_has(cure, " L") {
        put_insertion(&mut mender.mend, &before, cure, "");
        return cure_has(cure, "") && mender.mends(finding);
    }
    for n in 0..MOST_LABELS {
        let label = end_label(text, head.routine, n);
        if label.is_empty() {
            break;
        }
        put_insertion(&mut mender.mend, &before, cure, label);
        if mender.mends(finding) {
            return true;
        }
    }
    false
}
