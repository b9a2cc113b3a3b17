//! Labels, routines and other words of texts.

use crate::positions::{Span, line_of};
use crate::reply::Reply;

/// Whether the byte may be in a name.
fn is_of_name(byte: u8) -> bool {
    byte.is_ascii_alphanumeric() || byte == b'_'
}

/// A line without its comment, which begins with `//` in a source, and with `;` in an assembly text.
pub(crate) fn code_of(is_source: bool, line: &str) -> &str {
    match line.split_once(if is_source { "//" } else { ";" }) {
        Some((code, _comment)) => code,
        None => line,
    }
}

/// The word of a line with a byte at this offset or before it.
pub(crate) fn word_at<'t>(line: usize, text: &'t str, at: usize) -> Option<Span<'t>> {
    // Where the word begins that the bytes so far end with.
    let mut start: usize = 0;
    let mut end: usize = 0;
    for byte in text.bytes() {
        let is_of_word = is_of_name(byte);
        if !is_of_word && end >= at {
            break;
        }
        end = end.saturating_add(1);
        if !is_of_word {
            start = end;
        }
    }
    if start < end {
        Some(Span {
            line,
            text,
            start,
            end,
        })
    } else {
        None
    }
}

impl<'t> Span<'t> {
    /// The part of the line.
    pub(crate) fn words(&self) -> &'t str {
        self.text.get(self.start..self.end).unwrap_or("")
    }
}

/// What a name is the name of.
#[derive(Clone, Copy, PartialEq)]
pub(crate) enum NameKind {
    Label,
    Routine,
}

/// A word of a text that is a name.
#[derive(Clone, Copy)]
pub(crate) struct NameUse<'t> {
    pub(crate) kind: NameKind,
    /// Whether the name is defined there.
    pub(crate) defines: bool,
    pub(crate) span: Span<'t>,
}

/// The next word of a line from an offset on.
pub(crate) fn next_word<'t>(line: usize, code: &'t str, from: usize) -> Option<Span<'t>> {
    let mut first = from;
    for byte in code.get(from..)?.bytes() {
        if is_of_name(byte) {
            return word_at(line, code, first);
        }
        first = first.saturating_add(1);
    }
    None
}

/// The names of a line: the labels before its instruction, the name of a routine after `routine` or `CALL`, and its last word
/// otherwise, which is the target of a branch if it is one.
#[derive(Drop)]
pub(crate) struct Names<'t> {
    line: usize,
    code: &'t str,
    /// Where the next word is searched.
    from: usize,
    /// The word that was found last.
    before: &'t str,
    /// Whether labels may come.
    in_front: bool,
}

impl<'t> Names<'t> {
    /// The names of a line without its comment.
    pub(crate) fn of(line: usize, code: &'t str) -> Names<'t> {
        Names {
            line,
            code,
            from: 0,
            before: "",
            in_front: true,
        }
    }

    /// What a word is, if it may be a name.
    fn name_of(&mut self, span: Span<'t>) -> Option<NameUse<'t>> {
        let is_label = self.in_front && self.code.as_bytes().get(span.end) == Some(&b':');
        let after_opcode = !self.in_front;
        self.in_front = is_label;
        let (kind, defines) = match self.before {
            _ if is_label => (NameKind::Label, true),
            "routine" => (NameKind::Routine, true),
            "CALL" => (NameKind::Routine, false),
            _ if after_opcode => (NameKind::Label, false),
            _ => return None,
        };
        Some(NameUse {
            kind,
            defines,
            span,
        })
    }

    /// The next word, if it may be a name; `None` at the end of the line.
    pub(crate) fn next_word(&mut self) -> Option<Option<NameUse<'t>>> {
        let span = next_word(self.line, self.code, self.from)?;
        let found = self.name_of(span);
        self.from = span.end;
        self.before = span.words();
        Some(found)
    }
}

/// The names of an assembly text, in its order. If an allocation is refused, that is noted, and some are left out.
pub(crate) fn names_in<'t>(out: &mut Reply, text: &'t str) -> Vec<NameUse<'t>> {
    let mut found = Vec::new(out.alloc);
    for (number, line) in text.split("\n").enumerate() {
        let mut names = Names::of(number, code_of(false, line));
        // Each word has at least a byte.
        for _ in 0..line.len() {
            match names.next_word() {
                Some(Some(name)) if found.push(name).is_err() => out.fail(),
                Some(_) => {}
                None => break,
            }
        }
    }
    found
}

/// The name at a place of an assembly text.
pub(crate) fn name_at(text: &str, number: usize, at: usize) -> Option<NameUse<'_>> {
    let line = line_of(text, number);
    let mut names = Names::of(number, code_of(false, line));
    for _ in 0..line.len() {
        match names.next_word()? {
            Some(name) if name.span.start <= at && at <= name.span.end => return Some(name),
            _ => {}
        }
    }
    None
}
