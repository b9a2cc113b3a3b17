//! Edits of a document.

use crate::documents::Page;
use crate::findings::Finding;
use crate::positions::{Span, put_range};
use crate::reply::Reply;
use std::alloc::Global;

/// The number of a line that no text has.
pub(crate) const NO_LINE: usize = usize::MAX;

/// A part of a line, and the text that replaces it.
#[derive(Drop)]
pub(crate) struct Edit {
    /// The number of the line, counted from 0.
    line: usize,
    /// The offset of its first byte, and that of the byte after its last one.
    start: usize,
    end: usize,
    /// The new text.
    pub(crate) new: Reply,
}

impl Edit {
    /// No edit.
    fn new(alloc: Global) -> Edit {
        Edit {
            line: NO_LINE,
            start: 0,
            end: 0,
            new: Reply::new(alloc),
        }
    }

    /// Begins an edit of this part of a line. Its new text follows.
    pub(crate) fn begin(&mut self, line: usize, start: usize, end: usize) {
        self.line = line;
        self.start = start;
        self.end = end;
        self.new.clear()
    }

    /// Writes the line as it is after the edit.
    fn put_line(&self, out: &mut Reply, line: &str) {
        out.raw(line.get(..self.start).unwrap_or(""));
        out.bytes(self.new.written());
        out.raw(line.get(self.end..).unwrap_or(""))
    }

    /// How many lines it adds before the end of a line.
    fn lines_before(&self, line: usize) -> usize {
        let mut lines: usize = 0;
        if self.line <= line {
            for byte in self.new.written() {
                if *byte == b'\n' {
                    lines = lines.saturating_add(1);
                }
            }
        }
        lines
    }

    /// Writes it as the protocol's edit, after a part.
    fn put(&self, out: &mut Reply, document: Page<'_>, part: &str) {
        let span = Span {
            line: self.line,
            text: document.line(self.line),
            start: self.start,
            end: self.end,
        };
        put_range(out, part, &span);
        out.quoted_bytes(",\"newText\":", self.new.written());
        out.raw("}")
    }
}

/// At most two edits that together mend a finding, in two lines. If an allocation is refused, its texts note that.
#[derive(Drop)]
pub(crate) struct Mend {
    /// What an editor calls it.
    pub(crate) title: Reply,
    pub(crate) first: Edit,
    pub(crate) second: Edit,
}

impl Mend {
    /// No edit.
    pub(crate) fn new(alloc: Global) -> Mend {
        Mend {
            title: Reply::new(alloc),
            first: Edit::new(alloc),
            second: Edit::new(alloc),
        }
    }

    /// Begins with this title, and forgets the edits.
    pub(crate) fn begin(&mut self, title: &str) {
        self.title.clear();
        self.title.raw(title);
        self.first.line = NO_LINE;
        self.second.line = NO_LINE;
    }

    /// Whether an allocation was refused.
    pub(crate) fn has_failed(&self) -> bool {
        self.title.has_failed() || self.first.new.has_failed() || self.second.new.has_failed()
    }

    /// The text after the edits.
    pub(crate) fn applied(&self, alloc: Global, text: &str) -> Reply {
        let mut new = Reply::new(alloc);
        for (number, line) in text.split("\n").enumerate() {
            new.raw(if number == 0 { "" } else { "\n" });
            if number == self.first.line {
                self.first.put_line(&mut new, line)
            } else if number == self.second.line {
                self.second.put_line(&mut new, line)
            } else {
                new.raw(line)
            }
        }
        new
    }

    /// The number that the end of a line has after the edits.
    pub(crate) fn line_after(&self, line: usize) -> usize {
        line.saturating_add(self.first.lines_before(line))
            .saturating_add(self.second.lines_before(line))
    }

    /// Writes an action that makes the edits.
    pub(crate) fn put(&self, out: &mut Reply, document: Page<'_>, finding: &Finding<'_, '_>) {
        out.item();
        out.quoted_bytes("{\"title\":", self.title.written());
        out.raw(",\"kind\":\"quickfix\",\"diagnostics\":[");
        finding.put(out, document);
        out.quoted("],\"edit\":{\"changes\":{", document.uri);
        self.first.put(out, document, ":[{\"range\":");
        if self.second.line != NO_LINE {
            self.second.put(out, document, ",{\"range\":")
        }
        out.raw("]}}}")
    }
}
