//! What is printed of a test script.

ghost use Rattle.std.specs.Prelude.{IsTrue};
ghost use Rattle.script_tests.specs.Expected.{Passes};

use crate::lines::TestLine;
use crate::printed::is_printed;
use crate::script::Part;
use crate::suite::put_attribute;
use geos_text::{first_line, is_blank};
use sentence_text::Text;
use std::alloc::Global;

/// What is reported of a test script, as it runs.
#[derive(Drop)]
pub(crate) struct Report<'p> {
    /// The path of the script, as it is printed.
    path: &'p str,
    /// What the script is of the file with the path.
    part: Part<'p>,
    /// A line for each line that failed.
    pub(crate) told: Text,
    /// A suite of JUnit XML, with a case for each line with `=>`, and for each bad line.
    pub(crate) suite: Text,
    /// Whether a line is bad.
    pub(crate) is_bad: bool,
}

/// Writes the words that are expected, or that were printed, with one space between them.
fn put_words(out: &mut Text, before: &str, text: &[u8]) {
    out.put(before);
    let mut is_first = true;
    for word in text.split(|byte| is_blank(*byte) || *byte == b'\n') {
        if word.is_empty() {
            continue;
        }
        if !is_first {
            out.put(" ");
        }
        out.put_bytes(word);
        is_first = false;
    }
    if is_first {
        out.put("nothing");
    }
}

/// Begins a suite: its name is the path, and after it the name of a part.
fn put_suite(suite: &mut Text, path: &str, name: &[u8]) {
    let mut title = Text::new(*suite.bytes.allocator());
    title.put(path);
    if !name.is_empty() {
        title.put(": ");
        title.put_bytes(name);
    }
    put_attribute(suite, "<testsuite name=\"", &title.bytes);
    suite.put(">\n");
    suite.failed = suite.failed || title.failed;
}

impl<'p> Report<'p> {
    /// No line has run.
    pub(crate) fn new(alloc: Global, path: &'p str, part: Part<'p>) -> Report<'p> {
        let mut suite = Text::new(alloc);
        put_suite(&mut suite, path, part.name);
        Report {
            path,
            part,
            told: Text::new(alloc),
            suite,
            is_bad: false,
        }
    }

    /// Begins the line on a line of the script.
    fn put_place(&mut self, number: usize) {
        let path = self.path;
        self.told.put(path);
        self.told.put_number(":", self.part.number(number));
    }

    /// Ends the line on a line, with the name of the part.
    fn end_line(&mut self) {
        let name = self.part.name;
        if !name.is_empty() {
            self.told.put(" in test \"");
            self.told.put_bytes(name);
            self.told.put("\"");
        }
        self.told.put("\n");
    }

    /// Ends a case, whose name begins so, and which has failed if there is a message.
    fn end_case(&mut self, before: &str, name: &[u8], message: Option<&[u8]>) {
        let path = self.path;
        put_attribute(&mut self.suite, before, name);
        put_attribute(&mut self.suite, " classname=\"", path.as_bytes());
        if let Some(message) = message {
            put_attribute(&mut self.suite, "><failure message=\"", message);
            self.suite.put("/></testcase>\n");
        } else {
            self.suite.put("/>\n");
        }
    }

    /// Writes the case of a line.
    fn put_case(&mut self, line: &TestLine, message: Option<&[u8]>) {
        self.suite
            .put_number("<testcase name=\"", self.part.number(line.number));
        self.end_case(": ", line.command.trim_ascii(), message)
    }

    /// Whether a line printed what it should print; `false` if the line does not state this.
    pub(crate) fn note(&mut self, line: &TestLine, printed: &[u8]) -> bool
        ensures { IsTrue result → Passes line.now printed.now }
    {
        let Some(expected) = line.expected else {
            return false;
        };
        if is_printed(expected, printed) {
            self.put_case(line, None);
            return true;
        }
        let mut message = Text::new(*self.told.bytes.allocator());
        put_words(&mut message, "expected ", expected);
        put_words(&mut message, ", printed ", printed);
        self.put_case(line, Some(message.bytes.as_slice()));
        self.put_place(line.number);
        self.told.put(": ");
        self.told.put_bytes(&message.bytes);
        self.end_line();
        self.told.failed = self.told.failed || message.failed;
        false
    }

    /// The script ended at this one of its lines, which is bad with the words that its names have.
    pub(crate) fn end_at(&mut self, line: &TestLine, lines: &[TestLine]) {
        self.is_bad = true;
        self.put_place(line.number);
        self.told.put(": a name of this line has no word, or one above a bound\n");
        if line.expected.is_none() {
            self.put_case(line, Some(b"bad line".as_slice()));
        }
        self.leave(lines, line.number);
    }

    /// Reports how many lines from a number on should have printed something, and did not run.
    fn leave(&mut self, lines: &[TestLine], first: usize) {
        let mut left: u64 = 0;
        for line in lines {
            if line.number >= first && line.expected.is_some() {
                left = left.saturating_add(1);
                self.put_case(line, Some(b"did not run".as_slice()));
            }
        }
        if left > 0 {
            let path = self.path;
            self.told.put(path);
            self.told
                .put_number(": lines with => that did not run: ", left);
            self.told.put("\n");
        }
    }

    /// The script does not run, since some of its lines are bad. `told` has a line `line N: ..` on each of them.
    pub(crate) fn refuse(&mut self, told: &[u8], lines: &[TestLine]) {
        self.is_bad = true;
        let mut rest = told;
        // A line has at least one byte, so this is enough for all lines.
        for _ in 0..told.len() {
            if rest.is_empty() {
                break;
            }
            let (line, behind) = first_line(rest);
            rest = behind;
            self.put_sentence(line);
        }
        self.leave(lines, 0);
    }

    /// Writes a line `line N: ..` with the path of the script.
    fn put_sentence(&mut self, line: &[u8]) {
        let path = self.path;
        self.told.put(path);
        match line {
            [b'l', b'i', b'n', b'e', b' ', sentence @ ..] => {
                self.told.put(":");
                self.told.put_bytes(sentence);
                self.end_case("<testcase name=\"", sentence, Some(b"bad line".as_slice()));
            }
            _ => {
                self.told.put(": ");
                self.told.put_bytes(line);
            }
        }
        self.told.put("\n");
    }
}
