//! Items of the lines `in` and `out` of routines.

use crate::documents::Page;
use crate::edits::{Edit, Mend, NO_LINE};
use crate::findings::{Finding, code_span};
use crate::heads::{Head, head_at, head_named};
use crate::mender::Mender;
use crate::names::word_at;
use crate::reply::Reply;

/// How a new line `in` or `out` begins, after the end of the line before.
const NEW_LINE: &str = "\n        ";

/// What is to be said in the lines of a routine.
#[derive(Clone, Copy)]
struct Wish<'m> {
    /// The items, separated by spaces; or a slot or a pointer, of which the next two say what it has.
    items: &'m str,
    /// What follows the items, as `=mem` or `=s0:`.
    kind: &'static str,
    /// The number after that; 0 for none.
    bytes: u64,
    /// The name of the routine, empty for that of the finding.
    name: &'m str,
    /// Whether the line `out` is to say it too.
    both: bool,
    /// Whether the line `out` is to say it only of slots.
    only_slots: bool,
}

/// The part of an item that names its register: `w0` of `w0<=9`, all of `s0#s1`.
fn field_of(item: &str) -> &str {
    match item.split_once("=") {
        Some((field, _)) => field.strip_suffix("<").unwrap_or(field),
        None => item,
    }
}

/// Whether a word has the form of an item.
fn is_item(word: &str) -> bool {
    let is_register = matches!(word.as_bytes(), [b'w' | b's' | b'p', b'0'..=b'7', ..]);
    let has_value = word.contains("<") || word.contains("=") || word.contains("#");
    is_register && has_value && !word.ends_with("=empty")
}

/// Whether all words are items.
fn are_items(words: &str) -> bool {
    for word in words.split(" ") {
        if !is_item(word) {
            return false;
        }
    }
    true
}

/// Whether it names a slot or a pointer, without what it has.
fn is_bare(words: &str) -> bool {
    matches!(words.as_bytes(), [b's' | b'p', b'0'..=b'3'])
}

/// The name at the start of a text.
fn name_in(text: &str) -> &str {
    match word_at(0, text, 0) {
        Some(name) => name.words(),
        None => "",
    }
}

/// The wish in `w2<=7 in the in and out lines of add`, or `s0 in the in line`.
fn wish_in(said: &str) -> Option<Wish<'_>> {
    let (items, place) = match said.strip_prefix("in the in line what ") {
        Some(slot) => (slot.get(..2)?, "line"),
        None => said.split_once(" in the in ")?,
    };
    let both = place.starts_with("and out lines");
    let of = place
        .strip_prefix(if both { "and out lines" } else { "line" })?
        .strip_prefix(" of ");
    let wish = Wish {
        name: name_in(of.unwrap_or("")),
        both,
        ..Wish::of(items)
    };
    if are_items(items) || is_bare(items) {
        Some(wish)
    } else {
        None
    }
}

/// Whether a line says an item.
fn is_said(item: &str, only_slots: bool) -> bool {
    !only_slots || item.starts_with("s")
}

/// Whether a line has an item about a field.
fn has_field(code: &str, field: &str) -> bool {
    for word in code.split(" ") {
        if field_of(word) == field {
            return true;
        }
    }
    false
}

impl<'m> Wish<'m> {
    /// That the line `in` says items.
    fn of(items: &'m str) -> Wish<'m> {
        Wish {
            items,
            kind: "",
            bytes: 0,
            name: "",
            both: false,
            only_slots: false,
        }
    }

    /// The item about a field that a line is to say, empty if there is none.
    fn item_of(&self, field: &str, only_slots: bool) -> &'m str {
        for item in self.items.split(" ") {
            if is_said(item, only_slots) && field_of(item) == field {
                return item;
            }
        }
        ""
    }

    /// Writes an item.
    fn put_item(&self, out: &mut Reply, item: &str) {
        out.raw(item);
        if self.bytes == 0 {
            out.raw(self.kind)
        } else {
            out.number(self.kind, self.bytes)
        }
    }

    /// Writes a line `in` or `out` with the items, each in the place of one about the same field.
    fn put_line(&self, out: &mut Reply, code: &str, only_slots: bool) {
        let mut is_first = true;
        for word in code.split(" ") {
            out.raw(if is_first { "" } else { " " });
            is_first = false;
            let item = self.item_of(field_of(word), only_slots);
            if item.is_empty() {
                out.raw(word)
            } else {
                self.put_item(out, item)
            }
        }
        for item in self.items.split(" ") {
            if is_said(item, only_slots) && !has_field(code, field_of(item)) {
                out.raw(" ");
                self.put_item(out, item)
            }
        }
    }

    /// Writes the edit of the line `in`, after the line `routine` if there is none. A line `out` that is missing follows.
    fn put_entry(&self, edit: &mut Edit, document: Page<'_>, head: &Head) {
        if head.enters == NO_LINE {
            let end = document.line(head.routine).len();
            edit.begin(head.routine, end, end);
            edit.new.raw(NEW_LINE);
            self.put_line(&mut edit.new, "in", false)
        } else {
            let line = code_span(document, head.enters);
            edit.begin(line.line, line.start, line.text.len());
            self.put_line(&mut edit.new, line.words(), false);
            edit.new.raw(line.text.get(line.end..).unwrap_or(""))
        }
        if self.both && head.exits == NO_LINE {
            edit.new.raw(NEW_LINE);
            self.put_line(&mut edit.new, "out", self.only_slots)
        }
    }

    /// Writes the edits of the lines of a routine.
    fn put(&self, mend: &mut Mend, document: Page<'_>, head: &Head) {
        mend.begin("Say ");
        self.put_item(&mut mend.title, self.items);
        mend.title.raw(if self.both {
            " in the in and out lines"
        } else {
            " in the in line"
        });
        if !self.name.is_empty() {
            mend.title.raw(" of ");
            mend.title.raw(self.name)
        }
        self.put_entry(&mut mend.first, document, head);
        if self.both && head.exits != NO_LINE {
            let line = code_span(document, head.exits);
            mend.second.begin(line.line, line.start, line.end);
            self.put_line(&mut mend.second.new, line.words(), self.only_slots)
        }
    }
}

/// What is tried of a slot: its block, the likeliest first. The line `in` has the first text then, and the other follows what is wished.
const BLOCKS: [(&str, &str); 5] = [
    ("", "=mem"),
    ("", "=vm"),
    ("", "=db"),
    ("", "=vm!"),
    ("", "=db!"),
];

/// The same of a slot of a public routine.
const PUBLIC_BLOCKS: [(&str, &str); 1] = [("", "=vm@")];

/// The same of a pointer: the slot into which it leads, which the line `in` has. A number of bytes follows.
const SLOTS: [(&str, &str); 4] = [
    (" s0=", "=s0:"),
    (" s1=", "=s1:"),
    (" s2=", "=s2:"),
    (" s3=", "=s3:"),
];

/// What is tried of items, in the routine that begins with this code.
fn ways_of(items: &str, routine: &str) -> &'static [(&'static str, &'static str)] {
    if !is_bare(items) {
        &[("", "")]
    } else if items.starts_with("p") {
        &SLOTS
    } else if has_field(routine, "public") {
        &PUBLIC_BLOCKS
    } else {
        &BLOCKS
    }
}

/// Whether a finding is mended if the lines of a routine say what is wished.
fn mends_if_said(
    mender: &mut Mender<'_>,
    finding: &Finding<'_, '_>,
    head: &Head,
    wish: Wish<'_>,
) -> bool {
    wish.put(&mut mender.mend, mender.document, head);
    mender.mends(finding)
}

/// The same, or otherwise if the line `out` also says it of slots.
fn mends_in_turn(
    mender: &mut Mender<'_>,
    finding: &Finding<'_, '_>,
    head: &Head,
    wish: Wish<'_>,
) -> bool {
    if mends_if_said(mender, finding, head, wish) {
        return true;
    }
    let names_slot = wish.items.contains("s") || !wish.kind.is_empty();
    let both = Wish {
        both: true,
        only_slots: true,
        ..wish
    };
    !wish.both && names_slot && mends_if_said(mender, finding, head, both)
}

/// Whether it is mended by the edits that a wish names. For a pointer, what is found with one byte says how many bytes are to be said.
fn mends_by_wish(mender: &mut Mender<'_>, finding: &Finding<'_, '_>, wish: Wish<'_>) -> bool {
    let document = mender.document;
    let found = if wish.name.is_empty() {
        head_at(document.text, finding.span.line)
    } else {
        head_named(document.text, wish.name)
    };
    match found {
        Some(head) => mends_in_ways(mender, finding, &head, wish),
        None => false,
    }
}

/// The same of the routine with this head.
fn mends_in_ways(
    mender: &mut Mender<'_>,
    finding: &Finding<'_, '_>,
    head: &Head,
    wish: Wish<'_>,
) -> bool {
    let document = mender.document;
    let routine = code_span(document, head.routine).words();
    let entry = code_span(document, head.enters).words();
    for (held, kind) in ways_of(wish.items, routine) {
        if entry.contains(*held) {
            let has_bytes = kind.ends_with(":");
            let mut way = Wish {
                kind: *kind,
                bytes: u64::from(has_bytes),
                both: wish.both && kind.is_empty(),
                ..wish
            };
            if mends_in_turn(mender, finding, head, way) {
                return true;
            }
            way.bytes = mender.bytes;
            if has_bytes && way.bytes > 0 && mends_in_turn(mender, finding, head, way) {
                return true;
            }
        }
    }
    false
}

/// What a message says is required, empty if it says nothing of that.
fn required_in(message: &str) -> &str {
    for end in [" is required", " are required"] {
        if let Some((items, _)) = message.split_once(end) {
            return items;
        }
    }
    ""
}

/// Writes the actions by which lines `in` and `out` mend a finding, at most one for each wish of its cure, and one for the items that it says
/// are required.
pub(crate) fn put_rows(out: &mut Reply, mender: &mut Mender<'_>, finding: &Finding<'_, '_>) {
    for said in finding.cure.split("say ") {
        if let Some(wish) = wish_in(said)
            && mends_by_wish(mender, finding, wish)
        {
            mender.put(out, finding)
        }
    }
    let items = required_in(finding.message);
    if are_items(items) && mends_by_wish(mender, finding, Wish::of(items)) {
        mender.put(out, finding)
    }
}
