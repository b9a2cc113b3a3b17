//! The form of a line mark.

use geos_text::{first_word, number_up_to};

/// What a line mark says.
#[derive(Clone, Copy)]
pub(crate) struct Mark<'a> {
    /// The number of the next line.
    pub next: u32,
    /// The file of the next line; none if it is the file of the lines before.
    pub file: Option<&'a str>,
}

/// What follows `#` or `#line`.
#[derive(Clone, Copy)]
struct Directive<'a> {
    rest: &'a [u8],
    /// Whether a file has to be named: `# 12` may be a comment of another language.
    needs_file: bool,
}

impl<'a> Directive<'a> {
    fn of(line: &'a [u8]) -> Option<Directive<'a>> {
        if !line.starts_with(b"#") {
            return None;
        }
        let (word, rest) = first_word(line)?;
        match word {
            b"#line" => Some(Directive {
                rest,
                needs_file: false,
            }),
            b"#" => Some(Directive {
                rest,
                needs_file: true,
            }),
            _ => None,
        }
    }
}

/// The name at the beginning of a text, in quotation marks.
fn quoted(text: &[u8]) -> Option<&[u8]> {
    let rest = text.strip_prefix(b"\"")?;
    let end = rest.iter().position(|byte| *byte == b'"')?;
    rest.get(..end)
}

/// Whether a text has only digits and blanks, as the flags after a name.
fn are_flags(text: &[u8]) -> bool {
    text.iter()
        .all(|byte| byte.is_ascii_digit() || *byte == b' ')
}

/// The file of a name in quotation marks and flags, if the name has no control characters.
fn file_of(text: &[u8]) -> Option<&str> {
    let name = quoted(text)?;
    let flags = text.get(name.len().saturating_add(2)..)?;
    if name.is_empty() || !are_flags(flags) {
        return None;
    }
    let file = std::str::from_utf8(name).ok()?;
    if file.chars().any(|character| character.is_control()) {
        None
    } else {
        Some(file)
    }
}

/// What a line says, if it is a line mark.
pub(crate) fn mark_of(line: &[u8]) -> Option<Mark> {
    let directive = Directive::of(line)?;
    let (number, rest) = first_word(directive.rest)?;
    let next = number_up_to(u32::MAX, number).ok()?;
    let name = rest.trim_ascii();
    if name.is_empty() && !directive.needs_file {
        return Some(Mark { next, file: None });
    }
    let file = file_of(name)?;
    Some(Mark {
        next,
        file: Some(file),
    })
}

/// Whether a line is a line mark: at its start `# N "FILE"` and perhaps flags, as `cpp` writes them; or `#line N "FILE"` or `#line N`, as
/// `m4 -s` does. FILE has no quotation marks or control characters.
pub fn is_mark(line: &[u8]) -> bool {
    mark_of(line).is_some()
}
