//! What a sentence names: its column, the line of the cause, and what helps.
//!
//! The cure of a warning, and the first line of a name that is used twice, are data. Otherwise both are read from the sentence:
//!
//! - The line of the cause is that of the first instruction that is named with its line, as `CALL at line 8`, otherwise the first line that is
//!   named. There is none if this line is in another file.
//! - The cure is the parts between `; ` that say what helps, joined by `; `. Of a part that has `: ` it is what follows, unless that begins
//!   with a register, `line ` or `no `. A later part without `: ` counts if it begins as one of `ORDERS`. If nothing is found, it is `as` and
//!   the example of the form that the line requires, unless the second part begins with `no `.

use std::alloc::{AllocError, Global};

/// How a part of a sentence begins that says what to do.
const ORDERS: [&str; 20] = [
    "CHK ",
    "VDIRTY ",
    "IDIRTY ",
    "MUNLOCK ",
    "VUNLOCK ",
    "IUNLOCK ",
    "SNE ",
    "for ",
    "first ",
    "say ",
    "require ",
    "on each path ",
    "lock ",
    "give ",
    "set ",
    "end ",
    "use ",
    "simplify ",
    "fetch ",
    "or, ",
];

/// A number, and the text after it.
#[derive(Clone, Copy)]
struct Numbered<'m> {
    number: u64,
    rest: &'m str,
}

/// The number after the words, if the sentence has them.
fn number_after<'m>(message: &'m str, words: &str) -> Option<Numbered<'m>> {
    let (_, rest) = message.split_once(words)?;
    let end = rest
        .bytes()
        .position(|byte| !byte.is_ascii_digit())
        .unwrap_or(rest.len());
    let number = rest.get(..end)?.parse().ok()?;
    let rest = rest.get(end..)?;
    Some(Numbered { number, rest })
}

/// The column that the sentence names.
pub(crate) fn column(message: &str) -> Option<u64> {
    number_after(message, " at column ").map(|found| found.number)
}

/// Whether the text before ` at line` ends with an instruction.
fn ends_with_instruction(before: &str) -> bool {
    match before.rsplit_once(' ') {
        Some((_, word)) => !word.is_empty() && word.bytes().all(|byte| byte.is_ascii_uppercase()),
        None => false,
    }
}

/// What follows the line of the first instruction that the sentence names with its line, as `CALL at line 8`, from that line on.
fn at_instruction(message: &str) -> Option<&str> {
    let mut rest = message;
    // Each part takes at least a byte.
    for _ in 0..message.len() {
        let (before, behind) = rest.split_once(" at line ")?;
        if ends_with_instruction(before) {
            return rest.get(before.len()..);
        }
        rest = behind;
    }
    None
}

/// The line of the cause: that of the first instruction that the sentence names with its line, otherwise the first line that it names. None
/// if that is a line of another file: by line marks it is `line 3 of FILE`.
pub(crate) fn cause_line(message: &str) -> Option<u64> {
    match number_after(at_instruction(message).unwrap_or(message), " line ") {
        Some(found) if !found.rest.starts_with(" of ") => Some(found.number),
        _ => None,
    }
}

/// Whether a part after a colon says only what is: it begins with a register, a line, or what there is none of.
fn is_fact(part: &str) -> bool {
    let begins_with_register = match part.as_bytes() {
        [letter, digit, ..] => matches!(letter, b'w' | b's' | b'p' | b'k')
            && digit.is_ascii_digit(),
        _ => true,
    };
    begins_with_register || part.starts_with("line ") || part.starts_with("no ")
}

/// Whether a part says what to do.
fn is_order(part: &str) -> bool {
    ORDERS.iter().any(|order| part.starts_with(*order))
}

/// What helps, by a part of a sentence: what follows a colon, or a part after the first that is an order.
fn cure_in(part: &str, first: bool) -> Option<&str> {
    match part.split_once(": ") {
        Some((_, cure)) if !is_fact(cure) => Some(cure),
        None if !first && is_order(part) => Some(part),
        _ => None,
    }
}

/// The example of a line that requires another form, unless only a name is missing.
fn example_in(sentence: &str) -> Option<&str> {
    let (_, form) = sentence.split_once(" requires ")?;
    let (form, rest) = form.split_once("; ")?;
    if rest.starts_with("no ") {
        return None;
    }
    let (_, example) = form.rsplit_once(", as ")?;
    Some(example)
}

/// The cures in a sentence: each part that names one, otherwise the example of a line, as `as CALL add`.
pub(crate) fn cure(alloc: Global, message: &str) -> Result<String, AllocError> {
    let sentence = message.strip_prefix("no rows: ").unwrap_or(message);
    let mut cures = String::new(alloc);
    let mut first = true;
    for part in sentence.split("; ") {
        if let Some(cure) = cure_in(part, first) {
            if !cures.is_empty() {
                cures.push_str("; ")?;
            }
            cures.push_str(cure)?;
        }
        first = false;
    }
    if cures.is_empty()
        && let Some(example) = example_in(sentence)
    {
        cures.push_str("as ")?;
        cures.push_str(example)?;
    }
    Ok(cures)
}
