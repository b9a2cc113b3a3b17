//! The lines of a test script.

ghost use Rattle.std.specs.Prelude.{◌≡◌, IfNone, IfOk, IfSome, None, Some};
ghost use Rattle.geos_text.specs.Words.{words};
ghost use Rattle.script_tests.specs.Expected.{after_arrow, expected_in, expecting, expecting_of, is_arrow};

use geos_text::{first_line, first_word, without_comment};
use std::alloc::{AllocError, Global};

/// A line of a test script that is not empty.
#[derive(Clone, Copy)]
pub(crate) struct TestLine<'a> {
    /// Its number, counted from 1.
    pub(crate) number: usize,
    /// Its command.
    pub(crate) command: &'a [u8],
    /// What the command should print, if the line states it.
    pub(crate) expected: Option<&'a [u8]>,
}

fn is_arrow(word: &[u8]) -> bool
    ensures { result ≡ is_arrow word.now }
{
    word == b"=>".as_slice()
}

/// The part of a line after its first `=>`, if it has one.
fn after_arrow(line: &[u8]) -> Option<&[u8]>
    ensures none { IfNone result (after_arrow (words line.now) ≡ None) }
    ensures some { IfSome result (λ rest. after_arrow (words line.now) ≡ Some (words rest.now)) }
{
    let mut rest = line;
    while let Some((word, behind)) = first_word(rest) {
        if is_arrow(word) {
            return Some(behind);
        }
        rest = behind;
    }
    None
}

/// What a line is to print: the part after its `=>`, which another word precedes. `None` if it has none.
fn expected_in(line: &[u8]) -> Option<&[u8]>
    ensures none { IfNone result (expected_in (words line.now) ≡ None) }
    ensures some { IfSome result (λ rest. expected_in (words line.now) ≡ Some (words rest.now)) }
{
    match first_word(line) {
        Some((_command, behind)) => after_arrow(behind),
        None => None,
    }
}

/// The part of a line before its `=>`, after which it has this part.
fn before_arrow<'a>(line: &'a [u8], expected: &[u8]) -> &'a [u8] {
    let end = line.len().saturating_sub(expected.len()).saturating_sub(2);
    &line[..end]
}

/// A line without its comment, which has this number.
fn parted<'a>(number: usize, line: &'a [u8]) -> TestLine<'a>
    ensures none { IfNone result.expected (expected_in (words line.now) ≡ None) }
    ensures some { IfSome result.expected (λ rest. expected_in (words line.now) ≡ Some (words rest.now)) }
{
    match expected_in(line) {
        Some(expected) => TestLine {
            number,
            command: before_arrow(line, expected),
            expected: Some(expected),
        },
        None => TestLine {
            number,
            command: line,
            expected: None,
        },
    }
}

/// The lines of a test script that are not empty, in order.
pub(crate) fn test_lines<'a>(
    alloc: Global,
    script: &'a [u8],
) -> Result<Vec<TestLine<'a>>, AllocError>
    ensures { IfOk result (λ found. expecting_of found.items ≡ expecting script.now) }
{
    let mut found = Vec::new(alloc);
    let mut rest = script;
    let mut number: usize = 0;
    while !rest.is_empty() {
        let (line, behind) = first_line(rest);
        rest = behind;
        number += 1;
        let text = without_comment(line);
        if first_word(text).is_some() {
            found.push(parted(number, text))?;
        }
    }
    Ok(found)
}

/// How many of the lines state what they should print.
pub(crate) fn count_expecting(lines: &[TestLine]) -> usize
    ensures { result ≡ expecting_of lines.now }
{
    lines.iter().filter(|line| line.expected.is_some()).count()
}

/// The same script with its commands only: no line has a `=>` or a comment. Each line has the number that it had. It is not longer.
pub fn plain_script(alloc: Global, script: &[u8]) -> Result<Vec<u8>, AllocError> {
    let mut plain = Vec::new(alloc);
    let mut rest = script;
    // A line has at least one byte, so this is enough for all lines.
    for number in 0..script.len() {
        if rest.is_empty() {
            break;
        }
        let (line, behind) = first_line(rest);
        rest = behind;
        plain.extend_from_slice(parted(number, without_comment(line)).command)?;
        if !rest.is_empty() {
            plain.push(b'\n')?;
        }
    }
    Ok(plain)
}
