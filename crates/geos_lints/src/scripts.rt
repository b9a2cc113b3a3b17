//! Calls of a script with numbers that their routines do not read, or that are missing.

use crate::advice::Advice;
use crate::calls::Callable;
use geos_image::Image;
use geos_text::{first_line, first_word, without_comment};
use std::alloc::{AllocError, Global};

/// The most calls of a script that have advice; the others are counted.
const MOST: usize = 20;

/// A call of a script that is probably not meant as it is.
#[derive(Drop)]
pub struct DoubtfulCall {
    /// The number of its line, from 1.
    pub line: usize,
    /// What is not meant, and what helps.
    pub advice: Advice,
}

/// The calls of a script that are probably not meant as they are.
#[derive(Drop)]
pub struct DoubtfulCalls {
    /// The first ones, by line in ascending order.
    pub list: Vec<DoubtfulCall>,
    /// How many more there are.
    pub more: usize,
}

/// A call in a line.
#[derive(Clone, Copy)]
struct WrittenCall<'a> {
    name: &'a [u8],
    numbers: usize,
}

/// How many words there are before `->`, or to the end of the line, that stand for numbers: they do not begin with `@`.
fn count_numbers(words: &[u8]) -> usize {
    let mut count: usize = 0;
    let mut rest = words;
    // Each word takes at least a byte.
    for _ in 0..words.len() {
        let Some((word, behind)) = first_word(rest) else {
            break;
        };
        if word == b"->".as_slice() {
            break;
        }
        if !word.starts_with(b"@") {
            count = count.saturating_add(1);
        }
        rest = behind;
    }
    count
}

/// The call in a line, if there is one.
fn call_in(line: &[u8]) -> Option<WrittenCall> {
    let (command, behind) = first_word(without_comment(line))?;
    if command != b"call".as_slice() {
        return None;
    }
    let (name, words) = first_word(behind)?;
    Some(WrittenCall {
        name,
        numbers: count_numbers(words),
    })
}

/// What a warning says of the call in a line, if there is one.
fn advice_in(
    alloc: Global,
    routines: &Callable<'_>,
    line: &[u8],
) -> Result<Option<Advice>, AllocError> {
    let Some(call) = call_in(line) else {
        return Ok(None);
    };
    match std::str::from_utf8(call.name) {
        Ok(name) => routines.advice_on(alloc, name, call.numbers),
        Err(_) => Ok(None),
    }
}

/// The calls of a script that `advice_on_call` warns of. `AllocError` if the allocator refuses memory.
pub fn doubtful_calls(
    alloc: Global,
    image: &Image,
    script: &[u8],
) -> Result<DoubtfulCalls, AllocError> {
    let routines = Callable::of(alloc, image)?;
    let mut found = DoubtfulCalls {
        list: Vec::new(alloc),
        more: 0,
    };
    let mut rest = script;
    let mut number: usize = 0;
    // A line has at least a byte.
    for _ in 0..script.len() {
        if rest.is_empty() {
            break;
        }
        let (line, behind) = first_line(rest);
        rest = behind;
        number = number.saturating_add(1);
        let Some(advice) = advice_in(alloc, &routines, line)? else {
            continue;
        };
        if found.list.len() < MOST {
            found.list.push(DoubtfulCall {
                line: number,
                advice,
            })?;
        } else {
            found.more = found.more.saturating_add(1);
        }
    }
    Ok(found)
}
