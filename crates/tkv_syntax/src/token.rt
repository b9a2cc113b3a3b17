//! The words of a source, one after another.

use crate::fault::{Fault, Why};
use crate::words::{Word, byte_at, is_letter, word_at};

/// A word of a source.
#[derive(Clone, Copy)]
pub struct Token {
    pub word: Word,
    /// Where it begins.
    pub at: u32,
    /// Where it ends.
    pub end: u32,
    /// What a number is.
    pub value: u16,
}

impl Token {
    /// A word that is no number.
    pub(crate) fn new(word: Word, at: u32, end: u32) -> Token {
        Token {
            word,
            at,
            end,
            value: 0,
        }
    }
}

/// A place further on. Sources are so short that this is the sum.
fn plus(at: u32, more: u32) -> u32 {
    at.saturating_add(more)
}

/// The byte at an offset, or 0 past the end.
fn letter(text: &[u8], at: u32) -> u8 {
    byte_at(text, at as usize)
}

/// The place after the letters that begin here.
fn letters_end(text: &[u8], at: u32) -> u32 {
    let mut end = at;
    for _ in 0..text.len() {
        if !is_letter(letter(text, end)) {
            break;
        }
        end = plus(end, 1);
    }
    end
}

/// The place after a comment that begins here.
fn comment_end(text: &[u8], at: u32) -> u32 {
    let mut end = at;
    for _ in 0..text.len() {
        let byte = letter(text, end);
        if byte == b'\n' || byte == 0 {
            break;
        }
        end = plus(end, 1);
    }
    end
}

/// Where the next word begins: after blanks and comments.
fn word_start(text: &[u8], at: u32) -> u32 {
    let mut start = at;
    for _ in 0..text.len() {
        let byte = letter(text, start);
        if byte == b' ' || byte == b'\t' || byte == b'\r' || byte == b'\n' {
            start = plus(start, 1);
        } else if byte == b'/' && letter(text, plus(start, 1)) == b'/' {
            start = comment_end(text, start);
        } else {
            break;
        }
    }
    start
}

/// What a digit is worth; a letter that is no digit is worth 16 or more.
fn digit(byte: u8) -> u32 {
    match byte {
        b'0'..=b'9' => u32::from(byte - b'0'),
        b'a'..=b'f' => u32::from(byte - b'a') + 10,
        b'A'..=b'F' => u32::from(byte - b'A') + 10,
        _ => 16,
    }
}

/// The number that these digits write in a base of 16 at most, if it is one and fits a word. An underscore parts digits.
fn numbered(text: &[u8], at: u32, end: u32, base: u32) -> Option<u16> {
    let mut value: u32 = 0;
    let mut some = false;
    for place in at..end {
        let byte = letter(text, place);
        if byte == b'_' {
            continue;
        }
        let next = digit(byte);
        if next >= base || value > 65_535 {
            return None;
        }
        value = value.saturating_mul(base).saturating_add(next);
        some = true;
    }
    if some && value <= 65_535 {
        Some(value as u16)
    } else {
        None
    }
}

/// The number that is written from a digit to an end, if it is one.
fn number(text: &[u8], at: u32, end: u32) -> Option<u16> {
    let second = letter(text, plus(at, 1));
    let zero = letter(text, at) == b'0';
    if zero && second == b'x' {
        numbered(text, plus(at, 2), end, 16)
    } else if zero && second == b'b' {
        numbered(text, plus(at, 2), end, 2)
    } else {
        numbered(text, at, end, 10)
    }
}

/// A character, and where it ends.
#[derive(Clone, Copy)]
pub(crate) struct Written {
    pub value: u8,
    pub end: u32,
}

/// The character that is written here, perhaps by a backslash and a letter, if one is.
pub(crate) fn character(text: &[u8], at: u32) -> Option<Written> {
    let byte = letter(text, at);
    let escapes = byte == b'\\';
    let written = if escapes {
        letter(text, plus(at, 1))
    } else {
        byte
    };
    let value = match written {
        b'n' if escapes => 10,
        b't' if escapes => 9,
        b'\\' | b'\'' | b'"' => written,
        b' '..=b'~' if !escapes => written,
        _ => return None,
    };
    Some(Written {
        value,
        end: plus(at, 1 + u32::from(escapes)),
    })
}

/// The quoted character here: also a backslash, which then is no escape, but not the quote, which requires one.
fn quoted(text: &[u8], at: u32) -> Result<Token, Fault> {
    let start = plus(at, 1);
    if let Some(found) = character(text, start)
        && letter(text, start) != b'\''
        && letter(text, found.end) == b'\''
    {
        return valued(at, plus(found.end, 1), Some(u16::from(found.value)));
    }
    let alone = letter(text, start) == b'\\' && letter(text, plus(at, 2)) == b'\'';
    valued(at, plus(at, 3), if alone { Some(92) } else { None })
}

/// A number, if it is one.
fn valued(at: u32, end: u32, value: Option<u16>) -> Result<Token, Fault> {
    match value {
        Some(value) => Ok(Token {
            word: Word::Number,
            at,
            end,
            value,
        }),
        None => Err(Fault::new(Why::BadNumber, at)),
    }
}

/// The word or name that begins with a letter here.
fn spelled(text: &[u8], at: u32) -> Result<Token, Fault> {
    let end = letters_end(text, at);
    let length = end.saturating_sub(at);
    if length > 16 {
        return Err(Fault::new(Why::LongName, at));
    }
    let word = word_at(text, at, length as usize).unwrap_or(Word::Named);
    Ok(Token::new(word, at, end))
}

/// The first word from a place on, after blanks and comments. Of a string it is the first quote.
pub fn next_token(text: &[u8], from: u32) -> Result<Token, Fault> {
    let at = word_start(text, from);
    let byte = letter(text, at);
    if at as usize >= text.len() {
        return Ok(Token::new(Word::End, at, at));
    }
    if byte == b'/' && letter(text, plus(at, 1)) == b'*' {
        return Err(Fault::new(Why::NoWord, at));
    }
    if byte.is_ascii_digit() {
        let end = letters_end(text, at);
        return valued(at, end, number(text, at, end));
    }
    if byte == b'\'' {
        return quoted(text, at);
    }
    if byte.is_ascii_alphabetic() {
        return spelled(text, at);
    }
    match word_at(text, at, 0) {
        Some(word) => {
            let length = if word.text().len() == 1 { 1 } else { 2 };
            Ok(Token::new(word, at, plus(at, length)))
        }
        None => Err(Fault::new(Why::NoWord, at)),
    }
}
