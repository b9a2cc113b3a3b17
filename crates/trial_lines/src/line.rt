//! Lines with calls.

use std::str::SplitWhitespace;

/// The most numbers of a line.
pub const MOST_NUMBERS: usize = 8;

/// A line with a call.
#[derive(Clone, Copy)]
pub struct Line<'a> {
    /// How often the call is made: the number after a first word `times`, or 1.
    pub times: u32,
    /// The word that names the call.
    pub word: &'a str,
    /// The numbers after it; those that are missing are 0.
    pub numbers: [u32; MOST_NUMBERS],
}

/// What a line is read as.
#[derive(Clone, Copy)]
pub enum Reading<'a> {
    /// It is blank, or has only a comment, which begins with a `;`.
    Blank,
    /// It has a call.
    Call(Line<'a>),
    /// It has a word after the first one that is no number in decimal digits, or more than eight of them.
    NotACall,
}

impl<'a> Reading<'a> {
    /// Reads a line.
    pub fn of(text: &'a str) -> Reading<'a> {
        let call = before_comment(text);
        if call.trim_start().is_empty() {
            return Reading::Blank;
        }
        match Line::read(call) {
            Some(line) => Reading::Call(line),
            None => Reading::NotACall,
        }
    }
}

impl<'a> Line<'a> {
    /// The call of a text that has no comment.
    fn read(text: &'a str) -> Option<Line<'a>> {
        let mut words = text.split_whitespace();
        let word = words.next()?;
        if word == "times" {
            let times = words.next()?.parse().ok()?;
            Line::of_words(times, words.next()?, words)
        } else {
            Line::of_words(1, word, words)
        }
    }

    /// The call that this word and the numbers after it make.
    fn of_words(times: u32, word: &'a str, digits: SplitWhitespace<'a>) -> Option<Line<'a>> {
        let mut numbers = [0; MOST_NUMBERS];
        let mut places = numbers.iter_mut();
        for digits in digits {
            *places.next()? = digits.parse().ok()?;
        }
        Some(Line {
            times,
            word,
            numbers,
        })
    }

    /// The number at this place, or 65,535 where it is greater.
    pub fn word_at(&self, place: usize) -> u16 {
        match self.numbers.get(place) {
            Some(number) => *number.min(&65_535) as u16,
            None => 0,
        }
    }

    /// All numbers, as words.
    pub fn words(&self) -> [u16; MOST_NUMBERS] {
        std::array::from_fn(|place| self.word_at(place))
    }

    /// The number at this place, or 255 where it is greater.
    pub fn byte_at(&self, place: usize) -> u8 {
        self.word_at(place).min(255) as u8
    }

    /// The rest of the line's word after this beginning.
    pub fn word_behind(&self, beginning: &str) -> Option<&'a str> {
        self.word.strip_prefix(beginning)
    }
}

/// The part of a line before a comment.
pub fn before_comment(text: &str) -> &str {
    match text.split_once(';') {
        Some((text, _)) => text,
        None => text,
    }
}
