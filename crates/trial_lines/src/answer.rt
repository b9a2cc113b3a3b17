//! What calls answer.

use std::fmt;

/// What a call answers, where `R` is why it refuses.
#[derive(Drop, PartialEq)]
pub enum Answer<R> {
    /// It is done, and has nothing to tell.
    Done,
    /// It is done, and tells this number.
    Number(u32),
    /// It is done, and says this.
    Said(&'static str),
    /// It is done, and tells this text.
    Text(String),
    /// It refuses.
    Refused(R),
    /// It was not made, since this keeps it from being made.
    NotAsked(&'static str),
    /// The trial has no such call.
    NotACall,
}

impl<R> From<bool> for Answer<R> {
    fn from(truth: bool) -> Answer<R> {
        Answer::Said(if truth { "true" } else { "false" })
    }
}

impl<R, E: Into<R>> From<Result<(), E>> for Answer<R> {
    fn from(done: Result<(), E>) -> Answer<R> {
        match done {
            Ok(()) => Answer::Done,
            Err(error) => Answer::Refused(error.into()),
        }
    }
}

impl<R> From<Result<u16, R>> for Answer<R> {
    fn from(done: Result<u16, R>) -> Answer<R> {
        match done {
            Ok(number) => Answer::Number(u32::from(number)),
            Err(refusal) => Answer::Refused(refusal),
        }
    }
}

impl<R: fmt::Display> fmt::Display for Answer<R> {
    fn fmt<W: fmt::Write>(&self, f: &mut fmt::Formatter<W>) -> fmt::Result {
        match self {
            Answer::Done => f.write_str("ok"),
            Answer::Number(number) => write!(f, "{number}"),
            Answer::Said(text) => f.write_str(text),
            Answer::Text(text) => f.write_str(text.as_str()),
            Answer::Refused(refusal) => write!(f, "{refusal}"),
            Answer::NotAsked(obstacle) => write!(f, "not asked: {obstacle}"),
            Answer::NotACall => f.write_str("not a call"),
        }
    }
}
