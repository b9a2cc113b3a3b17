//! What may be wrong with a line of a script.

use geos_lines::Word;

/// What is wrong with a line of a script, at the first word that does not fit.
#[derive(Clone, Copy)]
pub(crate) enum Fault<'a> {
    /// The first word is no command.
    NoCommand(Word<'a>),
    /// It comes after a command of one word.
    Behind(Word<'a>),
    /// A call names no routine.
    NoName,
    /// No routine has this name.
    NoRoutine(Word<'a>),
    /// The routine of this name is not public.
    NotPublic(Word<'a>),
    /// It comes after eight numbers.
    Ninth(Word<'a>),
    /// It is no number.
    NoNumber(Word<'a>),
    /// Its number is above 65,535.
    TooHigh(Word<'a>),
    /// Its number is above this bound, of the word w of this index.
    PastBound(Word<'a>, u16, usize),
    /// It comes after a block, and is no block.
    NumberBehind(Word<'a>),
    /// It is `@`, and no number after it.
    NoHandle(Word<'a>),
    /// The number after its `@` is above 65,535.
    HighHandle(Word<'a>),
    /// How many blocks the call passes, and how many others the routine borrows.
    Lent(usize, usize),
    /// It is a name or keeps one, in a script whose lines may not write names.
    NotAllowed(Word<'a>),
    /// It is a name that no line before keeps.
    NotKept(Word<'a>),
    /// It is a `->` that does not follow a call.
    ArrowAlone(Word<'a>),
    /// It is a `->` with nothing after it.
    NothingKept(Word<'a>),
    /// It comes after `->`, and is no name.
    BadName(Word<'a>),
    /// It comes after the name under which the line stores a word.
    SecondName(Word<'a>),
    /// It is a name that the line stores after too many others.
    NameTooMany(Word<'a>),
}

impl<'a> Fault<'a> {
    /// The word that is wrong, if one is.
    pub(crate) fn word(&self) -> Option<Word<'a>> {
        match *self {
            Fault::NoName | Fault::Lent(_, _) => None,
            Fault::NoCommand(word)
            | Fault::Behind(word)
            | Fault::NoRoutine(word)
            | Fault::NotPublic(word)
            | Fault::Ninth(word)
            | Fault::NoNumber(word)
            | Fault::TooHigh(word)
            | Fault::PastBound(word, _, _)
            | Fault::NumberBehind(word)
            | Fault::NoHandle(word)
            | Fault::HighHandle(word)
            | Fault::NotAllowed(word)
            | Fault::NotKept(word)
            | Fault::ArrowAlone(word)
            | Fault::NothingKept(word)
            | Fault::BadName(word)
            | Fault::SecondName(word)
            | Fault::NameTooMany(word) => Some(word),
        }
    }
}
