//! The names of the lines so far, and where they are first.

use crate::words::{Word, word_from};
use geos_source::{Name, label_of, name_of};
use std::alloc::{AllocError, Global};
use std::collections::BTreeMap;

/// The line on which each name is first.
#[derive(Drop)]
struct FirstLines {
    lines: BTreeMap<u128, usize>,
}

impl FirstLines {
    /// The line on which the name was first; `None` if it is on this line first.
    fn used_on(&mut self, name: Name, line: usize) -> Result<Option<usize>, AllocError> {
        let key = u128::from_le_bytes(name);
        if let Some(first) = self.lines.get(&key) {
            return Ok(Some(*first));
        }
        match self.lines.insert(key, line) {
            Ok(_) => Ok(None),
            Err(_) => Err(AllocError),
        }
    }
}

/// The names of the lines so far: labels and routines are two sets of names.
#[derive(Drop)]
pub(crate) struct NamesSoFar {
    labels: FirstLines,
    routines: FirstLines,
}

/// A name that is used twice.
#[derive(Clone, Copy)]
pub(crate) struct Twice<'a> {
    pub word: Word<'a>,
    pub is_label: bool,
    /// The line on which it is first.
    pub first: usize,
}

/// A line, and where its statement begins.
#[derive(Clone, Copy)]
pub(crate) struct Statement<'a> {
    /// The line without its comment.
    pub line: &'a [u8],
    /// The first label.
    pub label: Option<Word<'a>>,
    /// The first word after the labels.
    pub word: Option<Word<'a>>,
}

impl NamesSoFar {
    pub(crate) fn new(alloc: Global) -> NamesSoFar {
        NamesSoFar {
            labels: FirstLines {
                lines: BTreeMap::new(alloc),
            },
            routines: FirstLines {
                lines: BTreeMap::new(alloc),
            },
        }
    }

    /// Takes the names of the next line. Returns its first name that was used before, and its statement.
    pub(crate) fn take_line<'a>(
        &mut self,
        line: &'a [u8],
        number: usize,
    ) -> Result<(Option<Twice<'a>>, Statement<'a>), AllocError> {
        let (twice, statement) = self.take_labels(line, number)?;
        let twice = self.take_routine(twice, statement, number)?;
        Ok((twice, statement))
    }

    /// The first name of the line that was used before, of labels; and the line's statement.
    fn take_labels<'a>(
        &mut self,
        line: &'a [u8],
        number: usize,
    ) -> Result<(Option<Twice<'a>>, Statement<'a>), AllocError> {
        let mut twice = None;
        let mut statement = Statement {
            line,
            label: None,
            word: None,
        };
        let mut from = 0;
        while let Some(word) = word_from(line, from) {
            let Some(name) = label_of(word.bytes) else {
                statement.word = Some(word);
                return Ok((twice, statement));
            };
            let used = self.labels.used_on(name, number)?;
            twice = first_twice(twice, word, true, used);
            if statement.label.is_none() {
                statement.label = Some(word);
            }
            from = word.end;
        }
        Ok((twice, statement))
    }

    /// The first name of a line that was used before, if the name of the routine that it begins was.
    fn take_routine<'a>(
        &mut self,
        twice: Option<Twice<'a>>,
        statement: Statement<'a>,
        number: usize,
    ) -> Result<Option<Twice<'a>>, AllocError> {
        let Some(begin) = statement.word else {
            return Ok(twice);
        };
        if begin.bytes != b"routine".as_slice() {
            return Ok(twice);
        }
        let Some(word) = word_from(statement.line, begin.end.min(statement.line.len())) else {
            return Ok(twice);
        };
        let Some(name) = name_of(word.bytes) else {
            return Ok(twice);
        };
        let used = self.routines.used_on(name, number)?;
        Ok(first_twice(twice, word, false, used))
    }
}

/// The name that is used twice, or this word, if it was used before.
fn first_twice<'a>(
    twice: Option<Twice<'a>>,
    word: Word<'a>,
    is_label: bool,
    used: Option<usize>,
) -> Option<Twice<'a>> {
    match (twice, used) {
        (None, Some(first)) => Some(Twice {
            word,
            is_label,
            first,
        }),
        (twice, _) => twice,
    }
}
