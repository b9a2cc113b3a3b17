//! The words after a command's name, as its request is made of them.

ghost use Rattle.std.specs.Prelude.{◌≢◌};
ghost use Rattle.geos_shell.specs.Limits.{IsWithin};

use crate::numbers::{LAST_STEP, Number, StepRange, number_in, steps_in};
use crate::streams::is_stream;
use clap::ArgMatches;
use clap::parser::ValueSource;
use std::alloc::{AllocError, Global};

/// What a command has under one of its names.
#[derive(Clone, Copy)]
pub(crate) struct Entry<'m, 'a> {
    name: &'a str,
    /// The words, or the default.
    words: &'m [&'a str],
    /// Whether words are given, and not only a default.
    is_given: bool,
}

impl<'m, 'a> Entry<'m, 'a> {
    fn new(name: &'a str, words: &'m [&'a str], source: Option<ValueSource>) -> Entry<'m, 'a> {
        let is_given = matches!(source, Some(ValueSource::CommandLine));
        Entry {
            name,
            words,
            is_given,
        }
    }
}

/// What `clap` found for a command. `ArgMatches` has many parts, and a proof about each of its readers would be longer.
pub(crate) fn entries_of<'m, 'a>(
    alloc: Global,
    matches: &'m ArgMatches<'a>,
) -> Result<Vec<Entry<'m, 'a>>, AllocError> {
    let mut entries = Vec::new(alloc);
    for name in matches.ids() {
        if let Some(words) = matches.get_strs(name) {
            let source = matches.value_source(name);
            entries.push(Entry::new(name, words, source))?;
        }
    }
    Ok(entries)
}

/// The words after a command's name. A command has nothing under a name that is none of its arguments.
#[derive(Clone, Copy)]
pub(crate) struct Given<'m, 'a> {
    pub(crate) entries: &'m [Entry<'m, 'a>],
    /// The columns of the terminal that standard output is, if they are known.
    pub(crate) columns: Option<u32>,
}

impl<'m, 'a> Given<'m, 'a> {
    /// Whether words are given under the name, and not only a default.
    pub(crate) fn has(&self, name: &str) -> bool {
        for entry in self.entries {
            if entry.name == name {
                return entry.is_given;
            }
        }
        false
    }

    /// The words under the name, or its default.
    pub(crate) fn words(&self, name: &str) -> &'m [&'a str] {
        for entry in self.entries {
            if entry.name == name {
                return entry.words;
            }
        }
        &[]
    }

    /// A word that the command may be given.
    pub(crate) fn setting(&self, name: &str) -> Option<&'a str> {
        self.words(name).first().copied()
    }

    /// A word that the command requires, so it exists.
    pub(crate) fn word(&self, name: &str) -> &'a str {
        self.setting(name).unwrap_or("")
    }

    /// Whether a flag is given: `clap` has the word `true` for one that is.
    pub(crate) fn flag(&self, name: &str) -> bool {
        self.word(name) == "true"
    }

    /// How many of the words that are given for these names, with `+` between them, are the standard input.
    pub(crate) fn streams(&self, names: &str) -> usize {
        let mut count: usize = 0;
        for name in names.split('+') {
            for word in self.words(name) {
                if is_stream(word) {
                    count = count.saturating_add(1);
                }
            }
        }
        count
    }

    /// The number that is given, or the greatest one if there is none.
    pub(crate) fn number(&self, number: &Number) -> u32
        requires unit { number.now.unit ≢ 0 }
        requires most { IsWithin number.now number.now.most }
        ensures { IsWithin number.now result }
    {
        match number_in(self.word(number.name)) {
            Some(n) if number.least <= n && n <= number.most && n % number.unit == 0 => n,
            _ => number.most,
        }
    }

    /// The steps of a run that are named, or none. Those that are chosen by what they do are chosen of all, if none are named.
    pub(crate) fn steps(&self) -> StepRange {
        let first = self.setting("from").and_then(number_in);
        if first.is_some() || (self.chooses_steps() && !self.has("steps")) {
            return StepRange {
                skipped: first.unwrap_or(1).saturating_sub(1),
                last: LAST_STEP,
            };
        }
        steps_in(self.word("steps")).unwrap_or(StepRange {
            skipped: 0,
            last: 0,
        })
    }

    /// Whether steps are chosen by what they do.
    fn chooses_steps(&self) -> bool {
        self.has("break") || self.has("when") || self.has("watch")
    }

    /// The number of 16 bits that is given, if there is one.
    pub(crate) fn short_if_any(&self, name: &str) -> Option<u16> {
        if self.has(name) {
            Some(self.short(name))
        } else {
            None
        }
    }

    /// The number of 16 bits that is given, or the greatest one if there is none.
    pub(crate) fn short(&self, name: &str) -> u16 {
        self.word(name).parse().unwrap_or(u16::MAX)
    }
}
