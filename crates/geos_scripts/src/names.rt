//! The names that lines of a script may write.

use geos_text::{first_line, without_comment};
use script_commands::{Line, MOST_KEPT, kept_name};
use std::alloc::{AllocError, Global};

/// Whether the lines of a script may write names for words that calls output.
#[derive(Clone, Copy)]
pub enum NameUse {
    /// They may.
    Allowed,
    /// They may not.
    Refused,
}

/// What a line may contain instead of a number, after the lines before it.
#[derive(Drop)]
pub(crate) struct Names<'a> {
    /// Whether lines may write names.
    pub(crate) uses: NameUse,
    /// The names that lines so far keep, if they may.
    kept: Vec<&'a [u8]>,
    /// The lines that are still to be read, and how many were read.
    rest: &'a [u8],
    passed: usize,
}

/// Keeps the name of a line, if it has one: it does so even if it is bad, as no other line is to be bad by that.
fn keep<'a>(kept: &mut Vec<&'a [u8]>, line: &'a [u8]) -> Result<(), AllocError> {
    if kept.len() < MOST_KEPT {
        if let Some(name) = kept_name(without_comment(line)) {
            kept.push(name)?;
        }
    }
    Ok(())
}

impl<'a> Names<'a> {
    ghost use Rattle.std.specs.Prelude.{◌≡◌};
    ghost use Rattle.geos_scripts.specs.Uses.{may_write};

    /// No line of the script has been read.
    pub(crate) fn new(alloc: Global, script: &'a [u8], uses: NameUse) -> Names<'a> {
        Names {
            uses,
            kept: Vec::new(alloc),
            rest: script,
            passed: 0,
        }
    }

    /// Continues to a line: reads all lines before it.
    pub(crate) fn come_to(&mut self, line: &Line) -> Result<(), AllocError> {
        let before = line.number.saturating_sub(1);
        while self.passed < before && !self.rest.is_empty() {
            let (next, behind) = first_line(self.rest);
            self.rest = behind;
            self.passed += 1;
            if self.are_allowed() {
                keep(&mut self.kept, next)?;
            }
        }
        Ok(())
    }

    pub(crate) fn are_allowed(&self) -> bool
        ensures { result ≡ may_write self.now.uses }
    {
        match self.uses {
            NameUse::Allowed => true,
            NameUse::Refused => false,
        }
    }

    /// Whether no further line may keep a word.
    pub(crate) fn are_full(&self) -> bool {
        self.kept.len() >= MOST_KEPT
    }

    /// Whether a line that was read stores a word under the name after this word's `$`.
    pub(crate) fn have(&self, said: &[u8]) -> bool {
        let Some((b'$', name)) = said.split_first() else {
            return false;
        };
        for kept in &self.kept {
            if *kept == name {
                return true;
            }
        }
        false
    }
}
