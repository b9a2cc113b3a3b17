//! What the names of a text stand for, and the first name that is used twice.

ghost use Rattle.std.specs.Prelude.{◌≡◌, ◌+◌, ◌∷◌, min, IfOk};
ghost use Rattle.std.specs.Str.Lines.{lines};
ghost use Rattle.geos_text.specs.Words.{words};
ghost use Rattle.geos_source.specs.Lines.{parted, IsStatement};
ghost use Rattle.geos_source.specs.Declarations.{nothing, twice, with_label, with_labels, name_in_front};
ghost use Rattle.geos_source.specs.Declarations.{with_routine_name, is_row_word, with_statement, with_line, declared};
ghost use Rattle.geos_source.specs.Views.{declared_of};

use crate::fault::{BadLine, Why, at_line, first};
use crate::names::{Name, Table, label_of, name_of};
use crate::operands::Names;
use geos_image::{MOST_INSTRS, MOST_ROUTINES};
use geos_text::{first_line, first_word, without_comment};
use std::alloc::{AllocError, Global};

/// What the lines so far declare.
#[derive(Drop)]
pub(crate) struct Declarations {
    /// How many routines have begun, up to the most that an image has.
    routines: u16,
    /// How many instructions have begun, up to the most that an image has.
    pub instrs: u16,
    pub names: Names,
    /// The first name that was used before.
    pub fault: Option<BadLine>,
}

/// One more, up to a most.
pub(crate) fn one_more(count: u16, most: u16) -> u16
    ensures { result ≡ min (count + 1) most }
{
    if count < most { count + 1 } else { most }
}

fn twice(old: Option<u16>) -> Option<Why>
    ensures { result ≡ twice old }
{
    match old {
        None => None,
        Some(_) => Some(Why::UsedTwice),
    }
}

/// The line is about the rows of a routine.
fn is_row_word(word: &[u8]) -> bool
    ensures { result ≡ is_row_word word.now }
{
    word == b"in".as_slice() || word == b"out".as_slice()
}

/// The name before the words after `routine`.
fn name_in_front(operands: &[u8]) -> Option<Name>
    ensures { result ≡ name_in_front (words operands.now) }
{
    match first_word(operands) {
        None => None,
        Some((word, _)) => name_of(word),
    }
}

impl Declarations {
    pub(crate) fn new(alloc: Global) -> Result<Declarations, AllocError>
        ensures { IfOk result (λ declarations. declared_of declarations ≡ nothing) }
    {
        let labels = Table::new(alloc)?;
        let routines = Table::new(alloc)?;
        Ok(Declarations {
            routines: 0,
            instrs: 0,
            names: Names { labels, routines },
            fault: None,
        })
    }

    /// A label stands for the next instruction.
    fn add_label(&mut self, line: usize, name: Name) -> Result<(), AllocError>
        ensures { IfOk result (λ _. declared_of self.new ≡ with_label line name (declared_of self.old)) }
    {
        let old = self.names.labels.insert(name, self.instrs)?;
        self.fault = first(self.fault, at_line(line, twice(old)));
        Ok(())
    }

    /// Declares the labels of a line. Returns the first word after them, and the rest of the line.
    fn add_labels<'a>(
        &mut self,
        line: usize,
        said: &'a [u8],
    ) -> Result<Option<(&'a [u8], &'a [u8])>, AllocError>
        ensures statement { IfOk result (IsStatement (parted (words said.now)).statement) }
        ensures labels { IfOk result (λ _. declared_of self.new
            ≡ with_labels line (parted (words said.now)).labels (declared_of self.old)) }
    {
        let mut rest = said;
        while let Some((word, behind)) = first_word(rest) {
            let Some(name) = label_of(word) else {
                return Ok(Some((word, behind)));
            };
            self.add_label(line, name)?;
            rest = behind;
        }
        Ok(None)
    }

    /// A routine's name stands for its place among the routines.
    fn add_routine_name(&mut self, line: usize, name: Option<Name>) -> Result<(), AllocError>
        ensures { IfOk result (λ _. declared_of self.new ≡ with_routine_name line name (declared_of self.old)) }
    {
        let Some(name) = name else {
            return Ok(());
        };
        let old = self.names.routines.insert(name, self.routines)?;
        self.fault = first(self.fault, at_line(line, twice(old)));
        Ok(())
    }

    fn add_statement(&mut self, line: usize, word: &[u8], rest: &[u8]) -> Result<(), AllocError>
        ensures { IfOk result (λ _. declared_of self.new ≡ with_statement line (word.now ∷ words rest.now) (declared_of self.old)) }
    {
        if word == b"routine".as_slice() {
            self.add_routine_name(line, name_in_front(rest))?;
            self.routines = one_more(self.routines, MOST_ROUTINES);
        } else if !is_row_word(word) {
            self.instrs = one_more(self.instrs, MOST_INSTRS);
        }
        Ok(())
    }

    #[tactic(auto, unfolding(crate::specs::Declarations::with_line))]
    pub(crate) fn add_line(&mut self, number: usize, line: &[u8]) -> Result<(), AllocError>
        ensures { IfOk result (λ _. declared_of self.new ≡ with_line number line.now (declared_of self.old)) }
    {
        match self.add_labels(number, without_comment(line))? {
            None => Ok(()),
            Some((word, rest)) => self.add_statement(number, word, rest),
        }
    }
}

/// What the lines of a text declare.
pub(crate) fn declare(alloc: Global, text: &[u8]) -> Result<Declarations, AllocError>
    ensures { IfOk result (λ declarations. declared_of declarations ≡ declared (lines text.now)) }
{
    let mut declarations = Declarations::new(alloc)?;
    let mut rest = text;
    let mut number: usize = 0;
    while !rest.is_empty() {
        let (line, behind) = first_line(rest);
        rest = behind;
        number += 1;
        declarations.add_line(number, line)?;
    }
    Ok(declarations)
}
