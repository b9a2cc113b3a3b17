//! The faulty lines of a text, all of them.

ghost use Rattle.std.specs.Prelude.{◌≡◌, ◌∷◌, None, IfOk};
ghost use Rattle.std.specs.Str.Lines.{lines};
ghost use Rattle.geos_text.specs.Words.{words};
ghost use Rattle.geos_source.specs.Faults.{first};
ghost use Rattle.geos_source.specs.Declarations.{declared, with_line};
ghost use Rattle.geos_source.specs.Texts.{begin, close, drop_labels, fault_of, take_in, take_instr};
ghost use Rattle.geos_source.specs.Texts.{take_labels, take_line, take_lines, take_out, take_statement};
ghost use Rattle.geos_source.specs.Readings.{names_of};
ghost use Rattle.geos_source.specs.Views.{declared_of};
ghost use Rattle.geos_source.specs.Tallies.{fault_in, noted, told_in};

use crate::declarations::Declarations;
use crate::draft::Draft;
use crate::fault::{BadLine, Why, first, least};
use crate::headers::header;
use crate::items::row_of;
use crate::lines::behind_labels;
use crate::operands::{Names, instruction};
use crate::parser::too_long;
use geos_image::{Instr, Routine, Row};
use geos_text::{first_line, without_comment};
use std::alloc::{AllocError, Global};

/// The faulty lines of a text.
#[derive(Drop)]
pub struct Faults {
    /// Of each line, from the first on, why it is faulty, if it is: of several faults the one of the lowest number.
    pub lines: Vec<Option<Why>>,
    /// The first fault that is on none of these lines, as that of a text without lines is.
    pub rest: Option<BadLine>,
}

/// The faults that are noted so far, and what the lines so far say.
#[derive(Drop)]
struct Tally {
    faults: Faults,
    draft: Draft,
}

impl Faults {
    /// No line is known so far.
    #[tactic(auto, unfolding(crate::specs::Tallies::fault_in))]
    fn new(alloc: Global) -> Faults
        ensures { fault_in result ≡ None }
    {
        Faults {
            lines: Vec::new(alloc),
            rest: None,
        }
    }

    /// Notes a fault.
    fn note(&mut self, fault: Option<BadLine>)
        ensures { fault_in self.new ≡ first (fault_in self.old) fault }
    {
        let Some(fault) = fault else {
            return;
        };
        if 0 < fault.line && fault.line <= self.lines.len() {
            let at = fault.line - 1;
            let why = self.lines[at];
            self.lines[at] = least(why, Some(fault.why));
        } else {
            self.rest = first(self.rest, Some(fault));
        }
    }

    /// Notes that there is one more line.
    fn add_line(&mut self) -> Result<(), AllocError>
        ensures { IfOk result (λ _. fault_in self.new ≡ fault_in self.old) }
    {
        self.lines.push(None)?;
        Ok(())
    }

    /// Notes that there is one more line, and which of its names were used before.
    fn declare_line(
        &mut self,
        declarations: &mut Declarations,
        number: usize,
        line: &[u8],
    ) -> Result<(), AllocError>
        ensures noted { IfOk result (λ _. noted (fault_in self.new) (declared_of declarations.new)
            ≡ with_line number line.now (noted (fault_in self.old) (declared_of declarations.old))) }
        ensures settled { IfOk result (λ _. declarations.new.fault ≡ None) }
    {
        self.add_line()?;
        declarations.add_line(number, line)?;
        self.note(declarations.fault);
        declarations.fault = None;
        Ok(())
    }
}

/// What the lines of a text declare, except for its faults, and the lines that use a name twice.
fn declare_and_note(alloc: Global, text: &[u8]) -> Result<(Declarations, Faults), AllocError>
    ensures noted { IfOk result (λ r. noted (fault_in r.1) (declared_of r.0) ≡ declared (lines text.now)) }
    ensures settled { IfOk result (λ r. r.0.fault ≡ None) }
{
    let mut faults = Faults::new(alloc);
    let mut declarations = Declarations::new(alloc)?;
    let mut rest = text;
    let mut number: usize = 0;
    while !rest.is_empty() {
        let (line, behind) = first_line(rest);
        rest = behind;
        number += 1;
        faults.declare_line(&mut declarations, number, line)?;
    }
    Ok((declarations, faults))
}

impl Tally {
    /// Notes the fault that was found last, if there is one.
    fn settle(&mut self)
        ensures told { told_in self.new ≡ told_in self.old }
        ensures settled { self.new.draft.progress.fault ≡ None }
    {
        self.faults.note(self.draft.progress.fault);
        self.draft.progress.fault = None;
    }

    /// The labels so far are followed by no instruction.
    fn drop_labels(&mut self)
        ensures { told_in self.new ≡ record (told_in self.old) { progress = drop_labels (told_in self.old).progress } }
    {
        self.draft.progress = self.draft.progress.drop_labels();
        self.settle();
    }

    /// The routine that has begun is complete.
    fn close(&mut self) -> Result<(), AllocError>
        ensures told { IfOk result (λ _. told_in self.new ≡ close (told_in self.old)) }
        ensures settled { IfOk result (λ _. self.new.draft.progress.fault ≡ None) }
    {
        self.drop_labels();
        self.draft.close()?;
        self.settle();
        Ok(())
    }

    /// A routine begins, faulty or not.
    fn begin(&mut self, line: usize, read: Result<Routine, Why>)
        ensures { told_in self.new ≡ begin line read (told_in self.old) }
    {
        self.draft.begin(line, read);
        self.settle();
    }

    /// A line `in`.
    fn take_in(&mut self, line: usize, read: Result<Row, Why>)
        ensures { told_in self.new ≡ record (told_in self.old) { progress = take_in line read (told_in self.old).progress } }
    {
        self.draft.progress = self.draft.progress.take_in(line, read);
        self.settle();
    }

    /// A line `out`.
    fn take_out(&mut self, line: usize, read: Result<Row, Why>)
        ensures { told_in self.new ≡ record (told_in self.old) { progress = take_out line read (told_in self.old).progress } }
    {
        self.draft.progress = self.draft.progress.take_out(line, read);
        self.settle();
    }

    /// An instruction, faulty or not.
    fn take_instr(&mut self, line: usize, read: Result<Instr, Why>) -> Result<(), AllocError>
        ensures { IfOk result (λ _. told_in self.new ≡ take_instr line read (told_in self.old)) }
    {
        self.draft.take_instr(line, read)?;
        self.settle();
        Ok(())
    }

    /// Labels, if there are some, wait for an instruction.
    fn take_labels(&mut self, line: usize, has_labels: bool)
        ensures { told_in self.new ≡ record (told_in self.old) { progress = take_labels line has_labels (told_in self.old).progress } }
    {
        self.draft.progress = self.draft.progress.take_labels(line, has_labels);
    }

    fn take_statement(
        &mut self,
        names: &Names,
        line: usize,
        word: &[u8],
        rest: &[u8],
    ) -> Result<(), AllocError>
        ensures { IfOk result (λ _. told_in self.new
            ≡ take_statement (names_of names.now) line (word.now ∷ words rest.now) (told_in self.old)) }
    {
        if word == b"routine".as_slice() {
            self.close()?;
            self.begin(line, header(rest));
            Ok(())
        } else if word == b"in".as_slice() {
            self.drop_labels();
            self.take_in(line, row_of(rest));
            Ok(())
        } else if word == b"out".as_slice() {
            self.drop_labels();
            self.take_out(line, row_of(rest));
            Ok(())
        } else {
            self.take_instr(line, instruction(names, word, rest))
        }
    }

    #[tactic(auto, unfolding(crate::specs::Texts::take_line))]
    fn take_line(&mut self, names: &Names, number: usize, line: &[u8]) -> Result<(), AllocError>
        ensures { IfOk result (λ _. told_in self.new ≡ take_line (names_of names.now) number line.now (told_in self.old)) }
    {
        let (has_labels, statement) = behind_labels(without_comment(line));
        self.take_labels(number, has_labels);
        match statement {
            None => Ok(()),
            Some((word, rest)) => self.take_statement(names, number, word, rest),
        }
    }

    /// All lines of a text, which declare these names.
    fn take_text(&mut self, names: &Names, text: &[u8]) -> Result<(), AllocError>
        ensures told { IfOk result (λ _. told_in self.new ≡ close (take_lines (names_of names.now) 1 (lines text.now) (told_in self.old))) }
        ensures settled { IfOk result (λ _. self.new.draft.progress.fault ≡ None) }
    {
        let mut rest = text;
        let mut number: usize = 0;
        while !rest.is_empty() {
            let (line, behind) = first_line(rest);
            rest = behind;
            number += 1;
            self.take_line(names, number, line)?;
        }
        self.close()
    }
}

/// The faulty lines of a text, each with its fault of the lowest number. There is one exactly if `parse` answers
/// `BadLine`, and the first one is that fault. `AllocError` if the allocator refuses memory.
pub fn faults_of(alloc: Global, text: &[u8]) -> Result<Faults, AllocError>
    ensures { IfOk result (λ faults. fault_in faults ≡ fault_of text.now) }
{
    let (declarations, faults) = declare_and_note(alloc, text)?;
    let draft = Draft::new(alloc, declarations.instrs)?;
    let mut tally = Tally { faults, draft };
    tally.take_text(&declarations.names, text)?;
    tally.faults.note(too_long(text));
    tally
        .faults
        .note(tally.draft.progress.part.without_routine());
    Ok(tally.faults)
}
