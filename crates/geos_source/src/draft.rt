//! What the lines of a text say, one after another.

ghost use Rattle.std.specs.Prelude.{◌≡◌, ◌≤◌, ◌∷◌, ◌++◌, [], None, IfOk, length, true};
ghost use Rattle.std.specs.Str.Lines.{lines};
ghost use Rattle.geos_text.specs.Words.{most_bytes, words};
ghost use Rattle.geos_source.specs.InstrLines.{has_instr, instr_lines, is_instr};
ghost use Rattle.geos_source.specs.Readings.{names_of};
ghost use Rattle.geos_source.specs.Texts.{blank, close, begin, no_room, is_full, take_instr, take_statement, take_line, draft_of};
ghost use Rattle.geos_source.specs.Views.{draft_in, NumbersLine};

use crate::declarations::Declarations;
use crate::fault::Why;
use crate::headers::header;
use crate::items::row_of;
use crate::lines::behind_labels;
use crate::operands::{Names, instruction};
use crate::progress::{Progress, TextRoutine};
use geos_image::{Instr, MOST_INSTRS, MOST_ROUTINES, Routine};
use geos_text::{MOST_BYTES, first_line, without_comment};
use std::alloc::{AllocError, Global};

/// What the lines so far say.
#[derive(Drop)]
pub(crate) struct Draft {
    /// The routines that are complete.
    pub routines: Vec<TextRoutine>,
    /// The instructions.
    pub code: Vec<Instr>,
    /// The number of each one's line.
    pub lines: Vec<u32>,
    pub progress: Progress,
}

fn no_room(routines: &[TextRoutine]) -> Option<Why>
    ensures { result ≡ no_room routines.now }
{
    if routines.len() >= usize::from(MOST_ROUTINES) {
        Some(Why::TooMany)
    } else {
        None
    }
}

fn is_full(code: &[Instr]) -> Option<Why>
    ensures { result ≡ is_full code.now }
{
    if code.len() >= usize::from(MOST_INSTRS) {
        Some(Why::TooMany)
    } else {
        None
    }
}

impl Draft {
    /// An empty draft, with room for so many instructions.
    pub(crate) fn new(alloc: Global, instrs: u16) -> Result<Draft, AllocError>
        ensures said { IfOk result (λ draft. draft_in draft ≡ blank) }
        ensures lines { IfOk result (λ draft. draft.lines.items ≡ []) }
    {
        Ok(Draft {
            routines: Vec::new(alloc),
            code: Vec::with_capacity(alloc, usize::from(instrs))?,
            lines: Vec::with_capacity(alloc, usize::from(instrs))?,
            progress: Progress::new(),
        })
    }

    /// The routine that has begun is complete.
    pub(crate) fn close(&mut self) -> Result<(), AllocError>
        ensures said { IfOk result (λ _. draft_in self.new ≡ close (draft_in self.old)) }
        ensures lines { IfOk result (λ _. self.new.lines.items ≡ self.old.lines.items) }
    {
        if let Some(routine) = self.progress.current {
            self.routines.push(routine)?;
        }
        self.progress = self.progress.close();
        Ok(())
    }

    /// A routine begins, faulty or not.
    pub(crate) fn begin(&mut self, line: usize, read: Result<Routine, Why>)
        ensures said { draft_in self.new ≡ begin line read (draft_in self.old) }
        ensures lines { self.new.lines.items ≡ self.old.lines.items }
    {
        let full = no_room(&self.routines);
        self.progress = self.progress.begin(line, read, full);
    }

    /// An instruction without fault, with the number of its line. A text with a line of a number above these is too long.
    fn put_instr(&mut self, line: usize, instr: Instr) -> Result<(), AllocError>
        ensures others { IfOk result (λ _. (self.new.routines ≡ self.old.routines) × (self.new.progress ≡ self.old.progress)) }
        ensures code { IfOk result (λ _. self.new.code.items ≡ self.old.code.items ++ instr ∷ []) }
        ensures lines { IfOk result (λ _. line ≤ most_bytes → self.new.lines.items ≡ self.old.lines.items ++ line ∷ []) }
    {
        self.code.push(instr)?;
        if line <= MOST_BYTES {
            self.lines.push(line as u32)?;
        }
        Ok(())
    }

    /// An instruction, faulty or not.
    pub(crate) fn take_instr(
        &mut self,
        line: usize,
        read: Result<Instr, Why>,
    ) -> Result<(), AllocError>
        ensures said { IfOk result (λ _. draft_in self.new ≡ take_instr line read (draft_in self.old)) }
        ensures lines { IfOk result (λ _. NumbersLine line true self.old self.new) }
    {
        let why = self.progress.why_of_instr(read, is_full(&self.code));
        self.progress = self.progress.take_instr(line, why);
        match (read, why) {
            (Ok(instr), None) => self.put_instr(line, instr)?,
            (Ok(_), Some(_)) => {}
            (Err(_), _) => {}
        }
        Ok(())
    }

    fn take_statement(
        &mut self,
        names: &Names,
        line: usize,
        word: &[u8],
        rest: &[u8],
    ) -> Result<(), AllocError>
        ensures said { IfOk result (λ _. draft_in self.new
            ≡ take_statement (names_of names.now) line (word.now ∷ words rest.now) (draft_in self.old)) }
        ensures lines { IfOk result (λ _. NumbersLine line (is_instr (word.now ∷ words rest.now)) self.old self.new) }
    {
        if word == b"routine".as_slice() {
            self.close()?;
            self.begin(line, header(rest));
            Ok(())
        } else if word == b"in".as_slice() {
            self.progress = self.progress.drop_labels().take_in(line, row_of(rest));
            Ok(())
        } else if word == b"out".as_slice() {
            self.progress = self.progress.drop_labels().take_out(line, row_of(rest));
            Ok(())
        } else {
            self.take_instr(line, instruction(names, word, rest))
        }
    }

    #[tactic(auto, unfolding(crate::specs::Texts::take_line, crate::specs::InstrLines::has_instr))]
    fn take_line(&mut self, names: &Names, number: usize, line: &[u8]) -> Result<(), AllocError>
        ensures said { IfOk result (λ _. draft_in self.new ≡ take_line (names_of names.now) number line.now (draft_in self.old)) }
        ensures lines { IfOk result (λ _. NumbersLine number (has_instr line.now) self.old self.new) }
    {
        let (has_labels, statement) = behind_labels(without_comment(line));
        self.progress = self.progress.take_labels(number, has_labels);
        match statement {
            None => Ok(()),
            Some((word, rest)) => self.take_statement(names, number, word, rest),
        }
    }
}

/// What all lines of a text say, which declare these names.
pub(crate) fn draft_of(
    alloc: Global,
    declared: &Declarations,
    text: &[u8],
) -> Result<Draft, AllocError>
    ensures said { IfOk result (λ draft. draft_in draft ≡ draft_of (names_of declared.now.names) (lines text.now)) }
    ensures lines { IfOk result (λ draft. length text.now ≤ most_bytes → draft.progress.fault ≡ None
        → draft.lines.items ≡ instr_lines text.now) }
{
    let mut draft = Draft::new(alloc, declared.instrs)?;
    let mut rest = text;
    let mut number: usize = 0;
    while !rest.is_empty() {
        let (line, behind) = first_line(rest);
        rest = behind;
        number += 1;
        draft.take_line(&declared.names, number, line)?;
    }
    draft.close()?;
    Ok(draft)
}
