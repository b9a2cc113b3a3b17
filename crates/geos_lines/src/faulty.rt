//! The faulty lines of a text, and what their sentences name.

ghost use Rattle.std.specs.Prelude.{◌≡◌, ◌≤◌, ◌+◌, ◌++◌, ◌↔◌, List, [], None, length, IfOk, OnOk};
ghost use Rattle.geos_source.specs.declared.fault.BadLine.{BadLine};
ghost use Rattle.geos_source.specs.Faults.{at_line};
ghost use Rattle.geos_source.specs.Texts.{fault_of};
ghost use Rattle.geos_lines.specs.Faulty.{AreFaultyLinesOf, IsFound, listed};

use crate::names::{NamesSoFar, Statement, Twice};
use geos_source::{BadLine, Why, faults_of};
use geos_text::{first_line, without_comment};
use std::alloc::{AllocError, Global};

/// How many faulty lines have a sentence.
pub const MOST_TOLD: usize = 1000;

/// A faulty line of a text.
#[derive(Clone, Copy)]
pub struct FaultyLine<'a> {
    /// Its number, and its fault of the lowest number.
    pub fault: BadLine,
    pub(crate) statement: Statement<'a>,
    pub(crate) twice: Option<Twice<'a>>,
}

impl FaultyLine<'_> {
    /// The line where its name is used first, if the fault is that it is used twice.
    pub fn first_use(&self) -> Option<usize> {
        match (self.fault.why, self.twice) {
            (Why::UsedTwice, Some(twice)) => Some(twice.first),
            _ => None,
        }
    }
}

/// The faulty lines of a text.
#[derive(Drop)]
pub struct FaultyLines<'a> {
    /// The first 1,000, in order.
    pub lines: Vec<FaultyLine<'a>>,
    /// How many more there are.
    pub more: usize,
}

impl<'a> FaultyLines<'a> {
    /// Only the fault that is on no line of the text, if there is one.
    fn begin(
        alloc: Global,
        names: &mut NamesSoFar,
        other: Option<BadLine>,
    ) -> Result<FaultyLines<'a>, AllocError>
        ensures found { IfOk result (λ faulty. IsFound (listed other) faulty.lines.items faulty.more) }
        ensures few { IfOk result (λ faulty. length faulty.lines.items + faulty.more ≤ 1) }
    {
        let mut faulty = FaultyLines {
            lines: Vec::new(alloc),
            more: 0,
        };
        match other {
            None => Ok(faulty),
            Some(fault) => {
                faulty.take_line(names, fault.line, &[], Some(fault.why))?;
                Ok(faulty)
            }
        }
    }

    /// Takes the next line of the text, which is faulty if there is a reason why.
    fn take_line(
        &mut self,
        names: &mut NamesSoFar,
        number: usize,
        line: &'a [u8],
        why: Option<Why>,
    ) -> Result<(), AllocError>
        requires { length self.old.lines.items + self.old.more ≤ number }
        ensures found { OnOk result ((earlier : List BadLine) → IsFound earlier self.old.lines.items self.old.more
            → IsFound (earlier ++ listed (at_line number why)) self.new.lines.items self.new.more) }
        ensures few { OnOk result (length self.new.lines.items + self.new.more ≤ length self.old.lines.items + self.old.more + 1) }
    {
        let (twice, statement) = names.take_line(without_comment(line), number)?;
        match why {
            None => Ok(()),
            Some(_) if self.lines.len() == MOST_TOLD => {
                self.more += 1;
                Ok(())
            }
            Some(why) => {
                self.lines.push(FaultyLine {
                    fault: BadLine { line: number, why },
                    statement,
                    twice,
                })?;
                Ok(())
            }
        }
    }
}

/// The faulty lines of a text, each with its fault of the lowest number. A text without lines has its fault on line 1.
/// `AllocError` if the allocator refuses memory.
pub fn faulty_lines(alloc: Global, text: &[u8]) -> Result<FaultyLines, AllocError>
    ensures faults { IfOk result (λ faulty. AreFaultyLinesOf text.now faulty.lines.items faulty.more) }
    ensures silent { IfOk result (λ faulty. (faulty.lines.items ≡ []) ↔ (fault_of text.now ≡ None)) }
{
    let faults = faults_of(alloc, text)?;
    let mut names = NamesSoFar::new(alloc);
    let mut faulty = FaultyLines::begin(alloc, &mut names, faults.rest)?;
    let mut rest = text;
    for i in 0..faults.lines.len() {
        let (line, behind) = first_line(rest);
        rest = behind;
        faulty.take_line(&mut names, i + 1, line, faults.lines[i])?;
    }
    Ok(faulty)
}
