//! How the answers to a repeated call run.

use crate::answer::Answer;
use std::alloc::{AllocError, Global};
use std::fmt;

/// Answers after one another that are equal, or that are numbers which ascend by one.
#[derive(Drop)]
struct Run<R> {
    first: Answer<R>,
    /// How many answers follow the first one.
    others: u32,
    /// Whether they ascend.
    ascends: bool,
}

impl<R: PartialEq> Run<R> {
    /// Whether this answer belongs to the run, after its last one.
    fn goes_on_with(&self, answer: &Answer<R>) -> bool {
        if self.ascends {
            return self.is_next(answer);
        }
        *answer == self.first || (self.others == 0 && self.is_next(answer))
    }

    /// Whether this answer is the number after the last one of a run that ascends.
    fn is_next(&self, answer: &Answer<R>) -> bool {
        match (&self.first, answer) {
            (Answer::Number(first), Answer::Number(next)) => u64::from(*first)
                + u64::from(self.others)
                + 1
                == u64::from(*next),
            _ => false,
        }
    }
}

impl<R: fmt::Display> fmt::Display for Run<R> {
    fn fmt<W: fmt::Write>(&self, f: &mut fmt::Formatter<W>) -> fmt::Result {
        let first = &self.first;
        let others = u64::from(self.others);
        match first {
            Answer::Number(number) if self.ascends => write!(
                f,
                "{first} to {}",
                u64::from(*number) + others
            ),
            _ if others == 0 => write!(f, "{first}"),
            _ => write!(f, "{first}, {} times", others + 1),
        }
    }
}

/// The answers to a repeated call, as runs.
#[derive(Drop)]
pub struct Series<R> {
    runs: Vec<Run<R>>,
}

impl<R: PartialEq + Drop> Series<R> {
    /// No answer.
    pub fn new(alloc: Global) -> Series<R> {
        let runs = Vec::new(alloc);
        Series { runs }
    }

    /// Puts an answer after the others.
    pub fn add(&mut self, answer: Answer<R>) -> Result<(), AllocError> {
        if let Some(run) = self.runs.last_mut()
            && run.goes_on_with(&answer)
        {
            run.ascends = answer != run.first;
            run.others = run.others.saturating_add(1);
            return Ok(());
        }
        self.runs.push(Run {
            first: answer,
            others: 0,
            ascends: false,
        })?;
        Ok(())
    }
}

impl<R: fmt::Display> fmt::Display for Series<R> {
    fn fmt<W: fmt::Write>(&self, f: &mut fmt::Formatter<W>) -> fmt::Result {
        for (index, run) in self.runs.iter().enumerate() {
            if index > 0 {
                f.write_str("; ")?;
            }
            write!(f, "{run}")?;
        }
        Ok(())
    }
}
