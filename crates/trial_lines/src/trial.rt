//! How a trial goes over its lines.

use crate::answer::Answer;
use crate::line::{Line, Reading};
use crate::series::Series;
use std::alloc::{AllocError, Global};
use std::{fmt, io};

/// What the lines make calls on.
pub trait Trial {
    /// Why a call refuses.
    type Refusal: fmt::Display + PartialEq + Drop;

    /// Makes the call of a line once.
    fn answer(
        &mut self,
        alloc: Global,
        line: &Line<'_>,
    ) -> Result<Answer<Self::Refusal>, AllocError>;
}

/// Makes the call of a line as often as the line says.
fn repeat<T: Trial>(
    trial: &mut T,
    alloc: Global,
    line: &Line<'_>,
) -> Result<Series<T::Refusal>, AllocError> {
    let mut answers = Series::new(alloc);
    for _ in 0..line.times {
        answers.add(trial.answer(alloc, line)?)?;
    }
    Ok(answers)
}

/// Makes the call `WORD HANDLE ..` of a line `WORD_each FROM TO ..` for each handle from one to another.
fn for_each<T: Trial>(
    trial: &mut T,
    alloc: Global,
    word: &str,
    line: &Line<'_>,
) -> Result<Series<T::Refusal>, AllocError> {
    let [from, to, second, ..] = line.numbers;
    let mut answers = Series::new(alloc);
    for handle in from..=to {
        let call = Line {
            times: 1,
            word,
            numbers: [handle, second, 0, 0, 0, 0, 0, 0],
        };
        answers.add(trial.answer(alloc, &call)?)?;
    }
    Ok(answers)
}

/// Carries out a line, and prints it again with what it is answered.
pub fn carry_out<T: Trial>(
    rt: &impl Print,
    alloc: Global,
    trial: &mut T,
    text: &str,
) -> io::Result<()> {
    match Reading::of(text) {
        Reading::Call(line) => {
            let answers = match line.word.strip_suffix("_each") {
                Some(word) => for_each(trial, alloc, word, &line)?,
                None => repeat(trial, alloc, &line)?,
            };
            println!(rt; "{text} -> {answers}")
        }
        Reading::Blank => println!(rt; "{text}"),
        Reading::NotACall => println!(rt; "{text} -> not a call"),
    }
}
