//! A trial of calls on blocks, heaps, VM files, kernels and routines. It reads lines with calls, makes one call after the other, and
//! prints each line again with the result of the call. If an allocation is refused, it reports this and ends.
//!
//! `on_blocks`, `on_heap`, `on_file`, `on_kernel` and `on_routines` begin anew with a subject. The lines after them make calls on it. A
//! line has the name of a call and its numbers, in the order of the function's parameters. The head of each
//! subject's module describes its other lines.
//!
//! `times N WORD ..` makes a call so often, and `WORD_each FROM TO ..` makes the call `WORD HANDLE ..` for each handle from one to
//! another. Both tell how the answers run.
#![tactic(auto)]

mod blocks;
mod calls;
mod draft;
mod files;
mod heap;
mod kernel;
mod routines;
mod spans;
mod stand;
mod state;

use blocks::BlockTrial;
use files::FileTrial;
use geos_terms::Refusal;
use heap::HeapTrial;
use kernel::KernelTrial;
use routines::Routines;
use std::alloc::{AllocError, Global};
use std::fmt::Display;
use std::io;
use std::io::ErrorKind;
use std::process::ExitCode;
use trial_lines::{Line, Trial, carry_out, told};

/// What a call answers.
type Answer = trial_lines::Answer<Refusal>;

/// What the lines call.
#[derive(Drop)]
enum Subject {
    Blocks(BlockTrial),
    Heap(HeapTrial),
    File(FileTrial),
    Kernel(KernelTrial),
    Routines(Routines),
}

/// A trial of the lines so far.
#[derive(Drop)]
struct Trials<'a> {
    rt: &'a HostRuntime,
    subject: Subject,
}

impl Trial for Trials<'_> {
    type Refusal = Refusal;

    fn answer(&mut self, alloc: Global, line: &Line<'_>) -> Result<Answer, AllocError> {
        let subject = match line.word {
            "on_blocks" => Subject::Blocks(BlockTrial::new(alloc)?),
            "on_heap" => Subject::Heap(HeapTrial::new(alloc)),
            "on_file" => Subject::File(FileTrial::new(alloc)),
            "on_kernel" => Subject::Kernel(KernelTrial::new(alloc)),
            "on_routines" => Subject::Routines(Routines::new(alloc)),
            _ => return self.call(alloc, line),
        };
        self.put(subject);
        Ok(Answer::Done)
    }
}

impl Trials<'_> {
    /// Takes a line: digits of an image, or a call.
    fn take(&mut self, text: &str) -> io::Result<()> {
        let rt = self.rt;
        match &mut self.subject {
            Subject::Kernel(trial) if trial.routines.takes(text) => trial.routines.take(rt, text),
            Subject::Routines(routines) if routines.takes(text) => routines.take(rt, text),
            _ => carry_out(rt, rt.alloc(), self, text),
        }
    }

    /// Puts this in the place of the subject before.
    fn put(&mut self, subject: Subject) {
        self.subject = subject;
    }

    /// Carries out all lines.
    fn carry_out(&mut self) -> io::Result<()> {
        let rt = self.rt;
        for line in rt.lines(rt.alloc()) {
            self.take(line?.as_str())?;
        }
        Ok(())
    }

    /// Makes a call on the subject.
    fn call(&mut self, alloc: Global, line: &Line<'_>) -> Result<Answer, AllocError> {
        match &mut self.subject {
            Subject::Blocks(trial) => trial.answer(alloc, line),
            Subject::Heap(trial) => trial.answer(alloc, line),
            Subject::File(trial) => trial.answer(self.rt, line),
            Subject::Kernel(trial) => trial.answer(alloc, line),
            Subject::Routines(trial) => trial.answer(alloc, line),
        }
    }
}

/// What a call answers that tells nothing, or why it refuses.
fn done<E: Display + Drop>(alloc: Global, outcome: Result<(), E>) -> Result<Answer, AllocError> {
    match outcome {
        Ok(()) => Ok(Answer::Done),
        Err(why) => told(alloc, why),
    }
}

/// That a call tells this text.
fn text(text: Result<String, AllocError>) -> Result<Answer, AllocError> {
    Ok(Answer::Text(text?))
}

/// Carries out all lines on new subjects.
fn run(rt: &HostRuntime) -> io::Result<()> {
    let subject = Subject::Heap(HeapTrial::new(rt.alloc()));
    let mut trials = Trials { rt, subject };
    trials.carry_out()
}

fn main(rt: HostRuntime) -> io::Result<ExitCode> {
    match run(&rt) {
        Ok(()) => Ok(ExitCode::SUCCESS),
        Err(why) if why.kind() == ErrorKind::OutOfMemory => {
            eprintln!(rt; "memory")?;
            Ok(ExitCode::FAILURE)
        }
        Err(why) => Err(why),
    }
}
